use formula_tree::{Expr, Formula, Fun, PreOp, nesting, weight};
use ss_base::{Seq, Txt};
use std::test::Fail;

#[test]
fn copies_with_ample_memory(rt: HostRuntime) -> Result<(), Fail> {
    let alloc = rt.alloc();
    let operand = Box::new(alloc, Expr::Num(5))?;
    let formula = Formula::new(Expr::Pre(PreOp::Minus, operand));
    let copied = formula.copy()?;
    assert_eq!(rt; weight(copied.expr()), 2);
    assert_eq!(rt; nesting(copied.expr()), 2);
    Ok(())
}

#[test]
fn copies_unknown_names_with_ample_memory(rt: HostRuntime) -> Result<(), Fail> {
    let alloc = rt.alloc();
    let fun = Fun::Unknown(Txt::new(alloc, b"ROUND")?).copy()?;
    let call = Expr::Call(fun, Seq::new(alloc));
    assert_eq!(rt; weight(&call), 6);
    assert_eq!(rt; nesting(&call), 1);
    Ok(())
}

#[test]
fn names_functions_in_either_case(rt: HostRuntime) -> Result<(), Fail> {
    let alloc = rt.alloc();
    assert!(rt; matches!(Fun::named(alloc, b"sumIF")?, Fun::Sumif));
    assert!(rt; matches!(Fun::named(alloc, b"IF")?, Fun::If));
    let unknown = Fun::named(alloc, b"Log10")?;
    assert!(rt; matches!(unknown, Fun::Unknown(_)));
    assert_eq!(rt; unknown.name(), b"LOG10".as_slice());
    Ok(())
}
