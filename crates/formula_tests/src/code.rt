use formula_code::{Step, compile};
use formula_tree::{Expr, Formula};
use std::test::Fail;

#[test]
fn code_of_a_number(rt: HostRuntime) -> Result<(), Fail> {
    let code = compile(rt.alloc(), &Formula::new(Expr::Num(2)))?;
    assert!(rt; matches!(code.steps().as_slice(), [Step::Num(2)]));
    Ok(())
}
