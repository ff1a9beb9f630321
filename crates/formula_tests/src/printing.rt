ghost use Rattle.std.specs.Prelude.{◌≡◌, ◌<◌, ◌^◌, length, IfOk};
ghost use Rattle.formula_tree.specs.Erase.{tree_of};
ghost use Rattle.formula_tree.specs.Printed.{formula_text};
ghost use Rattle.formula_tree.specs.WellFormed.{IsFormula};
ghost use Rattle.formula_tree.specs.Tree.{pre, bin, call, none, more};

use formula_print::{formulas_are_read_back, print};
use formula_read::{ParseErr, parse};
use formula_tree::{BinOp, Expr, Formula, Fun, PreOp};
use ss_base::{Memory, Seq, Span, Spot, Txt};
use std::alloc::Global;
use std::test::Fail;

fn signed(alloc: Global, op: PreOp, operand: Expr) -> Result<Expr, Memory>
    ensures { IfOk result (λ e. tree_of e ≡ pre op (tree_of operand)) }
{
    let operand = Box::new(alloc, operand)?;
    Ok(Expr::Pre(op, operand))
}

fn pair(alloc: Global, op: BinOp, left: Expr, right: Expr) -> Result<Expr, Memory>
    ensures { IfOk result (λ e. tree_of e ≡ bin op (tree_of left) (tree_of right)) }
{
    let left = Box::new(alloc, left)?;
    let right = Box::new(alloc, right)?;
    Ok(Expr::Bin(op, left, right))
}

fn called(alloc: Global, fun: Fun, arg: Expr) -> Result<Expr, Memory>
    ensures { IfOk result (λ e. tree_of e ≡ call fun (more (tree_of arg) none)) }
{
    let mut args = Seq::new(alloc);
    args.push(arg)?;
    Ok(Expr::Call(fun, args))
}

/// The formula of an expression, printed and read again.
fn read_back(alloc: Global, expr: Expr) -> Result<Formula, Memory>
    requires formula { IsFormula (tree_of expr) }
    requires short { length (formula_text (tree_of expr)) < 2 ^ 24 }
    ensures { IfOk result (λ f. f ≡ tree_of expr) }
{
    formulas_are_read_back();
    let text = print(alloc, &Formula::new(expr))?;
    match parse(alloc, &text) {
        Ok(formula) => Ok(formula),
        Err(ParseErr::Memory) => Err(Memory),
        Err(ParseErr::At(_)) => unreachable!(),
        Err(ParseErr::Deep) => unreachable!(),
    }
}

#[test]
fn puts_brackets_where_they_are_needed(rt: HostRuntime) -> Result<(), Fail> {
    let alloc = rt.alloc();
    let inner = pair(alloc, BinOp::Sub, Expr::Num(2), Expr::Num(3))?;
    let right = Formula::new(pair(alloc, BinOp::Sub, Expr::Num(1), inner)?);
    assert_eq!(rt; print(alloc, &right)?.bytes(), b"=1-(2-3)".as_slice());
    let inner = pair(alloc, BinOp::Sub, Expr::Num(1), Expr::Num(2))?;
    let left = Formula::new(pair(alloc, BinOp::Sub, inner, Expr::Num(3))?);
    assert_eq!(rt; print(alloc, &left)?.bytes(), b"=1-2-3".as_slice());
    Ok(())
}

#[test]
fn puts_brackets_below_signs(rt: HostRuntime) -> Result<(), Fail> {
    let alloc = rt.alloc();
    let inner = pair(alloc, BinOp::Pow, Expr::Num(2), Expr::Num(2))?;
    let above = Formula::new(signed(alloc, PreOp::Minus, inner)?);
    assert_eq!(rt; print(alloc, &above)?.bytes(), b"=-(2^2)".as_slice());
    let inner = signed(alloc, PreOp::Minus, Expr::Num(2))?;
    let below = Formula::new(pair(alloc, BinOp::Pow, inner, Expr::Num(2))?);
    assert_eq!(rt; print(alloc, &below)?.bytes(), b"=-2^2".as_slice());
    Ok(())
}

#[test]
fn prints_calls_and_references(rt: HostRuntime) -> Result<(), Fail> {
    let alloc = rt.alloc();
    let range = Span {
        top: 0,
        left: 0,
        bottom: 1,
        right: 1,
        abs_top: false,
        abs_left: false,
        abs_bottom: false,
        abs_right: false,
    };
    let cell = Spot {
        row: 0,
        col: 1,
        abs_row: true,
        abs_col: true,
    };
    let sum = called(alloc, Fun::Sum, Expr::Range(range))?;
    let formula = Formula::new(pair(alloc, BinOp::Add, sum, Expr::Cell(cell))?);
    assert_eq!(rt;
        print(alloc, &formula)?.bytes(),
        b"=SUM(A1:B2)+$B$1".as_slice()
    );
    Ok(())
}

#[test]
fn doubles_quotes(rt: HostRuntime) -> Result<(), Fail> {
    let alloc = rt.alloc();
    let text = Txt::new(alloc, b"say \"hi\"")?;
    let formula = Formula::new(Expr::Text(text));
    assert_eq!(rt;
        print(alloc, &formula)?.bytes(),
        b"=\"say \"\"hi\"\"\"".as_slice()
    );
    Ok(())
}

#[test]
fn reads_back_what_it_prints(rt: HostRuntime) -> Result<(), Fail> {
    let alloc = rt.alloc();
    let inner = pair(alloc, BinOp::Pow, Expr::Num(2), Expr::Num(3))?;
    let power = pair(alloc, BinOp::Pow, Expr::Num(1), inner)?;
    let formula = read_back(alloc, signed(alloc, PreOp::Minus, power)?)?;
    assert_eq!(rt; print(alloc, &formula)?.bytes(), b"=-(1^(2^3))".as_slice());
    Ok(())
}
