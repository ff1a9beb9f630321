ghost use Rattle.std.specs.Prelude.{◌≡◌, ◌∷◌, [], ◌++◌, ◌<◌, ◌≤◌, ◌^◌, All, length, map as map_list, IfOk, OnOk};
ghost use Rattle.std.specs.List.{flat_map};
ghost use Rattle.formula_tree.specs.Erase.{tree_of};
ghost use Rattle.formula_tree.specs.Measures.{node_count};
ghost use Rattle.formula_code.specs.Code.{is_choice, if_code, expr_code};

use crate::code::Code;
use crate::step::Step;
use formula_tree::{Expr, Formula, Fun};
use ss_base::{Memory, Seq};
use std::alloc::Global;
use std::snapshot::Snapshot;

/// The code of a formula. The time is linear in the formula; it calls itself once a level, of which a
/// formula has at most 64.
pub fn compile(alloc: Global, formula: &Formula) -> Result<Code, Memory>
    ensures { IfOk result (λ c. c ≡ formula.now) }
{
    let mut steps = Vec::new(alloc);
    push_tree(&mut steps, formula.expr())?;
    Ok(Code {
        steps: Seq::from_vec(steps),
        formula: Snapshot::of(formula),
    })
}

/// Appends the code of an expression.
#[cycle(compile)]
fn push_tree(steps: &mut Vec<Step>, expr: &Expr) -> Result<(), Memory>
    requires { node_count (tree_of expr.now) < 2 ^ 24 }
    ensures { OnOk result (steps.new.items ≡ steps.old.items ++ expr_code expr.now) }
{
    match expr {
        Expr::Num(n) => push(steps, Step::Num(*n)),
        Expr::Text(t) => {
            let t = t.copy()?;
            push(steps, Step::Text(t))
        }
        Expr::Err(e) => push(steps, Step::Fault(*e)),
        Expr::Cell(c) => push(steps, Step::Cell(*c)),
        Expr::Range(r) => push(steps, Step::Range(*r)),
        Expr::Pre(op, e) => {
            push_tree(steps, e)?;
            push(steps, Step::Pre(*op))
        }
        Expr::Bin(op, d, e) => {
            push_tree(steps, d)?;
            push_tree(steps, e)?;
            push(steps, Step::Bin(*op))
        }
        Expr::Call(fun, args) => {
            let args = args.as_slice();
            if is_choice(fun, args.len()) {
                return push_choice(steps, args);
            }
            push_all(steps, args)?;
            let fun = fun.copy()?;
            push(steps, Step::Call(fun, args.len() as u32))
        }
    }
}

/// Appends the code of several expressions, one behind the other.
#[cycle(compile)]
fn push_all(steps: &mut Vec<Step>, exprs: &[Expr]) -> Result<(), Memory>
    requires { All (λ e. node_count (tree_of e) < 2 ^ 24) exprs.now }
    ensures { OnOk result (steps.new.items ≡ steps.old.items ++ flat_map expr_code exprs.now) }
{
    for e in exprs {
        push_tree(steps, e)?;
    }
    Ok(())
}

/// Appends the code of a choice with these arguments. What its test and its first branch pass over is
/// written once the branches stand.
#[cycle(compile)]
fn push_choice(steps: &mut Vec<Step>, args: &[Expr]) -> Result<(), Memory>
    requires many { 2 ≤ length args.now }
    requires few { length args.now ≤ 3 }
    requires small { All (λ e. node_count (tree_of e) < 2 ^ 24) args.now }
    ensures { OnOk result (steps.new.items ≡ steps.old.items ++ if_code (map_list expr_code args.now)) }
{
    push_tree(steps, &args[0])?;
    let tested = steps.len();
    push(steps, Step::Test(0, 0))?;
    push_tree(steps, &args[1])?;
    let first_end = steps.len();
    push(steps, Step::Skip(0))?;
    match args.get(2) {
        Some(y) => push_tree(steps, y)?,
        None => push(steps, Step::Num(0))?,
    }
    let second_end = steps.len();
    push(steps, Step::Skip(0))?;
    let first = (first_end - tested) as u32;
    let second = (second_end - first_end) as u32;
    steps[tested] = Step::Test(first, first + second);
    steps[first_end] = Step::Skip(second);
    Ok(())
}

/// Appends a step.
fn push(steps: &mut Vec<Step>, step: Step) -> Result<(), Memory>
    ensures { OnOk result (steps.new.items ≡ steps.old.items ++ step ∷ []) }
{
    steps.push(step)?;
    Ok(())
}

fn is_choice(fun: &Fun, count: usize) -> bool
    ensures { result ≡ is_choice fun.now count }
{
    matches!(fun, Fun::If) && (count == 2 || count == 3)
}
