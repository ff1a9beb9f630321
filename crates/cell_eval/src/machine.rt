ghost use Rattle.std.specs.Prelude.{◌≡◌, ◌≢◌, List, [], ◌∷◌, Some, IsSome, IfOk, drop};
ghost use Rattle.funcs.specs.declared.arg.Arg.{Arg};
ghost use Rattle.funcs.specs.Args.{value_of_argument, number};
ghost use Rattle.cell_eval.specs.Machine.{tested, after_step, run};

use crate::operators::{combined, prefixed};
use crate::stack::Stack;
use formula_code::Step;
use funcs::{Arg, answer, call};
use sheet_value::{Look, Seen, Value, text_value, to_num};
use ss_base::{CalcErr, Memory};
use std::alloc::Global;

/// Does the steps in their order, and gives the stack that they leave.
pub(crate) fn run<L: Look>(alloc: Global, steps: &[Step], look: &L) -> Result<Stack, Memory>
    requires { IsSome (run (L.environment look.now) 0 steps.now []) }
    ensures { IfOk result (λ stack. run (L.environment look.now) 0 steps.now [] ≡ Some stack) }
{
    let mut stack = Stack::new(alloc);
    let mut left = steps;
    while let Some((step, behind)) = left.split_first() {
        let passed = perform(alloc, step, &mut stack, look)?;
        left = past(behind, passed as usize);
    }
    Ok(stack)
}

/// The steps behind the first so many.
fn past(steps: &[Step], count: usize) -> &[Step]
    ensures { result.now ≡ drop count steps.now }
{
    let (_, behind) = steps.split_at(count.min(steps.len()));
    behind
}

/// Does one step, and gives how many steps behind it are passed over.
fn perform<L: Look>(alloc: Global, step: &Step, stack: &mut Stack, look: &L) -> Result<u32, Memory>
    requires { IsSome (after_step (L.environment look.now) step.now stack.old) }
    ensures { IfOk result (λ passed. after_step (L.environment look.now) step.now stack.old ≡ Some (passed, stack.new)) }
{
    match step {
        Step::Num(n) => put(stack, Arg::One(Value::Num(*n))),
        Step::Text(t) => {
            let t = t.copy()?;
            put(stack, Arg::One(text_value(t)))
        }
        Step::Fault(e) => put(stack, Arg::One(Value::Err(*e))),
        Step::Cell(spot) => put(stack, Arg::At(*spot)),
        Step::Range(span) => put(stack, Arg::Over(*span)),
        Step::Pre(op) => {
            let v = pop_value(stack, look)?;
            put(stack, Arg::One(answer(prefixed(*op, &v))))
        }
        Step::Bin(op) => {
            let right = pop_value(stack, look)?;
            let left = pop_value(stack, look)?;
            let v = combined(alloc, *op, &left, &right)?;
            put(stack, Arg::One(v))
        }
        Step::Call(fun, count) => {
            let count = *count as usize;
            let v = call(alloc, fun, stack.top(count), look)?;
            stack.cut(count);
            put(stack, Arg::One(v))
        }
        Step::Test(at_zero, at_error) => test(stack, *at_zero, *at_error, look),
        Step::Skip(count) => {
            let v = pop_value(stack, look)?;
            put(stack, Arg::One(v))?;
            Ok(*count)
        }
    }
}

/// Puts an argument on top; nothing is passed over.
fn put(stack: &mut Stack, arg: Arg) -> Result<u32, Memory>
    ensures { IfOk result (λ passed. (passed ≡ 0) × (stack.new ≡ arg ∷ stack.old)) }
{
    stack.push(arg)?;
    Ok(0)
}

/// Takes the argument on top as a number, and gives how many steps are passed over then. An error
/// stays.
fn test<L: Look>(stack: &mut Stack, at_zero: u32, at_error: u32, look: &L) -> Result<u32, Memory>
    requires { stack.old ≢ [] }
    ensures { IfOk result (λ passed. (a : Arg) × (rest : List Arg) × (stack.old ≡ a ∷ rest) × (tested at_zero at_error (number (L.environment look.now) a) rest ≡ (passed, stack.new))) }
{
    let v = pop_value(stack, look)?;
    match to_num(&v) {
        Ok(0) => Ok(at_zero),
        Ok(_) => Ok(0),
        Err(e) => {
            put(stack, Arg::One(Value::Err(e)))?;
            Ok(at_error)
        }
    }
}

/// The value of the argument on top, which it takes.
pub(crate) fn pop_value<L: Look>(stack: &mut Stack, look: &L) -> Result<Value, Memory>
    requires { stack.old ≢ [] }
    ensures { IfOk result (λ v. (a : Arg) × (stack.old ≡ a ∷ stack.new) × (v ≡ value_of_argument (L.environment look.now) a)) }
{
    value_of(stack.pop(), look)
}

/// An argument as a value.
fn value_of<L: Look>(arg: Arg, look: &L) -> Result<Value, Memory>
    ensures { IfOk result (λ v. v ≡ value_of_argument (L.environment look.now) arg) }
{
    match arg {
        Arg::One(v) => Ok(v),
        Arg::At(spot) => match look.cell(&spot) {
            Seen::Empty => Ok(Value::Empty),
            Seen::Lost => Ok(Value::Err(CalcErr::Lost)),
            Seen::Is(v) => v.copy(),
        },
        Arg::Over(span) => match look.range(&span) {
            Some(_) => Ok(Value::Err(CalcErr::BadKind)),
            None => Ok(Value::Err(CalcErr::Lost)),
        },
    }
}
