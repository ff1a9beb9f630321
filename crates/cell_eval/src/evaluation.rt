ghost use Rattle.std.specs.Prelude.{◌≡◌, ◌+◌, IfOk};
ghost use Rattle.sheet_value.specs.Environment.{HasShortTexts};
ghost use Rattle.sheet_value.specs.Values.{IsWithinLimit};
ghost use Rattle.cell_eval.specs.Meaning.{or_zero, formula_value};

use crate::counter::Steps;
use crate::machine::{pop_value, run};
use formula_code::Code;
use sheet_value::{Look, Value};
use ss_base::Memory;
use std::alloc::Global;
use std::sync::ledger::Ledger;

/// What a formula comes to where `look` shows the sheet: the meaning of its tree, with an empty value
/// turned into 0. Each call counts once in `steps`. The time is linear in the code's steps that are
/// not passed over and the cells that their functions look at.
pub fn eval<L: Look, G: Ledger>(
    alloc: Global,
    code: &Code,
    look: &L,
    steps: &mut Steps<G>,
) -> Result<Value, Memory>
    ensures value { IfOk result (λ v. v ≡ formula_value (L.environment look.now) code.now) }
    ensures limit { HasShortTexts (L.environment look.now) → IfOk result (λ v. IsWithinLimit v) }
    ensures count { steps.new ≡ steps.old + 1 }
{
    steps.tick();
    let mut stack = run(alloc, code.steps().as_slice(), look)?;
    let v = pop_value(&mut stack, look)?;
    Ok(or_zero(v))
}

/// A value, with an empty one turned into 0.
fn or_zero(v: Value) -> Value
    ensures { result ≡ or_zero v }
{
    match v {
        Value::Empty => Value::Num(0),
        v => v,
    }
}
