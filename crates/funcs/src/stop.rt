ghost use Rattle.std.specs.Prelude.{◌≡◌, IfOk, Result};
ghost use Rattle.ss_base.specs.declared.types.CalcErr.{CalcErr};
ghost use Rattle.sheet_value.specs.declared.value.Value.{Value};
ghost use Rattle.funcs.specs.Steps.{answer};
ghost use Rattle.funcs.specs.Refs.{owned_result};
ghost use Rattle.funcs.specs.Stops.{Yields};

use crate::value_ref::ValueRef;
use sheet_value::Value;
use ss_base::{CalcErr, Memory};
use std::alloc::AllocError;

/// Why a function comes to no value: an error, which is then its result, or want of memory.
#[derive(Clone, Copy, Debug)]
pub(crate) enum Stop {
    Fault(CalcErr),
    Memory,
}

impl From<CalcErr> for Stop {
    ghost use Rattle.funcs.specs.declared.stop.Stop.TheVariants as stop;

    ghost from_gives = { λ e s. s ≡ stop.Fault e };

    fn from(e: CalcErr) -> Stop {
        Stop::Fault(e)
    }
}

impl From<Memory> for Stop {
    ghost use Rattle.funcs.specs.declared.stop.Stop.TheVariants as stop;

    ghost from_gives = { λ _ s. s ≡ stop.Memory };

    fn from(_: Memory) -> Stop {
        Stop::Memory
    }
}

impl From<AllocError> for Stop {
    ghost use Rattle.funcs.specs.declared.stop.Stop.TheVariants as stop;

    ghost from_gives = { λ _ s. s ≡ stop.Memory };

    fn from(_: AllocError) -> Stop {
        Stop::Memory
    }
}

/// The value, or the error as a value.
pub fn answer(outcome: Result<Value, CalcErr>) -> Value
    ensures { result ≡ answer outcome }
{
    match outcome {
        Ok(v) => v,
        Err(e) => Value::Err(e),
    }
}

/// The same, unless memory was wanting.
pub(crate) fn settled(outcome: Result<Value, Stop>) -> Result<Value, Memory>
    ensures { (r : Result Value CalcErr) → Yields outcome r → IfOk result (λ v. v ≡ answer r) }
{
    match outcome {
        Ok(v) => Ok(v),
        Err(Stop::Fault(e)) => Ok(Value::Err(e)),
        Err(Stop::Memory) => Err(Memory),
    }
}

/// A copy of the value, or the error as a value.
pub(crate) fn copied(outcome: Result<ValueRef<'_>, CalcErr>) -> Result<Value, Memory>
    ensures { IfOk result (λ v. v ≡ answer (owned_result outcome.entry)) }
{
    match outcome {
        Ok(v) => v.copy(),
        Err(e) => Ok(Value::Err(e)),
    }
}
