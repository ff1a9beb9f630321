ghost use Rattle.std.specs.Prelude.{◌≡◌, IfOk, unwrap_or};
ghost use Rattle.std.specs.Option.{option_copied};
ghost use Rattle.ss_base.specs.declared.types.CalcErr.TheVariants as fault;
ghost use Rattle.sheet_value.specs.declared.value.Value.TheVariants as value;
ghost use Rattle.sheet_value.specs.Values.{number_of, text_of};
ghost use Rattle.sheet_value.specs.Environment.{seen_value};
ghost use Rattle.funcs.specs.Areas.{same};
ghost use Rattle.funcs.specs.Refs.{owned};
ghost use Rattle.funcs.specs.Stops.{Yields};

use crate::stop::Stop;
use crate::text_ref::TextRef;
use sheet_value::{Seen, Value, to_text};
use ss_base::{CalcErr, Memory, Txt};
use std::alloc::Global;

/// A value that borrows its text.
#[derive(Clone, Copy, Debug)]
pub(crate) enum ValueRef<'a> {
    Empty,
    Num(i64),
    Text(&'a Txt),
    Err(CalcErr),
}

impl<'a> ValueRef<'a> {
    pub(crate) fn of(value: &'a Value) -> ValueRef<'a>
        ensures { owned result ≡ value.now }
    {
        match value {
            Value::Empty => ValueRef::Empty,
            Value::Num(n) => ValueRef::Num(*n),
            Value::Text(t) => ValueRef::Text(t),
            Value::Err(e) => ValueRef::Err(*e),
        }
    }

    /// What is found, `None` for an empty value.
    pub(crate) fn found(found: Option<&'a Value>) -> ValueRef<'a>
        ensures { owned result ≡ unwrap_or (option_copied found.entry) value.Empty }
    {
        match found {
            Some(value) => ValueRef::of(value),
            None => ValueRef::Empty,
        }
    }

    /// What is seen, and `#REF!` for a lost reference.
    pub(crate) fn seen(seen: Seen<'a>) -> ValueRef<'a>
        ensures { owned result ≡ unwrap_or (seen_value seen.entry) (value.Err fault.Lost) }
    {
        match seen {
            Seen::Empty => ValueRef::Empty,
            Seen::Lost => ValueRef::Err(CalcErr::Lost),
            Seen::Is(v) => ValueRef::of(v),
        }
    }

    pub(crate) fn number(self) -> Result<i64, CalcErr>
        ensures { result ≡ number_of (owned self.entry) }
    {
        match self {
            ValueRef::Empty => Ok(0),
            ValueRef::Num(n) => Ok(n),
            ValueRef::Text(_) => Err(CalcErr::BadKind),
            ValueRef::Err(e) => Err(e),
        }
    }

    /// The value as a text. It takes memory for that of a number.
    pub(crate) fn text(self, alloc: Global) -> Result<TextRef<'a>, Stop>
        ensures { Yields result (text_of (owned self.entry)) }
    {
        match self {
            ValueRef::Empty => Ok(TextRef::made(Txt::new(alloc, b"")?)),
            ValueRef::Num(n) => Ok(TextRef::made(to_text(alloc, &Value::Num(n))??)),
            ValueRef::Text(t) => Ok(TextRef::lent(t)),
            ValueRef::Err(e) => Err(Stop::Fault(e)),
        }
    }

    pub(crate) fn copy(self) -> Result<Value, Memory>
        ensures { IfOk result (λ v. v ≡ owned self.entry) }
    {
        match self {
            ValueRef::Empty => Ok(Value::Empty),
            ValueRef::Num(n) => Ok(Value::Num(n)),
            ValueRef::Text(t) => Ok(Value::Text(t.copy()?)),
            ValueRef::Err(e) => Ok(Value::Err(e)),
        }
    }

    /// Both numbers and equal, or both texts and equal.
    pub(crate) fn is_same(self, x: ValueRef<'_>) -> bool
        ensures { result ≡ same (owned self.entry) (owned x.entry) }
    {
        match (self, x) {
            (ValueRef::Num(m), ValueRef::Num(n)) => m == n,
            (ValueRef::Text(s), ValueRef::Text(t)) => s.bytes() == t.bytes(),
            _ => false,
        }
    }
}
