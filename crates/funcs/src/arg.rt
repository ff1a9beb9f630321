ghost use Rattle.std.specs.Prelude.{◌≡◌};
ghost use Rattle.funcs.specs.Args.{value_of_argument, number};
ghost use Rattle.funcs.specs.Refs.{owned};

use crate::value_ref::ValueRef;
use sheet_value::{Look, Value};
use ss_base::{CalcErr, Span, Spot};

/// An argument of a call: a value, a reference to a cell, or one to a range.
#[derive(Debug, Drop)]
pub enum Arg {
    One(Value),
    At(Spot),
    Over(Span),
}

/// An argument as a value.
pub(crate) fn value<'a, L: Look>(arg: &'a Arg, look: &'a L) -> ValueRef<'a>
    ensures { owned result ≡ value_of_argument (L.environment look.now) arg.now }
{
    match arg {
        Arg::One(v) => ValueRef::of(v),
        Arg::At(spot) => ValueRef::seen(look.cell(spot)),
        Arg::Over(span) => match look.range(span) {
            Some(_) => ValueRef::Err(CalcErr::BadKind),
            None => ValueRef::Err(CalcErr::Lost),
        },
    }
}

/// An argument as a number.
pub(crate) fn number<L: Look>(arg: &Arg, look: &L) -> Result<i64, CalcErr>
    ensures { result ≡ number (L.environment look.now) arg.now }
{
    value(arg, look).number()
}
