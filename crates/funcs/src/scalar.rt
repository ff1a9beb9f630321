ghost use Rattle.std.specs.Prelude.{◌≡◌};
ghost use Rattle.funcs.specs.Refs.{owned_result};
ghost use Rattle.funcs.specs.Scalars.{abs_of, sign_of, dividend_and_divisor, mod_of, quotient_of, if_of, not_of, iferror_of, test_of, is_error, is_na, is_blank, is_number, is_text, na_of, truth_of, choose_of};

use crate::arg::{Arg, number, value};
use crate::arity::{none, one, two, two_or_more, two_or_three};
use crate::number::{divisor, floor_rem, number_value, place, truth};
use crate::value_ref::ValueRef;
use sheet_value::{Look, Value};
use ss_base::CalcErr;

pub(crate) fn abs<L: Look>(args: &[Arg], look: &L) -> Result<Value, CalcErr>
    ensures { result ≡ abs_of (L.environment look.now) args.now }
{
    let a = one(args)?;
    let n = number(a, look)?;
    number_value(i128::from(n).abs())
}

pub(crate) fn sign<L: Look>(args: &[Arg], look: &L) -> Result<Value, CalcErr>
    ensures { result ≡ sign_of (L.environment look.now) args.now }
{
    let a = one(args)?;
    let n = number(a, look)?;
    Ok(Value::Num(n.signum()))
}

pub(crate) fn dividend_and_divisor<L: Look>(args: &[Arg], look: &L) -> Result<(i64, i64), CalcErr>
    ensures { result ≡ dividend_and_divisor (L.environment look.now) args.now }
{
    let (a, b) = two(args)?;
    let a = number(a, look)?;
    let b = number(b, look)?;
    Ok((a, divisor(b)?))
}

pub(crate) fn modulo<L: Look>(args: &[Arg], look: &L) -> Result<Value, CalcErr>
    ensures { result ≡ mod_of (L.environment look.now) args.now }
{
    let (a, b) = dividend_and_divisor(args, look)?;
    number_value(floor_rem(a, b))
}

pub(crate) fn quotient<L: Look>(args: &[Arg], look: &L) -> Result<Value, CalcErr>
    ensures { result ≡ quotient_of (L.environment look.now) args.now }
{
    let (a, b) = dividend_and_divisor(args, look)?;
    number_value(i128::from(a) / i128::from(b))
}

/// The value that an IF comes to.
pub(crate) fn if_value<'a, L: Look>(args: &'a [Arg], look: &'a L) -> Result<ValueRef<'a>, CalcErr>
    ensures { owned_result result ≡ if_of (L.environment look.now) args.now }
{
    let (c, x, y) = two_or_three(args)?;
    if number(c, look)? != 0 {
        return Ok(value(x, look));
    }
    match y {
        Some(y) => Ok(value(y, look)),
        None => Ok(ValueRef::Num(0)),
    }
}

pub(crate) fn not<L: Look>(args: &[Arg], look: &L) -> Result<Value, CalcErr>
    ensures { result ≡ not_of (L.environment look.now) args.now }
{
    let a = one(args)?;
    let n = number(a, look)?;
    Ok(truth(n == 0))
}

/// The value that an IFERROR comes to.
pub(crate) fn iferror_value<'a, L: Look>(
    args: &'a [Arg],
    look: &'a L,
) -> Result<ValueRef<'a>, CalcErr>
    ensures { owned_result result ≡ iferror_of (L.environment look.now) args.now }
{
    let (x, y) = two(args)?;
    match value(x, look) {
        ValueRef::Err(_) => Ok(value(y, look)),
        v => Ok(v),
    }
}

pub(crate) fn iserror<L: Look>(args: &[Arg], look: &L) -> Result<Value, CalcErr>
    ensures { result ≡ test_of is_error (L.environment look.now) args.now }
{
    let a = one(args)?;
    Ok(truth(matches!(value(a, look), ValueRef::Err(_))))
}

pub(crate) fn isna<L: Look>(args: &[Arg], look: &L) -> Result<Value, CalcErr>
    ensures { result ≡ test_of is_na (L.environment look.now) args.now }
{
    let a = one(args)?;
    Ok(truth(matches!(value(a, look), ValueRef::Err(CalcErr::Na))))
}

pub(crate) fn isblank<L: Look>(args: &[Arg], look: &L) -> Result<Value, CalcErr>
    ensures { result ≡ test_of is_blank (L.environment look.now) args.now }
{
    let a = one(args)?;
    Ok(truth(matches!(value(a, look), ValueRef::Empty)))
}

pub(crate) fn isnumber<L: Look>(args: &[Arg], look: &L) -> Result<Value, CalcErr>
    ensures { result ≡ test_of is_number (L.environment look.now) args.now }
{
    let a = one(args)?;
    Ok(truth(matches!(value(a, look), ValueRef::Num(_))))
}

pub(crate) fn istext<L: Look>(args: &[Arg], look: &L) -> Result<Value, CalcErr>
    ensures { result ≡ test_of is_text (L.environment look.now) args.now }
{
    let a = one(args)?;
    Ok(truth(matches!(value(a, look), ValueRef::Text(_))))
}

pub(crate) fn na(args: &[Arg]) -> Result<Value, CalcErr>
    ensures { result ≡ na_of args.now }
{
    none(args)?;
    Err(CalcErr::Na)
}

pub(crate) fn constant(b: bool, args: &[Arg]) -> Result<Value, CalcErr>
    ensures { result ≡ truth_of b args.now }
{
    none(args)?;
    Ok(truth(b))
}

/// The value that a CHOOSE comes to.
pub(crate) fn choose_value<'a, L: Look>(
    args: &'a [Arg],
    look: &'a L,
) -> Result<ValueRef<'a>, CalcErr>
    ensures { owned_result result ≡ choose_of (L.environment look.now) args.now }
{
    let (i, values) = two_or_more(args)?;
    let i = number(i, look)?;
    let k = place(i)?;
    match values.get(k) {
        Some(a) => Ok(value(a, look)),
        None => Err(CalcErr::BadKind),
    }
}
