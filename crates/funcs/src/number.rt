ghost use Rattle.std.specs.Prelude.{◌≡◌, ◌≢◌, pos, ◌-ℤ◌, ◌*ℤ◌};
ghost use Rattle.funcs.specs.Numbers.{in_range, number_value, truth, divisor, floor_div, byte_count, place};

use sheet_value::Value;
use ss_base::CalcErr;

/// A number, where it has 64 bits.
pub(crate) fn in_range(n: i128) -> Result<i64, CalcErr>
    ensures { result ≡ in_range n }
{
    match i64::try_from(n) {
        Ok(n) => Ok(n),
        Err(_) => Err(CalcErr::BadNum),
    }
}

/// A number as a value; one outside 64 bits is `#NUM!`.
pub fn number_value(n: i128) -> Result<Value, CalcErr>
    ensures { result ≡ number_value n }
{
    let n = in_range(n)?;
    Ok(Value::Num(n))
}

/// 1 for true, 0 for false.
pub fn truth(b: bool) -> Value
    ensures { result ≡ truth b }
{
    Value::Num(i64::from(b))
}

/// A number that isn't 0, which is `#DIV/0!`.
pub fn divisor(n: i64) -> Result<i64, CalcErr>
    ensures { result ≡ divisor n }
{
    if n == 0 {
        return Err(CalcErr::Div0);
    }
    Ok(n)
}

/// How many bytes are meant.
pub(crate) fn byte_count(n: i64) -> Result<usize, CalcErr>
    ensures { result ≡ byte_count n }
{
    match usize::try_from(n) {
        Ok(count) => Ok(count),
        Err(_) => Err(CalcErr::BadKind),
    }
}

/// A place counted from 1 as one counted from 0.
pub(crate) fn place(n: i64) -> Result<usize, CalcErr>
    ensures { result ≡ place n }
{
    if n < 1 {
        return Err(CalcErr::BadKind);
    }
    Ok((n - 1) as usize)
}

/// What is left of a number by the floor of its quotient.
pub(crate) fn floor_rem(a: i64, b: i64) -> i128
    requires { b ≢ pos 0 }
    ensures { result ≡ a -ℤ b *ℤ floor_div a b }
{
    let a = i128::from(a);
    let b = i128::from(b);
    if b > 0 {
        a.rem_euclid(b)
    } else {
        -(-a).rem_euclid(-b)
    }
}
