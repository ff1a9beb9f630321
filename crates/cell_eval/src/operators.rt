ghost use Rattle.std.specs.Prelude.{◌≡◌, ◌≢◌, pos, IfOk};
ghost use Rattle.funcs.specs.Steps.{answer};
ghost use Rattle.cell_eval.specs.Operators.{prefixed, both_numbers, power, product, whole_quotient, quotient, sum, difference, joined, holds, compared, combined};

use formula_tree::{BinOp, PreOp};
use funcs::{answer, divisor, number_value, truth};
use num_traits::checked_pow;
use sheet_value::{Value, compare, text_value, to_num, to_text};
use ss_base::{CalcErr, Memory, Txt};
use std::alloc::Global;
use std::cmp::Ordering;

/// The value of a prefix sign before an operand.
pub(crate) fn prefixed(op: PreOp, v: &Value) -> Result<Value, CalcErr>
    ensures { result ≡ prefixed op v.now }
{
    let n = i128::from(to_num(v)?);
    match op {
        PreOp::Plus => number_value(n),
        PreOp::Minus => number_value(-n),
    }
}

/// The value of an operator between two operands. It takes memory to join texts alone.
pub(crate) fn combined(alloc: Global, op: BinOp, a: &Value, b: &Value) -> Result<Value, Memory>
    ensures { IfOk result (λ v. v ≡ answer (combined op a.now b.now)) }
{
    match op {
        BinOp::Pow => Ok(answer(power(a, b))),
        BinOp::Mul => Ok(answer(product(a, b))),
        BinOp::Div => Ok(answer(quotient(a, b))),
        BinOp::Add => Ok(answer(sum(a, b))),
        BinOp::Sub => Ok(answer(difference(a, b))),
        BinOp::Join => joined(alloc, a, b),
        BinOp::Eq | BinOp::Ne | BinOp::Lt | BinOp::Le | BinOp::Gt | BinOp::Ge => {
            Ok(answer(compared(op, a, b)))
        }
    }
}

/// Both operands as numbers, the left one first.
fn both_numbers(a: &Value, b: &Value) -> Result<(i64, i64), CalcErr>
    ensures { result ≡ both_numbers a.now b.now }
{
    let m = to_num(a)?;
    let n = to_num(b)?;
    Ok((m, n))
}

fn power(a: &Value, b: &Value) -> Result<Value, CalcErr>
    ensures { result ≡ power a.now b.now }
{
    let (m, n) = both_numbers(a, b)?;
    if n < 0 {
        return Err(CalcErr::BadNum);
    }
    match checked_pow(m, n as usize) {
        Some(p) => Ok(Value::Num(p)),
        None => Err(CalcErr::BadNum),
    }
}

fn product(a: &Value, b: &Value) -> Result<Value, CalcErr>
    ensures { result ≡ product a.now b.now }
{
    let (m, n) = both_numbers(a, b)?;
    number_value(i128::from(m) * i128::from(n))
}

fn quotient(a: &Value, b: &Value) -> Result<Value, CalcErr>
    ensures { result ≡ quotient a.now b.now }
{
    let (m, n) = both_numbers(a, b)?;
    let d = divisor(n)?;
    whole_quotient(m, d)
}

/// A quotient, where it is a whole number.
fn whole_quotient(m: i64, d: i64) -> Result<Value, CalcErr>
    requires { d ≢ pos 0 }
    ensures { result ≡ whole_quotient m d }
{
    // The least number by -1 leaves 0 too, though its quotient has more than 64 bits.
    if m.wrapping_rem(d) == 0 {
        number_value(i128::from(m) / i128::from(d))
    } else {
        Err(CalcErr::BadNum)
    }
}

fn sum(a: &Value, b: &Value) -> Result<Value, CalcErr>
    ensures { result ≡ sum a.now b.now }
{
    let (m, n) = both_numbers(a, b)?;
    number_value(i128::from(m) + i128::from(n))
}

fn difference(a: &Value, b: &Value) -> Result<Value, CalcErr>
    ensures { result ≡ difference a.now b.now }
{
    let (m, n) = both_numbers(a, b)?;
    number_value(i128::from(m) - i128::from(n))
}

/// Both operands as texts, one behind the other.
fn joined(alloc: Global, a: &Value, b: &Value) -> Result<Value, Memory>
    ensures { IfOk result (λ v. v ≡ answer (joined a.now b.now)) }
{
    let left = match to_text(alloc, a)? {
        Ok(left) => left,
        Err(e) => return Ok(Value::Err(e)),
    };
    let right = match to_text(alloc, b)? {
        Ok(right) => right,
        Err(e) => return Ok(Value::Err(e)),
    };
    let mut bytes = left.into_vec();
    bytes.extend_from_slice(right.bytes())?;
    Ok(text_value(Txt::from_vec(bytes)))
}

/// 1 where a comparison holds, else 0; an error where one of the two is an error.
fn compared(op: BinOp, a: &Value, b: &Value) -> Result<Value, CalcErr>
    ensures { result ≡ compared op a.now b.now }
{
    let order = compare(a, b)?;
    Ok(truth(holds(op, order)))
}

/// Whether a comparison holds of two that stand to each other like this.
fn holds(op: BinOp, order: Ordering) -> bool
    ensures { result ≡ holds op order }
{
    match op {
        BinOp::Eq => order.is_eq(),
        BinOp::Ne => order.is_ne(),
        BinOp::Lt => order.is_lt(),
        BinOp::Le => order.is_le(),
        BinOp::Gt => order.is_gt(),
        BinOp::Ge => order.is_ge(),
        _ => false,
    }
}
