ghost use Rattle.std.specs.Prelude.{◌≡◌};
ghost use Rattle.sheet_value.specs.Order.{kind_rank, error_rank, order_within, order_of, comparison};

use crate::value::Value;
use ss_base::CalcErr;
use std::cmp::Ordering;

/// The order of values: numbers, then texts, then errors, then empty ones. Numbers go by size, texts
/// by their bytes, errors as `CalcErr` lists them.
pub fn order(a: &Value, b: &Value) -> Ordering
    ensures { result ≡ order_of a.now b.now }
{
    kind_rank(a).cmp(&kind_rank(b)).then(order_within(a, b))
}

/// How two values stand to each other for `=`, `<` and the like: an empty one counts as 0 beside a
/// number and as the empty text beside a text, and any number is below any text. An error comes
/// exactly where one of the two is an error; the left one comes first.
pub fn compare(a: &Value, b: &Value) -> Result<Ordering, CalcErr>
    ensures { result ≡ comparison a.now b.now }
{
    match (a, b) {
        (Value::Err(e), _) => Err(*e),
        (_, Value::Err(e)) => Err(*e),
        (Value::Empty, Value::Num(n)) => Ok(0.cmp(n)),
        (Value::Num(n), Value::Empty) => Ok(n.cmp(&0)),
        (Value::Empty, Value::Text(t)) => Ok(b"".as_slice().cmp(t.bytes())),
        (Value::Text(t), Value::Empty) => Ok(t.bytes().cmp(b"".as_slice())),
        (a, b) => Ok(order(a, b)),
    }
}

/// Where the kind of a value stands among the kinds.
fn kind_rank(v: &Value) -> u8
    ensures { result ≡ kind_rank v.now }
{
    match v {
        Value::Num(_) => 0,
        Value::Text(_) => 1,
        Value::Err(_) => 2,
        Value::Empty => 3,
    }
}

/// Where an error stands among the errors.
fn error_rank(e: CalcErr) -> u8
    ensures { result ≡ error_rank e }
{
    match e {
        CalcErr::Div0 => 0,
        CalcErr::Na => 1,
        CalcErr::NoName => 2,
        CalcErr::BadNum => 3,
        CalcErr::Lost => 4,
        CalcErr::BadKind => 5,
        CalcErr::Circ => 6,
    }
}

/// How two values of one kind stand to each other.
fn order_within(a: &Value, b: &Value) -> Ordering
    ensures { result ≡ order_within a.now b.now }
{
    match (a, b) {
        (Value::Num(m), Value::Num(n)) => m.cmp(n),
        (Value::Text(s), Value::Text(t)) => s.bytes().cmp(t.bytes()),
        (Value::Err(d), Value::Err(e)) => error_rank(*d).cmp(&error_rank(*e)),
        _ => Ordering::Equal,
    }
}
