ghost use Rattle.std.specs.Prelude.{◌≡◌, IfOk};
ghost use Rattle.sheet_value.specs.Values.{number_of, text_of, text_value, IsWithinLimit};

use crate::value::Value;
use ss_base::{CalcErr, Memory, Txt};
use std::alloc::Global;

/// The most bytes that a text value has.
const LONGEST: usize = 127;

/// A value as a number: an empty one is 0, a text is `#VALUE!`, an error is that error.
pub fn to_num(v: &Value) -> Result<i64, CalcErr>
    ensures { result ≡ number_of v.now }
{
    match v {
        Value::Empty => Ok(0),
        Value::Num(n) => Ok(*n),
        Value::Text(_) => Err(CalcErr::BadKind),
        Value::Err(e) => Err(*e),
    }
}

/// A value as a text: an empty one is the empty text, a number its decimal, an error is that error.
pub fn to_text(alloc: Global, v: &Value) -> Result<Result<Txt, CalcErr>, Memory>
    ensures { IfOk result (λ t. t ≡ text_of v.now) }
{
    match v {
        Value::Empty => {
            let text = Txt::new(alloc, b"")?;
            Ok(Ok(text))
        }
        Value::Num(n) => {
            let text = format!(in alloc; "{n}")?;
            Ok(Ok(Txt::from_vec(text.into_bytes())))
        }
        Value::Text(t) => {
            let text = t.copy()?;
            Ok(Ok(text))
        }
        Value::Err(e) => Ok(Err(*e)),
    }
}

/// A text as a value: `#VALUE!` where it has more than 127 bytes. It takes no memory.
pub fn text_value(text: Txt) -> Value
    ensures value { result ≡ text_value text }
    ensures limit { IsWithinLimit result }
{
    if text.bytes().len() <= LONGEST {
        Value::Text(text)
    } else {
        Value::Err(CalcErr::BadKind)
    }
}
