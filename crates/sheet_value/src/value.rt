ghost use Rattle.std.specs.Prelude.{◌≡◌, IfOk};

use ss_base::{CalcErr, Memory, Txt};

/// The value of a cell or of a formula.
#[derive(Debug, Drop)]
pub enum Value {
    Empty,
    Num(i64),
    Text(Txt),
    Err(CalcErr),
}

impl Value {
    /// An equal value. It takes memory for a text alone.
    pub fn copy(&self) -> Result<Value, Memory>
        ensures { IfOk result (λ v. v ≡ self.now) }
    {
        match self {
            Value::Empty => Ok(Value::Empty),
            Value::Num(n) => Ok(Value::Num(*n)),
            Value::Text(t) => {
                let t = t.copy()?;
                Ok(Value::Text(t))
            }
            Value::Err(e) => Ok(Value::Err(*e)),
        }
    }
}
