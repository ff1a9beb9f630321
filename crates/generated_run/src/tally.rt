ghost use Rattle.std.specs.Prelude.{◌≡◌, ◌<◌, ◌+◌, ◌*◌, ℕ, fold};
ghost use Rattle.sheet_value.specs.Tables.{value_at};
ghost use Rattle.generated_run.specs.Tallies.{is_number_value, is_text_value, is_error_value, is_circle_value, addend, tallied, all_values, row_values, value_tally, IsTallyWithin};

use sheet_value::{Grid, Value};
use ss_base::CalcErr;

/// How many values of each kind were found, how many of the errors are `#CIRC!`, and the sum of the
/// numbers.
#[derive(Clone, Copy, Debug)]
pub struct Tally {
    pub numbers: u32,
    pub texts: u32,
    pub errors: u32,
    pub circular: u32,
    pub total: i128,
}

/// Nothing was found.
const NOTHING: Tally = Tally {
    numbers: 0,
    texts: 0,
    errors: 0,
    circular: 0,
    total: 0,
};

/// One more value was found.
fn tallied(tally: Tally, value: &Value) -> Tally
    requires room { IsTallyWithin 256000000 tally }
    ensures value { result ≡ tallied tally value.now }
    ensures within { (n : ℕ) → IsTallyWithin n tally → IsTallyWithin (n + 1) result }
{
    Tally {
        numbers: tally.numbers + u32::from(is_number_value(value)),
        texts: tally.texts + u32::from(is_text_value(value)),
        errors: tally.errors + u32::from(is_error_value(value)),
        circular: tally.circular + u32::from(is_circle_value(value)),
        total: tally.total + i128::from(addend(value)),
    }
}

fn is_number_value(value: &Value) -> bool
    ensures { result ≡ is_number_value value.now }
{
    matches!(value, Value::Num(_))
}

fn is_text_value(value: &Value) -> bool
    ensures { result ≡ is_text_value value.now }
{
    matches!(value, Value::Text(_))
}

fn is_error_value(value: &Value) -> bool
    ensures { result ≡ is_error_value value.now }
{
    matches!(value, Value::Err(_))
}

fn is_circle_value(value: &Value) -> bool
    ensures { result ≡ is_circle_value value.now }
{
    matches!(value, Value::Err(CalcErr::Circ))
}

/// A number, or nothing to add.
fn addend(value: &Value) -> i64
    ensures { result ≡ addend value.now }
{
    match value {
        Value::Num(number) => *number,
        _ => 0,
    }
}

/// The value at a row and a column was found, which may be empty.
fn with_cell(tally: Tally, grid: &Grid, row: u32, col: u32) -> Tally
    requires room { IsTallyWithin 256000000 tally }
    ensures value { result ≡ tallied tally (value_at grid.now row col) }
    ensures within { (n : ℕ) → IsTallyWithin n tally → IsTallyWithin (n + 1) result }
{
    match grid.at(row, col) {
        Some(value) => tallied(tally, value),
        None => tally,
    }
}

/// The values of a row were found.
fn with_row(tally: Tally, grid: &Grid, row: u32) -> Tally
    requires row { row < 16000 }
    requires room { IsTallyWithin (16000 * row) tally }
    ensures values { result ≡ fold tallied tally (row_values grid.now row) }
    ensures within { IsTallyWithin (16000 * row + 16000) result }
{
    let mut found = tally;
    for col in 0..grid.size().cols {
        found = with_cell(found, grid, row, col);
    }
    found
}

/// What there is among the values of a grid.
pub fn value_tally(grid: &Grid) -> Tally
    ensures { result ≡ value_tally (all_values grid.now) }
{
    let mut found = NOTHING;
    for row in 0..grid.size().rows {
        found = with_row(found, grid, row);
    }
    found
}
