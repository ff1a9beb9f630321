ghost use Rattle.std.specs.Prelude.{◌≡◌, ◌≢◌, ◌≤◌, ℕ, [], length, OnOk, OnErr};
ghost use Rattle.std.specs.Option.{option_copied};
ghost use Rattle.sheet_value.specs.Tables.{filled, kept_at};

use crate::value::Value;
use ss_base::Memory;
use std::alloc::{AllocError, Global};
use std::marker::Model;

/// The values of a column from the top down. Those behind its end are empty.
#[derive(Debug, Drop)]
pub(crate) struct Column {
    values: Vec<Value>,
}

impl Model for Column {
    ghost use Rattle.std.specs.Prelude.{List};
    ghost use Rattle.sheet_value.specs.declared.value.Value.{Value as CellValue};
    ghost use Rattle.std.specs.Coded.{codes};
    ghost use Rattle.sheet_value.specs.contracts.value.Value as cells;

    ghost Value = { List CellValue };

    ghost coded = { Prim.hlevel (codes, cells.the_row.coded) };

    ghost view = { λ c. c.values.items };
}

impl Column {
    pub(crate) fn new(alloc: Global) -> Column
        ensures { result ≡ [] }
    {
        Column {
            values: Vec::new(alloc),
        }
    }

    /// The values that are kept.
    pub(crate) fn values(&self) -> &[Value]
        ensures { result.now ≡ self.now }
    {
        &self.values
    }

    /// The value at a row, `None` for an empty one.
    pub(crate) fn at(&self, row: u32) -> Option<&Value>
        ensures { option_copied result ≡ filled (kept_at self.now row) }
    {
        match self.values.get(row as usize) {
            Some(Value::Empty) | None => None,
            Some(value) => Some(value),
        }
    }

    /// Puts a value at a row, in constant time but where the column grows down to it. An empty value
    /// behind its end isn't kept.
    pub(crate) fn put(&mut self, row: u32, value: Value) -> Result<(), Memory>
        ensures here { OnOk result (kept_at self.new row ≡ value) }
        ensures others { OnOk result ((r : ℕ) → r ≢ row → kept_at self.new r ≡ kept_at self.old r) }
        ensures err { OnErr result ((r : ℕ) → kept_at self.new r ≡ kept_at self.old r) }
    {
        let row = row as usize;
        if row >= self.values.len() {
            if let Value::Empty = value {
                return Ok(());
            }
            grow(&mut self.values, row + 1)?;
        }
        self.values[row] = value;
        Ok(())
    }
}

/// Puts empty values behind the end, up to so many in all.
fn grow(values: &mut Vec<Value>, count: usize) -> Result<(), AllocError>
    requires { length values.old.items ≤ count }
    ensures len { OnOk result (count ≤ length values.new.items) }
    ensures same { (r : ℕ) → kept_at values.new.items r ≡ kept_at values.old.items r }
{
    for _row in values.len()..count {
        values.push(Value::Empty)?;
    }
    Ok(())
}
