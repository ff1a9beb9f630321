ghost use Rattle.std.specs.Prelude.{◌≡◌, OnOk, OnErr, IfOk};
ghost use Rattle.std.specs.FinMap as map;
ghost use Rattle.sheet_value.specs.Snapshots.{cell_in, with_cell, with_change};
ghost use Rattle.sheet_value.specs.Tables.{filled};
ghost use Rattle.value_snap.specs.Kept.{cells_of};

use sheet_value::{Change, Value};
use ss_base::Memory;
use std::alloc::Global;
use std::collections::BTreeMap;
use std::marker::Model;

/// Values by row number and column number, of which no empty one is kept.
#[derive(Drop)]
pub struct Cells {
    values: BTreeMap<(u32, u32), Value>,
}

impl Model for Cells {
    ghost use Rattle.std.specs.Coded.{coded_ℕ, coded×};
    ghost use Rattle.std.specs.FinMap as map;
    ghost use Rattle.sheet_value.specs.contracts.value.Value as value;
    ghost use Rattle.sheet_value.specs.Snapshots.{CellValues};
    ghost use Rattle.value_snap.specs.Kept.{cells_of};

    ghost Value = { CellValues };

    ghost coded = { map.code (coded× coded_ℕ coded_ℕ) value.the_row.coded };

    ghost view = { λ c. cells_of c.values };
}

impl Cells {
    /// Every cell is empty. It takes no memory.
    pub fn new(alloc: Global) -> Cells
        ensures { result ≡ map.empty }
    {
        Cells {
            values: BTreeMap::new(alloc),
        }
    }

    /// A copy of the value of a cell. It takes time with the logarithm of the filled cells.
    pub fn value(&self, row: u32, col: u32) -> Result<Value, Memory>
        ensures { IfOk result (λ v. v ≡ cell_in self.now row col) }
    {
        value_at(&self.values, row, col)
    }

    /// Puts the value of one cell. A refused call leaves the values. It takes time with the logarithm
    /// of the filled cells.
    pub fn put(&mut self, change: &Change) -> Result<(), Memory>
        ensures ok { OnOk result (self.new ≡ with_change self.old change.now) }
        ensures err { OnErr result (self.new ≡ self.old) }
    {
        let value = change.value.copy()?;
        put_at(&mut self.values, (change.row, change.col), value)
    }
}

fn value_at(values: &BTreeMap<(u32, u32), Value>, row: u32, col: u32) -> Result<Value, Memory>
    ensures { IfOk result (λ v. v ≡ cell_in (cells_of values.now) row col) }
{
    match values.get(&(row, col)) {
        Some(value) => value.copy(),
        None => Ok(Value::Empty),
    }
}

/// Puts a value under the key of a cell, and takes the key out for an empty one.
fn put_at(
    values: &mut BTreeMap<(u32, u32), Value>,
    at: (u32, u32),
    value: Value,
) -> Result<(), Memory>
    ensures ok { OnOk result (cells_of values.new ≡ with_cell (cells_of values.old) at (filled value)) }
    ensures err { OnErr result (cells_of values.new ≡ cells_of values.old) }
{
    match value {
        Value::Empty => {
            let _ = values.remove(&at);
        }
        value => {
            let _ = values.insert(at, value)?;
        }
    }
    Ok(())
}
