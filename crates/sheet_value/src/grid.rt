ghost use Rattle.std.specs.Prelude.{◌≡◌, ◌<◌, ◌≤◌, [], replicate, ℕ, IfOk, OnOk, OnErr};
ghost use Rattle.std.specs.Option.{option_copied};
ghost use Rattle.sheet_value.specs.Tables.{empty_table, value_at, with_value, filled, kept_at};

use crate::column::Column;
use crate::value::Value;
use ss_base::{Memory, Size};
use std::alloc::Global;
use std::marker::Model;

/// The values of a visible sheet, which contracts see row by row. It keeps each column down to its
/// last value that wasn't empty when it was put.
#[derive(Debug, Drop)]
pub struct Grid {
    size: Size,
    columns: Vec<Column>,
}

impl Model for Grid {
    ghost use Rattle.sheet_value.specs.Tables.{Table};
    ghost use Rattle.std.specs.Coded.{codes};
    ghost use Rattle.ss_base.specs.contracts.types.Size as sizes;
    ghost use Rattle.sheet_value.specs.contracts.value.Value as values;
    ghost use Rattle.sheet_value.specs.Tables.{table_of, IsKept};

    ghost Value = { Table };

    ghost coded = { Prim.hlevel (codes, sizes.the_row.coded, values.the_row.coded) };

    ghost view = { λ g. table_of g.size g.columns.items };

    ghost invariant = { λ g. IsKept g.size g.columns.items };
}

impl Grid {
    /// A sheet of this size whose values are all empty, in the time of its columns.
    pub fn new(alloc: Global, size: Size) -> Result<Grid, Memory>
        requires rows { size.rows ≤ 16000 }
        requires cols { size.cols ≤ 16000 }
        ensures { IfOk result (λ g. g ≡ empty_table size) }
    {
        let columns = empty_columns(alloc, size.cols)?;
        Ok(Grid { size, columns })
    }

    /// How many rows and columns there are.
    pub fn size(&self) -> Size
        ensures size { result ≡ self.now.size }
        ensures rows { result.rows ≤ 16000 }
        ensures cols { result.cols ≤ 16000 }
    {
        self.size
    }

    /// The value at a row and a column, counted from 0, and `None` exactly where it is empty or
    /// outside the size. It takes constant time.
    pub fn at(&self, row: u32, col: u32) -> Option<&Value>
        ensures { option_copied result ≡ filled (value_at self.now row col) }
    {
        if row >= self.size.rows || col >= self.size.cols {
            return None;
        }
        self.columns[col as usize].at(row)
    }

    /// The values of a column, counted from 0, from the top down. Those behind its end are empty.
    pub fn column(&self, col: u32) -> &[Value]
        ensures { (row : ℕ) → kept_at result.now row ≡ value_at self.now row col }
    {
        if col >= self.size.cols {
            return &[];
        }
        let values = self.columns[col as usize].values();
        &values[..values.len().min(self.size.rows as usize)]
    }

    /// Puts a value at a row and a column, counted from 0. A refused call leaves the grid as it was,
    /// and drops the value. It takes constant time on the average of the calls, and memory for the
    /// column down to its last value that isn't empty.
    pub fn put(&mut self, row: u32, col: u32, value: Value) -> Result<(), Memory>
        requires row { row < self.old.size.rows }
        requires col { col < self.old.size.cols }
        ensures ok { OnOk result (self.new ≡ with_value self.old row col value) }
        ensures err { OnErr result (self.new ≡ self.old) }
    {
        self.columns[col as usize].put(row, value)
    }
}

/// So many columns with nothing in them.
fn empty_columns(alloc: Global, count: u32) -> Result<Vec<Column>, Memory>
    ensures { IfOk result (λ columns. columns.items ≡ replicate count []) }
{
    let mut columns = Vec::with_capacity(alloc, count as usize)?;
    for _i in 0..count {
        columns.push(Column::new(alloc))?;
    }
    Ok(columns)
}
