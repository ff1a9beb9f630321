ghost use Rattle.std.specs.Prelude.{◌≡◌, ◌<◌, ◌≤◌, ◌+◌, ℕ, List, [], ◌∷◌, ◌++◌, length, replicate, slice_set, IfOk, OnOk};
ghost use Rattle.cell_walk.specs.Walks.{IsIn};
ghost use Rattle.sheet_grid.specs.Values.{placed_in};
ghost use Rattle.sheet_grid.specs.Cells.{visible_size};
ghost use Rattle.sheet_graph.specs.Graphs.{HoldsFilled};
ghost use Rattle.sheet_graph.specs.Filled.{rows_in_column, AreFilledTo};

use crate::cells::filled_in_row;
use sheet_grid::Sheet;
use ss_base::Memory;
use std::alloc::Global;
use std::marker::Model;

/// Visible rows, which contracts see as their list.
#[derive(Debug, Drop)]
pub struct Rows {
    rows: Vec<u32>,
}

impl Model for Rows {
    ghost use Rattle.std.specs.Prelude.{List, ℕ};

    ghost Value = { List ℕ };

    ghost view = { λ r. r.rows.items };
}

impl Rows {
    /// No rows.
    fn new(alloc: Global) -> Rows
        ensures { result ≡ [] }
    {
        Rows {
            rows: Vec::new(alloc),
        }
    }

    /// A further row.
    fn push(&mut self, row: u32) -> Result<(), Memory>
        ensures { OnOk result (self.new ≡ self.old ++ row ∷ []) }
    {
        self.rows.push(row)?;
        Ok(())
    }

    /// All of them.
    pub fn as_slice(&self) -> &[u32]
        ensures { result.now ≡ self.now }
    {
        &self.rows
    }
}

/// So many lists without rows.
fn empty_lists(alloc: Global, count: u32) -> Result<Vec<Rows>, Memory>
    ensures { IfOk result (λ v. v.items ≡ replicate count []) }
{
    let mut lists = Vec::with_capacity(alloc, count as usize)?;
    for _ in 0..count {
        lists.push(Rows::new(alloc))?;
    }
    Ok(lists)
}

/// Adds a row to the lists of some columns, each of which comes once.
fn push_row(lists: &mut [Rows], sheet: &Sheet, row: u32, cols: &[u32]) -> Result<(), Memory>
    requires filled { HoldsFilled (placed_in sheet.now) row (visible_size (placed_in sheet.now)).cols cols.now }
    requires len { length lists.old ≡ (visible_size (placed_in sheet.now)).cols }
    requires lists { AreFilledTo (placed_in sheet.now) row [] lists.old }
    ensures len { length lists.new ≡ length lists.old }
    ensures lists { OnOk result (AreFilledTo (placed_in sheet.now) (row + 1) [] lists.new) }
{
    for col in cols {
        lists[*col as usize].push(row)?;
    }
    Ok(())
}

/// For each visible column the visible rows whose cells in it aren't empty, from top to bottom. It
/// takes time with the rows, the columns, and the filled cells and the logarithm of their number.
pub(crate) fn filled_rows(alloc: Global, sheet: &Sheet) -> Result<Vec<Rows>, Memory>
    ensures len { IfOk result (λ v. length v.items ≡ (visible_size (placed_in sheet.now)).cols) }
    ensures lists { IfOk result (λ v. AreFilledTo (placed_in sheet.now) (visible_size (placed_in sheet.now)).rows [] v.items) }
{
    let seen = sheet.visible();
    let mut lists = empty_lists(alloc, seen.cols)?;
    for row in 0..seen.rows {
        let cols = filled_in_row(alloc, sheet, row)?;
        push_row(&mut lists, sheet, row, &cols)?;
    }
    Ok(lists)
}
