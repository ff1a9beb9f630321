ghost use Rattle.std.specs.Prelude.{◌≡◌, ◌<◌, ℕ, length, map, slice_index, IfOk};
ghost use Rattle.sheet_ops.specs.Placed.{cell_at};
ghost use Rattle.sheet_grid.specs.Values.{placed_in};
ghost use Rattle.generated_run.specs.Held.{IsRowHeld, AreRowsHeld};

use sheet_grid::Sheet;
use sheet_ops::Content;
use ss_base::Memory;
use std::alloc::Global;

/// What the cells of a row hold, hidden ones too.
#[derive(Debug, Drop)]
pub struct RowHeld {
    /// The positions of the columns whose cell isn't empty, ascending.
    pub cols: Vec<u32>,
    /// What each of these cells holds.
    pub contents: Vec<Content>,
}

/// What the cells of a sheet hold, row by row. It takes the time of copying the contents.
pub fn rows_held(alloc: Global, sheet: &Sheet) -> Result<Vec<RowHeld>, Memory>
    ensures { IfOk result (λ rows. AreRowsHeld (placed_in sheet.now) rows.items) }
{
    let mut rows = Vec::new(alloc);
    for row in 0..sheet.size().rows {
        let held = row_held(alloc, sheet, row)?;
        rows.push(held)?;
    }
    Ok(rows)
}

/// What the cells of a row hold.
fn row_held(alloc: Global, sheet: &Sheet, row: u32) -> Result<RowHeld, Memory>
    requires { row < length (placed_in sheet.now).rows }
    ensures { IfOk result (λ held. IsRowHeld (placed_in sheet.now) row held) }
{
    let cols = sheet.occupied(row)?;
    let contents = contents_at(alloc, sheet, row, cols.as_slice())?;
    Ok(RowHeld { cols, contents })
}

/// What the cells of a row in these columns hold.
fn contents_at(alloc: Global, sheet: &Sheet, row: u32, cols: &[u32]) -> Result<Vec<Content>, Memory>
    requires row { row < length (placed_in sheet.now).rows }
    requires within { (k : ℕ) → k < length cols.now → slice_index cols.now k < length (placed_in sheet.now).cols }
    ensures { IfOk result (λ v. v.items ≡ map (cell_at (placed_in sheet.now) row) cols.now) }
{
    let mut contents = Vec::with_capacity(alloc, cols.len())?;
    for i in 0..cols.len() {
        let content = sheet.content(row, cols[i])?;
        contents.push(content)?;
    }
    Ok(contents)
}
