ghost use Rattle.std.specs.Prelude.{◌≡◌, ◌<◌, ◌↔◌, ℕ, true, length, slice_index, IfOk};
ghost use Rattle.sheet_ops.specs.Placed.{cell_at, placed_size};
ghost use Rattle.sheet_grid.specs.Values.{placed_in};
ghost use Rattle.generated_run.specs.Held.{AreRowsHeld, AreWhole, IsWhole, HoldsAmong, HoldsRow, HoldsRows};
ghost use Rattle.generated_run.specs.Sameness.{SameMarks};

use crate::contents::same_contents;
use crate::held::RowHeld;
use sheet_grid::Sheet;
use sheet_ops::Content;
use ss_base::Memory;

/// Whether two sheets are equal by positions: the marks of their lines, and what their cells hold,
/// hidden ones too. The rows are what the second one holds, so that it is read once for several
/// comparisons. It takes time with the lines, and with the filled cells and their logarithm.
pub fn same_sheets(a: &Sheet, b: &Sheet, rows: &[RowHeld]) -> Result<bool, Memory>
    requires { AreRowsHeld (placed_in b.now) rows.now }
    ensures { IfOk result (λ same. (same ≡ true) ↔ (placed_in a.now ≡ placed_in b.now)) }
{
    if a.size() != b.size() {
        return Ok(false);
    }
    if !same_marks(a, b) {
        return Ok(false);
    }
    same_cells(a, rows)
}

/// Whether the lines of two sheets of one size have the same marks.
fn same_marks(a: &Sheet, b: &Sheet) -> bool
    requires { placed_size (placed_in a.now) ≡ placed_size (placed_in b.now) }
    ensures { (result ≡ true) ↔ SameMarks (placed_in a.now) (placed_in b.now) }
{
    same_row_marks(a, b) && same_col_marks(a, b)
}

fn same_row_marks(a: &Sheet, b: &Sheet) -> bool
    requires { placed_size (placed_in a.now) ≡ placed_size (placed_in b.now) }
    ensures { (result ≡ true) ↔ ((placed_in a.now).rows ≡ (placed_in b.now).rows) }
{
    for row in 0..a.size().rows {
        if a.is_row_marked(row) != b.is_row_marked(row) {
            return false;
        }
    }
    true
}

fn same_col_marks(a: &Sheet, b: &Sheet) -> bool
    requires { placed_size (placed_in a.now) ≡ placed_size (placed_in b.now) }
    ensures { (result ≡ true) ↔ ((placed_in a.now).cols ≡ (placed_in b.now).cols) }
{
    for col in 0..a.size().cols {
        if a.is_col_marked(col) != b.is_col_marked(col) {
            return false;
        }
    }
    true
}

/// Whether the cells of a sheet hold this, row by row.
fn same_cells(a: &Sheet, rows: &[RowHeld]) -> Result<bool, Memory>
    requires many { length rows.now ≡ length (placed_in a.now).rows }
    requires whole { AreWhole rows.now }
    ensures { IfOk result (λ same. (same ≡ true) ↔ HoldsRows (placed_in a.now) rows.now) }
{
    for row in 0..a.size().rows {
        if !same_row(a, row, &rows[row as usize])? {
            return Ok(false);
        }
    }
    Ok(true)
}

/// Whether the cells of a row hold this: the same columns are filled, with the same.
fn same_row(a: &Sheet, row: u32, held: &RowHeld) -> Result<bool, Memory>
    requires row { row < length (placed_in a.now).rows }
    requires whole { IsWhole held.now }
    ensures { IfOk result (λ same. (same ≡ true) ↔ HoldsRow (placed_in a.now) row held.now) }
{
    let cols = a.occupied(row)?;
    if cols.as_slice() != held.cols.as_slice() {
        return Ok(false);
    }
    same_among(a, row, cols.as_slice(), held.contents.as_slice())
}

/// Whether the cells of a row in these columns hold these contents.
fn same_among(a: &Sheet, row: u32, cols: &[u32], contents: &[Content]) -> Result<bool, Memory>
    requires row { row < length (placed_in a.now).rows }
    requires within { (k : ℕ) → k < length cols.now → slice_index cols.now k < length (placed_in a.now).cols }
    requires many { length contents.now ≡ length cols.now }
    ensures { IfOk result (λ same. (same ≡ true) ↔ HoldsAmong (placed_in a.now) row cols.now contents.now) }
{
    for i in 0..cols.len() {
        if !same_cell(a, row, cols[i], &contents[i])? {
            return Ok(false);
        }
    }
    Ok(true)
}

/// Whether a cell holds this. It takes memory for texts and formulas alone.
fn same_cell(a: &Sheet, row: u32, col: u32, held: &Content) -> Result<bool, Memory>
    requires row { row < length (placed_in a.now).rows }
    requires col { col < length (placed_in a.now).cols }
    ensures { IfOk result (λ same. (same ≡ true) ↔ (cell_at (placed_in a.now) row col ≡ held.now)) }
{
    let one = a.content(row, col)?;
    Ok(same_contents(&one, held))
}
