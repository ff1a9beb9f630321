//! Where the lines stand that the references of stored formulas mean.

ghost use Rattle.std.specs.Prelude.{◌≡◌};
ghost use Rattle.sheet_ops.specs.LineIds.{opening_id};
ghost use Rattle.sheet_ops.specs.Lines.{rec_place, slot_place};
ghost use Rattle.sheet_grid.specs.Kept.{axis};
ghost use Rattle.sheet_graph.specs.Placing.{spot_placed, span_placed};

use sheet_grid::Sheet;
use ss_base::{Span, Spot};

/// The position of the row and that of the column that a stored reference to a cell means, each in
/// constant time. What never came stands behind the last line.
pub fn cell_placed(sheet: &Sheet, spot: &Spot) -> (u32, u32)
    ensures row { result.0 ≡ (spot_placed sheet.now spot.now).row }
    ensures col { result.1 ≡ (spot_placed sheet.now spot.now).col }
{
    let size = sheet.size();
    let row = sheet.row_of(spot.row).unwrap_or(size.rows);
    let col = sheet.col_pos(spot.col).unwrap_or(size.cols);
    (row, col)
}

/// The positions of the first and of the last row that a stored range means, in constant time.
pub fn rows_placed(sheet: &Sheet, span: &Span) -> (u32, u32)
    ensures top { result.0 ≡ (span_placed sheet.now span.now).top }
    ensures bottom { result.1 ≡ (span_placed sheet.now span.now).bottom }
{
    let top = row_slot_placed(sheet, span.top);
    let bottom = row_slot_placed(sheet, span.bottom);
    (top.min(bottom), top.max(bottom))
}

/// The same of its columns.
pub fn cols_placed(sheet: &Sheet, span: &Span) -> (u32, u32)
    ensures left { result.0 ≡ (span_placed sheet.now span.now).left }
    ensures right { result.1 ≡ (span_placed sheet.now span.now).right }
{
    let left = col_slot_placed(sheet, span.left);
    let right = col_slot_placed(sheet, span.right);
    (left.min(right), left.max(right))
}

/// The position of the row slot with a number.
fn row_slot_placed(sheet: &Sheet, slot: u32) -> u32
    ensures { result ≡ slot_place (axis sheet.now.rows) (opening_id slot) }
{
    let size = sheet.size();
    sheet.slot_place(slot).unwrap_or(size.rows)
}

/// The position of the column slot with a number.
fn col_slot_placed(sheet: &Sheet, slot: u32) -> u32
    ensures { result ≡ slot_place (axis sheet.now.cols) (opening_id slot) }
{
    let size = sheet.size();
    sheet.col_slot_place(slot).unwrap_or(size.cols)
}
