ghost use Rattle.std.specs.Prelude.{◌≡◌, ◌<◌, ◌≤◌, ◌++◌, length, map, IfOk, OnOk};
ghost use Rattle.cell_addr.specs.Cells.{address};
ghost use Rattle.marked_lines.specs.Marks.{visible_places, visible_of};
ghost use Rattle.sheet_ops.specs.Placed.{cell_at};
ghost use Rattle.sheet_grid.specs.Values.{placed_in};
ghost use Rattle.sheet_text.specs.Shown.{shown_placed, shown_text};
ghost use Rattle.sheet_text.specs.Texts.{cell_line, row_lines, sheet_text};
ghost use Rattle.sheet_text.specs.Rows.{line_if_seen};

use crate::content::text_of;
use cell_addr::letters_of;
use sheet_grid::Sheet;
use ss_base::{Memory, Txt};
use std::alloc::Global;

/// A first line, and below it a line for each visible cell that isn't empty, row by row, in a row
/// by columns. It takes time with the visible rows, with what it prints, and with a sort of each row's
/// filled cells.
pub fn sheet_lines(alloc: Global, head: &Txt, sheet: &Sheet) -> Result<Txt, Memory>
    ensures { IfOk result (λ t. t ≡ sheet_text head.now (shown_placed (placed_in sheet.now))) }
{
    let mut out = Vec::from_slice(alloc, head.bytes())?;
    out.push(b'\n')?;
    let seen = sheet.visible();
    for visible in 0..seen.rows {
        match sheet.row_at(visible) {
            Some(row) => push_row(alloc, &mut out, sheet, visible, row)?,
            None => unreachable!(),
        }
    }
    Ok(Txt::from_vec(out))
}

/// Appends the lines of the row at a position, which is the visible row of this index.
fn push_row(
    alloc: Global,
    out: &mut Vec<u8>,
    sheet: &Sheet,
    visible: u32,
    row: u32,
) -> Result<(), Memory>
    requires visible { visible < 16000 }
    requires row { row < length (placed_in sheet.now).rows }
    ensures { OnOk result (out.new.items ≡ out.old.items ++ row_lines visible 0 (map (λ c. shown_text (placed_in sheet.now) (cell_at (placed_in sheet.now) row c)) (visible_places (placed_in sheet.now).cols))) }
{
    let filled = sheet.filled(row)?;
    for col in &filled {
        push_if_seen(alloc, out, sheet, visible, row, *col)?;
    }
    Ok(())
}

/// Appends the line of the cell at these positions, if its column is visible.
fn push_if_seen(
    alloc: Global,
    out: &mut Vec<u8>,
    sheet: &Sheet,
    visible: u32,
    row: u32,
    col: u32,
) -> Result<(), Memory>
    requires visible { visible < 16000 }
    requires row { row < length (placed_in sheet.now).rows }
    requires col { col < length (placed_in sheet.now).cols }
    ensures { OnOk result (out.new.items ≡ out.old.items ++ line_if_seen visible (visible_of (placed_in sheet.now).cols col) (shown_text (placed_in sheet.now) (cell_at (placed_in sheet.now) row col))) }
{
    let Some(seen) = sheet.col_seen(col) else {
        return Ok(());
    };
    let text = text_of(alloc, sheet, sheet.content(row, col)?)?;
    push_cell(alloc, out, visible, seen, text.bytes())
}

/// Appends the line of a text by its visible row and column; an empty text has none.
pub(crate) fn push_cell(
    alloc: Global,
    out: &mut Vec<u8>,
    row: u32,
    col: u32,
    text: &[u8],
) -> Result<(), Memory>
    requires row { row < 9999999 }
    requires col { col < 18278 }
    ensures { OnOk result (out.new.items ≡ out.old.items ++ cell_line row col text.now) }
{
    if text.is_empty() {
        return Ok(());
    }
    push_address(alloc, out, row, col)?;
    out.push(b' ')?;
    out.extend_from_slice(text)?;
    out.push(b'\n')?;
    Ok(())
}

/// Appends an address by its visible row and column.
pub(crate) fn push_address(
    alloc: Global,
    out: &mut Vec<u8>,
    row: u32,
    col: u32,
) -> Result<(), Memory>
    requires row { row < 9999999 }
    requires col { col < 18278 }
    ensures { OnOk result (out.new.items ≡ out.old.items ++ address row col) }
{
    let mut letters = [0; 4];
    let count = letters_of(col, &mut letters);
    let number = format!(in alloc; "{}", row + 1)?;
    out.extend_from_slice(&letters[..count])?;
    out.extend_from_slice(number.as_bytes())?;
    Ok(())
}
