ghost use Rattle.std.specs.Prelude.{◌≡◌, ◌≢◌, ◌≤◌, ◌<◌, length, Ok, Err, IfOk, IfErr};
ghost use Rattle.marked_lines.specs.Marks.{visible_count};
ghost use Rattle.sheet_grid.specs.Values.{placed_in};
ghost use Rattle.sheet_ops.specs.Fits.{IntentFits};
ghost use Rattle.sheet_ops.specs.Placed.{placed_size};
ghost use Rattle.author_ops.specs.Copies.{line_count};
ghost use Rattle.author_ops.specs.Edits.{Denotes, IsProper, sort_by};

use crate::axis::{Dimension, visible};
use crate::copies::copy;
use crate::edits::{clear, set};
use crate::lines::{del_col, del_row, ins_col, ins_row};
use crate::sorts::sort;
use sheet_grid::Sheet;
use sheet_ops::{Edit, EditErr, Intent};
use sheet_value::Value;
use std::alloc::Global;

/// What an edit denotes on its author's sheet, with a key for each row of a sort. The first cause that
/// fits is answered, in the order `OutOfSheet`, `CopyLarge`, `SortLong`, `BadFormula`, `Deep`, `Heavy`;
/// a sort whose key column isn't in the visible sheet is `OutOfSheet` too. It takes the time of the call
/// for that edit.
pub fn denoted(alloc: Global, sheet: &Sheet, edit: &Edit, keys: &[Value]) -> Result<Intent, EditErr>
    requires { IsProper (placed_in sheet.now) edit.now keys.now }
    ensures intent { IfOk result (λ op. Denotes (placed_in sheet.now) edit.now keys.now (Ok op)) }
    ensures cause { IfErr result (λ e. e ≢ EditErr.Memory → Denotes (placed_in sheet.now) edit.now keys.now (Err e)) }
    ensures fits { IfOk result (IntentFits (placed_size (placed_in sheet.now))) }
{
    match edit {
        Edit::Set(at, entry) => set(alloc, sheet, at, entry),
        Edit::Clear(at) => clear(alloc, sheet, at),
        Edit::InsRow(before) => ins_row(sheet, *before),
        Edit::InsCol(before) => ins_col(sheet, *before),
        Edit::DelRow(at) => del_row(sheet, *at),
        Edit::DelCol(at) => del_col(sheet, *at),
        Edit::Copy(from, to) => copy(alloc, sheet, from, to),
        Edit::Sort(first, last, col, down) => {
            sort_rows(alloc, sheet, (*first, *last), *col, keys, *down)
        }
    }
}

/// What sorting the rows from a first to a last one by the keys of a column denotes.
fn sort_rows(
    alloc: Global,
    sheet: &Sheet,
    rows: (u32, u32),
    col: u32,
    keys: &[Value],
    down: bool,
) -> Result<Intent, EditErr>
    requires order { rows.0 ≤ rows.1 }
    requires keys { rows.1 < visible_count (placed_in sheet.now).rows → col < visible_count (placed_in sheet.now).cols → length keys.now ≡ line_count rows.0 rows.1 }
    ensures intent { IfOk result (λ op. sort_by (placed_in sheet.now).rows (placed_in sheet.now).cols rows.0 rows.1 col keys.now down ≡ Ok op) }
    ensures cause { IfErr result (λ e. e ≢ EditErr.Memory → sort_by (placed_in sheet.now).rows (placed_in sheet.now).cols rows.0 rows.1 col keys.now down ≡ Err e) }
    ensures fits { IfOk result (IntentFits (placed_size (placed_in sheet.now))) }
{
    if col >= visible(sheet, Dimension::Cols) {
        return Err(EditErr::OutOfSheet);
    }
    sort(alloc, sheet, rows.0, rows.1, keys, down)
}
