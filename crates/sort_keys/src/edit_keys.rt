ghost use Rattle.std.specs.Prelude.{◌≡◌, ◌<◌, Bool, length, map, IfOk, IfSome};
ghost use Rattle.std.specs.List.{range_with_len};
ghost use Rattle.marked_lines.specs.Marks.{visible_count};
ghost use Rattle.sheet_value.specs.Tables.{value_at};
ghost use Rattle.sheet_ops.specs.declared.edit.Edit.TheVariants as edit;
ghost use Rattle.sheet_ops.specs.Fits.{IsWellFormed};
ghost use Rattle.sheet_ops.specs.Identity.{IdSheet};
ghost use Rattle.sheet_ops.specs.Placed.{placed};
ghost use Rattle.sheet_grid.specs.Values.{placed_in};
ghost use Rattle.sheet_grid.specs.Cells.{visible_size};
ghost use Rattle.author_ops.specs.Copies.{line_count};
ghost use Rattle.author_ops.specs.Edits.{IsProper};
ghost use Rattle.full_calc.specs.Values.{value_table};
ghost use Rattle.sort_keys.specs.Keys.{AreKeys, IsOrderly};

use full_calc::{constant_value, evaluated};
use sheet_grid::Sheet;
use sheet_ops::Edit;
use sheet_value::{Grid, Value};
use ss_base::Memory;
use std::alloc::Global;

/// The keys of an edit on the sheet that its author sees: of a sort, one a row, the values in the column
/// by which it sorts. It takes the time of looking at their cells for a sort whose rows and column are in
/// the visible sheet, and that of a full evaluation where one of them holds a formula; none for another
/// edit.
pub fn keys(alloc: Global, sheet: &Sheet, edit: &Edit) -> Result<Vec<Value>, Memory>
    ensures proper { IsOrderly edit.now → IfOk result (λ keys. IsProper (placed_in sheet.now) edit.now keys.items) }
    ensures serve { IfOk result (λ keys. AreKeys (placed_in sheet.now) edit.now keys.items) }
{
    match edit {
        Edit::Sort(first, last, col, _) => keys_of_rows(alloc, sheet, *first, *last, *col),
        _ => Ok(Vec::new(alloc)),
    }
}

/// The values of the rows from a first to a last one in a column, where all are in the visible sheet;
/// else there are none, and nobody looks at them.
fn keys_of_rows(
    alloc: Global,
    sheet: &Sheet,
    first: u32,
    last: u32,
    col: u32,
) -> Result<Vec<Value>, Memory>
    ensures many { IfOk result (λ keys. last < visible_count (placed_in sheet.now).rows → col < visible_count (placed_in sheet.now).cols → length keys.items ≡ line_count first last) }
    ensures serve { IfOk result (λ keys. (down : Bool) → AreKeys (placed_in sheet.now) (edit.Sort first last col down) keys.items) }
{
    let seen = sheet.visible();
    if last < seen.rows && col < seen.cols {
        match constant_values(alloc, sheet, first, last, col)? {
            Some(keys) => Ok(keys),
            None => evaluated_values(alloc, sheet, first, last, col),
        }
    } else {
        Ok(Vec::new(alloc))
    }
}

/// The values of a column, from a first row to a last one, where none of its cells there holds a
/// formula.
fn constant_values(
    alloc: Global,
    sheet: &Sheet,
    first: u32,
    last: u32,
    col: u32,
) -> Result<Option<Vec<Value>>, Memory>
    requires few { last < 16000 }
    requires last { last < (visible_size (placed_in sheet.now)).rows }
    requires col { col < (visible_size (placed_in sheet.now)).cols }
    ensures many { IfOk result (λ found. IfSome found (λ keys. length keys.items ≡ line_count first last)) }
    ensures values { IfOk result (λ found. IfSome found (λ keys. (X : IdSheet) → IsWellFormed X → placed X ≡ placed_in sheet.now →
        keys.items ≡ map (λ row. value_at (value_table X) row col) (range_with_len first (line_count first last)))) }
{
    let mut found = Vec::new(alloc);
    for row in first..last + 1 {
        match constant_value(sheet, row, col)? {
            Some(value) => found.push(value)?,
            None => return Ok(None),
        }
    }
    Ok(Some(found))
}

/// The values of a column, from a first row to a last one, by a full evaluation.
fn evaluated_values(
    alloc: Global,
    sheet: &Sheet,
    first: u32,
    last: u32,
    col: u32,
) -> Result<Vec<Value>, Memory>
    requires { last < 16000 }
    ensures many { IfOk result (λ keys. length keys.items ≡ line_count first last) }
    ensures values { IfOk result (λ keys. (X : IdSheet) → IsWellFormed X → placed X ≡ placed_in sheet.now →
        keys.items ≡ map (λ row. value_at (value_table X) row col) (range_with_len first (line_count first last))) }
{
    let grid = evaluated(alloc, sheet)?;
    column_values(alloc, &grid, first, last, col)
}

/// The values of a column, from a first row to a last one.
fn column_values(
    alloc: Global,
    grid: &Grid,
    first: u32,
    last: u32,
    col: u32,
) -> Result<Vec<Value>, Memory>
    requires { last < 16000 }
    ensures { IfOk result (λ v. v.items ≡ map (λ row. value_at grid.now row col) (range_with_len first (line_count first last))) }
{
    let mut found = Vec::new(alloc);
    for row in first..last + 1 {
        let value = value_of(grid, row, col)?;
        found.push(value)?;
    }
    Ok(found)
}

/// An equal value to that at a row and a column.
fn value_of(grid: &Grid, row: u32, col: u32) -> Result<Value, Memory>
    ensures { IfOk result (λ v. v ≡ value_at grid.now row col) }
{
    match grid.at(row, col) {
        Some(value) => value.copy(),
        None => Ok(Value::Empty),
    }
}
