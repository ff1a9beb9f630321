ghost use Rattle.std.specs.Prelude.{◌≡◌, [], Ok, Err, IfOk, IfErr, slice_get};
ghost use Rattle.sheet_grid.specs.Values.{placed_in};
ghost use Rattle.sheet_ops.specs.declared.edit.Edit.TheVariants as edit;
ghost use Rattle.sheet_ops.specs.Fits.{IntentFits};
ghost use Rattle.sheet_ops.specs.Placed.{placed_size};
ghost use Rattle.author_ops.specs.Edits.{Denotes, insertion_place};

use sheet_grid::Sheet;
use sheet_ops::{EditErr, Intent};

/// What inserting a row before the one at this visible index denotes; for the number of visible rows
/// the row comes behind all rows, hidden ones too. `OutOfSheet` comes exactly above that number. It
/// takes constant time.
pub fn ins_row(sheet: &Sheet, before: u32) -> Result<Intent, EditErr>
    ensures intent { IfOk result (λ op. Denotes (placed_in sheet.now) (edit.InsRow before) [] (Ok op)) }
    ensures cause { IfErr result (λ e. Denotes (placed_in sheet.now) (edit.InsRow before) [] (Err e)) }
    ensures fits { IfOk result (IntentFits (placed_size (placed_in sheet.now))) }
{
    match row_insertion(sheet, before) {
        Some(p) => Ok(Intent::InsRow(p)),
        None => Err(EditErr::OutOfSheet),
    }
}

/// What inserting a column before the one at this visible index denotes; for the number of visible
/// columns the column comes behind all columns, hidden ones too. `OutOfSheet` comes exactly above that
/// number. It takes constant time.
pub fn ins_col(sheet: &Sheet, before: u32) -> Result<Intent, EditErr>
    ensures intent { IfOk result (λ op. Denotes (placed_in sheet.now) (edit.InsCol before) [] (Ok op)) }
    ensures cause { IfErr result (λ e. Denotes (placed_in sheet.now) (edit.InsCol before) [] (Err e)) }
    ensures fits { IfOk result (IntentFits (placed_size (placed_in sheet.now))) }
{
    match col_insertion(sheet, before) {
        Some(p) => Ok(Intent::InsCol(p)),
        None => Err(EditErr::OutOfSheet),
    }
}

/// What deleting the row at this visible index denotes. `OutOfSheet` comes exactly at the number of
/// visible rows and above. It takes constant time.
pub fn del_row(sheet: &Sheet, at: u32) -> Result<Intent, EditErr>
    ensures intent { IfOk result (λ op. Denotes (placed_in sheet.now) (edit.DelRow at) [] (Ok op)) }
    ensures cause { IfErr result (λ e. Denotes (placed_in sheet.now) (edit.DelRow at) [] (Err e)) }
    ensures fits { IfOk result (IntentFits (placed_size (placed_in sheet.now))) }
{
    match sheet.row_at(at) {
        Some(p) => Ok(Intent::DelRow(p)),
        None => Err(EditErr::OutOfSheet),
    }
}

/// What deleting the column at this visible index denotes. `OutOfSheet` comes exactly at the number of
/// visible columns and above. It takes constant time.
pub fn del_col(sheet: &Sheet, at: u32) -> Result<Intent, EditErr>
    ensures intent { IfOk result (λ op. Denotes (placed_in sheet.now) (edit.DelCol at) [] (Ok op)) }
    ensures cause { IfErr result (λ e. Denotes (placed_in sheet.now) (edit.DelCol at) [] (Err e)) }
    ensures fits { IfOk result (IntentFits (placed_size (placed_in sheet.now))) }
{
    match sheet.col_at(at) {
        Some(p) => Ok(Intent::DelCol(p)),
        None => Err(EditErr::OutOfSheet),
    }
}

/// The position of an insertion before the row at a visible index.
fn row_insertion(sheet: &Sheet, before: u32) -> Option<u32>
    ensures { result ≡ insertion_place (placed_in sheet.now).rows before }
{
    if before == sheet.visible().rows {
        Some(sheet.size().rows)
    } else {
        sheet.row_at(before)
    }
}

/// The position of an insertion before the column at a visible index.
fn col_insertion(sheet: &Sheet, before: u32) -> Option<u32>
    ensures { result ≡ insertion_place (placed_in sheet.now).cols before }
{
    if before == sheet.visible().cols {
        Some(sheet.size().cols)
    } else {
        sheet.col_at(before)
    }
}
