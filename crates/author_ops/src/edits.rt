ghost use Rattle.std.specs.Prelude.{◌≡◌, ◌≢◌, ◌<◌, ◌^◌, [], length, Ok, Err, IfOk, IfErr};
ghost use Rattle.sheet_grid.specs.Values.{placed_in};
ghost use Rattle.sheet_ops.specs.declared.edit.Edit.TheVariants as edit;
ghost use Rattle.sheet_ops.specs.Fits.{IntentFits};
ghost use Rattle.sheet_ops.specs.Placed.{placed_size};
ghost use Rattle.author_ops.specs.Entries.{entered};
ghost use Rattle.author_ops.specs.Edits.{Denotes, place_seen, unless_heavy, write_one, written_at};

use crate::entries::content_of;
use sheet_grid::Sheet;
use sheet_ops::{Content, EditErr, Intent, Put};
use ss_base::{Memory, Seq, Spot, Txt};
use std::alloc::Global;

/// The greatest weight of an operation.
const HEAVIEST: u32 = 512;

/// What entering a text into the cell at these visible indexes denotes. `OutOfSheet` comes exactly
/// where the cell isn't in the visible sheet; else `BadFormula` and `Deep` exactly where the entry is
/// refused so; else `Heavy` exactly where the operation's weight is above 512. It takes time with the
/// entry.
pub fn set(alloc: Global, sheet: &Sheet, at: &Spot, entry: &Txt) -> Result<Intent, EditErr>
    requires { length entry.now < 2 ^ 24 }
    ensures intent { IfOk result (λ op. Denotes (placed_in sheet.now) (edit.Set at.now entry.now) [] (Ok op)) }
    ensures cause { IfErr result (λ e. e ≢ EditErr.Memory → Denotes (placed_in sheet.now) (edit.Set at.now entry.now) [] (Err e)) }
    ensures fits { IfOk result (IntentFits (placed_size (placed_in sheet.now))) }
{
    enter(alloc, sheet, at, entry)
}

/// What emptying the cell at these visible indexes denotes. `OutOfSheet` comes exactly where the cell
/// isn't in the visible sheet.
pub fn clear(alloc: Global, sheet: &Sheet, at: &Spot) -> Result<Intent, EditErr>
    ensures intent { IfOk result (λ op. Denotes (placed_in sheet.now) (edit.Clear at.now) [] (Ok op)) }
    ensures cause { IfErr result (λ e. e ≢ EditErr.Memory → Denotes (placed_in sheet.now) (edit.Clear at.now) [] (Err e)) }
    ensures fits { IfOk result (IntentFits (placed_size (placed_in sheet.now))) }
{
    empty(alloc, sheet, at)
}

/// The same by the marks of the lines.
fn enter(alloc: Global, sheet: &Sheet, at: &Spot, entry: &Txt) -> Result<Intent, EditErr>
    requires { length entry.now < 2 ^ 24 }
    ensures intent { IfOk result (λ op. written_at (place_seen (placed_in sheet.now).rows (placed_in sheet.now).cols at.now) (entered (placed_in sheet.now).rows (placed_in sheet.now).cols entry.now) ≡ Ok op) }
    ensures cause { IfErr result (λ e. e ≢ EditErr.Memory → written_at (place_seen (placed_in sheet.now).rows (placed_in sheet.now).cols at.now) (entered (placed_in sheet.now).rows (placed_in sheet.now).cols entry.now) ≡ Err e) }
{
    let (row, col) = place_of(sheet, at).ok_or(EditErr::OutOfSheet)?;
    let content = content_of(alloc, sheet, entry)?;
    light(write_one(alloc, row, col, content)?)
}

fn empty(alloc: Global, sheet: &Sheet, at: &Spot) -> Result<Intent, EditErr>
    ensures intent { IfOk result (λ op. written_at (place_seen (placed_in sheet.now).rows (placed_in sheet.now).cols at.now) (Ok Content.Empty) ≡ Ok op) }
    ensures cause { IfErr result (λ e. e ≢ EditErr.Memory → written_at (place_seen (placed_in sheet.now).rows (placed_in sheet.now).cols at.now) (Ok Content.Empty) ≡ Err e) }
{
    match place_of(sheet, at) {
        Some((row, col)) => light(write_one(alloc, row, col, Content::Empty)?),
        None => Err(EditErr::OutOfSheet),
    }
}

/// The positions of a cell by its visible indexes.
fn place_of(sheet: &Sheet, at: &Spot) -> Option<(u32, u32)>
    ensures { result ≡ place_seen (placed_in sheet.now).rows (placed_in sheet.now).cols at.now }
{
    let row = sheet.row_at(at.row)?;
    let col = sheet.col_at(at.col)?;
    Some((row, col))
}

/// The write of one cell by its positions.
fn write_one(alloc: Global, row: u32, col: u32, content: Content) -> Result<Intent, Memory>
    ensures { IfOk result (λ op. op ≡ write_one (row, col) content) }
{
    let mut puts = Seq::new(alloc);
    puts.push(Put { row, col, content })?;
    Ok(Intent::Write(puts))
}

/// An operation, unless it is too heavy.
pub(crate) fn light(intent: Intent) -> Result<Intent, EditErr>
    ensures { result ≡ unless_heavy intent }
{
    let weight = intent.weight();
    if weight > HEAVIEST {
        return Err(EditErr::Heavy(weight));
    }
    Ok(intent)
}
