ghost use Rattle.std.specs.Prelude.{◌≡◌, ◌<◌, ◌++◌, nat_lt, if◌then◌else◌, IfOk, OnOk};
ghost use Rattle.sheet_ops.specs.declared.edit.Edit.TheVariants as edit;
ghost use Rattle.cell_addr.specs.Cells.{address};
ghost use Rattle.generated_run.specs.Turns.{cell_without_dollars, one_cell, number_entry, sum_entry, range_entry, edit_of};

use crate::draws::Draws;
use cell_addr::letters_of;
use sheet_ops::Edit;
use ss_base::{Memory, Span, Spot, Txt};
use std::alloc::Global;

/// The edit of a turn.
#[tactic(auto, unfolding(crate::specs::Turns::edit_of))]
pub fn edit_of(alloc: Global, draws: &Draws) -> Result<Edit, Memory>
    requires row { draws.now.other_row < 37 }
    requires col { draws.now.other_col < 8 }
    ensures { IfOk result (λ e. e ≡ edit_of draws.now) }
{
    let cell = cell_without_dollars(draws.row, draws.col);
    match draws.kind {
        0..=5 => Ok(Edit::Set(cell, number_entry(alloc, draws)?)),
        6..=8 => Ok(Edit::Set(cell, sum_entry(alloc, draws)?)),
        9 => Ok(Edit::Set(cell, range_entry(alloc, draws)?)),
        10 => Ok(Edit::InsRow(draws.row)),
        11 => Ok(Edit::DelRow(draws.row)),
        12 => Ok(Edit::Copy(one_cell(draws.other_row, draws.other_col), cell)),
        13 => Ok(Edit::Sort(draws.other_row, draws.other_row + 3, draws.col, false)),
        14 => Ok(Edit::Clear(cell)),
        _ => Ok(column_edit(draws)),
    }
}

/// The edit of a turn that brings or takes a column.
fn column_edit(draws: &Draws) -> Edit
    ensures { result ≡ (if nat_lt draws.now.number 500 then edit.InsCol draws.now.col else edit.DelCol draws.now.col) }
{
    if draws.number < 500 {
        Edit::InsCol(draws.col)
    } else {
        Edit::DelCol(draws.col)
    }
}

fn cell_without_dollars(row: u32, col: u32) -> Spot
    ensures { result ≡ cell_without_dollars row col }
{
    Spot {
        row,
        col,
        abs_row: false,
        abs_col: false,
    }
}

/// The range of one cell.
fn one_cell(row: u32, col: u32) -> Span
    ensures { result ≡ one_cell row col }
{
    Span {
        top: row,
        left: col,
        bottom: row,
        right: col,
        abs_top: false,
        abs_left: false,
        abs_bottom: false,
        abs_right: false,
    }
}

/// The entry of a number.
fn number_entry(alloc: Global, draws: &Draws) -> Result<Txt, Memory>
    ensures { IfOk result (λ t. t ≡ number_entry draws.now) }
{
    let text = format!(in alloc; "{}", draws.number)?;
    Ok(Txt::from_vec(text.into_bytes()))
}

/// The entry of a cell and a number that are added.
fn sum_entry(alloc: Global, draws: &Draws) -> Result<Txt, Memory>
    requires row { draws.now.other_row < 37 }
    requires col { draws.now.other_col < 8 }
    ensures { IfOk result (λ t. t ≡ sum_entry draws.now) }
{
    let mut out = Vec::from_slice(alloc, b"=")?;
    push_address(alloc, &mut out, draws.other_row, draws.other_col)?;
    let rest = format!(in alloc; "+{}", draws.number)?;
    out.extend_from_slice(rest.as_bytes())?;
    Ok(Txt::from_vec(out))
}

/// The entry of four cells of a column that are summed.
fn range_entry(alloc: Global, draws: &Draws) -> Result<Txt, Memory>
    requires row { draws.now.other_row < 37 }
    requires col { draws.now.other_col < 8 }
    ensures { IfOk result (λ t. t ≡ range_entry draws.now) }
{
    let mut out = Vec::from_slice(alloc, b"=SUM(")?;
    push_address(alloc, &mut out, draws.other_row, draws.other_col)?;
    out.push(b':')?;
    push_address(alloc, &mut out, draws.other_row + 3, draws.other_col)?;
    out.push(b')')?;
    Ok(Txt::from_vec(out))
}

/// Appends the address of a cell.
fn push_address(alloc: Global, out: &mut Vec<u8>, row: u32, col: u32) -> Result<(), Memory>
    requires row { row < 9999999 }
    requires col { col < 18278 }
    ensures { OnOk result (out.new.items ≡ out.old.items ++ address row col) }
{
    let mut letters = [0; 4];
    let count = letters_of(col, &mut letters);
    let number = format!(in alloc; "{}", row + 1)?;
    out.extend_from_slice(&letters[..count])?;
    out.extend_from_slice(number.as_bytes())?;
    Ok(())
}
