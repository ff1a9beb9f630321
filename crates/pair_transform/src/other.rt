ghost use Rattle.std.specs.Prelude.{◌≡◌, ◌≤◌, ◌<◌, ◌-◌, ◌^◌, IfOk};
ghost use Rattle.sheet_ops.specs.Fits.{writes_cell, IntentFits, EffectFits};
ghost use Rattle.sheet_ops.specs.Effects.{uncovered};
ghost use Rattle.sheet_ops.specs.Transforms.{own_past, other_past, insertion_past};
ghost use Rattle.sheet_ops.specs.declared.operation.Intent.TheVariants as intent;

use crate::axis_map::AxisMap;
use crate::sheet_map::SheetMap;
use crate::sorts::past_sort;
use sheet_ops::{Effect, Intent, Put};
use ss_base::{Memory, Seq, Size};

/// The other's effect after the own operation, of which `after` is what it is after the effect. It
/// takes the time of copying the effect; of two writes the product of their cells, and of a sort
/// beside moves that of sorting the positions of both.
pub fn other_past(
    own: &Intent,
    after: &Intent,
    other: &Effect,
    size: Size,
) -> Result<Effect, Memory>
    requires rows { size.rows ≤ 16000 }
    requires cols { size.cols ≤ 16000 }
    requires own { IntentFits size own.now }
    requires after { after.now ≡ own_past own.now other.now }
    requires other { EffectFits size other.now }
    ensures { IfOk result (λ e. e ≡ other_past size own.now other.now) }
{
    match own {
        Intent::Write(puts) => past_write(puts, other),
        Intent::InsRow(at) => past_row_insertion(*at, other, size),
        Intent::InsCol(at) => past_col_insertion(*at, other, size),
        Intent::DelRow(_) | Intent::DelCol(_) => other.copy(),
        Intent::Sort(_, _) => past_sort(own, after, other, size),
    }
}

// An effect after a write: it loses the cells that the write covers.
fn past_write(own: &Seq<Put>, other: &Effect) -> Result<Effect, Memory>
    ensures { (size : Size) → IfOk result (λ e. e ≡ other_past size (intent.Write own.now) other.now) }
{
    match other {
        Effect::Write(puts) => Ok(Effect::Write(uncovered(own.as_slice(), puts)?)),
        _ => other.copy(),
    }
}

// What is left of a write where these cells are written too.
fn uncovered(own: &[Put], puts: &Seq<Put>) -> Result<Seq<Put>, Memory>
    ensures { IfOk result (λ s. s ≡ uncovered own.now puts.now) }
{
    let mut left = puts.empty_beside();
    for put in puts.as_slice() {
        if !writes_cell(own, put) {
            left.push(put.copy()?)?;
        }
    }
    Ok(left)
}

pub(crate) fn writes_cell(puts: &[Put], cell: &Put) -> bool
    ensures { result ≡ writes_cell puts.now cell.now }
{
    puts.iter()
        .any(|put| put.row == cell.row && put.col == cell.col)
}

// An effect after a new row.
fn past_row_insertion(at: u32, other: &Effect, size: Size) -> Result<Effect, Memory>
    requires rows { size.rows ≤ 16000 }
    requires cols { size.cols ≤ 16000 }
    requires other { EffectFits size other.now }
    ensures { IfOk result (λ e. e ≡ other_past size (intent.InsRow at) other.now) }
{
    let map = SheetMap {
        size,
        rows: AxisMap::Inserted(at),
        cols: AxisMap::Same,
    };
    match other {
        Effect::Write(puts) => Ok(Effect::Write(map.puts(puts)?)),
        Effect::InsRow(q) => Ok(Effect::InsRow(insertion_past(at, *q))),
        Effect::DelRow(q) => Ok(Effect::DelRow(map.rows.rec(*q))),
        Effect::Move(moves) => Ok(Effect::Move(moves.shift(at)?)),
        Effect::InsCol(_) | Effect::DelCol(_) => other.copy(),
    }
}

// An effect after a new column.
fn past_col_insertion(at: u32, other: &Effect, size: Size) -> Result<Effect, Memory>
    requires rows { size.rows ≤ 16000 }
    requires cols { size.cols ≤ 16000 }
    requires other { EffectFits size other.now }
    ensures { IfOk result (λ e. e ≡ other_past size (intent.InsCol at) other.now) }
{
    let map = SheetMap {
        size,
        rows: AxisMap::Same,
        cols: AxisMap::Inserted(at),
    };
    match other {
        Effect::Write(puts) => Ok(Effect::Write(map.puts(puts)?)),
        Effect::InsCol(q) => Ok(Effect::InsCol(insertion_past(at, *q))),
        Effect::DelCol(q) => Ok(Effect::DelCol(map.cols.rec(*q))),
        Effect::InsRow(_) | Effect::DelRow(_) | Effect::Move(_) => other.copy(),
    }
}

// An insertion after one at `at`. Where they meet, the later one in the server's order, which is the
// own one, stands to the right.
fn insertion_past(at: u32, q: u32) -> u32
    requires { q < 2 ^ 32 - 1 }
    ensures { result ≡ insertion_past at q }
{
    if at < q { q + 1 } else { q }
}
