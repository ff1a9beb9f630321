ghost use Rattle.std.specs.Prelude.{◌≡◌, ◌≤◌, map, length, All, OnOk, OnErr};
ghost use Rattle.ss_base.specs.declared.types.Size.{Size};
ghost use Rattle.sheet_grid.specs.Kept.{held, cell_kept};
ghost use Rattle.sheet_grid.specs.Numbering.{IsAxis, HasOrderedRanges, put_numbered};
ghost use Rattle.sheet_grid.specs.Rows.{puts_kept, AllFit, AddsNoEmpty};

use crate::axis::AxisLines;
use crate::numbering::put_numbered;
use crate::row::{put_back, settle, store};
use sheet_ops::{Content, Put};
use ss_base::Memory;
use std::collections::BTreeMap;

/// Writes each of these contents into its cell, one after another, by the numbers of the lines. An emptied
/// cell keeps its key until the others are written, so that putting the old contents back takes no memory.
/// A refused call leaves what every key holds.
pub fn write_puts(
    cells: &mut [BTreeMap<u32, Content>],
    rows: &AxisLines,
    cols: &AxisLines,
    puts: &[Put],
) -> Result<(), Memory>
    requires rows { IsAxis rows.now }
    requires cols { IsAxis cols.now }
    requires many { length rows.now.slots ≤ length cells.old }
    requires fit { AllFit (record { rows = length rows.now.slots; cols = length cols.now.slots }) puts.now }
    ensures ok { OnOk result (cell_kept cells.new ≡ puts_kept (cell_kept cells.old) (map (put_numbered rows.now cols.now) puts.now)) }
    ensures ordered { OnOk result (All (λ p. HasOrderedRanges p.content) puts.now) }
    ensures empties { OnOk result (AddsNoEmpty (map held cells.old) (map held cells.new)) }
    ensures err { OnErr result (map held cells.new ≡ map held cells.old) }
{
    let Some((put, rest)) = puts.split_first() else {
        return Ok(());
    };
    let numbered = put_numbered(rows, cols, put)?;
    let (row, col) = (numbered.row as usize, numbered.col);
    let old = store(&mut cells[row], col, numbered.content)?;
    let done = write_puts(cells, rows, cols, rest);
    match done {
        Ok(()) => settle(&mut cells[row], col),
        Err(_) => put_back(&mut cells[row], col, old),
    }
    done
}
