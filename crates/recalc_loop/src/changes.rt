//! What has to be published for the values of one sheet to become those of another.
ghost use Rattle.std.specs.Prelude.{◌≡◌, ◌≤◌, ◌++◌, length, max, IfOk, OnOk};
ghost use Rattle.std.specs.List.{range_with_len};
ghost use Rattle.sheet_value.specs.Tables.{kept_at};
ghost use Rattle.recalc_loop.specs.Changes.{batch_between, cell_changes, changes_between, column_changes, is_filled};

use sheet_value::{Batch, Change, Grid, Value};
use ss_base::{Memory, Seq};
use std::alloc::Global;

/// The batch that leads from the values of one sheet to those of another, evaluated after so many
/// entries of the history. Its rows and columns have their visible indexes as numbers. It takes time
/// with the columns of both sheets, each down to its last value, and memory with the changes.
pub fn batch_between(alloc: Global, upto: u32, old: &Grid, new: &Grid) -> Result<Batch, Memory>
    ensures batch { IfOk result (λ b. b ≡ batch_between upto old.now new.now) }
    ensures rows { IfOk result (λ b. length b.row_order ≤ 16000) }
    ensures cols { IfOk result (λ b. length b.col_order ≤ 16000) }
{
    let size = new.size();
    let row_order = numbers_below(alloc, size.rows)?;
    let col_order = numbers_below(alloc, size.cols)?;
    let changes = changes_between(alloc, old, new)?;
    Ok(Batch {
        upto,
        row_order,
        col_order,
        changes,
    })
}

/// The changes from the values of one sheet to those of another: the new value of each cell that
/// isn't empty in both, column by column.
pub fn changes_between(alloc: Global, old: &Grid, new: &Grid) -> Result<Seq<Change>, Memory>
    ensures { IfOk result (λ changes. changes ≡ changes_between old.now new.now) }
{
    let rows = old.size().rows.max(new.size().rows);
    let cols = old.size().cols.max(new.size().cols);
    let mut changes = Seq::new(alloc);
    for col in 0..cols {
        add_column(&mut changes, rows, col, old.column(col), new.column(col))?;
    }
    Ok(changes)
}

/// Puts the changes of a column behind the others. The column has at most so many rows, and values
/// down to its last one.
fn add_column(
    changes: &mut Seq<Change>,
    rows: u32,
    col: u32,
    old: &[Value],
    new: &[Value],
) -> Result<(), Memory>
    ensures { OnOk result (changes.new ≡ changes.old ++ column_changes rows col (kept_at old.now) (kept_at new.now)) }
{
    let height = old.len().max(new.len()).min(rows as usize) as u32;
    for row in 0..height {
        add_cell(changes, row, col, old, new)?;
    }
    Ok(())
}

/// Puts the change of a cell behind the others, if there is one.
fn add_cell(
    changes: &mut Seq<Change>,
    row: u32,
    col: u32,
    old: &[Value],
    new: &[Value],
) -> Result<(), Memory>
    ensures { OnOk result (changes.new ≡ changes.old ++ cell_changes row col (kept_at old.now row) (kept_at new.now row)) }
{
    if !is_filled(old, row) && !is_filled(new, row) {
        return Ok(());
    }
    let value = value_at(new, row)?;
    changes.push(Change { row, col, value })
}

/// Whether the value at a row isn't empty, where values behind the end are.
fn is_filled(values: &[Value], row: u32) -> bool
    ensures { result ≡ is_filled (kept_at values.now row) }
{
    match values.get(row as usize) {
        Some(Value::Empty) | None => false,
        Some(_) => true,
    }
}

/// A copy of the value at a row, an empty one behind the end.
fn value_at(values: &[Value], row: u32) -> Result<Value, Memory>
    ensures { IfOk result (λ v. v ≡ kept_at values.now row) }
{
    match values.get(row as usize) {
        Some(value) => value.copy(),
        None => Ok(Value::Empty),
    }
}

/// The numbers from 0 on, so many.
fn numbers_below(alloc: Global, count: u32) -> Result<Seq<u32>, Memory>
    ensures { IfOk result (λ numbers. numbers ≡ range_with_len 0 count) }
{
    let mut numbers = Seq::new(alloc);
    for n in 0..count {
        numbers.push(n)?;
    }
    Ok(numbers)
}
