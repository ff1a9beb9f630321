ghost use Rattle.std.specs.Prelude.{◌≡◌, ◌≢◌, ◌<◌, ◌↔◌, ℕ, true, false, length, IfOk, OnOk, IfSome, IsNone};
ghost use Rattle.sheet_ops.specs.Fits.{IsWellFormed};
ghost use Rattle.sheet_ops.specs.Identity.{IdSheet};
ghost use Rattle.sheet_ops.specs.Placed.{cell_at, placed};
ghost use Rattle.sheet_value.specs.declared.value.Value.TheVariants as value;
ghost use Rattle.sheet_value.specs.Tables.{value_at, with_value};
ghost use Rattle.sheet_grid.specs.Values.{placed_in};
ghost use Rattle.sheet_grid.specs.Cells.{visible_size};
ghost use Rattle.sheet_graph.specs.Graphs.{content_seen, is_formula_content, HoldsFilled};
ghost use Rattle.full_calc.specs.Shown.{HasItsSize};
ghost use Rattle.full_calc.specs.Evaluated.{constant_of};
ghost use Rattle.full_calc.specs.Computed.{HasConstants};
ghost use Rattle.full_calc.specs.Values.{value_table};

use sheet_graph::filled_in_row;
use sheet_grid::{Kind, Sheet};
use sheet_ops::Content;
use sheet_value::{Grid, Value, text_value};
use ss_base::Memory;
use std::alloc::Global;

/// The value of a constant, and nothing for a formula.
fn constant_of(content: Content) -> Value
    ensures { result ≡ constant_of content }
{
    match content {
        Content::Num(number) => Value::Num(number),
        Content::Text(text) => text_value(text),
        Content::Empty | Content::Formula(_) => Value::Empty,
    }
}

/// The value of the constant in the cell at a visible index, and nothing for a formula, which isn't
/// read.
fn constant_seen(sheet: &Sheet, row: u32, col: u32) -> Result<Value, Memory>
    ensures { IfOk result (λ v. v ≡ constant_of (content_seen (placed_in sheet.now) row col)) }
{
    let Some(p) = sheet.row_at(row) else {
        return Ok(Value::Empty);
    };
    let Some(q) = sheet.col_at(col) else {
        return Ok(Value::Empty);
    };
    constant_at(sheet, p, q)
}

/// The same of the cell at a position.
fn constant_at(sheet: &Sheet, row: u32, col: u32) -> Result<Value, Memory>
    requires row { row < length (placed_in sheet.now).rows }
    requires col { col < length (placed_in sheet.now).cols }
    ensures { IfOk result (λ v. v ≡ constant_of (cell_at (placed_in sheet.now) row col)) }
{
    match sheet.kind(row, col) {
        Kind::Empty | Kind::Formula => Ok(Value::Empty),
        Kind::Num(number) => Ok(Value::Num(number)),
        Kind::Text => Ok(constant_of(sheet.content(row, col)?)),
    }
}

/// Whether the cell at a visible index holds a formula.
fn is_formula(sheet: &Sheet, row: u32, col: u32) -> bool
    ensures { result ≡ is_formula_content (content_seen (placed_in sheet.now) row col) }
{
    let Some(p) = sheet.row_at(row) else {
        return false;
    };
    let Some(q) = sheet.col_at(col) else {
        return false;
    };
    matches!(sheet.kind(p, q), Kind::Formula)
}

/// The value of the cell at a visible index where nothing is to be evaluated for it, and `None` exactly
/// where it holds a formula. It takes time with the logarithm of the row's filled cells, and with the
/// content.
pub fn constant_value(sheet: &Sheet, row: u32, col: u32) -> Result<Option<Value>, Memory>
    requires row { row < (visible_size (placed_in sheet.now)).rows }
    requires col { col < (visible_size (placed_in sheet.now)).cols }
    ensures value { IfOk result (λ found. IfSome found (λ v. (X : IdSheet) → IsWellFormed X → placed X ≡ placed_in sheet.now → v ≡ value_at (value_table X) row col)) }
    ensures none { IfOk result (λ found. IsNone found ↔ (is_formula_content (content_seen (placed_in sheet.now) row col) ≡ true)) }
{
    if is_formula(sheet, row, col) {
        return Ok(None);
    }
    Ok(Some(constant_seen(sheet, row, col)?))
}

/// Puts the constant of a cell into its place.
fn put_constant(grid: &mut Grid, sheet: &Sheet, row: u32, col: u32) -> Result<(), Memory>
    requires row { row < grid.old.size.rows }
    requires col { col < grid.old.size.cols }
    ensures { OnOk result (grid.new ≡ with_value grid.old row col (constant_of (content_seen (placed_in sheet.now) row col))) }
{
    let value = constant_seen(sheet, row, col)?;
    grid.put(row, col, value)
}

/// Puts the constants of a row into their places, where nothing is yet.
fn put_row(grid: &mut Grid, sheet: &Sheet, row: u32, cols: &[u32]) -> Result<(), Memory>
    requires size { grid.old.size ≡ visible_size (placed_in sheet.now) }
    requires shape { HasItsSize grid.old }
    requires row { row < grid.old.size.rows }
    requires filled { HoldsFilled (placed_in sheet.now) row (visible_size (placed_in sheet.now)).cols cols.now }
    requires empty { (c : ℕ) → value_at grid.old row c ≡ value.Empty }
    ensures size { OnOk result (grid.new.size ≡ grid.old.size) }
    ensures shape { OnOk result (HasItsSize grid.new) }
    ensures here { OnOk result ((c : ℕ) → value_at grid.new row c ≡ constant_of (content_seen (placed_in sheet.now) row c)) }
    ensures others { OnOk result ((r c : ℕ) → r ≢ row → value_at grid.new r c ≡ value_at grid.old r c) }
{
    for col in cols {
        put_constant(grid, sheet, row, *col)?;
    }
    Ok(())
}

/// The values of the constants of a sheet, by visible indexes. It takes time with the lines, and with
/// each column down to its last constant.
pub(crate) fn constants(alloc: Global, sheet: &Sheet) -> Result<Grid, Memory>
    ensures { IfOk result (λ g. HasConstants (placed_in sheet.now) g) }
{
    let size = sheet.visible();
    let mut grid = Grid::new(alloc, size)?;
    for row in 0..size.rows {
        let cols = filled_in_row(alloc, sheet, row)?;
        put_row(&mut grid, sheet, row, &cols)?;
    }
    Ok(grid)
}
