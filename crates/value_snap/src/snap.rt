ghost use Rattle.std.specs.Prelude.{◌≡◌, ◌≤◌, ◌<◌, ◌↔◌, length, map, slice_index_or, slice_set, [], IsTrue, OnOk, OnErr, IfOk};
ghost use Rattle.sheet_value.specs.Snapshots.{cell_in, opening_snapshot, with_change};
ghost use Rattle.value_snap.specs.Parts.{IsWithin, part_between, values_in, view_of_range};

use crate::cells::Cells;
use crate::order::Order;
use sheet_value::{Change, Grid};
use ss_base::{Memory, Size, Span};
use std::alloc::Global;
use std::marker::Model;

/// The values of a range, as they were when so many entries of the history were evaluated.
#[derive(Debug, Drop)]
pub struct View {
    pub length: u32,
    pub grid: Grid,
}

/// The values after the batches that were published so far.
#[derive(Drop)]
pub struct Snap {
    length: u32,
    rows: Order,
    cols: Order,
    cells: Cells,
}

impl Model for Snap {
    ghost use Rattle.sheet_value.specs.Snapshots.{Snapshot};
    ghost use Rattle.std.specs.Coded.{codes};
    ghost use Rattle.std.specs.FinMap as map;
    ghost use Rattle.sheet_value.specs.contracts.value.Value as value;

    ghost Value = { Snapshot };

    ghost coded = { Prim.hlevel (codes, map.code, value.the_row.coded) };

    ghost view = { λ s. record { length = s.length; row_order = s.rows; col_order = s.cols; cells = s.cells } };
}

impl Snap {
    /// The opening sheet.
    pub fn new(alloc: Global, size: Size) -> Result<Snap, Memory>
        requires rows { size.rows ≤ 16000 }
        requires cols { size.cols ≤ 16000 }
        ensures { IfOk result (λ s. s ≡ opening_snapshot size) }
    {
        Ok(Snap {
            length: 0,
            rows: Order::first(alloc, size.rows)?,
            cols: Order::first(alloc, size.cols)?,
            cells: Cells::new(alloc),
        })
    }

    /// The visible rows.
    pub fn rows(&self) -> &Order
        ensures { result.now ≡ self.now.row_order }
    {
        &self.rows
    }

    /// The visible columns.
    pub fn cols(&self) -> &Order
        ensures { result.now ≡ self.now.col_order }
    {
        &self.cols
    }

    /// Puts the value of one cell. A refused call leaves the values.
    pub fn put(&mut self, change: &Change) -> Result<(), Memory>
        ensures ok { OnOk result (self.new ≡ record self.old { cells = with_change self.old.cells change.now }) }
        ensures err { OnErr result (self.new ≡ self.old) }
    {
        self.cells.put(change)
    }

    /// Says how far the values go, and which lines are visible.
    pub fn seal(&mut self, length: u32, rows: Order, cols: Order)
        ensures { self.new ≡ record self.old { length = length; row_order = rows; col_order = cols } }
    {
        self.length = length;
        self.rows = rows;
        self.cols = cols;
    }

    /// Whether both corners of a range are visible.
    pub fn is_within(&self, span: &Span) -> bool
        ensures { IsTrue result ↔ IsWithin self.now span.now }
    {
        let rows = self.rows.as_slice().len();
        let cols = self.cols.as_slice().len();
        (span.top as usize) < rows
            && (span.bottom as usize) < rows
            && (span.left as usize) < cols
            && (span.right as usize) < cols
    }

    /// The values of a range. It takes time with its cells and the logarithm of the filled ones.
    pub fn view(&self, span: &Span) -> Result<View, Memory>
        requires { IsWithin self.now span.now }
        ensures { IfOk result (λ v. v ≡ view_of_range self.now span.now) }
    {
        let rows = self.rows.between(span.top, span.bottom);
        let cols = self.cols.between(span.left, span.right);
        let grid = grid_of(self.rows.allocator(), &self.cells, rows, cols)?;
        Ok(View {
            length: self.length,
            grid,
        })
    }
}

/// The values of some rows and columns.
fn grid_of(alloc: Global, cells: &Cells, rows: &[u32], cols: &[u32]) -> Result<Grid, Memory>
    requires rows { length rows.now ≤ 16000 }
    requires cols { length cols.now ≤ 16000 }
    ensures { IfOk result (λ g. g ≡ part_between cells.now rows.now cols.now) }
{
    let size = Size {
        rows: rows.len() as u32,
        cols: cols.len() as u32,
    };
    let mut grid = Grid::new(alloc, size)?;
    for i in 0..size.rows {
        put_row(&mut grid, i, cells, rows[i as usize], cols)?;
    }
    Ok(grid)
}

/// Puts the values of one row of the cells into a row of a grid.
fn put_row(grid: &mut Grid, at: u32, cells: &Cells, row: u32, cols: &[u32]) -> Result<(), Memory>
    requires at { at < grid.old.size.rows }
    requires height { length grid.old.rows ≡ grid.old.size.rows }
    requires cols { length cols.now ≡ grid.old.size.cols }
    requires width { length (slice_index_or grid.old.rows at []) ≡ grid.old.size.cols }
    ensures { OnOk result (grid.new ≡ record grid.old { rows = slice_set grid.old.rows at (values_in cells.now row cols.now) }) }
{
    let size = grid.size();
    for j in 0..size.cols {
        let value = cells.value(row, cols[j as usize])?;
        grid.put(at, j, value)?;
    }
    Ok(())
}
