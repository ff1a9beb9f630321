ghost use Rattle.std.specs.Prelude.{◌≡◌, ◌<◌};
ghost use Rattle.std.specs.Option.{option_copied};
ghost use Rattle.sheet_value.specs.Tables.{value_at, filled, column_of, filled_up, part_of, IsPart, IsNear};

use crate::grid::Grid;
use crate::value::Value;
use ss_base::Size;
use std::marker::Model;

/// A part of a sheet, which contracts see as a table of its own.
#[derive(Debug, Drop)]
pub struct Window<'a> {
    grid: &'a Grid,
    top: u32,
    left: u32,
    size: Size,
}

impl<'a> Model for Window<'a> {
    ghost use Rattle.sheet_value.specs.Tables.{Table, part_of, IsNear};
    ghost use Rattle.std.specs.Coded.{codes};
    ghost use Rattle.ss_base.specs.contracts.types.Size as sizes;
    ghost use Rattle.sheet_value.specs.contracts.value.Value as values;

    ghost Value = { Table };

    ghost coded = { Prim.hlevel (codes, sizes.the_row.coded, values.the_row.coded) };

    ghost view = { λ w. part_of w.grid.now w.top w.left w.size };

    ghost invariant = { λ w. IsNear w.top w.left w.size };
}

impl<'a> Window<'a> {
    /// The part of a grid from a row and a column on, both counted from 0. What is outside the grid
    /// is empty.
    pub fn new(grid: &'a Grid, top: u32, left: u32, size: Size) -> Window<'a>
        requires { IsNear top left size }
        ensures { result ≡ part_of grid.now top left size }
    {
        Window {
            grid,
            top,
            left,
            size,
        }
    }

    /// How many rows and columns there are.
    pub fn size(&self) -> Size
        ensures size { result ≡ self.now.size }
        ensures part { IsPart self.now }
    {
        self.size
    }

    /// The value at a row and a column inside, both counted from 0, and `None` exactly for an empty
    /// one. It takes constant time.
    pub fn at(&self, row: u32, col: u32) -> Option<&'a Value>
        requires row { row < self.now.size.rows }
        requires col { col < self.now.size.cols }
        ensures { option_copied result ≡ filled (value_at self.now row col) }
    {
        self.grid.at(self.top + row, self.left + col)
    }

    /// The values of a column inside, counted from 0, from the top down. Those behind its end are
    /// empty. It takes constant time.
    pub fn column(&self, col: u32) -> &'a [Value]
        requires { col < self.now.size.cols }
        ensures { column_of self.now.rows col ≡ filled_up result.now self.now.size.rows }
    {
        let values = self.grid.column(self.left + col);
        let bottom = values.len().min((self.top + self.size.rows) as usize);
        let top = bottom.min(self.top as usize);
        &values[top..bottom]
    }
}
