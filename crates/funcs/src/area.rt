ghost use Rattle.std.specs.Prelude.{◌≡◌, ◌/◌, ◌%◌, ◌*◌, ◌<◌, ◌≤◌, [], ◌∷◌, Ok, Some, length, slice_get, ok_or, option_map, IfSome};
ghost use Rattle.ss_base.specs.declared.types.CalcErr.TheVariants as fault;
ghost use Rattle.sheet_value.specs.Environment.{seen_value};
ghost use Rattle.sheet_value.specs.Tables.{column_of, filled_up};
ghost use Rattle.funcs.specs.Areas.{area, items, width, item_at};
ghost use Rattle.funcs.specs.Refs.{owned, owned_result};

use crate::arg::Arg;
use crate::value_ref::ValueRef;
use sheet_value::{Look, Seen, Value, Window};
use ss_base::{CalcErr, Size};
use std::marker::Model;
use std::slice::from_ref;

/// Where the values of a cell or a range are.
#[derive(Debug, Drop)]
pub(crate) enum Place<'a> {
    /// One value, or none for an empty cell.
    Cell(&'a [Value]),
    Range(Window<'a>),
}

/// A cell or a range that isn't lost, which contracts see as its values row by row.
#[derive(Debug, Drop)]
pub(crate) struct Area<'a> {
    place: Place<'a>,
    shape: Size,
}

impl<'a> Model for Area<'a> {
    ghost use Rattle.std.specs.Coded.{codes};
    ghost use Rattle.sheet_value.specs.contracts.value.Value as values;
    ghost use Rattle.funcs.specs.Places.{ValueRows, values_of, HasShape};

    ghost Value = { ValueRows };

    ghost coded = { Prim.hlevel (codes, values.the_row.coded) };

    ghost view = { λ a. values_of a.place };

    ghost invariant = { λ a. HasShape a.place a.shape };
}

impl<'a> Area<'a> {
    /// The cell or the range of an argument, whose lines are looked up once.
    pub(crate) fn of<L: Look>(arg: &'a Arg, look: &'a L) -> Result<Area<'a>, CalcErr>
        ensures { result ≡ area (L.environment look.now) arg.now }
    {
        match arg {
            Arg::One(_) => Err(CalcErr::BadKind),
            Arg::At(spot) => Area::cell(look.cell(spot)),
            Arg::Over(span) => match look.range(span) {
                Some(window) => Ok(Area::range(window)),
                None => Err(CalcErr::Lost),
            },
        }
    }

    fn cell(seen: Seen<'a>) -> Result<Area<'a>, CalcErr>
        ensures { result ≡ ok_or (option_map (λ v. (v ∷ []) ∷ []) (seen_value seen.entry)) fault.Lost }
    {
        let shape = Size { rows: 1, cols: 1 };
        match seen {
            Seen::Lost => Err(CalcErr::Lost),
            Seen::Empty => Ok(Area {
                place: Place::Cell(&[]),
                shape,
            }),
            Seen::Is(value) => Ok(Area {
                place: Place::Cell(from_ref(value)),
                shape,
            }),
        }
    }

    fn range(window: Window<'a>) -> Area<'a>
        ensures { result ≡ window.entry.rows }
    {
        let shape = window.size();
        Area {
            place: Place::Range(window),
            shape,
        }
    }

    pub(crate) fn rows(&self) -> u32
        ensures rows { result ≡ length self.now }
        ensures items { length (items self.now) ≡ length self.now * width self.now }
    {
        self.shape.rows
    }

    pub(crate) fn cols(&self) -> u32
        ensures { result ≡ width self.now }
    {
        self.shape.cols
    }

    /// The value in a row and a column, counted from 0.
    pub(crate) fn at(&self, row: u32, col: u32) -> ValueRef<'a>
        requires row { row < length self.now }
        requires col { col < width self.now }
        ensures { item_at self.now row col ≡ Ok (owned result) }
    {
        match &self.place {
            Place::Cell(values) => ValueRef::found(values.first()),
            Place::Range(window) => ValueRef::found(window.at(row, col)),
        }
    }

    /// The values of a column, counted from 0, from the top down. Those behind its end are empty.
    pub(crate) fn column(&self, col: u32) -> &'a [Value]
        requires { col < width self.now }
        ensures { column_of self.now col ≡ filled_up result.now (length self.now) }
    {
        match &self.place {
            Place::Cell(values) => values,
            Place::Range(window) => window.column(col),
        }
    }

    /// The items, where there is one column, down to the last that isn't empty.
    pub(crate) fn only_column(&self) -> Option<&'a [Value]>
        ensures items { IfSome result (λ values. items self.now ≡ filled_up values.now (length self.now)) }
        ensures few { IfSome result (λ values. length values.now ≤ 256000000) }
    {
        if self.shape.cols != 1 {
            return None;
        }
        Some(self.column(0))
    }

    /// How many items there are.
    pub(crate) fn count(&self) -> usize
        ensures count { result ≡ length (items self.now) }
        ensures few { result ≤ 256000000 }
    {
        self.shape.rows as usize * self.shape.cols as usize
    }

    /// An item, by its place row by row, counted from 0.
    pub(crate) fn item(&self, i: usize) -> ValueRef<'a>
        requires { i < length (items self.now) }
        ensures { slice_get (items self.now) i ≡ Some (owned result) }
    {
        let cols = self.shape.cols;
        let (row, col) = row_and_col(i as u32, cols);
        self.at(row, col)
    }

    /// The item in a row and a column, counted from 0, and `#REF!` outside the shape.
    pub(crate) fn get(&self, row: usize, col: usize) -> Result<ValueRef<'a>, CalcErr>
        ensures { owned_result result ≡ item_at self.now row col }
    {
        if row < self.shape.rows as usize && col < self.shape.cols as usize {
            return Ok(self.at(row as u32, col as u32));
        }
        Err(CalcErr::Lost)
    }
}

/// The row and the column of an item. A single column takes no division.
fn row_and_col(i: u32, cols: u32) -> (u32, u32)
    requires { 0 < cols }
    ensures row { result.0 ≡ i / cols }
    ensures col { result.1 ≡ i % cols }
{
    if cols == 1 {
        return (i, 0);
    }
    (i / cols, i % cols)
}
