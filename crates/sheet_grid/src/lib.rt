//! A sheet kept under numbers of its lines that never change: the first row, and the first column,
//! that ever came has the number 0, the next one 1, and so on. A row's slot and its record get the
//! same number. Contents and their references are kept by numbers, so that no insertion, deletion
//! or move touches a content.
#![tactic(auto)]

mod axis;
mod change;
mod filled;
pub mod laws;
mod lines;
mod numbered;
mod numbering;
mod read;
mod row;
mod write;

use crate::axis::AxisLines;
use sheet_ops::Content;
use std::collections::BTreeMap;
use std::marker::Model;

/// What kind of content a cell has.
#[derive(Clone, Copy, Debug, PartialEq, Eq)]
pub enum Kind {
    Empty,
    Num(i64),
    Text,
    Formula,
}

/// A sheet. Contracts see it as what it keeps: the numbers and marks of its lines, and the contents
/// by numbers; `placed_in` is the sheet by positions that this is. For each row that ever came
/// there is a map from the numbers of columns to contents, in which an empty cell has no key.
#[derive(Debug, Drop)]
pub struct Sheet {
    rows: AxisLines,
    cols: AxisLines,
    cells: Vec<BTreeMap<u32, Content>>,
}

impl Model for Sheet {
    ghost use Rattle.std.specs.Coded.{codes};
    ghost use Rattle.sheet_ops.specs.contracts.content.Content as content;
    ghost use Rattle.sheet_grid.specs.Kept.{IsTidy};
    ghost use Rattle.sheet_grid.specs.Values.{NumberedSheet, numbered_sheet_of};

    ghost Value = { NumberedSheet };

    ghost coded = { Prim.hlevel (codes, content.the_row.coded) };

    ghost view = { λ s. numbered_sheet_of s.rows s.cols s.cells.items };

    ghost invariant = { λ s. IsTidy s.rows s.cols s.cells.items };
}
