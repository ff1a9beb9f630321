use std::alloc::{AllocError, AllocFailed};
use thiserror::Error;

/// Want of memory, and nothing else.
#[derive(Clone, Copy, Debug, PartialEq, Eq, Error)]
#[error("no memory")]
pub struct Memory;

/// A read or a write that failed.
#[derive(Clone, Copy, Debug, PartialEq, Eq, Error)]
#[error("a read or a write failed")]
pub struct Failed;

impl From<AllocError> for Memory {
    fn from(_: AllocError) -> Memory {
        Memory
    }
}

impl<T: Drop> From<AllocFailed<T>> for Memory {
    fn from(_: AllocFailed<T>) -> Memory {
        Memory
    }
}

/// One of the people who edit a sheet, numbered from 1 to 8.
#[derive(Clone, Copy, Debug, PartialEq, Eq, PartialOrd, Ord)]
pub struct Site(pub u8);

/// The identifier of a line: the site that brought it and the number of that site's operation,
/// counted from 1; or site 0 and the position in the opening sheet, counted from 0.
#[derive(Clone, Copy, Debug, PartialEq, Eq, PartialOrd, Ord)]
pub struct Name {
    pub site: u8,
    pub number: u32,
}

/// How many rows and columns a sheet has.
#[derive(Clone, Copy, Debug, PartialEq, Eq)]
pub struct Size {
    pub rows: u32,
    pub cols: u32,
}

/// A cell by its row and column, counted from 0, and whether each was typed with a `$`.
#[derive(Clone, Copy, Debug, PartialEq, Eq)]
pub struct Spot {
    pub row: u32,
    pub col: u32,
    pub abs_row: bool,
    pub abs_col: bool,
}

/// A range by its first and last row and column, counted from 0, and whether each was typed with a
/// `$`. Its `top` isn't below its `bottom`, and its `left` isn't right of its `right`.
#[derive(Clone, Copy, Debug, PartialEq, Eq)]
pub struct Span {
    pub top: u32,
    pub left: u32,
    pub bottom: u32,
    pub right: u32,
    pub abs_top: bool,
    pub abs_left: bool,
    pub abs_bottom: bool,
    pub abs_right: bool,
}

/// The errors that a formula may have as its value, in the order of values (OpenFormula, "Errors";
/// `Circ` is this profile's own).
#[derive(Clone, Copy, Debug, PartialEq, Eq)]
pub enum CalcErr {
    /// `#DIV/0!`
    Div0,
    /// `#N/A`
    Na,
    /// `#NAME?`
    NoName,
    /// `#NUM!`
    BadNum,
    /// `#REF!`
    Lost,
    /// `#VALUE!`
    BadKind,
    /// `#CIRC!`
    Circ,
}
