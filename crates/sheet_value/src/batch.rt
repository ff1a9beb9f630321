use crate::value::Value;
use ss_base::Seq;

/// What a recalculation publishes.
#[derive(Debug, Drop)]
pub struct Batch {
    /// How many entries of the history were evaluated.
    pub upto: u32,
    /// The numbers of the visible rows, from first to last.
    pub row_order: Seq<u32>,
    /// The numbers of the visible columns, from first to last.
    pub col_order: Seq<u32>,
    pub changes: Seq<Change>,
}

/// A new value of one cell, by the numbers of its row and column.
#[derive(Debug, Drop)]
pub struct Change {
    pub row: u32,
    pub col: u32,
    pub value: Value,
}
