//! What the formulas of a sheet mention, as a graph of their cells.
#![tactic(auto)]

mod areas;
mod by_column;
mod cells;
mod columns;
mod graph;
mod placing;
mod references;
mod stored;

pub use areas::{Area, Areas};
pub use cells::filled_in_row;
pub use columns::{Column, FormulaCell};
pub use graph::{Graph, Node, graph_of};
pub use placing::{cell_placed, cols_placed, rows_placed};
pub use stored::StoredFormula;
