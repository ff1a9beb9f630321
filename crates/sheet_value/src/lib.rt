//! Values of cells: their order, their conversions, what a formula sees of a sheet, and the values of
//! a whole sheet.
#![tactic(auto)]

mod batch;
mod column;
mod convert;
mod grid;
mod law;
mod look;
mod ordering;
mod plain;
mod value;
mod window;

pub use batch::{Batch, Change};
pub use convert::{text_value, to_num, to_text};
pub use grid::Grid;
pub use law::order_is_total;
pub use look::{Look, Seen};
pub use ordering::{compare, order};
pub use value::Value;
pub use window::Window;
