//! Addresses of cells and ranges, both ways.
#![tactic(auto)]

mod cell;
mod column;
mod law;
mod number;

pub use cell::{read_cell, read_range, span_between};
pub use column::{col_of, letters_of};
pub use law::addresses_are_read_back;
pub use number::read_count;
