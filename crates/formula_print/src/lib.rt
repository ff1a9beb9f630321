//! Formulas printed, without spaces and with no more brackets than reading back needs.
#![tactic(auto)]

mod pieces;
mod printer;
mod round_trip;

pub use pieces::push_quoted;
pub use printer::print;
pub use round_trip::formulas_are_read_back;
