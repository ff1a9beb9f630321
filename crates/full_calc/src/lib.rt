//! Full evaluation of a sheet.
#![tactic(auto)]

mod constants;
mod evaluation;
mod lines;
mod look;
mod uncounted;
mod whole;

pub use constants::constant_value;
pub use uncounted::evaluated;
pub use whole::values;
