//! The code of formulas: their trees as steps in postfix order, in which a choice passes over the
//! branch that it doesn't take.
#![tactic(auto)]

mod code;
mod compiling;
mod step;

pub use code::Code;
pub use compiling::compile;
pub use step::Step;
