//! How a run of a program ends, the number that the program then ends with, and what it says of it.
#![tactic(auto)]

mod status;

pub use status::Status;
