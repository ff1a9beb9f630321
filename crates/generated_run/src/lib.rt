//! The generated run: a sheet and eight sites, 3,200 turns of drawn edits and deliveries, and a summary of
//! the state that they lead to. The draws follow from one number alone.
#![tactic(auto)]

mod comparison;
mod contents;
mod draws;
mod edits;
mod figures;
mod held;
mod load;
mod summary;
mod tally;
#[cfg(test)]
mod tests;

pub use summary::{Loaded, load_summary};
