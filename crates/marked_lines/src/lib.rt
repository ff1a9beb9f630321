//! Lines of one axis of a sheet, some of which are hidden for good, and permutations of their
//! positions.
#![tactic(auto)]

pub mod laws;
mod lines;
mod perm;
mod places;

pub use lines::{Lines, MOST_LINES};
pub use perm::Perm;
