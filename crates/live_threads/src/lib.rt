//! The threads of a live run: what is there before the first one starts, each site and the recalculation
//! in a thread of its own, and what they leave.
#![tactic(auto)]

mod opening;
mod threads;

pub use opening::{Opening, open};
pub use threads::{Ran, run_threads};
