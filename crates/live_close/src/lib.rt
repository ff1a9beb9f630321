//! The end of a live run: the stores and the book are closed, each client takes what it lacks, and what the
//! threads left is a record of the script, with its text.
#![tactic(auto)]

mod agreeing;
mod closing;
mod record;

pub use closing::close;
pub use record::LiveRecord;
