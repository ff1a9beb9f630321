//! A site at work. It edits its own replica at once, and what it has not pushed yet waits. It pushes to
//! the shared history and pulls from it by short holds of the hub's book, and reads published values
//! without waiting.
#![tactic(auto)]

mod holds;
mod law;
mod pushes;
mod session;
mod takes;

pub use law::session_goes_to_threads;
pub use session::{Ended, Session};
