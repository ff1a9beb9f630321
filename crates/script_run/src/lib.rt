//! The run of a script: its history, one client for each site, one server, and the sheet of what is published
//! with its values. One command is one step.
#![tactic(auto)]

mod deliver;
mod issue;
pub mod laws;
mod places;
mod published;
mod room;
mod run;
mod seat;
mod state;

pub use room::Room;
pub use run::Run;
pub use seat::Seat;
pub use state::{Outcome, ScriptState};
