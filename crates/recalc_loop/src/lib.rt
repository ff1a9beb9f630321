//! The recalculation beside the sites: what evaluates the history and publishes the values.
#![tactic(auto)]

mod changes;
mod desk;
mod evaluation;
mod gate;
mod hold;
mod law;
mod publishing;
mod state;
mod workplace;

pub use changes::{batch_between, changes_between};
pub use desk::{Desk, Nap, Post};
pub use gate::{Gate, NoGate, Point};
pub use law::desk_goes_to_threads;
pub use publishing::end_all;
pub use state::{DeskState, Finished};
pub use workplace::Workplace;
