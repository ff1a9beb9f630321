//! Scripts for running threads, read whole and parted by sites.
#![tactic(auto)]

mod collect;
mod fault;
mod flow;
mod lines;
mod read;
mod script;

pub use read::read_live;
pub use script::{Action, LiveScript, LiveStop, SiteLine, SiteScript};
