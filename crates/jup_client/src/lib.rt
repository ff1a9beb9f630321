//! The client of one site, after Jupiter (Nichols, Curtis, Dixon and Lamping, UIST 1995): the site's
//! sheet, and its own operations that aren't in the history yet.
#![tactic(auto)]

mod client;
mod laws;
mod passing;

pub use client::{Client, TakeErr};
pub use laws::{history_goes_on, next_may};
use sheet_ops::Effect;

/// What a site is sent for an entry of the history.
#[derive(Debug, Drop)]
pub enum Down {
    /// The entry is its own.
    Own,
    /// What another's entry does to the sheet after the entries before it, by positions.
    Other(Effect),
}
