//! A site's thread: it runs the lines of one site in order over a session, and notes and logs what they
//! did.
#![tactic(auto)]

mod reading;
mod run;
mod work;

pub use run::{SiteEnd, run_site};
