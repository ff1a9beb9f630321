//! The state that all sites of a running sheet share, as a book keeps it: the server, the history of
//! which it is the server, and which sites have ended. What is asked of it copies no more than is
//! answered, so that each thread has it for a short time.
#![tactic(auto)]

mod hub;
mod law;

pub use hub::Hub;
pub use law::hub_goes_to_threads;
