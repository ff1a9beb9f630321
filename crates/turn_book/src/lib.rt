//! A lock with a history. One state is shared by any number of threads, and one of them at a time
//! has it. Each thread has a pass, which knows what the thread has seen of the state's history and
//! which of its entries are the thread's own. When all passes are brought back, the state comes out.
//!
//! Nothing is said of waiting: not that a thread that waits gets on, nor in which order threads do.
#![tactic(auto)]

mod book;
mod closed;
mod held;
mod kept;
mod pass;
mod steps;
mod turns;

pub use book::Book;
pub use closed::{Closed, Unclosed};
pub use held::Held;
pub use kept::{Kept, Made};
pub use pass::Pass;
