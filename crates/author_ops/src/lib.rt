//! What edits denote on the sheet that their author sees.
#![tactic(auto)]

mod axis;
mod copies;
mod edits;
mod entries;
mod intents;
mod laws;
mod lines;
mod numbers;
mod sorts;

pub use copies::copy;
pub use edits::{clear, set};
pub use intents::denoted;
pub use laws::readings;
pub use lines::{del_col, del_row, ins_col, ins_row};
pub use sorts::sort;
