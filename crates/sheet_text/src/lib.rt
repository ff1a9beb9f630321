//! The texts that are printed of a sheet: its cells, their values, the lines above them, what is told of
//! an edit, its history, and the effects that are applied to it.
#![tactic(auto)]

mod answers;
mod content;
mod first_line;
mod history;
pub mod laws;
mod lines;
mod operations;
mod readings;
mod values;

pub use answers::{answer_text, nothing};
pub use first_line::{head, refusal, server_head};
pub use history::{history_lines, wire_lines};
pub use lines::sheet_lines;
pub use readings::{all_text, part_text, range_text};
