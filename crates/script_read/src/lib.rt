//! The commands of a script, and the reader of one line.
#![tactic(auto)]

mod command;
mod form;
mod laws;
mod read;
mod script;
mod words;

pub use command::{Command, LineFault};
pub use laws::lines_are_commands;
pub use read::read_command;
pub use script::{ScriptErr, ScriptKind};
