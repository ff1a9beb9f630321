//! What a run of threads leaves: a history, and beside it what each site noted of its lines. A record
//! holds where the lines, done again by the notes, are what the history has of the site. And the text
//! that is printed of it.
#![tactic(auto)]

mod note;
mod text;

pub use note::{Note, NoteKind};
pub use text::live_text;
