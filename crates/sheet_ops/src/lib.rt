//! Operations on a shared sheet, and the definitions of what they mean: sheets and operations by
//! identity, the history, and every view of it.
#![tactic(auto)]

mod content;
mod edit;
mod effect;
mod laws;
mod misfits;
mod numeral;
mod operation;

pub use content::{Content, Put};
pub use edit::{Edit, EditErr};
pub use effect::{effect_of, is_among, size_past, size_past_own};
pub use laws::{pairs_converge, pairs_fit_again};
pub use misfits::{fits, fits_effect};
pub use numeral::is_numeral;
pub use operation::{Effect, Entry, Intent, Up};
