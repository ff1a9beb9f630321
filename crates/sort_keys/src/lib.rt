//! The keys by which a sort orders its rows: values of the sheet that its author sees.
#![tactic(auto)]

mod edit_keys;

pub use edit_keys::keys;
