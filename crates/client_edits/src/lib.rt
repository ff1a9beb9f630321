//! What an edit of a person comes to at the client of their site. The keys of a sort are the values of
//! the client's own sheet, by a full evaluation where one of them is a formula's.
#![tactic(auto)]

mod issuing;

pub use issuing::issue;
