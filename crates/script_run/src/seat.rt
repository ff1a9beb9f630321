use sheet_ops::Entry;
use ss_base::{Seq, Txt};

/// What a run has of one site beside its client.
#[derive(Debug, Drop)]
pub struct Seat {
    pub name: Txt,
    /// Its own entries, in order.
    pub made: Seq<Entry>,
    /// How many of them are in the history.
    pub pushed: u32,
    /// How many entries of the history it has taken.
    pub taken: u32,
    /// How many entries were published when it last read values; 0 before that.
    pub read: u32,
}
