use crate::book::Book;
use crate::kept::Kept;
use crate::pass::Pass;
use crate::turns::BookSeat;
use ss_base::Seq;
use std::marker::Model;
use std::snapshot::Snapshot;

/// The state of a closed book, which `Book::close` alone makes. Contracts see with it the number of
/// each pass beside how many holds it had, in the order in which the passes were brought.
#[derive(Drop)]
pub struct Closed<S: Kept> {
    pub(crate) state: S,
    pub(crate) last: Snapshot<BookSeat<S>>,
}

impl<S: Kept> Model for Closed<S> {
    ghost use Rattle.std.specs.Prelude.{map};
    ghost use Rattle.turn_book.specs.Passes.{ClosedOf};

    ghost Value = { ClosedOf S };

    ghost view = { λ c. record { state = c.state; holds = map (λ p. (p.number, p.holds)) c.last.value.me.0.standings } };
}

/// A book that wasn't closed, and the passes that were there.
#[derive(Drop)]
pub struct Unclosed<S: Kept> {
    pub book: Book<S>,
    pub passes: Seq<Pass<S>>,
}

impl<S: Kept> Closed<S> {
    ghost use Rattle.std.specs.Prelude.{◌≡◌};

    /// The state. It takes no memory.
    pub fn state(&self) -> &S
        ensures { result.now ≡ self.now.state }
    {
        &self.state
    }
}
