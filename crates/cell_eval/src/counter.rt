ghost use Rattle.std.specs.Prelude.{◌≡◌, ◌+◌, ◌<◌};

use std::marker::Model;
use std::sync::ledger::{Blank, Book, Ledger, Share};

/// How many evaluations were made, which contracts see as a number. It takes no bytes, and its number
/// changes by an evaluation alone.
#[derive(Drop)]
pub struct Steps<G: Ledger> {
    book: Book<G>,
    share: Share<G>,
}

impl<G: Ledger> Model for Steps<G> {
    ghost use Rattle.std.specs.Prelude.{ℕ, ◌<◌};

    ghost Value = { ℕ };

    ghost view = { λ s. s.book.total };

    ghost invariant = { λ s. 0 < s.share.parts };
}

impl<G: Ledger> Steps<G> {
    /// A count of 0, in a new ledger of at least one part.
    pub fn new(blank: Blank) -> Steps<G>
        requires name { blank.name ≡ G.name }
        requires parts { blank.parts ≡ G.parts }
        requires some { 0 < blank.parts }
        ensures { result ≡ 0 }
    {
        let (book, share) = blank.open();
        Steps { book, share }
    }

    /// One more.
    pub(crate) fn tick(&mut self)
        ensures { self.new ≡ self.old + 1 }
    {
        self.book.add(&mut self.share, 1);
    }
}
