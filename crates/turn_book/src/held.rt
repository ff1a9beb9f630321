use crate::book::Book;
use crate::kept::Kept;
use crate::pass::Pass;
use crate::steps::give;
use crate::turns::BookSeat;
use std::marker::Model;

/// The state of a book, which the pass that entered has until it leaves. It can't be dropped.
/// Contracts see the pass as it entered, the history that it found, and the state as it is now.
pub struct Held<'a, S: Kept> {
    pub(crate) book: &'a Book<S>,
    pub(crate) seat: BookSeat<S>,
    pub(crate) state: S,
}

impl<'a, S: Kept> Model for Held<'a, S> {
    ghost use Rattle.std.specs.Prelude.{◌≡◌};
    ghost use Rattle.turn_book.specs.Passes.{HeldOf};
    ghost use Rattle.turn_book.specs.Turns.{held_of, HasState};

    ghost Value = { HeldOf S S.Item };

    ghost view = { λ h. held_of h.seat.table_id h.seat.me.0 h.state };

    ghost invariant = { λ h. (h.seat.table_id ≡ h.book.now.id) × HasState h.seat.me };
}

impl<'a, S: Kept> Held<'a, S> {
    ghost use Rattle.std.specs.Prelude.{◌≡◌, ◌+◌, ◌++◌, [], length, drop};
    ghost use Rattle.std.specs.Borrow.{Lends, sem};
    ghost use mir.Syntax.{named};
    ghost use Rattle.turn_book.specs.contracts.held.Held.{the_row};
    ghost use Rattle.turn_book.specs.Passes.{AddsOwn, IsSamePass, with_state};

    /// The state, to read and to change.
    pub fn state(&mut self) -> &mut S
        ensures* writes_back { sem 𝓛 (Lends (the_row (record { mir = named 1; lft = [] }) S.row S.Item.row S.Kept) S.row self.entry result (with_state self.old)) }
        ensures value { result.now ≡ self.old.state }
    {
        &mut self.state
    }

    /// Gives the state back to the book and wakes a thread that waits for it, if there is one. The
    /// opening has to be the pass's, and the history the one that was found, followed by entries of
    /// this pass alone, whose numbers go on from those of its earlier ones. It takes no memory, and
    /// costs a call of the system.
    pub fn leave(self) -> Pass<S>
        requires opening { S.opening self.state ≡ self.pass.opening }
        requires adds { AddsOwn self.pass self.found (S.history self.state) }
        ensures same { IsSamePass self.entry.pass result }
        ensures seen { result.seen ≡ S.history self.entry.state }
        ensures made { result.made ≡ self.entry.pass.made ++ drop (length self.entry.found) (S.history self.entry.state) }
        ensures holds { result.holds ≡ self.entry.pass.holds + 1 }
    {
        let Held {
            book,
            mut seat,
            state,
        } = self;
        give(&book.table.shared, &mut seat, state);
        Pass { seat }
    }
}
