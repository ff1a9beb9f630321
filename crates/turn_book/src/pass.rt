use crate::kept::Kept;
use crate::turns::BookSeat;
use std::marker::Model;

/// The right to enter a book. It has no bytes, and may go from thread to thread. Contracts see its
/// number, the opening of its book, the beginning of the history that it has seen, the entries that
/// it made, and how many of its holds have ended. A book of which a pass was dropped can't be closed.
#[derive(Drop)]
pub struct Pass<S: Kept> {
    pub(crate) seat: BookSeat<S>,
}

impl<S: Kept> Model for Pass<S> {
    ghost use Rattle.turn_book.specs.Passes.{PassOf};
    ghost use Rattle.turn_book.specs.Turns.{standing_of, pass_of, HasPass};

    ghost Value = { PassOf S.Item };

    ghost view = { λ p. pass_of p.seat.table_id (standing_of p.seat.me.0) };

    ghost invariant = { λ p. HasPass p.seat.me };
}
