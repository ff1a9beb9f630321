//! The table below a book. Its one slot has the state while no pass has it, and its one word says so:
//! 0 where the state is at home, and 1 where a pass has it. Four kinds of step touch it: a pass gets a
//! seat of its own, takes the state, gives it back, and goes to another seat.
use crate::kept::{Kept, Made};
use atomic_table::{Join, Play, Seat, Shared, Split, Table, TableRule};
use std::alloc::Global;
use std::collections::LinkedList;
use std::snapshot::Snapshot;

/// What is known of a pass: its number, the opening of the state, the history that it has seen, the
/// entries that it made, and how many holds it had. No value of it is made.
pub struct Standing<I> {
    pub number: u32,
    pub opening: LinkedList<u32>,
    pub seen: LinkedList<Made<I>>,
    pub made: LinkedList<Made<I>>,
    pub holds: u64,
}

/// What a seat knows: the passes that it has, and while it has the state the history that it found
/// there. No value of it is made.
pub struct Knowledge<I> {
    pub standings: LinkedList<Standing<I>>,
    pub found: Option<LinkedList<Made<I>>>,
}

/// What the table is told when it is made: the state at the start, and the number of passes.
#[derive(Drop)]
pub struct Start<S> {
    pub state: Snapshot<S>,
    pub passes: u32,
}

/// The rule that every step keeps.
pub struct Turns;

impl<S: Kept> TableRule<Option<S>, Knowledge<S::Item>, Start<S>> for Turns {
    ghost use Rattle.turn_book.specs.Turns.{HasOneHistory, newcomers};

    ghost holds = { λ key. HasOneHistory S.opening S.history (S.opening key.state.value) key.passes };

    ghost first = { λ key. newcomers (S.opening key.state.value) key.passes };
}

/// A step that takes the state if it is at home.
pub struct Take;

impl<S: Kept> Play<Option<S>, Knowledge<S::Item>> for Take {
    ghost use Rattle.turn_book.specs.Turns.{takes_then};

    ghost then = { takes_then S.opening S.history };
}

/// The step that gives the state back.
pub struct Give;

impl<S: Kept> Play<Option<S>, Knowledge<S::Item>> for Give {
    ghost use Rattle.turn_book.specs.Turns.{gives_then};

    ghost then = { gives_then S.history };
}

/// A new seat gets the first of the passes.
pub struct FirstPass;

impl<I> Split<Knowledge<I>> for FirstPass {
    ghost use Rattle.turn_book.specs.Turns.{without_first, first_alone};

    ghost left = { without_first };

    ghost right = { first_alone };
}

/// One seat gets the passes of both.
pub struct AllPasses;

impl<I> Join<Knowledge<I>> for AllPasses {
    ghost use Rattle.turn_book.specs.Turns.{both_views, spent};

    ghost both = { both_views };

    ghost spent = { spent };
}

pub type SharedTable<S> = Shared<Option<S>, Knowledge<<S as Kept>::Item>, Start<S>, Turns>;

pub type BookSeat<S> = Seat<Option<S>, Knowledge<<S as Kept>::Item>>;

pub type BookTable<S> = Table<Option<S>, Knowledge<<S as Kept>::Item>, Start<S>, Turns, Global>;
