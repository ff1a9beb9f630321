use crate::closed::{Closed, Unclosed};
use crate::held::Held;
use crate::kept::Kept;
use crate::pass::Pass;
use crate::steps::{deal, end, gather, take};
use crate::turns::{BookTable, Start};
use atomic_table::Table;
use ss_base::{Memory, Seq};
use std::alloc::Global;
use std::marker::Model;
use std::snapshot::Snapshot;
use std::sync::Wait;

/// A state that one pass at a time may change. Threads share it by reference. Contracts see which
/// book it is, the opening of its state, and how many passes it has.
#[derive(Drop)]
pub struct Book<S: Kept> {
    pub(crate) table: BookTable<S>,
    passes: u32,
}

impl<S: Kept> Model for Book<S> {
    ghost use Rattle.turn_book.specs.Passes.{BookOf};
    ghost use Rattle.turn_book.specs.Turns.{IsOfBook};

    ghost Value = { BookOf };

    ghost view = { λ b. record { id = b.table.shared.table_id; opening = S.opening b.table.shared.key.state.value; passes = b.passes } };

    ghost invariant = { λ b. IsOfBook b.table.shared.table_id b.table.shared.key.passes b.passes };
}

impl<S: Kept + Drop> Book<S> {
    ghost use Rattle.std.specs.Prelude.{◌≡◌, ◌<◌, [], IfOk};
    ghost use Rattle.turn_book.specs.Passes.{new_passes};

    /// A book of this state, which has no history yet, and its passes in the order of their numbers,
    /// counted from 0. There is at least one. `Memory` is want of memory alone, and drops the state.
    pub fn new(alloc: Global, state: S, passes: u32) -> Result<(Book<S>, Seq<Pass<S>>), Memory>
        requires some { 0 < passes }
        requires empty { S.history state ≡ [] }
        ensures opening { IfOk result (λ r. r.0.opening ≡ S.opening state) }
        ensures count { IfOk result (λ r. r.0.passes ≡ passes) }
        ensures passes { IfOk result (λ r. r.1 ≡ new_passes r.0) }
    {
        let start = Start {
            state: Snapshot::of(&state),
            passes,
        };
        let mut slots = Vec::new(alloc);
        slots.push(Some(state))?;
        let Ok((table, seat)) = Table::new(alloc, &[0], slots, &start) else {
            return Err(Memory);
        };
        let dealt = deal(alloc, &table.shared, seat, passes)?;
        Ok((Book { table, passes }, dealt))
    }
}

impl<S: Kept> Book<S> {
    ghost use Rattle.std.specs.Prelude.{◌≡◌, ◌≢◌, ◌<◌, [], All, Contains, OnOk, OnErr, IfOk, IfErr, map};
    ghost use Rattle.ss_base.specs.Lists.{IsPrefixOf};
    ghost use Rattle.turn_book.specs.Entries.{made_by, entries_of};
    ghost use Rattle.turn_book.specs.Passes.{AreOf, AreAll};

    /// Takes the state as soon as no other pass has it; until then the thread sleeps. The pass has to
    /// be one of this book. It takes no memory.
    pub fn enter<R: Wait>(&self, rt: &R, pass: Pass<S>) -> Held<'_, S>
        requires { pass.book ≡ self.now.id }
        ensures pass { result.pass ≡ pass }
        ensures found { result.found ≡ S.history result.state }
        ensures opening { S.opening result.state ≡ pass.opening }
        ensures seen { IsPrefixOf pass.seen (S.history result.state) }
        ensures made { made_by pass.number (S.history result.state) ≡ pass.made }
        ensures numbered { pass.made ≡ entries_of pass.number 0 (map (λ e. e.item) pass.made) }
        ensures held { pass.seen ≢ [] → 0 < pass.holds }
    {
        let Pass { mut seat } = pass;
        let state = take(rt, &self.table.shared, &mut seat);
        Held {
            book: self,
            seat,
            state,
        }
    }

    /// Ends a book whose passes are all there, in any order: their numbers are those that the book
    /// gave out, each once. The passes have to be of this book. Exactly where not all are there, the
    /// book and the passes come back. It takes no memory.
    pub fn close(self, passes: Seq<Pass<S>>) -> Result<Closed<S>, Unclosed<S>>
        requires { AreOf self passes }
        ensures all { OnOk result (AreAll self passes) }
        ensures missing { OnErr result (¬ AreAll self passes) }
        ensures back { IfErr result (λ u. (u.book ≡ self) × (u.passes ≡ passes)) }

        // What the state is.
        ensures opening { IfOk result (λ c. S.opening c.state ≡ self.opening) }
        ensures openings { IfOk result (λ c. All (λ p. p.opening ≡ S.opening c.state) passes) }
        ensures seen { IfOk result (λ c. All (λ p. IsPrefixOf p.seen (S.history c.state)) passes) }
        ensures made { IfOk result (λ c. All (λ p. made_by p.number (S.history c.state) ≡ p.made) passes) }
        ensures no_other { IfOk result (λ c. All (λ e. Contains (map (λ p. p.number) passes) e.pass) (S.history c.state)) }

        // What the passes are.
        ensures numbered { OnOk result (All (λ p. p.made ≡ entries_of p.number 0 (map (λ e. e.item) p.made)) passes) }
        ensures held { OnOk result (All (λ p. p.seen ≢ [] → 0 < p.holds) passes) }
        ensures holds { IfOk result (λ c. c.holds ≡ map (λ p. (p.number, p.holds)) passes) }
    {
        if passes.len() != self.passes as usize {
            return Err(Unclosed { book: self, passes });
        }
        let Book { table, passes: _ } = self;
        let seat = gather(&table.shared, passes);
        let last = Snapshot::of(&seat);
        let state = end(table, seat);
        Ok(Closed { state, last })
    }
}
