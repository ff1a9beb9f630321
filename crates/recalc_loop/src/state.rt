ghost use Rattle.std.specs.Prelude.{◌≡◌, ◌≢◌, ◌≤◌, ◌<◌, ◌+◌, ◌-◌, [], ℕ, List, length, map, true, false, All, Some, slice_get, IfSome, IfOk, OnOk, OnErr};
ghost use Rattle.std.specs.List.{AllZip};
ghost use Rattle.ss_base.specs.Lists.{IsPrefixOf};
ghost use Rattle.sheet_ops.specs.declared.operation.Entry.{Entry};
ghost use Rattle.value_snap.specs.Views.{store_size};
ghost use Rattle.hub.specs.Hubs.{opening_of};
ghost use Rattle.recalc_loop.specs.Desks.{desk_of, IsCurrent, IsDesk};
ghost use Rattle.recalc_loop.specs.Evaluations.{AreNext, IsEvaluated};
ghost use Rattle.turn_book.specs.Passes.{items_in};
ghost use Rattle.recalc_loop.specs.Publishing.{batch_of, published, MayHavePublished};
ghost use Rattle.recalc_loop.specs.Standing.{StandsFor};

use crate::evaluation::Evaluation;
use crate::gate::{Gate, Point};
use crate::hold::{Found, take_new};
use crate::publishing::{end_all, publish_all};
use crate::workplace::Workplace;
use hub::Hub;
use sheet_ops::Effect;
use ss_base::{Memory, Seq, Site, Size};
use std::alloc::Global;
use std::marker::{Model, PhantomData};
use std::sync::Wait;
use turn_book::{Book, Pass};
use value_snap::{Publisher, Told};

/// A pass that is out only within a call. In a struct of its own it is found to go from thread to
/// thread.
pub(crate) struct Slot {
    pass: Option<Pass<Hub>>,
}

/// What the desk keeps under its lock: its pass, the evaluation, and the publishers of the stores. It
/// can't be dropped. Contracts see the history that the pass has seen, how many holds it had, the
/// publishers, and whether a turn was refused.
pub struct DeskState<J: Workplace> {
    alloc: Global,
    slot: Slot,
    evaluation: Evaluation,
    publishers: Vec<Publisher>,
    /// How many sites had ended at the last hold.
    ended: u8,
    /// Kept for evaluation by several threads.
    workers: u32,
    spent: bool,
    of: PhantomData<J>,
}

impl<J: Workplace> Model for DeskState<J> {
    ghost use Rattle.std.specs.Prelude.{◌≡◌, ◌≤◌, false};
    ghost use Rattle.std.specs.Coded.{codes};
    ghost use Rattle.sheet_ops.specs.contracts.operation.Entry as entry;
    ghost use Rattle.value_snap.specs.contracts.published.Published as published;
    ghost use Rattle.value_snap.specs.contracts.rule.Store as store;
    ghost use Rattle.recalc_loop.specs.Desks.{DeskOf, desk_of, KeepsDesk, KeepsCurrent};

    ghost Value = { DeskOf };

    ghost coded = { Prim.hlevel (codes, entry.the_row.coded, published.the_row.coded, store.the_row.coded) };

    ghost view = { λ s. desk_of s.slot.pass s.publishers.items s.spent };

    ghost invariant = { λ s. KeepsDesk J.book J.size J.sites J.stores s.slot.pass s.publishers.items s.spent × (s.spent ≡ false → KeepsCurrent J.size s.slot.pass s.evaluation s.publishers.items) };
}

/// What is left of a desk: its pass, the publisher of each site's store in the order of the sites, and
/// whether a turn was refused. Where none was, each publisher has published all that the pass has seen.
pub struct Finished {
    pub pass: Pass<Hub>,
    pub publishers: Seq<Publisher>,
    pub spent: bool,
}

impl<J: Workplace> DeskState<J> {
    /// A desk that has taken nothing yet. The pass is the book's first one and has seen nothing, and
    /// there is a publisher for each site, in their order, of a store of the opening size that has
    /// published nothing. Where it is refused, the publishers are ended. It takes time with the lines.
    pub fn new<R: Wait>(
        rt: &R,
        alloc: Global,
        size: Size,
        pass: Pass<Hub>,
        publishers: Seq<Publisher>,
        workers: u32,
    ) -> Result<DeskState<J>, Memory>
        requires size { size ≡ J.size }
        requires rows { size.rows ≤ 1000 }
        requires cols { size.cols ≤ 64 }
        requires few { J.sites ≤ 8 }
        requires book { pass.book ≡ J.book }
        requires number { pass.number ≡ 0 }
        requires opening { pass.opening ≡ opening_of size J.sites }
        requires unseen { pass.seen ≡ [] }
        requires count { length publishers ≡ J.sites }
        requires stores { (i : ℕ) (q : _) → slice_get publishers i ≡ Some q → q.store ≡ J.stores (i + 1) }
        requires sized { (i : ℕ) (q : _) → slice_get publishers i ≡ Some q → store_size q.store ≡ size }
        requires unspent { All (λ q. q.spent ≡ false) publishers }
        requires unpublished { All (λ q. q.list ≡ []) publishers }
        requires workers { 0 < workers }
        ensures { IfOk result (λ s. s ≡ desk_of (Some pass) publishers false) }
    {
        let Ok(evaluation) = Evaluation::new(alloc, size) else {
            end_all(rt, publishers);
            return Err(Memory);
        };
        Ok(DeskState {
            alloc,
            slot: Slot { pass: Some(pass) },
            evaluation,
            publishers: publishers.into_vec(),
            ended: 0,
            workers,
            spent: false,
            of: PhantomData,
        })
    }

    /// Takes what is new in the history by one hold, evaluates the sheet in full, meets the gate and
    /// publishes to each store. It answers how many entries are published. With nothing new it
    /// publishes nothing and doesn't meet the gate. It waits for the book, and for readers that still
    /// read the copy of a store which it changes.
    ///
    /// After `Memory` what was published stays and the state is spent: each later turn answers
    /// `Memory` and does nothing.
    pub fn turn<R: Wait, G: Gate>(
        &mut self,
        rt: &R,
        book: &Book<Hub>,
        gate: &G,
    ) -> Result<u32, Memory>
        requires { book.now.id ≡ J.book }
        ensures length { IfOk result (λ n. n ≡ length self.new.seen) }
        ensures whole { OnOk result (All (λ q. StandsFor J.size q.list self.new.seen) self.new.publishers) }
        ensures holds { OnOk result (self.new.holds ≡ self.old.holds + 1) }
        ensures seen { IsPrefixOf self.old.seen self.new.seen }
        ensures nothing_new { OnOk result (self.new.seen ≡ self.old.seen → self.new.publishers ≡ self.old.publishers) }
        ensures one_batch { OnOk result (self.new.seen ≢ self.old.seen → self.new.publishers ≡ map (published (batch_of J.size self.old.seen self.new.seen)) self.old.publishers) }
        ensures kept { AllZip (MayHavePublished (batch_of J.size self.old.seen self.new.seen)) self.old.publishers self.new.publishers }
        ensures unspent { OnOk result (self.new.spent ≡ false) }
        ensures spent { OnErr result (self.new.spent ≡ true) }
        ensures stays_spent { self.old.spent ≡ true → OnErr result (self.new ≡ self.old) }
        ensures no_answer { self.old.spent ≡ true → OnOk result ⊥ }
    {
        if self.spent {
            return Err(Memory);
        }
        let pass = self.slot.pass.take().unwrap();
        let Found {
            pass,
            ended,
            effects,
        } = take_new(rt, book, pass, self.evaluation.length());
        self.ended = ended;
        let published = publish_new::<J, R, G>(
            rt,
            self.alloc,
            gate,
            &pass,
            effects,
            &mut self.evaluation,
            &mut self.publishers,
        );
        self.slot.pass = Some(pass);
        self.spent = published.is_err();
        published?;
        Ok(self.evaluation.length())
    }

    /// Whether each site had ended at the last hold.
    pub(crate) fn all_ended(&self) -> bool {
        self.ended as usize >= self.publishers.len()
    }

    /// Whether a turn was refused.
    pub fn is_spent(&self) -> bool
        ensures { result ≡ self.now.spent }
    {
        self.spent
    }

    /// What the store of a site shows.
    pub fn tell(&self, site: Site) -> Told
        requires from { 0 < site.0 }
        requires to { site.0 ≤ J.sites }
        ensures store { result.store ≡ J.stores site.0 }
        ensures list { IfSome (slice_get self.now.publishers (site.0 - 1)) (λ q. result.list ≡ q.list) }
    {
        match self.publishers.get(site.0 as usize - 1) {
            Some(publisher) => publisher.tell(),
            None => unreachable!(),
        }
    }

    /// Gives back the pass and the publishers. It takes no memory.
    pub fn finish(self) -> Finished
        ensures desk { IsDesk J.book J.size J.sites J.stores result.pass result.publishers result.spent }
        ensures view { self ≡ desk_of (Some result.pass) result.publishers result.spent }
    {
        let DeskState {
            alloc: _,
            slot,
            evaluation: _evaluation,
            publishers,
            ended: _,
            workers: _,
            spent,
            of: _,
        } = self;
        let Slot { pass } = slot;
        Finished {
            pass: pass.unwrap(),
            publishers: Seq::from_vec(publishers),
            spent,
        }
    }
}

/// Evaluates what was found new, meets the gate and publishes it to each store. With nothing new it
/// does nothing.
fn publish_new<J: Workplace, R: Wait, G: Gate>(
    rt: &R,
    alloc: Global,
    gate: &G,
    pass: &Pass<Hub>,
    effects: Result<Seq<Effect>, Memory>,
    evaluation: &mut Evaluation,
    publishers: &mut [Publisher],
) -> Result<(), Memory>
    requires desk { IsDesk J.book J.size J.sites J.stores pass.now publishers.old true }
    requires before { (h : List Entry) × IsPrefixOf h (items_in pass.now.seen) × IsCurrent J.size h evaluation.old publishers.old × All (λ q. StandsFor J.size q.list h) publishers.old }
    requires unspent { All (λ q. q.spent ≡ false) publishers.old }
    requires effects { IfOk effects (λ es. AreNext J.size J.sites (items_in pass.now.seen) evaluation.old es) }
    ensures ok { OnOk result (IsDesk J.book J.size J.sites J.stores pass.now publishers.new false) }
    ensures current { OnOk result (IsCurrent J.size (items_in pass.now.seen) evaluation.new publishers.new) }
    ensures err { OnErr result (IsDesk J.book J.size J.sites J.stores pass.now publishers.new true) }
    ensures nothing_new { OnOk result (evaluation.old.length ≡ length (items_in pass.now.seen) → publishers.new ≡ publishers.old) }
    ensures one_batch { (h : List Entry) → IsPrefixOf h (items_in pass.now.seen) → IsEvaluated J.size h evaluation.old
        → OnOk result (items_in pass.now.seen ≢ h → publishers.new ≡ map (published (batch_of J.size h (items_in pass.now.seen))) publishers.old) }
    ensures kept { (h : List Entry) → IsEvaluated J.size h evaluation.old → AllZip (MayHavePublished (batch_of J.size h (items_in pass.now.seen))) publishers.old publishers.new }
{
    let effects = effects?;
    if effects.is_empty() {
        return Ok(());
    }
    let batch = evaluation.advance(alloc, effects.as_slice())?;
    gate.at(
        rt,
        Point::Publish {
            length: evaluation.length(),
        },
    );
    publish_all(rt, publishers, &batch)
}
