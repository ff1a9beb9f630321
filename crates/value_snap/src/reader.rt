ghost use Rattle.std.specs.Prelude.{◌≡◌, ◌≤◌, true, IfOk, OnOk, OnErr, Some};
ghost use Rattle.left_right.specs.Sides.{view};
ghost use Rattle.ss_base.specs.Lists.{IsPrefixOf};
ghost use Rattle.ss_base.specs.Streams.{Rose};
ghost use Rattle.value_snap.specs.Lists.{IsOrdered, is_ended, replay_of, upto_from};
ghost use Rattle.value_snap.specs.Parts.{IsWithin, view_of_range};
ghost use Rattle.value_snap.specs.Refusals.{IsNoEntry, IsOutside};
ghost use Rattle.value_snap.specs.Showing.{IsReplay};
ghost use Rattle.value_snap.specs.Stores.{ReaderOf, known_snapshot};
ghost use Rattle.value_snap.specs.Views.{store_of, store_at, store_size};

use crate::front::Front;
use crate::publisher::Told;
use crate::rule::{OnShow, Sees, Store};
use crate::shown::Shown;
use crate::snap::View;
use ss_base::{Memory, Size, Span};
use std::marker::Model;
use thiserror::Error;

pub type StoreReader = left_right::reader::Reader<Shown, Option<Store>, OnShow>;

/// Why a read was refused.
#[derive(Clone, Copy, Debug, PartialEq, Eq, Error)]
pub enum ReadErr {
    /// No entry was had, and nothing was read.
    #[error("no entry")]
    NoEntry,
    /// A corner is outside the visible sheet that was read.
    #[error("outside the sheet")]
    OutOfSheet,
    #[error("no memory")]
    Memory,
}

/// No entry was had.
#[derive(Clone, Copy, Debug, PartialEq, Eq, Error)]
#[error("no entry")]
pub struct NoEntry;

/// The end of a store that reads. It knows the longest list that it read or was told of, with which
/// each one that it reads later begins.
#[derive(Drop)]
pub struct Reader {
    /// Out only within a call.
    inner: Option<StoreReader>,
    front: Front,
    size: Size,
    refused: u64,
}

impl Model for Reader {
    ghost use Rattle.std.specs.Prelude.{◌≡◌, Some, MatchOption};
    ghost use Rattle.left_right.specs.Sides.{view as seen_by};
    ghost use Rattle.value_snap.specs.Lists.{IsOrdered};
    ghost use Rattle.value_snap.specs.Stores.{ReaderOf};
    ghost use Rattle.value_snap.specs.Views.{store_of};

    ghost Value = { ReaderOf };

    ghost view = { λ r. record { store = store_of r.front.book r.size; known = r.front.list; refused = r.refused } };

    ghost invariant = { λ r. IsOrdered r.front.list × MatchOption r.inner ⊥ (λ i. seen_by i.place ≡ Some (store_of r.front.book r.size)) };
}

impl Reader {
    pub(crate) fn over(inner: StoreReader, front: Front, size: Size) -> Reader
        requires view { view inner.place ≡ Some (store_of front.book size) }
        requires ordered { IsOrdered front.list }
        ensures { result ≡ record { store = store_of front.book size; known = front.list; refused = 0 } }
    {
        Reader {
            inner: Some(inner),
            front,
            size,
            refused: 0,
        }
    }

    /// Reads the values of a range of the visible sheet that is on show. It takes time with the cells
    /// of the range and never waits.
    ///
    /// `NoEntry` says that no entry was had and nothing was read: `left_right` refused it, or what
    /// was on show is behind what the reader knows. `OutOfSheet` comes exactly where a corner is
    /// outside the visible sheet. Then, and after `Memory`, what was seen counts as read.
    pub fn read(&mut self, span: &Span) -> Result<View, ReadErr>
        ensures store { self.new.store ≡ self.old.store }
        ensures kept { IsPrefixOf self.old.known self.new.known }
        ensures ordered { IsOrdered self.new.known }
        ensures ok { IfOk result (λ v. v ≡ view_of_range (known_snapshot self.new) span.now) }
        ensures never_older { IfOk result (λ v. upto_from 0 self.old.known ≤ v.length) }
        ensures within { OnOk result (IsWithin (known_snapshot self.new) span.now) }
        ensures outside { IsOutside result → ¬ IsWithin (known_snapshot self.new) span.now }
        ensures no_entry { IsNoEntry result → Rose self.old.refused self.new.refused × (self.new.known ≡ self.old.known) }
        ensures count { self.old.refused ≤ self.new.refused }
    {
        let Some(inner) = self.inner.take() else {
            unreachable!()
        };
        match inner.enter_as::<Sees>() {
            Ok(reading) => {
                let seen = look(reading.get(), &mut self.front, span);
                self.inner = Some(reading.leave());
                if let Err(ReadErr::NoEntry) = seen {
                    self.refused = self.refused.saturating_add(1);
                }
                seen
            }
            Err(inner) => {
                self.inner = Some(inner);
                self.refused = self.refused.saturating_add(1);
                Err(ReadErr::NoEntry)
            }
        }
    }

    /// Takes in what was told, so that no later read shows an older list. It takes no memory.
    pub fn learn(&mut self, told: Told)
        requires store { told.store ≡ self.old.store }
        ensures same { self.new ≡ record self.old { known = self.new.known } }
        ensures kept { IsPrefixOf self.old.known self.new.known }
        ensures learnt { IsPrefixOf told.list self.new.known }
        ensures ended { is_ended told.list ≡ true → self.new.known ≡ told.list }
        ensures ordered { IsOrdered self.new.known }
    {
        if self.front.begins(&told.front) {
            self.front = told.front;
        }
    }

    /// Finds a closed list on show which was learnt before. Every list that the reader has read or
    /// learnt is then a beginning of that one. It never waits, and takes no memory.
    pub fn agree(&mut self) -> Result<(), NoEntry>
        requires { is_ended self.old.known ≡ true }
        ensures ok { OnOk result (self.new ≡ self.old) }
        ensures no_entry { OnErr result ((self.new ≡ record self.old { refused = self.new.refused }) × Rose self.old.refused self.new.refused) }
    {
        let Some(inner) = self.inner.take() else {
            unreachable!()
        };
        match inner.enter_as::<Sees>() {
            Ok(reading) => {
                let shown = reading.get();
                let agrees = self.front.begins(&shown.front);
                self.inner = Some(reading.leave());
                if agrees {
                    return Ok(());
                }
            }
            Err(inner) => self.inner = Some(inner),
        }
        self.refused = self.refused.saturating_add(1);
        Err(NoEntry)
    }

    /// How many entries weren't had so far. It stands still at 2^64 - 1.
    pub fn refused(&self) -> u64
        ensures { result ≡ self.now.refused }
    {
        self.refused
    }

    /// How many entries of the history the values stand for that it has read or learnt of last. It takes
    /// no memory.
    pub fn length(&self) -> u32
        ensures { result ≡ upto_from 0 self.now.known }
    {
        self.front.upto()
    }
}

/// Reads what is on show and takes it for seen, unless it is behind what was known.
fn look(shown: &Shown, front: &mut Front, span: &Span) -> Result<View, ReadErr>
    requires book { shown.now.front.book ≡ front.old.book }
    requires replay { IsReplay shown.now }
    ensures book { front.new.book ≡ front.old.book }
    ensures kept { IsPrefixOf front.old.list front.new.list }
    ensures ordered { IsOrdered front.old.list → IsOrdered front.new.list }
    ensures never_older { IfOk result (λ v. upto_from 0 front.old.list ≤ v.length) }
    ensures ok { IfOk result (λ v. v ≡ view_of_range (replay_of shown.now.size front.new.list) span.now) }
    ensures within { OnOk result (IsWithin (replay_of shown.now.size front.new.list) span.now) }
    ensures outside { IsOutside result → ¬ IsWithin (replay_of shown.now.size front.new.list) span.now }
    ensures no_entry { IsNoEntry result → front.new ≡ front.old }
{
    if !front.begins(&shown.front) {
        return Err(ReadErr::NoEntry);
    }
    *front = shown.front.again();
    if !shown.snap.is_within(span) {
        return Err(ReadErr::OutOfSheet);
    }
    match shown.snap.view(span) {
        Ok(view) => Ok(view),
        Err(_) => Err(ReadErr::Memory),
    }
}
