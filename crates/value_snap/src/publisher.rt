ghost use Rattle.std.specs.Prelude.{◌≡◌, ◌≤◌, ◌++◌, ◌∷◌, [], true, false, drop, fold, IfOk, OnOk, OnErr, Some};
ghost use Rattle.left_right.specs.Sides.{view};
ghost use Rattle.value_snap.specs.Lists.{IsOrdered, MayBePublished, is_ended, upto_from};
ghost use Rattle.value_snap.specs.Log.{head_of};
ghost use Rattle.value_snap.specs.Showing.{after_op, ops_of, put_operations, IsReplay};
ghost use Rattle.sheet_value.specs.Snapshots.{opening_snapshot};
ghost use Rattle.value_snap.specs.Stores.{PublisherOf, ToldOf, ReaderOf, HasFewLines};
ghost use Rattle.value_snap.specs.Views.{store_of, store_at, store_size};
ghost use Rattle.value_snap.specs.declared.published.Published.TheVariants.{Full, End};

use crate::front::{Add, Front, Head, open_list};
use crate::reader::{Reader, StoreReader};
use crate::rule::{HandsOn, OnShow, Sees, Store};
use crate::shown::{Op, Shown};
use crate::snap::Snap;
use left_right::writer::Writer;
use sheet_value::{Batch, Change};
use ss_base::{Memory, Size};
use std::alloc::Global;
use std::marker::Model;
use std::mem;
use std::sync::Wait;

type StoreWriter = Writer<Shown, Op, Option<Store>, OnShow>;

/// The most entries that a list may have before another is added.
const MOST: u64 = 1 << 62;

/// The end of a store that publishes. It can't be dropped: `end` takes it apart.
pub struct Publisher {
    /// Out only within a call.
    writer: Option<StoreWriter>,
    head: Head,
    front: Front,
    size: Size,
    spent: bool,
}

impl Model for Publisher {
    ghost use Rattle.std.specs.Prelude.{◌≡◌, false, [], drop, MatchOption};
    ghost use Rattle.value_snap.specs.Log.{head_of};
    ghost use Rattle.value_snap.specs.Stores.{PublisherOf};
    ghost use Rattle.value_snap.specs.Views.{store_of};

    ghost Value = { PublisherOf };

    ghost view = { λ p. record { store = store_of p.front.book p.size; list = p.front.list; spent = p.spent } };

    ghost invariant = { λ p. (p.head ≡ head_of p.front.book) × MatchOption p.writer ⊥ (λ w. (w.desk.shown.value.front ≡ p.front) × (w.desk.shown.value.size ≡ p.size) × (p.spent ≡ false → drop w.behind w.log.items ≡ [])) };
}

/// What a publisher told: the list that was on show then.
#[derive(Drop)]
pub struct Told {
    pub(crate) front: Front,
    pub(crate) size: Size,
}

impl Model for Told {
    ghost use Rattle.value_snap.specs.Lists.{IsOrdered};
    ghost use Rattle.value_snap.specs.Stores.{ToldOf};
    ghost use Rattle.value_snap.specs.Views.{store_of};

    ghost Value = { ToldOf };

    ghost view = { λ t. record { store = store_of t.front.book t.size; list = t.front.list } };

    ghost invariant = { λ t. IsOrdered t.front.list };
}

impl Told {
    /// The published length: how many entries of the history were evaluated. It takes no memory.
    pub fn length(&self) -> u32
        ensures length { result ≡ upto_from 0 self.now.list }
        ensures ordered { IsOrdered self.now.list }
    {
        self.front.upto()
    }
}

impl Publisher {
    /// Shows readers the values after one more batch. It takes time with the changes and with the
    /// lengths of the orders, of which it copies those that changed, and it waits for readers that
    /// still read the copy which it changes.
    ///
    /// After a refusal readers see what they saw, and the publisher is spent.
    pub fn publish<R: Wait>(&mut self, rt: &R, batch: &Batch) -> Result<(), Memory>
        requires unspent { self.old.spent ≡ false }
        requires follows { MayBePublished self.old.list (Full batch.now) }
        requires few { HasFewLines batch.now }
        ensures ok { OnOk result (self.new ≡ record self.old { list = self.old.list ++ Full batch.now ∷ [] }) }
        ensures length { OnOk result (upto_from 0 self.new.list ≡ batch.now.upto) }
        ensures unclosed { OnOk result (is_ended self.new.list ≡ false) }
        ensures err { OnErr result (self.new ≡ record self.old { spent = true }) }
    {
        let Some(writer) = self.writer.take() else {
            unreachable!()
        };
        let (writer, shown) = show_batch(rt, writer, &self.head, &self.front, batch);
        put_back(rt, &mut self.writer, writer);
        match shown {
            Ok(front) => {
                self.front = front;
                Ok(())
            }
            Err(refused) => {
                self.spent = true;
                Err(refused)
            }
        }
    }

    /// Puts the mark behind all batches, and tells the whole list. Nothing may be published behind
    /// it. After a refusal readers see what they saw, and the publisher is spent.
    pub fn close<R: Wait>(&mut self, rt: &R) -> Result<Told, Memory>
        requires unspent { self.old.spent ≡ false }
        requires unclosed { is_ended self.old.list ≡ false }
        ensures ok { OnOk result (self.new ≡ record self.old { list = self.old.list ++ End ∷ [] }) }
        ensures told { IfOk result (λ t. t ≡ record { store = self.old.store; list = self.old.list ++ End ∷ [] }) }
        ensures ended { IfOk result (λ t. is_ended t.list ≡ true) }
        ensures err { OnErr result (self.new ≡ record self.old { spent = true }) }
    {
        let Some(writer) = self.writer.take() else {
            unreachable!()
        };
        let (writer, shown) = show_mark(rt, writer, &self.head, &self.front);
        put_back(rt, &mut self.writer, writer);
        match shown {
            Ok(front) => {
                let told = Told {
                    front: front.again(),
                    size: self.size,
                };
                self.front = front;
                Ok(told)
            }
            Err(Memory) => {
                self.spent = true;
                Err(Memory)
            }
        }
    }

    /// Whether a `publish` or a `close` was refused.
    pub fn is_spent(&self) -> bool
        ensures { result ≡ self.now.spent }
    {
        self.spent
    }

    /// Tells the list that is on show. It takes no memory.
    pub fn tell(&self) -> Told
        ensures told { result ≡ record { store = self.now.store; list = self.now.list } }
        ensures ordered { IsOrdered self.now.list }
    {
        Told {
            front: self.front.again(),
            size: self.size,
        }
    }

    /// Takes the store's copies apart, as soon as no reader is in them. It takes no memory.
    pub fn end<R: Wait>(self, rt: &R) {
        let Publisher {
            writer,
            head: _head,
            front: _front,
            size: _,
            spent: _,
        } = self;
        match writer {
            Some(writer) => drop(writer.take(rt)),
            None => {}
        }
    }
}

/// A store that shows an opening sheet, in which every cell is empty: its publishing end and its
/// reading end. Where it is refused nothing is left of it.
pub fn store<R: Wait>(rt: &R, alloc: Global, size: Size) -> Result<(Publisher, Reader), Memory>
    requires rows { size.rows ≤ 16000 }
    requires cols { size.cols ≤ 16000 }
    ensures publisher { IfOk result (λ r. (r.0.list ≡ []) × (r.0.spent ≡ false)) }
    ensures size { IfOk result (λ r. store_size r.0.store ≡ size) }
    ensures reader { IfOk result (λ r. r.1 ≡ record { store = r.0.store; known = []; refused = 0 }) }
{
    let (head, front) = open_list();
    let first = opening_of(alloc, size, &front)?;
    let second = opening_of(alloc, size, &front)?;
    let Ok(writer) = Writer::new(alloc, first, second, 1) else {
        return Err(Memory);
    };
    let (mut writer, shown) = show(rt, writer);
    let Ok(()) = shown else {
        drop(writer.take(rt));
        return Err(Memory);
    };
    let Ok(inner) = reader_of(&mut writer) else {
        drop(writer.take(rt));
        return Err(Memory);
    };
    let reader = Reader::over(inner, front.again(), size);
    let publisher = Publisher {
        writer: Some(writer),
        head,
        front,
        size,
        spent: false,
    };
    Ok((publisher, reader))
}

fn opening_of(alloc: Global, size: Size, front: &Front) -> Result<Shown, Memory>
    requires rows { size.rows ≤ 16000 }
    requires cols { size.cols ≤ 16000 }
    requires empty { front.now.list ≡ [] }
    ensures { IfOk result (λ s. (s.size ≡ size) × (s.front ≡ front.now) × (s.snap ≡ opening_snapshot size)) }
{
    Ok(Shown {
        size,
        snap: Snap::new(alloc, size)?,
        front: front.again(),
    })
}

/// A reader that knows what the writer knows.
fn reader_of(writer: &mut StoreWriter) -> Result<StoreReader, Memory>
    ensures view { IfOk result (λ r. view r.place ≡ view writer.old.desk.place) }
    ensures shown { writer.new.desk.shown ≡ writer.old.desk.shown }
    ensures log { (writer.new.log ≡ writer.old.log) × (writer.new.behind ≡ writer.old.behind) }
{
    let Ok(mut reader) = writer.factory().reader() else {
        return Err(Memory);
    };
    reader.learn::<HandsOn>(writer.tell::<HandsOn>());
    Ok(reader)
}

/// Puts the writer into its place, where there is none.
fn put_back<R: Wait>(rt: &R, place: &mut Option<StoreWriter>, writer: StoreWriter)
    ensures { place.new ≡ Some writer }
{
    if let Some(other) = mem::replace(place, Some(writer)) {
        drop(other.take(rt));
    }
}

/// Shows what is pending, which keeps the store and the replay.
fn show<R: Wait>(rt: &R, writer: StoreWriter) -> (StoreWriter, Result<(), Memory>)
    requires store { store_at (fold after_op writer.desk.shown.value (drop writer.behind writer.log.items)) ≡ store_at writer.desk.shown.value }
    requires replay { IsReplay writer.desk.shown.value → IsReplay (fold after_op writer.desk.shown.value (drop writer.behind writer.log.items)) }
    ensures ok { OnOk result.1 ((result.0.desk.shown.value ≡ fold after_op writer.desk.shown.value (drop writer.behind writer.log.items)) × (drop result.0.behind result.0.log.items ≡ [])) }
    ensures knows { OnOk result.1 (view result.0.desk.place ≡ Some (store_at writer.desk.shown.value)) }
    ensures err { OnErr result.1 (result.0.desk.shown.value ≡ writer.desk.shown.value) }
{
    let (writer, shown) = writer.publish_as::<Sees, R>(rt);
    match shown {
        Ok(()) => (writer, Ok(())),
        Err(_) => (writer, Err(Memory)),
    }
}

/// Shows a batch, and gives the list that ends in it.
///
/// That the list is as long as the publisher saw it is tested. No other publisher adds to it, so it
/// always is; what there is no proof of is answered as want of memory.
fn show_batch<R: Wait>(
    rt: &R,
    mut writer: StoreWriter,
    head: &Head,
    front: &Front,
    batch: &Batch,
) -> (StoreWriter, Result<Front, Memory>)
    requires head { head.now ≡ head_of front.now.book }
    requires follows { MayBePublished front.now.list (Full batch.now) }
    requires few { HasFewLines batch.now }
    requires shown { writer.desk.shown.value.front ≡ front.now }
    requires pending { drop writer.behind writer.log.items ≡ [] }
    ensures ok { IfOk result.1 (λ f. (f.book ≡ front.now.book) × (f.list ≡ front.now.list ++ Full batch.now ∷ []) × (result.0.desk.shown.value.front ≡ f) × (drop result.0.behind result.0.log.items ≡ [])) }
    ensures size { result.0.desk.shown.value.size ≡ writer.desk.shown.value.size }
    ensures err { OnErr result.1 (result.0.desk.shown.value ≡ writer.desk.shown.value) }
{
    if front.count() >= MOST {
        return (writer, Err(Memory));
    }
    let Some(next) = front.add::<Batch, Add>(head, batch, batch.upto) else {
        return (writer, Err(Memory));
    };
    let Ok(()) = append_batch(&mut writer, batch, next.again()) else {
        return (writer, Err(Memory));
    };
    let (writer, shown) = show(rt, writer);
    match shown {
        Ok(()) => (writer, Ok(next)),
        Err(refused) => (writer, Err(refused)),
    }
}

/// Shows the mark, and gives the list that ends in it. What it tests of the list is as in
/// `show_batch`.
fn show_mark<R: Wait>(
    rt: &R,
    mut writer: StoreWriter,
    head: &Head,
    front: &Front,
) -> (StoreWriter, Result<Front, Memory>)
    requires head { head.now ≡ head_of front.now.book }
    requires unclosed { is_ended front.now.list ≡ false }
    requires shown { writer.desk.shown.value.front ≡ front.now }
    requires pending { drop writer.behind writer.log.items ≡ [] }
    ensures ok { IfOk result.1 (λ f. (f.book ≡ front.now.book) × (f.list ≡ front.now.list ++ End ∷ []) × (result.0.desk.shown.value.front ≡ f) × (drop result.0.behind result.0.log.items ≡ [])) }
    ensures size { result.0.desk.shown.value.size ≡ writer.desk.shown.value.size }
    ensures err { OnErr result.1 (result.0.desk.shown.value ≡ writer.desk.shown.value) }
{
    if front.count() >= MOST {
        return (writer, Err(Memory));
    }
    let Some(next) = front.add::<(), Add>(head, &(), front.upto()) else {
        return (writer, Err(Memory));
    };
    let Ok(()) = writer.append(Op::Mark(next.again())) else {
        return (writer, Err(Memory));
    };
    let (writer, shown) = show(rt, writer);
    match shown {
        Ok(()) => (writer, Ok(next)),
        Err(refused) => (writer, Err(refused)),
    }
}

/// Makes the operations of a batch pending, where none are. Orders that are on show already are
/// shared and not copied.
fn append_batch(writer: &mut StoreWriter, batch: &Batch, front: Front) -> Result<(), Memory>
    requires pending { drop writer.old.behind writer.old.log.items ≡ [] }
    requires few { HasFewLines batch.now }
    ensures desk { writer.new.desk ≡ writer.old.desk }
    ensures ok { OnOk result (drop writer.new.behind writer.new.log.items ≡ ops_of batch.now front) }
{
    append_puts(writer, batch.changes.as_slice())?;
    let shown = &writer.published().snap;
    let rows = shown.rows().share_or_copy(batch.row_order.as_slice())?;
    let cols = shown.cols().share_or_copy(batch.col_order.as_slice())?;
    match writer.append(Op::Seal(batch.upto, rows, cols, front)) {
        Ok(()) => Ok(()),
        Err(_) => Err(Memory),
    }
}

/// Makes the changes of a batch pending, where nothing is.
fn append_puts(writer: &mut StoreWriter, changes: &[Change]) -> Result<(), Memory>
    requires pending { drop writer.old.behind writer.old.log.items ≡ [] }
    ensures desk { writer.new.desk ≡ writer.old.desk }
    ensures ok { OnOk result (drop writer.new.behind writer.new.log.items ≡ put_operations changes.now) }
{
    for change in changes {
        let change = Change {
            row: change.row,
            col: change.col,
            value: change.value.copy()?,
        };
        if writer.append(Op::Put(change)).is_err() {
            return Err(Memory);
        }
    }
    Ok(())
}
