ghost use Rattle.std.specs.Prelude.{◌≡◌, true, false, All, map, IfOk, OnOk};
ghost use Rattle.ss_base.specs.Lists.{IsPrefixOf};
ghost use Rattle.value_snap.specs.Lists.{is_ended};
ghost use Rattle.live_close.specs.Parts.{with_mark, parts_of, part_more, AllOver, AllKnow};

use hub::Hub;
use jup_client::Client;
use live_record::Note;
use live_session::Ended;
use live_site::SiteEnd;
use ss_base::{Memory, Seq, Txt};
use std::alloc::Global;
use std::sync::Wait;
use turn_book::Pass;
use value_snap::{NoEntry, Publisher, Reader, Told};

/// The reader learns what was told, the whole of a closed list, and agrees. With it goes that each list
/// that it had read or learnt is a beginning of that one.
fn agree<R: Wait>(rt: &R, reader: Reader, told: Told)
    requires store { told.store ≡ reader.store }
    requires closed { is_ended told.list ≡ true }
    ensures { IsPrefixOf reader.known told.list }
{
    let mut reader = reader;
    reader.learn(told);
    for _ in rt.forever() {
        match reader.agree() {
            Ok(()) => return,
            Err(NoEntry) => {}
        }
    }
    unreachable!()
}

/// What is left of the sites, by kinds. The passes begin with that of the recalculation.
#[derive(Drop)]
pub struct Parts {
    pub passes: Seq<Pass<Hub>>,
    pub clients: Seq<Client>,
    pub notes: Seq<Seq<Note>>,
    pub logs: Seq<Txt>,
}

impl Parts {
    /// Takes apart what a site left, once its reader agrees with its store.
    fn add<R: Wait>(&mut self, rt: &R, publisher: &Publisher, end: SiteEnd) -> Result<(), Memory>
        requires store { end.ended.reader.store ≡ publisher.now.store }
        requires closed { is_ended publisher.now.list ≡ true }
        ensures parts { OnOk result (self.new ≡ part_more self.old end) }
        ensures done { OnOk result (end.done ≡ true) }
        ensures known { OnOk result (IsPrefixOf end.ended.reader.known publisher.now.list) }
    {
        let SiteEnd {
            ended,
            notes,
            log,
            done,
        } = end;
        if !done {
            return Err(Memory);
        }
        let Ended {
            client,
            pass,
            reader,
        } = ended;
        agree(rt, reader, publisher.tell());
        self.passes.push(pass)?;
        self.clients.push(client)?;
        self.notes.push(notes)?;
        self.logs.push(log)
    }
}

/// Puts the mark behind all batches of each store. At the first refusal it stops.
pub fn close_all<R: Wait>(rt: &R, publishers: &mut [Publisher]) -> Result<(), Memory>
    requires unspent { All (λ q. q.spent ≡ false) publishers.old }
    requires unclosed { All (λ q. is_ended q.list ≡ false) publishers.old }
    ensures { OnOk result (publishers.new ≡ map with_mark publishers.old) }
{
    for i in 0..publishers.len() {
        let _told = publishers[i].close(rt)?;
    }
    Ok(())
}

/// What the sites left, by kinds, where each of them was done. Each reader agrees with its store.
pub fn parts_of<R: Wait>(
    rt: &R,
    alloc: Global,
    pass: Pass<Hub>,
    ends: Seq<SiteEnd>,
    publishers: &[Publisher],
) -> Result<Parts, Memory>
    requires stores { AllOver ends publishers.now }
    requires closed { All (λ q. is_ended q.list ≡ true) publishers.now }
    ensures parts { IfOk result (λ p. p ≡ parts_of pass ends) }
    ensures done { OnOk result (All (λ e. e.done ≡ true) ends) }
    ensures known { OnOk result (AllKnow ends publishers.now) }
{
    let mut parts = Parts {
        passes: Seq::new(alloc),
        clients: Seq::new(alloc),
        notes: Seq::new(alloc),
        logs: Seq::new(alloc),
    };
    parts.passes.push(pass)?;
    for end in ends.into_vec() {
        let place = parts.logs.len();
        parts.add(rt, &publishers[place], end)?;
    }
    Ok(parts)
}
