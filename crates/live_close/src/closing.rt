ghost use Rattle.std.specs.Prelude.{◌≡◌, ◌<◌, ◌+◌, ◌++◌, ℕ, List, true, false, All, length, map, option_to_list, IfOk, OnOk};
ghost use Rattle.sheet_ops.specs.declared.operation.Entry.{Entry};
ghost use Rattle.sheet_ops.specs.Represents.{ClientRepresents};
ghost use Rattle.jup_client.specs.declared.client.TakeErr.TheVariants as fault;
ghost use Rattle.turn_book.specs.Passes.{PassOf, AreOf, AreAll};
ghost use Rattle.value_snap.specs.declared.rule.Store.{Store};
ghost use Rattle.value_snap.specs.Lists.{is_ended};
ghost use Rattle.live_session.specs.Pulling.{AreNextMessages, HasTakenMore};
ghost use Rattle.live_script.specs.SoFar.{IsOpened};
ghost use Rattle.live_site.specs.declared.run.SiteEnd.{SiteEnd};
ghost use Rattle.live_record.specs.Records.{live_text as text_of};
ghost use Rattle.live_close.specs.Recorded.{IsRecordOf};
ghost use Rattle.live_threads.specs.Threads.{IsRan};
ghost use Rattle.live_close.specs.Parts.{with_mark, parts_of as made_of, AllOver, AllKnow, AreDone};
ghost use Rattle.live_close.specs.Closing.{MayAllTakeRest, HaveTakenRest, IsClosedBy};

use crate::agreeing::{Parts, close_all, parts_of};
use crate::record::LiveRecord;
use hub::Hub;
use jup_client::{Client, Down, TakeErr};
use live_record::live_text;
use live_script::LiveScript;
use live_site::SiteEnd;
use live_threads::Ran;
use recalc_loop::{Finished, end_all};
use ss_base::{Memory, Seq, Site, Txt};
use std::alloc::Global;
use std::sync::Wait;
use turn_book::{Book, Closed, Pass};
use value_snap::Publisher;

/// A client refuses the next message of a history for want of memory alone.
fn untaken(err: TakeErr) -> Memory
    requires { err ≡ fault.Memory }
{
    match err {
        TakeErr::Memory => Memory,
        _ => unreachable!(),
    }
}

/// Takes messages one after another.
fn take_all(client: &mut Client, downs: &[Down]) -> Result<(), Memory>
    requires { (H : List Entry) × (G : List Entry) × AreNextMessages client.old H G downs.now }
    ensures took { OnOk result (HasTakenMore (length downs.now) client.old client.new) }
    ensures represents { (H G : List Entry) → AreNextMessages client.old H G downs.now → ClientRepresents client.new H G }
{
    for down in downs {
        match client.take(down) {
            Ok(()) => {}
            Err(err) => return Err(untaken(err)),
        }
    }
    Ok(())
}

/// The number of the site that was declared at this place, counted from 0.
fn site_at(place: usize) -> Site
    requires { place < 8 }
    ensures { result.0 ≡ place + 1 }
{
    Site(place as u8 + 1)
}

/// Each client takes what it lacks of the history.
fn take_rest(alloc: Global, hub: &Hub, clients: Seq<Client>) -> Result<Seq<Client>, Memory>
    requires { MayAllTakeRest hub.now clients }
    ensures { IfOk result (HaveTakenRest hub.now clients) }
{
    let mut done = Vec::new(alloc);
    for client in clients.into_vec() {
        let site = site_at(done.len());
        let mut client = client;
        let downs = hub.fetch(site, client.taken(), u32::MAX)?;
        take_all(&mut client, downs.as_slice())?;
        done.push(client)?;
    }
    Ok(Seq::from_vec(done))
}

/// Ends the book, all of whose passes are there.
fn close_book(book: Book<Hub>, passes: Seq<Pass<Hub>>) -> Closed<Hub>
    requires of { AreOf book passes }
    requires all { AreAll book passes }
    ensures { IsClosedBy book passes result }
{
    match book.close(passes) {
        Ok(hub) => hub,
        Err(_) => unreachable!(),
    }
}

/// The passes with the one that no site had, if there is one.
fn with_idle(passes: Seq<Pass<Hub>>, idle: Option<Pass<Hub>>) -> Result<Seq<Pass<Hub>>, Memory>
    ensures { IfOk result (λ all. all ≡ passes ++ option_to_list idle) }
{
    let mut passes = passes;
    if let Some(pass) = idle {
        passes.push(pass)?;
    }
    Ok(passes)
}

/// The record and its text, by what the sites left.
fn record_of(
    alloc: Global,
    script: &LiveScript,
    book: Book<Hub>,
    parts: Parts,
    idle: Option<Pass<Hub>>,
) -> Result<(LiveRecord, Txt), Memory>
    requires script { IsOpened script.now }
    requires done { (desk : PassOf Entry) × (ends : List SiteEnd) × (parts ≡ made_of desk ends) × AreDone script.now book desk ends idle }
    ensures notes { IfOk result (λ r. r.0.notes ≡ parts.notes) }
    ensures valid { IfOk result (λ r. (logs : List (List ℕ)) × IsRecordOf script.now r.0 logs × (r.1 ≡ text_of script.now r.0.hub.state.entries logs)) }
{
    let Parts {
        passes,
        clients,
        notes,
        logs,
    } = parts;
    let passes = with_idle(passes, idle)?;
    let hub = close_book(book, passes);
    let state = hub.state();
    let history = state.history();
    let clients = take_rest(alloc, state, clients)?;
    let text = live_text(
        alloc,
        script,
        logs.as_slice(),
        clients.as_slice(),
        state.server(),
        history.as_slice(),
    )?;
    let noted = LiveRecord {
        hub,
        clients,
        notes,
    };
    Ok((noted, text))
}

/// Closes the stores, where none of their publishers is spent, and takes apart what the sites left.
fn settle<R: Wait>(
    rt: &R,
    alloc: Global,
    pass: Pass<Hub>,
    ends: Seq<SiteEnd>,
    spent: bool,
    publishers: &mut [Publisher],
) -> Result<Parts, Memory>
    requires unspent { spent ≡ false → All (λ q. q.spent ≡ false) publishers.old }
    requires unclosed { All (λ q. is_ended q.list ≡ false) publishers.old }
    requires stores { AllOver ends publishers.old }
    ensures unspent { OnOk result (spent ≡ false) }
    ensures done { OnOk result (All (λ e. e.done ≡ true) ends) }
    ensures parts { IfOk result (λ p. p ≡ made_of pass ends) }
    ensures known { OnOk result (AllKnow ends (map with_mark publishers.old)) }
{
    if spent {
        return Err(Memory);
    }
    close_all(rt, publishers)?;
    parts_of(rt, alloc, pass, ends, publishers)
}

/// Ends a run: each store is closed, and its reader learns of it and agrees; the book is closed with all
/// its passes; each client takes what it lacks; and the text is made. The publishers are ended whatever
/// comes, which waits until no reader is in their stores. It takes the time of what the clients take, and
/// that of the text with its full evaluation. `Memory` comes also where a thread was refused memory.
pub fn close<R: Wait>(
    rt: &R,
    alloc: Global,
    script: &LiveScript,
    ran: Ran,
) -> Result<(LiveRecord, Txt), Memory>
    requires script { IsOpened script.now }
    requires ran { (stores : ℕ → Store) × IsRan script.now stores ran }
    ensures unspent { OnOk result (ran.desk.spent ≡ false) }
    ensures done { OnOk result (All (λ e. e.done ≡ true) ran.ends) }
    ensures notes { IfOk result (λ r. r.0.notes ≡ map (λ e. e.notes) ran.ends) }
    ensures valid { IfOk result (λ r. (logs : List (List ℕ)) × IsRecordOf script.now r.0 logs × (r.1 ≡ text_of script.now r.0.hub.state.entries logs)) }
{
    let Ran {
        book,
        ends,
        idle,
        desk,
    } = ran;
    let Finished {
        pass,
        publishers,
        spent,
    } = desk;
    let mut publishers = publishers.into_vec();
    let parts = settle(rt, alloc, pass, ends, spent, publishers.as_mut_slice());
    end_all(rt, Seq::from_vec(publishers));
    let parts = parts?;
    record_of(alloc, script, book, parts, idle)
}
