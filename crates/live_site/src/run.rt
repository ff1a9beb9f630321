ghost use Rattle.std.specs.Prelude.{◌≡◌, ◌≤◌, ◌<◌, ◌++◌, ◌&&◌, true, [], is_ok, OnOk};
ghost use Rattle.turn_book.specs.Passes.{IsSamePass, made_in};
ghost use Rattle.ss_base.specs.Lists.{IsPrefixOf};
ghost use Rattle.value_snap.specs.Views.{store_size};
ghost use Rattle.live_session.specs.Sessions.{ReplicaStands};
ghost use Rattle.live_script.specs.SoFar.{LinesWithin};
ghost use Rattle.live_site.specs.Lines.{SessionGoesOn, DidAll, IsNewSession};
ghost use Rattle.live_site.specs.SiteRuns.{IsSiteRun};

use crate::work::Work;
use hub::Hub;
use live_record::Note;
use live_script::{SiteLine, SiteScript};
use live_session::{Ended, Session};
use recalc_loop::{Desk, Gate, Point, Workplace};
use ss_base::{Memory, Seq, Site, Txt};
use std::alloc::Global;
use std::sync::Wait;
use std::thread::Threads;
use turn_book::Book;

/// What a site's thread gives back.
#[derive(Drop)]
pub struct SiteEnd {
    /// What is left of the session, so that the book can be closed.
    pub ended: Ended,
    /// One note for each line but the edits, in their order.
    pub notes: Seq<Note>,
    /// The texts of the reads and of the refused edits, in the order of their lines.
    pub log: Txt,
    /// Whether all lines were done, and all that was left was pushed. Memory was refused where not.
    pub done: bool,
}

/// Runs the lines of a site in their order over its fresh session. It meets the gate before each line,
/// and wakes the desk behind each. Then it pushes what is left and announces the site's end, after want
/// of memory too, so that the desk's run doesn't wait for this site. It waits for the hub, and for the
/// desk.
///
/// The session's reader is that of the site's store, which has the session's size.
pub fn run_site<J: Workplace, R: Threads + Wait + Sync, G: Gate>(
    rt: &R,
    alloc: Global,
    session: Session,
    site: Site,
    script: &SiteScript,
    book: &Book<Hub>,
    desk: &Desk<J>,
    gate: &G,
) -> SiteEnd
    requires room { book.now.id ≡ J.book }
    requires book { session.pass.book ≡ book.now.id }
    requires fresh { IsNewSession session }
    requires number { session.client.site ≡ site.0 }
    requires from { 0 < site.0 }
    requires to { site.0 ≤ J.sites }
    requires store { session.reader.store ≡ J.stores site.0 }
    requires size { store_size session.reader.store ≡ session.client.size }
    requires within { LinesWithin script.now.lines }
    ensures run { result.done ≡ true → IsSiteRun session.client.size site.0 script.now result }
    ensures pass { IsSamePass session.pass result.ended.pass }
    ensures reader { result.ended.reader.store ≡ session.reader.store }
    ensures known { IsPrefixOf session.reader.known result.ended.reader.known }
{
    let mut work = Work {
        session,
        notes: Seq::new(alloc),
        log: Vec::new(alloc),
    };
    let all = script.lines.as_slice();
    let lines = do_lines(rt, &mut work, site, &script.name, all, book, desk, gate);
    let Work {
        mut session,
        notes,
        log,
    } = work;
    let left = leave(rt, &mut session, book);
    desk.wake();
    SiteEnd {
        ended: session.finish(),
        notes,
        log: Txt::from_vec(log),
        done: both_done(&lines, &left),
    }
}

fn both_done(lines: &Result<(), Memory>, left: &Result<u32, Memory>) -> bool
    ensures { result ≡ (is_ok lines.now && is_ok left.now) }
{
    lines.is_ok() && left.is_ok()
}

/// Does the lines in their order, up to want of memory.
fn do_lines<J: Workplace, R: Threads + Wait + Sync, G: Gate>(
    rt: &R,
    work: &mut Work,
    site: Site,
    name: &Txt,
    lines: &[SiteLine],
    book: &Book<Hub>,
    desk: &Desk<J>,
    gate: &G,
) -> Result<(), Memory>
    requires room { book.now.id ≡ J.book }
    requires book { work.old.session.pass.book ≡ book.now.id }
    requires fresh { IsNewSession work.old.session }
    requires new { (work.old.notes ≡ []) × (work.old.log.items ≡ []) }
    requires number { work.old.session.client.site ≡ site.0 }
    requires from { 0 < site.0 }
    requires to { site.0 ≤ J.sites }
    requires store { work.old.session.reader.store ≡ J.stores site.0 }
    requires size { store_size work.old.session.reader.store ≡ work.old.session.client.size }
    requires within { LinesWithin lines.now }
    ensures goes_on { SessionGoesOn work.old.session work.new.session }
    ensures did { OnOk result (DidAll name.now lines.now work.new) }
{
    let post = desk.post(book, gate);
    for line in lines {
        gate.at(
            rt,
            Point::Line {
                site,
                line: line.number,
            },
        );
        work.do_line(rt, name, line, book, &post)?;
        desk.wake();
    }
    Ok(())
}

/// Pushes what is left, and announces the site's end in any case. It answers how many entries were
/// left.
fn leave<R: Wait>(rt: &R, session: &mut Session, book: &Book<Hub>) -> Result<u32, Memory>
    requires { session.old.pass.book ≡ book.now.id }
    ensures goes_on { SessionGoesOn session.old session.new }
    ensures same { session.new ≡ record session.old { pass = session.new.pass; unpushed = session.new.unpushed } }
    ensures holds { session.old.pass.holds ≤ session.new.pass.holds }
    ensures own { made_in session.new.pass ++ session.new.unpushed ≡ made_in session.old.pass ++ session.old.unpushed }
    ensures all { OnOk result (session.new.unpushed ≡ []) }
{
    let _taken = session.taken();
    let pushed = session.push(rt, book, u32::MAX);
    session.announce_end(rt, book);
    pushed
}
