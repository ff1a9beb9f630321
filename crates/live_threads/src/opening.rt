ghost use Rattle.std.specs.Prelude.{◌≡◌, ◌≢◌, ◌≤◌, ◌<◌, ◌+◌, ◌++◌, ◌∷◌, [], ℕ, List, Some, None, false, length, map, slice_get, vec_capacity, vec_len, IfOk, OnOk};
ghost use Rattle.std.specs.List.{range_with_len};
ghost use Rattle.turn_book.specs.Passes.{BookOf, new_pass};
ghost use Rattle.hub.specs.Hubs.{opening_of};
ghost use Rattle.live_script.specs.SoFar.{IsOpened};
ghost use Rattle.live_threads.specs.Threads.{hub_site_count};
ghost use Rattle.live_threads.specs.Threads.{IsOpening, IsFresh, IsNewPublisher, AreBegun};

use hub::Hub;
use live_script::LiveScript;
use live_session::Session;
use recalc_loop::end_all;
use ss_base::{Memory, Seq, Site, Size};
use std::alloc::Global;
use std::sync::Wait;
use turn_book::{Book, Pass};
use value_snap::{Publisher, store};

/// What is there before the first thread starts, all of it new. Its publishers can't be dropped.
pub struct Opening {
    /// The book of a hub that has no history yet.
    pub book: Book<Hub>,
    /// The pass of the recalculation.
    pub desk_pass: Pass<Hub>,
    /// One for each site, in the order in which they were declared.
    pub sessions: Seq<Session>,
    /// The pass that no site has, where none is declared, since the hub is for one site then.
    pub idle: Option<Pass<Hub>>,
    /// One for the store of each site that the hub is for.
    pub publishers: Seq<Publisher>,
}

/// What is there before the first thread of a run starts: a hub for the sites of the script, or for one
/// where none is declared, its book with the passes, and a session and a store for each site. `Memory`
/// is want of memory alone, and leaves nothing: the publishers that were made are ended. It takes time and
/// memory with the lines of the opening sheet, for the hub and for each site.
pub fn open<R: Wait>(rt: &R, alloc: Global, script: &LiveScript) -> Result<Opening, Memory>
    requires { IsOpened script.now }
    ensures { IfOk result (IsOpening script.now) }
{
    let count = (script.sites.len() as u8).max(1);
    let hub = Hub::new(alloc, script.size, count)?;
    let (book, passes) = Book::new(alloc, hub, count as u32 + 1)?;
    let mut passes = passes.into_vec();
    let desk_pass = passes.remove(0);
    let mut publishers = Vec::with_capacity(alloc, count as usize)?;
    match begin_sites(rt, alloc, script, passes, &mut publishers) {
        Ok((sessions, idle)) => Ok(Opening {
            book,
            desk_pass,
            sessions,
            idle,
            publishers: Seq::from_vec(publishers),
        }),
        Err(Memory) => {
            end_all(rt, Seq::from_vec(publishers));
            Err(Memory)
        }
    }
}

/// A session for each site, by the passes behind the first one, and a store for each site that the hub is
/// for.
fn begin_sites<R: Wait>(
    rt: &R,
    alloc: Global,
    script: &LiveScript,
    mut passes: Vec<Pass<Hub>>,
    publishers: &mut Vec<Publisher>,
) -> Result<(Seq<Session>, Option<Pass<Hub>>), Memory>
    requires script { IsOpened script.now }
    requires room { (publishers.old.items ≡ []) × (hub_site_count script.now ≤ vec_capacity publishers.old) }
    requires passes { (book : BookOf) × (book.opening ≡ opening_of script.now.size (hub_site_count script.now)) × (passes.items ≡ map (new_pass book) (range_with_len 1 (hub_site_count script.now))) }
    ensures { (book : BookOf) → book.opening ≡ opening_of script.now.size (hub_site_count script.now) → passes.items ≡ map (new_pass book) (range_with_len 1 (hub_site_count script.now)) →
        IfOk result (λ r. AreBegun script.now book r.0 r.1 publishers.new.items) }
{
    if script.sites.is_empty() {
        let (publisher, _reader) = store(rt, alloc, script.size)?;
        publishers.push_reserved(publisher);
        return Ok((Seq::new(alloc), passes.pop()));
    }
    let mut sessions = Vec::new(alloc);
    for pass in passes {
        let site = Site(sessions.len() as u8 + 1);
        sessions.push(begin_site(rt, alloc, site, script.size, pass, publishers)?)?;
    }
    Ok((Seq::from_vec(sessions), None))
}

/// A store, and a session over its reader. The publisher is there also where the session is refused.
fn begin_site<R: Wait>(
    rt: &R,
    alloc: Global,
    site: Site,
    size: Size,
    pass: Pass<Hub>,
    publishers: &mut Vec<Publisher>,
) -> Result<Session, Memory>
    requires rows { size.rows ≤ 1000 }
    requires cols { size.cols ≤ 64 }
    requires from { 0 < site.0 }
    requires room { vec_len publishers.old < vec_capacity publishers.old }
    requires pass { (book : BookOf) × (sites : ℕ) × (pass ≡ new_pass book site.0) × (book.opening ≡ opening_of size sites) × (site.0 ≤ sites) }
    ensures capacity { vec_capacity publishers.new ≡ vec_capacity publishers.old }
    ensures begun { (book : BookOf) → pass ≡ new_pass book site.0 → IfOk result (λ s. (q : _) × (publishers.new.items ≡ publishers.old.items ++ q ∷ []) × IsNewPublisher size q × IsFresh size book site.0 q.store s) }
{
    let (publisher, reader) = store(rt, alloc, size)?;
    publishers.push_reserved(publisher);
    Session::new(alloc, site, size, pass, reader)
}
