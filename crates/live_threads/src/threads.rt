ghost use Rattle.std.specs.Prelude.{◌≡◌, ◌≤◌, [], All, length, vec_capacity, vec_len, IfOk};
ghost use Rattle.turn_book.specs.Passes.{BookOf};
ghost use Rattle.live_script.specs.SoFar.{IsOpened};
ghost use Rattle.live_threads.specs.Threads.{hub_site_count};
ghost use Rattle.live_threads.specs.Threads.{IsOpening, IsRan, LeftBy, stores_of};
ghost use Rattle.live_threads.specs.Begun.{Keeps, IsAtWork, MayAllBegin, MayBeginOne, AreAtWork, AreEnds, AllLeft};

use crate::opening::Opening;
use hub::Hub;
use live_script::{LiveScript, SiteScript};
use live_session::Session;
use live_site::{SiteEnd, run_site};
use recalc_loop::{Desk, DeskState, Finished, Gate, Nap, Workplace, end_all};
use ss_base::{Memory, Seq, Site};
use std::alloc::Global;
use std::snapshot::Snapshot;
use std::sync::Wait;
use std::thread;
use std::thread::{Promise, PromisedHandle, Scope, Threads};
use turn_book::{Book, Pass};

/// How many threads evaluate beside one another.
const WORKERS: u32 = 1;

/// What the threads leave, when all have ended. Its publishers can't be dropped.
pub struct Ran {
    /// The book that was opened. With the passes of the sites and of the desk, and the idle one, all its
    /// passes are there.
    pub book: Book<Hub>,
    /// What each site's thread left, in the order in which the sites were declared.
    pub ends: Seq<SiteEnd>,
    /// The pass that no site has, where none is declared.
    pub idle: Option<Pass<Hub>>,
    /// What is left of the desk: its pass, the stores' publishers, and whether a turn was refused.
    pub desk: Finished,
}

/// What a site's thread is given.
#[derive(Drop)]
pub struct SiteWork {
    pub session: Snapshot<Session>,
    pub script: Snapshot<SiteScript>,
    pub site: Site,
}

impl Promise<SiteEnd> for SiteWork {
    ghost use Rattle.live_threads.specs.Threads.{LeftBy};

    ghost kept_by = { λ p end. LeftBy p.session.value p.site.0 p.script.value end };
}

/// A thread that was started, or what its work left where it couldn't be.
#[derive(Drop)]
pub enum Running {
    There(PromisedHandle<SiteEnd, SiteWork>),
    Here(SiteEnd),
}

/// A site at work: what its thread was given, and the thread.
#[derive(Drop)]
pub struct Begun {
    pub work: SiteWork,
    pub running: Running,
}

/// Runs each site as a thread, and the recalculation as one beside them, and waits for all. A run without
/// sites starts none. The caller runs a site itself that can't be started as a thread; where the
/// recalculation can't be started it is left out, since each `sync` makes the turns that it needs.
///
/// `Memory` comes before the first thread starts, where there is none for the desk or for the list of
/// threads; nothing is run then, and the publishers are ended. Want of memory in a thread is no refusal of
/// this call: a site's end says whether all its lines were done, and what is left of the desk whether a
/// turn was refused.
pub fn run_threads<J: Workplace + Send, R: Threads + Wait + Sync, G: Gate + Sync>(
    rt: &R,
    alloc: Global,
    script: &LiveScript,
    opening: Opening,
    gate: &G,
) -> Result<Ran, Memory>
    requires script { IsOpened script.now }
    requires opening { IsOpening script.now opening }
    requires room { (J.book ≡ opening.book.id) × (J.size ≡ script.now.size) × (J.sites ≡ hub_site_count script.now) × (J.stores ≡ stores_of opening.publishers) }
    ensures ran { IfOk result (IsRan script.now J.stores) }
    ensures book { IfOk result (λ r. r.book ≡ opening.book) }
{
    let Opening {
        book,
        desk_pass,
        sessions,
        idle,
        publishers,
    } = opening;
    // There is room for each thread, and for what it leaves, before the first one starts, so that none is
    // lost for want of memory.
    let count = sessions.len();
    let (Ok(begun), Ok(left)) = (
        Vec::with_capacity(alloc, count),
        Vec::with_capacity(alloc, count),
    ) else {
        end_all(rt, publishers);
        return Err(Memory);
    };
    let state = DeskState::<J>::new(rt, alloc, script.size, desk_pass, publishers, WORKERS)?;
    let (desk, nap) = Desk::new(rt, alloc, state)?;
    let ends = run_beside(
        rt, alloc, script, sessions, &book, &desk, nap, gate, begun, left,
    );
    Ok(Ran {
        book,
        ends,
        idle,
        desk: desk.finish(),
    })
}

/// Runs the sites and the desk, each in a thread, and gives what each site's left. Where there is no site
/// no thread is started.
fn run_beside<J: Workplace + Send, R: Threads + Wait + Sync, G: Gate + Sync>(
    rt: &R,
    alloc: Global,
    script: &LiveScript,
    sessions: Seq<Session>,
    book: &Book<Hub>,
    desk: &Desk<J>,
    nap: Nap,
    gate: &G,
    begun: Vec<Begun>,
    left: Vec<SiteEnd>,
) -> Seq<SiteEnd>
    requires may { MayAllBegin J.book J.size J.stores J.sites script.now book.now sessions }
    requires begun { (begun.items ≡ []) × (length sessions ≤ vec_capacity begun) }
    requires left { (left.items ≡ []) × (length sessions ≤ vec_capacity left) }
    ensures { AllLeft script.now sessions result }
{
    if sessions.is_empty() {
        return Seq::from_vec(left);
    }
    thread::scope(
        thread::scope_env(),
        rt,
        |scope| -> Seq<SiteEnd>
            requires { MayAllBegin J.book J.size J.stores J.sites script.now book.now sessions × (begun.items ≡ []) × (left.items ≡ []) × (length sessions ≤ vec_capacity begun) × (length sessions ≤ vec_capacity left) }
            ensures { AllLeft script.entry.now sessions result }
        {
            begin_run(rt, scope, desk, nap, book, gate);
            let begun = begin_all(rt, alloc, scope, script, sessions, book, desk, gate, begun);
            end_each(rt, begun, left)
        },
    )
}

/// Starts the recalculation in a thread of the scope. Where it can't be started it is left out.
fn begin_run<'s, E, J: Workplace + Send, R: Threads + Wait + Sync, G: Gate + Sync>(
    rt: &'s R,
    scope: &Scope<'s, E>,
    desk: &'s Desk<J>,
    nap: Nap,
    book: &'s Book<Hub>,
    gate: &'s G,
)
    requires { book.now.id ≡ J.book }
{
    let _ = scope.spawn(move || desk.run(rt, nap, book, gate));
}

/// Starts each site in a thread of the scope.
fn begin_all<'s, E, J: Workplace + Send, R: Threads + Wait + Sync, G: Gate + Sync>(
    rt: &'s R,
    alloc: Global,
    scope: &Scope<'s, E>,
    script: &'s LiveScript,
    sessions: Seq<Session>,
    book: &'s Book<Hub>,
    desk: &'s Desk<J>,
    gate: &'s G,
    mut begun: Vec<Begun>,
) -> Vec<Begun>
    requires may { MayAllBegin J.book J.size J.stores J.sites script.now book.now sessions }
    requires room { length sessions ≤ vec_capacity begun }
    requires empty { begun.items ≡ [] }
    ensures { AreAtWork script.now.sites sessions result.items }
{
    for session in sessions.into_vec() {
        let place = begun.len();
        let site = Site(place as u8 + 1);
        let lines = &script.sites.as_slice()[place];
        begun.push_reserved(begin(rt, alloc, scope, session, site, lines, book, desk, gate));
    }
    begun
}

/// Starts a site in a thread of the scope, or runs it here where its start is handed back.
fn begin<'s, E, J: Workplace + Send, R: Threads + Wait + Sync, G: Gate + Sync>(
    rt: &'s R,
    alloc: Global,
    scope: &Scope<'s, E>,
    session: Session,
    site: Site,
    script: &'s SiteScript,
    book: &'s Book<Hub>,
    desk: &'s Desk<J>,
    gate: &'s G,
) -> Begun
    requires { MayBeginOne J.book J.size J.stores J.sites book.now site.0 script.now session }
    ensures { IsAtWork site.0 session script.now result }
{
    let work = SiteWork {
        session: Snapshot::of(&session),
        script: Snapshot::of(script),
        site,
    };
    let promise = SiteWork {
        session: Snapshot::of(&session),
        script: Snapshot::of(script),
        site,
    };
    let run = move || -> SiteEnd
        requires { MayBeginOne J.book J.size J.stores J.sites book.now site.0 script.now session }
        ensures { LeftBy session site.0 script.entry.now result }
    { run_site(rt, alloc, session, site, script, book, desk, gate) };
    let running = match scope.spawn_with(promise, run) {
        Ok(handle) => Running::There(handle),
        Err(refused) => Running::Here((refused.value)()),
    };
    Begun { work, running }
}

/// Waits for each thread, and gives what it left.
fn end_each<R: Threads>(rt: &R, begun: Vec<Begun>, mut ends: Vec<SiteEnd>) -> Seq<SiteEnd>
    requires room { vec_len begun ≤ vec_capacity ends }
    requires empty { ends.items ≡ [] }
    requires keep { All (λ b. Keeps b.work b.running) begun.items }
    ensures { AreEnds begun.items result }
{
    for site in begun {
        ends.push_reserved(ended(rt, site));
    }
    Seq::from_vec(ends)
}

/// What the site's thread left.
fn ended<R: Threads>(rt: &R, begun: Begun) -> SiteEnd
    requires { Keeps begun.work begun.running }
    ensures { LeftBy begun.work.session.value begun.work.site.0 begun.work.script.value result }
{
    let Begun { work: _, running } = begun;
    match running {
        Running::There(handle) => handle.join(rt),
        Running::Here(end) => end,
    }
}
