ghost use Rattle.std.specs.Prelude.{◌≡◌};
ghost use Rattle.recalc_loop.specs.Desks.{IsDesk};

use crate::gate::Gate;
use crate::publishing::end_all;
use crate::state::{DeskState, Finished};
use crate::workplace::Workplace;
use crossbeam_utils::sync::{EventCount, Parker, Unparker};
use hub::Hub;
use ss_base::{Memory, Site};
use std::alloc::Global;
use std::sync::{Mutex, MutexGuard, Wait};
use std::thread::Threads;
use turn_book::Book;
use value_snap::{Teller, Told};

/// Where the one thread that runs a desk parks between its turns.
pub type Nap = Parker;

/// The desk, which threads share: its state under a lock, and what wakes those who wait for more of
/// the history. It can't be dropped: `finish` takes it apart.
pub struct Desk<J: Workplace> {
    state: Mutex<DeskState<J>>,
    /// Wakes the thread that runs the desk.
    unparker: Unparker,
    /// Where those sleep who ask for a longer history than there is.
    askers: EventCount,
}

impl<J: Workplace> Desk<J> {
    /// Puts a state behind a lock. Where it is refused, its publishers are ended.
    pub fn new<R: Wait>(
        rt: &R,
        alloc: Global,
        state: DeskState<J>,
    ) -> Result<(Desk<J>, Nap), Memory> {
        let Ok((nap, unparker)) = parking(alloc) else {
            let Finished {
                pass: _pass,
                publishers,
                spent: _,
            } = state.finish();
            end_all(rt, publishers);
            return Err(Memory);
        };
        let desk = Desk {
            state: Mutex::new(state),
            unparker,
            askers: EventCount::new(),
        };
        Ok((desk, nap))
    }

    /// Makes a turn under the lock. `Memory` is that of the state's turn.
    pub fn turn<R: Wait, G: Gate>(&self, rt: &R, book: &Book<Hub>, gate: &G) -> Result<(), Memory>
        requires { book.now.id ≡ J.book }
    {
        let mut state = self.state.lock(rt);
        let turned = state.turn(rt, book, gate);
        // The state can't be dropped, so that its guard is let go by hand.
        MutexGuard::unlock(state);
        turned?;
        Ok(())
    }

    /// Makes turns until each site has ended, and parks between them until the desk is woken. After
    /// `Memory` what the turns published stays.
    pub fn run<R: Wait, G: Gate>(
        &self,
        rt: &R,
        nap: Nap,
        book: &Book<Hub>,
        gate: &G,
    ) -> Result<(), Memory>
        requires { book.now.id ≡ J.book }
    {
        for _ in rt.forever() {
            let mut state = self.state.lock(rt);
            let turned = state.turn(rt, book, gate);
            let is_over = state.all_ended();
            MutexGuard::unlock(state);
            turned?;
            if is_over {
                return Ok(());
            }
            nap.park(rt);
        }
        unreachable!()
    }

    /// Lets a parked `run` go on, and those who wait in `tell` look again. Whoever put something into
    /// the history, or ended a site, calls it afterwards. It doesn't wait, and takes no memory.
    pub fn wake(&self) {
        self.unparker.unpark();
        self.askers.notify_all();
    }

    /// What tells each site how far its store goes. It takes no memory.
    pub fn post<'a, G: Gate>(&'a self, book: &'a Book<Hub>, gate: &'a G) -> Post<'a, J, G>
        requires { book.now.id ≡ J.book }
    {
        Post {
            desk: self,
            book,
            gate,
        }
    }

    /// Gives back the desk's pass and its publishers. It takes no memory.
    pub fn finish(self) -> Finished
        ensures { IsDesk J.book J.size J.sites J.stores result.pass result.publishers result.spent }
    {
        let Desk {
            state,
            unparker: _unparker,
            askers: _askers,
        } = self;
        state.into_inner().finish()
    }
}

/// Where a thread parks, and what wakes it.
fn parking(alloc: Global) -> Result<(Nap, Unparker), Memory> {
    let nap = Parker::new(alloc)?;
    let unparker = nap.unparker().clone()?;
    Ok((nap, unparker))
}

/// A desk, as a session sees it. Its `tell` makes a turn itself. Where the history is shorter than was
/// asked for, it sleeps until the desk is woken, and makes another. After `Memory` what the turns
/// published stays.
#[derive(Drop)]
pub struct Post<'a, J: Workplace, G: Gate> {
    desk: &'a Desk<J>,
    book: &'a Book<Hub>,
    gate: &'a G,
    ghost book_is: { book.now.id ≡ J.book },
}

impl<'a, J: Workplace, G: Gate> Teller for Post<'a, J, G> {
    ghost use Rattle.std.specs.Prelude.{◌≤◌, ◌<◌};

    ghost stores = { λ p n. J.stores n };

    ghost has = { λ p n. (0 < n) × (n ≤ J.sites) };

    // A turn, and what it left, are asked for under one lock: later nothing is known of it.
    //
    // Where the history is too short, the wait is announced before the turn looks at it, so that no
    // `wake` behind that look is missed.
    fn tell<R: Threads + Wait + Sync>(
        &self,
        rt: &R,
        site: Site,
        at_least: u32,
    ) -> Result<Told, Memory> {
        for _ in rt.forever() {
            let woken = self.desk.askers.prepare_wait();
            let mut state = self.desk.state.lock(rt);
            let turned = state.turn(rt, self.book, self.gate);
            let told = state.tell(site);
            MutexGuard::unlock(state);
            turned?;
            if at_least <= told.length() {
                return Ok(told);
            }
            woken.wait(rt);
        }
        unreachable!()
    }
}
