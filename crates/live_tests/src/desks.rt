ghost use Rattle.std.specs.Prelude.{◌≡◌, ◌∷◌, [], false};
ghost use Rattle.turn_book.specs.Passes.{new_pass};
ghost use Rattle.value_snap.specs.Views.{store_size};

use crate::passes_made::{CELL, two_passes};
use hub::Hub;
use recalc_loop::{Desk, DeskState, Finished, Nap, NoGate, Workplace, end_all};
use ss_base::{Memory, Seq, Site};
use std::alloc::Global;
use std::marker::Brand;
use std::sync::Wait;
use std::test::Fail;
use std::thread::Threads;
use turn_book::{Book, Pass};
use value_snap::{Publisher, Teller, store};

// The site ends.
fn end<R: Wait>(rt: &R, book: &Book<Hub>, pass: Pass<Hub>)
    requires book { pass.book ≡ book.now.id }
    requires opening { pass.opening ≡ 1 ∷ 1 ∷ 1 ∷ [] }
{
    let mut held = book.enter(rt, pass);
    held.state().end_site(Site(1));
    let _pass = held.leave();
}

// How far the desk tells that the store goes, behind a turn. Then the desk runs until the site has ended.
fn work<J: Workplace, R: Threads + Wait + Sync>(
    rt: &R,
    desk: &Desk<J>,
    nap: Nap,
    book: &Book<Hub>,
    pass: Pass<Hub>,
) -> Result<u32, Memory>
    requires workplace { (book.now.id ≡ J.book) × (J.sites ≡ 1) }
    requires pass { (pass.book ≡ book.now.id) × (pass.opening ≡ 1 ∷ 1 ∷ 1 ∷ []) }
{
    desk.turn(rt, book, &NoGate)?;
    let told = desk.post(book, &NoGate).tell(rt, Site(1), 0)?;
    end(rt, book, pass);
    desk.run(rt, nap, book, &NoGate)?;
    Ok(told.length())
}

// The desk of one store, which isn't dropped.
fn opened<J: Workplace, R: Wait>(
    rt: &R,
    alloc: Global,
    pass: Pass<Hub>,
    publisher: Publisher,
) -> Result<(Desk<J>, Nap), Memory>
    requires workplace { (J.sites ≡ 1) × (J.size ≡ record { rows = 1; cols = 1 }) }
    requires pass { (pass.book ≡ J.book) × (pass.number ≡ 0) × (pass.seen ≡ []) × (pass.opening ≡ 1 ∷ 1 ∷ 1 ∷ []) }
    requires publisher { (publisher.list ≡ []) × (publisher.spent ≡ false) }
    requires store { (publisher.store ≡ J.stores 1) × (store_size publisher.store ≡ record { rows = 1; cols = 1 }) }
{
    let Ok(mut publishers) = Vec::with_capacity(alloc, 1) else {
        publisher.end(rt);
        return Err(Memory);
    };
    publishers.push_reserved(publisher);
    let state = DeskState::new(rt, alloc, CELL, pass, Seq::from_vec(publishers), 1)?;
    Desk::new(rt, alloc, state)
}

// What is told of the empty history, and whether a turn was refused.
fn begun<J: Workplace, R: Threads + Wait + Sync>(
    rt: &R,
    alloc: Global,
    book: &Book<Hub>,
    passes: (Pass<Hub>, Pass<Hub>),
    publisher: Publisher,
) -> Result<(u32, bool), Memory>
    requires workplace { (book.now.id ≡ J.book) × (J.sites ≡ 1) × (J.size ≡ record { rows = 1; cols = 1 }) }
    requires passes { (passes.0 ≡ new_pass book.now 0) × (passes.1 ≡ new_pass book.now 1) × (book.now.opening ≡ 1 ∷ 1 ∷ 1 ∷ []) }
    requires publisher { (publisher.list ≡ []) × (publisher.spent ≡ false) }
    requires store { (publisher.store ≡ J.stores 1) × (store_size publisher.store ≡ record { rows = 1; cols = 1 }) }
{
    let (first, second) = passes;
    let (desk, nap) = opened::<J, R>(rt, alloc, first, publisher)?;
    let told = work(rt, &desk, nap, book, second);
    let Finished {
        pass: _pass,
        publishers,
        spent,
    } = desk.finish();
    end_all(rt, publishers);
    Ok((told?, spent))
}

#[test]
fn a_desk_runs_until_all_ended(rt: HostRuntime) -> Result<(), Fail> {
    let alloc = rt.alloc();
    let (book, first, second) = two_passes(alloc)?.ok_or("no passes")?;
    let (publisher, _reader) = store(&rt, alloc, CELL)?;
    let found = begun::<Brand, HostRuntime>(&rt, alloc, &book, (first, second), publisher)?;
    assert_eq!(rt; found, (0, false));
    Ok(())
}
