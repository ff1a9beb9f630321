ghost use Rattle.std.specs.Prelude.{◌≡◌, ◌∷◌, [], false, IfOk, IfSome};
ghost use Rattle.turn_book.specs.Passes.{new_pass};
ghost use Rattle.value_snap.specs.Views.{store_size};
ghost use Rattle.live_script.specs.SoFar.{LinesWithin};

use crate::passes_made::{CELL, two_passes};
use hub::Hub;
use live_record::{Note, NoteKind};
use live_script::{SiteScript, read_live};
use live_session::Session;
use live_site::{SiteEnd, run_site};
use recalc_loop::{Desk, DeskState, Finished, NoGate, Workplace, end_all};
use ss_base::{Memory, PureSource, Seq, Site};
use std::alloc::Global;
use std::marker::Brand;
use std::sync::Wait;
use std::test::Fail;
use std::thread::Threads;
use turn_book::{Book, Pass};
use value_snap::{Publisher, Reader, store};

// The desk of one store.
fn opened<J: Workplace, R: Wait>(
    rt: &R,
    alloc: Global,
    pass: Pass<Hub>,
    publisher: Publisher,
) -> Result<Desk<J>, Memory>
    requires workplace { (J.sites ≡ 1) × (J.size ≡ record { rows = 1; cols = 1 }) }
    requires pass { (pass.book ≡ J.book) × (pass.number ≡ 0) × (pass.seen ≡ []) × (pass.opening ≡ 1 ∷ 1 ∷ 1 ∷ []) }
    requires publisher { (publisher.list ≡ []) × (publisher.spent ≡ false) }
    requires store { (publisher.store ≡ J.stores 1) × (store_size publisher.store ≡ record { rows = 1; cols = 1 }) }
{
    let Ok(mut publishers) = Vec::with_capacity(alloc, 1) else {
        publisher.end(rt);
        return Err(Memory);
    };
    publishers.push_reserved(publisher);
    let state = DeskState::new(rt, alloc, CELL, pass, Seq::from_vec(publishers), 1)?;
    let (desk, _nap) = Desk::new(rt, alloc, state)?;
    Ok(desk)
}

// What the site's lines leave beside a desk, whose turns its syncs make.
fn begun<J: Workplace, R: Threads + Wait + Sync>(
    rt: &R,
    alloc: Global,
    script: &SiteScript,
    book: &Book<Hub>,
    passes: (Pass<Hub>, Pass<Hub>),
    ends: (Publisher, Reader),
) -> Result<SiteEnd, Memory>
    requires workplace { (book.now.id ≡ J.book) × (J.sites ≡ 1) × (J.size ≡ record { rows = 1; cols = 1 }) }
    requires script { LinesWithin script.now.lines }
    requires passes { (passes.0 ≡ new_pass book.now 0) × (passes.1 ≡ new_pass book.now 1) × (book.now.opening ≡ 1 ∷ 1 ∷ 1 ∷ []) }
    requires publisher { (ends.0.list ≡ []) × (ends.0.spent ≡ false) }
    requires store { (ends.0.store ≡ J.stores 1) × (ends.1.store ≡ J.stores 1) × (store_size ends.0.store ≡ record { rows = 1; cols = 1 }) }
{
    let (first, second) = passes;
    let (publisher, reader) = ends;
    let Ok(session) = Session::new(alloc, Site(1), CELL, second, reader) else {
        publisher.end(rt);
        return Err(Memory);
    };
    let desk = opened::<J, R>(rt, alloc, first, publisher)?;
    let end = run_site(rt, alloc, session, Site(1), script, book, &desk, &NoGate);
    let Finished {
        pass: _pass,
        publishers,
        spent: _,
    } = desk.finish();
    end_all(rt, publishers);
    Ok(end)
}

const SCRIPT: &[u8] = b"sheet 1 1\nsite a\na set A1 7\na sync\na read A1\nend\n";

// The lines of the one site of that script.
fn script(alloc: Global) -> Result<Option<SiteScript>, Fail>
    ensures { IfOk result (λ r. IfSome r (λ s. LinesWithin s.lines)) }
{
    let mut source = PureSource::new(alloc, SCRIPT)?;
    let mut sites = read_live(alloc, &mut source)?.sites.into_vec();
    Ok(sites.pop())
}

#[test]
fn a_site_does_its_lines(rt: HostRuntime) -> Result<(), Fail> {
    let alloc = rt.alloc();
    let script = script(alloc)?.ok_or("no site")?;
    let (book, first, second) = two_passes(alloc)?.ok_or("no passes")?;
    let ends = store(&rt, alloc, CELL)?;
    let end = begun::<Brand, HostRuntime>(&rt, alloc, &script, &book, (first, second), ends)?;
    assert!(rt; end.done);
    assert_eq!(rt; end.log.bytes(), b"read a at 1 A1\nA1 7\n".as_slice());
    let notes = [
        Note {
            line: 4,
            kind: NoteKind::Synced,
            length: 1,
        },
        Note {
            line: 5,
            kind: NoteKind::Read,
            length: 1,
        },
    ];
    assert_eq!(rt; end.notes.as_slice(), notes.as_slice());
    Ok(())
}
