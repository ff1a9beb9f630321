ghost use Rattle.std.specs.Prelude.{◌≡◌, ◌∷◌, [], length, false, IfOk, IfSome};
ghost use Rattle.sort_keys.specs.Keys.{IsOrderly};
ghost use Rattle.turn_book.specs.Passes.{new_pass};
ghost use Rattle.value_snap.specs.Stores.{HasFewLines};

use hub::Hub;
use live_session::Session;
use sheet_ops::Edit;
use sheet_value::Batch;
use ss_base::{Memory, Seq, Site, Size, Span, Spot, Txt};
use std::alloc::Global;
use std::sync::Wait;
use std::test::Fail;
use std::thread::Threads;
use turn_book::{Book, Pass};
use value_snap::{Publisher, Reader, Teller, Told, store};

const SIZE: Size = Size { rows: 1, cols: 1 };

// Tells how far one store goes.
#[derive(Drop)]
struct Desk<'a> {
    publisher: &'a Publisher,
}

impl<'a> Teller for Desk<'a> {
    ghost stores = { λ d _. d.publisher.now.store };

    ghost has = { λ _ _. Unit {0} };

    fn tell<R: Threads + Wait + Sync>(
        &self,
        _rt: &R,
        _site: Site,
        at_least: u32,
    ) -> Result<Told, Memory> {
        let told = self.publisher.tell();
        if told.length() < at_least {
            return Err(Memory);
        }
        Ok(told)
    }
}

// A book of a hub of one site over one cell, and the pass of that site.
fn one_pass(alloc: Global) -> Result<Option<(Book<Hub>, Pass<Hub>)>, Memory>
    ensures opening { IfOk result (λ r. IfSome r (λ r. r.0.opening ≡ 1 ∷ 1 ∷ 1 ∷ [])) }
    ensures pass { IfOk result (λ r. IfSome r (λ r. r.1 ≡ new_pass r.0 1)) }
{
    let (book, passes) = Book::new(alloc, Hub::new(alloc, SIZE, 1)?, 2)?;
    let mut passes = passes.into_vec();
    match passes.pop() {
        Some(pass) => Ok(Some((book, pass))),
        None => Ok(None),
    }
}

// The first line alone.
fn first_line(alloc: Global) -> Result<Seq<u32>, Memory>
    ensures { IfOk result (λ s. length s ≡ 1) }
{
    Ok(Seq::from_vec(Vec::from_slice(alloc, &[0])?))
}

// What is published of one entry: an empty cell.
fn batch(alloc: Global) -> Result<Batch, Memory>
    ensures { IfOk result HasFewLines }
{
    Ok(Batch {
        upto: 1,
        row_order: first_line(alloc)?,
        col_order: first_line(alloc)?,
        changes: Seq::new(alloc),
    })
}

// Enters 7 into the cell.
fn seven(alloc: Global) -> Result<Edit, Memory>
    ensures { IfOk result IsOrderly }
{
    let at = Spot {
        row: 0,
        col: 0,
        abs_row: false,
        abs_col: false,
    };
    Ok(Edit::Set(at, Txt::new(alloc, b"7")?))
}

const FIRST: Span = Span {
    top: 0,
    left: 0,
    bottom: 0,
    right: 0,
    abs_top: false,
    abs_left: false,
    abs_bottom: false,
    abs_right: false,
};

// How far is read, pushed, taken and published.
fn work<R: Threads + Wait + Sync>(
    rt: &R,
    book: &Book<Hub>,
    desk: &Desk<'_>,
    edit: &Edit,
    session: &mut Session,
) -> Result<(u32, u32, u32, u32), Fail>
    requires book { session.old.pass.book ≡ book.now.id }
    requires edit { IsOrderly edit.now }
    requires store { desk.now.publisher.now.store ≡ session.old.reader.store }
{
    session.edit(edit)?;
    let read = session.read(&FIRST)?.length;
    let pushed = session.push(rt, book, 5)?;
    let taken = session.pull(rt, book, 5)?;
    let synced = session.sync(rt, book, desk)?;
    Ok((read, pushed, taken, synced))
}

// The same of a new session, where one entry is published.
fn begun<R: Threads + Wait + Sync>(
    rt: &R,
    alloc: Global,
    publisher: &mut Publisher,
    reader: Reader,
) -> Result<(u32, u32, u32, u32), Fail>
    requires new { (publisher.old.list ≡ []) × (publisher.old.spent ≡ false) }
    requires store { reader.store ≡ publisher.old.store }
{
    publisher.publish(rt, &batch(alloc)?)?;
    let edit = seven(alloc)?;
    let (book, pass) = one_pass(alloc)?.ok_or("no pass")?;
    let mut session = Session::new(alloc, Site(1), SIZE, pass, reader)?;
    work(rt, &book, &Desk { publisher }, &edit, &mut session)
}

#[test]
fn a_site_shares_its_sheet(rt: HostRuntime) -> Result<(), Fail> {
    let (mut publisher, reader) = store(&rt, rt.alloc(), SIZE)?;
    let found = begun(&rt, rt.alloc(), &mut publisher, reader);
    publisher.end(&rt);
    assert_eq!(rt; found?, (1, 1, 1, 1));
    Ok(())
}
