ghost use Rattle.std.specs.Prelude.{◌≡◌, IfOk, IfSome};
ghost use Rattle.turn_book.specs.Passes.{IsSamePass, new_pass};

use hub::Hub;
use jup_client::Down;
use jup_server::SubmitErr;
use sheet_ops::{Content, Effect, Intent, Put, Up};
use ss_base::{Memory, Seq, Site, Size};
use std::alloc::Global;
use std::sync::Wait;
use std::test::Fail;
use std::thread::{Threads, join};
use turn_book::{Book, Pass};

// A message that writes a number, whose author has taken nothing.
fn write(alloc: Global, number: i64) -> Result<Up, Memory> {
    let mut puts = Seq::new(alloc);
    puts.push(Put {
        row: 0,
        col: 0,
        content: Content::Num(number),
    })?;
    Ok(Up {
        seen: 0,
        intent: Intent::Write(puts),
    })
}

// A hub of two sites over one cell. What uses it is proved without the rest of its contents.
fn opened(alloc: Global) -> Result<Hub, Memory>
    ensures { IfOk result (λ h. h.sites ≡ 2) }
{
    Hub::new(alloc, Size { rows: 1, cols: 1 }, 2)
}

// A site pushes a message that writes a number.
fn push(alloc: Global, hub: &mut Hub, site: Site, number: i64) -> Result<(), SubmitErr>
    ensures { hub.new.sites ≡ hub.old.sites }
{
    let up = write(alloc, number)?;
    hub.push(site, &up)
}

// Whether the first site is sent that its own message was taken, and then the other's.
fn own_and_other(hub: &Hub) -> Result<bool, Memory> {
    let downs = hub.fetch(Site(1), 0, 5)?;
    Ok(
        downs.len() == 2
            && matches!(downs.get(0), Some(Down::Own))
            && matches!(downs.get(1), Some(Down::Other(Effect::Write(_)))),
    )
}

#[test]
fn two_sites_share_a_history(rt: HostRuntime) -> Result<(), Fail> {
    let alloc = rt.alloc();
    let mut hub = opened(alloc)?;
    push(alloc, &mut hub, Site(1), 7)?;
    push(alloc, &mut hub, Site(2), 8)?;
    let refused = push(alloc, &mut hub, Site(3), 9);
    assert_eq!(rt; refused, Err(SubmitErr::NoSite));
    assert_eq!(rt; hub.length(), 2);
    assert_eq!(rt; hub.server().count(), 2);
    assert!(rt; own_and_other(&hub)?);
    assert_eq!(rt; hub.batch(0)?.len(), 2);
    hub.end_site(Site(2));
    hub.end_site(Site(2));
    assert_eq!(rt; hub.ended(), 1);
    Ok(())
}

// Enters the book, finds how long the history is, and leaves.
fn look<R: Wait>(rt: &R, book: &Book<Hub>, pass: Pass<Hub>) -> (Pass<Hub>, u32)
    requires { pass.book ≡ book.now.id }
    ensures { IsSamePass pass result.0 }
{
    let mut held = book.enter(rt, pass);
    let found = held.state().length();
    (held.leave(), found)
}

// Two threads look, each with a pass of its own.
fn look_beside<R: Threads + Wait + Sync>(
    rt: &R,
    book: &Book<Hub>,
    first: Pass<Hub>,
    second: Pass<Hub>,
) -> (u32, u32)
    requires first { first.book ≡ book.now.id }
    requires second { second.book ≡ book.now.id }
{
    let ((_, first), (_, second)) = join(
        rt,
        move || look(rt, book, first),
        move || look(rt, book, second),
    );
    (first, second)
}

// A book with two passes, the first of them in front.
fn two_passes(alloc: Global) -> Result<Option<(Book<Hub>, Pass<Hub>, Pass<Hub>)>, Memory>
    ensures { IfOk result (λ r. IfSome r (λ r. (r.1 ≡ new_pass r.0 0) × (r.2 ≡ new_pass r.0 1))) }
{
    let (book, passes) = Book::new(alloc, Hub::new(alloc, Size { rows: 1, cols: 1 }, 2)?, 2)?;
    let mut passes = passes.into_vec();
    let (Some(second), Some(first)) = (passes.pop(), passes.pop()) else {
        return Ok(None);
    };
    Ok(Some((book, first, second)))
}

#[test]
fn threads_share_a_hub(rt: HostRuntime) -> Result<(), Fail> {
    let (book, first, second) = two_passes(rt.alloc())?.ok_or("no passes")?;
    assert_eq!(rt; look_beside(&rt, &book, first, second), (0, 0));
    Ok(())
}
