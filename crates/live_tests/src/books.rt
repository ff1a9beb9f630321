ghost use Rattle.std.specs.Prelude.{◌≡◌, ◌<◌, ◌+◌, ◌^◌, ◌++◌, ◌∷◌, [], IfOk, IfSome, if◌then◌else◌, length, vec_len};
ghost use Rattle.turn_book.specs.Entries.{entries_of};
ghost use Rattle.turn_book.specs.Passes.{IsSamePass, new_pass};

use ss_base::{Memory, Seq};
use std::alloc::Global;
use std::sync::Wait;
use std::sync::atomic::AtomicBool;
use std::sync::atomic::Ordering::SeqCst;
use std::test::Fail;
use std::thread;
use std::thread::{Threads, join};
use std::time::{Clock, Duration};
use turn_book::{Book, Closed, Kept, Made, Pass};

/// Numbers that passes noted.
#[derive(Drop)]
struct Notes {
    entries: Vec<Made<u32>>,
    ghost few: { vec_len entries < 2 ^ 32 },
}

impl Kept for Notes {
    type Item = u32;

    ghost opening = { λ _. [] };

    ghost history = { λ n. n.entries.items };

    fn length(&self) -> u32 {
        self.entries.len() as u32
    }
}

impl Notes {
    fn new(alloc: Global) -> Notes
        ensures { result.entries.items ≡ [] }
    {
        Notes {
            entries: Vec::new(alloc),
        }
    }

    // Adds the item as the entry of this pass and number, and says whether it did.
    fn add(&mut self, pass: u32, number: u32, item: u32) -> bool
        ensures { self.new.entries.items ≡ self.old.entries.items ++ entries_of pass number (if result then item ∷ [] else []) }
    {
        if self.entries.len() >= 1000 {
            return false;
        }
        self.entries.push(Made { pass, number, item }).is_ok()
    }
}

// Enters the book, finds how long its history is, adds an item as the next entry of this pass, and leaves.
fn note<R: Wait>(
    rt: &R,
    book: &Book<Notes>,
    pass: Pass<Notes>,
    who: u32,
    number: u32,
    item: u32,
) -> (Pass<Notes>, u32, bool)
    requires book { pass.book ≡ book.now.id }
    requires who { who ≡ pass.number }
    requires number { number ≡ length pass.made }
    ensures same { IsSamePass pass result.0 }
    ensures made { length result.0.made ≡ length pass.made + (if result.2 then 1 else 0) }
{
    let mut held = book.enter(rt, pass);
    let found = held.state().length();
    let added = held.state().add(who, number, item);
    (held.leave(), found, added)
}

// Enters the book, finds how long its history is, and leaves.
fn look<R: Wait>(rt: &R, book: &Book<Notes>, pass: Pass<Notes>) -> (Pass<Notes>, u32)
    requires { pass.book ≡ book.now.id }
    ensures { IsSamePass pass result.0 }
{
    let mut held = book.enter(rt, pass);
    let found = held.state().length();
    (held.leave(), found)
}

// A book with two passes, the first of them in front.
fn two_passes(alloc: Global) -> Result<Option<(Book<Notes>, Pass<Notes>, Pass<Notes>)>, Memory>
    ensures { IfOk result (λ r. IfSome r (λ r. (r.1 ≡ new_pass r.0 0) × (r.2 ≡ new_pass r.0 1))) }
{
    let (book, passes) = Book::new(alloc, Notes::new(alloc), 2)?;
    let mut passes = passes.into_vec();
    let (Some(second), Some(first)) = (passes.pop(), passes.pop()) else {
        return Ok(None);
    };
    Ok(Some((book, first, second)))
}

#[test]
fn closes_with_all_passes(rt: HostRuntime) -> Result<(), Fail> {
    let (book, first, second) = two_passes(rt.alloc())?.ok_or("no passes")?;
    let (first, found, added) = note(&rt, &book, first, 0, 0, 7);
    assert_eq!(rt; found, 0);
    assert!(rt; added);
    let (second, found) = look(&rt, &book, second);
    assert_eq!(rt; found, 1);

    let mut passes = Seq::new(rt.alloc());
    passes.push(second)?;
    let Err(unclosed) = book.close(passes) else {
        return Err("closed without the first pass".into());
    };
    let mut passes = unclosed.passes;
    assert_eq!(rt; passes.len(), 1);
    passes.push(first)?;
    let Ok(closed) = unclosed.book.close(passes) else {
        return Err("not closed with both passes".into());
    };
    assert_eq!(rt; closed.state().length(), 1);
    Ok(())
}

// Notes ten items, one after another, as the first entries of this pass.
fn note_ten<R: Wait>(rt: &R, book: &Book<Notes>, pass: Pass<Notes>, who: u32) -> Pass<Notes>
    requires book { pass.book ≡ book.now.id }
    requires who { who ≡ pass.number }
    requires new { pass.made ≡ [] }
    ensures { IsSamePass pass result }
{
    let mut mine = pass;
    let mut made = 0;
    for item in 0..10 {
        let (next, _, added) = note(rt, book, mine, who, made, item);
        mine = next;
        if added {
            made += 1;
        }
    }
    mine
}

// Two threads note ten items each.
fn note_beside<R: Threads + Wait + Sync>(
    rt: &R,
    book: &Book<Notes>,
    first: Pass<Notes>,
    second: Pass<Notes>,
) -> (Pass<Notes>, Pass<Notes>)
    requires first { first ≡ new_pass book.now 0 }
    requires second { second ≡ new_pass book.now 1 }
    ensures { IsSamePass first result.0 × IsSamePass second result.1 }
{
    join(
        rt,
        move || note_ten(rt, book, first, 0),
        move || note_ten(rt, book, second, 1),
    )
}

#[test]
fn two_threads_make_twenty_entries(rt: HostRuntime) -> Result<(), Fail> {
    let (book, first, second) = two_passes(rt.alloc())?.ok_or("no passes")?;
    let (first, second) = note_beside(&rt, &book, first, second);
    let mut passes = Seq::new(rt.alloc());
    passes.push(first)?;
    passes.push(second)?;
    let Ok(closed) = book.close(passes) else {
        return Err("not closed with both passes".into());
    };
    assert_eq!(rt; closed.state().length(), 20);
    let mut next = [0u32; 2];
    for entry in &closed.state().entries {
        let who = entry.pass as usize;
        assert!(rt; who < 2);
        assert_eq!(rt; (entry.number, entry.item), (next[who], next[who]));
        next[who] = next[who].wrapping_add(1);
    }
    assert_eq!(rt; next, [10, 10]);
    Ok(())
}

// Looks for the flag every millisecond, for some seconds, and says whether it was raised.
fn is_raised<R: Clock>(rt: &R, flag: &AtomicBool) -> bool {
    for _ in 0..5000 {
        if flag.load(SeqCst) {
            return true;
        }
        thread::sleep(rt, Duration::from_millis(1));
    }
    false
}

// Holds the state until the other thread has said that it is about to enter, and a little longer, so
// that it waits there; then leaves. Says whether the other thread was heard.
fn hold<R: Wait + Clock>(
    rt: &R,
    book: &Book<Notes>,
    pass: Pass<Notes>,
    inside: &AtomicBool,
    comes: &AtomicBool,
) -> (Pass<Notes>, bool)
    requires { pass.book ≡ book.now.id }
    ensures { IsSamePass pass result.0 }
{
    let held = book.enter(rt, pass);
    inside.store(true, SeqCst);
    let heard = is_raised(rt, comes);
    thread::sleep(rt, Duration::from_millis(50));
    (held.leave(), heard)
}

// Waits until the other thread holds the state, says that it is about to enter, and enters.
fn come<R: Wait + Clock>(
    rt: &R,
    book: &Book<Notes>,
    pass: Pass<Notes>,
    inside: &AtomicBool,
    comes: &AtomicBool,
) -> (Pass<Notes>, bool)
    requires { pass.book ≡ book.now.id }
    ensures { IsSamePass pass result.0 }
{
    let heard = is_raised(rt, inside);
    comes.store(true, SeqCst);
    let (pass, _) = look(rt, book, pass);
    (pass, heard)
}

fn hold_beside<R: Threads + Wait + Clock + Sync>(
    rt: &R,
    book: &Book<Notes>,
    first: Pass<Notes>,
    second: Pass<Notes>,
) -> bool
    requires first { first ≡ new_pass book.now 0 }
    requires second { second ≡ new_pass book.now 1 }
{
    let inside = AtomicBool::new(false);
    let comes = AtomicBool::new(false);
    let ((_, first), (_, second)) = join(
        rt,
        || hold(rt, book, first, &inside, &comes),
        || come(rt, book, second, &inside, &comes),
    );
    first && second
}

// It ends only where the pass that waits is woken.
#[test]
fn a_pass_that_waits_is_woken(rt: HostRuntime) -> Result<(), Fail> {
    let (book, first, second) = two_passes(rt.alloc())?.ok_or("no passes")?;
    assert!(rt; hold_beside(&rt, &book, first, second));
    Ok(())
}

// Notes an item, and enters again and again, for some seconds, until there are two. Says whether there are.
fn meet<R: Wait + Clock>(
    rt: &R,
    book: &Book<Notes>,
    pass: Pass<Notes>,
    who: u32,
) -> (Pass<Notes>, bool)
    requires book { pass.book ≡ book.now.id }
    requires who { who ≡ pass.number }
    requires new { pass.made ≡ [] }
    ensures { IsSamePass pass result.0 }
{
    let (mut mine, _, _) = note(rt, book, pass, who, 0, who);
    for _ in 0..5000 {
        let (next, found) = look(rt, book, mine);
        mine = next;
        if found == 2 {
            return (mine, true);
        }
        thread::sleep(rt, Duration::from_millis(1));
    }
    (mine, false)
}

fn meet_beside<R: Threads + Wait + Clock + Sync>(
    rt: &R,
    book: &Book<Notes>,
    first: Pass<Notes>,
    second: Pass<Notes>,
) -> bool
    requires first { first ≡ new_pass book.now 0 }
    requires second { second ≡ new_pass book.now 1 }
{
    let ((_, first), (_, second)) = join(
        rt,
        move || meet(rt, book, first, 0),
        move || meet(rt, book, second, 1),
    );
    first && second
}

// Neither thread can see both entries if one runs after the other has ended.
#[test]
fn two_threads_find_the_entry_of_each_other(rt: HostRuntime) -> Result<(), Fail> {
    let (book, first, second) = two_passes(rt.alloc())?.ok_or("no passes")?;
    assert!(rt; meet_beside(&rt, &book, first, second));
    Ok(())
}
