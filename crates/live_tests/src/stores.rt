ghost use Rattle.std.specs.Prelude.{◌≡◌, ◌≤◌, [], false, length, IfOk, OnOk};
ghost use Rattle.value_snap.specs.Lists.{is_ended, upto_from};
ghost use Rattle.value_snap.specs.Stores.{HasFewLines};

use sheet_value::{Batch, Change, Value};
use ss_base::{Memory, Seq, Size, Span};
use std::alloc::Global;
use std::sync::Wait;
use std::test::Fail;
use std::thread::{Threads, join};
use value_snap::{Publisher, ReadErr, Reader, View, store};

const SIZE: Size = Size { rows: 2, cols: 2 };

fn lines(alloc: Global, numbers: &[u32]) -> Result<Seq<u32>, Memory>
    ensures { IfOk result (λ s. length s ≡ length numbers.now) }
{
    Ok(Seq::from_vec(Vec::from_slice(alloc, numbers)?))
}

// The rows from the first to one, and the columns from the first to one.
fn corner(bottom: u32, right: u32) -> Span {
    Span {
        top: 0,
        left: 0,
        bottom,
        right,
        abs_top: false,
        abs_left: false,
        abs_bottom: false,
        abs_right: false,
    }
}

// The number at a row and column of what was read.
fn number(view: &View, row: u32, col: u32) -> Option<i64> {
    match view.grid.at(row, col) {
        Some(Value::Num(n)) => Some(*n),
        _ => None,
    }
}

// Each cell holds this number, and so many entries were evaluated.
fn all_cells(alloc: Global, upto: u32) -> Result<Batch, Memory>
    ensures upto { IfOk result (λ b. b.upto ≡ upto) }
    ensures few { IfOk result (λ b. HasFewLines b) }
{
    let mut changes = Seq::new(alloc);
    for cell in 0..4 {
        changes.push(Change {
            row: cell / 2,
            col: cell % 2,
            value: Value::Num(i64::from(upto)),
        })?;
    }
    Ok(Batch {
        upto,
        row_order: lines(alloc, &[0, 1])?,
        col_order: lines(alloc, &[0, 1])?,
        changes,
    })
}

// The rows are exchanged, column 0 is gone, and one of the cells that are left is empty.
fn sorted(alloc: Global, upto: u32) -> Result<Batch, Memory>
    ensures upto { IfOk result (λ b. b.upto ≡ upto) }
    ensures few { IfOk result (λ b. HasFewLines b) }
{
    let mut changes = Seq::new(alloc);
    changes.push(Change {
        row: 0,
        col: 1,
        value: Value::Empty,
    })?;
    Ok(Batch {
        upto,
        row_order: lines(alloc, &[1, 0])?,
        col_order: lines(alloc, &[1])?,
        changes,
    })
}

// The length of a read, and the number in one of its cells.
fn shown(view: &View, row: u32, col: u32) -> (u32, Option<i64>) {
    (view.length, number(view, row, col))
}

// Reads the opening sheet, and then a first batch.
fn reads_a_batch<R: Wait>(
    rt: &R,
    alloc: Global,
    publisher: &mut Publisher,
    reader: &mut Reader,
) -> Result<[(u32, Option<i64>); 2], Fail>
    requires new { (publisher.old.list ≡ []) × (publisher.old.spent ≡ false) }
    requires store { reader.old.store ≡ publisher.old.store }
    ensures store { OnOk result (reader.new.store ≡ publisher.new.store) }
    ensures unspent { OnOk result (publisher.new.spent ≡ false) }
    ensures unclosed { OnOk result (is_ended publisher.new.list ≡ false) }
    ensures upto { OnOk result (upto_from 0 publisher.new.list ≡ 3) }
{
    let opening = reader.read(&corner(1, 1))?;
    let batch = all_cells(alloc, 3)?;
    publisher.publish(rt, &batch)?;
    let first = reader.read(&corner(1, 1))?;
    Ok([shown(&opening, 1, 1), shown(&first, 1, 0)])
}

// Reads a sorted batch that it learnt of, a range outside, and the closed list.
fn reads_to_the_end<R: Wait>(
    rt: &R,
    alloc: Global,
    publisher: &mut Publisher,
    reader: &mut Reader,
) -> Result<([(u32, Option<i64>); 3], u32, bool), Fail>
    requires store { reader.old.store ≡ publisher.old.store }
    requires unspent { publisher.old.spent ≡ false }
    requires unclosed { is_ended publisher.old.list ≡ false }
    requires upto { upto_from 0 publisher.old.list ≡ 3 }
{
    let batch = sorted(alloc, 5)?;
    publisher.publish(rt, &batch)?;
    let told = publisher.tell();
    let told_length = told.length();
    reader.learn(told);
    let second = reader.read(&corner(1, 0))?;
    let outside = matches!(reader.read(&corner(1, 1)), Err(ReadErr::OutOfSheet));
    reader.learn(publisher.close(rt)?);
    reader.agree()?;
    let last = reader.read(&corner(0, 0))?;
    let seen = [
        shown(&second, 0, 0),
        shown(&second, 1, 0),
        shown(&last, 0, 0),
    ];
    Ok((seen, told_length, outside))
}

// What is read at the opening, of each batch, and at the end.
#[derive(Drop)]
struct Seen {
    first: [(u32, Option<i64>); 2],
    rest: [(u32, Option<i64>); 3],
    told_length: u32,
    outside: bool,
}

fn reads_what_is_published<R: Wait>(
    rt: &R,
    alloc: Global,
    publisher: &mut Publisher,
    reader: &mut Reader,
) -> Result<Seen, Fail>
    requires new { (publisher.old.list ≡ []) × (publisher.old.spent ≡ false) }
    requires store { reader.old.store ≡ publisher.old.store }
{
    let first = reads_a_batch(rt, alloc, publisher, reader)?;
    let (rest, told_length, outside) = reads_to_the_end(rt, alloc, publisher, reader)?;
    Ok(Seen {
        first,
        rest,
        told_length,
        outside,
    })
}

#[test]
fn reads_no_older_than_what_was_told(rt: HostRuntime) -> Result<(), Fail> {
    let (mut publisher, mut reader) = store(&rt, rt.alloc(), SIZE)?;
    let seen = reads_what_is_published(&rt, rt.alloc(), &mut publisher, &mut reader);
    let spent = publisher.is_spent();
    publisher.end(&rt);
    let seen = seen?;
    // The opening sheet, with an empty cell, and the first batch.
    assert_eq!(rt; seen.first, [(0, None), (3, Some(3))]);
    // The second one as it was told: rows exchanged, one cell empty. Column 1 is outside then.
    assert_eq!(rt; seen.rest, [(5, Some(3)), (5, None), (5, Some(3))]);
    assert_eq!(rt; seen.told_length, 5);
    assert!(rt; seen.outside);
    assert!(rt; !spent);
    assert_eq!(rt; reader.refused(), 0);
    Ok(())
}

// Publishes batches 1 to 200, and says how far it came.
fn publish_all<R: Wait>(rt: &R, alloc: Global, publisher: &mut Publisher) -> Result<(), Memory>
    requires { (publisher.old.list ≡ []) × (publisher.old.spent ≡ false) }
{
    for k in 0..200 {
        let batch = all_cells(alloc, k + 1)?;
        publisher.publish(rt, &batch)?;
    }
    Ok(())
}

// Whether a read shows one batch, which isn't below the last one.
fn is_one_batch(view: &View, last: u32) -> bool {
    let all = (view.length > 0).then_some(i64::from(view.length));
    let mut same = view.length >= last;
    for cell in 0..4 {
        same = same && number(view, cell / 2, cell % 2) == all;
    }
    same
}

// Reads until the last batch is there, at most so often, and says whether each read showed one batch.
fn read_all(reader: &mut Reader) -> Result<bool, ReadErr> {
    let mut last = 0;
    for _ in 0..1_000_000 {
        let view = reader.read(&corner(1, 1))?;
        if !is_one_batch(&view, last) {
            return Ok(false);
        }
        last = view.length;
        if last == 200 {
            break;
        }
    }
    Ok(true)
}

// One thread publishes, and another reads all the while.
fn publish_beside<R: Threads + Wait + Sync>(
    rt: &R,
    alloc: Global,
    publisher: &mut Publisher,
    reader: &mut Reader,
) -> (Result<(), Memory>, Result<bool, ReadErr>)
    requires { (publisher.old.list ≡ []) × (publisher.old.spent ≡ false) }
{
    join(
        rt,
        || publish_all(rt, alloc, publisher),
        || read_all(reader),
    )
}

#[test]
fn each_read_beside_a_publisher_shows_one_batch(rt: HostRuntime) -> Result<(), Fail> {
    let (mut publisher, mut reader) = store(&rt, rt.alloc(), SIZE)?;
    let (published, read) = publish_beside(&rt, rt.alloc(), &mut publisher, &mut reader);
    let last = reader.read(&corner(1, 1));
    publisher.end(&rt);
    published?;
    let one_batch_each = read?;
    let last = last?;
    assert!(rt; one_batch_each);
    assert_eq!(rt; last.length, 200);
    Ok(())
}
