ghost use Rattle.std.specs.Prelude.{◌≡◌, IfOk};
ghost use Rattle.sheet_ops.specs.Fits.{IntentFits};

use formula_tree::{BinOp, Expr, Formula};
use marked_lines::Perm;
use sheet_ops::{Content, Effect, Entry, Intent, Put, effect_of, fits, fits_effect};
use ss_base::{Memory, Seq, Site, Size, Span, Spot, Txt};
use std::alloc::Global;
use std::test::Fail;

fn puts(alloc: Global) -> Result<Seq<Put>, Fail> {
    let mut puts = Seq::new(alloc);
    puts.push(Put {
        row: 1,
        col: 2,
        content: Content::Text(Txt::new(alloc, b"ab")?),
    })?;
    puts.push(Put {
        row: 3,
        col: 0,
        content: Content::Num(-5),
    })?;
    Ok(puts)
}

fn numbers(alloc: Global, numbers: &[u32]) -> Result<Seq<u32>, Memory>
    ensures { IfOk result (λ s. s ≡ numbers.now) }
{
    Ok(Seq::from_vec(Vec::from_slice(alloc, numbers)?))
}

// Empties these cells.
fn emptied(alloc: Global, cells: &[(u32, u32)]) -> Result<Seq<Put>, Memory> {
    let mut puts = Seq::new(alloc);
    for (row, col) in cells {
        puts.push(Put {
            row: *row,
            col: *col,
            content: Content::Empty,
        })?;
    }
    Ok(puts)
}

const SIZE: Size = Size { rows: 3, cols: 2 };

#[test]
fn copies_with_ample_memory(rt: HostRuntime) -> Result<(), Fail> {
    let alloc = rt.alloc();
    let effect = Effect::Write(puts(alloc)?);
    let told = format!(in alloc; "{:?}", effect.copy()?)?;
    let same = format!(in alloc; "{effect:?}")?;
    assert_eq!(rt; told.as_str(), same.as_str());
    let entry = Entry {
        site: Site(2),
        seen: 4,
        intent: Intent::Write(puts(alloc)?),
    };
    let told = format!(in alloc; "{:?}", entry.copy()?)?;
    let same = format!(in alloc; "{entry:?}")?;
    assert_eq!(rt; told.as_str(), same.as_str());
    assert_eq!(rt; entry.intent.weight(), 4);
    Ok(())
}

#[test]
fn a_cell_that_does_not_fit_is_told_by_its_number(rt: HostRuntime) -> Result<(), Fail> {
    let alloc = rt.alloc();
    let tries = [
        (b"".as_slice(), Some(0)),
        (b"\x00\x00\x02\x01", None),
        (b"\x03\x00", Some(0)),
        (b"\x00\x02", Some(1)),
        (b"\x00\x00\x03\x01", Some(2)),
        (b"\x00\x00\x01\x00\x00\x00", Some(5)),
    ];
    for (bytes, misfit) in tries {
        let mut cells = Vec::new(alloc);
        for pair in bytes.chunks_exact(2) {
            cells.push((u32::from(pair[0]), u32::from(pair[1])))?;
        }
        assert_eq!(rt; fits(&Intent::Write(emptied(alloc, &cells)?), SIZE), misfit);
    }
    assert_eq!(rt; fits_effect(&Effect::Write(Seq::new(alloc)), SIZE), None);
    Ok(())
}

#[test]
fn a_cell_too_many_is_told_by_its_row(rt: HostRuntime) -> Result<(), Fail> {
    let alloc = rt.alloc();
    let mut cells = Vec::new(alloc);
    for row in 0..129u32 {
        cells.push((row, 0))?;
    }
    let size = Size { rows: 200, cols: 1 };
    let write = Effect::Write(emptied(alloc, &cells)?);
    assert_eq!(rt; fits_effect(&write, size), Some(256));
    Ok(())
}

#[test]
fn references_are_counted_from_left_to_right(rt: HostRuntime) -> Result<(), Fail> {
    let alloc = rt.alloc();
    for (row, bottom, misfit) in [(3, 2, Some(2)), (2, 3, Some(6)), (2, 2, None)] {
        let cell = Spot {
            row,
            col: 1,
            abs_row: false,
            abs_col: false,
        };
        let range = Span {
            top: 0,
            left: 0,
            bottom,
            right: 1,
            abs_top: false,
            abs_left: false,
            abs_bottom: false,
            abs_right: false,
        };
        let sum = Expr::Bin(
            BinOp::Add,
            Box::new(alloc, Expr::Cell(cell))?,
            Box::new(alloc, Expr::Range(range))?,
        );
        let mut puts = Seq::new(alloc);
        puts.push(Put {
            row: 0,
            col: 0,
            content: Content::Formula(Formula::new(sum)),
        })?;
        assert_eq!(rt; fits(&Intent::Write(puts), SIZE), misfit);
    }
    Ok(())
}

#[test]
fn lines_that_do_not_fit_are_told(rt: HostRuntime) {
    assert_eq!(rt; fits(&Intent::InsRow(3), SIZE), None);
    assert_eq!(rt; fits(&Intent::InsCol(3), SIZE), Some(0));
    assert_eq!(rt; fits_effect(&Effect::DelCol(1), SIZE), None);
    assert_eq!(rt; fits_effect(&Effect::DelRow(3), SIZE), Some(0));
}

#[test]
fn a_sort_that_does_not_fit_is_told_by_its_number(rt: HostRuntime) -> Result<(), Fail> {
    let alloc = rt.alloc();
    let size = Size { rows: 5, cols: 1 };
    let tries = [
        ([0, 2].as_slice(), [2, 0].as_slice(), None),
        (&[2, 0], &[2, 0], Some(1)),
        (&[0, 5], &[2, 0], Some(1)),
        (&[0, 2], &[5, 0], Some(2)),
        (&[0, 2], &[2, 2], Some(3)),
        (&[0, 2], &[2], Some(3)),
        (&[0, 2], &[2, 0, 1], Some(4)),
    ];
    for (slots, recs, misfit) in tries {
        let sort = Intent::Sort(numbers(alloc, slots)?, numbers(alloc, recs)?);
        assert_eq!(rt; fits(&sort, size), misfit);
    }
    let perm = Perm::from_lists(alloc, &[0, 5], &[5, 0])?;
    assert_eq!(rt; fits_effect(&Effect::Move(perm), size), Some(1));
    Ok(())
}

#[test]
fn a_slot_too_many_is_told(rt: HostRuntime) -> Result<(), Fail> {
    let alloc = rt.alloc();
    let mut slots = Vec::new(alloc);
    for p in 0..1025u32 {
        slots.push(p)?;
    }
    let size = Size {
        rows: 2000,
        cols: 1,
    };
    let recs = numbers(alloc, &slots)?;
    let sort = Intent::Sort(Seq::from_vec(slots), recs);
    assert_eq!(rt; fits(&sort, size), Some(1024));
    Ok(())
}

// A sort of the slots 0, 1 and 3 whose records stand at 3, 4 and 0.
fn sort(alloc: Global) -> Result<Intent, Memory>
    ensures { IfOk result (λ i. IntentFits (record { rows = 5; cols = 1 }) i) }
{
    let slots = numbers(alloc, &[0, 1, 3])?;
    let recs = numbers(alloc, &[3, 4, 0])?;
    Ok(Intent::Sort(slots, recs))
}

#[test]
fn a_sort_moves_its_records_among_its_slots(rt: HostRuntime) -> Result<(), Fail> {
    let effect = effect_of(&sort(rt.alloc())?)?;
    assert!(rt; matches!(&effect, Effect::Move(_)));
    if let Effect::Move(perm) = &effect {
        assert_eq!(rt; perm.pair(0), Some((0, 3)));
        assert_eq!(rt; perm.pair(1), Some((3, 0)));
        assert_eq!(rt; perm.pair(2), None);
    }
    Ok(())
}
