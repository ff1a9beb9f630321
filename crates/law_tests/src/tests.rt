use formula_tree::{Expr, Formula};
use marked_lines::Perm;
use name_model::{Chain, Ways, both_ways, chain_ways, fits_each};
use sheet_grid::Sheet;
use sheet_ops::{Content, Effect, Intent, Put, fits, fits_effect};
use ss_base::{Memory, Seq, Size, Spot};
use std::alloc::Global;
use std::process::Abort;
use std::test::Fail;

/// A new sheet of three rows and two columns. No clause says so: the tests over it are proved for
/// every sheet.
fn opened(alloc: Global) -> Result<Sheet, Memory> {
    Sheet::new(alloc, Size { rows: 3, cols: 2 })
}

/// Both ways round of two operations that fit the new sheet.
fn ways(rt: &impl Abort, alloc: Global, own: &Intent, other: &Effect) -> Result<Ways, Memory> {
    let sheet = opened(alloc)?;
    let size = sheet.size();
    assert!(rt; size.rows < 15000 && size.cols < 15000);
    assert!(rt; fits(own, size).is_none());
    assert!(rt; fits_effect(other, size).is_none());
    both_ways(&sheet, own, other)
}

/// Both ways round of two own operations, one after another, and an effect, which fit the new sheet.
fn chained(
    rt: &impl Abort,
    alloc: Global,
    first: Intent,
    second: Intent,
    other: &Effect,
) -> Result<Chain, Memory> {
    let sheet = opened(alloc)?;
    let mut own = Seq::new(alloc);
    own.push(first)?;
    own.push(second)?;
    chain(rt, &sheet, &own, other)
}

fn chain(
    rt: &impl Abort,
    sheet: &Sheet,
    own: &Seq<Intent>,
    other: &Effect,
) -> Result<Chain, Memory> {
    let size = sheet.size();
    assert!(rt; size.rows < 10000 && size.cols < 10000);
    assert!(rt; own.len() < 1000);
    assert!(rt; fits_each(own.as_slice(), size));
    assert!(rt; fits_effect(other, size).is_none());
    chain_ways(sheet, own, other)
}

/// The number of the record in a row and whether the row is hidden, if it is there.
fn line(sheet: &Sheet, row: u32) -> Option<(u32, bool)> {
    if row < sheet.size().rows {
        Some((sheet.rec_number(row), sheet.is_row_marked(row)))
    } else {
        None
    }
}

/// The same of the first four rows.
fn lines(sheet: &Sheet) -> [Option<(u32, bool)>; 4] {
    [
        line(sheet, 0),
        line(sheet, 1),
        line(sheet, 2),
        line(sheet, 3),
    ]
}

/// What the first four rows are if they have these records and none is hidden.
fn shown(records: [u32; 4]) -> [Option<(u32, bool)>; 4] {
    let [a, b, c, d] = records;
    [
        Some((a, false)),
        Some((b, false)),
        Some((c, false)),
        Some((d, false)),
    ]
}

fn numbers(alloc: Global, numbers: &[u32]) -> Result<Seq<u32>, Memory> {
    Ok(Seq::from_vec(Vec::from_slice(alloc, numbers)?))
}

fn sort(alloc: Global, slots: &[u32], records: &[u32]) -> Result<Intent, Memory> {
    let slots = numbers(alloc, slots)?;
    Ok(Intent::Sort(slots, numbers(alloc, records)?))
}

/// The sort of three rows by which the third comes first.
fn third_first(alloc: Global) -> Result<Intent, Memory> {
    sort(alloc, &[0, 1, 2], &[2, 0, 1])
}

/// The effect by which the first and the third row change places.
fn exchange(alloc: Global) -> Result<Effect, Memory> {
    let perm = Perm::from_lists(alloc, &[0, 2], &[2, 0])?;
    Ok(Effect::Move(perm))
}

/// The entry of `=A3` into B1.
fn entry(alloc: Global) -> Result<Intent, Memory> {
    let third = Expr::Cell(Spot {
        row: 2,
        col: 0,
        abs_row: false,
        abs_col: false,
    });
    let mut puts = Seq::new(alloc);
    puts.push(Put {
        row: 0,
        col: 1,
        content: Content::Formula(Formula::new(third)),
    })?;
    Ok(Intent::Write(puts))
}

/// The row and the column that the formula in B1 refers to.
fn referred(sheet: &Sheet) -> Result<Option<(u32, u32)>, Memory> {
    let size = sheet.size();
    if size.rows == 0 || size.cols < 2 {
        return Ok(None);
    }
    match sheet.content(0, 1)? {
        Content::Formula(formula) => Ok(cell_of(&formula)),
        _ => Ok(None),
    }
}

fn cell_of(formula: &Formula) -> Option<(u32, u32)> {
    match formula.expr() {
        Expr::Cell(spot) => Some((spot.row, spot.col)),
        _ => None,
    }
}

#[test]
fn an_entry_beside_an_insertion(rt: HostRuntime) -> Result<(), Fail> {
    let own = entry(rt.alloc())?;
    let ways = ways(&rt, rt.alloc(), &own, &Effect::InsRow(1))?;
    assert_eq!(rt; lines(&ways.left), shown([0, 3, 1, 2]));
    assert_eq!(rt; lines(&ways.right), shown([0, 3, 1, 2]));
    assert_eq!(rt; referred(&ways.left)?, Some((3, 0)));
    assert_eq!(rt; referred(&ways.right)?, Some((3, 0)));
    Ok(())
}

#[test]
fn a_sort_beside_an_insertion_between_its_rows(rt: HostRuntime) -> Result<(), Fail> {
    let own = third_first(rt.alloc())?;
    let ways = ways(&rt, rt.alloc(), &own, &Effect::InsRow(1))?;
    assert_eq!(rt; lines(&ways.left), shown([2, 3, 0, 1]));
    assert_eq!(rt; lines(&ways.right), shown([2, 3, 0, 1]));
    Ok(())
}

#[test]
fn a_sort_beside_another_that_takes_a_row_of_it_away(rt: HostRuntime) -> Result<(), Fail> {
    let own = sort(rt.alloc(), &[0, 1], &[1, 0])?;
    let ways = ways(&rt, rt.alloc(), &own, &exchange(rt.alloc())?)?;
    let rows = [Some((2, false)), Some((1, false)), Some((0, false)), None];
    assert_eq!(rt; lines(&ways.left), rows);
    assert_eq!(rt; lines(&ways.right), rows);
    Ok(())
}

#[test]
fn a_sort_beside_the_deletion_of_one_of_its_rows(rt: HostRuntime) -> Result<(), Fail> {
    let own = third_first(rt.alloc())?;
    let ways = ways(&rt, rt.alloc(), &own, &Effect::DelRow(0))?;
    let rows = [Some((2, false)), Some((0, true)), Some((1, false)), None];
    assert_eq!(rt; lines(&ways.left), rows);
    assert_eq!(rt; lines(&ways.right), rows);
    Ok(())
}

#[test]
fn a_sort_and_a_deletion_beside_an_insertion(rt: HostRuntime) -> Result<(), Fail> {
    let own = third_first(rt.alloc())?;
    let chain = chained(&rt, rt.alloc(), own, Intent::DelRow(0), &Effect::InsRow(1))?;
    let rows = [
        Some((2, true)),
        Some((3, false)),
        Some((0, false)),
        Some((1, false)),
    ];
    assert_eq!(rt; lines(&chain.left), rows);
    assert_eq!(rt; lines(&chain.right), rows);
    Ok(())
}

#[test]
fn a_sort_and_an_insertion_beside_another_sort(rt: HostRuntime) -> Result<(), Fail> {
    let own = sort(rt.alloc(), &[0, 1], &[1, 0])?;
    let other = exchange(rt.alloc())?;
    let chain = chained(&rt, rt.alloc(), own, Intent::InsRow(1), &other)?;
    assert_eq!(rt; lines(&chain.left), shown([2, 3, 1, 0]));
    assert_eq!(rt; lines(&chain.right), shown([2, 3, 1, 0]));
    Ok(())
}

#[test]
fn an_insertion_and_a_sort_beside_a_deletion(rt: HostRuntime) -> Result<(), Fail> {
    let own = sort(rt.alloc(), &[1, 2], &[2, 1])?;
    let chain = chained(&rt, rt.alloc(), Intent::InsRow(0), own, &Effect::DelRow(0))?;
    let rows = [
        Some((3, false)),
        Some((1, false)),
        Some((0, true)),
        Some((2, false)),
    ];
    assert_eq!(rt; lines(&chain.left), rows);
    assert_eq!(rt; lines(&chain.right), rows);
    Ok(())
}
