use formula_tree::{Expr, Formula};
use marked_lines::Perm;
use sheet_grid::Sheet;
use sheet_ops::{Content, Effect, Put, fits_effect};
use ss_base::{Memory, Seq, Size, Span, Spot};
use std::alloc::Global;
use std::process::Abort;
use std::test::Fail;

/// A new sheet of three rows and one column. No clause says so: what stands on it is proved for every
/// sheet.
fn opened(alloc: Global) -> Result<Sheet, Memory> {
    Sheet::new(alloc, Size { rows: 3, cols: 1 })
}

/// Does an effect that fits.
fn apply(rt: &impl Abort, sheet: &mut Sheet, effect: &Effect) -> Result<(), Memory> {
    let size = sheet.size();
    assert!(rt; size.rows < 16000 && size.cols < 16000);
    assert!(rt; fits_effect(effect, size).is_none());
    sheet.apply(effect)
}

/// The new sheet after two effects.
fn after(rt: &impl Abort, alloc: Global, first: &Effect, second: &Effect) -> Result<Sheet, Memory> {
    let mut sheet = opened(alloc)?;
    apply(rt, &mut sheet, first)?;
    apply(rt, &mut sheet, second)?;
    Ok(sheet)
}

/// The entry of a formula into a row of the column.
fn entry(alloc: Global, row: u32, formula: Formula) -> Result<Effect, Memory> {
    let mut puts = Seq::new(alloc);
    puts.push(Put {
        row,
        col: 0,
        content: Content::Formula(formula),
    })?;
    Ok(Effect::Write(puts))
}

/// The formula `=A3`.
fn third_row() -> Formula {
    Formula::new(Expr::Cell(Spot {
        row: 2,
        col: 0,
        abs_row: false,
        abs_col: false,
    }))
}

/// The formula `=A1:A3`.
fn three_rows() -> Formula {
    Formula::new(Expr::Range(Span {
        top: 0,
        left: 0,
        bottom: 2,
        right: 0,
        abs_top: false,
        abs_left: false,
        abs_bottom: false,
        abs_right: false,
    }))
}

/// The formula `=A$2:A3`.
fn last_rows() -> Formula {
    Formula::new(Expr::Range(Span {
        top: 1,
        left: 0,
        bottom: 2,
        right: 0,
        abs_top: true,
        abs_left: false,
        abs_bottom: false,
        abs_right: false,
    }))
}

/// The first and the third row change places.
fn exchange(alloc: Global) -> Result<Effect, Memory> {
    let perm = Perm::from_lists(alloc, &[0, 2], &[2, 0])?;
    Ok(Effect::Move(perm))
}

/// The number of the record in a row, if the row is there.
fn number(sheet: &Sheet, row: u32) -> Option<u32> {
    if row < sheet.size().rows {
        Some(sheet.rec_number(row))
    } else {
        None
    }
}

/// The numbers of the first four rows' records.
fn numbers(sheet: &Sheet) -> [Option<u32>; 4] {
    [
        number(sheet, 0),
        number(sheet, 1),
        number(sheet, 2),
        number(sheet, 3),
    ]
}

/// The row and the column that a formula refers to.
fn cell_of(formula: &Formula) -> Option<(u32, u32)> {
    match formula.expr() {
        Expr::Cell(spot) => Some((spot.row, spot.col)),
        _ => None,
    }
}

/// The first and the last row of the range that a formula is, each with whether it has a `$`.
fn rows_of(formula: &Formula) -> Option<[(u32, bool); 2]> {
    match formula.expr() {
        Expr::Range(span) => Some([(span.top, span.abs_top), (span.bottom, span.abs_bottom)]),
        _ => None,
    }
}

/// The formula in a row, its references by positions.
fn formula_at(sheet: &Sheet, row: u32) -> Result<Option<Formula>, Memory> {
    let size = sheet.size();
    if size.rows <= row || size.cols == 0 {
        return Ok(None);
    }
    match sheet.content(row, 0)? {
        Content::Formula(formula) => Ok(Some(formula)),
        _ => Ok(None),
    }
}

/// The positions that the formula in a row refers to.
fn cell_at(sheet: &Sheet, row: u32) -> Result<Option<(u32, u32)>, Memory> {
    let formula = formula_at(sheet, row)?;
    Ok(formula.as_ref().and_then(cell_of))
}

/// The positions of the first and the last row of the range in a row, each with whether it has a `$`.
fn rows_at(sheet: &Sheet, row: u32) -> Result<Option<[(u32, bool); 2]>, Memory> {
    let formula = formula_at(sheet, row)?;
    Ok(formula.as_ref().and_then(rows_of))
}

#[test]
fn an_insertion_renumbers_no_line(rt: HostRuntime) -> Result<(), Fail> {
    let entry = entry(rt.alloc(), 0, third_row())?;
    let sheet = after(&rt, rt.alloc(), &entry, &Effect::InsRow(1))?;
    assert_eq!(rt; numbers(&sheet), [Some(0), Some(3), Some(1), Some(2)]);
    assert_eq!(rt; sheet.stored(0, 0).and_then(cell_of), Some((2, 0)));
    assert_eq!(rt; cell_at(&sheet, 0)?, Some((3, 0)));
    Ok(())
}

#[test]
fn a_reference_follows_its_record(rt: HostRuntime) -> Result<(), Fail> {
    let entry = entry(rt.alloc(), 1, third_row())?;
    let sheet = after(&rt, rt.alloc(), &entry, &exchange(rt.alloc())?)?;
    assert_eq!(rt; numbers(&sheet), [Some(2), Some(1), Some(0), None]);
    assert_eq!(rt; cell_at(&sheet, 1)?, Some((0, 0)));
    Ok(())
}

#[test]
fn a_range_keeps_its_slots_where_its_end_rows_swap(rt: HostRuntime) -> Result<(), Fail> {
    let entry = entry(rt.alloc(), 1, three_rows())?;
    let sheet = after(&rt, rt.alloc(), &entry, &exchange(rt.alloc())?)?;
    assert_eq!(rt; rows_at(&sheet, 1)?, Some([(0, false), (2, false)]));
    Ok(())
}

#[test]
fn the_stored_ends_of_a_range_ascend_by_number(rt: HostRuntime) -> Result<(), Fail> {
    let entry = entry(rt.alloc(), 0, last_rows())?;
    let sheet = after(&rt, rt.alloc(), &Effect::InsRow(1), &entry)?;
    let stored = sheet.stored(0, 0).and_then(rows_of);
    assert_eq!(rt; stored, Some([(1, false), (3, true)]));
    assert_eq!(rt; rows_at(&sheet, 0)?, Some([(1, true), (2, false)]));
    Ok(())
}

#[test]
fn a_deleted_row_moves_like_others(rt: HostRuntime) -> Result<(), Fail> {
    let sheet = after(&rt, rt.alloc(), &Effect::DelRow(2), &exchange(rt.alloc())?)?;
    assert_eq!(rt; numbers(&sheet), [Some(2), Some(1), Some(0), None]);
    assert_eq!(rt; [sheet.row_seen(0), sheet.row_seen(1)], [None, Some(0)]);
    assert_eq!(rt; [sheet.row_at(0), sheet.row_at(2)], [Some(1), None]);
    Ok(())
}
