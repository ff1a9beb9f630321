ghost use Rattle.std.specs.Prelude.{◌≡◌, ◌++◌, OnOk, option_to_list};
ghost use Rattle.std.specs.List.{flat_map};
ghost use Rattle.marked_lines.specs.Marks.{visible_of, span_of};
ghost use Rattle.sheet_grid.specs.Values.{placed_in};
ghost use Rattle.sheet_graph.specs.Areas.{area_at, area_over};
ghost use Rattle.sheet_graph.specs.Placing.{spot_placed, span_placed, stored_areas};

use crate::areas::{Area, Areas};
use crate::placing::{cell_placed, cols_placed, rows_placed};
use formula_tree::Expr;
use sheet_grid::Sheet;
use ss_base::{Memory, Span, Spot};

/// The area of the cell that a stored reference means, unless it is hidden.
fn area_at(sheet: &Sheet, spot: &Spot) -> Option<Area>
    ensures { option_to_list result ≡ area_at (visible_of (placed_in sheet.now).rows (spot_placed sheet.now spot.now).row) (visible_of (placed_in sheet.now).cols (spot_placed sheet.now spot.now).col) }
{
    let place = cell_placed(sheet, spot);
    let row = sheet.row_seen(place.0)?;
    let col = sheet.col_seen(place.1)?;
    Some(Area {
        top: row,
        left: col,
        bottom: row + 1,
        right: col + 1,
    })
}

/// The visible area of the range that a stored reference means, unless there is none.
fn area_over(sheet: &Sheet, span: &Span) -> Option<Area>
    ensures { option_to_list result ≡ area_over (span_of (placed_in sheet.now).rows (span_placed sheet.now span.now).top (span_placed sheet.now span.now).bottom) (span_of (placed_in sheet.now).cols (span_placed sheet.now span.now).left (span_placed sheet.now span.now).right) }
{
    let rows = rows_placed(sheet, span);
    let (top, bottom) = sheet.rows_seen(rows.0, rows.1)?;
    let cols = cols_placed(sheet, span);
    let (left, right) = sheet.cols_seen(cols.0, cols.1)?;
    Some(Area {
        top,
        left,
        bottom: bottom + 1,
        right: right + 1,
    })
}

/// Appends an area, where there is one.
fn push(areas: &mut Areas, area: Option<Area>) -> Result<(), Memory>
    ensures { OnOk result (areas.new.items ≡ areas.old.items ++ option_to_list area) }
{
    if let Some(area) = area {
        areas.push(area)?;
    }
    Ok(())
}

/// Appends the areas that a stored expression refers to, from left to right.
#[cycle(refer)]
pub(crate) fn push_areas(areas: &mut Areas, sheet: &Sheet, expr: &Expr) -> Result<(), Memory>
    ensures { OnOk result (areas.new.items ≡ areas.old.items ++ stored_areas sheet.now expr.now) }
{
    match expr {
        Expr::Cell(spot) => push(areas, area_at(sheet, spot)),
        Expr::Range(span) => push(areas, area_over(sheet, span)),
        Expr::Pre(_, e) => push_areas(areas, sheet, e),
        Expr::Bin(_, d, e) => {
            push_areas(areas, sheet, d)?;
            push_areas(areas, sheet, e)
        }
        Expr::Call(_, args) => push_all(areas, sheet, args.as_slice()),
        _ => Ok(()),
    }
}

/// The same of several expressions.
#[cycle(refer)]
fn push_all(areas: &mut Areas, sheet: &Sheet, exprs: &[Expr]) -> Result<(), Memory>
    ensures { OnOk result (areas.new.items ≡ areas.old.items ++ flat_map (stored_areas sheet.now) exprs.now) }
{
    for e in exprs {
        push_areas(areas, sheet, e)?;
    }
    Ok(())
}
