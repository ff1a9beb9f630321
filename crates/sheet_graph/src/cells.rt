ghost use Rattle.std.specs.Prelude.{◌≡◌, ◌++◌, false, IfOk, IfSome, IfNone, OnOk, option_to_list};
ghost use Rattle.marked_lines.specs.Marks.{visible_of};
ghost use Rattle.sheet_grid.specs.Values.{placed_in};
ghost use Rattle.sheet_grid.specs.Cells.{visible_size};
ghost use Rattle.sheet_ops.specs.declared.content.Content.TheVariants as content;
ghost use Rattle.sheet_graph.specs.Graphs.{is_formula_content, content_seen, HoldsFilled};
ghost use Rattle.sheet_graph.specs.Placing.{tree_placed};

use formula_tree::Formula;
use sheet_grid::Sheet;
use ss_base::Memory;
use std::alloc::Global;

/// The formula in the cell at a visible index as its sheet stores it, and `None` exactly where the
/// cell has no formula.
pub(crate) fn formula_seen(sheet: &Sheet, row: u32, col: u32) -> Option<&Formula>
    ensures formula { IfSome result (λ f. content_seen (placed_in sheet.now) row col ≡ content.Formula (tree_placed sheet.now f.now)) }
    ensures none { IfNone result (is_formula_content (content_seen (placed_in sheet.now) row col) ≡ false) }
{
    // Its numbers and positions lead to each other.
    let _size = sheet.size();
    let p = sheet.row_at(row)?;
    let q = sheet.col_at(col)?;
    sheet.stored(sheet.rec_number(p), sheet.col_number(q))
}

/// Adds the visible index of a column, where it is visible.
fn push_seen(seen: &mut Vec<u32>, sheet: &Sheet, col: u32) -> Result<(), Memory>
    ensures { OnOk result (seen.new.items ≡ seen.old.items ++ option_to_list (visible_of (placed_in sheet.now).cols col)) }
{
    if let Some(visible) = sheet.col_seen(col) {
        seen.push(visible)?;
    }
    Ok(())
}

/// The visible indexes of the columns whose cells in a visible row aren't empty, each once. It takes
/// time with their number and its logarithm.
pub fn filled_in_row(alloc: Global, sheet: &Sheet, row: u32) -> Result<Vec<u32>, Memory>
    ensures { IfOk result (λ cols. HoldsFilled (placed_in sheet.now) row (visible_size (placed_in sheet.now)).cols cols.items) }
{
    let Some(place) = sheet.row_at(row) else {
        return Ok(Vec::new(alloc));
    };
    let places = sheet.filled(place)?;
    let mut seen = Vec::with_capacity(alloc, places.len())?;
    for col in &places {
        push_seen(&mut seen, sheet, *col)?;
    }
    Ok(seen)
}
