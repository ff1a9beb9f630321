ghost use Rattle.std.specs.Prelude.{◌≡◌, ◌≢◌, ◌≤◌, ◌<◌, ◌*◌, ◌++◌, ◌&&◌, true, [], Ok, Err, All, IfOk, IfErr, OnOk, length, map};
ghost use Rattle.formula_tree.specs.Erase.{tree_of};
ghost use Rattle.formula_tree.specs.Remap.{remap_tree, cell_or_lost, range_or_lost};
ghost use Rattle.marked_lines.specs.Marks.{visible_count};
ghost use Rattle.sheet_grid.specs.Values.{placed_in};
ghost use Rattle.sheet_ops.specs.declared.edit.Edit.TheVariants as edit;
ghost use Rattle.sheet_ops.specs.Fits.{IntentFits};
ghost use Rattle.sheet_ops.specs.Placed.{placed_size, cell_at};
ghost use Rattle.author_ops.specs.Copies.{are_seen, line_count};
ghost use Rattle.author_ops.specs.Placed.{cell_shifted, range_shifted, content_shifted, put_shifted, puts_shifted, puts_by, copy_by};
ghost use Rattle.author_ops.specs.Edits.{Denotes};

use crate::axis::{Dimension, Shift, are_seen, ends_copied, line_copied, line_count, line_pairs};
use crate::edits::light;
use cell_addr::span_between;
use formula_tree::{Expr, Formula};
use sheet_grid::Sheet;
use sheet_ops::{Content, EditErr, Intent, Put};
use ss_base::{CalcErr, Memory, Seq, Span, Spot};
use std::alloc::Global;

/// How many cells a copy has at most.
const MOST_CELLS: u32 = 128;

/// What copying the cells of a range, whose first cell goes to another one, denotes: what the shown text
/// of each, with the parts of its references that have no `$` shifted as far, would denote when typed.
/// `OutOfSheet` comes exactly where a source or a target isn't in the visible sheet, else `CopyLarge`
/// exactly above 128 cells, else `Heavy` exactly where the operation's weight is above 512. It takes
/// time with what is copied, and for each cell and reference the logarithm of the lines.
pub fn copy(alloc: Global, sheet: &Sheet, from: &Span, to: &Spot) -> Result<Intent, EditErr>
    requires rows { from.now.top ≤ from.now.bottom }
    requires cols { from.now.left ≤ from.now.right }
    ensures intent { IfOk result (λ op. Denotes (placed_in sheet.now) (edit.Copy from.now to.now) [] (Ok op)) }
    ensures cause { IfErr result (λ e. e ≢ EditErr.Memory → Denotes (placed_in sheet.now) (edit.Copy from.now to.now) [] (Err e)) }
    ensures fits { IfOk result (IntentFits (placed_size (placed_in sheet.now))) }
{
    copied(alloc, sheet, from, to)
}

/// The same by positions.
fn copied(alloc: Global, sheet: &Sheet, from: &Span, to: &Spot) -> Result<Intent, EditErr>
    requires rows { from.now.top ≤ from.now.bottom }
    requires cols { from.now.left ≤ from.now.right }
    ensures intent { IfOk result (λ op. copy_by (placed_in sheet.now) from.now to.now ≡ Ok op) }
    ensures cause { IfErr result (λ e. e ≢ EditErr.Memory → copy_by (placed_in sheet.now) from.now to.now ≡ Err e) }
{
    if !is_inside(sheet, from, to) {
        return Err(EditErr::OutOfSheet);
    }
    let cells = cell_count(sheet, from);
    if cells > MOST_CELLS {
        return Err(EditErr::CopyLarge(cells));
    }
    light(Intent::Write(puts_of(alloc, sheet, from, to)?))
}

/// Whether all sources and targets are in the visible sheet.
fn is_inside(sheet: &Sheet, from: &Span, to: &Spot) -> bool
    requires rows { from.now.top ≤ from.now.bottom }
    requires cols { from.now.left ≤ from.now.right }
    ensures { result ≡ are_seen (placed_in sheet.now).rows from.now.top from.now.bottom to.now.row && are_seen (placed_in sheet.now).cols from.now.left from.now.right to.now.col }
{
    are_seen(sheet, Dimension::Rows, from.top, from.bottom, to.row)
        && are_seen(sheet, Dimension::Cols, from.left, from.right, to.col)
}

/// How many cells a range of the visible sheet has.
fn cell_count(sheet: &Sheet, from: &Span) -> u32
    requires rows { from.now.top ≤ from.now.bottom }
    requires cols { from.now.left ≤ from.now.right }
    requires seen_rows { from.now.bottom < visible_count (placed_in sheet.now).rows }
    requires seen_cols { from.now.right < visible_count (placed_in sheet.now).cols }
    ensures { result ≡ line_count from.now.top from.now.bottom * line_count from.now.left from.now.right }
{
    let rows = line_count(sheet, Dimension::Rows, from.top, from.bottom);
    let cols = line_count(sheet, Dimension::Cols, from.left, from.right);
    rows * cols
}

/// A copy out of a sheet, by how much its rows and columns are shifted.
#[derive(Drop)]
struct Copying<'a> {
    sheet: &'a Sheet,
    rows: Shift,
    cols: Shift,
}

/// The cells row by row, each with what is copied into it.
fn puts_of(alloc: Global, sheet: &Sheet, from: &Span, to: &Spot) -> Result<Seq<Put>, Memory>
    requires rows { from.now.top ≤ from.now.bottom }
    requires cols { from.now.left ≤ from.now.right }
    requires seen_rows { are_seen (placed_in sheet.now).rows from.now.top from.now.bottom to.now.row ≡ true }
    requires seen_cols { are_seen (placed_in sheet.now).cols from.now.left from.now.right to.now.col ≡ true }
    ensures { IfOk result (λ puts. puts ≡ puts_by (placed_in sheet.now) from.now to.now) }
{
    let height = line_count(sheet, Dimension::Rows, from.top, from.bottom);
    let width = line_count(sheet, Dimension::Cols, from.left, from.right);
    let rows = line_pairs(alloc, sheet, Dimension::Rows, from.top, to.row, height)?;
    let cols = line_pairs(alloc, sheet, Dimension::Cols, from.left, to.col, width)?;
    let copying = Copying {
        sheet,
        rows: Shift {
            from: from.top,
            to: to.row,
        },
        cols: Shift {
            from: from.left,
            to: to.col,
        },
    };
    puts_between(alloc, &copying, &rows, &cols)
}

/// The cells of some rows and columns, each with its target.
fn puts_between(
    alloc: Global,
    copying: &Copying<'_>,
    rows: &[(u32, u32)],
    cols: &[(u32, u32)],
) -> Result<Seq<Put>, Memory>
    requires rows { All (λ r. r.0 < length (placed_in copying.now.sheet.now).rows) rows.now }
    requires cols { All (λ c. c.0 < length (placed_in copying.now.sheet.now).cols) cols.now }
    ensures { IfOk result (λ puts. puts ≡ puts_shifted (placed_in copying.now.sheet.now) copying.now.rows copying.now.cols rows.now cols.now) }
{
    let mut puts = Seq::new(alloc);
    for row in rows {
        push_row(&mut puts, copying, *row, cols)?;
    }
    Ok(puts)
}

/// Puts the cells of a row behind the others.
fn push_row(
    puts: &mut Seq<Put>,
    copying: &Copying<'_>,
    row: (u32, u32),
    cols: &[(u32, u32)],
) -> Result<(), Memory>
    requires row { row.0 < length (placed_in copying.now.sheet.now).rows }
    requires cols { All (λ c. c.0 < length (placed_in copying.now.sheet.now).cols) cols.now }
    ensures { OnOk result (puts.new ≡ puts.old ++ map (put_shifted (placed_in copying.now.sheet.now) copying.now.rows copying.now.cols row) cols.now) }
{
    for col in cols {
        let content = content_copied(copying, row.0, col.0)?;
        puts.push(Put {
            row: row.1,
            col: col.1,
            content,
        })?;
    }
    Ok(())
}

/// What a cell holds, as it is copied.
fn content_copied(copying: &Copying<'_>, row: u32, col: u32) -> Result<Content, Memory>
    requires row { row < length (placed_in copying.now.sheet.now).rows }
    requires col { col < length (placed_in copying.now.sheet.now).cols }
    ensures { IfOk result (λ c. c ≡ content_shifted (placed_in copying.now.sheet.now) copying.now.rows copying.now.cols (cell_at (placed_in copying.now.sheet.now) row col)) }
{
    let content = copying.sheet.content(row, col)?;
    Ok(shifted_content(copying, content))
}

fn shifted_content(copying: &Copying<'_>, content: Content) -> Content
    ensures { result ≡ content_shifted (placed_in copying.now.sheet.now) copying.now.rows copying.now.cols content }
{
    match content {
        Content::Empty => Content::Empty,
        Content::Num(n) => Content::Num(n),
        Content::Text(text) => Content::Text(text),
        Content::Formula(formula) => Content::Formula(shifted_formula(copying, formula)),
    }
}

/// A formula with each of its references where it is copied, or the lost one.
fn shifted_formula(copying: &Copying<'_>, formula: Formula) -> Formula
    ensures { result ≡ remap_tree (cell_shifted (placed_in copying.now.sheet.now) copying.now.rows copying.now.cols) (range_shifted (placed_in copying.now.sheet.now) copying.now.rows copying.now.cols) formula }
{
    // No position is above the size.
    let _size = copying.sheet.size();
    let mut expr = formula.into_expr();
    shift_expr(&mut expr, copying);
    Formula::new(expr)
}

/// The same in place.
#[cycle(shift)]
fn shift_expr(expr: &mut Expr, copying: &Copying<'_>)
    ensures { tree_of expr.new ≡ remap_tree (cell_shifted (placed_in copying.now.sheet.now) copying.now.rows copying.now.cols) (range_shifted (placed_in copying.now.sheet.now) copying.now.rows copying.now.cols) (tree_of expr.old) }
{
    match expr {
        Expr::Num(_) | Expr::Text(_) | Expr::Err(_) => {}
        Expr::Cell(c) => {
            let spot = *c;
            *expr = shifted_cell(copying, spot);
        }
        Expr::Range(r) => {
            let span = *r;
            *expr = shifted_range(copying, span);
        }
        Expr::Pre(_, e) => shift_expr(e, copying),
        Expr::Bin(_, d, e) => {
            shift_expr(d, copying);
            shift_expr(e, copying);
        }
        Expr::Call(_, args) => shift_args(args, copying),
    }
}

#[cycle(shift)]
fn shift_args(args: &mut Seq<Expr>, copying: &Copying<'_>)
    ensures { map tree_of args.new ≡ map (λ e. remap_tree (cell_shifted (placed_in copying.now.sheet.now) copying.now.rows copying.now.cols) (range_shifted (placed_in copying.now.sheet.now) copying.now.rows copying.now.cols) (tree_of e)) args.old }
{
    let mut items = args.take_vec();
    shift_all(items.as_mut_slice(), copying);
    *args = Seq::from_vec(items);
}

#[cycle(shift)]
fn shift_all(exprs: &mut [Expr], copying: &Copying<'_>)
    ensures { map tree_of exprs.new ≡ map (λ e. remap_tree (cell_shifted (placed_in copying.now.sheet.now) copying.now.rows copying.now.cols) (range_shifted (placed_in copying.now.sheet.now) copying.now.rows copying.now.cols) (tree_of e)) exprs.old }
{
    for i in 0..exprs.len() {
        shift_expr(&mut exprs[i], copying);
    }
}

/// Where a reference to a cell is copied.
fn shifted_cell(copying: &Copying<'_>, spot: Spot) -> Expr
    ensures { tree_of result ≡ cell_or_lost (cell_shifted (placed_in copying.now.sheet.now) copying.now.rows copying.now.cols spot) }
{
    let sheet = copying.sheet;
    let Some(row) = line_copied(sheet, Dimension::Rows, copying.rows, spot.abs_row, spot.row) else {
        return Expr::Err(CalcErr::Lost);
    };
    let Some(col) = line_copied(sheet, Dimension::Cols, copying.cols, spot.abs_col, spot.col) else {
        return Expr::Err(CalcErr::Lost);
    };
    Expr::Cell(Spot {
        row,
        col,
        abs_row: spot.abs_row,
        abs_col: spot.abs_col,
    })
}

/// Where a range is copied, its ends in order.
fn shifted_range(copying: &Copying<'_>, span: Span) -> Expr
    ensures { tree_of result ≡ range_or_lost (range_shifted (placed_in copying.now.sheet.now) copying.now.rows copying.now.cols span) }
{
    let sheet = copying.sheet;
    let abs = (span.abs_top, span.abs_bottom);
    let Some(rows) = ends_copied(
        sheet,
        Dimension::Rows,
        copying.rows,
        abs,
        span.top,
        span.bottom,
    ) else {
        return Expr::Err(CalcErr::Lost);
    };
    let abs = (span.abs_left, span.abs_right);
    let Some(cols) = ends_copied(
        sheet,
        Dimension::Cols,
        copying.cols,
        abs,
        span.left,
        span.right,
    ) else {
        return Expr::Err(CalcErr::Lost);
    };
    let first = Spot {
        row: rows.0,
        col: cols.0,
        abs_row: span.abs_top,
        abs_col: span.abs_left,
    };
    let last = Spot {
        row: rows.1,
        col: cols.1,
        abs_row: span.abs_bottom,
        abs_col: span.abs_right,
    };
    Expr::Range(span_between(first, last))
}
