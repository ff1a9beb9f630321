ghost use Rattle.std.specs.Prelude.{◌≡◌, map as map_list};
ghost use Rattle.formula_tree.specs.Erase.{tree_of};
ghost use Rattle.formula_tree.specs.Remap.{Images, mapped, remap_spot, remap_span, cell_or_lost, range_or_lost};

use crate::expression::Expr;
use cell_addr::span_between;
use ss_base::{CalcErr, Seq, Span, Spot};

/// What becomes of the rows and columns that a formula refers to. `None` is one that is gone.
pub trait Remap {
    /// The four calls as one record of functions.
    ghost images: { Self → Images };

    /// The row of a reference to one cell.
    fn rec_row(&self, row: u32) -> Option<u32>
        ensures { result ≡ (images self.now).rec_row row };

    /// The column of a reference to one cell.
    fn rec_col(&self, col: u32) -> Option<u32>
        ensures { result ≡ (images self.now).rec_col col };

    /// The first and the last row of a range. They may come out of order.
    fn span_rows(&self, top: u32, bottom: u32) -> Option<(u32, u32)>
        ensures { result ≡ (images self.now).span_rows top bottom };

    /// The first and the last column of a range. They may come out of order.
    fn span_cols(&self, left: u32, right: u32) -> Option<(u32, u32)>
        ensures { result ≡ (images self.now).span_cols left right };
}

/// The image of a reference to a cell, or the lost one.
fn remapped_cell<M: Remap>(spot: Spot, map: &M) -> Expr
    ensures { tree_of result ≡ cell_or_lost (remap_spot (M.images map.now) spot) }
{
    let Some(row) = map.rec_row(spot.row) else {
        return Expr::Err(CalcErr::Lost);
    };
    let Some(col) = map.rec_col(spot.col) else {
        return Expr::Err(CalcErr::Lost);
    };
    Expr::Cell(Spot {
        row,
        col,
        abs_row: spot.abs_row,
        abs_col: spot.abs_col,
    })
}

/// The image of a range, its ends in order, or the lost one.
fn remapped_range<M: Remap>(span: Span, map: &M) -> Expr
    ensures { tree_of result ≡ range_or_lost (remap_span (M.images map.now) span) }
{
    let Some((top, bottom)) = map.span_rows(span.top, span.bottom) else {
        return Expr::Err(CalcErr::Lost);
    };
    let Some((left, right)) = map.span_cols(span.left, span.right) else {
        return Expr::Err(CalcErr::Lost);
    };
    let first = Spot {
        row: top,
        col: left,
        abs_row: span.abs_top,
        abs_col: span.abs_left,
    };
    let last = Spot {
        row: bottom,
        col: right,
        abs_row: span.abs_bottom,
        abs_col: span.abs_right,
    };
    Expr::Range(span_between(first, last))
}

/// Replaces each reference by its image, in place.
#[cycle(remap)]
pub fn remap_expr<M: Remap>(expr: &mut Expr, map: &M)
    ensures { tree_of expr.new ≡ mapped (M.images map.now) (tree_of expr.old) }
{
    match expr {
        Expr::Num(_) => {}
        Expr::Text(_) => {}
        Expr::Err(_) => {}
        Expr::Cell(c) => {
            let spot = *c;
            *expr = remapped_cell(spot, map);
        }
        Expr::Range(r) => {
            let span = *r;
            *expr = remapped_range(span, map);
        }
        Expr::Pre(_, e) => remap_expr(e, map),
        Expr::Bin(_, d, e) => {
            remap_expr(d, map);
            remap_expr(e, map);
        }
        Expr::Call(_, args) => remap_args(args, map),
    }
}

/// The same of each argument.
#[cycle(remap)]
fn remap_args<M: Remap>(args: &mut Seq<Expr>, map: &M)
    ensures { map_list tree_of args.new ≡ map_list (λ e. mapped (M.images map.now) (tree_of e)) args.old }
{
    let mut items = args.take_vec();
    remap_all(items.as_mut_slice(), map);
    *args = Seq::from_vec(items);
}

/// The same of each.
#[cycle(remap)]
fn remap_all<M: Remap>(exprs: &mut [Expr], map: &M)
    ensures { map_list tree_of exprs.new ≡ map_list (λ e. mapped (M.images map.now) (tree_of e)) exprs.old }
{
    for i in 0..exprs.len() {
        remap_expr(&mut exprs[i], map);
    }
}
