ghost use Rattle.std.specs.Prelude.{◌≡◌, map, IsTrue};
ghost use Rattle.formula_tree.specs.Erase.{tree_of};
ghost use Rattle.sheet_ops.specs.Maps.{content_moved, put_moved, intent_moved};
ghost use Rattle.pair_transform.specs.StayingLines.{lines_map, HaveAscendingSlots};
ghost use Rattle.pair_transform.specs.Staying.{HasAscendingSlots, cell_gone, range_gone, tree_gone};

use crate::staying_lines::StayingLines;
use formula_tree::Expr;
use sheet_ops::{Content, Intent, Put};
use ss_base::{Span, Spot};

/// What surely stays where it is on a sheet.
#[derive(Drop)]
pub struct Staying<'a> {
    pub rows: StayingLines<'a>,
    pub cols: StayingLines<'a>,
}

impl Staying<'_> {
    /// Whether an operation surely stays as it is. It takes the time of reading it, and no memory.
    pub fn has_intent(&self, own: &Intent) -> bool
        requires { HasAscendingSlots self.now }
        ensures { IsTrue result → intent_moved (lines_map self.now.rows) (lines_map self.now.cols) own.now ≡ own.now }
    {
        match own {
            Intent::Write(puts) => self.has_puts(puts.as_slice()),
            Intent::InsRow(p) => self.rows.has_slot(*p),
            Intent::InsCol(p) => self.cols.has_slot(*p),
            Intent::DelRow(p) => self.rows.has_record(*p),
            Intent::DelCol(p) => self.cols.has_record(*p),
            Intent::Sort(_, _) => false,
        }
    }

    /// Whether puts surely stay as they are. It takes the time of reading them, and no memory.
    pub fn has_puts(&self, puts: &[Put]) -> bool
        requires { HasAscendingSlots self.now }
        ensures { IsTrue result → map (put_moved (lines_map self.now.rows) (lines_map self.now.cols)) puts.now ≡ puts.now }
    {
        for i in 0..puts.len() {
            if !self.has_put(&puts[i]) {
                return false;
            }
        }
        true
    }

    // Whether a put surely stays as it is: its cell stays, and so do the references of its content.
    fn has_put(&self, put: &Put) -> bool
        requires { HasAscendingSlots self.now }
        ensures { IsTrue result → put_moved (lines_map self.now.rows) (lines_map self.now.cols) put.now ≡ put.now }
    {
        self.rows.has_record(put.row)
            && self.cols.has_record(put.col)
            && self.has_content(&put.content)
    }

    fn has_content(&self, content: &Content) -> bool
        requires { HasAscendingSlots self.now }
        ensures { IsTrue result → content_moved (lines_map self.now.rows) (lines_map self.now.cols) content.now ≡ content.now }
    {
        match content {
            Content::Formula(formula) => tree_stays(self, formula.expr()),
            Content::Empty | Content::Num(_) | Content::Text(_) => true,
        }
    }

    // A reference to a cell goes with its records.
    fn has_cell(&self, spot: &Spot) -> bool
        requires { HasAscendingSlots self.now }
        ensures { IsTrue result → cell_gone self.now spot.now ≡ spot.now }
    {
        self.rows.has_record(spot.row) && self.cols.has_record(spot.col)
    }

    // The ends of a range are slots.
    fn has_range(&self, span: &Span) -> bool
        ensures { IsTrue result → range_gone self.now span.now ≡ span.now }
    {
        self.rows.has_slot(span.top)
            && self.rows.has_slot(span.bottom)
            && self.cols.has_slot(span.left)
            && self.cols.has_slot(span.right)
    }
}

// Whether the references of a tree surely stay as they are.
#[cycle(stays)]
fn tree_stays(staying: &Staying, expr: &Expr) -> bool
    requires { HasAscendingSlots staying.now }
    ensures { IsTrue result → tree_gone staying.now (tree_of expr.now) ≡ tree_of expr.now }
{
    match expr {
        Expr::Num(_) | Expr::Text(_) | Expr::Err(_) => true,
        Expr::Cell(spot) => staying.has_cell(spot),
        Expr::Range(span) => staying.has_range(span),
        Expr::Pre(_, e) => tree_stays(staying, e),
        Expr::Bin(_, d, e) => tree_stays(staying, d) && tree_stays(staying, e),
        Expr::Call(_, args) => trees_stay(staying, args.as_slice()),
    }
}

#[cycle(stays)]
fn trees_stay(staying: &Staying, exprs: &[Expr]) -> bool
    requires { HasAscendingSlots staying.now }
    ensures { IsTrue result → map (λ e. tree_gone staying.now (tree_of e)) exprs.now ≡ map tree_of exprs.now }
{
    for i in 0..exprs.len() {
        if !tree_stays(staying, &exprs[i]) {
            return false;
        }
    }
    true
}
