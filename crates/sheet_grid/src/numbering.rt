ghost use Rattle.std.specs.Prelude.{◌≡◌, ◌<◌, length, IfOk};
ghost use Rattle.ss_base.specs.declared.types.Size.{Size};
ghost use Rattle.formula_tree.specs.Remap.{mapped};
ghost use Rattle.sheet_ops.specs.Fits.{ContentFits};
ghost use Rattle.sheet_grid.specs.Kept.{content_numbered};
ghost use Rattle.sheet_grid.specs.Numbering.{IsAxis, HasOrderedRanges, numbering, placing, content_placed, put_numbered};

use crate::axis::AxisLines;
use formula_tree::{Formula, Remap, rename};
use sheet_ops::{Content, Put};
use ss_base::Memory;

/// The numbers of what stands at positions.
#[derive(Drop)]
struct Numbering<'a> {
    rows: &'a AxisLines,
    cols: &'a AxisLines,
}

impl Remap for Numbering<'_> {
    ghost images = { λ n. numbering n.rows.now n.cols.now };

    fn rec_row(&self, row: u32) -> Option<u32> {
        self.rows.rec_at(row)
    }

    fn rec_col(&self, col: u32) -> Option<u32> {
        self.cols.rec_at(col)
    }

    fn span_rows(&self, top: u32, bottom: u32) -> Option<(u32, u32)> {
        let top = self.rows.slot_at(top)?;
        let bottom = self.rows.slot_at(bottom)?;
        Some((top, bottom))
    }

    fn span_cols(&self, left: u32, right: u32) -> Option<(u32, u32)> {
        let left = self.cols.slot_at(left)?;
        let right = self.cols.slot_at(right)?;
        Some((left, right))
    }
}

/// The positions where what has these numbers stands.
#[derive(Drop)]
struct Placing<'a> {
    rows: &'a AxisLines,
    cols: &'a AxisLines,
}

impl Remap for Placing<'_> {
    ghost images = { λ n. placing n.rows.now n.cols.now };

    fn rec_row(&self, row: u32) -> Option<u32> {
        self.rows.rec_place(row)
    }

    fn rec_col(&self, col: u32) -> Option<u32> {
        self.cols.rec_place(col)
    }

    fn span_rows(&self, top: u32, bottom: u32) -> Option<(u32, u32)> {
        let top = self.rows.slot_place(top)?;
        let bottom = self.rows.slot_place(bottom)?;
        Some((top, bottom))
    }

    fn span_cols(&self, left: u32, right: u32) -> Option<(u32, u32)> {
        let left = self.cols.slot_place(left)?;
        let right = self.cols.slot_place(right)?;
        Some((left, right))
    }
}

/// A formula with its references by positions.
fn formula_placed(rows: &AxisLines, cols: &AxisLines, formula: &Formula) -> Result<Formula, Memory>
    ensures value { IfOk result (λ f. f ≡ mapped (placing rows.now cols.now) formula.now) }
{
    // No position is above the size.
    let (_rows, _cols) = (rows.len(), cols.len());
    let mut copy = formula.copy()?;
    rename(&mut copy, &Placing { rows, cols });
    Ok(copy)
}

/// A content with its references by positions.
pub fn content_placed(
    rows: &AxisLines,
    cols: &AxisLines,
    content: &Content,
) -> Result<Content, Memory>
    requires { ContentFits (record { rows = length rows.now.slots; cols = length cols.now.slots }) content.now }
    ensures { IfOk result (λ c. c ≡ content_placed rows.now cols.now content.now) }
{
    match content {
        Content::Empty => Ok(Content::Empty),
        Content::Num(n) => Ok(Content::Num(*n)),
        Content::Text(text) => Ok(Content::Text(text.copy()?)),
        Content::Formula(formula) => Ok(Content::Formula(formula_placed(rows, cols, formula)?)),
    }
}

/// A formula with its references by numbers.
fn formula_numbered(
    rows: &AxisLines,
    cols: &AxisLines,
    formula: &Formula,
) -> Result<Formula, Memory>
    requires rows { IsAxis rows.now }
    requires cols { IsAxis cols.now }
    ensures value { IfOk result (λ f. f ≡ mapped (numbering rows.now cols.now) formula.now) }
{
    let mut copy = formula.copy()?;
    rename(&mut copy, &Numbering { rows, cols });
    Ok(copy)
}

/// A content with its references by numbers.
pub fn content_numbered(
    rows: &AxisLines,
    cols: &AxisLines,
    content: &Content,
) -> Result<Content, Memory>
    requires rows { IsAxis rows.now }
    requires cols { IsAxis cols.now }
    requires fits { ContentFits (record { rows = length rows.now.slots; cols = length cols.now.slots }) content.now }
    ensures value { IfOk result (λ c. c ≡ content_numbered rows.now cols.now content.now) }
    ensures ordered { IfOk result (λ c. HasOrderedRanges content.now) }
{
    match content {
        Content::Empty => Ok(Content::Empty),
        Content::Num(n) => Ok(Content::Num(*n)),
        Content::Text(text) => Ok(Content::Text(text.copy()?)),
        Content::Formula(formula) => {
            let _ordered = formula.expr();
            Ok(Content::Formula(formula_numbered(rows, cols, formula)?))
        }
    }
}

/// A put with its cell, and the references of its content, by numbers.
pub fn put_numbered(rows: &AxisLines, cols: &AxisLines, put: &Put) -> Result<Put, Memory>
    requires rows { IsAxis rows.now }
    requires cols { IsAxis cols.now }
    requires row { put.now.row < length rows.now.slots }
    requires col { put.now.col < length cols.now.slots }
    requires fits { ContentFits (record { rows = length rows.now.slots; cols = length cols.now.slots }) put.now.content }
    ensures value { IfOk result (λ p. p ≡ put_numbered rows.now cols.now put.now) }
    ensures row { IfOk result (λ p. p.row < length rows.now.slots) }
    ensures ordered { IfOk result (λ p. HasOrderedRanges put.now.content) }
{
    let content = content_numbered(rows, cols, &put.content)?;
    Ok(Put {
        row: rows.rec_number(put.row),
        col: cols.rec_number(put.col),
        content,
    })
}
