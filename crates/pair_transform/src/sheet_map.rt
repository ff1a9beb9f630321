ghost use Rattle.std.specs.Prelude.{◌≡◌, ◌-◌, ◌^◌, ◌<◌, All, IfOk, map};
ghost use Rattle.formula_tree.specs.Remap.{mapped};
ghost use Rattle.formula_tree.specs.WellFormed.{IsFormula};
ghost use Rattle.sheet_ops.specs.Fits.{ContentFits, PutsFit, IntentFits};
ghost use Rattle.sheet_ops.specs.Maps.{content_moved, put_moved, intent_moved};
ghost use Rattle.pair_transform.specs.AxisMaps.{line_map};
ghost use Rattle.pair_transform.specs.SheetMaps.{IsSheetMap, images_of};

use crate::axis_map::AxisMap;
use formula_tree::{Formula, Remap, rename};
use sheet_ops::{Content, Intent, Put};
use ss_base::{Memory, Seq, Size};

/// Where the positions of a sheet of this size go.
#[derive(Drop)]
pub struct SheetMap<'a> {
    pub size: Size,
    pub rows: AxisMap<'a>,
    pub cols: AxisMap<'a>,
}

// Positions outside the sheet have no image.
impl Remap for SheetMap<'_> {
    ghost images = { images_of };

    fn rec_row(&self, row: u32) -> Option<u32> {
        if row < self.size.rows {
            Some(self.rows.rec(row))
        } else {
            None
        }
    }

    fn rec_col(&self, col: u32) -> Option<u32> {
        if col < self.size.cols {
            Some(self.cols.rec(col))
        } else {
            None
        }
    }

    fn span_rows(&self, top: u32, bottom: u32) -> Option<(u32, u32)> {
        if top < self.size.rows && bottom < self.size.rows {
            Some((self.rows.slot(top), self.rows.slot(bottom)))
        } else {
            None
        }
    }

    fn span_cols(&self, left: u32, right: u32) -> Option<(u32, u32)> {
        if left < self.size.cols && right < self.size.cols {
            Some((self.cols.slot(left), self.cols.slot(right)))
        } else {
            None
        }
    }
}

impl SheetMap<'_> {
    /// The intent with its positions where they went, and nothing else changed. A new line goes with
    /// the slot before which it stands. It takes the time of copying the intent.
    pub fn intent(&self, intent: &Intent) -> Result<Intent, Memory>
        requires map { IsSheetMap self.now }
        requires fits { IntentFits self.now.size intent.now }
        ensures { IfOk result (λ c. c ≡ intent_moved (line_map self.now.rows) (line_map self.now.cols) intent.now) }
    {
        match intent {
            Intent::Write(puts) => Ok(Intent::Write(self.puts(puts)?)),
            Intent::InsRow(p) => Ok(Intent::InsRow(self.rows.slot(*p))),
            Intent::InsCol(p) => Ok(Intent::InsCol(self.cols.slot(*p))),
            Intent::DelRow(p) => Ok(Intent::DelRow(self.rows.rec(*p))),
            Intent::DelCol(p) => Ok(Intent::DelCol(self.cols.rec(*p))),
            Intent::Sort(slots, recs) => {
                let slots = slots_moved(&self.rows, slots)?;
                Ok(Intent::Sort(slots, recs_moved(&self.rows, recs)?))
            }
        }
    }

    /// Each put in its cell and with its references where they went, in the same order.
    pub fn puts(&self, puts: &Seq<Put>) -> Result<Seq<Put>, Memory>
        requires map { IsSheetMap self.now }
        requires fit { PutsFit self.now.size puts.now }
        ensures { IfOk result (λ s. s ≡ map (put_moved (line_map self.now.rows) (line_map self.now.cols)) puts.now) }
    {
        let mut moved = puts.empty_beside();
        for put in puts.as_slice() {
            let content = self.content(&put.content)?;
            moved.push(Put {
                row: self.rows.rec(put.row),
                col: self.cols.rec(put.col),
                content,
            })?;
        }
        Ok(moved)
    }

    // The content with its references where they went.
    fn content(&self, content: &Content) -> Result<Content, Memory>
        requires map { IsSheetMap self.now }
        requires fits { ContentFits self.now.size content.now }
        ensures { IfOk result (λ c. c ≡ content_moved (line_map self.now.rows) (line_map self.now.cols) content.now) }
    {
        match content {
            Content::Formula(formula) => Ok(Content::Formula(self.formula(formula)?)),
            _ => content.copy(),
        }
    }

    // The formula with its references where they went.
    fn formula(&self, formula: &Formula) -> Result<Formula, Memory>
        requires { IsSheetMap self.now }
        ensures value { IfOk result (λ f. f ≡ mapped (images_of self.now) formula.now) }
        ensures formula { IsFormula formula.now }
    {
        // Its ranges are in order.
        let _expr = formula.expr();
        let mut moved = formula.copy()?;
        rename(&mut moved, self);
        Ok(moved)
    }
}

// Each slot where it went, in the same order.
fn slots_moved(rows: &AxisMap, slots: &Seq<u32>) -> Result<Seq<u32>, Memory>
    requires { All (λ p. p < 2 ^ 32 - 1) slots.now }
    ensures { IfOk result (λ s. s ≡ map (line_map rows.now).slot slots.now) }
{
    let mut moved = slots.empty_beside();
    for slot in slots.as_slice() {
        moved.push(rows.slot(*slot))?;
    }
    Ok(moved)
}

// Each record where it went, in the same order.
fn recs_moved(rows: &AxisMap, recs: &Seq<u32>) -> Result<Seq<u32>, Memory>
    requires { All (λ p. p < 2 ^ 32 - 1) recs.now }
    ensures { IfOk result (λ s. s ≡ map (line_map rows.now).rec recs.now) }
{
    let mut moved = recs.empty_beside();
    for rec in recs.as_slice() {
        moved.push(rows.rec(*rec))?;
    }
    Ok(moved)
}
