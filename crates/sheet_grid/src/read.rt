ghost use Rattle.std.specs.Prelude.{◌≡◌, ◌<◌, length, slice_index, None, Some, unwrap_or, IfOk, IfSome, IfNone};
ghost use Rattle.sheet_ops.specs.Placed.{cell_at};
ghost use Rattle.sheet_ops.specs.Fits.{ContentFits};
ghost use Rattle.sheet_ops.specs.declared.content.Content.TheVariants as content;
ghost use Rattle.sheet_grid.specs.Cells.{kind_of, formula_of, filled_places, occupied_places};
ghost use Rattle.sheet_grid.specs.Kept.{held};
ghost use Rattle.sheet_grid.specs.Numbering.{content_placed};
ghost use Rattle.sheet_grid.specs.Values.{placed_in, stored_at};

use crate::axis::AxisLines;
use crate::filled::{filled_columns, occupied_columns};
use crate::numbering::content_placed;
use crate::row::{formula_in, kind_in};
use crate::{Kind, Sheet};
use formula_tree::Formula;
use sheet_ops::Content;
use ss_base::Memory;
use std::collections::BTreeMap;

impl Sheet {
    /// What kind of content a cell holds, by its position. It takes time with the logarithm of the
    /// row's filled cells.
    pub fn kind(&self, row: u32, col: u32) -> Kind
        requires row { row < length (placed_in self.now).rows }
        requires col { col < length (placed_in self.now).cols }
        ensures { result ≡ kind_of (cell_at (placed_in self.now) row col) }
    {
        let cells = &self.cells[self.rows.rec_number(row) as usize];
        kind_in(cells, self.cols.rec_number(col))
    }

    /// A copy of what a cell holds, by its position, with its references by positions. It takes
    /// time with the logarithm of the row's filled cells, and with the content.
    pub fn content(&self, row: u32, col: u32) -> Result<Content, Memory>
        requires row { row < length (placed_in self.now).rows }
        requires col { col < length (placed_in self.now).cols }
        ensures cell { IfOk result (λ c. c ≡ cell_at (placed_in self.now) row col) }
        // It is the stored content with its numbers replaced by positions.
        ensures stored { IfOk result (λ c. c ≡ content_placed self.now.rows self.now.cols
            (stored_at self.now.cells (slice_index self.now.rows.recs row) (slice_index self.now.cols.recs col))) }
    {
        let cells = &self.cells[self.rows.rec_number(row) as usize];
        content_in(&self.rows, &self.cols, cells, self.cols.rec_number(col))
    }

    /// The formula in the cell of a row's record and a column, both by number, with its references
    /// by numbers: a cell by its row's record and its column, a range by row slots and columns, of
    /// which the two numbers ascend, each with its own `$`. `None` exactly where the cell has no
    /// formula. It takes time with the logarithm of the row's filled cells.
    pub fn stored(&self, rec: u32, col: u32) -> Option<&Formula>
        ensures formula { IfSome result (λ f. stored_at self.now.cells rec col ≡ content.Formula f.now) }
        ensures none { IfNone result (formula_of (stored_at self.now.cells rec col) ≡ None) }
    {
        let Some(cells) = self.cells.get(rec as usize) else {
            return None;
        };
        formula_in(cells, col)
    }

    /// The positions, ascending, of the visible columns whose cell in a row isn't empty, by the
    /// row's position. It takes time with the row's filled cells and their logarithm.
    pub fn filled(&self, row: u32) -> Result<Vec<u32>, Memory>
        requires { row < length (placed_in self.now).rows }
        ensures { IfOk result (λ v. v.items ≡ filled_places (placed_in self.now) row) }
    {
        let cells = &self.cells[self.rows.rec_number(row) as usize];
        filled_columns(*self.cells.allocator(), &self.cols, cells)
    }

    /// The positions, ascending, of all columns, hidden ones too, whose cell in a row isn't empty, by
    /// the row's position. It takes time with the row's filled cells and their logarithm.
    pub fn occupied(&self, row: u32) -> Result<Vec<u32>, Memory>
        requires { row < length (placed_in self.now).rows }
        ensures { IfOk result (λ v. v.items ≡ occupied_places (placed_in self.now) row) }
    {
        let cells = &self.cells[self.rows.rec_number(row) as usize];
        occupied_columns(*self.cells.allocator(), &self.cols, cells)
    }
}

/// A copy of what the cell of a column holds, its references by positions.
fn content_in(
    rows: &AxisLines,
    cols: &AxisLines,
    cells: &BTreeMap<u32, Content>,
    col: u32,
) -> Result<Content, Memory>
    requires { ContentFits (record { rows = length rows.now.slots; cols = length cols.now.slots }) (unwrap_or (held cells.now col) content.Empty) }
    ensures { IfOk result (λ c. c ≡ content_placed rows.now cols.now (unwrap_or (held cells.now col) content.Empty)) }
{
    match cells.get(&col) {
        Some(what) => content_placed(rows, cols, what),
        None => Ok(Content::Empty),
    }
}
