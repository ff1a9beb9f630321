ghost use Rattle.std.specs.Prelude.{◌≡◌, ◌<◌, ◌≤◌, ◌↔◌, length, Some, slice_get, slice_index, IfSome, IsNone};
ghost use Rattle.marked_lines.specs.Marks.{visible_places, visible_of, span_of};
ghost use Rattle.sheet_ops.specs.Placed.{placed_size};
ghost use Rattle.sheet_ops.specs.Fits.{GridFits};
ghost use Rattle.sheet_grid.specs.Cells.{visible_size};
ghost use Rattle.sheet_grid.specs.Numbering.{place_of_rec, place_of_slot, is_dead};
ghost use Rattle.sheet_grid.specs.Values.{IsNumberedSheet, placed_in, numbered_size};

use crate::Sheet;
use ss_base::Size;

/// Rows and columns. A position counts all lines from 0, a visible index only those that are
/// visible, a number the lines in the order in which they came. Each call takes constant time
/// where it doesn't say otherwise.
impl Sheet {
    /// How many rows and columns there are, hidden ones too.
    pub fn size(&self) -> Size
        ensures size { result ≡ placed_size (placed_in self.now) }
        ensures numbered { result ≡ numbered_size self.now }
        ensures rows { result.rows ≤ 16000 }
        ensures cols { result.cols ≤ 16000 }
        // What holds of every sheet.
        ensures whole { IsNumberedSheet self.now }
        ensures inside { GridFits (placed_size (placed_in self.now)) (placed_in self.now).cells }
    {
        Size {
            rows: self.rows.len(),
            cols: self.cols.len(),
        }
    }

    /// How many rows and columns are visible.
    pub fn visible(&self) -> Size
        ensures size { result ≡ visible_size (placed_in self.now) }
        ensures rows { result.rows ≤ 16000 }
        ensures cols { result.cols ≤ 16000 }
    {
        Size {
            rows: self.rows.visible(),
            cols: self.cols.visible(),
        }
    }

    /// The position of the row with this visible index, and `None` exactly where there is none.
    pub fn row_at(&self, visible: u32) -> Option<u32>
        ensures { result ≡ slice_get (visible_places (placed_in self.now).rows) visible }
    {
        self.rows.place_of(visible)
    }

    /// The position of the column with this visible index, and `None` exactly where there is none.
    pub fn col_at(&self, visible: u32) -> Option<u32>
        ensures { result ≡ slice_get (visible_places (placed_in self.now).cols) visible }
    {
        self.cols.place_of(visible)
    }

    /// The visible index of the row at this position, and `None` exactly where it is hidden or isn't
    /// there. It takes the logarithm of the lines.
    pub fn row_seen(&self, row: u32) -> Option<u32>
        ensures index { result ≡ visible_of (placed_in self.now).rows row }
        ensures few { IfSome result (λ visible. visible < 16000) }
    {
        self.rows.visible_of(row)
    }

    /// The visible index of the column at this position, and `None` exactly where it is hidden or
    /// isn't there. It takes the logarithm of the lines.
    pub fn col_seen(&self, col: u32) -> Option<u32>
        ensures index { result ≡ visible_of (placed_in self.now).cols col }
        ensures few { IfSome result (λ visible. visible < 16000) }
    {
        self.cols.visible_of(col)
    }

    /// The visible indexes of the first and of the last visible row from one position to another,
    /// both counted, and `None` exactly where no row between is visible. It takes the logarithm of
    /// the lines.
    pub fn rows_seen(&self, first: u32, last: u32) -> Option<(u32, u32)>
        ensures span { result ≡ span_of (placed_in self.now).rows first last }
        ensures few { IfSome result (λ seen. (seen.0 < 16000) × (seen.1 < 16000)) }
    {
        self.rows.span_of(first, last)
    }

    /// The same of columns.
    pub fn cols_seen(&self, first: u32, last: u32) -> Option<(u32, u32)>
        ensures span { result ≡ span_of (placed_in self.now).cols first last }
        ensures few { IfSome result (λ seen. (seen.0 < 16000) × (seen.1 < 16000)) }
    {
        self.cols.span_of(first, last)
    }

    /// Whether the row at a position is hidden.
    pub fn is_row_marked(&self, p: u32) -> bool
        requires { p < length (placed_in self.now).rows }
        ensures { slice_get (placed_in self.now).rows p ≡ Some result }
    {
        self.rows.is_marked(p)
    }

    /// Whether the column at a position is hidden.
    pub fn is_col_marked(&self, p: u32) -> bool
        requires { p < length (placed_in self.now).cols }
        ensures { slice_get (placed_in self.now).cols p ≡ Some result }
    {
        self.cols.is_marked(p)
    }

    /// The number of the slot of a row, by its position. No effect gives a slot another number.
    pub fn slot_number(&self, row: u32) -> u32
        requires { row < length (placed_in self.now).rows }
        ensures number { result ≡ slice_index self.now.rows.slots row }
        ensures place { place_of_slot self.now.rows result ≡ Some row }
    {
        self.rows.slot_number(row)
    }

    /// The number of the record that stands in a row, by the row's position. No effect gives a
    /// record another number.
    pub fn rec_number(&self, row: u32) -> u32
        requires { row < length (placed_in self.now).rows }
        ensures number { result ≡ slice_index self.now.rows.recs row }
        ensures place { place_of_rec self.now.rows result ≡ Some row }
    {
        self.rows.rec_number(row)
    }

    /// The number of a column, by its position. No effect gives a column another number.
    pub fn col_number(&self, col: u32) -> u32
        requires { col < length (placed_in self.now).cols }
        ensures number { result ≡ slice_index self.now.cols.recs col }
        ensures place { place_of_rec self.now.cols result ≡ Some col }
    {
        self.cols.rec_number(col)
    }

    /// The position of the row in which the record with this number stands, a hidden one too, and
    /// `None` exactly where it never came.
    pub fn row_of(&self, rec: u32) -> Option<u32>
        ensures value { result ≡ place_of_rec self.now.rows rec }
        ensures place { IfSome result (λ p. (p < length (placed_in self.now).rows) × (slice_index self.now.rows.recs p ≡ rec)) }
        ensures none { IsNone result ↔ (length (placed_in self.now).rows ≤ rec) }
    {
        self.rows.rec_place(rec)
    }

    /// The position of the column with this number, a hidden one too, and `None` exactly where it
    /// never came.
    pub fn col_pos(&self, col: u32) -> Option<u32>
        ensures value { result ≡ place_of_rec self.now.cols col }
        ensures place { IfSome result (λ p. (p < length (placed_in self.now).cols) × (slice_index self.now.cols.recs p ≡ col)) }
        ensures none { IsNone result ↔ (length (placed_in self.now).cols ≤ col) }
    {
        self.cols.rec_place(col)
    }

    /// The position of the row slot with this number, and `None` exactly where it never came. The
    /// rows of a stored range are slots.
    pub fn slot_place(&self, slot: u32) -> Option<u32>
        ensures value { result ≡ place_of_slot self.now.rows slot }
        ensures place { IfSome result (λ p. (p < length (placed_in self.now).rows) × (slice_index self.now.rows.slots p ≡ slot)) }
        ensures none { IsNone result ↔ (length (placed_in self.now).rows ≤ slot) }
    {
        self.rows.slot_place(slot)
    }

    /// The position of the column slot with this number, and `None` exactly where it never came.
    /// The columns of a stored range are slots.
    pub fn col_slot_place(&self, slot: u32) -> Option<u32>
        ensures value { result ≡ place_of_slot self.now.cols slot }
        ensures place { IfSome result (λ p. (p < length (placed_in self.now).cols) × (slice_index self.now.cols.slots p ≡ slot)) }
        ensures none { IsNone result ↔ (length (placed_in self.now).cols ≤ slot) }
    {
        self.cols.slot_place(slot)
    }

    /// Whether the row's record with this number is dead, so that its row is hidden.
    pub fn is_rec_dead(&self, rec: u32) -> bool
        requires { rec < length (placed_in self.now).rows }
        ensures { result ≡ is_dead self.now.rows rec }
    {
        self.rows.is_dead(rec)
    }

    /// Whether the column with this number is dead, so that it is hidden.
    pub fn is_col_dead(&self, col: u32) -> bool
        requires { col < length (placed_in self.now).cols }
        ensures { result ≡ is_dead self.now.cols col }
    {
        self.cols.is_dead(col)
    }
}
