ghost use Rattle.std.specs.Prelude.{◌≡◌, unwrap_or, Some};
ghost use Rattle.std.specs.Option.{option_copied};
ghost use Rattle.sheet_value.specs.declared.value.Value.TheVariants as value;
ghost use Rattle.sheet_value.specs.Environment.{seen_value};
ghost use Rattle.full_calc.specs.Looks.{look_environment, stored_environment};

use crate::lines::SheetLines;
use sheet_graph::{cell_placed, cols_placed, rows_placed};
use sheet_grid::Sheet;
use sheet_value::{Grid, Look, Seen, Value, Window};
use ss_base::{Size, Span, Spot};

/// A sheet whose stored formulas look, its lines, and values by visible indexes. What is hidden isn't
/// seen.
#[derive(Drop)]
pub(crate) struct SheetLook<'a> {
    pub sheet: &'a Sheet,
    pub lines: &'a SheetLines,
    pub grid: &'a Grid,
}

impl Look for SheetLook<'_> {
    ghost environment = { λ l. stored_environment l.sheet.now (look_environment l.lines.now.rows l.lines.now.cols l.grid.now) };

    fn cell(&self, spot: &Spot) -> Seen<'_> {
        let place = cell_placed(self.sheet, spot);
        let Some(row) = self.lines.rows.index(place.0) else {
            return Seen::Lost;
        };
        let Some(col) = self.lines.cols.index(place.1) else {
            return Seen::Lost;
        };
        seen(self.grid.at(row, col))
    }

    fn range(&self, span: &Span) -> Option<Window<'_>> {
        let rows = rows_placed(self.sheet, span);
        let (top, bottom) = self.lines.rows.span(rows.0, rows.1)?;
        let cols = cols_placed(self.sheet, span);
        let (left, right) = self.lines.cols.span(cols.0, cols.1)?;
        let size = Size {
            rows: (bottom + 1).saturating_sub(top),
            cols: (right + 1).saturating_sub(left),
        };
        Some(Window::new(self.grid, top, left, size))
    }
}

/// What stands where there is a value, or none for an empty one.
fn seen(found: Option<&Value>) -> Seen<'_>
    ensures { seen_value result ≡ Some (unwrap_or (option_copied found.entry) value.Empty) }
{
    match found {
        Some(value) => Seen::Is(value),
        None => Seen::Empty,
    }
}
