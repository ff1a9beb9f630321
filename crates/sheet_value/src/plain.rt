ghost use Rattle.std.specs.Prelude.{◌≡◌, suc, ◌-◌, min, Some, unwrap_or};
ghost use Rattle.std.specs.Option.{option_copied};
ghost use Rattle.sheet_value.specs.declared.value.Value.TheVariants as value;
ghost use Rattle.sheet_value.specs.Environment.{seen_value, table_environment};

use crate::grid::Grid;
use crate::look::{Look, Seen};
use crate::value::Value;
use crate::window::Window;
use ss_base::{Size, Span, Spot};

/// A grid is looked at as a sheet whose lines are all visible: a reference outside its size is lost,
/// and of a range the lines inside are seen.
impl Look for Grid {
    ghost environment = { table_environment };

    fn cell(&self, spot: &Spot) -> Seen<'_> {
        let size = self.size();
        if spot.row < size.rows && spot.col < size.cols {
            return seen(self.at(spot.row, spot.col));
        }
        Seen::Lost
    }

    fn range(&self, span: &Span) -> Option<Window<'_>> {
        let size = self.size();
        let rows = count_between(span.top, span.bottom, size.rows);
        let cols = count_between(span.left, span.right, size.cols);
        if rows == 0 || cols == 0 {
            return None;
        }
        Some(Window::new(self, span.top, span.left, Size { rows, cols }))
    }
}

/// What stands where there is a value, or none for an empty one.
fn seen(found: Option<&Value>) -> Seen<'_>
    ensures { seen_value result ≡ Some (unwrap_or (option_copied found.entry) value.Empty) }
{
    match found {
        Some(value) => Seen::Is(value),
        None => Seen::Empty,
    }
}

/// How many of so many lines stand from the first to the last.
fn count_between(first: u32, last: u32, count: u32) -> u32
    ensures { result ≡ min (suc last) count - first }
{
    last.saturating_add(1).min(count).saturating_sub(first)
}
