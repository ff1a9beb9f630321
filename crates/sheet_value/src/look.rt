ghost use Rattle.std.specs.Prelude.{◌≡◌};
ghost use Rattle.sheet_value.specs.Environment.{Environment, cell_value, range_table, seen_value};

use crate::value::Value;
use crate::window::Window;
use ss_base::{Span, Spot};

/// What stands where a formula looks.
#[derive(Clone, Copy, Debug)]
pub enum Seen<'a> {
    Empty,
    /// The reference leads nowhere: its row or its column is gone.
    Lost,
    Is(&'a Value),
}

/// What the formulas of a sheet look at. All its answers are those of one map of values.
pub trait Look {
    /// That map, and where references lead in it.
    ghost environment: { Self → Environment };

    /// The value of a cell, and `Lost` exactly for a lost reference.
    fn cell(&self, spot: &Spot) -> Seen<'_>
        ensures { seen_value result ≡ cell_value (environment self.now) spot.now };

    /// The visible part of a range, and `None` exactly for a lost range.
    fn range(&self, span: &Span) -> Option<Window<'_>>
        ensures { result ≡ range_table (environment self.now) span.now };
}
