ghost use Rattle.std.specs.Prelude.{◌≡◌, ◌<◌, [], ◌++◌, MatchOption};
ghost use Rattle.cell_walk.specs.Walks.{interval_cells};
ghost use Rattle.sheet_graph.specs.Columns.{in_column, left_in_area, left_in_areas};

use crate::columns::Column;
use cell_walk::{Interval, Progress};
use smallvec::SmallVec;

/// A rectangle of cells by visible indexes: its first row and column, and those behind its last ones.
#[derive(Clone, Copy, Debug, Default)]
pub struct Area {
    pub top: u32,
    pub left: u32,
    pub bottom: u32,
    pub right: u32,
}

/// The areas that a formula refers to: most have one or two, which take no allocation.
pub type Areas = SmallVec<Area, 2>;

/// The cells of an area in a column, and `None` exactly where there are none.
fn run_in_column(columns: &[Column], area: &Area, col: u32) -> Option<Interval>
    ensures { MatchOption result (in_column columns.now area.now col ≡ []) (λ r. (r.first < r.end) × (in_column columns.now area.now col ≡ interval_cells r)) }
{
    match columns.get(col as usize) {
        Some(column) => column.between(area.top, area.bottom),
        None => None,
    }
}

/// The next cells in an area from a column on, and the column behind them.
fn next_in_area(columns: &[Column], area: &Area, col: u32) -> Option<(Interval, u32)>
    ensures { MatchOption result (left_in_area columns.now area.now col ≡ []) (λ p. (p.0.first < p.0.end) × (left_in_area columns.now area.now col ≡ interval_cells p.0 ++ left_in_area columns.now area.now p.1)) }
{
    let mut col = col.max(area.left);
    while col < area.right {
        if let Some(run) = run_in_column(columns, area, col) {
            return Some((run, col + 1));
        }
        col += 1;
    }
    None
}

/// The next cells in some areas from a place on, and the place behind them. For each column of an
/// area that it comes to, it takes the logarithm of that column's formula cells.
pub(crate) fn next_in_areas(
    columns: &[Column],
    areas: &[Area],
    from: Progress,
) -> Option<(Interval, Progress)>
    ensures { MatchOption result (left_in_areas columns.now areas.now from.reference from.col ≡ []) (λ p. (p.0.first < p.0.end) × (left_in_areas columns.now areas.now from.reference from.col ≡ interval_cells p.0 ++ left_in_areas columns.now areas.now p.1.reference p.1.col)) }
{
    let mut place = from;
    while let Some(area) = areas.get(place.reference) {
        if let Some((run, col)) = next_in_area(columns, area, place.col) {
            let behind = Progress {
                reference: place.reference,
                row: 0,
                col,
            };
            return Some((run, behind));
        }
        place = Progress {
            reference: place.reference + 1,
            row: 0,
            col: 0,
        };
    }
    None
}
