ghost use Rattle.std.specs.Prelude.{◌≡◌, is_some, filter, filter_map, length, IfOk};
ghost use Rattle.std.specs.BTreeMap.{keys};
ghost use Rattle.marked_lines.specs.Marks.{visible_places};
ghost use Rattle.sheet_ops.specs.Transforms.{numbers_from};
ghost use Rattle.sheet_grid.specs.Kept.{held, rec_number};
ghost use Rattle.sheet_grid.specs.Numbering.{live_place, place_of_rec};

use crate::axis::AxisLines;
use sheet_ops::Content;
use ss_base::Memory;
use std::alloc::{AllocError, Global};
use std::collections::BTreeMap;

/// The positions, ascending, of the visible columns under which a row's map has a key, in the time
/// of sorting them.
pub fn filled_columns(
    alloc: Global,
    cols: &AxisLines,
    cells: &BTreeMap<u32, Content>,
) -> Result<Vec<u32>, Memory>
    ensures { IfOk result (λ v. v.items ≡ filter (λ p. is_some (held cells.now (rec_number cols.now p))) (visible_places cols.now.marks)) }
{
    // The map's keys are in order, and so are the numbers of the columns.
    let (_, _) = (cells.len(), cols.len());
    let mut places = live_columns(alloc, cols, cells)?;
    places.sort_unstable();
    Ok(places)
}

// The positions of the visible columns under which a row's map has a key, in the keys' order.
fn live_columns(
    alloc: Global,
    cols: &AxisLines,
    cells: &BTreeMap<u32, Content>,
) -> Result<Vec<u32>, AllocError>
    ensures { IfOk result (λ v. v.items ≡ filter_map (live_place cols.now) (keys cells.now)) }
{
    cells
        .keys()
        .filter_map(|col| cols.live_place(*col))
        .collect(alloc)
}

/// The positions, ascending, of all columns under which a row's map has a key, in the time of sorting
/// them.
pub fn occupied_columns(
    alloc: Global,
    cols: &AxisLines,
    cells: &BTreeMap<u32, Content>,
) -> Result<Vec<u32>, Memory>
    ensures { IfOk result (λ v. v.items ≡ filter (λ p. is_some (held cells.now (rec_number cols.now p))) (numbers_from 0 (length cols.now.slots))) }
{
    let (_, _) = (cells.len(), cols.len());
    let mut places = column_places(alloc, cols, cells)?;
    places.sort_unstable();
    Ok(places)
}

// The positions of the columns under which a row's map has a key, in the keys' order.
fn column_places(
    alloc: Global,
    cols: &AxisLines,
    cells: &BTreeMap<u32, Content>,
) -> Result<Vec<u32>, AllocError>
    ensures { IfOk result (λ v. v.items ≡ filter_map (place_of_rec cols.now) (keys cells.now)) }
{
    cells
        .keys()
        .filter_map(|col| cols.rec_place(*col))
        .collect(alloc)
}
