ghost use Rattle.std.specs.Prelude.{◌≡◌, ◌<◌, ◌↔◌, true, IfOk, length};
ghost use Rattle.sheet_grid.specs.Values.{placed_in};
ghost use Rattle.generated_run.specs.Held.{AreRowsHeld};
ghost use Rattle.generated_run.specs.Summary.{server_sheet, filled_cells, AreFigures, HowMany, EqualsServer};

use crate::comparison::same_sheets;
use crate::held::{RowHeld, rows_held};
use crate::tally::{Tally, value_tally};
use script_run::Run;
use sheet_grid::Sheet;
use ss_base::{Memory, Size};
use std::alloc::Global;

/// What a summary says of the state that a run leads to.
#[derive(Clone, Copy, Debug)]
pub struct Figures {
    /// How many entries the history has.
    pub history: usize,
    /// How many edits were refused.
    pub refused: u32,
    /// How many rows and columns of the server's sheet are visible.
    pub size: Size,
    /// How many visible cells of it aren't empty.
    pub cells: usize,
    /// How many entries are published.
    pub published: u32,
    /// The published values by their kinds.
    pub tally: Tally,
    /// How many sites' sheets equal the server's.
    pub equal: usize,
}

/// The figures of a state, before which so many edits were refused. It takes the time of a full
/// evaluation, and of a look at each cell of each sheet.
pub fn figures_of(alloc: Global, run: &Run, refused: u32) -> Result<Figures, Memory>
    ensures { IfOk result (λ f. AreFigures run.now refused f) }
{
    let sheet = run.server_sheet();
    let values = run.evaluated(alloc)?;
    Ok(Figures {
        history: run.length(),
        refused,
        size: sheet.visible(),
        cells: filled_cells(sheet)?,
        published: run.published_length(),
        tally: value_tally(&values),
        equal: equal_replicas(alloc, run)?,
    })
}

/// How many visible cells aren't empty.
fn filled_cells(sheet: &Sheet) -> Result<usize, Memory>
    ensures { IfOk result (λ cells. cells ≡ filled_cells (placed_in sheet.now)) }
{
    let mut cells = 0;
    for visible in 0..sheet.visible().rows {
        match sheet.row_at(visible) {
            Some(row) => cells += sheet.filled(row)?.len(),
            None => unreachable!(),
        }
    }
    Ok(cells)
}

/// How many sites' sheets equal the server's.
fn equal_replicas(alloc: Global, run: &Run) -> Result<usize, Memory>
    ensures { IfOk result (λ equal. HowMany (EqualsServer run.now) (length run.now.seats) equal) }
{
    let rows = rows_held(alloc, run.server_sheet())?;
    let mut equal = 0;
    for place in 0..run.sites() {
        equal += usize::from(equals_server(run, place, rows.as_slice())?);
    }
    Ok(equal)
}

/// Whether the sheet of the site at a place equals the server's, of which the rows are what it holds.
fn equals_server(run: &Run, place: usize, rows: &[RowHeld]) -> Result<bool, Memory>
    requires place { place < length run.now.seats }
    requires rows { AreRowsHeld (server_sheet run.now) rows.now }
    ensures { IfOk result (λ same. (same ≡ true) ↔ EqualsServer run.now place) }
{
    same_sheets(run.replica(place), run.server_sheet(), rows)
}
