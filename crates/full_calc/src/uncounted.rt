ghost use Rattle.std.specs.Prelude.{◌≡◌, ◌<◌, IfOk};
ghost use Rattle.sheet_ops.specs.Fits.{IsWellFormed};
ghost use Rattle.sheet_ops.specs.Identity.{IdSheet};
ghost use Rattle.sheet_ops.specs.Placed.{placed};
ghost use Rattle.sheet_grid.specs.Values.{placed_in};
ghost use Rattle.full_calc.specs.Values.{value_table};

use crate::whole::values;
use cell_eval::Steps;
use sheet_grid::Sheet;
use sheet_value::Grid;
use ss_base::Memory;
use std::alloc::Global;
use std::marker::Brand;
use std::sync::ledger::{Blank, Ledger};

/// The values of a sheet, evaluated in full, as `values` gives them, for who doesn't count the
/// evaluations.
pub fn evaluated(alloc: Global, sheet: &Sheet) -> Result<Grid, Memory>
    ensures { IfOk result (λ g. (X : IdSheet) → IsWellFormed X → placed X ≡ placed_in sheet.now → g ≡ value_table X) }
{
    counted::<Brand>(alloc, sheet, Blank::new(1))
}

/// The same in a ledger that counts the evaluations.
fn counted<G: Ledger>(alloc: Global, sheet: &Sheet, blank: Blank) -> Result<Grid, Memory>
    requires name { blank.name ≡ G.name }
    requires parts { blank.parts ≡ G.parts }
    requires some { 0 < blank.parts }
    ensures { IfOk result (λ g. (X : IdSheet) → IsWellFormed X → placed X ≡ placed_in sheet.now → g ≡ value_table X) }
{
    let mut steps = Steps::<G>::new(blank);
    values(alloc, sheet, &mut steps)
}
