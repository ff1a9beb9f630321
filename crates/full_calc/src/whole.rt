ghost use Rattle.std.specs.Prelude.{◌≡◌, ◌≤◌, ◌+◌, length, IfOk};
ghost use Rattle.sheet_ops.specs.Fits.{IsWellFormed};
ghost use Rattle.sheet_ops.specs.Identity.{IdSheet};
ghost use Rattle.sheet_ops.specs.Placed.{placed};
ghost use Rattle.sheet_grid.specs.Values.{placed_in};
ghost use Rattle.full_calc.specs.Circular.{acyclic_cells};
ghost use Rattle.full_calc.specs.Computed.{IsComputed};
ghost use Rattle.full_calc.specs.Values.{value_table};

use crate::constants::constants;
use crate::evaluation::{circle, evaluate};
use crate::lines::SheetLines;
use cell_eval::Steps;
use cell_walk::walk_new;
use sheet_graph::graph_of;
use sheet_grid::Sheet;
use sheet_value::Grid;
use ss_base::Memory;
use std::alloc::Global;
use std::sync::ledger::Ledger;

/// The values of a sheet, by positions.
fn computed<G: Ledger>(alloc: Global, sheet: &Sheet, steps: &mut Steps<G>) -> Result<Grid, Memory>
    ensures computed { IfOk result (λ g. IsComputed (placed_in sheet.now) g) }
    ensures count { (X : IdSheet) → IsWellFormed X → placed X ≡ placed_in sheet.now → steps.new ≤ steps.old + length (acyclic_cells X) }
{
    let graph = graph_of(alloc, sheet)?;
    let found = walk_new(alloc, &graph, graph.nodes.len() as u32)?;
    let mut grid = constants(alloc, sheet)?;
    circle(&mut grid, &graph.nodes, &found.colours)?;
    let lines = SheetLines::of(alloc, sheet)?;
    evaluate(alloc, &lines, &graph.nodes, &found.order, &mut grid, steps)?;
    Ok(grid)
}

/// The values of a sheet by visible indexes: at each index that of the cell shown there, evaluated in
/// full. It takes time with the lines, with each visible column down to its last filled cell, and with
/// what the formulas mention, and memory with those columns and the references in formulas.
pub fn values<G: Ledger>(alloc: Global, sheet: &Sheet, steps: &mut Steps<G>) -> Result<Grid, Memory>
    ensures values { IfOk result (λ g. (X : IdSheet) → IsWellFormed X → placed X ≡ placed_in sheet.now → g ≡ value_table X) }
    // No formula is evaluated twice, and none that is circular.
    ensures count { (X : IdSheet) → IsWellFormed X → placed X ≡ placed_in sheet.now → steps.new ≤ steps.old + length (acyclic_cells X) }
{
    computed(alloc, sheet, steps)
}
