ghost use Rattle.std.specs.Prelude.{◌≡◌, ◌+◌, ◌<◌, ◌≤◌, length, OnOk};
ghost use Rattle.sheet_value.specs.Tables.{with_value};
ghost use Rattle.cell_eval.specs.Meaning.{formula_value};
ghost use Rattle.cell_walk.specs.Walks.{hue};
ghost use Rattle.full_calc.specs.Looks.{look_environment};
ghost use Rattle.full_calc.specs.Evaluated.{circled, evaluated, AreIn};

use crate::lines::SheetLines;
use crate::look::SheetLook;
use cell_eval::{Steps, eval};
use cell_walk::Colour;
use formula_code::compile;
use sheet_graph::Node;
use sheet_value::{Grid, Value};
use ss_base::{CalcErr, Memory};
use std::alloc::Global;
use std::sync::ledger::Ledger;

/// Each circular cell has the value of a circle.
pub(crate) fn circle(grid: &mut Grid, nodes: &[Node], colours: &[Colour]) -> Result<(), Memory>
    requires inside { AreIn grid.old.size nodes.now }
    requires each { length colours.now ≡ length nodes.now }
    ensures size { OnOk result (grid.new.size ≡ grid.old.size) }
    ensures values { OnOk result (grid.new ≡ circled nodes.now colours.now (length nodes.now) grid.old) }
{
    for (n, node) in nodes.iter().enumerate() {
        if let Colour::Circular = colours[n] {
            grid.put(node.row, node.col, Value::Err(CalcErr::Circ))?;
        }
    }
    Ok(())
}

/// Evaluates one formula cell, whose formula is read where it is stored.
fn evaluate_node<G: Ledger>(
    alloc: Global,
    lines: &SheetLines,
    node: &Node,
    grid: &mut Grid,
    steps: &mut Steps<G>,
) -> Result<(), Memory>
    requires row { node.now.row < grid.old.size.rows }
    requires col { node.now.col < grid.old.size.cols }
    ensures count { steps.new ≤ steps.old + 1 }
    ensures value { OnOk result (grid.new ≡ with_value grid.old node.now.row node.now.col (formula_value (look_environment lines.now.rows lines.now.cols grid.old) node.now.formula)) }
{
    let stored = node.formula.parts();
    let code = compile(alloc, stored.1)?;
    let look = SheetLook {
        sheet: stored.0,
        lines,
        grid,
    };
    let value = eval(alloc, &code, &look, steps)?;
    grid.put(node.row, node.col, value)
}

/// Evaluates the formula cells with these numbers, one after another, each once.
pub(crate) fn evaluate<G: Ledger>(
    alloc: Global,
    lines: &SheetLines,
    nodes: &[Node],
    order: &[u32],
    grid: &mut Grid,
    steps: &mut Steps<G>,
) -> Result<(), Memory>
    requires { AreIn grid.old.size nodes.now }
    ensures count { steps.new ≤ steps.old + length order.now }
    ensures values { OnOk result (grid.new ≡ evaluated lines.now.rows lines.now.cols nodes.now order.now grid.old) }
{
    for n in order {
        if let Some(node) = nodes.get(*n as usize) {
            evaluate_node(alloc, lines, node, grid, steps)?;
        }
    }
    Ok(())
}
