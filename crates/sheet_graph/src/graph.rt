ghost use Rattle.std.specs.Prelude.{◌≡◌, ◌<◌, ◌≤◌, ◌+◌, ◌*◌, ◌^◌, ◌++◌, ℕ, List, [], ◌∷◌, length, IfOk, OnOk};
ghost use Rattle.std.specs.List.{AllByRecursion};
ghost use Rattle.cell_walk.specs.Walks.{IsIn, MentionsWithin};
ghost use Rattle.sheet_grid.specs.Values.{placed_in};
ghost use Rattle.sheet_grid.specs.Cells.{visible_size};
ghost use Rattle.sheet_graph.specs.Columns.{IsRising, EndsAt, column_at, number_in};
ghost use Rattle.sheet_graph.specs.Filled.{HoldsRows};
ghost use Rattle.sheet_graph.specs.Graphs.{areas_of, mentions_in, mentions_listed, mentions_left, number_set, HaveSameMembers, IsFoundAt, IsGraphTo, IsGraph};
ghost use Rattle.sheet_graph.specs.Cursor.{all_left};

use crate::areas::{Areas, next_in_areas};
use crate::by_column::filled_rows;
use crate::cells::formula_seen;
use crate::columns::{Column, empty_columns};
use crate::references::push_areas;
use crate::stored::StoredFormula;
use cell_walk::{Interval, Mentions, Progress};
use sheet_grid::Sheet;
use ss_base::Memory;
use std::alloc::Global;

/// A formula cell, by visible indexes, and the visible areas that its formula refers to.
#[derive(Debug, Drop)]
pub struct Node<'a> {
    pub row: u32,
    pub col: u32,
    pub formula: StoredFormula<'a>,
    pub areas: Areas,
}

/// The formula cells of a sheet under numbers from 0 on, column by column, and those of each visible
/// column.
#[derive(Debug, Drop)]
pub struct Graph<'a> {
    pub nodes: Vec<Node<'a>>,
    pub columns: Vec<Column>,
}

impl Mentions for Graph<'_> {
    ghost mentions = { λ g. mentions_listed g.nodes.items g.columns.items };

    ghost rest = { λ g. mentions_left g.nodes.items g.columns.items };

    ghost from_start = { λ g cell. all_left g.columns.items (areas_of g.nodes.items cell) };

    fn next(&self, cell: u32, place: Progress) -> Option<(Interval, Progress)> {
        match self.nodes.get(cell as usize) {
            Some(node) => next_in_areas(&self.columns, node.areas.as_slice(), place),
            None => None,
        }
    }
}

/// The node of a cell by its visible indexes, where it is a formula cell.
fn node_at<'a>(
    alloc: Global,
    sheet: &'a Sheet,
    row: u32,
    col: u32,
) -> Result<Option<Node<'a>>, Memory>
    ensures { IfOk result (λ found. IsFoundAt (placed_in sheet.now) row col found) }
{
    let Some(formula) = formula_seen(sheet, row, col) else {
        return Ok(None);
    };
    let mut areas = Areas::new(alloc);
    push_areas(&mut areas, sheet, formula.expr())?;
    Ok(Some(Node {
        row,
        col,
        formula: StoredFormula::new(sheet, formula),
        areas,
    }))
}

impl<'a> Graph<'a> {
    /// A further node, under the next number. It stands below the others of its column.
    fn add(&mut self, node: Node<'a>) -> Result<(), Memory>
        requires col { node.col < length self.old.columns.items }
        requires below { AllByRecursion (λ s. s.row < node.row) (column_at self.old.columns.items node.col) }
        requires counted { EndsAt (column_at self.old.columns.items node.col) (length self.old.nodes.items) }
        requires row { node.row < 16000 }
        requires few { length self.old.nodes.items < 2 ^ 31 }
        ensures counted { OnOk result (EndsAt (column_at self.new.columns.items node.entry.col) (length self.new.nodes.items)) }
        ensures nodes { OnOk result (self.new.nodes.items ≡ self.old.nodes.items ++ node.entry ∷ []) }
        ensures numbers { OnOk result (number_in self.new.columns.items ≡ number_set (number_in self.old.columns.items) node.entry.row node.entry.col (length self.old.nodes.items)) }
        ensures len { OnOk result (length self.new.columns.items ≡ length self.old.columns.items) }
        ensures rising { OnOk result (AllByRecursion IsRising self.old.columns.items → AllByRecursion IsRising self.new.columns.items) }
    {
        let number = self.nodes.len() as u32;
        self.columns[node.col as usize].push(node.row, number)?;
        self.nodes.push(node)?;
        Ok(())
    }

    /// Adds the node of a further cell of the last column, where it is a formula cell.
    fn pass(&mut self, alloc: Global, sheet: &'a Sheet, row: u32, col: u32) -> Result<(), Memory>
        requires col { col < length self.old.columns.items }
        requires row { row < 16000 }
        requires few { length self.old.nodes.items < 2 ^ 31 }
        requires counted { EndsAt (column_at self.old.columns.items col) (length self.old.nodes.items) }
        requires graph { (before : List ℕ) × AllByRecursion (λ r. r < row) before × IsGraphTo (placed_in sheet.now) col before self.old.nodes.items (number_in self.old.columns.items) }
        ensures len { OnOk result (length self.new.columns.items ≡ length self.old.columns.items) }
        ensures few { OnOk result (length self.new.nodes.items ≤ length self.old.nodes.items + 1) }
        ensures counted { OnOk result (EndsAt (column_at self.new.columns.items col) (length self.new.nodes.items)) }
        ensures rising { OnOk result (AllByRecursion IsRising self.old.columns.items → AllByRecursion IsRising self.new.columns.items) }
        ensures graph { OnOk result ((before : List ℕ) → AllByRecursion (λ r. r < row) before → IsGraphTo (placed_in sheet.now) col before self.old.nodes.items (number_in self.old.columns.items) →
            IsGraphTo (placed_in sheet.now) col (before ++ row ∷ []) self.new.nodes.items (number_in self.new.columns.items)) }
    {
        if let Some(node) = node_at(alloc, sheet, row, col)? {
            self.add(node)?;
        }
        Ok(())
    }

    /// Adds the nodes of some cells of a column, which is the last one.
    fn pass_col(
        &mut self,
        alloc: Global,
        sheet: &'a Sheet,
        col: u32,
        rows: &[u32],
    ) -> Result<(), Memory>
        requires filled { HoldsRows (placed_in sheet.now) col (visible_size (placed_in sheet.now)).rows rows.now }
        requires height { (visible_size (placed_in sheet.now)).rows ≤ 16000 }
        requires col { col < length self.old.columns.items }
        requires below { col < 16000 }
        requires few { length self.old.nodes.items ≤ 16000 * col }
        requires rising { AllByRecursion IsRising self.old.columns.items }
        requires graph { IsGraphTo (placed_in sheet.now) col [] self.old.nodes.items (number_in self.old.columns.items) }
        ensures len { OnOk result (length self.new.columns.items ≡ length self.old.columns.items) }
        ensures few { OnOk result (length self.new.nodes.items ≤ 16000 * (col + 1)) }
        ensures rising { OnOk result (AllByRecursion IsRising self.new.columns.items) }
        ensures graph { OnOk result (IsGraphTo (placed_in sheet.now) (col + 1) [] self.new.nodes.items (number_in self.new.columns.items)) }
    {
        for row in rows {
            self.pass(alloc, sheet, *row, col)?;
        }
        Ok(())
    }
}

/// The graph of the visible formula cells of a sheet, which copies no formula. It takes time with the
/// lines, with the filled cells and the logarithm of their number, and with the formulas; memory with
/// the formulas' references and the columns.
pub fn graph_of<'a>(alloc: Global, sheet: &'a Sheet) -> Result<Graph<'a>, Memory>
    ensures few { IfOk result (λ g. length g.nodes.items < 2 ^ 32) }
    ensures graph { IfOk result (λ g. IsGraph (placed_in sheet.now) g.nodes.items (number_in g.columns.items)) }
    // What is listed column by column is what the formulas mention.
    ensures listed { IfOk result (λ g. (cell : ℕ) → HaveSameMembers (mentions_listed g.nodes.items g.columns.items cell) (mentions_in g.nodes.items g.columns.items cell)) }
    ensures within { IfOk result (λ g. MentionsWithin (length g.nodes.items) (mentions_listed g.nodes.items g.columns.items)) }
{
    let seen = sheet.visible();
    let lists = filled_rows(alloc, sheet)?;
    let mut graph = Graph {
        nodes: Vec::new(alloc),
        columns: empty_columns(alloc, seen.cols)?,
    };
    for col in 0..seen.cols {
        graph.pass_col(alloc, sheet, col, lists[col as usize].as_slice())?;
    }
    Ok(graph)
}
