ghost use Rattle.std.specs.Prelude.{◌≡◌, ◌<◌, ◌≤◌, ◌+◌, ◌^◌, [], ◌∷◌, ◌++◌, length, replicate, IfOk, OnOk, MatchOption};
ghost use Rattle.std.specs.List.{AllByRecursion};
ghost use Rattle.cell_walk.specs.Walks.{interval_cells};
ghost use Rattle.sheet_graph.specs.Columns.{IsRising, EndsAt, seats_above, numbers_between};

use cell_walk::Interval;
use ss_base::Memory;
use std::alloc::Global;
use std::marker::Model;

/// A formula cell in its column: its visible row, and its number.
#[derive(Clone, Copy, Debug)]
pub struct FormulaCell {
    pub row: u32,
    pub number: u32,
}

/// The formula cells of a visible column from top to bottom, which contracts see as their list.
#[derive(Debug, Drop)]
pub struct Column {
    seats: Vec<FormulaCell>,
}

impl Model for Column {
    ghost use Rattle.std.specs.Prelude.{List};
    ghost use Rattle.sheet_graph.specs.declared.columns.FormulaCell.{FormulaCell};
    ghost use Rattle.sheet_graph.specs.Columns.{IsColumn};

    ghost Value = { List FormulaCell };

    ghost view = { λ c. c.seats.items };

    ghost invariant = { λ c. IsColumn c.seats.items };
}

impl Column {
    /// A column without formula cells.
    pub fn new(alloc: Global) -> Column
        ensures { result ≡ [] }
    {
        Column {
            seats: Vec::new(alloc),
        }
    }

    /// A further formula cell, below the others, under the next number.
    pub fn push(&mut self, row: u32, number: u32) -> Result<(), Memory>
        requires below { AllByRecursion (λ s. s.row < row) self.old }
        requires counted { EndsAt self.old number }
        requires row { row < 16000 }
        requires number { number < 2 ^ 31 }
        ensures counted { OnOk result (EndsAt self.new (number + 1)) }
        ensures seats { OnOk result (self.new ≡ self.old ++ record { row = row; number = number } ∷ []) }
        ensures rising { OnOk result (IsRising self.new) }
    {
        self.seats.push(FormulaCell { row, number })?;
        Ok(())
    }

    /// How many formula cells stand above a row, in the logarithm of their number. It is the index of
    /// the first of the others.
    pub fn first_from(&self, row: u32) -> u32
        ensures value { result ≡ seats_above row self.now }
        ensures within { result ≤ length self.now }
        ensures few { length self.now ≤ 16000 }
    {
        self.seats.partition_point(|s| s.row < row) as u32
    }

    /// The formula cells from one row on and above another, and `None` exactly where there are none. It
    /// takes the logarithm of their number.
    pub fn between(&self, top: u32, bottom: u32) -> Option<Interval>
        ensures { MatchOption result (numbers_between top bottom self.now ≡ []) (λ r. (r.first < r.end) × (numbers_between top bottom self.now ≡ interval_cells r)) }
    {
        let from = self.first_from(top);
        let end = self.first_from(bottom);
        if from < end {
            let first = self.seats[from as usize].number;
            Some(Interval {
                first,
                end: first + (end - from),
            })
        } else {
            None
        }
    }
}

/// So many columns without formula cells.
pub(crate) fn empty_columns(alloc: Global, count: u32) -> Result<Vec<Column>, Memory>
    ensures { IfOk result (λ v. v.items ≡ replicate count []) }
{
    let mut columns = Vec::with_capacity(alloc, count as usize)?;
    for _ in 0..count {
        columns.push(Column::new(alloc))?;
    }
    Ok(columns)
}
