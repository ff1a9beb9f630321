ghost use Rattle.std.specs.Prelude.{◌≡◌, ◌<◌, ◌≤◌, ◌+◌, ◌^◌, [], ℕ, List, length, IfOk, OnOk};
ghost use Rattle.ss_base.specs.declared.types.Size.{Size as SizeOf};
ghost use Rattle.sheet_ops.specs.declared.operation.Entry.{Entry};
ghost use Rattle.sheet_ops.specs.Effects.{StepsTo};
ghost use Rattle.sheet_ops.specs.Fits.{EffectFits, HasRoom, IsWellFormed};
ghost use Rattle.sheet_ops.specs.History.{sheet_of};
ghost use Rattle.sheet_ops.specs.Identity.{IdSheet};
ghost use Rattle.sheet_ops.specs.Placed.{placed, placed_size};
ghost use Rattle.sheet_grid.specs.Values.{placed_in};
ghost use Rattle.full_calc.specs.Values.{value_table};
ghost use Rattle.recalc_loop.specs.Changes.{batch_between};
ghost use Rattle.recalc_loop.specs.Evaluations.{AreNext, IsEvaluated};

use crate::changes::batch_between;
use full_calc::evaluated;
use sheet_grid::Sheet;
use sheet_ops::Effect;
use sheet_value::{Batch, Grid};
use ss_base::{Memory, Size};
use std::alloc::Global;

/// The sheet after a beginning of the history, and the values of a sheet that came before it or of
/// itself.
#[derive(Debug, Drop)]
pub(crate) struct Evaluation {
    sheet: Sheet,
    values: Grid,
    /// How many entries of the history the sheet has.
    length: u32,
}

impl Evaluation {
    /// The opening sheet, whose values are all empty. It takes time with the lines.
    pub(crate) fn new(alloc: Global, size: Size) -> Result<Evaluation, Memory>
        requires rows { size.rows ≤ 1000 }
        requires cols { size.cols ≤ 64 }
        ensures { IfOk result (λ e. IsEvaluated size [] e) }
    {
        let sheet = Sheet::new(alloc, size)?;
        let values = Grid::new(alloc, size)?;
        Ok(Evaluation {
            sheet,
            values,
            length: 0,
        })
    }

    /// How many entries of the history the sheet has.
    pub(crate) fn length(&self) -> u32
        ensures { result ≡ self.now.length }
    {
        self.length
    }

    /// Takes the effects of the entries that come next and evaluates the sheet in full. It answers
    /// the batch that leads from the values before to those now.
    pub(crate) fn advance(&mut self, alloc: Global, effects: &[Effect]) -> Result<Batch, Memory>
        requires { (size : SizeOf) × (sites : ℕ) × (H : List Entry) × AreNext size sites H self.old effects.now }
        ensures evaluated { (size : SizeOf) (sites : ℕ) (H : List Entry) → AreNext size sites H self.old effects.now → OnOk result (IsEvaluated size H self.new) }
        ensures batch { IfOk result (λ b. b ≡ batch_between self.new.length self.old.values self.new.values) }
        ensures rows { IfOk result (λ b. length b.row_order ≤ 16000) }
        ensures cols { IfOk result (λ b. length b.col_order ≤ 16000) }
    {
        self.take_all(effects)?;
        let values = evaluated(alloc, &self.sheet)?;
        let batch = batch_between(alloc, self.length, &self.values, &values)?;
        self.values = values;
        Ok(batch)
    }

    /// Takes the effects of the entries that come next. The values stay.
    fn take_all(&mut self, effects: &[Effect]) -> Result<(), Memory>
        requires { (size : SizeOf) × (sites : ℕ) × (H : List Entry) × AreNext size sites H self.old effects.now }
        ensures length { (size : SizeOf) (sites : ℕ) (H : List Entry) → AreNext size sites H self.old effects.now → OnOk result (self.new.length ≡ length H) }
        ensures sheet { (size : SizeOf) (sites : ℕ) (H : List Entry) → AreNext size sites H self.old effects.now → OnOk result (placed (sheet_of size H) ≡ placed_in self.new.sheet) }
        ensures formed { (size : SizeOf) (sites : ℕ) (H : List Entry) → AreNext size sites H self.old effects.now → OnOk result (IsWellFormed (sheet_of size H)) }
        ensures values { self.new.values ≡ self.old.values }
    {
        for effect in effects {
            self.take(effect)?;
        }
        Ok(())
    }

    /// Takes the effect of the next entry. The values stay.
    fn take(&mut self, effect: &Effect) -> Result<(), Memory>
        requires fits { EffectFits (placed_size (placed_in self.old.sheet)) effect.now }
        requires room { HasRoom (placed_size (placed_in self.old.sheet)) effect.now }
        requires few { self.old.length < 8000 }
        ensures length { OnOk result (self.new.length ≡ self.old.length + 1) }
        ensures step { OnOk result (StepsTo (placed_in self.old.sheet) effect.now (placed_in self.new.sheet)) }
        ensures values { self.new.values ≡ self.old.values }
    {
        self.sheet.apply(effect)?;
        self.length += 1;
        Ok(())
    }
}
