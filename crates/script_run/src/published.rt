ghost use Rattle.std.specs.Prelude.{◌≡◌, ◌<◌, ◌≤◌, ◌+◌, true, false, IfOk, OnOk, OnErr};
ghost use Rattle.sheet_grid.specs.Values.{placed_in};
ghost use Rattle.sheet_ops.specs.Effects.{StepsTo};
ghost use Rattle.sheet_ops.specs.Fits.{EffectFits, HasRoom, IsWellFormed};
ghost use Rattle.sheet_ops.specs.Identity.{IdSheet, opened};
ghost use Rattle.sheet_ops.specs.Placed.{placed_size};
ghost use Rattle.full_calc.specs.Values.{value_table};
ghost use Rattle.sheet_text.specs.Values.{all_text, range_values_text};
ghost use Rattle.script_run.specs.Runs.{PublishedIs};

use full_calc::evaluated;
use sheet_grid::Sheet;
use sheet_ops::Effect;
use sheet_text::{all_text, range_text};
use sheet_value::Grid;
use ss_base::{Memory, Size, Span, Txt};
use std::alloc::Global;

/// The sheet of the entries of a history that are published, and the values of its last evaluation.
#[derive(Debug, Drop)]
pub struct PublishedSheet {
    /// How many entries are published.
    pub length: u32,
    sheet: Sheet,
    values: Grid,
    /// Whether no entry was published since that evaluation.
    is_current: bool,
}

impl PublishedSheet {
    /// The opening sheet of a size: no entry is published.
    pub fn new(alloc: Global, size: Size) -> Result<PublishedSheet, Memory>
        requires rows { size.rows ≤ 1000 }
        requires cols { size.cols ≤ 64 }
        ensures length { IfOk result (λ p. p.length ≡ 0) }
        ensures is { IfOk result (λ p. PublishedIs (opened size) p) }
    {
        let sheet = Sheet::new(alloc, size)?;
        let values = Grid::new(alloc, size)?;
        Ok(PublishedSheet {
            length: 0,
            sheet,
            values,
            is_current: false,
        })
    }

    /// Publishes one more entry, which has this effect on the sheet. A refused call leaves what is
    /// published.
    pub fn advance(&mut self, effect: &Effect) -> Result<(), Memory>
        requires fits { EffectFits (placed_size (placed_in self.old.sheet)) effect.now }
        requires room { HasRoom (placed_size (placed_in self.old.sheet)) effect.now }
        requires few { self.old.length < 8000 }
        ensures length { OnOk result (self.new.length ≡ self.old.length + 1) }
        ensures step { OnOk result (StepsTo (placed_in self.old.sheet) effect.now (placed_in self.new.sheet)) }
        ensures values { OnOk result (self.new.is_current ≡ false) }
        ensures err { OnErr result (self.new ≡ self.old) }
    {
        self.sheet.apply(effect)?;
        self.length += 1;
        self.is_current = false;
        Ok(())
    }

    /// The text of all values. It takes the time of a full evaluation where there was none since the
    /// last entry was published, and that of the text.
    pub fn all_text(&mut self, alloc: Global) -> Result<Txt, Memory>
        ensures text { (X : IdSheet) → IsWellFormed X → PublishedIs X self.old → IfOk result (λ t. t ≡ all_text self.old.length (value_table X)) }
        ensures stays { (X : IdSheet) → IsWellFormed X → PublishedIs X self.old → PublishedIs X self.new }
        ensures length { self.new.length ≡ self.old.length }
    {
        self.evaluate(alloc)?;
        all_text(alloc, self.length, &self.values)
    }

    /// The values, evaluated anew.
    pub fn evaluated(&self, alloc: Global) -> Result<Grid, Memory>
        ensures { (X : IdSheet) → IsWellFormed X → PublishedIs X self.now → IfOk result (λ g. g ≡ value_table X) }
    {
        evaluated(alloc, &self.sheet)
    }

    /// What the site of this name reads in a range, which is refused by the number of its line where it
    /// isn't in the visible sheet. It takes time as the text of all values does.
    pub fn range_text(
        &mut self,
        alloc: Global,
        number: u32,
        name: &Txt,
        range: &Span,
    ) -> Result<Txt, Memory>
        requires rows { range.now.top ≤ range.now.bottom }
        requires cols { range.now.left ≤ range.now.right }
        ensures text { (X : IdSheet) → IsWellFormed X → PublishedIs X self.old → IfOk result (λ t. t ≡ range_values_text number name.now range.now self.old.length (value_table X)) }
        ensures stays { (X : IdSheet) → IsWellFormed X → PublishedIs X self.old → PublishedIs X self.new }
        ensures length { self.new.length ≡ self.old.length }
    {
        self.evaluate(alloc)?;
        range_text(alloc, number, name, range, self.length, &self.values)
    }

    /// Evaluates the sheet in full, unless the values that are kept are its values.
    fn evaluate(&mut self, alloc: Global) -> Result<(), Memory>
        ensures current { OnOk result (self.new.is_current ≡ true) }
        ensures stays { (X : IdSheet) → IsWellFormed X → PublishedIs X self.old → PublishedIs X self.new }
        ensures length { self.new.length ≡ self.old.length }
    {
        if !self.is_current {
            self.values = evaluated(alloc, &self.sheet)?;
            self.is_current = true;
        }
        Ok(())
    }
}
