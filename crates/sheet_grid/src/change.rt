ghost use Rattle.std.specs.Prelude.{◌≡◌, ◌<◌, ◌≤◌, length, All, IfOk, OnOk, OnErr};
ghost use Rattle.marked_lines.specs.Moves.{IsPerm, MovesBelow};
ghost use Rattle.sheet_ops.specs.Placed.{placed, placed_size};
ghost use Rattle.sheet_ops.specs.Chains.{size_past};
ghost use Rattle.sheet_ops.specs.Effects.{effect_on, StepsTo};
ghost use Rattle.sheet_ops.specs.Fits.{EffectFits, HasRoom};
ghost use Rattle.sheet_ops.specs.Identity.{opened};
ghost use Rattle.sheet_ops.specs.declared.operation.Effect.TheVariants as effect;
ghost use Rattle.sheet_grid.specs.Numbering.{HasOrderedRanges, IsOrderedWrite};
ghost use Rattle.sheet_grid.specs.Values.{placed_in, numbered_past, numbered_size, opening_sheet};

use crate::Sheet;
use crate::axis::AxisLines;
use crate::row::{copy_rows, empty_rows};
use crate::write::write_puts;
use marked_lines::Perm;
use sheet_ops::{Effect, Put};
use ss_base::{Memory, Size};
use std::alloc::Global;
use std::collections::BTreeMap;

impl Sheet {
    /// The opening sheet: nothing is marked, every cell is empty, and the lines have the numbers
    /// from 0 on in their order. It takes time with the lines.
    pub fn new(alloc: Global, size: Size) -> Result<Sheet, Memory>
        requires rows { size.rows ≤ 1000 }
        requires cols { size.cols ≤ 64 }
        ensures numbers { IfOk result (λ s. s ≡ opening_sheet size) }
        ensures placed { IfOk result (λ s. placed_in s ≡ placed (opened size)) }
        ensures sized { IfOk result (λ s. placed_size (placed_in s) ≡ size) }
    {
        let rows = AxisLines::new(alloc, size.rows)?;
        let cols = AxisLines::new(alloc, size.cols)?;
        let cells = empty_rows(alloc, size.rows)?;
        Ok(Sheet { rows, cols, cells })
    }

    /// An equal sheet, with the same numbers. It takes time with the lines, the filled cells and
    /// their contents.
    pub fn copy(&self) -> Result<Sheet, Memory>
        ensures { IfOk result (λ s. s ≡ self.now) }
    {
        let rows = self.rows.copy()?;
        let cols = self.cols.copy()?;
        let cells = copy_rows(&self.cells)?;
        Ok(Sheet { rows, cols, cells })
    }

    /// Does what an effect says, by positions. A write takes time with the logarithm of a row's
    /// filled cells for each cell that is written, and with the contents; an insertion, a deletion
    /// or a move one pass over the memory of that axis' lines, however many cells are filled. A
    /// refused call leaves the sheet as it was.
    pub fn apply(&mut self, effect: &Effect) -> Result<(), Memory>
        requires fits { EffectFits (placed_size (placed_in self.old)) effect.now }
        requires room { HasRoom (placed_size (placed_in self.old)) effect.now }
        ensures numbers { OnOk result (self.new ≡ numbered_past self.old effect.now) }
        ensures ok { OnOk result (placed_in self.new ≡ effect_on (placed_in self.old) effect.now) }
        ensures step { OnOk result (StepsTo (placed_in self.old) effect.now (placed_in self.new)) }
        ensures sized { OnOk result (placed_size (placed_in self.new) ≡ size_past (placed_size (placed_in self.old)) effect.now) }
        ensures err { OnErr result (self.new ≡ self.old) }
    {
        // Each reference is inside.
        let _size = self.size();
        self.change(effect)
    }

    /// Writes each of these contents into its cell, as `apply` does for that effect.
    pub fn apply_write(&mut self, puts: &[Put]) -> Result<(), Memory>
        requires { EffectFits (placed_size (placed_in self.old)) (effect.Write puts.now) }
        ensures numbers { OnOk result (self.new ≡ numbered_past self.old (effect.Write puts.now)) }
        ensures ok { OnOk result (placed_in self.new ≡ effect_on (placed_in self.old) (effect.Write puts.now)) }
        ensures step { OnOk result (StepsTo (placed_in self.old) (effect.Write puts.now) (placed_in self.new)) }
        ensures sized { OnOk result (placed_size (placed_in self.new) ≡ placed_size (placed_in self.old)) }
        ensures err { OnErr result (self.new ≡ self.old) }
    {
        // Each reference is inside.
        let _size = self.size();
        self.write(puts)
    }

    // Does what an effect says, by its kind.
    fn change(&mut self, effect: &Effect) -> Result<(), Memory>
        requires fits { EffectFits (numbered_size self.old) effect.now }
        requires room { HasRoom (numbered_size self.old) effect.now }
        ensures ok { OnOk result (self.new ≡ numbered_past self.old effect.now) }
        ensures ordered { OnOk result (IsOrderedWrite effect.now) }
        ensures err { OnErr result (self.new ≡ self.old) }
    {
        match effect {
            Effect::Write(puts) => self.write(puts.as_slice()),
            Effect::InsRow(p) => self.ins_row(*p),
            Effect::InsCol(p) => self.ins_col(*p),
            Effect::DelRow(p) => {
                self.del_row(*p);
                Ok(())
            }
            Effect::DelCol(p) => {
                self.del_col(*p);
                Ok(())
            }
            Effect::Move(perm) => self.move_rows(perm),
        }
    }

    // Puts a content into each of these cells.
    fn write(&mut self, puts: &[Put]) -> Result<(), Memory>
        requires { EffectFits (numbered_size self.old) (effect.Write puts.now) }
        ensures ok { OnOk result (self.new ≡ numbered_past self.old (effect.Write puts.now)) }
        ensures ordered { OnOk result (All (λ p. HasOrderedRanges p.content) puts.now) }
        ensures err { OnErr result (self.new ≡ self.old) }
    {
        write_puts(self.cells.as_mut_slice(), &self.rows, &self.cols, puts)
    }

    // A new row before the one at a position, or behind the last one.
    fn ins_row(&mut self, p: u32) -> Result<(), Memory>
        requires place { p ≤ length self.old.rows.slots }
        requires room { length self.old.rows.slots < 16000 }
        ensures ok { OnOk result (self.new ≡ numbered_past self.old (effect.InsRow p)) }
        ensures err { OnErr result (self.new ≡ self.old) }
    {
        self.cells.reserve(1)?;
        self.rows.add_line(p)?;
        match self.cells.push(BTreeMap::new(*self.cells.allocator())) {
            Ok(()) => Ok(()),
            Err(_) => unreachable!(),
        }
    }

    // A new column before the one at a position, or behind the last one.
    fn ins_col(&mut self, p: u32) -> Result<(), Memory>
        requires place { p ≤ length self.old.cols.slots }
        requires room { length self.old.cols.slots < 16000 }
        ensures ok { OnOk result (self.new ≡ numbered_past self.old (effect.InsCol p)) }
        ensures err { OnErr result (self.new ≡ self.old) }
    {
        self.cols.add_line(p)?;
        Ok(())
    }

    // Marks the row at a position.
    fn del_row(&mut self, p: u32)
        requires { p < length self.old.rows.slots }
        ensures { self.new ≡ numbered_past self.old (effect.DelRow p) }
    {
        self.rows.mark(p);
    }

    // Marks the column at a position.
    fn del_col(&mut self, p: u32)
        requires { p < length self.old.cols.slots }
        ensures { self.new ≡ numbered_past self.old (effect.DelCol p) }
    {
        self.cols.mark(p);
    }

    // Each record of a row goes from its position to the image of that position.
    fn move_rows(&mut self, perm: &Perm) -> Result<(), Memory>
        requires proper { IsPerm perm.now }
        requires below { MovesBelow (length self.old.rows.slots) perm.now }
        ensures ok { OnOk result (self.new ≡ numbered_past self.old (effect.Move perm.now)) }
        ensures err { OnErr result (self.new ≡ self.old) }
    {
        self.rows.move_recs(perm)?;
        Ok(())
    }
}
