ghost use Rattle.std.specs.Prelude.{◌≡◌, ◌<◌, ◌≤◌, ◌-◌, ◌↔◌, nat_lt, if◌then◌else◌, true, length, Some, IfOk, OnOk, OnErr, IfSome, IsNone, slice_get, slice_index, slice_set};
ghost use Rattle.marked_lines.specs.Moves.{IsPerm, MovesBelow};
ghost use Rattle.marked_lines.specs.Marks.{visible_places, visible_of, span_of};
ghost use Rattle.sheet_grid.specs.Kept.{NumberedAxis, line_added, recs_moved, opening_kept};
ghost use Rattle.sheet_grid.specs.Numbering.{IsAxis, place_of_rec, place_of_slot, is_dead, live_place};

use crate::numbered::{Numbered, add_line};
use marked_lines::{Lines, Perm};
use ss_base::Memory;
use std::alloc::Global;
use std::marker::Model;

/// The lines of one axis: by position the number of the slot, the number of the record in it and
/// whether it is marked, and the positions by number.
#[derive(Debug, Drop)]
pub struct AxisLines {
    slots: Numbered,
    recs: Numbered,
    marks: Lines,
}

impl Model for AxisLines {
    ghost use Rattle.sheet_grid.specs.Kept.{NumberedAxis};
    ghost use Rattle.sheet_grid.specs.Numbering.{IsAxis};

    ghost Value = { NumberedAxis };

    ghost view = { λ a. record { slots = a.slots; recs = a.recs; marks = a.marks } };

    ghost invariant = { λ a. IsAxis (record { slots = a.slots; recs = a.recs; marks = a.marks }) };
}

impl AxisLines {
    /// So many lines, the first with the number 0.
    pub fn new(alloc: Global, count: u32) -> Result<AxisLines, Memory>
        requires { count ≤ 16000 }
        ensures { IfOk result (λ a. a ≡ opening_kept count) }
    {
        let slots = Numbered::new(alloc, count)?;
        let recs = Numbered::new(alloc, count)?;
        let marks = Lines::new(alloc, count)?;
        Ok(AxisLines { slots, recs, marks })
    }

    /// How many lines there are, hidden ones too.
    pub fn len(&self) -> u32
        ensures value { result ≡ length self.now.slots }
        ensures few { length self.now.slots ≤ 16000 }
        ensures kept { IsAxis self.now }
    {
        self.slots.len()
    }

    /// The number of the record at a position.
    pub fn rec_number(&self, p: u32) -> u32
        requires { p < length self.now.slots }
        ensures number { result ≡ slice_index self.now.recs p }
        ensures below { result < length self.now.slots }
        ensures place { place_of_rec self.now result ≡ Some p }
    {
        self.recs.number(p)
    }

    /// The number of the record at a position, and `None` exactly where there is none.
    pub fn rec_at(&self, p: u32) -> Option<u32>
        ensures { result ≡ slice_get self.now.recs p }
    {
        self.recs.get(p)
    }

    /// Where the record with a number stands, and `None` exactly where it never came.
    pub fn rec_place(&self, number: u32) -> Option<u32>
        ensures value { result ≡ place_of_rec self.now number }
        ensures place { IfSome result (λ p. (p < length self.now.slots) × (slice_index self.now.recs p ≡ number)) }
        ensures none { IsNone result ↔ (length self.now.slots ≤ number) }
    {
        self.recs.place(number)
    }

    /// Where the slot with a number is, and `None` exactly where it never came.
    pub fn slot_place(&self, number: u32) -> Option<u32>
        ensures value { result ≡ place_of_slot self.now number }
        ensures place { IfSome result (λ p. (p < length self.now.slots) × (slice_index self.now.slots p ≡ number)) }
        ensures none { IsNone result ↔ (length self.now.slots ≤ number) }
    {
        self.slots.place(number)
    }

    /// An equal axis.
    pub fn copy(&self) -> Result<AxisLines, Memory>
        ensures { IfOk result (λ a. a ≡ self.now) }
    {
        let slots = self.slots.copy()?;
        let recs = self.recs.copy()?;
        let marks = self.marks.copy()?;
        Ok(AxisLines { slots, recs, marks })
    }

    /// The number of the slot at a position, and `None` exactly where there is none.
    pub fn slot_at(&self, p: u32) -> Option<u32>
        ensures { result ≡ slice_get self.now.slots p }
    {
        self.slots.get(p)
    }

    /// The number of the slot at a position.
    pub fn slot_number(&self, p: u32) -> u32
        requires { p < length self.now.slots }
        ensures number { result ≡ slice_index self.now.slots p }
        ensures below { result < length self.now.slots }
        ensures place { place_of_slot self.now result ≡ Some p }
    {
        self.slots.number(p)
    }

    /// The record at a position becomes dead.
    pub fn mark(&mut self, p: u32)
        requires { p < length self.old.slots }
        ensures { self.new ≡ record self.old { marks = slice_set self.old.marks p true } }
    {
        self.marks.mark(p);
    }

    /// A line more before the one at a position, or behind the last one. A refused call leaves the lines.
    pub fn add_line(&mut self, p: u32) -> Result<(), Memory>
        requires place { p ≤ length self.old.slots }
        requires room { length self.old.slots < 16000 }
        ensures ok { OnOk result (self.new ≡ line_added self.old p) }
        ensures err { OnErr result (self.new ≡ self.old) }
    {
        add_line(&mut self.slots, &mut self.recs, &mut self.marks, p)?;
        Ok(())
    }

    /// Each record goes from its position to the image of that position. A refused call leaves the lines.
    pub fn move_recs(&mut self, perm: &Perm) -> Result<(), Memory>
        requires proper { IsPerm perm.now }
        requires below { MovesBelow (length self.old.slots) perm.now }
        ensures ok { OnOk result (self.new ≡ recs_moved self.old perm.now) }
        ensures err { OnErr result (self.new ≡ self.old) }
    {
        let recs = self.recs.moved(perm)?;
        self.marks.permute(perm)?;
        self.recs = recs;
        Ok(())
    }

    /// How many lines are visible.
    pub fn visible(&self) -> u32
        ensures value { result ≡ length (visible_places self.now.marks) }
        ensures few { result ≤ 16000 }
    {
        self.marks.visible()
    }

    /// The position of the visible line with this visible index, and `None` exactly where there is
    /// none.
    pub fn place_of(&self, visible: u32) -> Option<u32>
        ensures value { result ≡ slice_get (visible_places self.now.marks) visible }
        ensures within { IfSome result (λ p. p < length self.now.slots) }
    {
        self.marks.place_of(visible)
    }

    /// The visible index of the line at a position, and `None` exactly where it is hidden or isn't
    /// there.
    pub fn visible_of(&self, p: u32) -> Option<u32>
        ensures value { result ≡ visible_of self.now.marks p }
        ensures few { IfSome result (λ visible. visible < 16000) }
    {
        if p < self.len() {
            self.marks.visible_of(p)
        } else {
            None
        }
    }

    /// The visible indexes of the first and of the last visible line from one position to another,
    /// both counted, and `None` exactly where no line between is visible.
    pub fn span_of(&self, first: u32, last: u32) -> Option<(u32, u32)>
        ensures value { result ≡ span_of self.now.marks first last }
        ensures few { IfSome result (λ seen. (seen.0 < 16000) × (seen.1 < 16000)) }
    {
        if last < first {
            return None;
        }
        let count = self.len();
        if count <= first {
            return None;
        }
        self.marks.span_of(first, last_within(last, count))
    }

    /// Whether the record at a position is dead.
    pub fn is_marked(&self, p: u32) -> bool
        requires { p < length self.now.slots }
        ensures { slice_get self.now.marks p ≡ Some result }
    {
        self.marks.is_marked(p)
    }

    /// The position of the record with a number, and `None` exactly where it is dead or never came.
    pub fn live_place(&self, number: u32) -> Option<u32>
        ensures { result ≡ live_place self.now number }
    {
        let p = self.rec_place(number)?;
        if self.is_dead(number) { None } else { Some(p) }
    }

    /// Whether the record with a number is dead.
    pub fn is_dead(&self, number: u32) -> bool
        requires { number < length self.now.slots }
        ensures { result ≡ is_dead self.now number }
    {
        match self.recs.place(number) {
            Some(p) => self.marks.is_marked(p),
            None => unreachable!(),
        }
    }
}

// A position, or the last one of so many if it is past the end.
fn last_within(p: u32, count: u32) -> u32
    requires { 0 < count }
    ensures value { result ≡ (if nat_lt p count then p else count - 1) }
    ensures within { result < count }
{
    if p < count { p } else { count - 1 }
}
