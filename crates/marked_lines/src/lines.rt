ghost use Rattle.std.specs.Prelude.{◌≡◌, ℕ, ◌+◌, ◌-◌, ◌<◌, ◌≤◌, ◌↔◌, true, false, length, replicate, insert, IfOk, OnOk, OnErr, IsNone, IfSome, slice_get, slice_set};

use crate::perm::Perm;
use crate::places::{insert_place, moves_no_mark, places_of};
use ss_base::Memory;
use std::alloc::Global;
use std::marker::Model;

/// No list of lines ever has more lines than this.
pub const MOST_LINES: u32 = 16_000;

/// The lines of one axis of a sheet, of which some are hidden for good. Contracts see it as the
/// list of marks, `true` for a hidden line. A position counts all lines from 0, a visible index
/// only the visible ones (the tombstones of Oster, Urso, Molli and Imine).
#[derive(Debug, Drop)]
pub struct Lines {
    marks: Vec<bool>,
    // the positions of the visible lines, ascending
    places: Vec<u32>,
}

impl Model for Lines {
    ghost use Rattle.std.specs.Prelude.{List, Bool};
    ghost use Rattle.marked_lines.specs.Marks.{IsIndexed};

    ghost Value = { List Bool };

    ghost view = { λ l. l.marks.items };

    ghost invariant = { λ l. IsIndexed l.marks.items l.places.items };
}

impl Lines {
    ghost use Rattle.marked_lines.specs.Marks.{visible_count, visible_before, place_of, visible_of, span_of};
    ghost use Rattle.marked_lines.specs.Moves.{permute, MovesBelow};

    /// As many visible lines as `count` says, in the time of their number.
    pub fn new(alloc: Global, count: u32) -> Result<Lines, Memory>
        requires { count ≤ MOST_LINES }
        ensures { IfOk result (λ l. l ≡ replicate count false) }
    {
        let marks = vec![in alloc; false; count as usize]?;
        let places = places_of(alloc, &marks)?;
        Ok(Lines { marks, places })
    }

    /// How many lines there are, hidden ones too. It takes constant time.
    pub fn len(&self) -> u32
        ensures value { result ≡ length self.now }
        ensures within { length self.now ≤ MOST_LINES }
    {
        self.marks.len() as u32
    }

    /// How many lines are visible. It takes constant time.
    pub fn visible(&self) -> u32
        ensures value { result ≡ visible_count self.now }
        ensures within { visible_count self.now ≤ length self.now }
    {
        self.places.len() as u32
    }

    /// Whether the line at position `p` is hidden. It takes constant time.
    pub fn is_marked(&self, p: u32) -> bool
        requires { p < length self.now }
        ensures { slice_get self.now p ≡ Some result }
    {
        self.marks[p as usize]
    }

    /// Hides the line at position `p`. It takes the logarithm and one move of memory.
    pub fn mark(&mut self, p: u32)
        requires { p < length self.old }
        ensures { self.new ≡ slice_set self.old p true }
    {
        if !self.marks[p as usize] {
            let v = self.visible_before(p as usize);
            let _ = self.places.remove(v);
            self.marks[p as usize] = true;
        }
    }

    /// Puts a visible line before the one at position `p`, or behind the last one. It takes the
    /// logarithm and one pass over the memory behind that place.
    pub fn insert(&mut self, p: u32) -> Result<(), Memory>
        requires place { p ≤ length self.old }
        requires room { length self.old < MOST_LINES }
        ensures ok { OnOk result (self.new ≡ insert self.old p false) }
        ensures err { OnErr result (self.new ≡ self.old) }
    {
        self.marks.reserve(1)?;
        let v = self.visible_before(p as usize);
        insert_place(&mut self.places, v, p)?;
        match self.marks.insert(p as usize, false) {
            Ok(()) => Ok(()),
            Err(_) => unreachable!(),
        }
    }

    /// Each line goes with its mark from its position to the image of that position. Where no marked
    /// line moves, it takes the time of a look at those that move, and no memory; else that of copying
    /// the list and of making its index anew.
    pub fn permute(&mut self, perm: &Perm) -> Result<(), Memory>
        requires { MovesBelow (length self.old) perm.now }
        ensures ok { OnOk result (self.new ≡ permute perm.now self.old) }
        ensures err { OnErr result (self.new ≡ self.old) }
    {
        if moves_no_mark(&self.marks, perm) {
            return Ok(());
        }
        let marks = perm.permuted(&self.marks)?;
        let places = places_of(*self.marks.allocator(), &marks)?;
        self.marks = marks;
        self.places = places;
        Ok(())
    }

    /// The position of the visible line with this visible index, `None` exactly at the number of
    /// visible lines or above. It takes constant time.
    pub fn place_of(&self, visible: u32) -> Option<u32>
        ensures value { result ≡ place_of self.now visible }
        ensures none { IsNone result ↔ (visible_count self.now ≤ visible) }
        ensures index { IfSome result (λ p. visible_of self.now p ≡ Some visible) }
    {
        self.places.get(visible as usize).copied()
    }

    /// The visible index of the line at position `p`, `None` exactly for a hidden line. It takes
    /// the logarithm.
    pub fn visible_of(&self, p: u32) -> Option<u32>
        requires { p < length self.now }
        ensures value { result ≡ visible_of self.now p }
        ensures none { IsNone result ↔ (slice_get self.now p ≡ Some true) }
        ensures place { IfSome result (λ v. place_of self.now v ≡ Some p) }
    {
        if self.marks[p as usize] {
            None
        } else {
            Some(self.visible_before(p as usize) as u32)
        }
    }

    /// The visible indexes of the first and of the last visible line from position `first` to
    /// position `last`, both counted, `None` exactly with no visible line there. It takes the
    /// logarithm.
    pub fn span_of(&self, first: u32, last: u32) -> Option<(u32, u32)>
        requires order { first ≤ last }
        requires place { last < length self.now }
        ensures value { result ≡ span_of self.now first last }
        ensures none { IsNone result ↔ ((p : ℕ) → first ≤ p → p ≤ last → slice_get self.now p ≡ Some true) }
        ensures order { IfSome result (λ s. (s.0 ≤ s.1) × (s.1 < visible_count self.now)) }
        // A visible line is between the positions exactly where its index is between those of the span.
        ensures between { (v p : ℕ) → place_of self.now v ≡ Some p →
            IfSome result (λ s. ((first ≤ p) × (p ≤ last)) ↔ ((s.0 ≤ v) × (v ≤ s.1))) }
    {
        let before = self.visible_before(first as usize);
        let through = self.visible_before(last as usize + 1);
        if before < through {
            Some((before as u32, through as u32 - 1))
        } else {
            None
        }
    }

    // How many visible lines stand before a position, in the logarithm.
    fn visible_before(&self, p: usize) -> usize
        ensures value { result ≡ visible_before self.now p }
        ensures within { result ≤ visible_count self.now }
        ensures short { visible_count self.now ≤ MOST_LINES }
    {
        self.places.partition_point(|q| (*q as usize) < p)
    }

    /// An equal list, in the time of copying it.
    pub fn copy(&self) -> Result<Lines, Memory>
        ensures { IfOk result (λ l. l ≡ self.now) }
    {
        let marks = Vec::from_slice(*self.marks.allocator(), &self.marks)?;
        let places = Vec::from_slice(*self.places.allocator(), &self.places)?;
        Ok(Lines { marks, places })
    }
}
