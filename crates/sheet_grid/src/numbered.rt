ghost use Rattle.std.specs.Prelude.{◌≡◌, ◌<◌, ◌≤◌, ◌^◌, ◌-◌, ◌↔◌, ◌++◌, ◌∷◌, [], false, All, IfOk, OnOk, OnErr, IfSome, IsNone, length, insert, map, slice_index, slice_get};
ghost use Rattle.std.specs.Vec.{vec_len, vec_capacity};
ghost use Rattle.marked_lines.specs.Moves.{after_insertion, image, permute, IsPerm, MovesBelow};
ghost use Rattle.sheet_ops.specs.Transforms.{numbers_from};
ghost use Rattle.sheet_grid.specs.Numbers.{IsNumbered};

use marked_lines::{Lines, Perm};
use ss_base::Memory;
use std::alloc::{AllocError, Global};
use std::marker::Model;

/// The numbers of what stands at the positions. Contracts see them as the list of numbers by
/// position; beside it the positions are kept by number.
#[derive(Debug, Drop)]
pub struct Numbered {
    numbers: Vec<u32>,
    places: Vec<u32>,
}

impl Model for Numbered {
    ghost use Rattle.std.specs.Prelude.{List, ℕ};
    ghost use Rattle.sheet_grid.specs.Numbers.{IsNumbered};

    ghost Value = { List ℕ };

    ghost view = { λ n. n.numbers.items };

    ghost invariant = { λ n. IsNumbered n.numbers.items n.places.items };
}

impl Numbered {
    /// So many lines in their order.
    pub fn new(alloc: Global, count: u32) -> Result<Numbered, Memory>
        requires { count ≤ 16000 }
        ensures { IfOk result (λ n. n ≡ numbers_from 0 count) }
    {
        let numbers = first_numbers(alloc, count)?;
        let places = first_numbers(alloc, count)?;
        Ok(Numbered { numbers, places })
    }

    /// An equal list.
    pub fn copy(&self) -> Result<Numbered, Memory>
        ensures { IfOk result (λ r. r ≡ self.now) }
    {
        let numbers = Vec::from_slice(*self.numbers.allocator(), &self.numbers)?;
        let places = Vec::from_slice(*self.places.allocator(), &self.places)?;
        Ok(Numbered { numbers, places })
    }

    /// How many lines ever came.
    pub fn len(&self) -> u32
        ensures value { result ≡ length self.now }
        ensures few { length self.now ≤ 16000 }
    {
        self.numbers.len() as u32
    }

    /// The number of what stands at a position.
    pub fn number(&self, p: u32) -> u32
        requires { p < length self.now }
        ensures number { result ≡ slice_index self.now p }
        ensures below { result < length self.now }
    {
        self.numbers[p as usize]
    }

    /// The number of what stands at a position, and `None` exactly where there is none.
    pub fn get(&self, p: u32) -> Option<u32>
        ensures { result ≡ slice_get self.now p }
    {
        self.numbers.get(p as usize).copied()
    }

    /// Where the one with a number stands, and `None` exactly where it never came.
    pub fn place(&self, number: u32) -> Option<u32>
        ensures there { IfSome result (λ p. (p < length self.now) × (slice_index self.now p ≡ number)) }
        ensures none { IsNone result ↔ (length self.now ≤ number) }
    {
        self.places.get(number as usize).copied()
    }

    /// These numbers, each of them gone from its position to the image of that position.
    pub fn moved(&self, perm: &Perm) -> Result<Numbered, Memory>
        requires proper { IsPerm perm.now }
        requires below { MovesBelow (length self.now) perm.now }
        ensures { IfOk result (λ r. r ≡ permute perm.now self.now) }
    {
        let numbers = perm.permuted(&self.numbers)?;
        let places = places_moved(&self.numbers, &self.places, perm)?;
        Ok(Numbered { numbers, places })
    }
}

/// A line more before the one at a position, or behind the last one: in the numbers of the slots and in
/// those of the records it has the next number, and it isn't marked. It takes one pass over the memory of
/// each. A refused call leaves all three as they were.
pub fn add_line(
    slots: &mut Numbered,
    recs: &mut Numbered,
    marks: &mut Lines,
    p: u32,
) -> Result<(), Memory>
    requires place { p ≤ length slots.old }
    requires room { length slots.old < 16000 }
    requires recs { length recs.old ≡ length slots.old }
    requires marks { length marks.old ≡ length slots.old }
    ensures slots { OnOk result (slots.new ≡ insert slots.old p (length slots.old)) }
    ensures recs { OnOk result (recs.new ≡ insert recs.old p (length slots.old)) }
    ensures marks { OnOk result (marks.new ≡ insert marks.old p false) }
    ensures err { OnErr result ((slots.new ≡ slots.old) × (recs.new ≡ recs.old) × (marks.new ≡ marks.old)) }
{
    // Nothing is refused behind the marks.
    slots.numbers.reserve(1)?;
    slots.places.reserve(1)?;
    recs.numbers.reserve(1)?;
    recs.places.reserve(1)?;
    marks.insert(p)?;
    put_in(&mut slots.numbers, &mut slots.places, p);
    put_in(&mut recs.numbers, &mut recs.places, p);
    Ok(())
}

// A further number, the next one, at a position, and its place.
fn put_in(numbers: &mut Vec<u32>, places: &mut Vec<u32>, p: u32)
    requires place { p ≤ length numbers.old.items }
    requires short { length numbers.old.items < 16000 }
    requires few { All (λ q. q < 2 ^ 32 - 1) places.old.items }
    requires numbers { vec_len numbers.old < vec_capacity numbers.old }
    requires places { vec_len places.old < vec_capacity places.old }
    ensures numbers { numbers.new.items ≡ insert numbers.old.items p (length numbers.old.items) }
    ensures places { places.new.items ≡ map (after_insertion p) places.old.items ++ p ∷ [] }
{
    let next = numbers.len() as u32;
    raise(places.as_mut_slice(), p);
    match places.push(p) {
        Ok(()) => {}
        Err(_) => unreachable!(),
    }
    match numbers.insert(p as usize, next) {
        Ok(()) => {}
        Err(_) => unreachable!(),
    }
}

// So many numbers from 0 on.
fn first_numbers(alloc: Global, count: u32) -> Result<Vec<u32>, AllocError>
    ensures { IfOk result (λ v. v.items ≡ numbers_from 0 count) }
{
    let mut numbers = Vec::with_capacity(alloc, count as usize)?;
    for i in 0..count {
        numbers.push(i)?;
    }
    Ok(numbers)
}

// Where each number stands after each went from its position to the image of that position: only those
// that move are looked at.
fn places_moved(numbers: &[u32], places: &Vec<u32>, perm: &Perm) -> Result<Vec<u32>, AllocError>
    requires numbered { IsNumbered numbers.now places.now.items }
    requires below { MovesBelow (length numbers.now) perm.now }
    ensures { IfOk result (λ v. v.items ≡ map (image perm.now) places.now.items) }
{
    let mut after = Vec::from_slice(*places.allocator(), places)?;
    for &(from, to) in perm.moves() {
        after[numbers[from as usize] as usize] = to;
    }
    Ok(after)
}

// Each place from `p` on is one further.
fn raise(places: &mut [u32], p: u32)
    requires { All (λ q. q < 2 ^ 32 - 1) places.old }
    ensures { places.new ≡ map (after_insertion p) places.old }
{
    for place in places.iter_mut() {
        *place = after(*place, p);
    }
}

// Where a position is after an insertion.
fn after(place: u32, inserted: u32) -> u32
    requires { place < 2 ^ 32 - 1 }
    ensures { result ≡ after_insertion inserted place }
{
    if place < inserted { place } else { place + 1 }
}
