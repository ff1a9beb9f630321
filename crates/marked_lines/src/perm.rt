ghost use Rattle.std.specs.Prelude.{◌≡◌, ℕ, ◌+◌, ◌-◌, ◌^◌, ◌<◌, ◌↔◌, ◌≢◌, length, [], map, All, AllPairs, Contains, EachIndex, IfOk, slice_get, slice_index};
ghost use Rattle.std.specs.List.{zip};
ghost use Rattle.marked_lines.specs.Moves.{image, turned, IsPerm, shifted, after_insertion};

use ss_base::Memory;
use std::alloc::{AllocError, Global};
use std::marker::Model;

/// A permutation of positions that moves finitely many of them. Contracts see it as the list of
/// its moved positions, ascending, each with its image; every other position is its own image. So
/// equal permutations are equal lists.
#[derive(Debug, Drop)]
pub struct Perm {
    moves: Vec<(u32, u32)>,
}

impl Model for Perm {
    ghost use Rattle.std.specs.Prelude.{List, ℕ};
    ghost use Rattle.marked_lines.specs.Moves.{IsPerm};

    ghost Value = { List (ℕ × ℕ) };

    ghost view = { λ p. p.moves.items };

    ghost invariant = { λ p. IsPerm p.moves.items };
}

impl Perm {
    ghost use Rattle.marked_lines.specs.Moves.{image, source, IsPerm, shifted, after_insertion, permute, MovesBelow};

    /// The permutation that moves nothing. It takes no memory.
    pub fn identity(alloc: Global) -> Perm
        ensures { result ≡ [] }
    {
        Perm {
            moves: Vec::new(alloc),
        }
    }

    /// The permutation that sends each number of `from` to the one at the same place in `to`. Both
    /// lists hold the same numbers, each once. It takes the time of sorting them.
    pub fn from_lists(alloc: Global, from: &[u32], to: &[u32]) -> Result<Perm, Memory>
        requires from_once { AllPairs (λ p q. p ≢ q) from.now }
        requires to_once { AllPairs (λ p q. p ≢ q) to.now }
        requires same { (p : ℕ) → Contains from.now p ↔ Contains to.now p }
        ensures bijective { IfOk result IsPerm }
        ensures sends { IfOk result (λ r. EachIndex from.now (λ k. image r (slice_index from.now k) ≡ slice_index to.now k)) }
        ensures others { IfOk result (λ r. (p : ℕ) → ¬ Contains from.now p → image r p ≡ p) }
    {
        let pairs = pairs_of(alloc, from, to)?;
        settled(pairs)
    }

    /// The image of a position, in the logarithm of the number of moved positions.
    pub fn at(&self, p: u32) -> u32
        ensures value { result ≡ image self.now p }
        ensures bijective { IsPerm self.now }
    {
        match self.moves.binary_search_by_key(&p, |m| m.0) {
            Ok(i) => self.moves[i].1,
            Err(_) => p,
        }
    }

    /// The `i`-th moved position, ascending and counted from 0, with its image, and `None` exactly
    /// where there are no more. It takes constant time.
    pub fn pair(&self, i: usize) -> Option<(u32, u32)>
        ensures value { result ≡ slice_get self.now i }
        ensures bijective { IsPerm self.now }
    {
        self.moves.get(i).copied()
    }

    /// The moved positions, ascending, each with its image.
    pub fn moves(&self) -> &[(u32, u32)]
        ensures value { result.now ≡ self.now }
        ensures bijective { IsPerm self.now }
    {
        &self.moves
    }

    /// A list in which each element went to the image of its position. It takes the time of copying the
    /// list.
    pub fn permuted<T: Copy>(&self, list: &[T]) -> Result<Vec<T>, Memory>
        requires { MovesBelow (length list.now) self.now }
        ensures { IfOk result (λ v. v.items ≡ permute self.now list.now) }
    {
        let mut after = Vec::from_slice(*self.moves.allocator(), list)?;
        for &(from, to) in &self.moves {
            after[to as usize] = list[from as usize];
        }
        Ok(after)
    }

    /// This permutation and then the next one. It takes the time of looking up each image of the first
    /// in the next, and that of merging the moved positions of both.
    pub fn then(&self, next: &Perm) -> Result<Perm, Memory>
        ensures bijective { IfOk result IsPerm }
        ensures composed { IfOk result (λ r. (p : ℕ) → image r p ≡ image next.now (image self.now p)) }
    {
        let mut pairs = moved_on(&self.moves, next)?;
        pairs.extend_from_slice(&next.moves)?;
        settled(pairs)
    }

    /// The permutation that undoes this one, in the time of sorting its moved positions.
    pub fn inverse(&self) -> Result<Perm, Memory>
        ensures bijective { IfOk result IsPerm }
        ensures inverse { IfOk result (λ r. (p : ℕ) → image r p ≡ source self.now p) }
        ensures undoes { IfOk result (λ r. (p : ℕ) → image r (image self.now p) ≡ p) }
        ensures redoes { IfOk result (λ r. (p : ℕ) → image self.now (image r p) ≡ p) }
    {
        let pairs = turned_moves(&self.moves)?;
        settled(pairs)
    }

    /// An equal permutation, in the time of copying it.
    pub fn copy(&self) -> Result<Perm, Memory>
        ensures { IfOk result (λ r. r ≡ self.now) }
    {
        let moves = Vec::from_slice(*self.moves.allocator(), &self.moves)?;
        Ok(Perm { moves })
    }

    /// The permutation after an insertion at `p`: the new line stays in its place, and each other
    /// line is moved as before. Every moved position is below 2^32 - 1. It takes the time of copying.
    pub fn shift(&self, p: u32) -> Result<Perm, Memory>
        requires { MovesBelow (2 ^ 32 - 1) self.now }
        ensures bijective { IfOk result IsPerm }
        ensures moves { IfOk result (λ r. r ≡ shifted p self.now) }
        ensures keeps { IfOk result (λ r. image r p ≡ p) }
        ensures others { IfOk result (λ r. (q : ℕ) → image r (after_insertion p q) ≡ after_insertion p (image self.now q)) }
    {
        let moves = shifted_moves(&self.moves, p)?;
        Ok(Perm { moves })
    }
}

// The numbers of two lists, place by place.
fn pairs_of(alloc: Global, from: &[u32], to: &[u32]) -> Result<Vec<(u32, u32)>, AllocError>
    ensures { IfOk result (λ v. v.items ≡ zip from.now to.now) }
{
    from.iter().copied().zip(to.iter().copied()).collect(alloc)
}

// Each moved position with the image of its image.
fn moved_on(moves: &Vec<(u32, u32)>, next: &Perm) -> Result<Vec<(u32, u32)>, AllocError>
    ensures { IfOk result (λ v. v.items ≡ map (λ m. (m.0, image next.now m.1)) moves.now.items) }
{
    moves
        .iter()
        .map(|m| (m.0, next.at(m.1)))
        .collect(*moves.allocator())
}

// The moves the other way.
fn turned_moves(moves: &Vec<(u32, u32)>) -> Result<Vec<(u32, u32)>, AllocError>
    ensures { IfOk result (λ v. v.items ≡ map turned moves.now.items) }
{
    moves.iter().map(|m| (m.1, m.0)).collect(*moves.allocator())
}

// The moves after an insertion.
fn shifted_moves(moves: &Vec<(u32, u32)>, p: u32) -> Result<Vec<(u32, u32)>, AllocError>
    requires { All (λ m. (m.0 < 2 ^ 32 - 1) × (m.1 < 2 ^ 32 - 1)) moves.now.items }
    ensures { IfOk result (λ v. v.items ≡ shifted p moves.now.items) }
{
    let mut after = Vec::with_capacity(*moves.allocator(), moves.len())?;
    for m in moves {
        after.push((place_after(p, m.0), place_after(p, m.1)))?;
    }
    Ok(after)
}

// Where a position is after an insertion.
fn place_after(inserted: u32, p: u32) -> u32
    requires { p < 2 ^ 32 - 1 }
    ensures { result ≡ after_insertion inserted p }
{
    if p < inserted { p } else { p + 1 }
}

// The permutation that sends each position as the first pair that begins with it says. It takes the
// time of sorting the pairs, and of merging them where they are few runs that ascend.
fn settled(mut pairs: Vec<(u32, u32)>) -> Result<Perm, Memory>
    requires bijective { (back : ℕ → ℕ) × ((p : ℕ) → back (image pairs.items p) ≡ p) × ((q : ℕ) → image pairs.items (back q) ≡ q) }
    ensures { IfOk result (λ r. IsPerm r × ((p : ℕ) → image r p ≡ image pairs.items p)) }
{
    pairs.sort_by_key(|m| m.0)?;
    pairs.dedup_by_key(|m| m.0);
    pairs.retain(|m| m.0 != m.1);
    Ok(Perm { moves: pairs })
}
