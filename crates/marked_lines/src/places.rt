ghost use Rattle.std.specs.Prelude.{◌≡◌, ℕ, ◌+◌, ◌-◌, ◌^◌, ◌<◌, ◌≤◌, ◌++◌, take, drop, length, map, All, IfOk, OnOk, OnErr, IsTrue, vec_len};
ghost use Rattle.marked_lines.specs.Marks.{visible_places, raised};
ghost use Rattle.marked_lines.specs.Moves.{permute, MovesBelow};

use crate::perm::Perm;
use std::alloc::{AllocError, Global};

// The positions of the visible lines.
pub fn places_of(alloc: Global, marks: &[bool]) -> Result<Vec<u32>, AllocError>
    requires { length marks.now < 2 ^ 32 }
    ensures { IfOk result (λ v. v.items ≡ visible_places marks.now) }
{
    let mut places = Vec::with_capacity(alloc, marks.len())?;
    for (p, marked) in marks.iter().enumerate() {
        if !*marked {
            places.push(p as u32)?;
        }
    }
    Ok(places)
}

// Whether none of the lines that move is marked.
pub fn moves_no_mark(marks: &[bool], perm: &Perm) -> bool
    requires { MovesBelow (length marks.now) perm.now }
    ensures { IsTrue result → permute perm.now marks.now ≡ marks.now }
{
    for &(from, _) in perm.moves() {
        if marks[from as usize] {
            return false;
        }
    }
    true
}

// Puts a place in at an index, and moves each one behind it one further.
pub fn insert_place(places: &mut Vec<u32>, v: usize, p: u32) -> Result<(), AllocError>
    requires within { v ≤ vec_len places.old }
    requires fits { All (λ q. q < 2 ^ 32 - 1) places.old.items }
    requires place { p < 2 ^ 32 - 1 }
    ensures ok { OnOk result (places.new.items ≡ raised places.old.items v p) }
    ensures err { OnErr result (places.new.items ≡ places.old.items) }
{
    places.insert(v, p)?;
    raise_from(places.as_mut_slice(), v + 1);
    Ok(())
}

// Each place from an index on is one further.
fn raise_from(places: &mut [u32], from: usize)
    requires within { from ≤ length places.old }
    requires fits { All (λ p. p < 2 ^ 32 - 1) places.old }
    ensures { places.new ≡ take from places.old ++ map (λ p. p + 1) (drop from places.old) }
{
    let (_, later) = places.split_at_mut(from);
    raise(later);
}

// Each place is one further.
fn raise(places: &mut [u32])
    requires { All (λ p. p < 2 ^ 32 - 1) places.old }
    ensures { places.new ≡ map (λ p. p + 1) places.old }
{
    for place in places.iter_mut() {
        *place += 1;
    }
}
