use marked_lines::Perm;
use pair_transform::xform;
use sheet_ops::{Effect, Intent, fits, fits_effect};
use ss_base::{Memory, Seq, Size};
use std::alloc::Global;
use std::test::Fail;

const SIZE: Size = Size { rows: 3, cols: 2 };

fn numbers(alloc: Global, numbers: &[u32]) -> Result<Seq<u32>, Fail> {
    Ok(Seq::from_vec(Vec::from_slice(alloc, numbers)?))
}

fn text(alloc: Global, own: &Intent, other: &Effect) -> Result<String, Fail> {
    Ok(format!(in alloc; "{own:?} {other:?}")?)
}

// The first two positions change places.
fn exchange(alloc: Global) -> Result<Effect, Memory> {
    let perm = Perm::from_lists(alloc, &[0, 1], &[1, 0])?;
    Ok(Effect::Move(perm))
}

// Three positions in a round.
fn round(alloc: Global) -> Result<Effect, Memory> {
    let perm = Perm::from_lists(alloc, &[0, 1, 2], &[1, 2, 0])?;
    Ok(Effect::Move(perm))
}

// The transformed pair, and nothing where one of the two doesn't fit.
fn transformed(alloc: Global, own: &Intent, other: &Effect) -> Result<String, Fail> {
    if fits(own, SIZE).is_some() || fits_effect(other, SIZE).is_some() {
        return Ok(String::new(alloc));
    }
    let (after, effect) = xform(own, other, SIZE)?;
    text(alloc, &after, &effect)
}

#[test]
fn the_later_of_two_insertions_stands_to_the_right(rt: HostRuntime) -> Result<(), Fail> {
    let alloc = rt.alloc();
    let told = transformed(alloc, &Intent::InsRow(2), &Effect::InsRow(2))?;
    let same = text(alloc, &Intent::InsRow(3), &Effect::InsRow(2))?;
    assert_eq!(rt; told.as_str(), same.as_str());
    Ok(())
}

#[test]
fn a_sort_keeps_its_slots_beside_moves(rt: HostRuntime) -> Result<(), Fail> {
    let alloc = rt.alloc();
    let sort = Intent::Sort(numbers(alloc, &[1, 2])?, numbers(alloc, &[2, 1])?);
    let told = transformed(alloc, &sort, &exchange(alloc)?)?;
    let after = Intent::Sort(numbers(alloc, &[1, 2])?, numbers(alloc, &[2, 0])?);
    let same = text(alloc, &after, &round(alloc)?)?;
    assert_eq!(rt; told.as_str(), same.as_str());
    Ok(())
}
