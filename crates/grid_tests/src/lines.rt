ghost use Rattle.std.specs.Prelude.{◌≡◌, length, IfOk};
ghost use Rattle.marked_lines.specs.Moves.{MovesBelow};

use marked_lines::{Lines, Perm};
use ss_base::Memory;
use std::alloc::Global;
use std::test::Fail;

// Seven lines, of which the first, the fourth and the last are hidden.
fn seven(alloc: Global) -> Result<Lines, Memory>
    ensures { IfOk result (λ l. length l ≡ 7) }
{
    let mut lines = Lines::new(alloc, 7)?;
    lines.mark(0);
    lines.mark(3);
    lines.mark(6);
    Ok(lines)
}

// Three positions in a round, and two that change places.
fn five(alloc: Global) -> Result<Perm, Memory>
    ensures { IfOk result (MovesBelow 5) }
{
    let perm = Perm::from_lists(alloc, &[0, 1, 2, 3, 4], &[2, 0, 1, 4, 3])?;
    Ok(perm)
}

// The images of the first six positions.
fn images(perm: &Perm) -> [u32; 6] {
    let mut images = [0; 6];
    for p in 0..6u32 {
        images[p as usize] = perm.at(p);
    }
    images
}

// The marks of the first seven lines.
fn marks(lines: &Lines) -> [bool; 7] {
    let mut marks = [false; 7];
    for p in 0..7u32 {
        if p < lines.len() {
            marks[p as usize] = lines.is_marked(p);
        }
    }
    marks
}

#[test]
fn positions_and_visible_indexes(rt: HostRuntime) -> Result<(), Fail> {
    let lines = seven(rt.alloc())?;
    let indexes = [None, Some(0), Some(1), None, Some(2), Some(3), None];
    let places = [Some(1), Some(2), Some(4), Some(5), None, None, None];
    for p in 0..7u32 {
        assert!(rt; lines.visible_of(p) == indexes[p as usize]);
        assert!(rt; lines.place_of(p) == places[p as usize]);
    }
    assert!(rt; lines.visible() == 4);
    assert!(rt; lines.span_of(0, 6) == Some((0, 3)));
    assert!(rt; lines.span_of(2, 4) == Some((1, 2)));
    assert!(rt; lines.span_of(3, 3).is_none());
    Ok(())
}

#[test]
fn lines_come_and_move(rt: HostRuntime) -> Result<(), Fail> {
    let mut lines = seven(rt.alloc())?;
    lines.permute(&five(rt.alloc())?)?;
    let mut lines = lines.copy()?;
    assert!(rt; marks(&lines) == [false, false, true, false, true, false, true]);
    assert!(rt; lines.len() == 7);
    lines.insert(7)?;
    assert!(rt; lines.len() == 8);
    lines.insert(0)?;
    assert!(rt; marks(&lines) == [false, false, false, true, false, true, false]);
    assert!(rt; lines.len() == 9);
    Ok(())
}

#[test]
fn permutations_of_five(rt: HostRuntime) -> Result<(), Fail> {
    let perm = five(rt.alloc())?;
    let back = perm.inverse()?;
    let twice = perm.then(&perm)?;
    assert!(rt; images(&perm) == [2, 0, 1, 4, 3, 5]);
    assert!(rt; images(&back) == [1, 2, 0, 4, 3, 5]);
    assert!(rt; images(&twice) == [1, 2, 0, 3, 4, 5]);
    assert!(rt; twice.pair(2) == Some((2, 0)));
    assert!(rt; twice.pair(3).is_none());
    assert!(rt; perm.then(&back)?.pair(0).is_none());
    assert!(rt; back.then(&perm)?.pair(0).is_none());
    Ok(())
}

#[test]
fn shifts(rt: HostRuntime) -> Result<(), Fail> {
    let perm = five(rt.alloc())?.copy()?;
    assert!(rt; images(&perm.shift(0)?) == [0, 3, 1, 2, 5, 4]);
    assert!(rt; images(&perm.shift(2)?) == [3, 0, 2, 1, 5, 4]);
    assert!(rt; images(&perm.shift(9)?) == [2, 0, 1, 4, 3, 5]);
    Ok(())
}
