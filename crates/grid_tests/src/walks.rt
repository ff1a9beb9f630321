ghost use Rattle.std.specs.Prelude.{◌≡◌, ◌<◌, ◌+◌, ◌-◌, ◌^◌, [], ◌∷◌, if◌then◌else◌, nat_eq, nat_lt, refl};

use cell_walk::{Colour, Found, Interval, Mentions, Progress, walk_new};
use std::test::Fail;

/// So many cells, each of which mentions the next one, and the last one the first where it is a ring.
#[derive(Drop)]
struct Chain {
    count: u32,
    ring: bool,
}

impl Mentions for Chain {
    ghost mentions = { λ s cell. if nat_lt (cell + 1) s.count then (cell + 1) ∷ [] else if s.ring then 0 ∷ [] else [] };

    ghost rest = { λ s cell place. if nat_eq place.reference 0 then (if nat_lt (cell + 1) s.count then (cell + 1) ∷ [] else if s.ring then 0 ∷ [] else []) else [] };

    ghost from_start = { λ s cell. refl };

    fn next(&self, cell: u32, place: Progress) -> Option<(Interval, Progress)> {
        let behind = Progress {
            reference: 1,
            row: 0,
            col: 0,
        };
        if place.reference != 0 {
            None
        } else if cell < self.count && cell + 1 < self.count {
            Some((one(cell + 1), behind))
        } else if self.ring {
            Some((one(0), behind))
        } else {
            None
        }
    }
}

/// A run of one cell.
fn one(cell: u32) -> Interval
    requires { cell < 2 ^ 32 - 1 }
    ensures first { result.first ≡ cell }
    ensures end { result.end ≡ cell + 1 }
{
    Interval {
        first: cell,
        end: cell + 1,
    }
}

fn walked(rt: &HostRuntime, ring: bool) -> Result<Found, Fail> {
    let count = 64_000;
    Ok(walk_new(rt.alloc(), &Chain { count, ring }, count)?)
}

#[test]
fn a_long_chain_is_ordered_from_its_end(rt: HostRuntime) -> Result<(), Fail> {
    let found = walked(&rt, false)?;
    assert_eq!(rt; found.order.len(), 64_000);
    assert_eq!(rt; found.order.first().copied(), Some(63_999));
    assert_eq!(rt; found.order.last().copied(), Some(0));
    Ok(())
}

#[test]
fn a_long_ring_is_circular(rt: HostRuntime) -> Result<(), Fail> {
    let found = walked(&rt, true)?;
    assert!(rt; found.order.is_empty());
    assert!(rt; found.colours.iter().all(|c| matches!(c, Colour::Circular)));
    Ok(())
}
