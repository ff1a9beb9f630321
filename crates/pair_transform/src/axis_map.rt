ghost use Rattle.std.specs.Prelude.{◌≡◌, ◌-◌, ◌^◌, ◌<◌};
ghost use Rattle.marked_lines.specs.Moves.{after_insertion};
ghost use Rattle.sheet_ops.specs.Maps.{LineMap};
ghost use Rattle.pair_transform.specs.AxisMaps.{line_map};

use marked_lines::Perm;

/// Where the positions of one axis go, rows or columns.
#[derive(Drop)]
pub enum AxisMap<'a> {
    /// All stay.
    Same,
    /// A line came before the one at this position, or behind the last one.
    Inserted(u32),
    /// The records went from their positions to the images, and the slots stay.
    Moved(&'a Perm),
}

impl AxisMap<'_> {
    /// Where the record at a position stands afterwards. It takes constant time, and the logarithm
    /// of the moved positions where records moved.
    pub fn rec(&self, p: u32) -> u32
        requires { p < 2 ^ 32 - 1 }
        ensures { result ≡ (line_map self.now).rec p }
    {
        match self {
            AxisMap::Same => p,
            AxisMap::Inserted(at) => after_insertion(*at, p),
            AxisMap::Moved(perm) => perm.at(p),
        }
    }

    /// Where the slot at a position stands afterwards. It takes constant time.
    pub fn slot(&self, p: u32) -> u32
        requires { p < 2 ^ 32 - 1 }
        ensures { result ≡ (line_map self.now).slot p }
    {
        match self {
            AxisMap::Inserted(at) => after_insertion(*at, p),
            AxisMap::Same | AxisMap::Moved(_) => p,
        }
    }
}

/// Where what stood at a position stands after an insertion.
fn after_insertion(at: u32, p: u32) -> u32
    requires { p < 2 ^ 32 - 1 }
    ensures { result ≡ after_insertion at p }
{
    if p < at { p } else { p + 1 }
}
