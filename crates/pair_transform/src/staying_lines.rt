ghost use Rattle.std.specs.Prelude.{◌≡◌, IsTrue};
ghost use Rattle.pair_transform.specs.StayingLines.{lines_map, HaveAscendingSlots};

use crate::axis_map::AxisMap;
use sheet_ops::is_among;
use ss_base::Seq;

/// Which lines of one axis, rows or columns, surely stay where they are.
#[derive(Drop)]
pub enum StayingLines<'a> {
    /// Those that a map leaves at their positions.
    Map(AxisMap<'a>),
    /// Those that a sort leaves, of the records at the positions of the second list into the slots of the
    /// first, which ascend. No permutation is made for it.
    Sort(&'a Seq<u32>, &'a Seq<u32>),
}

impl StayingLines<'_> {
    /// Whether the record at a position surely stays there, in the logarithm of the lines that move.
    pub fn has_record(&self, p: u32) -> bool
        requires { HaveAscendingSlots self.now }
        ensures { IsTrue result → (lines_map self.now).rec p ≡ p }
    {
        match self {
            StayingLines::Map(map) => p < u32::MAX && map.rec(p) == p,
            StayingLines::Sort(slots, _) => !is_among(slots.as_slice(), p),
        }
    }

    /// Whether the slot at a position surely stays there, in constant time.
    pub fn has_slot(&self, p: u32) -> bool
        ensures { IsTrue result → (lines_map self.now).slot p ≡ p }
    {
        match self {
            StayingLines::Map(map) => p < u32::MAX && map.slot(p) == p,
            StayingLines::Sort(_, _) => true,
        }
    }
}
