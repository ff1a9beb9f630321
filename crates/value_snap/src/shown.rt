ghost use Rattle.std.specs.Prelude.{◌≡◌, IfOk};

use crate::front::Front;
use crate::order::Order;
use crate::snap::Snap;
use left_right::Absorb;
use sheet_value::Change;
use ss_base::{Memory, Size};
use std::alloc::AllocError;

/// What is on show: the values, beside the list of which they are the replay.
#[derive(Drop)]
pub struct Shown {
    pub size: Size,
    pub snap: Snap,
    pub front: Front,
}

/// A change of what is on show. A batch is one for each cell, and a seal.
#[derive(Drop)]
pub enum Op {
    /// The value of one cell.
    Put(Change),
    /// The end of a batch: how far it goes, the visible rows and columns, and the list that it ends.
    Seal(u32, Order, Order, Front),
    /// The end of all batches, and the list with its mark.
    Mark(Front),
}

impl Absorb<Op> for Shown {
    ghost use Rattle.value_snap.specs.Showing.{after_op};

    type State = Shown;

    ghost state = { λ s. s };

    ghost applied = { after_op };

    fn absorb_first(&mut self, op: &Op, _other: &Shown) -> Result<(), AllocError> {
        match op {
            Op::Put(change) => {
                if self.snap.put(change).is_err() {
                    return Err(AllocError);
                }
            }
            Op::Seal(upto, rows, cols, front) => {
                let Ok((rows, cols)) = shared(rows, cols) else {
                    return Err(AllocError);
                };
                self.snap.seal(*upto, rows, cols);
                self.front = front.again();
            }
            Op::Mark(front) => self.front = front.again(),
        }
        Ok(())
    }
}

/// Equal orders, which share the lists of these.
fn shared(rows: &Order, cols: &Order) -> Result<(Order, Order), Memory>
    ensures { IfOk result (λ r. (r.0 ≡ rows.now) × (r.1 ≡ cols.now)) }
{
    let rows = rows.share()?;
    let cols = cols.share()?;
    Ok((rows, cols))
}
