//! Transforms of pairs: an own operation and another's effect on one sheet, changed so that each
//! can be done after the other (the transforms of Jupiter, Nichols et al. 1995).
#![tactic(auto)]

ghost use Rattle.std.specs.Prelude.{◌≡◌, ◌≤◌, IfOk};
ghost use Rattle.sheet_ops.specs.Chains.{size_past};
ghost use Rattle.sheet_ops.specs.Fits.{IntentFits, EffectFits};
ghost use Rattle.sheet_ops.specs.Naming.{effect_of_intent};
ghost use Rattle.sheet_ops.specs.Squares.{Converges};
ghost use Rattle.sheet_ops.specs.Transforms.{own_past, other_past};

mod axis_map;
mod changes;
mod other;
mod own;
mod sheet_map;
mod sorts;
mod staying;
mod staying_lines;
mod stays;

use crate::other::other_past;
use crate::own::own_past;
pub use changes::{changed_or, leaves_both, note_change, replace_front, xform_changes};
use sheet_ops::{Effect, Intent};
use ss_base::{Memory, Size};

/// The own operation to be done after the other's effect, and that effect to be done after the own
/// operation. Both are on a sheet of this size, by positions counted from 0, hidden lines too; the
/// effect is the earlier one in the server's order. On every such sheet both ways lead to the same
/// sheet by identity.
///
/// It takes the time of copying both, and that of their references; of two writes the product of
/// their cells besides, and of a sort beside moves that of sorting the positions of both.
pub fn xform(own: &Intent, other: &Effect, size: Size) -> Result<(Intent, Effect), Memory>
    requires rows { size.rows ≤ 16000 }
    requires cols { size.cols ≤ 16000 }
    requires own { IntentFits size own.now }
    requires other { EffectFits size other.now }
    ensures own { IfOk result (λ pair. pair.0 ≡ own_past own.now other.now) }
    ensures other { IfOk result (λ pair. pair.1 ≡ other_past size own.now other.now) }
    ensures converges { IfOk result (λ pair. Converges size own.now other.now pair.0 pair.1) }
    ensures own_fits { IfOk result (λ pair. IntentFits (size_past size other.now) pair.0) }
    ensures other_fits { IfOk result (λ pair. EffectFits (size_past size (effect_of_intent own.now)) pair.1) }
{
    let after = own_past(own, other, size)?;
    let effect = other_past(own, &after, other, size)?;
    Ok((after, effect))
}
