ghost use Rattle.std.specs.Prelude.{◌≡◌, ◌≤◌, IfOk};
ghost use Rattle.sheet_ops.specs.Fits.{IntentFits, EffectFits};
ghost use Rattle.ss_base.specs.declared.types.Size.{Size};
ghost use Rattle.sheet_ops.specs.Naming.{effect_of_intent};
ghost use Rattle.sheet_ops.specs.Transforms.{own_past, other_past};
ghost use Rattle.sheet_ops.specs.declared.operation.Effect.TheVariants as effect;
ghost use Rattle.pair_transform.specs.Sorts.{IsSort};

use crate::axis_map::AxisMap;
use crate::sheet_map::SheetMap;
use marked_lines::Perm;
use sheet_ops::{Effect, Intent, effect_of};
use ss_base::{Memory, Size};

/// An effect after an own sort, of which `after` is what it is after the effect. Moves become the
/// sort undone, the moves, and the sort anew, since a sort's records go to their slots whatever
/// moved before.
pub fn past_sort(own: &Intent, after: &Intent, other: &Effect, size: Size) -> Result<Effect, Memory>
    requires rows { size.rows ≤ 16000 }
    requires cols { size.cols ≤ 16000 }
    requires sort { IsSort own.now }
    requires own { IntentFits size own.now }
    requires after { after.now ≡ own_past own.now other.now }
    requires other { EffectFits size other.now }
    ensures { IfOk result (λ e. e ≡ other_past size own.now other.now) }
{
    match other {
        Effect::Write(puts) => {
            let moves = moves_of(own)?;
            let map = SheetMap {
                size,
                rows: AxisMap::Moved(&moves),
                cols: AxisMap::Same,
            };
            Ok(Effect::Write(map.puts(puts)?))
        }
        Effect::DelRow(p) => Ok(Effect::DelRow(moves_of(own)?.at(*p))),
        Effect::Move(moves) => {
            let undone = moves_of(own)?.inverse()?;
            let anew = moves_of(after)?;
            Ok(Effect::Move(undone.then(moves)?.then(&anew)?))
        }
        Effect::InsRow(_) | Effect::InsCol(_) | Effect::DelCol(_) => other.copy(),
    }
}

// The moves that a sort is on the sheet that it fits.
fn moves_of(sort: &Intent) -> Result<Perm, Memory>
    requires sort { IsSort sort.now }
    requires fits { (size : Size) × IntentFits size sort.now }
    ensures { IfOk result (λ moves. effect_of_intent sort.now ≡ effect.Move moves) }
{
    match effect_of(sort)? {
        Effect::Move(moves) => Ok(moves),
        _ => unreachable!(),
    }
}
