ghost use Rattle.std.specs.Prelude.{◌≡◌, ◌≤◌, IfOk};
ghost use Rattle.sheet_ops.specs.Fits.{IntentFits, EffectFits};
ghost use Rattle.sheet_ops.specs.Transforms.{own_past};

use crate::axis_map::AxisMap;
use crate::sheet_map::SheetMap;
use sheet_ops::{Effect, Intent};
use ss_base::{Memory, Size};

/// The own operation after the other's effect: its positions go where the effect takes them. It
/// takes the time of copying it.
pub fn own_past(own: &Intent, other: &Effect, size: Size) -> Result<Intent, Memory>
    requires rows { size.rows ≤ 16000 }
    requires cols { size.cols ≤ 16000 }
    requires own { IntentFits size own.now }
    requires other { EffectFits size other.now }
    ensures { IfOk result (λ c. c ≡ own_past own.now other.now) }
{
    match other {
        Effect::InsRow(at) => {
            let map = SheetMap {
                size,
                rows: AxisMap::Inserted(*at),
                cols: AxisMap::Same,
            };
            map.intent(own)
        }
        Effect::InsCol(at) => {
            let map = SheetMap {
                size,
                rows: AxisMap::Same,
                cols: AxisMap::Inserted(*at),
            };
            map.intent(own)
        }
        Effect::Move(moves) => {
            let map = SheetMap {
                size,
                rows: AxisMap::Moved(moves),
                cols: AxisMap::Same,
            };
            map.intent(own)
        }
        Effect::Write(_) | Effect::DelRow(_) | Effect::DelCol(_) => own.copy(),
    }
}
