ghost use Rattle.std.specs.Prelude.{◌≡◌, ◌≤◌, ◌+◌, [], ◌∷◌, length, IfOk};
ghost use Rattle.sheet_ops.specs.Fits.{IntentFits, EffectFits};
ghost use Rattle.sheet_ops.specs.Placed.{placed_size};
ghost use Rattle.sheet_ops.specs.Transforms.{own_past, other_past};
ghost use Rattle.sheet_grid.specs.Values.{placed_in};
ghost use Rattle.name_model.specs.Laws.{IsByIdentity};

use crate::steps::{apply_effect, apply_own};
use pair_transform::xform;
use sheet_grid::Sheet;
use sheet_ops::{Effect, Intent};
use ss_base::Memory;

/// Both ways round of an own operation and another's effect on one sheet.
#[derive(Debug, Drop)]
pub struct Ways {
    /// The own operation to be done after the other's effect.
    pub own: Intent,
    /// The other's effect to be done after the own operation.
    pub other: Effect,
    /// The sheet after the other's effect and then the transformed own operation.
    pub left: Sheet,
    /// The sheet after the own operation and then the transformed effect.
    pub right: Sheet,
}

/// Goes both ways round on copies of a sheet, which has room for two lines more on each axis. Both
/// lead to the sheet that the effect and then the own operation give by identity. It takes the time
/// of copying the sheet twice.
pub fn both_ways(sheet: &Sheet, own: &Intent, other: &Effect) -> Result<Ways, Memory>
    requires own { IntentFits (placed_size (placed_in sheet.now)) own.now }
    requires other { EffectFits (placed_size (placed_in sheet.now)) other.now }
    requires rows { length (placed_in sheet.now).rows + 2 ≤ 16000 }
    requires cols { length (placed_in sheet.now).cols + 2 ≤ 16000 }
    ensures own { IfOk result (λ w. w.own ≡ own_past own.now other.now) }
    ensures other { IfOk result (λ w. w.other ≡ other_past (placed_size (placed_in sheet.now)) own.now other.now) }
    ensures left { IfOk result (λ w. IsByIdentity (placed_in sheet.now) (own.now ∷ []) other.now (placed_in w.left)) }
    ensures right { IfOk result (λ w. IsByIdentity (placed_in sheet.now) (own.now ∷ []) other.now (placed_in w.right)) }
    ensures same { IfOk result (λ w. placed_in w.left ≡ placed_in w.right) }
{
    let (own_after, other_after) = xform(own, other, sheet.size())?;
    let mut left = sheet.copy()?;
    apply_effect(&mut left, other)?;
    apply_own(&mut left, &own_after)?;
    let mut right = sheet.copy()?;
    apply_own(&mut right, own)?;
    apply_effect(&mut right, &other_after)?;
    Ok(Ways {
        own: own_after,
        other: other_after,
        left,
        right,
    })
}
