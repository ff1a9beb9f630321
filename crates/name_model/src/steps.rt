ghost use Rattle.std.specs.Prelude.{◌≡◌, ◌<◌, ◌≤◌, ◌+◌, length, OnOk};
ghost use Rattle.sheet_ops.specs.Chains.{size_past};
ghost use Rattle.sheet_ops.specs.Effects.{StepsTo};
ghost use Rattle.sheet_ops.specs.Fits.{IntentFits, EffectFits};
ghost use Rattle.sheet_ops.specs.Naming.{effect_of_intent};
ghost use Rattle.sheet_ops.specs.Placed.{placed_size};
ghost use Rattle.sheet_grid.specs.Values.{placed_in};
ghost use Rattle.name_model.specs.InTurn.{EachFitsInTurn, StepsEach, size_past_each};

use sheet_grid::Sheet;
use sheet_ops::{Effect, Intent, effect_of};
use ss_base::Memory;

/// Does an effect on a sheet that has room for one line more.
pub fn apply_effect(sheet: &mut Sheet, effect: &Effect) -> Result<(), Memory>
    requires fits { EffectFits (placed_size (placed_in sheet.old)) effect.now }
    requires rows { length (placed_in sheet.old).rows < 16000 }
    requires cols { length (placed_in sheet.old).cols < 16000 }
    ensures step { OnOk result (StepsTo (placed_in sheet.old) effect.now (placed_in sheet.new)) }
    ensures size { OnOk result (placed_size (placed_in sheet.new) ≡ size_past (placed_size (placed_in sheet.old)) effect.now) }
{
    sheet.apply(effect)
}

/// Does the effect of an own operation on a sheet that has room for one line more.
pub fn apply_own(sheet: &mut Sheet, own: &Intent) -> Result<(), Memory>
    requires fits { IntentFits (placed_size (placed_in sheet.old)) own.now }
    requires rows { length (placed_in sheet.old).rows < 16000 }
    requires cols { length (placed_in sheet.old).cols < 16000 }
    ensures step { OnOk result (StepsTo (placed_in sheet.old) (effect_of_intent own.now) (placed_in sheet.new)) }
    ensures size { OnOk result (placed_size (placed_in sheet.new) ≡ size_past (placed_size (placed_in sheet.old)) (effect_of_intent own.now)) }
{
    let effect = effect_of(own)?;
    apply_effect(sheet, &effect)
}

/// Does the effects of own operations one after another on a sheet that has room for as many lines
/// more.
pub fn apply_each(sheet: &mut Sheet, own: &[Intent]) -> Result<(), Memory>
    requires fits { EachFitsInTurn (placed_size (placed_in sheet.old)) own.now }
    requires rows { length (placed_in sheet.old).rows + length own.now ≤ 16000 }
    requires cols { length (placed_in sheet.old).cols + length own.now ≤ 16000 }
    ensures steps { OnOk result (StepsEach (placed_in sheet.old) own.now (placed_in sheet.new)) }
    ensures size { OnOk result (placed_size (placed_in sheet.new) ≡ size_past_each (placed_size (placed_in sheet.old)) own.now) }
{
    for op in own {
        apply_own(sheet, op)?;
    }
    Ok(())
}
