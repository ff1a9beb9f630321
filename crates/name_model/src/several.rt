ghost use Rattle.std.specs.Prelude.{◌≡◌, ◌≤◌, ◌+◌, length, IfOk};
ghost use Rattle.sheet_ops.specs.Fits.{EffectFits};
ghost use Rattle.sheet_ops.specs.Placed.{placed_size};
ghost use Rattle.sheet_grid.specs.Values.{placed_in};
ghost use Rattle.name_model.specs.InTurn.{EachFitsInTurn, own_each_past, other_past_each};
ghost use Rattle.name_model.specs.Laws.{IsByIdentity};

use crate::steps::{apply_each, apply_effect};
use pair_transform::xform;
use sheet_grid::Sheet;
use sheet_ops::{Effect, Intent, size_past_own};
use ss_base::{Memory, Seq, Size};

/// Both ways round of own operations, one after another, and another's effect on one sheet.
#[derive(Debug, Drop)]
pub struct Chain {
    /// The own operations to be done after the other's effect.
    pub own: Seq<Intent>,
    /// The other's effect to be done after the own operations.
    pub other: Effect,
    /// The sheet after the other's effect and then the transformed own operations.
    pub left: Sheet,
    /// The sheet after the own operations and then the transformed effect.
    pub right: Sheet,
}

/// Goes both ways round on copies of a sheet, which has room for a line more on each axis for each
/// operation. Each own operation fits the size that those before it leave, and is transformed past
/// the effect as those before it have changed that. Both ways lead to the sheet that the effect and
/// then the own operations give by identity. It takes the time of copying the sheet twice and of
/// doing each operation.
pub fn chain_ways(sheet: &Sheet, own: &Seq<Intent>, other: &Effect) -> Result<Chain, Memory>
    requires own { EachFitsInTurn (placed_size (placed_in sheet.now)) own.now }
    requires other { EffectFits (placed_size (placed_in sheet.now)) other.now }
    requires rows { length (placed_in sheet.now).rows + length own.now + 1 ≤ 16000 }
    requires cols { length (placed_in sheet.now).cols + length own.now + 1 ≤ 16000 }
    ensures own { IfOk result (λ c. c.own ≡ own_each_past (placed_size (placed_in sheet.now)) own.now other.now) }
    ensures other { IfOk result (λ c. c.other ≡ other_past_each (placed_size (placed_in sheet.now)) own.now other.now) }
    ensures left { IfOk result (λ c. IsByIdentity (placed_in sheet.now) own.now other.now (placed_in c.left)) }
    ensures right { IfOk result (λ c. IsByIdentity (placed_in sheet.now) own.now other.now (placed_in c.right)) }
    ensures same { IfOk result (λ c. placed_in c.left ≡ placed_in c.right) }
{
    let (own_after, other_after) = pass_each(own, other, sheet.size())?;
    let mut left = sheet.copy()?;
    apply_effect(&mut left, other)?;
    apply_each(&mut left, own_after.as_slice())?;
    let mut right = sheet.copy()?;
    apply_each(&mut right, own.as_slice())?;
    apply_effect(&mut right, &other_after)?;
    Ok(Chain {
        own: own_after,
        other: other_after,
        left,
        right,
    })
}

// Own operations past another's effect, and that effect past them.
fn pass_each(own: &Seq<Intent>, other: &Effect, size: Size) -> Result<(Seq<Intent>, Effect), Memory>
    requires rows { size.rows + length own.now ≤ 16000 }
    requires cols { size.cols + length own.now ≤ 16000 }
    requires own { EachFitsInTurn size own.now }
    requires other { EffectFits size other.now }
    ensures own { IfOk result (λ pair. pair.0 ≡ own_each_past size own.now other.now) }
    ensures other { IfOk result (λ pair. pair.1 ≡ other_past_each size own.now other.now) }
{
    let mut done = own.empty_beside();
    let mut last = other.copy()?;
    let mut now = size;
    for op in own.as_slice() {
        let (after, past) = xform(op, &last, now)?;
        done.push(after)?;
        last = past;
        now = size_past_own(now, op);
    }
    Ok((done, last))
}
