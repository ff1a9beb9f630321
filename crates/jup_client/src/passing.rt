ghost use Rattle.std.specs.Prelude.{◌≡◌, ◌≤◌, ◌+◌, length, reverse, unwrap_or, IfOk};
ghost use Rattle.sheet_ops.specs.Chains.{size_past, size_after, EachFitsAfter, PassesOwn};
ghost use Rattle.sheet_ops.specs.Fits.{EffectFits};
ghost use Rattle.pair_transform.specs.Changes.{replaced};

use pair_transform::{changed_or, leaves_both, note_change, xform_changes};
use sheet_ops::{Effect, Intent, size_past_own};
use ss_base::{Memory, Size};
use std::alloc::Global;
use std::collections::VecDeque;

/// What own operations become past an effect, and the effect past them; `None` stands for what stays
/// as it is, and so do own operations behind the last one listed.
#[derive(Debug, Drop)]
pub(crate) struct Passed {
    pub(crate) own: VecDeque<Option<Intent>>,
    pub(crate) other: Option<Effect>,
}

impl Passed {
    /// The effect past the operations.
    pub(crate) fn last<'a>(&'a self, effect: &'a Effect) -> &'a Effect
        ensures { result.now ≡ unwrap_or self.now.other effect.now }
    {
        changed_or(&self.other, effect)
    }
}

/// Own operations past an effect, and that effect past them. It takes a comparison for each operation
/// that the effect leaves and that leaves it, and a transform for each other one; where all do, it
/// takes no memory.
pub(crate) fn pass(
    alloc: Global,
    pending: &VecDeque<Intent>,
    effect: &Effect,
    base: Size,
) -> Result<Passed, Memory>
    requires rows { base.rows + length pending.now.items ≤ 16000 }
    requires cols { base.cols + length pending.now.items ≤ 16000 }
    requires fits { EachFitsAfter base (reverse pending.now.items) }
    requires effect { EffectFits base effect.now }
    ensures passes { IfOk result (λ r. PassesOwn base effect.now (reverse pending.now.items) (reverse (replaced r.own.items pending.now.items)) (unwrap_or r.other effect.now)) }
    ensures fits { IfOk result (λ r. EachFitsAfter (size_past base effect.now) (reverse (replaced r.own.items pending.now.items))) }
    ensures last { IfOk result (λ r. EffectFits (size_after base (reverse pending.now.items)) (unwrap_or r.other effect.now)) }
    ensures sized { IfOk result (λ r. size_after (size_past base effect.now) (reverse (replaced r.own.items pending.now.items))
        ≡ size_past (size_after base (reverse pending.now.items)) (unwrap_or r.other effect.now)) }
    ensures many { IfOk result (λ r. length r.own.items ≤ length pending.now.items) }
{
    let mut own = VecDeque::new(alloc);
    let mut other = None;
    let mut size = base;
    for i in 0..pending.len() {
        let op = &pending[i];
        let before = changed_or(&other, effect);
        if leaves_both(op, before) {
            continue;
        }
        let (own_change, other_change) = xform_changes(op, before, size)?;
        note_change(&mut own, i, own_change)?;
        other = other_change.or(other);
        size = size_past_own(size, op);
    }
    Ok(Passed { own, other })
}
