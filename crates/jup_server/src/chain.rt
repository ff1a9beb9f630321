ghost use Rattle.std.specs.Prelude.{◌≡◌, ◌≤◌, ◌+◌, List, drop, length, take, unwrap_or, IfOk, IsTrue};
ghost use Rattle.ss_base.specs.declared.types.Size.{Size};
ghost use Rattle.sheet_ops.specs.declared.operation.Effect.{Effect};
ghost use Rattle.sheet_ops.specs.Chains.{sizes_past, PassesChain, EachChainFits};
ghost use Rattle.sheet_ops.specs.Fits.{IntentFits};
ghost use Rattle.pair_transform.specs.Changes.{replaced};
ghost use Rattle.jup_server.specs.Servers.{step_past};
ghost use Rattle.jup_server.specs.Steps.{StepFits, PassesStep};

use crate::shared::Shared;
use pair_transform::{changed_or, leaves_both, note_change, xform_changes};
use sheet_ops::{Effect, Intent, size_past};
use ss_base::{Memory, Size};
use std::alloc::Global;
use std::collections::VecDeque;

/// What an operation becomes past steps of a chain, and these past the operation; `None` stands for
/// what stays as it is, and so do steps behind the last one listed.
#[derive(Debug, Drop)]
pub(crate) struct Passed {
    pub(crate) own: Option<Intent>,
    pub(crate) steps: VecDeque<Option<Option<Shared>>>,
}

impl Passed {
    /// The operation past the steps.
    pub(crate) fn last<'a>(&'a self, own: &'a Intent) -> &'a Intent
        ensures { result.now ≡ unwrap_or self.now.own own.now }
    {
        changed_or(&self.own, own)
    }
}

/// The size that a step leaves.
fn step_past(size: Size, step: &Option<Shared>) -> Size
    requires rows { size.rows ≤ 16000 }
    requires cols { size.cols ≤ 16000 }
    ensures { result ≡ step_past size step.now }
{
    match step {
        None => size,
        Some(effect) => size_past(size, effect.get()),
    }
}

/// The size that so many steps of a chain leave, from the first one on.
pub(crate) fn size_along(base: Size, chain: &VecDeque<Option<Shared>>, count: usize) -> Size
    requires within { count ≤ length chain.now.items }
    requires rows { (sizes_past base chain.now.items).rows ≤ 15000 }
    requires cols { (sizes_past base chain.now.items).cols ≤ 15000 }
    ensures { result ≡ sizes_past base (take count chain.now.items) }
{
    let mut size = base;
    for i in 0..count {
        let step = &chain[i];
        size = step_past(size, step);
    }
    size
}

/// Whether an operation and a step surely leave one another as they are, and the step brings no line.
fn leaves_step(own: &Intent, step: &Option<Shared>) -> bool
    ensures passes { IsTrue result → (size : Size) → IntentFits size own.now → StepFits size step.now → PassesStep size own.now step.now step.now own.now }
    ensures size { IsTrue result → (size : Size) → step_past size step.now ≡ size }
{
    match step {
        None => true,
        Some(effect) => leaves_both(own, effect.get()),
    }
}

/// An operation past a step, and the step past the operation.
fn pass_step(
    alloc: Global,
    own: &Intent,
    step: &Option<Shared>,
    size: Size,
) -> Result<(Option<Intent>, Option<Option<Shared>>), Memory>
    requires rows { size.rows ≤ 16000 }
    requires cols { size.cols ≤ 16000 }
    requires own { IntentFits size own.now }
    requires step { StepFits size step.now }
    ensures passes { IfOk result (λ r. PassesStep size own.now step.now (unwrap_or r.1 step.now) (unwrap_or r.0 own.now)) }
    ensures fits { IfOk result (λ r. IntentFits (step_past size step.now) (unwrap_or r.0 own.now)) }
{
    match step {
        None => Ok((None, None)),
        Some(effect) => {
            let (own_change, effect_change) = xform_changes(own, effect.get(), size)?;
            Ok((own_change, changed_step(alloc, effect_change)?))
        }
    }
}

fn changed_step(alloc: Global, change: Option<Effect>) -> Result<Option<Option<Shared>>, Memory>
    ensures { IfOk result (λ step. (e : Effect) → unwrap_or step (Some e) ≡ Some (unwrap_or change e)) }
{
    match change {
        None => Ok(None),
        Some(effect) => Ok(Some(Some(Shared::new(alloc, effect)?))),
    }
}

/// An operation past the steps of a chain from a place on, and these past the operation. It takes a
/// comparison for each effect that the operation leaves and that leaves it, and a transform for each
/// other one; where all do, it takes no memory.
pub(crate) fn pass_chain(
    alloc: Global,
    chain: &VecDeque<Option<Shared>>,
    from: usize,
    own: &Intent,
    base: Size,
) -> Result<Passed, Memory>
    requires within { from ≤ length chain.now.items }
    requires rows { (sizes_past base (drop from chain.now.items)).rows ≤ 15000 }
    requires cols { (sizes_past base (drop from chain.now.items)).cols ≤ 15000 }
    requires own { IntentFits base own.now }
    requires chain { EachChainFits base (drop from chain.now.items) }
    ensures passes { IfOk result (λ r. PassesChain base own.now (drop from chain.now.items) (replaced r.steps.items (drop from chain.now.items)) (unwrap_or r.own own.now)) }
    ensures many { IfOk result (λ r. length r.steps.items + from ≤ length chain.now.items) }
{
    let mut steps = VecDeque::new(alloc);
    let mut last = None;
    let mut size = base;
    for i in 0..chain.len() - from {
        let step = &chain[from + i];
        let before = changed_or(&last, own);
        if leaves_step(before, step) {
            continue;
        }
        let (own_change, step_change) = pass_step(alloc, before, step, size)?;
        note_change(&mut steps, i, step_change)?;
        last = own_change.or(last);
        size = step_past(size, step);
    }
    Ok(Passed { own: last, steps })
}

/// Takes so many elements out at the front.
pub(crate) fn drop_front<T: Drop>(list: &mut VecDeque<T>, count: usize)
    ensures { list.new.items ≡ drop count list.old.items }
{
    for _ in 0..count {
        let _ = list.pop_front();
    }
}
