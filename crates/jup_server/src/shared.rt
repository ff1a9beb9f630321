ghost use Rattle.std.specs.Prelude.{◌≡◌, IfOk};

use sheet_ops::Effect;
use ss_base::Memory;
use std::alloc::Global;
use std::marker::Model;
use std::sync::Arc;

/// An effect that the chains of several sites have in common.
#[derive(Debug, Drop)]
pub(crate) struct Shared {
    effect: Arc<Effect, Global>,
}

impl Model for Shared {
    ghost use Rattle.std.specs.Arc.{arc_value};
    ghost use Rattle.sheet_ops.specs.declared.operation.Effect.{Effect};
    ghost use Rattle.sheet_ops.specs.contracts.operation.Effect as contract;

    ghost Value = { Effect };

    ghost coded = { contract.the_row.coded };

    ghost view = { λ s. arc_value s.effect };
}

impl Shared {
    /// An effect for one chain or more.
    pub(crate) fn new(alloc: Global, effect: Effect) -> Result<Shared, Memory>
        ensures { IfOk result (λ s. s ≡ effect) }
    {
        let effect = Arc::new(alloc, effect)?;
        Ok(Shared { effect })
    }

    /// The same effect for a further chain. It copies nothing.
    pub(crate) fn share(&self) -> Result<Shared, Memory>
        ensures { IfOk result (λ s. s ≡ self.now) }
    {
        let effect = Arc::try_clone(&self.effect)?;
        Ok(Shared { effect })
    }

    /// The effect itself.
    pub(crate) fn get(&self) -> &Effect
        ensures { result.now ≡ self.now }
    {
        &self.effect
    }
}
