//! Laws of the definitions, stated as clauses for the crates above. The calls do nothing.

ghost use Rattle.ss_base.specs.declared.types.Size.{Size};
ghost use Rattle.sheet_ops.specs.declared.operation.Intent.{Intent};
ghost use Rattle.sheet_ops.specs.declared.operation.Effect.{Effect};
ghost use Rattle.sheet_ops.specs.Chains.{size_past};
ghost use Rattle.sheet_ops.specs.Fits.{IntentFits, EffectFits};
ghost use Rattle.sheet_ops.specs.Naming.{effect_of_intent};
ghost use Rattle.sheet_ops.specs.Squares.{Converges};
ghost use Rattle.sheet_ops.specs.Transforms.{own_past, other_past};

/// Each pair of the table of transforms converges: this is Jupiter's transform property.
pub fn pairs_converge()
    ensures { (size : Size) (c : Intent) (e : Effect) → IntentFits size c → EffectFits size e → Converges size c e (own_past c e) (other_past size c e) }
{}

/// Of a pair that converges the own operation fits the sheet after the other's effect, and that effect
/// the sheet after the own operation.
pub fn pairs_fit_again()
    ensures own { (size : Size) (c : Intent) (e : Effect) (c' : Intent) (e' : Effect) → IntentFits size c → EffectFits size e → Converges size c e c' e' → IntentFits (size_past size e) c' }
    ensures other { (size : Size) (c : Intent) (e : Effect) (c' : Intent) (e' : Effect) → IntentFits size c → EffectFits size e → Converges size c e c' e' → EffectFits (size_past size (effect_of_intent c)) e' }
{}
