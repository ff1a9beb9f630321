//! Laws of the definitions, stated as clauses for the crates above. The calls do nothing.

ghost use Rattle.std.specs.Prelude.{◌≡◌, ◌≤◌, ◌<◌, ℕ, List, All, length};
ghost use Rattle.ss_base.specs.declared.types.Size.{Size};
ghost use Rattle.sheet_ops.specs.declared.operation.Intent.{Intent};
ghost use Rattle.sheet_ops.specs.declared.operation.Effect.{Effect};
ghost use Rattle.sheet_ops.specs.declared.operation.Entry.{Entry};
ghost use Rattle.sheet_ops.specs.Identity.{IdSheet};
ghost use Rattle.sheet_ops.specs.Placed.{placed};
ghost use Rattle.sheet_ops.specs.Fits.{IntentFits, EffectFits};
ghost use Rattle.sheet_ops.specs.History.{IsValidHistory};
ghost use Rattle.sheet_ops.specs.Published.{effect_at};
ghost use Rattle.sheet_text.specs.Shown.{shown, shown_placed};
ghost use Rattle.sheet_text.specs.Operations.{IntentWithin, EffectWithin};

/// What is shown of a sheet by identity is what is shown of its positions.
pub fn positions_suffice()
    ensures { (X : IdSheet) → shown X ≡ shown_placed (placed X) }
{}

/// What fits a sheet has no position above its lines.
pub fn what_fits_is_within()
    ensures intent { (size : Size) (most : ℕ) (c : Intent) → size.rows ≤ most → size.cols ≤ most → IntentFits size c → IntentWithin most c }
    ensures effect { (size : Size) (most : ℕ) (e : Effect) → size.rows ≤ most → size.cols ≤ most → EffectFits size e → EffectWithin most e }
{}

/// No entry of a valid history, and no effect of one, has a position above 16,000: of 8 sites each
/// issues at most 1,000 operations, and each of them brings one line at most.
pub fn histories_are_within()
    ensures entries { (size : Size) (sites : ℕ) (H : List Entry) → size.rows ≤ 1000 → size.cols ≤ 64 → sites ≤ 8 →
        IsValidHistory size sites H → All (λ e. IntentWithin 16000 e.intent) H }
    ensures effects { (size : Size) (sites : ℕ) (H : List Entry) → size.rows ≤ 1000 → size.cols ≤ 64 → sites ≤ 8 →
        IsValidHistory size sites H → (k : ℕ) → k < length H → EffectWithin 16000 (effect_at size H k) }
{}
