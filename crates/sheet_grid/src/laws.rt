//! What an effect does to the numbers of a sheet, stated as clauses for the crates above. The calls
//! do nothing.

ghost use Rattle.std.specs.Prelude.{◌≡◌, ◌<◌, ℕ, length, slice_index};
ghost use Rattle.sheet_ops.specs.declared.operation.Effect.{Effect};
ghost use Rattle.sheet_ops.specs.Fits.{EffectFits};
ghost use Rattle.sheet_ops.specs.Maps.{row_map, col_map};
ghost use Rattle.sheet_ops.specs.Effects.{effect_on};
ghost use Rattle.sheet_grid.specs.Numbering.{IsOrderedWrite};
ghost use Rattle.sheet_grid.specs.Values.{NumberedSheet, IsNumberedSheet, WritesNothing, placed_in, numbered_past, numbered_size, stored_at};

/// After an insertion, a deletion or a move every stored content is the one from before.
pub fn stored_stays()
    ensures { (V : NumberedSheet) (e : Effect) → WritesNothing e → (rec col : ℕ) →
        stored_at (numbered_past V e).cells rec col ≡ stored_at V.cells rec col }
{}

/// After every effect each slot and each record keeps the number given to it: what stood at a
/// position stands with its number where the effect takes that position.
pub fn numbers_stay()
    ensures row_slots { (V : NumberedSheet) (e : Effect) → IsNumberedSheet V → EffectFits (numbered_size V) e → (p : ℕ) → p < length V.rows.slots →
        slice_index (numbered_past V e).rows.slots ((row_map e).slot p) ≡ slice_index V.rows.slots p }
    ensures row_recs { (V : NumberedSheet) (e : Effect) → IsNumberedSheet V → EffectFits (numbered_size V) e → (p : ℕ) → p < length V.rows.recs →
        slice_index (numbered_past V e).rows.recs ((row_map e).rec p) ≡ slice_index V.rows.recs p }
    ensures col_slots { (V : NumberedSheet) (e : Effect) → IsNumberedSheet V → EffectFits (numbered_size V) e → (p : ℕ) → p < length V.cols.slots →
        slice_index (numbered_past V e).cols.slots ((col_map e).slot p) ≡ slice_index V.cols.slots p }
    ensures col_recs { (V : NumberedSheet) (e : Effect) → IsNumberedSheet V → EffectFits (numbered_size V) e → (p : ℕ) → p < length V.cols.recs →
        slice_index (numbered_past V e).cols.recs ((col_map e).rec p) ≡ slice_index V.cols.recs p }
{}

/// What an effect does by numbers is what it does by positions.
pub fn numbers_are_placed()
    ensures { (V : NumberedSheet) (e : Effect) → IsNumberedSheet V → EffectFits (numbered_size V) e → IsOrderedWrite e →
        placed_in (numbered_past V e) ≡ effect_on (placed_in V) e }
{}
