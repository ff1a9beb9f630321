ghost use Rattle.std.specs.Prelude.{◌≡◌, ◌≢◌, ◌++◌, ◌∷◌, [], List, ℕ, All, Some};
ghost use Rattle.std.specs.FinMap as map;
ghost use Rattle.ss_base.specs.declared.types.Size.{Size};
ghost use Rattle.sheet_value.specs.declared.batch.Batch.{Batch};
ghost use Rattle.sheet_value.specs.declared.batch.Change.{Change};
ghost use Rattle.sheet_value.specs.declared.value.Value.TheVariants.{Empty};
ghost use Rattle.sheet_value.specs.Snapshots.{opening_snapshot, cell_in};
ghost use Rattle.value_snap.specs.declared.published.Published.{Published};
ghost use Rattle.value_snap.specs.declared.published.Published.TheVariants.{Full, End};
ghost use Rattle.value_snap.specs.Lists.{replay_of, upto_from, IsElsewhere};

use crate::{Publisher, Reader, Told, View};

/// What the replay of a published list is. A batch says how far the values go and which lines are
/// visible; the last of its changes of a cell is the cell's value, and cells without a change keep
/// theirs. A mark changes nothing, no empty value is kept, and the list's length is the snapshot's.
pub fn replay_is_the_snapshot()
    ensures opening { (size : Size) → replay_of size [] ≡ opening_snapshot size }
    ensures upto { (size : Size) (list : List Published) (b : Batch) → (replay_of size (list ++ Full b ∷ [])).length ≡ b.upto }
    ensures rows { (size : Size) (list : List Published) (b : Batch) → (replay_of size (list ++ Full b ∷ [])).row_order ≡ b.row_order }
    ensures cols { (size : Size) (list : List Published) (b : Batch) → (replay_of size (list ++ Full b ∷ [])).col_order ≡ b.col_order }
    ensures changed { (size : Size) (list : List Published) (b : Batch) (before : List Change) (c : Change) (after : List Change) → b.changes ≡ before ++ c ∷ after → All (IsElsewhere c.row c.col) after → cell_in (replay_of size (list ++ Full b ∷ [])).cells c.row c.col ≡ c.value }
    ensures unchanged { (size : Size) (list : List Published) (b : Batch) (row col : ℕ) → All (IsElsewhere row col) b.changes → cell_in (replay_of size (list ++ Full b ∷ [])).cells row col ≡ cell_in (replay_of size list).cells row col }
    ensures mark { (size : Size) (list : List Published) → replay_of size (list ++ End ∷ []) ≡ replay_of size list }
    ensures no_empty { (size : Size) (list : List Published) (at : ℕ × ℕ) → map.get (replay_of size list).cells at ≢ Some Empty }
    ensures length { (size : Size) (list : List Published) → (replay_of size list).length ≡ upto_from 0 list }
{}

/// Both ends of a store go from thread to thread, and so do what a publisher tells and what is read.
pub fn ends_go_to_threads(publisher: &Publisher, reader: &Reader, told: &Told, view: &View) {
    goes(publisher);
    goes(reader);
    goes(told);
    goes(view);
}

fn goes<T: Send>(_it: &T) {}
