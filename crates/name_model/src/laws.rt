//! A law of the definitions, stated as clauses for the crates above. The call does nothing.

ghost use Rattle.std.specs.Prelude.{◌≡◌, ◌<◌, ℕ};
ghost use Rattle.sheet_ops.specs.Fits.{IsWellFormed, IsNew};
ghost use Rattle.sheet_ops.specs.LineIds.{operation_id};
ghost use Rattle.sheet_ops.specs.Placed.{PlacedSheet, placed, lifted};
ghost use Rattle.name_model.specs.Laws.{IsWhole};

/// Every whole sheet by positions is that of a sheet by identity, whose lines are named by their
/// positions; what the operations of sites would name is new there.
pub fn lifted_sheets()
    ensures placed { (P : PlacedSheet) → IsWhole P → placed (lifted P) ≡ P }
    ensures formed { (P : PlacedSheet) → IsWellFormed (lifted P) }
    ensures new { (P : PlacedSheet) (site number : ℕ) → 0 < site → IsNew (lifted P) (operation_id site number) }
{}
