ghost use Rattle.std.specs.Prelude.{◌≡◌, ℕ, List};
ghost use Rattle.formula_read.specs.Readings.{Reading, IsReading};
ghost use Rattle.formula_read.proofs.Readings.{reading};

/// What a text reads as: it is what the grammar of formulas says of it, and there is nothing else that
/// the grammar says.
pub fn readings()
    ensures grammar { (bs : List ℕ) → IsReading bs (reading bs) }
    ensures one { (bs : List ℕ) (r : Reading) → IsReading bs r → r ≡ reading bs }
{}
