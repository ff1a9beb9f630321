ghost use Rattle.std.specs.Prelude.{◌≡◌, ◌⊎◌, ◌↔◌, ℕ, Result, Ok, Err};
ghost use Rattle.ss_base.specs.declared.types.Spot.{Spot};
ghost use Rattle.ss_base.specs.declared.types.Span.{Span};
ghost use Rattle.formula_tree.specs.Tree.{Tree};
ghost use Rattle.formula_tree.specs.Grammar.{Stands};
ghost use Rattle.formula_tree.specs.Measures.{print_nesting};
ghost use Rattle.formula_tree.specs.Printed.{formula_text};
ghost use Rattle.formula_tree.specs.WellFormed.{IsFormula};
ghost use Rattle.formula_read.specs.declared.kinds.ParseErr.{ParseErr};
ghost use Rattle.formula_read.specs.declared.kinds.ParseErr.TheVariants.{Memory};
ghost use Rattle.formula_print.specs.ReadBack.{IsAnswer};

use cell_addr::addresses_are_read_back;
use formula_read::{next_tokens, one_reading};

/// The law that formulas are read back as what was printed. It does nothing.
pub fn formulas_are_read_back()
    // the printed text stands for the formula and for no other, with one nesting
    ensures text { (t u : Tree Spot Span) (n : ℕ) → IsFormula t →
        (Stands (formula_text t) u n ↔ ((u ≡ t) × (n ≡ print_nesting t))) }

    // so `parse` can't answer anything on it but the same formula, or want of memory
    ensures answer { (t : Tree Spot Span) (answer : Result (Tree Spot Span) ParseErr) → IsFormula t →
        IsAnswer (formula_text t) answer → (answer ≡ Ok t) ⊎ (answer ≡ Err Memory) }
{
    addresses_are_read_back();
    next_tokens();
    one_reading();
}
