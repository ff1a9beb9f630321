ghost use Rattle.std.specs.Prelude.{◌≡◌};
ghost use Rattle.sheet_graph.specs.Placing.{tree_placed};

use formula_tree::Formula;
use sheet_grid::Sheet;
use std::marker::Model;

/// A formula where its sheet stores it, with its references by numbers, so that it isn't copied.
/// Contracts see its tree with the references by positions.
#[derive(Debug, Drop)]
pub struct StoredFormula<'a> {
    sheet: &'a Sheet,
    formula: &'a Formula,
}

impl<'a> Model for StoredFormula<'a> {
    ghost use Rattle.ss_base.specs.declared.types.Spot.{Spot};
    ghost use Rattle.ss_base.specs.declared.types.Span.{Span};
    ghost use Rattle.ss_base.specs.contracts.types.Spot as spot;
    ghost use Rattle.ss_base.specs.contracts.types.Span as span;
    ghost use Rattle.formula_tree.specs.Tree.{Tree};
    ghost use Rattle.formula_tree.specs.TreeCode.{coded_tree};
    ghost use Rattle.sheet_graph.specs.Placing.{tree_placed};

    ghost Value = { Tree Spot Span };

    ghost coded = { coded_tree spot.the_row.coded span.the_row.coded };

    ghost view = { λ f. tree_placed f.sheet.now f.formula.now };
}

impl<'a> StoredFormula<'a> {
    /// A formula that a sheet stores.
    pub(crate) fn new(sheet: &'a Sheet, formula: &'a Formula) -> StoredFormula<'a>
        ensures { result ≡ tree_placed sheet.now formula.now }
    {
        StoredFormula { sheet, formula }
    }

    /// The sheet whose numbers its references are, and the formula as it stands there.
    pub fn parts(&self) -> (&'a Sheet, &'a Formula)
        ensures { self.now ≡ tree_placed result.0.now result.1.now }
    {
        (self.sheet, self.formula)
    }
}
