ghost use Rattle.std.specs.Prelude.{◌≡◌};
ghost use Rattle.formula_tree.specs.WellFormed.{IsFormula};
ghost use Rattle.formula_code.specs.Code.{code_of};

use crate::step::Step;
use formula_tree::Formula;
use ss_base::Seq;
use std::marker::Model;
use std::snapshot::Snapshot;

/// The code of one formula, which contracts see as that formula's tree. The formula itself takes no
/// bytes here.
#[derive(Drop)]
pub struct Code {
    pub(crate) steps: Seq<Step>,
    pub(crate) formula: Snapshot<Formula>,
}

impl Model for Code {
    ghost use Rattle.ss_base.specs.declared.types.Spot.{Spot};
    ghost use Rattle.ss_base.specs.declared.types.Span.{Span};
    ghost use Rattle.ss_base.specs.contracts.types.Spot as spot;
    ghost use Rattle.ss_base.specs.contracts.types.Span as span;
    ghost use Rattle.formula_tree.specs.Tree.{Tree};
    ghost use Rattle.formula_tree.specs.TreeCode.{coded_tree};
    ghost use Rattle.formula_code.specs.Code.{IsCodeOf};

    ghost Value = { Tree Spot Span };

    ghost coded = { coded_tree spot.the_row.coded span.the_row.coded };

    ghost view = { λ c. c.formula.value };

    ghost invariant = { λ c. IsCodeOf c.formula.value c.steps };
}

impl Code {
    /// The steps. It takes no memory.
    pub fn steps(&self) -> &Seq<Step>
        ensures code { result.now ≡ code_of self.now }
        ensures formula { IsFormula self.now }
    {
        &self.steps
    }
}
