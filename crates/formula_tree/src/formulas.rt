ghost use Rattle.std.specs.Prelude.{◌≡◌, IfOk};
ghost use Rattle.formula_tree.specs.Erase.{tree_of};
ghost use Rattle.formula_tree.specs.WellFormed.{IsFormula};
ghost use Rattle.formula_tree.specs.Remap.{mapped, IsMapped};

use crate::copying::copy_expr;
use crate::expression::Expr;
use crate::renaming::{Remap, remap_expr};
use ss_base::Memory;
use std::marker::Model;

/// An expression that can be printed and read again: it is well formed, its printed text has a nesting
/// of at most 64, and it has fewer than 2^24 nodes. Contracts see its tree.
#[derive(Debug, Drop)]
pub struct Formula {
    expr: Expr,
}

impl Model for Formula {
    ghost use Rattle.ss_base.specs.declared.types.Spot.{Spot};
    ghost use Rattle.ss_base.specs.declared.types.Span.{Span};
    ghost use Rattle.ss_base.specs.contracts.types.Spot as spot;
    ghost use Rattle.ss_base.specs.contracts.types.Span as span;
    ghost use Rattle.formula_tree.specs.Tree.{Tree};
    ghost use Rattle.formula_tree.specs.TreeCode.{coded_tree};
    ghost use Rattle.formula_tree.specs.Erase.{tree_of};
    ghost use Rattle.formula_tree.specs.WellFormed.{IsFormula};

    ghost Value = { Tree Spot Span };

    ghost coded = { coded_tree spot.the_row.coded span.the_row.coded };

    ghost view = { λ f. tree_of f.expr };

    ghost invariant = { λ f. IsFormula (tree_of f.expr) };
}

impl Formula {
    /// The formula of an expression. It takes no memory.
    pub fn new(expr: Expr) -> Formula
        requires { IsFormula (tree_of expr) }
        ensures { result ≡ tree_of expr }
    {
        Formula { expr }
    }

    pub fn expr(&self) -> &Expr
        ensures tree { tree_of result.now ≡ self.now }
        ensures formula { IsFormula self.now }
    {
        &self.expr
    }

    /// Its expression. It takes no memory.
    pub fn into_expr(self) -> Expr
        ensures tree { tree_of result ≡ self }
        ensures formula { IsFormula self }
    {
        let Formula { expr } = self;
        expr
    }

    /// An equal formula.
    pub fn copy(&self) -> Result<Formula, Memory>
        ensures { IfOk result (λ f. f ≡ self.now) }
    {
        let expr = copy_expr(&self.expr)?;
        Ok(Formula { expr })
    }
}

/// Replaces each reference of the formula by its image, and by the lost reference where one of its
/// parts has none. Ends of a range that come out of order are put in order, each with its own `$`. It
/// takes no memory.
pub fn rename<M: Remap>(formula: &mut Formula, map: &M)
    requires { IsMapped (M.images map.now) formula.old }
    ensures { formula.new ≡ mapped (M.images map.now) formula.old }
{
    remap_expr(&mut formula.expr, map);
}
