ghost use Rattle.std.specs.Prelude.{◌≡◌, ◌+◌, ◌<◌, ◌≤◌, IfOk, IfErr, suc};
ghost use Rattle.formula_tree.specs.Erase.{tree_of};
ghost use Rattle.formula_read.specs.Nested.{leaf, with_sign, between, bracketed, no_arguments, with_argument, called, Makes};

use crate::tree_err::TreeErr;
use formula_tree::{BinOp, Expr, Fun, PreOp};
use ss_base::{Memory, Seq};
use std::alloc::Global;
use std::marker::Model;

/// An expression that was read, and the nesting of its text, which is at most 64. One whose nesting
/// would be greater is refused as `Deep` before it is made.
#[derive(Debug, Drop)]
pub struct Operand {
    expr: Expr,
    nesting: u8,
}

impl Model for Operand {
    ghost use Rattle.std.specs.Prelude.{◌≤◌};
    ghost use Rattle.std.specs.Coded.{codes};
    ghost use Rattle.ss_base.specs.contracts.types.Spot as spot;
    ghost use Rattle.ss_base.specs.contracts.types.Span as span;
    ghost use Rattle.formula_tree.specs.Erase.{tree_of};
    ghost use Rattle.formula_tree.specs.TreeCode.{coded_tree};
    ghost use Rattle.formula_read.specs.Nested.{Nested};

    ghost Value = { Nested };

    ghost coded = { Prim.hlevel (codes, coded_tree spot.the_row.coded span.the_row.coded) };

    ghost view = { λ o. record { tree = tree_of o.expr; nesting = o.nesting } };

    ghost invariant = { λ o. o.nesting ≤ 64 };
}

impl Operand {
    /// What stands by itself. It takes no memory.
    pub fn leaf(expr: Expr) -> Operand
        ensures { result ≡ leaf (tree_of expr) }
    {
        Operand { expr, nesting: 1 }
    }

    /// The operand behind a prefix sign.
    pub fn with_sign(self, alloc: Global, op: PreOp) -> Result<Operand, TreeErr>
        ensures { Makes result (with_sign op self) }
    {
        let Operand { expr, nesting } = self;
        let nesting = deeper(nesting)?;
        let expr = boxed(alloc, expr)?;
        Ok(Operand {
            expr: Expr::Pre(op, expr),
            nesting,
        })
    }

    /// An operator between this operand and a right one.
    pub fn between(self, alloc: Global, op: BinOp, right: Operand) -> Result<Operand, TreeErr>
        ensures { Makes result (between op self right) }
    {
        let Operand { expr, nesting } = self;
        let nesting = deeper(nesting.max(right.nesting))?;
        let left = boxed(alloc, expr)?;
        let right = boxed(alloc, right.expr)?;
        Ok(Operand {
            expr: Expr::Bin(op, left, right),
            nesting,
        })
    }

    /// The operand in brackets, which leave no node. It takes no memory.
    pub fn bracketed(self) -> Result<Operand, TreeErr>
        ensures { Makes result (bracketed self) }
    {
        let Operand { expr, nesting } = self;
        let nesting = deeper(nesting)?;
        Ok(Operand { expr, nesting })
    }

    /// The expression. It takes no memory.
    pub fn into_expr(self) -> Expr
        ensures tree { tree_of result ≡ self.tree }
        ensures shallow { self.nesting ≤ 64 }
    {
        let Operand { expr, nesting: _ } = self;
        expr
    }
}

/// The arguments of a call, and their greatest nesting, or 0 without any.
#[derive(Debug, Drop)]
pub struct OperandList {
    exprs: Seq<Expr>,
    nesting: u8,
}

impl Model for OperandList {
    ghost use Rattle.std.specs.Prelude.{map, ◌≤◌};
    ghost use Rattle.std.specs.Coded.{codes};
    ghost use Rattle.ss_base.specs.contracts.types.Spot as spot;
    ghost use Rattle.ss_base.specs.contracts.types.Span as span;
    ghost use Rattle.formula_tree.specs.Erase.{tree_of};
    ghost use Rattle.formula_tree.specs.TreeCode.{coded_tree};
    ghost use Rattle.formula_read.specs.Nested.{NestedList};

    ghost Value = { NestedList };

    ghost coded = { Prim.hlevel (codes, coded_tree spot.the_row.coded span.the_row.coded) };

    ghost view = { λ a. record { trees = map tree_of a.exprs; nesting = a.nesting } };
}

impl OperandList {
    /// None so far. It takes no memory.
    pub fn none(alloc: Global) -> OperandList
        ensures { result ≡ no_arguments }
    {
        OperandList {
            exprs: Seq::new(alloc),
            nesting: 0,
        }
    }

    /// One more behind the last one.
    pub fn with(self, operand: Operand) -> Result<OperandList, Memory>
        ensures { IfOk result (λ args. args ≡ with_argument self operand) }
    {
        let OperandList { mut exprs, nesting } = self;
        let nesting = nesting.max(operand.nesting);
        exprs.push(operand.expr)?;
        Ok(OperandList { exprs, nesting })
    }

    /// The call of a function with these arguments. It takes no memory.
    pub fn called(self, fun: Fun) -> Result<Operand, TreeErr>
        ensures { Makes result (called fun self) }
    {
        let OperandList { exprs, nesting } = self;
        let nesting = deeper(nesting)?;
        Ok(Operand {
            expr: Expr::Call(fun, exprs),
            nesting,
        })
    }
}

/// One more than a nesting, unless it gets above 64.
fn deeper(nesting: u8) -> Result<u8, TreeErr>
    ensures more { IfOk result (λ n. (n ≡ suc nesting) × (n ≤ 64)) }
    ensures deep { IfErr result (λ e. (e ≡ TreeErr.Deep) × (64 ≤ nesting)) }
{
    if nesting < 64 {
        Ok(nesting + 1)
    } else {
        Err(TreeErr::Deep)
    }
}

fn boxed(alloc: Global, expr: Expr) -> Result<Box<Expr>, Memory>
    ensures { IfOk result (λ b. b.value ≡ expr) }
{
    Ok(Box::new(alloc, expr)?)
}
