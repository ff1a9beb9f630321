ghost use Rattle.std.specs.Prelude.{◌≡◌, ◌<◌, [], ◌∷◌, ◌++◌, reverse, IfSome, IfNone};
ghost use Rattle.formula_read.specs.Nested.{Makes};
ghost use Rattle.formula_read.specs.Stack.{wanted, completed, reduced, waiting, operator_behind, closed, parted, ended_call, finished};
ghost use Rattle.formula_read.specs.Steps.{Reduces, IsStepOutcome, Answers, IsReduced};
ghost use Rattle.formula_tree.specs.Precedence.{precedence_of_operator};

use crate::operand::{Operand, OperandList};
use crate::tree_err::TreeErr;
use formula_tree::{BinOp, Fun, PreOp};
use ss_base::Seq;
use std::alloc::Global;

/// On which side of an operand the reader stands between two tokens.
#[derive(Debug, Drop)]
pub enum Side {
    /// Before the `=`.
    Head,
    /// An operand is wanted, or the end of a call without arguments.
    Wants,
    /// A function's name was read, and its bracket is wanted.
    Named,
    /// This operand was read.
    Has(Operand),
}

/// What stands before the operand at hand, and waits for its end.
#[derive(Debug, Drop)]
pub enum Frame {
    Sign(PreOp),
    /// A left operand and its operator.
    Left(Operand, BinOp),
    /// An open bracket.
    Group,
    /// A function's name, its open bracket, and the arguments so far.
    Call(Fun, OperandList),
}

impl Frame {
    /// How tightly an operand has to bind behind it.
    fn wanted(&self) -> u8
        ensures { result ≡ wanted self.now }
    {
        match self {
            Frame::Sign(_) => 6,
            Frame::Left(_, op) => op.precedence() + 1,
            Frame::Group | Frame::Call(_, _) => 1,
        }
    }

    /// The operand with what waits for it; a bracket is closed behind it.
    fn completed(self, alloc: Global, operand: Operand) -> Result<Operand, TreeErr>
        ensures { Makes result (completed self operand) }
    {
        match self {
            Frame::Sign(op) => operand.with_sign(alloc, op),
            Frame::Left(left, op) => left.between(alloc, op, operand),
            Frame::Group => operand.bracketed(),
            Frame::Call(fun, args) => args.with(operand)?.called(fun),
        }
    }
}

/// Takes the last frame out where an operand that something of this precedence follows belongs to it.
fn pop_tighter(frames: &mut Seq<Frame>, precedence: u8) -> Option<Frame>
    ensures last { IfSome result (λ f. frames.old ≡ frames.new ++ f ∷ []) }
    ensures tighter { IfSome result (λ f. precedence < wanted f) }
    ensures kept { IfNone result (frames.new ≡ frames.old) }
    ensures reduced { IfNone result (IsReduced precedence (reverse frames.old)) }
{
    match frames.as_slice().last() {
        Some(frame) if frame.wanted() > precedence => frames.pop(),
        _ => None,
    }
}

/// The operand with all that waits for it where something that binds so tightly follows.
fn reduce(
    alloc: Global,
    frames: &mut Seq<Frame>,
    operand: Operand,
    precedence: u8,
) -> Result<Operand, TreeErr>
    ensures { Reduces result frames.new (reduced precedence operand (reverse frames.old)) }
{
    let mut operand = operand;
    while let Some(frame) = pop_tighter(frames, precedence) {
        operand = frame.completed(alloc, operand)?;
    }
    Ok(operand)
}

/// A prefix sign or an open bracket where an operand is wanted.
pub fn wait(frames: &mut Seq<Frame>, frame: Frame) -> Result<Side, TreeErr>
    ensures { IsStepOutcome result frames.new (Some (waiting (frame ∷ reverse frames.old))) }
{
    frames.push(frame)?;
    Ok(Side::Wants)
}

/// A binary operator behind an operand.
pub fn operate(
    alloc: Global,
    frames: &mut Seq<Frame>,
    operand: Operand,
    op: BinOp,
) -> Result<Side, TreeErr>
    ensures { let before = reduced (precedence_of_operator op) operand (reverse frames.old) in
        IsStepOutcome result frames.new (Some (operator_behind op before)) }
{
    let left = reduce(alloc, frames, operand, op.precedence())?;
    frames.push(Frame::Left(left, op))?;
    Ok(Side::Wants)
}

/// A closing bracket behind an operand.
pub fn close(alloc: Global, frames: &mut Seq<Frame>, operand: Operand) -> Result<Side, TreeErr>
    ensures { IsStepOutcome result frames.new (closed (reduced 1 operand (reverse frames.old))) }
{
    let operand = reduce(alloc, frames, operand, 1)?;
    match frames.pop() {
        Some(frame) => Ok(Side::Has(frame.completed(alloc, operand)?)),
        None => Err(TreeErr::Outside),
    }
}

/// A semicolon behind an operand.
pub fn part(alloc: Global, frames: &mut Seq<Frame>, operand: Operand) -> Result<Side, TreeErr>
    ensures { IsStepOutcome result frames.new (parted (reduced 1 operand (reverse frames.old))) }
{
    let operand = reduce(alloc, frames, operand, 1)?;
    match frames.pop() {
        Some(Frame::Call(fun, args)) => {
            let args = args.with(operand)?;
            frames.push(Frame::Call(fun, args))?;
            Ok(Side::Wants)
        }
        _ => Err(TreeErr::Outside),
    }
}

/// A closing bracket where an operand is wanted.
pub fn end_call(frames: &mut Seq<Frame>) -> Result<Side, TreeErr>
    ensures { IsStepOutcome result frames.new (ended_call (reverse frames.old)) }
{
    match frames.pop() {
        Some(Frame::Call(fun, args)) => Ok(Side::Has(args.called(fun)?)),
        _ => Err(TreeErr::Outside),
    }
}

/// The operand of the whole text at its end.
pub fn finish(alloc: Global, frames: &mut Seq<Frame>, side: Side) -> Result<Operand, TreeErr>
    ensures { Answers result (finished side (reverse frames.old)) }
{
    let Side::Has(operand) = side else {
        return Err(TreeErr::Outside);
    };
    let operand = reduce(alloc, frames, operand, 1)?;
    if frames.is_empty() {
        Ok(operand)
    } else {
        Err(TreeErr::Outside)
    }
}
