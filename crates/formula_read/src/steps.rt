ghost use Rattle.std.specs.Prelude.{reverse};
ghost use Rattle.formula_tree.specs.Tokens.{TokenValue};
ghost use Rattle.formula_read.specs.Stack.{begun, call_opened, ended, stepped};
ghost use Rattle.formula_read.specs.Steps.{IsToken, IsSpelled, IsStepOutcome};

use crate::kinds::TokenKind;
use crate::leaves::{leaf, operator};
use crate::operand::{Operand, OperandList};
use crate::stack::{Frame, Side, close, end_call, operate, part, wait};
use crate::tree_err::TreeErr;
use formula_tree::{BinOp, Fun, PreOp};
use ss_base::Seq;
use std::alloc::Global;

/// One more token, by its kind and its bytes. It takes memory for what waits and for what is made.
pub fn step(
    alloc: Global,
    side: Side,
    frames: &mut Seq<Frame>,
    kind: TokenKind,
    bytes: &[u8],
) -> Result<Side, TreeErr>
    requires { IsSpelled kind bytes.now }
    ensures { (t : TokenValue) → IsToken t kind bytes.now →
        IsStepOutcome result frames.new (stepped side (reverse frames.old) t) }
{
    match side {
        Side::Head => Ok(Side::Wants),
        Side::Wants => begin(alloc, frames, kind, bytes),
        Side::Named if kind == TokenKind::Open => Ok(Side::Wants),
        Side::Named => Err(TreeErr::Outside),
        Side::Has(operand) => end(alloc, operand, frames, kind, bytes),
    }
}

/// One more token where an operand is wanted.
fn begin(
    alloc: Global,
    frames: &mut Seq<Frame>,
    kind: TokenKind,
    bytes: &[u8],
) -> Result<Side, TreeErr>
    requires { IsSpelled kind bytes.now }
    ensures { (t : TokenValue) → IsToken t kind bytes.now →
        IsStepOutcome result frames.new (begun (reverse frames.old) t) }
{
    match kind {
        TokenKind::Name => {
            let fun = Fun::named(alloc, bytes)?;
            frames.push(Frame::Call(fun, OperandList::none(alloc)))?;
            Ok(Side::Named)
        }
        TokenKind::Sign => match operator(bytes) {
            BinOp::Add => wait(frames, Frame::Sign(PreOp::Plus)),
            BinOp::Sub => wait(frames, Frame::Sign(PreOp::Minus)),
            _ => Err(TreeErr::Outside),
        },
        TokenKind::Open => wait(frames, Frame::Group),
        TokenKind::Close => end_call(frames),
        TokenKind::Semi => Err(TreeErr::Outside),
        _ => {
            let expr = leaf(alloc, kind, bytes)?;
            Ok(Side::Has(Operand::leaf(expr)))
        }
    }
}

/// One more token behind an operand.
fn end(
    alloc: Global,
    operand: Operand,
    frames: &mut Seq<Frame>,
    kind: TokenKind,
    bytes: &[u8],
) -> Result<Side, TreeErr>
    requires { IsSpelled kind bytes.now }
    ensures { (t : TokenValue) → IsToken t kind bytes.now →
        IsStepOutcome result frames.new (ended operand (reverse frames.old) t) }
{
    match kind {
        TokenKind::Sign => operate(alloc, frames, operand, operator(bytes)),
        TokenKind::Close => close(alloc, frames, operand),
        TokenKind::Semi => part(alloc, frames, operand),
        _ => Err(TreeErr::Outside),
    }
}
