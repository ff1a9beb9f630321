ghost use Rattle.std.specs.Prelude.{◌≡◌, ◌<◌, ◌≤◌, ◌^◌, ℕ, List, length, slice_range, Some};
ghost use Rattle.ss_base.specs.declared.types.Spot.{Spot};
ghost use Rattle.ss_base.specs.declared.types.Span.{Span};
ghost use Rattle.formula_tree.specs.Tree.{Tree};
ghost use Rattle.formula_tree.specs.Lexing.{Lexeme};
ghost use Rattle.formula_tree.specs.Grammar.{Stands, IsFormulaText};
ghost use Rattle.formula_read.specs.Readings.{ReadAs};
ghost use Rattle.formula_read.specs.Places.{tokens_of};
ghost use Rattle.formula_read.specs.Stack.{start, state_after, finished_at};
ghost use Rattle.formula_read.specs.Steps.{AreTokens, Answers};

use crate::kinds::{ParseErr, Token};
use crate::lexer::tokens;
use crate::operand::Operand;
use crate::stack::{Side, finish};
use crate::steps::step;
use crate::tree_err::TreeErr;
use formula_tree::Formula;
use ss_base::Seq;
use std::alloc::Global;

/// The tree of a formula's text. `Deep` comes exactly where the nesting of the text is above 64. Beside
/// it only want of memory is refused. The cost is linear in the text.
pub fn tree(alloc: Global, text: &[u8]) -> Result<Formula, ParseErr>
    requires formula { IsFormulaText text.now }
    requires short { length text.now < 2 ^ 24 }
    ensures { (t : Tree Spot Span) (n : ℕ) → Stands text.now t n → ReadAs result t n }
{
    let tokens = tokens(alloc, text)?;
    match operand_of(alloc, text, tokens.as_slice()) {
        Ok(operand) => Ok(Formula::new(operand.into_expr())),
        Err(TreeErr::Deep) => Err(ParseErr::Deep),
        Err(TreeErr::Memory) => Err(ParseErr::Memory),
        Err(TreeErr::Outside) => unreachable!(),
    }
}

/// The operand that the tokens form, behind the `=`.
fn operand_of(alloc: Global, text: &[u8], tokens: &[Token]) -> Result<Operand, TreeErr>
    requires { (ls : List Lexeme) × AreTokens ls text.now tokens.now }
    ensures { (ls : List Lexeme) → AreTokens ls text.now tokens.now →
        Answers result (finished_at (state_after (Some start) (tokens_of ls))) }
{
    let mut frames = Seq::new(alloc);
    let mut side = Side::Head;
    for token in tokens {
        let bytes = bytes_of(text, *token);
        side = step(alloc, side, &mut frames, token.kind, bytes)?;
    }
    finish(alloc, &mut frames, side)
}

/// The bytes of a token.
fn bytes_of(text: &[u8], token: Token) -> &[u8]
    requires order { token.from ≤ token.to }
    requires within { token.to ≤ length text.now }
    ensures { result.now ≡ slice_range text.now token.from token.to }
{
    &text[token.from as usize..token.to as usize]
}
