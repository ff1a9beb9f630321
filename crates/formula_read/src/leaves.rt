ghost use Rattle.std.specs.Prelude.{◌≡◌, ◌<◌, ◌^◌, ◌++◌, ◌∷◌, [], List, ℕ, pos, IfOk};
ghost use Rattle.std.specs.Str.Parse.{IsNumeral, digits_value};
ghost use Rattle.ss_base.specs.declared.types.CalcErr.{CalcErr};
ghost use Rattle.formula_tree.specs.declared.operators.BinOp.{BinOp};
ghost use Rattle.formula_tree.specs.Tokens.{TokenValue, doubled, error_name, sign_text};
ghost use Rattle.formula_read.specs.Stack.{leaf_of};
ghost use Rattle.formula_read.specs.Steps.{IsToken, IsSpelled, MakesLeaf};

use crate::kinds::TokenKind;
use crate::tree_err::TreeErr;
use cell_addr::{read_cell, read_range};
use formula_tree::{BinOp, Expr};
use ss_base::{CalcErr, Memory, Txt};
use std::alloc::Global;

/// The expression of a token that stands by itself, by its kind and its bytes.
pub fn leaf(alloc: Global, kind: TokenKind, bytes: &[u8]) -> Result<Expr, TreeErr>
    requires { IsSpelled kind bytes.now }
    ensures { (t : TokenValue) → IsToken t kind bytes.now → MakesLeaf result (leaf_of t) }
{
    match kind {
        TokenKind::Numeral => Ok(Expr::Num(number(bytes))),
        TokenKind::Text => {
            let text = unquoted(alloc, bytes)?;
            Ok(Expr::Text(text))
        }
        TokenKind::Error => Ok(Expr::Err(error(bytes))),
        TokenKind::Cell => match read_cell(bytes) {
            Some(cell) => Ok(Expr::Cell(cell)),
            None => Err(TreeErr::Outside),
        },
        TokenKind::Range => match read_range(bytes) {
            Some(range) => Ok(Expr::Range(range)),
            None => Err(TreeErr::Outside),
        },
        _ => Err(TreeErr::Outside),
    }
}

/// The number of a numeral.
fn number(digits: &[u8]) -> i64
    requires numeral { IsNumeral 10 digits.now }
    requires small { digits_value 10 digits.now < 2 ^ 63 }
    ensures { result ≡ pos (digits_value 10 digits.now) }
{
    let mut value = 0u64;
    for digit in digits {
        value = value * 10 + u64::from(*digit - b'0');
    }
    value as i64
}

/// What stands between the quotes, each pair of quotes as one.
fn unquoted(alloc: Global, quoted: &[u8]) -> Result<Txt, Memory>
    requires { (t : List ℕ) × (quoted.now ≡ 34 ∷ doubled t ++ 34 ∷ []) }
    ensures { IfOk result (λ t. quoted.now ≡ 34 ∷ doubled t ++ 34 ∷ []) }
{
    let inner = &quoted[1..quoted.len() - 1];
    let mut text = Vec::new(alloc);
    let mut at = 0usize;
    while at < inner.len() {
        text.push(inner[at])?;
        at += if inner[at] == b'"' { 2 } else { 1 };
    }
    Ok(Txt::from_vec(text))
}

/// The error of this name.
fn error(name: &[u8]) -> CalcErr
    requires { (e : CalcErr) × (name.now ≡ error_name e) }
    ensures { name.now ≡ error_name result }
{
    match (name[1], name[2]) {
        (b'D', _) => CalcErr::Div0,
        (b'N', b'/') => CalcErr::Na,
        (b'N', b'A') => CalcErr::NoName,
        (b'N', _) => CalcErr::BadNum,
        (b'R', _) => CalcErr::Lost,
        (b'V', _) => CalcErr::BadKind,
        _ => CalcErr::Circ,
    }
}

/// The operator that a sign spells.
pub fn operator(sign: &[u8]) -> BinOp
    requires { (op : BinOp) × (sign.now ≡ sign_text op) }
    ensures { sign.now ≡ sign_text result }
{
    match sign {
        [b'^'] => BinOp::Pow,
        [b'*'] => BinOp::Mul,
        [b'/'] => BinOp::Div,
        [b'+'] => BinOp::Add,
        [b'-'] => BinOp::Sub,
        [b'&'] => BinOp::Join,
        [b'='] => BinOp::Eq,
        [b'<', b'>'] => BinOp::Ne,
        [b'<'] => BinOp::Lt,
        [b'<', _] => BinOp::Le,
        [b'>'] => BinOp::Gt,
        _ => BinOp::Ge,
    }
}
