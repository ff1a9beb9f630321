ghost use Rattle.std.specs.Prelude.{◌≡◌, [], ◌∷◌, ◌++◌, All, IfOk, OnOk};
ghost use Rattle.formula_tree.specs.Erase.{tree_of};
ghost use Rattle.formula_tree.specs.Grammar.{Stands};
ghost use Rattle.formula_tree.specs.Measures.{print_nesting};
ghost use Rattle.formula_tree.specs.Precedence.{precedence_of};
ghost use Rattle.formula_tree.specs.Printed.{formula_text, placed_text, tree_text};
ghost use Rattle.formula_tree.specs.WellFormed.{IsWellFormed};
ghost use Rattle.formula_print.specs.Arguments.{parted_texts};

use crate::pieces::{
    push_byte, push_bytes, push_cell, push_if, push_number, push_quoted, push_range,
};
use crate::round_trip::formulas_are_read_back;
use formula_tree::{Expr, Formula, error_name, precedence};
use ss_base::{Memory, Txt};
use std::alloc::Global;

/// The text of a formula, with its leading `=`. It has no spaces, and brackets only where an operand
/// binds more loosely than its place allows. The time is linear in the text. The printer calls itself
/// once a level of the formula, which has at most 64.
pub fn print(alloc: Global, formula: &Formula) -> Result<Txt, Memory>
    ensures text { IfOk result (λ t. t ≡ formula_text formula.now) }

    // it is in the grammar and stands for this formula
    ensures reads { IfOk result (λ t. Stands t formula.now (print_nesting formula.now)) }
{
    formulas_are_read_back();
    let mut out = Vec::new(alloc);
    out.push(b'=')?;
    push_tree(&mut out, formula.expr())?;
    Ok(Txt::from_vec(out))
}

/// Appends the text of an expression.
#[cycle(print)]
fn push_tree(out: &mut Vec<u8>, expr: &Expr) -> Result<(), Memory>
    requires { IsWellFormed (tree_of expr.now) }
    ensures { OnOk result (out.new.items ≡ out.old.items ++ tree_text (tree_of expr.now)) }
{
    match expr {
        Expr::Num(n) => push_number(out, *n),
        Expr::Text(text) => push_quoted(out, text.bytes()),
        Expr::Err(e) => push_bytes(out, error_name(*e)),
        Expr::Cell(cell) => push_cell(out, *cell),
        Expr::Range(range) => push_range(out, *range),
        Expr::Pre(op, operand) => {
            push_bytes(out, op.sign())?;
            push_placed(out, 6, operand)
        }
        Expr::Bin(op, left, right) => {
            let level = op.precedence();
            push_placed(out, level, left)?;
            push_bytes(out, op.sign())?;
            push_placed(out, level + 1, right)
        }
        Expr::Call(fun, args) => push_call(out, fun.name(), args.as_slice()),
    }
}

/// Appends the text of an operand, in brackets where it binds more loosely than its place wants.
#[cycle(print)]
fn push_placed(out: &mut Vec<u8>, wanted: u8, operand: &Expr) -> Result<(), Memory>
    requires { IsWellFormed (tree_of operand.now) }
    ensures { OnOk result (out.new.items ≡ out.old.items ++ placed_text wanted (precedence_of (tree_of operand.now)) (tree_text (tree_of operand.now))) }
{
    if precedence(operand) < wanted {
        push_byte(out, b'(')?;
        push_tree(out, operand)?;
        push_byte(out, b')')
    } else {
        push_tree(out, operand)
    }
}

/// Appends the text of a call.
#[cycle(print)]
fn push_call(out: &mut Vec<u8>, name: &[u8], args: &[Expr]) -> Result<(), Memory>
    requires { All (λ e. IsWellFormed (tree_of e)) args.now }
    ensures { OnOk result (out.new.items ≡ out.old.items ++ (name.now ++ (40 ∷ parted_texts args.now ++ 41 ∷ []))) }
{
    push_bytes(out, name)?;
    push_byte(out, b'(')?;
    push_arguments(out, args)?;
    push_byte(out, b')')
}

/// Appends the texts of a call's arguments, with a semicolon between each two.
#[cycle(print)]
fn push_arguments(out: &mut Vec<u8>, args: &[Expr]) -> Result<(), Memory>
    requires { All (λ e. IsWellFormed (tree_of e)) args.now }
    ensures { OnOk result (out.new.items ≡ out.old.items ++ parted_texts args.now) }
{
    for (i, arg) in args.iter().enumerate() {
        push_if(out, i > 0, b';')?;
        push_tree(out, arg)?;
    }
    Ok(())
}
