ghost use Rattle.std.specs.Prelude.{◌≡◌, ◌+◌, ◌-◌, ◌^◌, min, length};
ghost use Rattle.formula_tree.specs.Erase.{tree_of};
ghost use Rattle.formula_tree.specs.Precedence.{precedence_of, precedence_of_operator};
ghost use Rattle.formula_tree.specs.Measures.{print_nesting, placed_nesting, name_bytes, node_count, byte_count, weight_of};
ghost use Rattle.formula_tree.specs.Lists.{nesting_of_all, weight_of_all};

use crate::expression::Expr;
use crate::functions::Fun;

/// How tightly an expression binds, from 1 of a comparison to 7 of what stands by itself.
pub fn precedence(expr: &Expr) -> u8
    ensures { result ≡ precedence_of (tree_of expr.now) }
{
    match expr {
        Expr::Pre(_, _) => 6,
        Expr::Bin(op, _, _) => op.precedence(),
        _ => 7,
    }
}

/// The nesting of the text that an expression prints as; 2^32 - 1 stands for all above it. It calls
/// itself once a level.
#[cycle(nesting)]
pub fn nesting(expr: &Expr) -> u32
    ensures { result ≡ min (print_nesting (tree_of expr.now)) (2 ^ 32 - 1) }
{
    match expr {
        Expr::Pre(_, e) => nesting_placed(6, e).saturating_add(1),
        Expr::Bin(op, d, e) => {
            let level = op.precedence();
            let left = nesting_placed(level, d);
            let right = nesting_placed(level + 1, e);
            left.max(right).saturating_add(1)
        }
        Expr::Call(_, args) => greatest_nesting(args.as_slice()).saturating_add(1),
        _ => 1,
    }
}

/// The same of an operand where something that binds as tightly as `wanted` is wanted.
#[cycle(nesting)]
fn nesting_placed(wanted: u8, expr: &Expr) -> u32
    ensures { result ≡ min (placed_nesting wanted (precedence_of (tree_of expr.now)) (print_nesting (tree_of expr.now))) (2 ^ 32 - 1) }
{
    let inner = nesting(expr);
    if precedence(expr) < wanted {
        inner.saturating_add(1)
    } else {
        inner
    }
}

/// The greatest of several, or 0 of none.
#[cycle(nesting)]
fn greatest_nesting(exprs: &[Expr]) -> u32
    ensures { result ≡ min (nesting_of_all exprs.now) (2 ^ 32 - 1) }
{
    let mut most = 0u32;
    for e in exprs {
        most = most.max(nesting(e));
    }
    most
}

/// How many nodes an expression has, and bytes in its texts and unknown names; 2^32 - 1 stands for all
/// above it. It calls itself once a level.
#[cycle(weight)]
pub fn weight(expr: &Expr) -> u32
    ensures { result ≡ min (weight_of (tree_of expr.now)) (2 ^ 32 - 1) }
{
    match expr {
        Expr::Text(t) => capped(t.bytes().len()).saturating_add(1),
        Expr::Pre(_, e) => weight(e).saturating_add(1),
        Expr::Bin(_, d, e) => weight(d).saturating_add(weight(e)).saturating_add(1),
        Expr::Call(fun, args) => {
            let name = capped(name_length(fun));
            total_weight(args.as_slice())
                .saturating_add(name)
                .saturating_add(1)
        }
        _ => 1,
    }
}

/// The sum of several.
#[cycle(weight)]
fn total_weight(exprs: &[Expr]) -> u32
    ensures { result ≡ min (weight_of_all exprs.now) (2 ^ 32 - 1) }
{
    let mut total = 0u32;
    for e in exprs {
        total = total.saturating_add(weight(e));
    }
    total
}

/// How many bytes the name of an unknown function has, and 0 for a known one.
fn name_length(fun: &Fun) -> usize
    ensures { result ≡ name_bytes fun.now }
{
    match fun {
        Fun::Unknown(name) => name.bytes().len(),
        _ => 0,
    }
}

/// A length, where 2^32 - 1 stands for all above it.
fn capped(length: usize) -> u32
    ensures { result ≡ min length (2 ^ 32 - 1) }
{
    u32::try_from(length).unwrap_or(u32::MAX)
}
