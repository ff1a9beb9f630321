ghost use Rattle.std.specs.Prelude.{◌≡◌, ◌↔◌, true, map};
ghost use Rattle.formula_tree.specs.Erase.{tree_of};

use formula_tree::{Expr, Fun};
use sheet_ops::Content;

/// Whether two contents are equal. It takes the time of the smaller one.
pub fn same_contents(a: &Content, b: &Content) -> bool
    ensures { (result ≡ true) ↔ (a.now ≡ b.now) }
{
    match (a, b) {
        (Content::Empty, Content::Empty) => true,
        (Content::Num(m), Content::Num(n)) => m == n,
        (Content::Text(s), Content::Text(t)) => s.bytes() == t.bytes(),
        (Content::Formula(f), Content::Formula(g)) => same_exprs(f.expr(), g.expr()),
        _ => false,
    }
}

/// Whether two trees are equal.
#[cycle(same)]
fn same_exprs(a: &Expr, b: &Expr) -> bool
    ensures { (result ≡ true) ↔ (tree_of a.now ≡ tree_of b.now) }
{
    match (a, b) {
        (Expr::Num(m), Expr::Num(n)) => m == n,
        (Expr::Text(s), Expr::Text(t)) => s.bytes() == t.bytes(),
        (Expr::Err(d), Expr::Err(e)) => d == e,
        (Expr::Cell(s), Expr::Cell(t)) => s == t,
        (Expr::Range(s), Expr::Range(t)) => s == t,
        (Expr::Pre(o, d), Expr::Pre(p, e)) => o == p && same_exprs(d, e),
        (Expr::Bin(o, d, e), Expr::Bin(p, f, g)) => {
            o == p && same_exprs(d, f) && same_exprs(e, g)
        }
        (Expr::Call(o, ds), Expr::Call(p, es)) => {
            same_functions(o, p) && same_lists(ds.as_slice(), es.as_slice())
        }
        _ => false,
    }
}

/// Whether two lists hold equal trees.
#[cycle(same)]
fn same_lists(ds: &[Expr], es: &[Expr]) -> bool
    ensures { (result ≡ true) ↔ (map tree_of ds.now ≡ map tree_of es.now) }
{
    if ds.len() != es.len() {
        return false;
    }
    for i in 0..ds.len() {
        if !same_exprs(&ds[i], &es[i]) {
            return false;
        }
    }
    true
}

/// Whether two functions are one. No unknown one has the name of a known one, so the names suffice.
fn same_functions(a: &Fun, b: &Fun) -> bool
    ensures { (result ≡ true) ↔ (a.now ≡ b.now) }
{
    match (a, b) {
        (Fun::Unknown(s), Fun::Unknown(t)) => s.bytes() == t.bytes(),
        (Fun::Unknown(_), _) | (_, Fun::Unknown(_)) => false,
        _ => a.name() == b.name(),
    }
}
