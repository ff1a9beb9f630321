ghost use Rattle.std.specs.Prelude.{◌≡◌, ◌++◌, IfOk, map as map_list};
ghost use Rattle.formula_tree.specs.Erase.{tree_of};

use crate::expression::Expr;
use ss_base::{Memory, Seq};

/// An equal tree.
#[cycle(copy)]
pub fn copy_expr(expr: &Expr) -> Result<Expr, Memory>
    ensures { IfOk result (λ e. tree_of e ≡ tree_of expr.now) }
{
    match expr {
        Expr::Num(n) => Ok(Expr::Num(*n)),
        Expr::Text(t) => {
            let t = t.copy()?;
            Ok(Expr::Text(t))
        }
        Expr::Err(e) => Ok(Expr::Err(*e)),
        Expr::Cell(c) => Ok(Expr::Cell(*c)),
        Expr::Range(r) => Ok(Expr::Range(*r)),
        Expr::Pre(op, e) => {
            let alloc = *Box::allocator(e);
            let e = copy_expr(e)?;
            let e = Box::new(alloc, e)?;
            Ok(Expr::Pre(*op, e))
        }
        Expr::Bin(op, d, e) => {
            let alloc = *Box::allocator(d);
            let d = copy_expr(d)?;
            let e = copy_expr(e)?;
            let d = Box::new(alloc, d)?;
            let e = Box::new(alloc, e)?;
            Ok(Expr::Bin(*op, d, e))
        }
        Expr::Call(fun, args) => {
            let fun = fun.copy()?;
            let args = copy_all(args.as_slice(), args.empty_beside())?;
            Ok(Expr::Call(fun, args))
        }
    }
}

/// Equal trees, put behind `copies`.
#[cycle(copy)]
fn copy_all(exprs: &[Expr], mut copies: Seq<Expr>) -> Result<Seq<Expr>, Memory>
    ensures { IfOk result (λ es. map_list tree_of es ≡ map_list tree_of (copies ++ exprs.now)) }
{
    for e in exprs {
        let copied = copy_expr(e)?;
        copies.push(copied)?;
    }
    Ok(copies)
}
