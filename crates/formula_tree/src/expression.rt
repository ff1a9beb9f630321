use crate::functions::Fun;
use crate::operators::{BinOp, PreOp};
use ss_base::{CalcErr, Seq, Span, Spot, Txt};

/// An expression. Brackets leave no node.
#[derive(Debug, Drop)]
pub enum Expr {
    Num(i64),
    Text(Txt),
    /// An error value; `Lost` is a reference whose cell or range is gone, too.
    Err(CalcErr),
    Cell(Spot),
    Range(Span),
    Pre(PreOp, Box<Expr>),
    Bin(BinOp, Box<Expr>, Box<Expr>),
    Call(Fun, Seq<Expr>),
}
