use formula_tree::{BinOp, Fun, PreOp};
use ss_base::{CalcErr, Span, Spot, Txt};

/// A step of a formula's code. Steps work on a stack of arguments, which are values or references.
#[derive(Debug, Drop)]
pub enum Step {
    /// Puts a number on top.
    Num(i64),
    /// Puts a text on top.
    Text(Txt),
    /// Puts an error value on top.
    Fault(CalcErr),
    /// Puts a reference to a cell on top.
    Cell(Spot),
    /// Puts a reference to a range on top.
    Range(Span),
    /// Replaces the argument on top by its value under a prefix sign.
    Pre(PreOp),
    /// Replaces the two arguments on top, of which the upper one is the right operand, by the value
    /// of an operator.
    Bin(BinOp),
    /// Replaces so many arguments on top, of which the uppermost is the last one, by the value of a
    /// function.
    Call(Fun, u32),
    /// Takes the argument on top as a number. Where it is an error, that error is left in its place
    /// and as many steps as the second number says are passed over; at 0 as many as the first says;
    /// at any other number none.
    Test(u32, u32),
    /// The end of a branch: replaces the argument on top by its value, since a choice gives no
    /// reference, and passes over so many steps.
    Skip(u32),
}
