ghost use Rattle.std.specs.Prelude.{◌≡◌};
ghost use Rattle.formula_tree.specs.Precedence.{precedence_of_operator};
ghost use Rattle.formula_tree.specs.Tokens.{sign_text};
ghost use Rattle.formula_tree.specs.Grammar.{operator_of_sign};

/// A sign before an operand.
#[derive(Clone, Copy, Debug, PartialEq, Eq)]
pub enum PreOp {
    Plus,
    Minus,
}

/// An operator between two operands. Operators of one precedence group to the left.
#[derive(Clone, Copy, Debug, PartialEq, Eq)]
pub enum BinOp {
    /// `^`
    Pow,
    /// `*`
    Mul,
    /// `/`
    Div,
    /// `+`
    Add,
    /// `-`
    Sub,
    /// `&`
    Join,
    /// `=`
    Eq,
    /// `<>`
    Ne,
    /// `<`
    Lt,
    /// `<=`
    Le,
    /// `>`
    Gt,
    /// `>=`
    Ge,
}

impl PreOp {
    /// How formulas spell it.
    pub fn sign(self) -> &'static [u8]
        ensures { result.now ≡ sign_text (operator_of_sign self) }
    {
        match self {
            PreOp::Plus => b"+",
            PreOp::Minus => b"-",
        }
    }
}

impl BinOp {
    /// How formulas spell it.
    pub fn sign(self) -> &'static [u8]
        ensures { result.now ≡ sign_text self }
    {
        match self {
            BinOp::Pow => b"^",
            BinOp::Mul => b"*",
            BinOp::Div => b"/",
            BinOp::Add => b"+",
            BinOp::Sub => b"-",
            BinOp::Join => b"&",
            BinOp::Eq => b"=",
            BinOp::Ne => b"<>",
            BinOp::Lt => b"<",
            BinOp::Le => b"<=",
            BinOp::Gt => b">",
            BinOp::Ge => b">=",
        }
    }

    /// How tightly it binds, from 1 of the comparisons to 5 of `^`.
    pub fn precedence(self) -> u8
        ensures { result ≡ precedence_of_operator self }
    {
        match self {
            BinOp::Pow => 5,
            BinOp::Mul | BinOp::Div => 4,
            BinOp::Add | BinOp::Sub => 3,
            BinOp::Join => 2,
            _ => 1,
        }
    }
}
