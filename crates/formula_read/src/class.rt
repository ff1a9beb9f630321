ghost use Rattle.std.specs.Prelude.{◌≡◌};
ghost use Rattle.formula_read.specs.Classes.{class_begun};

/// What a token is to the grammar.
#[derive(Clone, Copy, Debug, PartialEq, Eq)]
pub enum TokenClass {
    /// An operand by itself: a numeral, a text, an error, a cell or a range.
    Leaf,
    /// The name of a function.
    Name,
    /// An operator, a prefix sign or the `=` at the front.
    Sign(SignClass),
    Open,
    Close,
    Semi,
}

/// Where a sign may stand other than between two operands.
#[derive(Clone, Copy, Debug, PartialEq, Eq)]
pub enum SignClass {
    /// `+` or `-`: before an operand.
    Prefix,
    /// `=`: at the front of the text.
    Equals,
    /// Nowhere else.
    Infix,
}

impl TokenClass {
    /// The class of the tokens that begin with this byte, or `None` where none does. A name is taken
    /// for a leaf: it may begin as a cell does, and only its end tells.
    pub fn begun(b: u8) -> Option<TokenClass>
        ensures { result ≡ class_begun b }
    {
        match b {
            b'0'..=b'9' | b'A'..=b'Z' | b'a'..=b'z' | b'"' | b'#' | b'$' => Some(TokenClass::Leaf),
            b'(' => Some(TokenClass::Open),
            b')' => Some(TokenClass::Close),
            b';' => Some(TokenClass::Semi),
            b'=' => Some(TokenClass::Sign(SignClass::Equals)),
            b'+' | b'-' => Some(TokenClass::Sign(SignClass::Prefix)),
            b'*' | b'/' | b'^' | b'&' | b'<' | b'>' => Some(TokenClass::Sign(SignClass::Infix)),
            _ => None,
        }
    }
}
