use ss_base::Memory;
use thiserror::Error;

/// What a token is.
#[derive(Clone, Copy, Debug, PartialEq, Eq)]
pub enum TokenKind {
    Numeral,
    Text,
    Error,
    Cell,
    Range,
    /// The name of a function, directly before an opening bracket.
    Name,
    Open,
    Close,
    Semi,
    /// An operator, a prefix sign or the `=` at the front.
    Sign,
}

/// A token: the bytes of a text from `from` up to `to`, counted from 0, the last one not among them.
#[derive(Clone, Copy, Debug, PartialEq, Eq)]
pub struct Token {
    pub from: u32,
    pub to: u32,
    pub kind: TokenKind,
}

/// Why a text isn't read.
#[derive(Clone, Copy, Debug, PartialEq, Eq, Error)]
pub enum ParseErr {
    /// The text is outside the grammar. The number is the length of its longest front that some text
    /// of the grammar has, too.
    #[error("not a formula at {0}")]
    At(u32),
    /// The text is in the grammar, with a nesting above 64.
    #[error("nested too deeply")]
    Deep,
    #[error("no memory")]
    Memory,
}

impl From<Memory> for ParseErr {
    ghost use Rattle.std.specs.Prelude.{◌≡◌};
    ghost use Rattle.formula_read.specs.declared.kinds.ParseErr.TheVariants as parse_err;

    ghost from_gives = { λ _ e. e ≡ parse_err.Memory };

    fn from(_: Memory) -> ParseErr {
        ParseErr::Memory
    }
}
