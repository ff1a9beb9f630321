ghost use Rattle.std.specs.Prelude.{◌≡◌, ◌*◌, ◌+◌, ◌-◌, ◌^◌, ◌<◌, length};
ghost use Rattle.formula_tree.specs.Tokens.{is_name_byte};
ghost use Rattle.formula_read.specs.Partial.{fresh_step, partial_step, kind_at, corner_step, address_step, name_step, word, numeral_step, quoted_step, hash_step, hash_n_step, error_step};

use crate::kinds::TokenKind;
use formula_tree::error_name;
use ss_base::CalcErr;

/// How far a token has come, by the bytes of it that were read.
#[derive(Clone, Copy, Debug)]
pub enum Partial {
    /// No byte was read.
    Fresh,
    /// Digits, by their value, which is below 2^63.
    Numeral(u64),
    /// A text without its last quote.
    Quoted,
    /// A text, which goes on where another quote follows.
    Closed,
    /// `#`
    Hash,
    /// `#N`
    HashN,
    /// So many bytes of the name of this error, and of no other one's.
    Error(CalcErr, u8),
    /// So many bytes of a name, or 0 where they can't be one's; and what they are of an address.
    Word(u8, Address),
    /// `<`
    Less,
    /// `>`
    Greater,
    /// A token that can't go on.
    Whole(TokenKind),
}

/// What the bytes read are of the address of a cell or a range.
#[derive(Clone, Copy, Debug)]
pub enum Address {
    Neither,
    Cell(Corner),
    /// A cell and a colon were read, and this of the last corner.
    Range(Corner),
}

/// What the bytes read are of a cell's address.
#[derive(Clone, Copy, Debug)]
pub enum Corner {
    /// Nothing.
    Start,
    /// `$`
    Dollar,
    /// An optional `$`, and so many letters.
    Letters(u8),
    /// The same, and a `$`.
    Fixed,
    /// A column and so many digits: a whole address.
    Digits(u8),
}

impl Partial {
    /// What the token has become with one more byte, or `None` where no token begins so.
    pub fn step(self, b: u8) -> Option<Partial>
        ensures { result ≡ partial_step self b }
    {
        match self {
            Partial::Fresh => fresh_step(b),
            Partial::Numeral(v) => numeral_step(v, b),
            Partial::Quoted => quoted_step(b),
            Partial::Closed => (b == b'"').then_some(Partial::Quoted),
            Partial::Hash => hash_step(b),
            Partial::HashN => hash_n_step(b),
            Partial::Error(e, n) => error_step(e, n, b),
            Partial::Word(n, address) => word(name_step(n, b), address.step(b)),
            Partial::Less => (b == b'=' || b == b'>').then_some(Partial::Whole(TokenKind::Sign)),
            Partial::Greater => (b == b'=').then_some(Partial::Whole(TokenKind::Sign)),
            Partial::Whole(_) => None,
        }
    }

    /// The token that was read, where this byte comes next and if the bytes are one. A name is one
    /// only before an opening bracket.
    pub fn kind_at(self, next: Option<u8>) -> Option<TokenKind>
        ensures { result ≡ kind_at self next }
    {
        match self {
            Partial::Numeral(_) => Some(TokenKind::Numeral),
            Partial::Closed => Some(TokenKind::Text),
            Partial::Error(e, n) => (n as usize == error_name(e).len()).then_some(TokenKind::Error),
            Partial::Word(n, address) => word_kind(n, address, next),
            Partial::Less | Partial::Greater => Some(TokenKind::Sign),
            Partial::Whole(kind) => Some(kind),
            Partial::Fresh | Partial::Quoted | Partial::Hash | Partial::HashN => None,
        }
    }
}

/// The first byte of a token.
fn fresh_step(b: u8) -> Option<Partial>
    ensures { result ≡ fresh_step b }
{
    match b {
        b'0'..=b'9' => Some(Partial::Numeral(u64::from(b - b'0'))),
        b'A'..=b'Z' | b'a'..=b'z' => Some(Partial::Word(1, Address::Cell(Corner::Letters(1)))),
        b'"' => Some(Partial::Quoted),
        b'#' => Some(Partial::Hash),
        b'$' => Some(Partial::Word(0, Address::Cell(Corner::Dollar))),
        b'(' => Some(Partial::Whole(TokenKind::Open)),
        b')' => Some(Partial::Whole(TokenKind::Close)),
        b';' => Some(Partial::Whole(TokenKind::Semi)),
        b'<' => Some(Partial::Less),
        b'>' => Some(Partial::Greater),
        b'+' | b'-' | b'*' | b'/' | b'^' | b'&' | b'=' => Some(Partial::Whole(TokenKind::Sign)),
        _ => None,
    }
}

/// One more digit of a numeral, unless its value gets too large.
fn numeral_step(v: u64, b: u8) -> Option<Partial>
    ensures { result ≡ numeral_step v b }
{
    if !b.is_ascii_digit() {
        return None;
    }
    let digit = u64::from(b - b'0');
    let value = v.checked_mul(10)?.checked_add(digit)?;
    (value < 1 << 63).then_some(Partial::Numeral(value))
}

fn quoted_step(b: u8) -> Option<Partial>
    ensures { result ≡ quoted_step b }
{
    match b {
        b'"' => Some(Partial::Closed),
        32..=126 => Some(Partial::Quoted),
        _ => None,
    }
}

fn hash_step(b: u8) -> Option<Partial>
    ensures { result ≡ hash_step b }
{
    match b {
        b'N' => Some(Partial::HashN),
        b'D' => Some(Partial::Error(CalcErr::Div0, 2)),
        b'R' => Some(Partial::Error(CalcErr::Lost, 2)),
        b'V' => Some(Partial::Error(CalcErr::BadKind, 2)),
        b'C' => Some(Partial::Error(CalcErr::Circ, 2)),
        _ => None,
    }
}

fn hash_n_step(b: u8) -> Option<Partial>
    ensures { result ≡ hash_n_step b }
{
    match b {
        b'/' => Some(Partial::Error(CalcErr::Na, 3)),
        b'A' => Some(Partial::Error(CalcErr::NoName, 3)),
        b'U' => Some(Partial::Error(CalcErr::BadNum, 3)),
        _ => None,
    }
}

/// One more byte of an error's name.
fn error_step(e: CalcErr, n: u8, b: u8) -> Option<Partial>
    ensures { result ≡ error_step e n b }
{
    let name = error_name(e);
    if (n as usize) < name.len() && name[n as usize] == b {
        Some(Partial::Error(e, n + 1))
    } else {
        None
    }
}

/// A word that can be a name's front or an address's.
fn word(n: u8, address: Address) -> Option<Partial>
    ensures { result ≡ word n address }
{
    match address {
        Address::Neither => (n > 0).then_some(Partial::Word(n, Address::Neither)),
        _ => Some(Partial::Word(n, address)),
    }
}

/// How many bytes of a name there are with one more, or 0 where they can't be one's.
fn name_step(n: u8, b: u8) -> u8
    ensures { result ≡ name_step n b }
{
    if is_name_byte(b) && 0 < n && n < 32 {
        n + 1
    } else {
        0
    }
}

/// A letter, a digit, `.` or `_`.
fn is_name_byte(b: u8) -> bool
    ensures { result ≡ is_name_byte b }
{
    b.is_ascii_alphanumeric() || b == b'.' || b == b'_'
}

/// The token that a word is.
fn word_kind(n: u8, address: Address, next: Option<u8>) -> Option<TokenKind>
    ensures { result ≡ kind_at (Partial.Word n address) next }
{
    if 0 < n && next == Some(b'(') {
        return Some(TokenKind::Name);
    }
    match address {
        Address::Cell(Corner::Digits(_)) => Some(TokenKind::Cell),
        Address::Range(Corner::Digits(_)) => Some(TokenKind::Range),
        _ => None,
    }
}

impl Address {
    fn step(self, b: u8) -> Address
        ensures { result ≡ address_step self b }
    {
        match self {
            Address::Neither => Address::Neither,
            Address::Cell(Corner::Digits(_)) if b == b':' => Address::Range(Corner::Start),
            Address::Cell(corner) => corner.step(b).map_or(Address::Neither, Address::Cell),
            Address::Range(corner) => corner.step(b).map_or(Address::Neither, Address::Range),
        }
    }
}

impl Corner {
    fn step(self, b: u8) -> Option<Corner>
        ensures { result ≡ corner_step self b }
    {
        match (self, b) {
            (Corner::Start | Corner::Dollar, b'A'..=b'Z' | b'a'..=b'z') => Some(Corner::Letters(1)),
            (Corner::Start, b'$') => Some(Corner::Dollar),
            (Corner::Letters(n), b'A'..=b'Z' | b'a'..=b'z') => (n < 3).then(|| Corner::Letters(
                n + 1,
            )),
            (Corner::Letters(_), b'$') => Some(Corner::Fixed),
            (Corner::Letters(_) | Corner::Fixed, b'1'..=b'9') => Some(Corner::Digits(1)),
            (Corner::Digits(n), b'0'..=b'9') if n < 7 => Some(Corner::Digits(n + 1)),
            _ => None,
        }
    }
}
