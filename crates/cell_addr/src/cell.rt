ghost use Rattle.std.specs.Prelude.{◌≡◌, ◌≤◌, ◌<◌, IfSome, length, position, take_while};
ghost use Rattle.std.specs.Char.{is_ascii_alphabetic};
ghost use Rattle.std.specs.List.{prefix_len};
ghost use Rattle.cell_addr.specs.Cells.{cell_of, range_of, range_between, has_dollar, is_colon, past_dollar, past_letters, span_of_corners};

use crate::column::col_of;
use crate::number::read_count;
use ss_base::{Span, Spot};

/// The cell of an address: an optional `$`, a column's letters in either case, an optional `$` and a row
/// number of 1 to 7 digits that begins with 1 to 9. `None` for any other text. Rows and columns are
/// counted from 0.
pub fn read_cell(text: &[u8]) -> Option<Spot>
    ensures value { result ≡ cell_of text.now }
    ensures within { IfSome result (λ spot. (spot.row < 9999999) × (spot.col < 18278)) }
{
    let (abs_col, text) = split_dollar(text);
    let (letters, text) = split_letters(text);
    let (abs_row, digits) = split_dollar(text);
    let col = col_of(letters)?;
    let row = read_count(digits)? - 1;
    Some(Spot {
        row,
        col,
        abs_row,
        abs_col,
    })
}

/// The range of two cells parted by a colon, or of one cell, which is both corners. `None` for any other
/// text. Rows and columns are put in order each by themselves, and each keeps its `$`; of two equal ones
/// the first typed is the top or the left.
pub fn read_range(text: &[u8]) -> Option<Span>
    ensures value { result ≡ range_of text.now }
    ensures within { IfSome result (λ span. (span.bottom < 9999999) × (span.right < 18278)) }
    ensures ordered { IfSome result (λ span. (span.top ≤ span.bottom) × (span.left ≤ span.right)) }
{
    match colon_in(text) {
        None => {
            let cell = read_cell(text);
            between(cell, cell)
        }
        Some(colon) => between(read_cell(&text[..colon]), read_cell(&text[colon + 1..])),
    }
}

/// Where the first colon stands.
fn colon_in(text: &[u8]) -> Option<usize>
    ensures place { result ≡ position is_colon text.now }
    ensures within { IfSome result (λ colon. colon < length text.now) }
{
    text.iter().position(|b| *b == b':')
}

/// The range of two corners, where both are there.
fn between(a: Option<Spot>, b: Option<Spot>) -> Option<Span>
    ensures { result ≡ span_of_corners a b }
{
    Some(span_between(a?, b?))
}

/// The range of two corners. Rows and columns are put in order each by themselves, and each keeps its
/// `$`; of two equal ones the first corner's is the top or the left.
pub fn span_between(a: Spot, b: Spot) -> Span
    ensures { result ≡ range_between a b }
{
    let (top, bottom) = if a.row <= b.row { (a, b) } else { (b, a) };
    let (left, right) = if a.col <= b.col { (a, b) } else { (b, a) };
    Span {
        top: top.row,
        left: left.col,
        bottom: bottom.row,
        right: right.col,
        abs_top: top.abs_row,
        abs_left: left.abs_col,
        abs_bottom: bottom.abs_row,
        abs_right: right.abs_col,
    }
}

/// Whether a `$` stands at the front, and what stands behind it.
fn split_dollar(text: &[u8]) -> (bool, &[u8])
    ensures mark { result.0 ≡ has_dollar text.now }
    ensures rest { result.1.now ≡ past_dollar text.now }
{
    match text {
        [b'$', rest @ ..] => (true, rest),
        _ => (false, text),
    }
}

/// The letters at the front, and what stands behind them.
fn split_letters(text: &[u8]) -> (&[u8], &[u8])
    ensures letters { result.0.now ≡ take_while is_ascii_alphabetic text.now }
    ensures rest { result.1.now ≡ past_letters text.now }
{
    text.split_at(letter_count(text))
}

/// How many letters stand at the front.
fn letter_count(text: &[u8]) -> usize
    ensures count { result ≡ prefix_len is_ascii_alphabetic text.now }
    ensures within { result ≤ length text.now }
{
    for (i, letter) in text.iter().enumerate() {
        if !letter.is_ascii_alphabetic() {
            return i;
        }
    }
    text.len()
}
