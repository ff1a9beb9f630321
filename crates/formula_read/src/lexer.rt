ghost use Rattle.std.specs.Prelude.{◌≡◌, ◌≢◌, ◌+◌, ◌<◌, ◌≤◌, ◌^◌, ℕ, List, Some, Err, length, map, IfOk, IfSome};
ghost use Rattle.formula_tree.specs.Lexing.{Lexeme, Lexes, space_count};
ghost use Rattle.formula_read.specs.Longest.{longest, fronts, later};
ghost use Rattle.formula_read.specs.Read.{placed_token, IsLexed, IsLongestFront};

use crate::kinds::{ParseErr, Token, TokenKind};
use crate::partial::Partial;
use ss_base::Seq;
use std::alloc::Global;

/// The tokens of a text, in order: each is the longest that fits where it stands, and any number of
/// spaces may stand behind it. `At(p)` comes exactly where no list of tokens stands for the text, p
/// being the length of its longest front that some text of tokens has, too. Beside it only want of
/// memory is refused.
pub fn tokens(alloc: Global, text: &[u8]) -> Result<Seq<Token>, ParseErr>
    requires { length text.now < 2 ^ 32 }
    ensures tokens { IfOk result (λ ts. (ls : List Lexeme) × Lexes 0 text.now ls × (ts ≡ map placed_token ls)) }
    ensures outside { (p : ℕ) → result ≡ Err (ParseErr.At p) → ¬ (IsLexed text.now) }
    ensures place { (p : ℕ) → result ≡ Err (ParseErr.At p) → IsLongestFront text.now p }
    ensures shallow { result ≢ Err ParseErr.Deep }
{
    let mut tokens = Seq::new(alloc);
    let mut at = 0usize;
    let mut far = 0usize;
    while at < text.len() {
        let (_, rest) = text.split_at(at);
        let scanned = scan(rest);
        far = far.max(at + scanned.reach);
        let Some((length, kind)) = scanned.found else {
            return Err(ParseErr::At(far as u32));
        };
        let (_, behind) = rest.split_at(length);
        let token = Token {
            from: at as u32,
            to: (at + length) as u32,
            kind,
        };
        tokens.push(token)?;
        at = at + length + spaces(behind);
    }
    Ok(tokens)
}

/// How many spaces stand at the front.
fn spaces(text: &[u8]) -> usize
    ensures count { result ≡ space_count text.now }
    ensures within { result ≤ length text.now }
{
    for (i, b) in text.iter().enumerate() {
        if *b != b' ' {
            return i;
        }
    }
    text.len()
}

/// The longest token at the front of a text, and how many bytes some token begins with.
#[derive(Clone, Copy)]
struct Scanned {
    found: Option<(usize, TokenKind)>,
    reach: usize,
}

fn scan(text: &[u8]) -> Scanned
    ensures found { result.found ≡ longest (Some Partial.Fresh) text.now }
    ensures some { IfSome result.found (λ f. (0 < f.0) × (f.0 ≤ length text.now)) }
    ensures reach { result.reach + 1 ≡ fronts (Some Partial.Fresh) text.now }
    ensures within { result.reach ≤ length text.now }
{
    let mut state = Partial::Fresh;
    let mut found = None;
    for (i, b) in text.iter().enumerate() {
        found = latest(found, i, state.kind_at(Some(*b)));
        match state.step(*b) {
            Some(next) => state = next,
            None => return Scanned { found, reach: i },
        }
    }
    Scanned {
        found: latest(found, text.len(), state.kind_at(None)),
        reach: text.len(),
    }
}

/// The token that ends at `at` if there is one, and else the one found before.
fn latest(
    found: Option<(usize, TokenKind)>,
    at: usize,
    kind: Option<TokenKind>,
) -> Option<(usize, TokenKind)>
    ensures { result ≡ later found at kind }
{
    match kind {
        Some(kind) => Some((at, kind)),
        None => found,
    }
}
