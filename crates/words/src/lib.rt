//! What the words on the command line ask for.
#![tactic(auto)]

mod number;
mod positional;

ghost use Rattle.std.specs.Prelude.{◌≡◌, ℕ, List, [], ◌∷◌, None, Some, IfOk, IsErrOf, option_map};
ghost use Rattle.words.specs.Calls.{call_in};
ghost use Rattle.words.specs.Positionals.{AreGiven};

use crate::number::number_of_word;
use crate::positional::{plain_texts, positionals};
use ss_base::Txt;
use std::alloc::Global;
use thiserror::Error;

/// What the words ask for.
#[derive(Clone, Copy, Debug, PartialEq, Eq)]
pub enum Call {
    /// The script on standard input: there are no words.
    Script,
    /// The generated run of this number: the words are `load` and the number.
    Load(u64),
}

/// Why no call was read.
#[derive(Clone, Copy, Debug, PartialEq, Eq, Error)]
pub enum WordsErr {
    /// The words ask for nothing.
    #[error("usage")]
    Usage,
    #[error("no memory")]
    Memory,
}

/// Reads the words behind the program's name. A number has 1 to 20 digits, of which the first may be
/// zeros, and fits 64 bits. Options are no words of a call: `Usage` is the answer to `--help`, `-h` and
/// `--` too.
pub fn read_words(alloc: Global, words: &[Txt]) -> Result<Call, WordsErr>
    ensures call { IfOk result (λ c. call_in words.now ≡ Some c) }
    ensures usage { IsErrOf result WordsErr.Usage → call_in words.now ≡ None }
{
    let texts = match plain_texts(alloc, words) {
        Ok(texts) => texts,
        Err(error) => return Err(error),
    };
    match positionals(alloc, texts.as_slice()) {
        Ok((name, number)) => call_of(name, number).ok_or(WordsErr::Usage),
        Err(error) => Err(error),
    }
}

/// The call of words by their places.
fn call_of(name: Option<&str>, number: Option<&str>) -> Option<Call>
    ensures { (words : List (List ℕ)) → AreGiven words (option_map (λ s. s.now) name.entry) (option_map (λ s. s.now) number.entry) → result ≡ call_in words }
{
    match (name, number) {
        (None, _) => Some(Call::Script),
        (Some(_), None) => None,
        (Some(name), Some(number)) => load(name, number),
    }
}

/// The call of two words.
fn load(name: &str, number: &str) -> Option<Call>
    ensures { result ≡ call_in (name.now ∷ number.now ∷ []) }
{
    if name == "load" {
        number_of_word(number).map(Call::Load)
    } else {
        None
    }
}
