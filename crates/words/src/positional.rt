ghost use Rattle.std.specs.Prelude.{◌≡◌, ◌<◌, None, true, length, map, IfOk, IfSome, IfNone, IsErrOf, option_map};
ghost use Rattle.std.specs.List.{list_all};
ghost use Rattle.clap.specs.Words.{app_of};
ghost use Rattle.words.specs.Calls.{call_in};
ghost use Rattle.words.specs.Positionals.{is_no_option, IsForeign, AreGiven, command_line};

use crate::WordsErr;
use clap::error::ErrorKind;
use clap::{Arg, Command};
use ss_base::Txt;
use std::alloc::{AllocError, Global};
use std::str;

/// The words as texts. `Usage` comes where one of them begins with `-` or isn't UTF-8.
pub(crate) fn plain_texts<'a>(alloc: Global, words: &'a [Txt]) -> Result<Vec<&'a str>, WordsErr>
    ensures texts { IfOk result (λ v. map (λ s. s.now) v.items ≡ words.now) }
    ensures plain { IfOk result (λ v. list_all is_no_option words.now ≡ true) }
    ensures usage { IsErrOf result WordsErr.Usage → call_in words.now ≡ None }
{
    let mut texts = Vec::new(alloc);
    for word in words {
        let Some(text) = plain_text(word) else {
            return Err(WordsErr::Usage);
        };
        if texts.push(text).is_err() {
            return Err(WordsErr::Memory);
        }
    }
    Ok(texts)
}

/// A word as a text, unless it begins with `-` or isn't UTF-8. No call has a word that does or isn't.
fn plain_text(word: &Txt) -> Option<&str>
    ensures text { IfSome result (λ s. s.now ≡ word.now) }
    ensures plain { IfSome result (λ s. is_no_option word.now ≡ true) }
    ensures foreign { IfNone result (IsForeign word.now) }
{
    if !is_no_option(word) {
        return None;
    }
    str::from_utf8(word.bytes()).ok()
}

fn is_no_option(word: &Txt) -> bool
    ensures { result ≡ is_no_option word.now }
{
    !matches!(word.bytes(), [b'-', ..])
}

/// The words by their places. `Usage` comes where there are more than two.
pub(crate) fn positionals<'a>(
    alloc: Global,
    words: &'a [&'a str],
) -> Result<(Option<&'a str>, Option<&'a str>), WordsErr>
    requires { list_all is_no_option (map (λ s. s.now) words.now) ≡ true }
    ensures given { IfOk result (λ r. AreGiven (map (λ s. s.now) words.entry.now) (option_map (λ s. s.now) r.0) (option_map (λ s. s.now) r.1)) }
    ensures usage { IsErrOf result WordsErr.Usage → 2 < length words.entry.now }
{
    let command = match command_line(alloc) {
        Ok(command) => command,
        Err(_) => return Err(WordsErr::Memory),
    };
    match command.try_get_matches_from(words) {
        Ok(matches) => Ok((matches.get_str("name"), matches.get_str("number"))),
        Err(error) if error.kind() == ErrorKind::OutOfMemory => Err(WordsErr::Memory),
        Err(_) => Err(WordsErr::Usage),
    }
}

/// The command line: two words by their places, which may be missing, and no option.
fn command_line<'a>(alloc: Global) -> Result<Command<'a>, AllocError>
    ensures { IfOk result (λ c. app_of c ≡ command_line) }
{
    let name = Arg::new(alloc, "name");
    let number = Arg::new(alloc, "number");
    Command::new(alloc, "sheetshare")
        .no_binary_name(true)
        .disable_help_flag(true)
        .arg(name)?
        .arg(number)
}
