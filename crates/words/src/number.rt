ghost use Rattle.std.specs.Prelude.{◌≡◌};
ghost use Rattle.std.specs.Char.{is_ascii_digit};
ghost use Rattle.std.specs.List.{list_all};
ghost use Rattle.words.specs.Calls.{is_short_numeral, number_of_word};

/// The number of 1 to 20 digits, where it fits 64 bits, and `None` for any other text.
pub(crate) fn number_of_word(text: &str) -> Option<u64>
    ensures { result ≡ number_of_word text.now }
{
    if is_short_numeral(text) {
        text.parse().ok()
    } else {
        None
    }
}

fn is_short_numeral(text: &str) -> bool
    ensures { result ≡ is_short_numeral text.now }
{
    all_digits(text.as_bytes()) && !text.is_empty() && text.len() <= 20
}

fn all_digits(text: &[u8]) -> bool
    ensures { result ≡ list_all is_ascii_digit text.now }
{
    text.iter().all(|b| b.is_ascii_digit())
}
