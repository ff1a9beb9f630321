ghost use Rattle.std.specs.Prelude.{◌≡◌, ◌≤◌, ◌<◌, ◌^◌, true, false, IfSome, IsTrue, option_copied, is_some, length, position};
ghost use Rattle.std.specs.Option.{SomeIff};
ghost use Rattle.std.specs.Char.{is_ascii_digit};
ghost use Rattle.std.specs.List.{list_all};
ghost use Rattle.std.specs.Str.{bytes_eq};
ghost use Rattle.std.specs.Str.Parse.{digits_value};
ghost use Rattle.cell_addr.specs.Cells.{is_colon};
ghost use Rattle.script_read.specs.Forms.{CutsWord};
ghost use Rattle.script_read.specs.Words.{is_site_name, is_site_name_byte, is_reserved, is_space, named};

/// Words that no site may have as its name.
const RESERVED: &[u8] = b"sheet site push pull recalc show values history wire end all server";

/// The first word of a text, and what stands behind the space that ends it, where there is one.
pub fn cut(text: &[u8]) -> (&[u8], Option<&[u8]>)
    ensures { CutsWord text.now result.0.now (option_copied result.1) }
{
    match space_in(text) {
        None => (text, None),
        Some(space) => (&text[..space], Some(&text[space + 1..])),
    }
}

/// Where the first space stands.
fn space_in(text: &[u8]) -> Option<usize>
    ensures place { result ≡ position is_space text.now }
    ensures within { IfSome result (λ space. space < length text.now) }
{
    text.iter().position(|b| *b == b' ')
}

/// Where the first colon stands.
pub fn colon_in(text: &[u8]) -> Option<usize>
    ensures place { result ≡ position is_colon text.now }
    ensures within { IfSome result (λ colon. colon < length text.now) }
{
    text.iter().position(|b| *b == b':')
}

pub fn is_word(text: &[u8], word: &[u8]) -> bool
    ensures { result ≡ bytes_eq text.now word.now }
{
    text == word
}

/// The text itself, where it may be the name of a site.
pub fn name_of(text: &[u8]) -> Option<&[u8]>
    ensures { option_copied result ≡ named text.now }
{
    if is_name(text) { Some(text) } else { None }
}

fn is_name(text: &[u8]) -> bool
    ensures { result ≡ is_site_name text.now }
{
    match text {
        [] => false,
        [first, others @ ..] => {
            first.is_ascii_lowercase()
                && are_name_bytes(others)
                && others.len() <= 15
                && !is_reserved(text)
        }
    }
}

fn are_name_bytes(text: &[u8]) -> bool
    ensures { result ≡ list_all is_site_name_byte text.now }
{
    text.iter()
        .all(|b| b.is_ascii_lowercase() || b.is_ascii_digit())
}

fn is_reserved(text: &[u8]) -> bool
    ensures { result ≡ is_reserved text.now }
{
    RESERVED
        .split(|b| *b == b' ')
        .any(|word| is_word(text, word))
}
