ghost use Rattle.std.specs.Prelude.{◌≡◌, ◌≤◌, length, slice_index, IfSome, IsTrue};
ghost use Rattle.std.specs.Char.{is_ascii_digit};
ghost use Rattle.std.specs.Int.{is_in_range};
ghost use Rattle.std.specs.List.{list_all};
ghost use Rattle.std.specs.Str.Parse.{digits_value};
ghost use Rattle.cell_addr.specs.Rows.{counted, is_count};

/// The number of 1 to 7 digits, the first of which isn't 0, and `None` for any other text.
pub fn read_count(text: &[u8]) -> Option<u32>
    ensures value { result ≡ counted text.now }
    ensures within { IfSome result (λ n. (1 ≤ n) × (n ≤ 9999999)) }
{
    if is_count(text) {
        Some(value_of(text))
    } else {
        None
    }
}

fn is_count(text: &[u8]) -> bool
    ensures { result ≡ is_count text.now }
{
    leads_count(text) && all_digits(text) && text.len() <= 7
}

/// Whether a digit other than 0 stands first.
fn leads_count(text: &[u8]) -> bool
    ensures { result ≡ is_in_range 49 57 (slice_index text.now 0) }
{
    matches!(text, [b'1'..=b'9', ..])
}

fn all_digits(text: &[u8]) -> bool
    ensures { result ≡ list_all is_ascii_digit text.now }
{
    text.iter().all(|b| b.is_ascii_digit())
}

/// The value of at most 9 digits.
fn value_of(digits: &[u8]) -> u32
    requires digits { IsTrue (list_all is_ascii_digit digits.now) }
    requires few { length digits.now ≤ 9 }
    ensures { result ≡ digits_value 10 digits.now }
{
    let mut value = 0;
    for digit in digits {
        value = value * 10 + u32::from(*digit - b'0');
    }
    value
}
