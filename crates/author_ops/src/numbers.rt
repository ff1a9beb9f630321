ghost use Rattle.std.specs.Prelude.{◌≡◌, ◌≤◌, ◌<◌, ◌+◌, ◌-◌, ◌*◌, ◌^◌, true, ◌∷◌, take, length, Some, None, IfOk, IfErr, IsTrue};
ghost use Rattle.std.specs.Option.{SomeIff};
ghost use Rattle.std.specs.Char.{is_ascii_digit};
ghost use Rattle.std.specs.List.{list_all};
ghost use Rattle.std.specs.Str.Parse.{digits_value};
ghost use Rattle.sheet_ops.specs.Numerals.{is_numeral, are_digits};
ghost use Rattle.author_ops.specs.Numbers.{entered_number, number_front, signed_number};

/// The number that an optional `-` and digits say, leading zeros too. Where it is outside the range of
/// `i64`, the length of its longest front with which a number in range begins.
pub fn read_number(text: &[u8]) -> Result<i64, u32>
    requires numeral { is_numeral text.now ≡ true }
    requires short { length text.now < 2 ^ 32 }
    ensures number { IfOk result (λ n. entered_number text.now ≡ Some n) }
    ensures outside { IfErr result (λ front. entered_number text.now ≡ None) }
    ensures front { IfErr result (λ front. front ≡ number_front text.now) }
{
    match text {
        [b'-', digits @ ..] => behind_minus(digits),
        _ => plain(text),
    }
}

/// The same of the digits behind a `-`.
fn behind_minus(digits: &[u8]) -> Result<i64, u32>
    requires digits { are_digits digits.now ≡ true }
    requires short { length digits.now + 1 < 2 ^ 32 }
    ensures number { IfOk result (λ n. entered_number (45 ∷ digits.now) ≡ Some n) }
    ensures outside { IfErr result (λ front. entered_number (45 ∷ digits.now) ≡ None) }
    ensures front { IfErr result (λ front. front ≡ number_front (45 ∷ digits.now)) }
{
    match value_up_to(digits, 1 << 63) {
        Ok(size) => Ok(minus(size)),
        Err(front) => Err(front + 1),
    }
}

/// The same of digits alone.
fn plain(digits: &[u8]) -> Result<i64, u32>
    requires digits { are_digits digits.now ≡ true }
    requires short { length digits.now < 2 ^ 32 }
    ensures number { IfOk result (λ n. entered_number digits.now ≡ Some n) }
    ensures outside { IfErr result (λ front. entered_number digits.now ≡ None) }
    ensures front { IfErr result (λ front. front ≡ number_front digits.now) }
{
    match value_up_to(digits, (1 << 63) - 1) {
        Ok(size) => Ok(size as i64),
        Err(front) => Err(front),
    }
}

/// A number below 0 by its size.
fn minus(size: u64) -> i64
    requires { size ≤ 2 ^ 63 }
    ensures { signed_number true size ≡ Some result }
{
    0i64.wrapping_sub_unsigned(size)
}

/// The number of these digits, where it is up to this limit, and else how many digits at the front
/// have a number up to it.
fn value_up_to(digits: &[u8], limit: u64) -> Result<u64, u32>
    requires digits { IsTrue (list_all is_ascii_digit digits.now) }
    requires short { length digits.now < 2 ^ 32 }
    requires limit { limit ≤ 2 ^ 63 }
    ensures value { IfOk result (λ v. v ≡ digits_value 10 digits.now) }
    ensures within { IfOk result (λ v. v ≤ limit) }
    ensures front { IfErr result (λ n. (n < length digits.now) × (digits_value 10 (take n digits.now) ≤ limit)) }
    ensures past { IfErr result (λ n. limit < digits_value 10 (take (n + 1) digits.now)) }
{
    let mut value = 0u64;
    for (i, digit) in digits.iter().enumerate() {
        match with_digit(value, *digit, limit) {
            Some(more) => value = more,
            None => return Err(i as u32),
        }
    }
    Ok(value)
}

/// A number with one more digit, where it is up to this limit.
fn with_digit(value: u64, digit: u8, limit: u64) -> Option<u64>
    requires digit { IsTrue (is_ascii_digit digit) }
    requires value { value ≤ limit }
    requires limit { limit ≤ 2 ^ 63 }
    ensures { SomeIff result (value * 10 + (digit - 48) ≤ limit) (value * 10 + (digit - 48)) }
{
    let digit = u64::from(digit - b'0');
    let room = limit.checked_sub(digit)?;
    if value > room / 10 {
        return None;
    }
    Some(value * 10 + digit)
}
