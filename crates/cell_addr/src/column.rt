ghost use Rattle.std.specs.Prelude.{◌≡◌, ◌<◌, if◌then◌else◌, IfSome, length, take, drop};
ghost use Rattle.std.specs.Char.{is_ascii_alphabetic};
ghost use Rattle.std.specs.Str.{str_to_ascii_uppercase};
ghost use Rattle.cell_addr.specs.Columns.{alphabet_place, col_named, letter_at, letters};

/// Writes a column's letters, in upper case, at the front of `out` and answers how many they are. The
/// column is counted from 0.
pub fn letters_of(col: u32, out: &mut [u8; 4]) -> usize
    requires { col < 18278 }
    ensures text { take result out.new ≡ letters col }
    ensures count { result ≡ length (letters col) }
    ensures rest { drop result out.new ≡ drop result out.old }

    // `col_of` reads back what was written
    ensures back { col_named (take result out.new) ≡ Some col }
{
    if col < 26 {
        out[0] = letter(col);
        1
    } else if col < 702 {
        let place = col - 26;
        out[0] = letter(place / 26);
        out[1] = letter(place % 26);
        2
    } else {
        let place = col - 702;
        out[0] = letter(place / 676);
        out[1] = letter(place / 26 % 26);
        out[2] = letter(place % 26);
        3
    }
}

/// The column, counted from 0, that 1 to 3 letters in either case name, and `None` for any other text.
pub fn col_of(text: &[u8]) -> Option<u32>
    ensures value { result ≡ col_named text.now }
    ensures within { IfSome result (λ col. col < 18278) }

    // `letters_of` writes the text again, in upper case
    ensures back { IfSome result (λ col. letters col ≡ str_to_ascii_uppercase text.now) }
{
    match text {
        [a] => place_of(*a),
        [a, b] => Some(26 + place_of(*a)? * 26 + place_of(*b)?),
        [a, b, c] => Some(702 + place_of(*a)? * 676 + place_of(*b)? * 26 + place_of(*c)?),
        _ => None,
    }
}

/// The place of a letter in the alphabet, counted from 0.
fn place_of(letter: u8) -> Option<u32>
    ensures value { result ≡ (if is_ascii_alphabetic letter then Some (alphabet_place letter) else None) }
    ensures within { IfSome result (λ place. place < 26) }
{
    if letter.is_ascii_alphabetic() {
        Some(u32::from(letter.to_ascii_uppercase() - b'A'))
    } else {
        None
    }
}

/// The upper-case letter at this place of the alphabet.
fn letter(place: u32) -> u8
    requires { place < 26 }
    ensures { result ≡ letter_at place }
{
    b'A' + place as u8
}
