ghost use Rattle.std.specs.Prelude.{◌≡◌, ◌^◌, ◌<◌, ◌↔◌, ℕ, [], Ok, Some, None, length, IfOk, IsTrue};
ghost use Rattle.formula_read.specs.Partial.{kind_at};
ghost use Rattle.formula_read.specs.Places.{has};
ghost use Rattle.formula_tree.specs.Grammar.{IsFormulaText};
ghost use Rattle.formula_read.specs.Readings.{IsLongestFormulaFront};
ghost use Rattle.formula_read.specs.Reading.{place_after, place_at_end, read_byte};

use crate::cursor::Cursor;
use crate::partial::Partial;
use ss_base::Memory;
use std::alloc::Global;

/// Where a text is refused, and `None` exactly where it is a formula's: the length of its longest front
/// that some formula's text has, too. It reads each byte once, and keeps a byte for each open bracket.
pub(crate) fn refusal(alloc: Global, text: &[u8]) -> Result<Option<u32>, Memory>
    requires { length text.now < 2 ^ 32 }
    ensures formula { result ≡ Ok None → IsFormulaText text.now }
    ensures outside { (p : ℕ) → result ≡ Ok (Some p) → ¬ (IsFormulaText text.now) }
    ensures place { (p : ℕ) → result ≡ Ok (Some p) → IsLongestFormulaFront text.now p }
{
    let mut place = Cursor::new(alloc);
    let mut token = Partial::Fresh;
    for (i, b) in text.iter().enumerate() {
        match read_byte(place, token, *b)? {
            Some((next, begun)) => {
                place = next;
                token = begun;
            }
            None => return Ok(Some(i as u32)),
        }
    }
    if may_end(place, token) {
        Ok(None)
    } else {
        Ok(Some(text.len() as u32))
    }
}

/// One more byte: it goes on with the token at hand, or stands behind it.
fn read_byte(place: Cursor, token: Partial, b: u8) -> Result<Option<(Cursor, Partial)>, Memory>
    ensures { IfOk result (λ r. r ≡ read_byte place token b) }
{
    if let Partial::Fresh = token {
        return place.read_between(b);
    }
    if let Some(token) = token.step(b) {
        return Ok(Some((place, token)));
    }
    match place_after(place, token, Some(b)) {
        Some(place) => place.read_between(b),
        None => Ok(None),
    }
}

/// Whether a formula may end here.
fn may_end(place: Cursor, token: Partial) -> bool
    ensures { IsTrue result ↔ (place_at_end place token ≡ Some (has [])) }
{
    if let Partial::Fresh = token {
        return place.is_end();
    }
    match place_after(place, token, None) {
        Some(place) => place.is_end(),
        None => false,
    }
}

/// The place behind the token at hand, where this byte comes next, or `None` where the token isn't whole.
fn place_after(place: Cursor, token: Partial, next: Option<u8>) -> Option<Cursor>
    ensures { result ≡ place_after place (kind_at token next) }
{
    let kind = token.kind_at(next)?;
    Some(place.behind(kind))
}

#[cfg(test)]
mod tests {
    use super::*;
    use std::test::Fail;

    #[test]
    fn says_where_signs_and_numerals_stop(rt: HostRuntime) -> Result<(), Fail> {
        let answers: [(&[u8], Option<u32>); 9] = [
            (b"", Some(0)),
            (b" =1", Some(0)),
            (b"=", Some(1)),
            (b"==1", Some(1)),
            (b"=1", None),
            (b"=1+", Some(3)),
            (b"=1< >2", Some(4)),
            (b"=1\n", Some(2)),
            (b"=99999999999999999999", Some(19)),
        ];
        for (text, answer) in answers {
            assert!(rt; text.len() < 100);
            assert_eq!(rt; refusal(rt.alloc(), text)?, answer);
        }
        Ok(())
    }

    #[test]
    fn says_where_addresses_stop(rt: HostRuntime) -> Result<(), Fail> {
        let answers: [(&[u8], Option<u32>); 13] = [
            (b"=A1B", Some(4)),
            (b"=$A1B", Some(4)),
            (b"=A12345678", Some(10)),
            (b"=A12345678+1", Some(10)),
            (b"=$A12345678", Some(10)),
            (b"=A$0", Some(3)),
            (b"=A1.5", Some(5)),
            (b"=A1:B12345678", Some(12)),
            (b"=A1:B2(", Some(6)),
            (b"=A1:B(", Some(5)),
            (b"=A1: B2", Some(4)),
            (b"= A1 : B2", Some(5)),
            (b"= SUM( XFD1:A1 ; - 1 ) <> $A$1:b$2 ", None),
        ];
        for (text, answer) in answers {
            assert!(rt; text.len() < 100);
            assert_eq!(rt; refusal(rt.alloc(), text)?, answer);
        }
        Ok(())
    }

    #[test]
    fn says_where_calls_and_brackets_stop(rt: HostRuntime) -> Result<(), Fail> {
        let answers: [(&[u8], Option<u32>); 11] = [
            (b"=SUM (1)", Some(4)),
            (b"=IF((C2<D6);)", Some(12)),
            (b"=IF ((C2<D6);)", Some(3)),
            (b"=A1()", None),
            (b"=LOG10(1)", None),
            (b"=SUM(;)", Some(5)),
            (b"=(1;2)", Some(3)),
            (b"=1)", Some(2)),
            (b"=(1", Some(3)),
            (b"=abcdefghijklmnopqrstuvwxyzabcdef()", None),
            (b"=abcdefghijklmnopqrstuvwxyzabcdefg()", Some(33)),
        ];
        for (text, answer) in answers {
            assert!(rt; text.len() < 100);
            assert_eq!(rt; refusal(rt.alloc(), text)?, answer);
        }
        Ok(())
    }

    #[test]
    fn says_where_errors_and_texts_stop(rt: HostRuntime) -> Result<(), Fail> {
        let answers: [(&[u8], Option<u32>); 8] = [
            (b"=#", Some(2)),
            (b"=#N", Some(3)),
            (b"=#N/", Some(4)),
            (b"=#N/A", None),
            (b"=#NX", Some(3)),
            (b"=#n", Some(2)),
            (b"=\"\"\"\"", None),
            (b"=\"a\"\"", Some(5)),
        ];
        for (text, answer) in answers {
            assert!(rt; text.len() < 100);
            assert_eq!(rt; refusal(rt.alloc(), text)?, answer);
        }
        Ok(())
    }

    #[test]
    fn reads_4000_brackets(rt: HostRuntime) -> Result<(), Fail> {
        let mut text = vec![in rt.alloc(); b'('; 4001]?;
        text[0] = b'=';
        assert_eq!(rt; refusal(rt.alloc(), &text)?, Some(4001));
        Ok(())
    }
}
