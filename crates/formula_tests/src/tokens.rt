ghost use Rattle.std.specs.Prelude.{◌<◌, ◌^◌, length};

use formula_read::{ParseErr, TokenKind, tokens};
use std::alloc::Global;
use std::test::Fail;

/// The kinds of the tokens, or where the text stops being a front of tokens.
fn read(alloc: Global, text: &[u8]) -> Result<Vec<TokenKind>, ParseErr>
    requires { length text.now < 2 ^ 32 }
{
    let mut kinds = Vec::new(alloc);
    for token in tokens(alloc, text)?.as_slice() {
        kinds.push(token.kind).map_err(|_| ParseErr::Memory)?;
    }
    Ok(kinds)
}

#[test]
fn reads_the_longest_tokens(rt: HostRuntime) -> Result<(), Fail> {
    let alloc = rt.alloc();
    let kinds = read(alloc, b"=LOG10(A1) & \"a\"\"b\"")?;
    assert!(rt;
        kinds.as_slice()
            == [
                TokenKind::Sign,
                TokenKind::Name,
                TokenKind::Open,
                TokenKind::Cell,
                TokenKind::Close,
                TokenKind::Sign,
                TokenKind::Text
            ]
            .as_slice()
    );
    let kinds = read(alloc, b"XFD1:A1;$A$1:b$2<>A12345678")?;
    assert!(rt;
        kinds.as_slice()
            == [
                TokenKind::Range,
                TokenKind::Semi,
                TokenKind::Range,
                TokenKind::Sign,
                TokenKind::Cell,
                TokenKind::Numeral
            ]
            .as_slice()
    );
    let kinds = read(alloc, b"9223372036854775807 9223372036854775808")?;
    assert!(rt;
        kinds.as_slice() == [TokenKind::Numeral, TokenKind::Numeral, TokenKind::Numeral].as_slice()
    );
    Ok(())
}

#[test]
fn says_where_a_text_stops(rt: HostRuntime) -> Result<(), Fail> {
    let alloc = rt.alloc();
    assert!(rt; matches!(read(alloc, b"=SUM (1)"), Err(ParseErr::At(4))));
    assert!(rt; matches!(read(alloc, b"=A1.5"), Err(ParseErr::At(5))));
    assert!(rt; matches!(read(alloc, b"=A1:"), Err(ParseErr::At(4))));
    assert!(rt; matches!(read(alloc, b"#N/"), Err(ParseErr::At(3))));
    assert!(rt; matches!(read(alloc, b"#NX"), Err(ParseErr::At(2))));
    assert!(rt; matches!(read(alloc, b" 1"), Err(ParseErr::At(0))));
    Ok(())
}
