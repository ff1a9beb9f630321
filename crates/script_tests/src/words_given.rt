use ss_base::Txt;
use std::test::Fail;
use words::{Call, WordsErr, read_words};

#[test]
fn reads_calls(rt: HostRuntime) -> Result<(), Fail> {
    let table = [
        ([].as_slice(), Ok(Call::Script)),
        (&["load", "7"], Ok(Call::Load(7))),
        (&["load", "00000000000000000007"], Ok(Call::Load(7))),
        (&["load", "18446744073709551615"], Ok(Call::Load(u64::MAX))),
        (&["load", "18446744073709551616"], Err(WordsErr::Usage)),
        (&["load", "000000000000000000007"], Err(WordsErr::Usage)),
        (&["load", "+7"], Err(WordsErr::Usage)),
        (&["load", ""], Err(WordsErr::Usage)),
        (&["load"], Err(WordsErr::Usage)),
        (&["load", "7", "8"], Err(WordsErr::Usage)),
        (&["run"], Err(WordsErr::Usage)),
        (&["--help"], Err(WordsErr::Usage)),
        (&["-h"], Err(WordsErr::Usage)),
        (&["--", "load", "7"], Err(WordsErr::Usage)),
    ];
    for (texts, call) in table {
        let mut words = Vec::new(rt.alloc());
        for text in texts {
            words.push(Txt::new(rt.alloc(), text.as_bytes())?)?;
        }
        assert_eq!(rt; read_words(rt.alloc(), words.as_slice()), call);
    }
    Ok(())
}
