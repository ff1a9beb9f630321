ghost use Rattle.std.specs.Prelude.{◌≡◌};

use ss_base::Txt;
use std::marker::Model;

/// A text that is lent, or one that was made of a number.
#[derive(Debug, Drop)]
pub(crate) enum Kept<'a> {
    Lent(&'a Txt),
    Made(Txt),
}

/// An argument as a text, which isn't copied to be measured, compared or cut.
#[derive(Debug, Drop)]
pub(crate) struct TextRef<'a> {
    kept: Kept<'a>,
}

impl<'a> Model for TextRef<'a> {
    ghost use Rattle.std.specs.Prelude.{List, ℕ};
    ghost use Rattle.funcs.specs.Kept.{kept_bytes};

    ghost Value = { List ℕ };

    ghost view = { λ t. kept_bytes t.kept };
}

impl<'a> TextRef<'a> {
    pub(crate) fn lent(text: &'a Txt) -> TextRef<'a>
        ensures { result ≡ text.now }
    {
        TextRef {
            kept: Kept::Lent(text),
        }
    }

    pub(crate) fn made(text: Txt) -> TextRef<'a>
        ensures { result ≡ text }
    {
        TextRef {
            kept: Kept::Made(text),
        }
    }

    pub(crate) fn bytes(&self) -> &[u8]
        ensures { result.now ≡ self.now }
    {
        match &self.kept {
            Kept::Lent(text) => text.bytes(),
            Kept::Made(text) => text.bytes(),
        }
    }
}
