ghost use Rattle.std.specs.Prelude.{◌≡◌, ◌↔◌, [], Some, IfOk, IsTrue};
ghost use Rattle.formula_read.specs.Places.{head, has, operand, after};
ghost use Rattle.formula_read.specs.Reading.{behind_token, read_first, skips, read_between};

use crate::brackets::{Bracket, Brackets};
use crate::class::{SignClass, TokenClass};
use crate::kinds::TokenKind;
use crate::partial::Partial;
use ss_base::Memory;
use std::alloc::Global;
use std::marker::Model;

/// What is wanted at a place.
#[derive(Clone, Copy, Debug, PartialEq, Eq)]
pub enum Stage {
    /// The `=` at the front.
    Head,
    /// An operand.
    Wants,
    /// What may stand behind an operand.
    Has,
    /// The bracket behind a function's name.
    Named,
    /// A call's first argument, or its end.
    Begins,
}

/// Where a reader of a formula's tokens stands, and the brackets that are open there.
#[derive(Debug, Drop)]
pub struct Cursor {
    stage: Stage,
    brackets: Brackets,
}

impl Model for Cursor {
    ghost use Rattle.std.specs.Prelude.{IsTrue};
    ghost use Rattle.formula_read.specs.Places as places;
    ghost use Rattle.formula_read.specs.Standing.{place_at_stage, is_sound};

    ghost Value = { places.Place };

    ghost view = { λ p. place_at_stage p.stage p.brackets };

    ghost invariant = { λ p. IsTrue (is_sound p.stage p.brackets) };
}

impl Cursor {
    /// Before the `=`. It takes no memory.
    pub fn new(alloc: Global) -> Cursor
        ensures { result ≡ head }
    {
        Cursor {
            stage: Stage::Head,
            brackets: Brackets::new(alloc),
        }
    }

    /// The place behind a token of this class, or `None` where no such token may stand.
    fn after(self, class: TokenClass) -> Result<Option<Cursor>, Memory>
        ensures { IfOk result (λ p. p ≡ after self class) }
    {
        let Cursor {
            stage,
            mut brackets,
        } = self;
        match (stage, class) {
            (Stage::Head, TokenClass::Sign(SignClass::Equals)) => Ok(Some(Cursor {
                stage: Stage::Wants,
                brackets,
            })),
            (Stage::Named, TokenClass::Open) => Ok(Some(Cursor {
                stage: Stage::Begins,
                brackets,
            })),
            (Stage::Begins, TokenClass::Close) => Ok(Some(Cursor {
                stage: Stage::Has,
                brackets,
            })),
            (Stage::Head | Stage::Named, _) => Ok(None),
            (Stage::Wants, _) => after_operand(brackets, class),
            (Stage::Has, _) => Ok(behind_operand(brackets, class)),
            (Stage::Begins, _) => {
                brackets.push(Bracket::Call)?;
                after_operand(brackets, class)
            }
        }
    }

    /// A byte between two tokens: a space, or the first one of a token that may stand here. Then it
    /// gives the place behind that token, where a name is taken for a leaf.
    pub fn read_between(self, b: u8) -> Result<Option<(Cursor, Partial)>, Memory>
        ensures { IfOk result (λ r. r ≡ read_between self b) }
    {
        if self.skips(b) {
            Ok(Some((self, Partial::Fresh)))
        } else {
            self.read_first(b)
        }
    }

    /// Whether the byte is a space that may stand here, between two tokens.
    fn skips(&self, b: u8) -> bool
        ensures { result ≡ skips self.now b }
    {
        match self.stage {
            Stage::Head => false,
            _ => b == b' ',
        }
    }

    /// The first byte of a token.
    fn read_first(self, b: u8) -> Result<Option<(Cursor, Partial)>, Memory>
        ensures { IfOk result (λ r. r ≡ read_first self b) }
    {
        let Some(class) = TokenClass::begun(b) else {
            return Ok(None);
        };
        let Some(place) = self.after(class)? else {
            return Ok(None);
        };
        match Partial::Fresh.step(b) {
            Some(token) => Ok(Some((place, token))),
            None => Ok(None),
        }
    }

    /// The place behind the token that led here, once its kind is known: a name was taken for a leaf.
    pub fn behind(self, kind: TokenKind) -> Cursor
        ensures { result ≡ behind_token kind self }
    {
        match (kind, self.stage) {
            (TokenKind::Name, Stage::Has) => Cursor {
                stage: Stage::Named,
                brackets: self.brackets,
            },
            _ => self,
        }
    }

    /// Whether a formula may end here.
    pub fn is_end(&self) -> bool
        ensures { IsTrue result ↔ (self.now ≡ has []) }
    {
        self.stage == Stage::Has && self.brackets.is_empty()
    }
}

/// The place behind a token of this class, where an operand is wanted.
fn after_operand(mut brackets: Brackets, class: TokenClass) -> Result<Option<Cursor>, Memory>
    ensures { IfOk result (λ p. p ≡ operand brackets class) }
{
    let stage = match class {
        TokenClass::Leaf => Stage::Has,
        TokenClass::Name => Stage::Named,
        TokenClass::Sign(SignClass::Prefix) => Stage::Wants,
        TokenClass::Open => {
            brackets.push(Bracket::Group)?;
            Stage::Wants
        }
        _ => return Ok(None),
    };
    Ok(Some(Cursor { stage, brackets }))
}

/// The place behind a token of this class, where an operand is there.
fn behind_operand(mut brackets: Brackets, class: TokenClass) -> Option<Cursor>
    ensures { result ≡ after (has brackets) class }
{
    match class {
        TokenClass::Sign(_) => Some(Cursor {
            stage: Stage::Wants,
            brackets,
        }),
        TokenClass::Close => {
            brackets.pop()?;
            Some(Cursor {
                stage: Stage::Has,
                brackets,
            })
        }
        TokenClass::Semi if brackets.is_in_call() => Some(Cursor {
            stage: Stage::Wants,
            brackets,
        }),
        _ => None,
    }
}
