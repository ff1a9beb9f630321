ghost use Rattle.std.specs.Prelude.{◌≡◌, [], ◌∷◌, ◌↔◌, IsTrue, is_some, OnOk, OnErr, MatchOption};
ghost use Rattle.formula_read.specs.Places.{behind_semicolon};

use ss_base::Memory;
use std::alloc::Global;
use std::marker::Model;

/// A bracket that is open.
#[derive(Clone, Copy, Debug, PartialEq, Eq)]
pub enum Bracket {
    /// It stands before an expression.
    Group,
    /// It stands before a call's arguments.
    Call,
}

/// The brackets that are open, which contracts see as their list, the innermost first.
#[derive(Debug, Drop)]
pub struct Brackets {
    outermost_first: Vec<Bracket>,
}

impl Model for Brackets {
    ghost use Rattle.std.specs.Prelude.{List, reverse};
    ghost use Rattle.formula_read.specs.declared.brackets.Bracket as bracket;

    ghost Value = { List bracket.Bracket };

    ghost view = { λ b. reverse b.outermost_first.items };
}

impl Brackets {
    /// No bracket. It takes no memory.
    pub fn new(alloc: Global) -> Brackets
        ensures { result ≡ [] }
    {
        Brackets {
            outermost_first: Vec::new(alloc),
        }
    }

    /// One more inside the others. A refused call leaves them.
    pub fn push(&mut self, bracket: Bracket) -> Result<(), Memory>
        ensures ok { OnOk result (self.new ≡ bracket ∷ self.old) }
        ensures err { OnErr result (self.new ≡ self.old) }
    {
        self.outermost_first.push(bracket)?;
        Ok(())
    }

    /// Takes the innermost one out, if there is one.
    pub fn pop(&mut self) -> Option<Bracket>
        ensures { MatchOption result ((self.old ≡ []) × (self.new ≡ []))
            (λ innermost. self.old ≡ innermost ∷ self.new) }
    {
        self.outermost_first.pop()
    }

    pub fn is_empty(&self) -> bool
        ensures { IsTrue result ↔ (self.now ≡ []) }
    {
        self.outermost_first.is_empty()
    }

    /// Whether the innermost one is a call's.
    pub fn is_in_call(&self) -> bool
        ensures { result ≡ is_some (behind_semicolon self.now) }
    {
        matches!(self.outermost_first.last(), Some(Bracket::Call))
    }
}
