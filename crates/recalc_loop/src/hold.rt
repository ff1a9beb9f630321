ghost use Rattle.std.specs.Prelude.{◌≡◌, ◌≤◌, ◌+◌, ℕ, length, drop, IfOk};
ghost use Rattle.ss_base.specs.declared.types.Size.{Size};
ghost use Rattle.ss_base.specs.Lists.{IsPrefixOf};
ghost use Rattle.sheet_ops.specs.History.{IsValidHistory};
ghost use Rattle.turn_book.specs.Passes.{IsSamePass, items_in};
ghost use Rattle.hub.specs.Hubs.{opening_of};
ghost use Rattle.hub.specs.Messages.{effects_of};

use hub::Hub;
use sheet_ops::Effect;
use ss_base::{Memory, Seq};
use std::sync::Wait;
use turn_book::{Book, Pass};

/// What one hold of the book found: how many sites have ended, and the effects of the entries behind
/// so many.
pub(crate) struct Found {
    pub(crate) pass: Pass<Hub>,
    pub(crate) ended: u8,
    pub(crate) effects: Result<Seq<Effect>, Memory>,
}

/// Takes what is new in the history, by one hold of the book, which makes no entry.
pub(crate) fn take_new<R: Wait>(rt: &R, book: &Book<Hub>, pass: Pass<Hub>, from: u32) -> Found
    requires book { pass.book ≡ book.now.id }
    requires from { from ≤ length pass.seen }
    ensures same { IsSamePass pass result.pass }
    ensures seen { IsPrefixOf (items_in pass.seen) (items_in result.pass.seen) }
    ensures holds { result.pass.holds ≡ pass.holds + 1 }
    ensures valid { (size : Size) (sites : ℕ) → pass.opening ≡ opening_of size sites → IsValidHistory size sites (items_in result.pass.seen) }
    ensures effects { (size : Size) (sites : ℕ) → pass.opening ≡ opening_of size sites → IfOk result.effects (λ es. es ≡ drop from (effects_of size (items_in result.pass.seen))) }
{
    let mut held = book.enter(rt, pass);
    let hub = held.state();
    // It is lent for what its contract says: the history is valid.
    let _history = hub.history();
    let ended = hub.ended();
    let effects = hub.batch(from);
    let pass = held.leave();
    Found {
        pass,
        ended,
        effects,
    }
}
