//! The list of what was published, and what is known of it.
//!
//! The list is the log of a `logbook`, which only grows. Whoever has seen a beginning of it holds a
//! `Front`, so that of any two the shorter one begins the other.
ghost use Rattle.std.specs.Prelude.{◌≡◌, ◌<◌, ◌^◌, ◌++◌, ◌∷◌, [], length, false, IsTrue, IfSome, None};
ghost use Rattle.ss_base.specs.Lists.{IsPrefixOf};
ghost use Rattle.value_snap.specs.Lists.{IsOrdered, MayBePublished, upto_from};
ghost use Rattle.value_snap.specs.Log.{head_of};

use crate::published::Published;
use logbook::{Gain, Offer, Plain, Play, Rule, Seen, Start, Word};
use sheet_value::Batch;
use std::marker::Model;

/// The rule of the log: it is in order, and its word is its length.
pub struct Law;

impl Rule<Published, u64> for Law {
    ghost use Rattle.std.specs.Prelude.{[]};
    ghost use base.Fml.{ftrue};
    ghost use Rattle.value_snap.specs.Log.{IsListed};

    ghost holds = { λ cells list. IsListed cells list };

    ghost first = { [] };

    ghost hinted = { λ n list. Unit {0} };

    ghost shows = { λ list. [] };

    ghost keeps = { λ names list. ftrue };

    ghost moves = { λ ask before after answer. Unit {0} };
}

/// Callers trade nothing.
pub struct Nothing;

impl Gain<Published, u64> for Nothing {
    ghost use base.Fml.{ftrue};

    ghost after = { λ names about answer. ftrue };
}

/// A step that puts an entry behind the list.
pub struct Add;

impl Play<Published, u64> for Add {
    ghost use Rattle.value_snap.specs.Log.{Adds};

    ghost then = { Adds };
}

impl Plain<Batch, Published, u64> for Add {
    ghost use Rattle.std.specs.Prelude.{None};
    ghost use Rattle.value_snap.specs.declared.published.Published.TheVariants.{Full};

    ghost ask = { λ batch. Full batch };

    ghost state = { λ batch. None };
}

impl Plain<(), Published, u64> for Add {
    ghost use Rattle.std.specs.Prelude.{None};
    ghost use Rattle.value_snap.specs.declared.published.Published.TheVariants.{End};

    ghost ask = { λ unit. End };

    ghost state = { λ unit. None };
}

/// The word of a list: how long it is.
pub type Head = Word<Published, u64, Law>;

/// A list with nothing in it, and its word.
pub fn open_list() -> (Head, Front)
    ensures empty { result.1.list ≡ [] }
    ensures head { result.0 ≡ head_of result.1.book }
{
    let (seen, mut first, _second) = Seen::open(Start::alone(), 0, 0);
    let head = Word::tracked(0, &mut first);
    let front = Front {
        count: 0,
        upto: 0,
        seen,
    };
    (head, front)
}

/// A beginning of a list, as it was seen. Contracts see which list it is, and the beginning.
#[derive(Drop)]
pub struct Front {
    /// How many entries it has.
    count: u64,
    /// How far they go.
    upto: u32,
    seen: Seen<Published, u64, Law>,
}

impl Model for Front {
    ghost use Rattle.std.specs.Prelude.{◌≡◌, length};
    ghost use Rattle.value_snap.specs.Log.{FrontOf};
    ghost use Rattle.value_snap.specs.Lists.{IsOrdered, upto_from};

    ghost Value = { FrontOf };

    ghost view = { λ f. record { book = f.seen.book; list = f.seen.log } };

    ghost invariant = { λ f. (f.count ≡ length f.seen.log) × (f.upto ≡ upto_from 0 f.seen.log) × IsOrdered f.seen.log };
}

impl Front {
    /// How many entries there are.
    pub fn count(&self) -> u64
        ensures { result ≡ length self.now.list }
    {
        self.count
    }

    /// How far the entries go.
    pub fn upto(&self) -> u32
        ensures upto { result ≡ upto_from 0 self.now.list }
        ensures ordered { IsOrdered self.now.list }
    {
        self.upto
    }

    /// The same once more. It takes no memory.
    pub fn again(&self) -> Front
        ensures same { result ≡ self.now }
        ensures ordered { IsOrdered self.now.list }
    {
        Front {
            count: self.count,
            upto: self.upto,
            seen: self.seen.again(),
        }
    }

    /// Whether the other isn't shorter. The shorter one of the two begins the other.
    pub fn begins(&self, other: &Front) -> bool
        requires { other.now.book ≡ self.now.book }
        ensures yes { IsTrue result → IsPrefixOf self.now.list other.now.list }
        ensures no { result ≡ false → IsPrefixOf other.now.list self.now.list }
    {
        let mut both = self.seen.again();
        both.learn(&other.seen);
        self.count <= other.count
    }

    /// Puts an entry behind the list, which then goes so far. It doesn't where the list is longer
    /// than what was seen.
    pub fn add<X, M: Plain<X, Published, u64>>(
        &self,
        head: &Head,
        about: &X,
        upto: u32,
    ) -> Option<Front>
        requires head { head.now ≡ head_of self.now.book }
        requires plain { M.state about.now ≡ None }
        requires room { length self.now.list < 2 ^ 62 }
        requires follows { MayBePublished self.now.list (M.ask about.now) }
        requires upto { upto ≡ upto_from 0 (self.now.list ++ M.ask about.now ∷ []) }
        ensures { IfSome result (λ f. (f.book ≡ self.now.book) × (f.list ≡ self.now.list ++ M.ask about.now ∷ [])) }
    {
        let mut seen = self.seen.again();
        let mut offer: Offer<Published, u64, Law, Nothing> = seen.plain::<Nothing, X, M>(about);
        let mut pen = seen.no_pen();
        let count = self.count;
        let found = head.compare_exchange::<Add, Nothing>(
            count,
            count + 1,
            &mut seen,
            &mut offer,
            &mut pen,
        );
        if found != count {
            return None;
        }
        Some(Front {
            count: count + 1,
            upto,
            seen,
        })
    }
}
