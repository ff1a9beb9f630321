ghost use Rattle.std.specs.Prelude.{◌≡◌, ◌≤◌, ℕ, IfOk};
ghost use Rattle.value_snap.specs.Lists.{upto_from};
ghost use Rattle.value_snap.specs.declared.rule.Store.{Store};

use crate::publisher::Told;
use ss_base::{Memory, Site};
use std::sync::Wait;
use std::thread::Threads;

/// Who tells each site how far its store is.
pub trait Teller {
    /// The store of each site, by the site's number.
    ghost stores: { Self → ℕ → Store };

    /// That the site with this number has a store there.
    ghost has: { Self → ℕ → Type 0 };

    /// What the store of a site shows, once it goes at least so far. It may wait for that.
    fn tell<R: Threads + Wait + Sync>(
        &self,
        rt: &R,
        site: Site,
        at_least: u32,
    ) -> Result<Told, Memory>
        requires { has self.now site.0 }
        ensures store { IfOk result (λ t. t.store ≡ stores self.now site.0) }
        ensures length { IfOk result (λ t. at_least ≤ upto_from 0 t.list) };
}
