//! What a site does while its pass has the hub. Each gives the pass back, and how long the history is
//! that the pass has seen then.
ghost use Rattle.std.specs.Prelude.{◌≡◌, ◌<◌, ◌≤◌, ◌+◌, ◌++◌, ℕ, List, length, min, take, drop, IfOk, OnErr, MatchResult};
ghost use Rattle.ss_base.specs.declared.types.Size.{Size};
ghost use Rattle.ss_base.specs.Lists.{IsPrefixOf};
ghost use Rattle.sheet_ops.specs.declared.operation.Entry.{Entry};
ghost use Rattle.sheet_ops.specs.History.{IsValidHistory};
ghost use Rattle.sheet_ops.specs.Represents.{ClientState};
ghost use Rattle.turn_book.specs.Passes.{IsSamePass, seen_by, made_in};
ghost use Rattle.hub.specs.Hubs.{opening_of};
ghost use Rattle.hub.specs.Messages.{messages_of};
ghost use Rattle.live_session.specs.Sessions.{ReplicaStands, entries_by};

use crate::pushes::push_waiting;
use hub::Hub;
use jup_client::Down;
use sheet_ops::Up;
use ss_base::{Memory, Seq, Site};
use std::collections::VecDeque;
use std::sync::Wait;
use turn_book::{Book, Pass};

/// Pushes messages that wait, at most so many, in their order. After want of memory those are pushed
/// that the hub took.
pub(crate) fn push<R: Wait>(
    rt: &R,
    book: &Book<Hub>,
    pass: Pass<Hub>,
    site: Site,
    unpushed: &mut VecDeque<Up>,
    most: u32,
) -> (Pass<Hub>, u32, Result<u32, Memory>)
    requires book { pass.book ≡ book.now.id }
    requires stands { (c : ClientState) × (c.site ≡ site.0) × ReplicaStands c pass (entries_by site unpushed.old.items) }
    ensures same { IsSamePass pass result.0 }
    ensures holds { result.0.holds ≡ pass.holds + 1 }
    ensures seen { IsPrefixOf (seen_by pass) (seen_by result.0) }
    ensures length { result.1 ≡ length (seen_by result.0) }
    ensures own { made_in result.0 ++ entries_by site unpushed.new.items ≡ made_in pass ++ entries_by site unpushed.old.items }
    ensures count { IfOk result.2 (λ n. length unpushed.old.items ≡ n + length unpushed.new.items) }
    ensures all { IfOk result.2 (λ n. n ≡ min most (length unpushed.old.items)) }
    ensures stands { (c : ClientState) → c.site ≡ site.0 → ReplicaStands c pass (entries_by site unpushed.old.items) → ReplicaStands c result.0 (entries_by site unpushed.new.items) }
{
    let mut held = book.enter(rt, pass);
    let pushed = push_waiting(held.state(), site, unpushed, most);
    let seen = held.state().length();
    (held.leave(), seen, pushed)
}

/// Fetches what the site is sent for the entries from a place on, at most so many of them.
pub(crate) fn fetch<R: Wait>(
    rt: &R,
    book: &Book<Hub>,
    pass: Pass<Hub>,
    site: Site,
    from: u32,
    most: u32,
) -> (Pass<Hub>, u32, Result<Seq<Down>, Memory>)
    requires book { pass.book ≡ book.now.id }
    requires from { from ≤ length (seen_by pass) }
    ensures same { IsSamePass pass result.0 }
    ensures holds { result.0.holds ≡ pass.holds + 1 }
    ensures seen { IsPrefixOf (seen_by pass) (seen_by result.0) }
    ensures length { result.1 ≡ length (seen_by result.0) }
    ensures made { result.0.made ≡ pass.made }
    ensures messages { (size : Size) (sites : ℕ) → pass.opening ≡ opening_of size sites → IfOk result.2 (λ downs. downs ≡ take most (drop from (messages_of size (seen_by result.0) site.0))) }
    ensures few { (size : Size) (sites : ℕ) → pass.opening ≡ opening_of size sites → sites ≤ 8 }
    ensures stands { (c : ClientState) (waiting : List Entry) → ReplicaStands c pass waiting → ReplicaStands c result.0 waiting }
{
    let mut held = book.enter(rt, pass);
    let downs = held.state().fetch(site, from, most);
    let seen = held.state().length();
    (held.leave(), seen, downs)
}

/// Marks a site as ended.
pub(crate) fn end<R: Wait>(
    rt: &R,
    book: &Book<Hub>,
    pass: Pass<Hub>,
    site: Site,
) -> (Pass<Hub>, u32)
    requires book { pass.book ≡ book.now.id }
    requires site { (size : Size) × (sites : ℕ) × (pass.opening ≡ opening_of size sites) × (0 < site.0) × (site.0 ≤ sites) }
    ensures same { IsSamePass pass result.0 }
    ensures holds { result.0.holds ≡ pass.holds + 1 }
    ensures seen { IsPrefixOf (seen_by pass) (seen_by result.0) }
    ensures length { result.1 ≡ length (seen_by result.0) }
    ensures made { result.0.made ≡ pass.made }
    ensures stands { (c : ClientState) (waiting : List Entry) → ReplicaStands c pass waiting → ReplicaStands c result.0 waiting }
{
    let mut held = book.enter(rt, pass);
    held.state().end_site(site);
    let seen = held.state().length();
    (held.leave(), seen)
}
