ghost use Rattle.std.specs.Prelude.{◌≡◌, ◌≤◌, ◌<◌, ◌+◌, ◌-◌, ◌∷◌, ◌++◌, ◌^◌, [], List, Option, Some, None, if◌then◌else◌, drop, length, unwrap_or, IfOk, OnOk, OnErr};
ghost use Rattle.sheet_ops.specs.declared.operation.Effect.{Effect};
ghost use Rattle.sheet_ops.specs.Chains.{sizes_past, PassesChain, EachChainFits};
ghost use Rattle.sheet_ops.specs.Effects.{StepsTo};
ghost use Rattle.sheet_ops.specs.Fits.{IntentFits, EffectFits};
ghost use Rattle.sheet_ops.specs.Placed.{placed_size};
ghost use Rattle.sheet_ops.specs.Represents as represents;
ghost use Rattle.sheet_grid.specs.Values.{placed_in};
ghost use Rattle.pair_transform.specs.Changes.{replaced};
ghost use Rattle.jup_server.specs.Servers.{link_sent, links_sent, seen_size};

use crate::chain::{Passed, drop_front, pass_chain, size_along};
use crate::shared::Shared;
use pair_transform::replace_front;
use sheet_grid::Sheet;
use sheet_ops::{Effect, Intent};
use ss_base::{Memory, Size};
use std::alloc::Global;
use std::collections::VecDeque;
use std::marker::Model;

/// What is kept of one site.
#[derive(Debug, Drop)]
pub(crate) struct Link {
    /// What its last operation had seen.
    pub(crate) seen: u32,
    /// How many operations it has in the history.
    pub(crate) issued: u32,
    /// The size of its view when it had taken that many entries.
    pub(crate) base: Size,
    /// For each entry from there on what it does in that site's views, and nothing for one of its own.
    pub(crate) chain: VecDeque<Option<Shared>>,
}

impl Model for Link {
    ghost use Rattle.std.specs.Coded.{codes};
    ghost use Rattle.sheet_ops.specs.contracts.operation.Effect as effect;
    ghost use Rattle.sheet_ops.specs.Represents as represents;

    ghost Value = { represents.LinkState };

    ghost coded = { Prim.hlevel (codes, effect.the_row.coded) };

    ghost view = { λ l. record { seen = l.seen; issued = l.issued; base = l.base; chain = l.chain.items } };
}

impl Link {
    /// The link of a site with nothing in the history.
    pub(crate) fn new(alloc: Global, size: Size) -> Link
        ensures { result ≡ record { seen = 0; issued = 0; base = size; chain = [] } }
    {
        Link {
            seen: 0,
            issued: 0,
            base: size,
            chain: VecDeque::new(alloc),
        }
    }

    /// The size of its view when it had taken so many entries.
    pub(crate) fn seen_size(&self, seen: u32) -> Size
        requires low { self.now.seen ≤ seen }
        requires within { seen ≤ self.now.seen + length self.now.chain }
        requires rows { (sizes_past self.now.base self.now.chain).rows ≤ 15000 }
        requires cols { (sizes_past self.now.base self.now.chain).cols ≤ 15000 }
        ensures { result ≡ seen_size self.now seen }
    {
        size_along(self.base, &self.chain, (seen - self.seen) as usize)
    }

    /// An operation of its site that had seen so many entries, past what it hadn't seen.
    pub(crate) fn pass(
        &self,
        alloc: Global,
        seen: u32,
        own: &Intent,
        size: Size,
    ) -> Result<Passed, Memory>
        requires low { self.now.seen ≤ seen }
        requires within { seen ≤ self.now.seen + length self.now.chain }
        requires rows { (sizes_past self.now.base self.now.chain).rows ≤ 15000 }
        requires cols { (sizes_past self.now.base self.now.chain).cols ≤ 15000 }
        requires chain { EachChainFits self.now.base self.now.chain }
        requires size { size ≡ seen_size self.now seen }
        requires own { IntentFits size own.now }
        ensures passes { IfOk result (λ r. PassesChain size own.now (drop (seen - self.now.seen) self.now.chain) (replaced r.steps.items (drop (seen - self.now.seen) self.now.chain)) (unwrap_or r.own own.now)) }
        ensures many { IfOk result (λ r. length r.steps.items + (seen - self.now.seen) ≤ length self.now.chain) }
    {
        pass_chain(alloc, &self.chain, (seen - self.seen) as usize, own, size)
    }

    /// Puts a step at the end of the chain: the effect, or nothing where the entry is an own one. A refused
    /// call leaves the link.
    fn send(&mut self, is_own: bool, effect: &Shared) -> Result<(), Memory>
        ensures ok { OnOk result (self.new ≡ link_sent is_own effect.now self.old) }
        ensures err { OnErr result (self.new ≡ self.old) }
    {
        let step = step_of(is_own, effect)?;
        self.chain.push_back(step)?;
        Ok(())
    }

    /// Takes the last step out of the chain.
    fn unsend(&mut self)
        ensures { (x : Option Effect) (l : represents.LinkState) → self.old ≡ record l { chain = l.chain ++ x ∷ [] } → self.new ≡ l }
    {
        let _ = self.chain.pop_back();
    }

    /// Takes what an operation of its site had seen out of the chain, and puts what the rest is past the
    /// operation there. The step for the operation itself is in the chain.
    pub(crate) fn advance(&mut self, seen: u32, base: Size, steps: VecDeque<Option<Option<Shared>>>)
        requires low { self.old.seen ≤ seen }
        requires many { length steps.items + (seen - self.old.seen) ≤ length self.old.chain }
        requires few { self.old.issued < 1000 }
        ensures { self.new ≡ record { seen = seen; issued = self.old.issued + 1; base = base; chain = replaced steps.items (drop (seen - self.old.seen) self.old.chain) } }
    {
        drop_front(&mut self.chain, (seen - self.seen) as usize);
        replace_front(&mut self.chain, steps);
        self.seen = seen;
        self.issued += 1;
        self.base = base;
    }
}

/// The step of a chain for an entry with this effect.
fn step_of(is_own: bool, effect: &Shared) -> Result<Option<Shared>, Memory>
    ensures { IfOk result (λ step. step ≡ (if is_own then None else Some effect.now)) }
{
    if is_own {
        return Ok(None);
    }
    Ok(Some(effect.share()?))
}

/// Sends an effect to the links, of which the own one stands at a place, and does it on the sheet. The
/// others have one copy of it in common. A refused call leaves all.
pub(crate) fn send_all(
    alloc: Global,
    links: &mut [Link],
    own: usize,
    sheet: &mut Sheet,
    effect: &Effect,
) -> Result<(), Memory>
    requires many { length links.old ≤ 2 ^ 32 }
    requires fits { EffectFits (placed_size (placed_in sheet.old)) effect.now }
    requires rows { (placed_size (placed_in sheet.old)).rows < 16000 }
    requires cols { (placed_size (placed_in sheet.old)).cols < 16000 }
    ensures links { OnOk result (links.new ≡ links_sent 0 own effect.now links.old) }
    ensures sheet { OnOk result (StepsTo (placed_in sheet.old) effect.now (placed_in sheet.new)) }
    ensures links_err { OnErr result (links.new ≡ links.old) }
    ensures sheet_err { OnErr result (sheet.new ≡ sheet.old) }
{
    let shared = Shared::new(alloc, effect.copy()?)?;
    send_each(links, 0, own, sheet, &shared)
}

/// Sends an effect to the links from a place on, of which the own one stands at a place, and does it on
/// the sheet. A refused call leaves all.
fn send_each(
    links: &mut [Link],
    at: usize,
    own: usize,
    sheet: &mut Sheet,
    effect: &Shared,
) -> Result<(), Memory>
    requires at { at + length links.old ≤ 2 ^ 32 }
    requires fits { EffectFits (placed_size (placed_in sheet.old)) effect.now }
    requires rows { (placed_size (placed_in sheet.old)).rows < 16000 }
    requires cols { (placed_size (placed_in sheet.old)).cols < 16000 }
    ensures links { OnOk result (links.new ≡ links_sent at own effect.now links.old) }
    ensures sheet { OnOk result (StepsTo (placed_in sheet.old) effect.now (placed_in sheet.new)) }
    ensures links_err { OnErr result (links.new ≡ links.old) }
    ensures sheet_err { OnErr result (sheet.new ≡ sheet.old) }
{
    match links.split_first_mut() {
        None => sheet.apply(effect.get()),
        Some((first, rest)) => {
            first.send(at == own, effect)?;
            match send_each(rest, at + 1, own, sheet, effect) {
                Ok(()) => Ok(()),
                Err(Memory) => {
                    first.unsend();
                    Err(Memory)
                }
            }
        }
    }
}
