ghost use Rattle.std.specs.Prelude.{◌≡◌, ◌≤◌, ◌<◌, ◌+◌, ◌↔◌, ◌++◌, ◌⊎◌, ℕ, List, [], ◌∷◌, length, Err, IfOk, IfErr, OnOk, OnErr, IsErrOf, MatchBool, MatchResult};
ghost use Rattle.ss_base.specs.Lists.{IsPrefixOf};
ghost use Rattle.sheet_ops.specs.declared.operation.Entry.{Entry};
ghost use Rattle.sheet_ops.specs.Identity.{opened};
ghost use Rattle.sheet_ops.specs.Placed.{placed, placed_size};
ghost use Rattle.sheet_ops.specs.Effects.{effect_on, StepsTo};
ghost use Rattle.sheet_ops.specs.Fits.{IntentFits, EffectFits};
ghost use Rattle.sheet_ops.specs.Naming.{effect_of_intent};
ghost use Rattle.sheet_ops.specs.Chains.{size_past};
ghost use Rattle.sheet_ops.specs.History.{own_entries, IsValidHistory};
ghost use Rattle.sheet_ops.specs.Represents.{ClientRepresents};
ghost use Rattle.sheet_grid.specs.Values.{placed_in};
ghost use Rattle.jup_client.specs.declared.Down.TheVariants as message;
ghost use Rattle.jup_client.specs.declared.client.TakeErr.{TakeErr};
ghost use Rattle.jup_client.specs.declared.client.TakeErr.TheVariants as fault;
ghost use Rattle.jup_client.specs.Clients.{IsClient, IsSmall, IsBig, down_at, down_misfit, own_entry, IsTaken, RefusesMessage, AcceptsMessage, IsCause};

use crate::Down;
use crate::passing::{Passed, pass};
use pair_transform::replace_front;
use sheet_grid::Sheet;
use sheet_ops::{EditErr, Effect, Intent, Up, effect_of, fits_effect, size_past, size_past_own};
use ss_base::{Memory, Site, Size};
use std::alloc::Global;
use std::collections::VecDeque;
use std::marker::Model;
use thiserror::Error;

/// Why a message was refused.
#[derive(Clone, Copy, Debug, PartialEq, Eq, Error)]
pub enum TakeErr {
    /// An own entry, with nothing pending.
    #[error("no own operation is pending")]
    NotMine,
    /// The number of the effect at this index, counted from 0, isn't in a sheet of the base size.
    #[error("a bad place at {0}")]
    BadPlace(u32),
    /// The base size would have more than 9,000 rows or 8,064 columns, which no history comes to.
    #[error("too many lines")]
    TooBig,
    /// Memory was refused.
    #[error("no memory")]
    Memory,
}

impl From<Memory> for TakeErr {
    ghost use Rattle.std.specs.Prelude.{◌≡◌};
    ghost use Rattle.jup_client.specs.declared.client.TakeErr.TheVariants as fault;

    ghost from_gives = { λ _ e. e ≡ fault.Memory };

    fn from(_: Memory) -> TakeErr {
        TakeErr::Memory
    }
}

/// How many operations a site has at most.
const MOST_OPERATIONS: u32 = 1000;

/// How many rows, and how many columns, a history comes to at most.
const MOST_ROWS: u32 = 9000;

const MOST_COLS: u32 = 8064;

/// One site's sheet, with its own operations done that aren't in the history yet. It keeps these
/// pending operations as they are past all entries of the history that it has taken, and the base
/// size: that of the sheet without them.
#[derive(Debug, Drop)]
pub struct Client {
    site: Site,
    size: Size,
    taken: u32,
    issued: u32,
    sheet: Sheet,
    pending: VecDeque<Intent>,
    base: Size,
    alloc: Global,
}

impl Model for Client {
    ghost use Rattle.std.specs.Coded.{codes};
    ghost use Rattle.sheet_ops.specs.contracts.content.Content as content;
    ghost use Rattle.sheet_ops.specs.contracts.operation.Intent as intent;
    ghost use Rattle.sheet_ops.specs.Represents.{ClientState};
    ghost use Rattle.sheet_grid.specs.Values.{placed_in};
    ghost use Rattle.jup_client.specs.Clients.{IsClient};

    ghost Value = { ClientState };

    ghost coded = { Prim.hlevel (codes, content.the_row.coded, intent.the_row.coded) };

    ghost view = { λ c. record {
      site = c.site.0;
      size = c.size;
      taken = c.taken;
      issued = c.issued;
      sheet = placed_in c.sheet;
      pending = c.pending.items;
      base = c.base;
    } };

    ghost invariant = { λ c. IsClient (record {
      site = c.site.0;
      size = c.size;
      taken = c.taken;
      issued = c.issued;
      sheet = placed_in c.sheet;
      pending = c.pending.items;
      base = c.base;
    }) };
}

/// Whether there are more rows or columns than a history comes to.
fn is_big(size: Size) -> bool
    ensures { MatchBool result (IsBig size) (IsSmall size) }
{
    size.rows > MOST_ROWS || size.cols > MOST_COLS
}

/// Does the effect of an own operation on its author's sheet; a write is done as it stands. A refused call
/// leaves the sheet.
fn apply_own(sheet: &mut Sheet, intent: &Intent) -> Result<(), Memory>
    requires fits { IntentFits (placed_size (placed_in sheet.old)) intent.now }
    requires rows { (placed_size (placed_in sheet.old)).rows < 16000 }
    requires cols { (placed_size (placed_in sheet.old)).cols < 16000 }
    ensures ok { OnOk result (placed_in sheet.new ≡ effect_on (placed_in sheet.old) (effect_of_intent intent.now)) }
    ensures step { OnOk result (StepsTo (placed_in sheet.old) (effect_of_intent intent.now) (placed_in sheet.new)) }
    ensures size { OnOk result (placed_size (placed_in sheet.new) ≡ size_past (placed_size (placed_in sheet.old)) (effect_of_intent intent.now)) }
    ensures err { OnErr result (sheet.new ≡ sheet.old) }
{
    match intent {
        Intent::Write(puts) => sheet.apply_write(puts.as_slice()),
        _ => {
            let effect = effect_of(intent)?;
            sheet.apply(&effect)
        }
    }
}

impl Client {
    /// The client of a site, from 1 to 8, that has taken nothing and issued nothing. The opening size
    /// has 1 to 1,000 rows and 1 to 64 columns.
    pub fn new(alloc: Global, site: Site, size: Size) -> Result<Client, Memory>
        requires from { 0 < site.0 }
        requires rows { size.rows ≤ 1000 }
        requires cols { size.cols ≤ 64 }
        ensures state { IfOk result (λ c. c ≡ record { site = site.0; size = size; taken = 0; issued = 0; sheet = placed (opened size); pending = []; base = size }) }
        ensures represents { IfOk result (λ c. ClientRepresents c [] []) }
    {
        let sheet = Sheet::new(alloc, size)?;
        Ok(Client {
            site,
            size,
            taken: 0,
            issued: 0,
            sheet,
            pending: VecDeque::new(alloc),
            base: size,
            alloc,
        })
    }

    /// Does an own operation at once, and gives the message for it. The intent fits the sheet. A
    /// refused call leaves the client: `Spent` comes exactly where 1,000 operations were issued. It
    /// takes the time of copying the intent and of doing it on the sheet.
    pub fn edit(&mut self, intent: Intent) -> Result<Up, EditErr>
        requires { IntentFits (placed_size self.old.sheet) intent }
        ensures spent { IsErrOf result EditErr.Spent ↔ (self.old.issued ≡ 1000) }
        ensures causes { IfErr result (λ x. (x ≡ EditErr.Spent) ⊎ (x ≡ EditErr.Memory)) }
        ensures message { IfOk result (λ up. up ≡ record { seen = self.old.taken; intent = intent }) }
        ensures done { OnOk result (self.new ≡ record self.old { issued = self.old.issued + 1; sheet = effect_on self.old.sheet (effect_of_intent intent); pending = self.old.pending ++ intent ∷ [] }) }
        ensures represents { (sites : ℕ) (H G : List Entry) → IsValidHistory self.old.size sites H → ClientRepresents self.old H G → IsPrefixOf (own_entries self.old.site H) G →
            OnOk result (ClientRepresents self.new H (G ++ own_entry self.old intent ∷ [])) }
        ensures err { OnErr result (self.new ≡ self.old) }
    {
        let seen = self.taken;
        self.issue(&intent)?;
        Ok(Up { seen, intent })
    }

    /// Does an own operation, which is pending from then on.
    fn issue(&mut self, intent: &Intent) -> Result<(), EditErr>
        requires { IntentFits (placed_size self.old.sheet) intent.now }
        ensures spent { IsErrOf result EditErr.Spent ↔ (self.old.issued ≡ 1000) }
        ensures causes { IfErr result (λ x. (x ≡ EditErr.Spent) ⊎ (x ≡ EditErr.Memory)) }
        ensures done { OnOk result (self.new ≡ record self.old { issued = self.old.issued + 1; sheet = effect_on self.old.sheet (effect_of_intent intent.now); pending = self.old.pending ++ intent.now ∷ [] }) }
        ensures represents { (sites : ℕ) (H G : List Entry) → IsValidHistory self.old.size sites H → ClientRepresents self.old H G → IsPrefixOf (own_entries self.old.site H) G →
            OnOk result (ClientRepresents self.new H (G ++ own_entry self.old intent.now ∷ [])) }
        ensures err { OnErr result (self.new ≡ self.old) }
    {
        if self.issued >= MOST_OPERATIONS {
            return Err(EditErr::Spent);
        }
        let kept = intent.copy()?;
        let Ok(()) = self.pending.push_back(kept) else {
            return Err(EditErr::Memory);
        };
        match apply_own(&mut self.sheet, intent) {
            Ok(()) => {
                self.issued += 1;
                Ok(())
            }
            Err(Memory) => {
                let _ = self.pending.pop_back();
                Err(EditErr::Memory)
            }
        }
    }

    /// The first pending operation is pending no more.
    fn drop_first(&mut self) -> Result<(), TakeErr>
        ensures stood { IsClient self.old }
        ensures cause { MatchResult result (λ _. AcceptsMessage self.old message.Own) (IsCause self.old message.Own) }
        ensures done { OnOk result (IsTaken self.old message.Own self.new) }
        ensures err { OnErr result (self.new ≡ self.old) }
    {
        let Some(first) = self.pending.get(0) else {
            return Err(TakeErr::NotMine);
        };
        let base = size_past_own(self.base, first);
        if is_big(base) {
            return Err(TakeErr::TooBig);
        }
        let _ = self.pending.pop_front();
        self.base = base;
        self.taken = self.taken.saturating_add(1);
        Ok(())
    }

    /// The base size past another's effect, where the effect may be taken.
    fn admitted(&self, effect: &Effect) -> Result<Size, TakeErr>
        ensures cause { MatchResult result (λ base. AcceptsMessage self.now (message.Other effect.now) × EffectFits self.now.base effect.now × IsSmall base × (base ≡ size_past self.now.base effect.now))
            (RefusesMessage self.now (message.Other effect.now)) }
    {
        if let Some(k) = fits_effect(effect, self.base) {
            return Err(TakeErr::BadPlace(k));
        }
        let base = size_past(self.base, effect);
        if is_big(base) {
            return Err(TakeErr::TooBig);
        }
        Ok(base)
    }

    /// What another's entry does is done, past what is pending.
    fn do_other(&mut self, effect: &Effect) -> Result<(), TakeErr>
        ensures stood { IsClient self.old }
        ensures cause { MatchResult result (λ _. AcceptsMessage self.old (message.Other effect.now)) (IsCause self.old (message.Other effect.now)) }
        ensures done { OnOk result ((taken : IsTaken self.old (message.Other effect.now) self.new) × StepsTo self.old.sheet taken.0 self.new.sheet) }
        ensures err { OnErr result (self.new ≡ self.old) }
    {
        let base = self.admitted(effect)?;
        let passed = pass(self.alloc, &self.pending, effect, self.base)?;
        self.sheet.apply(passed.last(effect))?;
        replace_front(&mut self.pending, passed.own);
        self.base = base;
        self.taken = self.taken.saturating_add(1);
        Ok(())
    }

    /// Takes an own entry, the next one of the history. A refused call leaves the client. It takes
    /// constant time and no memory. In order, `NotMine` comes exactly with nothing pending, and `TooBig`
    /// exactly where the base size afterwards would have more than 9,000 rows or 8,064 columns; neither
    /// comes to the client of a server's site.
    pub fn take_own(&mut self) -> Result<(), TakeErr>
        ensures cause { (x : TakeErr) → (x ≡ fault.Memory → ⊥) → ((result ≡ Err x) ↔ RefusesMessage self.old message.Own x) }
        ensures done { OnOk result (IsTaken self.old message.Own self.new) }
        ensures represents { (sites : ℕ) (H G : List Entry) → sites ≤ 8 → IsValidHistory self.old.size sites H → ClientRepresents self.old H G → self.old.taken < length H →
            IsPrefixOf (own_entries self.old.site H) G → message.Own ≡ down_at self.old.size H self.old.site self.old.taken → MatchResult result (λ _. ClientRepresents self.new H G) (λ x. x ≡ fault.Memory) }
        ensures err { OnErr result (self.new ≡ self.old) }
    {
        self.drop_first()
    }

    /// Takes what another's entry, the next one of the history, does to the sheet after the entries before
    /// it. A refused call leaves the client. It takes a comparison for each pending operation that leaves
    /// the effect and is left by it, as writes of other cells do, a transform for each other one, and then
    /// the time of doing the effect on the sheet; with none pending the effect is done as it came. In
    /// order, `BadPlace` comes exactly where the effect doesn't fit the base size, and `TooBig` as for an
    /// own entry; neither comes to the client of a server's site.
    pub fn take_other(&mut self, effect: &Effect) -> Result<(), TakeErr>
        ensures cause { (x : TakeErr) → (x ≡ fault.Memory → ⊥) → ((result ≡ Err x) ↔ RefusesMessage self.old (message.Other effect.now) x) }
        ensures done { OnOk result (IsTaken self.old (message.Other effect.now) self.new) }
        ensures represents { (sites : ℕ) (H G : List Entry) → sites ≤ 8 → IsValidHistory self.old.size sites H → ClientRepresents self.old H G → self.old.taken < length H →
            IsPrefixOf (own_entries self.old.site H) G → message.Other effect.now ≡ down_at self.old.size H self.old.site self.old.taken →
            MatchResult result (λ _. ClientRepresents self.new H G) (λ x. x ≡ fault.Memory) }
        ensures err { OnErr result (self.new ≡ self.old) }
    {
        self.do_other(effect)
    }

    /// Takes what it is sent for the next entry of the history, as [`take_own`](Client::take_own) or
    /// [`take_other`](Client::take_other) does.
    pub fn take(&mut self, down: &Down) -> Result<(), TakeErr>
        ensures cause { (x : TakeErr) → (x ≡ fault.Memory → ⊥) → ((result ≡ Err x) ↔ RefusesMessage self.old down.now x) }
        ensures done { OnOk result (IsTaken self.old down.now self.new) }
        ensures represents { (sites : ℕ) (H G : List Entry) → sites ≤ 8 → IsValidHistory self.old.size sites H → ClientRepresents self.old H G → self.old.taken < length H →
            IsPrefixOf (own_entries self.old.site H) G → down.now ≡ down_at self.old.size H self.old.site self.old.taken → MatchResult result (λ _. ClientRepresents self.new H G) (λ x. x ≡ fault.Memory) }
        ensures err { OnErr result (self.new ≡ self.old) }
    {
        match down {
            Down::Own => self.take_own(),
            Down::Other(effect) => self.take_other(effect),
        }
    }

    /// The site's sheet, with its own operations done.
    pub fn sheet(&self) -> &Sheet
        ensures { placed_in result.now ≡ self.now.sheet }
    {
        &self.sheet
    }

    /// How many entries of the history it has taken; 2^32 - 1 stands for all above it.
    pub fn taken(&self) -> u32
        ensures { result ≡ self.now.taken }
    {
        self.taken
    }

    /// How many operations it has issued.
    pub fn issued(&self) -> u32
        ensures value { result ≡ self.now.issued }
        ensures few { self.now.issued ≤ 1000 }
    {
        self.issued
    }

    /// How many of its own operations it hasn't taken.
    pub fn pending(&self) -> u32
        ensures { result ≡ length self.now.pending }
    {
        self.pending.len() as u32
    }
}
