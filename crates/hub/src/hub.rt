ghost use Rattle.std.specs.Prelude.{◌≡◌, ◌<◌, ◌≤◌, ◌-◌, ◌++◌, ◌∷◌, ◌⊎◌, [], List, true, false, length, take, drop, replicate, slice_set, IfOk, IfErr, OnOk, OnErr, MatchResult};
ghost use Rattle.sheet_ops.specs.declared.operation.Entry.{Entry};
ghost use Rattle.sheet_ops.specs.History.{IsValidHistory};
ghost use Rattle.sheet_ops.specs.Published.{effect_at};
ghost use Rattle.sheet_ops.specs.Represents.{ServerRepresents};
ghost use Rattle.jup_client.specs.Clients.{down_at};
ghost use Rattle.jup_server.specs.declared.SubmitErr.TheVariants as fault;
ghost use Rattle.jup_server.specs.Servers.{entry_of, IsRefused, IsAdmitted};
ghost use Rattle.hub.specs.Hubs.{opening_of, ended_count};
ghost use Rattle.hub.specs.Messages.{effects_of, messages_of};
ghost use Rattle.hub.specs.BookEntries.{book_entries};

use jup_client::Down;
use jup_server::{Server, SubmitErr};
use sheet_ops::{Effect, Entry, Up};
use ss_base::{Memory, Seq, Site, Size};
use std::alloc::Global;
use std::marker::Model;
use turn_book::Kept;

/// How many sites there are at most.
const MOST_SITES: usize = 8;

/// The server and its history, with the effect of each entry, and which sites have ended. Contracts
/// see the size of the opening sheet, the number of sites, the history, and of each site from 1 to 8
/// whether it has ended; the server stands for the history.
///
/// In a book the opening of a hub is its rows, its columns and its number of sites. An entry of a site
/// is one of the pass with the site's number.
#[derive(Debug, Drop)]
pub struct Hub {
    server: Server,
    history: Seq<Entry>,
    effects: Vec<Effect>,
    ended: [bool; MOST_SITES],
}

impl Model for Hub {
    ghost use Rattle.std.specs.Coded.{codes};
    ghost use Rattle.ss_base.specs.contracts.types.Size as sizes;
    ghost use Rattle.sheet_ops.specs.contracts.operation.Entry as entry;
    ghost use Rattle.hub.specs.Hubs.{HubOf, IsHub};

    ghost Value = { HubOf };

    ghost coded = { Prim.hlevel (codes, sizes.the_row.coded, entry.the_row.coded) };

    ghost view = { λ h. record { size = h.server.size; sites = h.server.sites; entries = h.history; ended = h.ended } };

    ghost invariant = { λ h. IsHub h.server h.history h.effects.items };
}

impl Kept for Hub {
    type Item = Entry;

    ghost opening = { λ h. opening_of h.size h.sites };

    ghost history = { λ h. book_entries h.entries };

    fn length(&self) -> u32 {
        self.server.count()
    }
}

impl Hub {
    /// The hub of the empty history for the sites from 1 to this number, which is at most 8. None of
    /// them has ended. The opening size has 1 to 1,000 rows and 1 to 64 columns.
    pub fn new(alloc: Global, size: Size, sites: u8) -> Result<Hub, Memory>
        requires rows { size.rows ≤ 1000 }
        requires cols { size.cols ≤ 64 }
        requires sites { sites ≤ 8 }
        ensures { IfOk result (λ h. h ≡ record { size = size; sites = sites; entries = []; ended = replicate 8 false }) }
    {
        let server = Server::new(alloc, size, sites)?;
        Ok(Hub {
            server,
            history: Seq::new(alloc),
            effects: Vec::new(alloc),
            ended: [false; MOST_SITES],
        })
    }

    /// The server, which stands for the history. It takes no memory.
    pub fn server(&self) -> &Server
        ensures size { result.now.size ≡ self.now.size }
        ensures sites { result.now.sites ≡ self.now.sites }
        ensures represents { ServerRepresents result.now self.now.entries }
    {
        &self.server
    }

    /// The history. It takes no memory.
    pub fn history(&self) -> &Seq<Entry>
        ensures entries { result.now ≡ self.now.entries }
        ensures valid { IsValidHistory self.now.size self.now.sites self.now.entries }
    {
        &self.history
    }

    /// How many entries the history has. It takes no memory.
    pub fn length(&self) -> u32
        ensures { result ≡ length self.now.entries }
    {
        self.server.count()
    }

    /// Puts a site's operation behind the history. A refused call leaves the hub. It takes the time of
    /// one copy of the operation, and that of the server's `submit`, whose causes are its own: in order,
    /// `NoSite` comes for a site that the hub hasn't, `Spent` where 1,000 operations of the site stand
    /// in the history, `BadSeen` where what the operation had seen is below what the site's last one had
    /// or above the length of the history, and `BadPlace` where it doesn't fit the view that its author
    /// had. `Memory` may come in place of any of them.
    pub fn push(&mut self, site: Site, up: &Up) -> Result<(), SubmitErr>
        ensures ok { OnOk result (self.new ≡ record self.old { entries = self.old.entries ++ entry_of site.0 up.now ∷ [] }) }
        ensures valid { OnOk result (IsValidHistory self.new.size self.new.sites self.new.entries) }
        ensures cause { MatchResult result (λ _. IsAdmitted self.old.size self.old.sites self.old.entries (entry_of site.0 up.now))
            (λ x. (x ≡ fault.Memory) ⊎ IsRefused self.old.size self.old.sites self.old.entries (entry_of site.0 up.now) x) }
        ensures may { IsValidHistory self.old.size self.old.sites (self.old.entries ++ entry_of site.0 up.now ∷ []) → IfErr result (λ x. x ≡ fault.Memory) }
        ensures err { OnErr result (self.new ≡ self.old) }
    {
        if self.effects.reserve(1).is_err() {
            return Err(SubmitErr::Memory);
        }
        let intent = up.intent.copy()?;
        self.history.push(Entry {
            site,
            seen: up.seen,
            intent,
        })?;
        match self.server.submit(site, up) {
            Ok(effect) => {
                self.effects.push_reserved(effect);
                Ok(())
            }
            Err(cause) => {
                take_last(&mut self.history);
                Err(cause)
            }
        }
    }

    /// The effect of the entry at this place.
    fn effect(&self, place: usize) -> &Effect
        requires { place < length self.now.entries }
        ensures { result.now ≡ effect_at self.now.size self.now.entries place }
    {
        &self.effects[place]
    }

    /// What a site is sent for the entry at this place.
    fn message(&self, site: Site, place: usize) -> Result<Down, Memory>
        requires { place < length self.now.entries }
        ensures { IfOk result (λ down. down ≡ down_at self.now.size self.now.entries site.0 place) }
    {
        let history = self.history.as_slice();
        if history[place].site == site {
            Ok(Down::Own)
        } else {
            Ok(Down::Other(self.effect(place).copy()?))
        }
    }

    /// What a site is sent for the entries from a place on, at most so many of them. It takes the time
    /// of copying what it answers.
    pub fn fetch(&self, site: Site, from: u32, most: u32) -> Result<Seq<Down>, Memory>
        requires { from ≤ length self.now.entries }
        ensures { IfOk result (λ downs. downs ≡ take most (drop from (messages_of self.now.size self.now.entries site.0))) }
    {
        let mut downs = self.history.empty_beside();
        let first = from as usize;
        let count = (self.history.len() - first).min(most as usize);
        for place in first..first + count {
            downs.push(self.message(site, place)?)?;
        }
        Ok(downs)
    }

    /// The effects of the entries from a place on. It takes the time of copying them.
    pub fn batch(&self, from: u32) -> Result<Seq<Effect>, Memory>
        requires { from ≤ length self.now.entries }
        ensures { IfOk result (λ effects. effects ≡ drop from (effects_of self.now.size self.now.entries)) }
    {
        let mut effects = self.history.empty_beside();
        for place in from as usize..self.history.len() {
            effects.push(self.effect(place).copy()?)?;
        }
        Ok(effects)
    }

    /// Marks a site as ended, if it isn't yet. It takes no memory.
    pub fn end_site(&mut self, site: Site)
        requires from { 0 < site.0 }
        requires to { site.0 ≤ self.old.sites }
        ensures { self.new ≡ record self.old { ended = slice_set self.old.ended (site.0 - 1) true } }
    {
        self.ended[site.0 as usize - 1] = true;
    }

    /// How many sites have ended. It takes no memory.
    pub fn ended(&self) -> u8
        ensures { result ≡ ended_count self.now.ended }
    {
        self.ended.iter().filter(|is_ended| **is_ended).count() as u8
    }
}

/// Takes the last entry out again.
#[tactic(auto, using(crate::proofs::Lasts::popped))]
fn take_last(history: &mut Seq<Entry>)
    ensures { (front : List Entry) (last : Entry) → history.old ≡ front ++ last ∷ [] → history.new ≡ front }
{
    let _ = history.pop();
}
