ghost use Rattle.std.specs.Prelude.{◌≡◌, ◌≤◌, ◌<◌, ◌↔◌, ◌++◌, ℕ, List, [], ◌∷◌, length, replicate, Err, IfOk, IfErr, OnOk, OnErr, MatchResult};
ghost use Rattle.sheet_ops.specs.declared.operation.Entry.{Entry};
ghost use Rattle.sheet_ops.specs.History.{IsValidHistory};
ghost use Rattle.sheet_ops.specs.Identity.{opened};
ghost use Rattle.sheet_ops.specs.Placed.{placed};
ghost use Rattle.sheet_ops.specs.Represents.{ServerRepresents};
ghost use Rattle.sheet_ops.specs.Published.{effect_at};
ghost use Rattle.sheet_grid.specs.Values.{placed_in};
ghost use Rattle.jup_server.specs.declared.SubmitErr.{SubmitErr};
ghost use Rattle.jup_server.specs.declared.SubmitErr.TheVariants as fault;
ghost use Rattle.jup_server.specs.Servers.{new_link, link_at, seen_size, entry_of, IsServer, IsRefused, IsAdmitted, MayTake};

use crate::SubmitErr;
use crate::link::{Link, send_all};
use sheet_grid::Sheet;
use sheet_ops::{Effect, Up, effect_of, fits, size_past_own};
use ss_base::{Memory, Site, Size};
use std::alloc::Global;
use std::marker::Model;

/// How many operations a site has at most.
const MOST_OPERATIONS: u32 = 1000;

/// The sheet of the history, and per site the chain of what the site's operations haven't seen yet,
/// past what it sent. It keeps no history.
#[derive(Debug, Drop)]
pub struct Server {
    size: Size,
    count: u32,
    sheet: Sheet,
    links: Vec<Link>,
    alloc: Global,
}

impl Model for Server {
    ghost use Rattle.std.specs.Prelude.{length};
    ghost use Rattle.std.specs.Coded.{codes};
    ghost use Rattle.sheet_ops.specs.contracts.content.Content as content;
    ghost use Rattle.sheet_ops.specs.contracts.operation.Effect as effect;
    ghost use Rattle.sheet_ops.specs.Represents.{ServerState};
    ghost use Rattle.sheet_grid.specs.Values.{placed_in};
    ghost use Rattle.jup_server.specs.Servers.{IsServer};

    ghost Value = { ServerState };

    ghost coded = { Prim.hlevel (codes, content.the_row.coded, effect.the_row.coded) };

    ghost view = { λ s. record { size = s.size; sites = length s.links.items; count = s.count; sheet = placed_in s.sheet; links = s.links.items } };

    ghost invariant = { λ s. IsServer (record { size = s.size; sites = length s.links.items; count = s.count; sheet = placed_in s.sheet; links = s.links.items }) };
}

/// A link for each of so many sites, with nothing sent.
fn new_links(alloc: Global, size: Size, sites: u8) -> Result<Vec<Link>, Memory>
    ensures { IfOk result (λ ls. ls.items ≡ replicate sites (new_link size)) }
{
    let mut links = Vec::new(alloc);
    for _ in 0..sites {
        links.push(Link::new(alloc, size))?;
    }
    Ok(links)
}

impl Server {
    /// The server of the empty history for the sites from 1 to this number, which is at most 8. The
    /// opening size has 1 to 1,000 rows and 1 to 64 columns.
    pub fn new(alloc: Global, size: Size, sites: u8) -> Result<Server, Memory>
        requires rows { size.rows ≤ 1000 }
        requires cols { size.cols ≤ 64 }
        requires sites { sites ≤ 8 }
        ensures state { IfOk result (λ s. s ≡ record { size = size; sites = sites; count = 0; sheet = placed (opened size); links = replicate sites (new_link size) }) }
        ensures represents { IfOk result (λ s. ServerRepresents s []) }
    {
        let sheet = Sheet::new(alloc, size)?;
        let links = new_links(alloc, size, sites)?;
        Ok(Server {
            size,
            count: 0,
            sheet,
            links,
            alloc,
        })
    }

    /// The sheet of the history.
    pub fn sheet(&self) -> &Sheet
        ensures { placed_in result.now ≡ self.now.sheet }
    {
        &self.sheet
    }

    /// How many entries the history has.
    pub fn count(&self) -> u32
        ensures { result ≡ self.now.count }
    {
        self.count
    }

    /// The size of its author's view, where an operation may be taken, and else the cause.
    fn admitted(&self, site: Site, up: &Up) -> Result<Size, SubmitErr>
        ensures ok { IfOk result (λ base. MayTake self.now site.0 up.now × (base ≡ seen_size (link_at self.now site.0) up.now.seen)) }
        ensures cause { (H : List Entry) → ServerRepresents self.now H →
            MatchResult result (λ _. IsAdmitted self.now.size self.now.sites H (entry_of site.0 up.now)) (IsRefused self.now.size self.now.sites H (entry_of site.0 up.now)) }
    {
        if site.0 == 0 || site.0 as usize > self.links.len() {
            return Err(SubmitErr::NoSite);
        }
        let link = &self.links[site.0 as usize - 1];
        if link.issued >= MOST_OPERATIONS {
            return Err(SubmitErr::Spent);
        }
        if up.seen < link.seen || up.seen > self.count {
            return Err(SubmitErr::BadSeen {
                seen: up.seen,
                low: link.seen,
                high: self.count,
            });
        }
        let size = link.seen_size(up.seen);
        match fits(&up.intent, size) {
            Some(k) => Err(SubmitErr::BadPlace(k)),
            None => Ok(size),
        }
    }

    /// Takes an operation for which there is no cause to refuse it.
    fn accept(&mut self, site: Site, up: &Up, size: Size) -> Result<Effect, Memory>
        requires may { MayTake self.old site.0 up.now }
        requires size { size ≡ seen_size (link_at self.old site.0) up.now.seen }
        ensures stays { OnOk result ((self.new.size ≡ self.old.size) × (self.new.sites ≡ self.old.sites)) }
        ensures represents { (H : List Entry) → ServerRepresents self.old H → OnOk result (ServerRepresents self.new (H ++ entry_of site.0 up.now ∷ [])) }
        ensures effect { (H : List Entry) → ServerRepresents self.old H → IfOk result (λ e. e ≡ effect_at self.old.size (H ++ entry_of site.0 up.now ∷ []) (length H)) }
        ensures err { OnErr result (self.new ≡ self.old) }
    {
        let at = site.0 as usize - 1;
        let passed = self.links[at].pass(self.alloc, up.seen, &up.intent, size)?;
        let effect = effect_of(passed.last(&up.intent))?;
        send_all(
            self.alloc,
            self.links.as_mut_slice(),
            at,
            &mut self.sheet,
            &effect,
        )?;
        let base = size_past_own(size, &up.intent);
        self.links[at].advance(up.seen, base, passed.steps);
        self.count += 1;
        Ok(effect)
    }

    /// Takes an operation of a site, and gives its effect on the sheet. A refused call leaves the server.
    /// It takes, for each effect that the operation's author hadn't seen, a comparison where the two leave
    /// one another, as writes of other cells do, and else a transform, and the time of one copy of the
    /// effect; of each effect that its author has seen since, it takes a constant time once. In
    /// order, `NoSite` comes exactly for a site that the server hasn't, `Spent` exactly where 1,000
    /// operations of the site were taken, `BadSeen` exactly where what it had seen is below what the
    /// site's last operation had or above the number of entries, and `BadPlace` exactly where it doesn't
    /// fit the view that its author had.
    pub fn submit(&mut self, site: Site, up: &Up) -> Result<Effect, SubmitErr>
        ensures cause { (H : List Entry) → ServerRepresents self.old H → (x : SubmitErr) → (x ≡ fault.Memory → ⊥) →
            ((result ≡ Err x) ↔ IsRefused self.old.size self.old.sites H (entry_of site.0 up.now) x) }
        ensures may { (H : List Entry) → ServerRepresents self.old H → IsValidHistory self.old.size self.old.sites (H ++ entry_of site.0 up.now ∷ []) → IfErr result (λ x. x ≡ fault.Memory) }
        ensures stays { OnOk result ((self.new.size ≡ self.old.size) × (self.new.sites ≡ self.old.sites)) }
        ensures represents { (H : List Entry) → ServerRepresents self.old H → OnOk result (ServerRepresents self.new (H ++ entry_of site.0 up.now ∷ [])) }
        ensures effect { (H : List Entry) → ServerRepresents self.old H → IfOk result (λ e. e ≡ effect_at self.old.size (H ++ entry_of site.0 up.now ∷ []) (length H)) }
        ensures err { OnErr result (self.new ≡ self.old) }
    {
        let size = self.admitted(site, up)?;
        let effect = self.accept(site, up, size)?;
        Ok(effect)
    }
}
