ghost use Rattle.std.specs.Prelude.{◌≡◌, ◌≢◌, ◌<◌, ◌≤◌, ◌+◌, ◌-◌, ◌++◌, ◌∷◌, ◌⊎◌, ◌↔◌, [], ℕ, List, length, min, Ok, Err, IfOk, IfErr, OnOk, OnErr};
ghost use Rattle.ss_base.specs.Lists.{IsPrefixOf};
ghost use Rattle.ss_base.specs.Streams.{Rose};
ghost use Rattle.sheet_ops.specs.declared.operation.Intent.{Intent};
ghost use Rattle.sheet_ops.specs.Identity.{opened};
ghost use Rattle.sheet_ops.specs.Placed.{placed};
ghost use Rattle.jup_client.specs.Clients.{own_entry};
ghost use Rattle.sort_keys.specs.Keys.{IsOrderly};
ghost use Rattle.client_edits.specs.Decided.{Decides, with_operation};
ghost use Rattle.turn_book.specs.Passes.{IsSamePass, seen_by, made_in};
ghost use Rattle.hub.specs.Hubs.{opening_of};
ghost use Rattle.value_snap.specs.declared.published.Published.{Published};
ghost use Rattle.value_snap.specs.Lists.{upto_from};
ghost use Rattle.value_snap.specs.Parts.{IsWithin, view_of_range};
ghost use Rattle.value_snap.specs.Refusals.{IsNoEntry, IsOutside};
ghost use Rattle.value_snap.specs.Stores.{known_snapshot};
ghost use Rattle.live_session.specs.Pulling.{HasTakenMore};
ghost use Rattle.live_session.specs.Sessions.{ReplicaStands};

use crate::holds;
use crate::takes::take_all;
use client_edits::issue;
use hub::Hub;
use jup_client::Client;
use sheet_ops::{Edit, EditErr, Up};
use ss_base::{Memory, Site, Size, Span};
use std::alloc::Global;
use std::collections::VecDeque;
use std::marker::Model;
use std::sync::Wait;
use std::thread::Threads;
use turn_book::{Book, Pass};
use value_snap::{ReadErr, Reader, Teller, View};

/// A site at work. Contracts see its replica, its pass, the own entries that it has not pushed, the
/// reader of its store, and how far the values go that it read last or found a range outside of.
///
/// The replica represents the history that the pass has seen, beside the site's own entries: those
/// that the pass made, and then those that are not pushed.
#[derive(Drop)]
pub struct Session {
    site: Site,
    client: Client,
    /// Out only within a call.
    pass: Option<Pass<Hub>>,
    /// How long the history is that the pass has seen.
    seen: u32,
    unpushed: VecDeque<Up>,
    reader: Reader,
    read_length: u32,
}

impl Model for Session {
    ghost use Rattle.std.specs.Coded.{codes};
    ghost use Rattle.std.specs.Prelude.{MatchOption, unwrap_or};
    ghost use Rattle.sheet_ops.specs.contracts.content.Content as content;
    ghost use Rattle.sheet_ops.specs.contracts.operation.Entry as entry;
    ghost use Rattle.sheet_ops.specs.contracts.operation.Intent as intent;
    ghost use Rattle.live_session.specs.Sessions.{SessionOf, IsSession, entries_by, no_pass};

    ghost Value = { SessionOf };

    ghost coded = { Prim.hlevel (codes, content.the_row.coded, intent.the_row.coded, entry.the_row.coded) };

    ghost view = { λ s. record { client = s.client; pass = unwrap_or s.pass no_pass; unpushed = entries_by s.site s.unpushed.items; reader = s.reader; read_length = s.read_length } };

    ghost invariant = { λ s. MatchOption s.pass ⊥ (λ p. IsSession s.site s.client p s.seen s.unpushed.items) };
}

/// What is left of a session.
#[derive(Drop)]
pub struct Ended {
    pub client: Client,
    pub pass: Pass<Hub>,
    pub reader: Reader,
}

impl Session {
    /// A session of a site, from 1 on, that has done nothing. The pass is the site's, the book's opening
    /// is of that size and has the site, and the reader is that of the site's store. The opening size
    /// has 1 to 1,000 rows and 1 to 64 columns. A refused call drops the pass and the reader.
    pub fn new(
        alloc: Global,
        site: Site,
        size: Size,
        pass: Pass<Hub>,
        reader: Reader,
    ) -> Result<Session, Memory>
        requires rows { size.rows ≤ 1000 }
        requires cols { size.cols ≤ 64 }
        requires from { 0 < site.0 }
        requires number { pass.number ≡ site.0 }
        requires opening { (sites : ℕ) × (pass.opening ≡ opening_of size sites) × (site.0 ≤ sites) }
        requires new { (pass.seen ≡ []) × (pass.made ≡ []) }
        ensures pass { IfOk result (λ s. (s.pass ≡ pass) × (s.unpushed ≡ [])) }
        ensures client { IfOk result (λ s. s.client ≡ record { site = site.0; size = size; taken = 0; issued = 0; sheet = placed (opened size); pending = []; base = size }) }
        ensures reader { IfOk result (λ s. (s.reader ≡ reader) × (s.read_length ≡ 0)) }
    {
        let client = Client::new(alloc, site, size)?;
        Ok(Session {
            site,
            client,
            pass: Some(pass),
            seen: 0,
            unpushed: VecDeque::new(alloc),
            reader,
            read_length: 0,
        })
    }

    /// Does an edit at once, and keeps its message until it is pushed. A refused call leaves the
    /// session. The causes are those of the edit on the replica's sheet, in the order `OutOfSheet`,
    /// `CopyLarge`, `SortLong`, `BadFormula`, `Deep`, `Heavy`, and behind them `Spent`, which comes where
    /// 1,000 operations were issued. A sort goes by the values of the replica's sheet, and takes the time
    /// of evaluating it in full where there is a formula among its keys. It never waits.
    pub fn edit(&mut self, edit: &Edit) -> Result<(), EditErr>
        requires { IsOrderly edit.now }
        ensures ok { OnOk result ((op : Intent) × Decides self.old.client edit.now (Ok op)
            × (self.new ≡ record self.old { client = with_operation self.old.client op; unpushed = self.old.unpushed ++ own_entry self.old.client op ∷ [] })) }
        ensures cause { IfErr result (λ e. e ≢ EditErr.Memory → Decides self.old.client edit.now (Err e)) }
        ensures err { OnErr result (self.new ≡ self.old) }
    {
        let alloc = *self.unpushed.allocator();
        if self.unpushed.reserve(1).is_err() {
            return Err(EditErr::Memory);
        }
        let up = issue(alloc, &mut self.client, edit)?;
        self.unpushed.push_back_reserved(up);
        Ok(())
    }

    /// Pushes own entries that wait, at most so many, in their order, and answers how many. After want
    /// of memory those are pushed that the hub took. It waits for the hub.
    pub fn push<R: Wait>(&mut self, rt: &R, book: &Book<Hub>, most: u32) -> Result<u32, Memory>
        requires { self.old.pass.book ≡ book.now.id }
        ensures same { self.new ≡ record self.old { pass = self.new.pass; unpushed = self.new.unpushed } }
        ensures pass { IsSamePass self.old.pass self.new.pass }
        ensures holds { self.new.pass.holds ≡ self.old.pass.holds + 1 }
        ensures seen { IsPrefixOf (seen_by self.old.pass) (seen_by self.new.pass) }
        ensures own { made_in self.new.pass ++ self.new.unpushed ≡ made_in self.old.pass ++ self.old.unpushed }
        ensures count { IfOk result (λ n. length self.old.unpushed ≡ n + length self.new.unpushed) }
        ensures all { IfOk result (λ n. n ≡ min most (length self.old.unpushed)) }
    {
        let Some(pass) = self.pass.take() else {
            unreachable!()
        };
        let (pass, seen, pushed) = holds::push(rt, book, pass, self.site, &mut self.unpushed, most);
        self.pass = Some(pass);
        self.seen = seen;
        pushed
    }

    /// Takes entries of the history, at most so many, and answers how many. After want of memory those
    /// are taken that came before. It waits for the hub.
    pub fn pull<R: Wait>(&mut self, rt: &R, book: &Book<Hub>, most: u32) -> Result<u32, Memory>
        requires { self.old.pass.book ≡ book.now.id }
        ensures same { self.new ≡ record self.old { pass = self.new.pass; client = self.new.client } }
        ensures pass { IsSamePass self.old.pass self.new.pass }
        ensures holds { self.new.pass.holds ≡ self.old.pass.holds + 1 }
        ensures seen { IsPrefixOf (seen_by self.old.pass) (seen_by self.new.pass) }
        ensures made { self.new.pass.made ≡ self.old.pass.made }
        ensures ok { IfOk result (λ n. HasTakenMore n self.old.client self.new.client) }
        ensures all { IfOk result (λ n. n ≡ min most (length (seen_by self.new.pass) - self.old.client.taken)) }
        ensures none { IfOk result (λ n. (n ≡ 0) ↔ ((most ≡ 0) ⊎ (self.old.client.taken ≡ length (seen_by self.new.pass)))) }
        ensures err { OnErr result ((n : ℕ) × (n ≤ most) × HasTakenMore n self.old.client self.new.client) }
    {
        let from = self.taken();
        let Some(pass) = self.pass.take() else {
            unreachable!()
        };
        let (pass, seen, downs) = holds::fetch(rt, book, pass, self.site, from, most);
        self.pass = Some(pass);
        self.seen = seen;
        let downs = downs?;
        take_all(&mut self.client, downs.as_slice())?;
        Ok(downs.len() as u32)
    }

    /// Pushes all own entries, and answers a length that no later read is below, with all that was
    /// pushed so far in that front of the history. After want of memory the pushes stand as after
    /// `push`. It waits for the hub, and for the teller.
    pub fn sync<R: Threads + Wait + Sync, T: Teller>(
        &mut self,
        rt: &R,
        book: &Book<Hub>,
        desk: &T,
    ) -> Result<u32, Memory>
        requires book { self.old.pass.book ≡ book.now.id }
        requires has { T.has desk.now self.old.client.site }
        requires store { T.stores desk.now self.old.client.site ≡ self.old.reader.store }
        ensures same { self.new ≡ record self.old { pass = self.new.pass; unpushed = self.new.unpushed; reader = self.new.reader } }
        ensures pass { IsSamePass self.old.pass self.new.pass }
        ensures holds { self.new.pass.holds ≡ self.old.pass.holds + 1 }
        ensures seen { IsPrefixOf (seen_by self.old.pass) (seen_by self.new.pass) }
        ensures own { made_in self.new.pass ++ self.new.unpushed ≡ made_in self.old.pass ++ self.old.unpushed }
        ensures all { OnOk result (self.new.unpushed ≡ []) }
        ensures length { IfOk result (λ n. length (seen_by self.new.pass) ≤ n) }
        ensures reader { (self.new.reader.store ≡ self.old.reader.store) × IsPrefixOf self.old.reader.known self.new.reader.known }
        ensures told { IfOk result (λ n. (told : List Published) × IsPrefixOf told self.new.reader.known × (n ≡ upto_from 0 told)) }
        ensures later { IfOk result (λ n. n ≤ upto_from 0 self.new.reader.known) }
        ensures rises { upto_from 0 self.old.reader.known ≤ upto_from 0 self.new.reader.known }
    {
        self.push(rt, book, u32::MAX)?;
        let seen = self.seen();
        let told = desk.tell(rt, self.site, seen)?;
        let length = told.length();
        self.reader.learn(told);
        Ok(length)
    }

    /// Reads published values of a range of the visible sheet, none older than what was read or learnt
    /// before. It never waits. `NoEntry` comes only where the reader's count of entries that weren't had
    /// rose, and nothing was read then; `OutOfSheet` comes exactly where a corner is outside the visible
    /// sheet that was read. That, and what was seen before want of memory, counts as read.
    pub fn read(&mut self, span: &Span) -> Result<View, ReadErr>
        ensures same { self.new ≡ record self.old { reader = self.new.reader; read_length = self.new.read_length } }
        ensures store { self.new.reader.store ≡ self.old.reader.store }
        ensures kept { IsPrefixOf self.old.reader.known self.new.reader.known }
        ensures ok { IfOk result (λ v. v ≡ view_of_range (known_snapshot self.new.reader) span.now) }
        ensures never_older { IfOk result (λ v. upto_from 0 self.old.reader.known ≤ v.length) }
        ensures within { OnOk result (IsWithin (known_snapshot self.new.reader) span.now) }
        ensures outside { IsOutside result → ¬ IsWithin (known_snapshot self.new.reader) span.now }
        ensures no_entry { IsNoEntry result → Rose self.old.reader.refused self.new.reader.refused × (self.new.reader.known ≡ self.old.reader.known) }
        ensures length { IfOk result (λ v. self.new.read_length ≡ v.length) }
        ensures outside_length { IsOutside result → self.new.read_length ≡ upto_from 0 self.new.reader.known }
        ensures outside_later { IsOutside result → upto_from 0 self.old.reader.known ≤ self.new.read_length }
    {
        let read = self.reader.read(span);
        match &read {
            Ok(view) => self.read_length = view.length,
            Err(ReadErr::OutOfSheet) => self.read_length = self.reader.length(),
            Err(_) => {}
        }
        read
    }

    /// How many entries of the history it has taken. It takes no memory.
    pub fn taken(&self) -> u32
        ensures taken { result ≡ self.now.client.taken }
        ensures stands { ReplicaStands self.now.client self.now.pass self.now.unpushed }
    {
        let _site = self.site;
        self.client.taken()
    }

    /// How long the history is that its pass has seen. It takes no memory.
    pub fn seen(&self) -> u32
        ensures { result ≡ length (seen_by self.now.pass) }
    {
        self.seen
    }

    /// How far the values go that it read last, or found a range outside of; 0 before it did. It takes no
    /// memory.
    pub fn read_length(&self) -> u32
        ensures { result ≡ self.now.read_length }
    {
        self.read_length
    }

    /// Marks the site as ended in the hub. It waits for the hub, and takes no memory.
    pub fn announce_end<R: Wait>(&mut self, rt: &R, book: &Book<Hub>)
        requires { self.old.pass.book ≡ book.now.id }
        ensures same { self.new ≡ record self.old { pass = self.new.pass } }
        ensures pass { IsSamePass self.old.pass self.new.pass }
        ensures holds { self.new.pass.holds ≡ self.old.pass.holds + 1 }
        ensures seen { IsPrefixOf (seen_by self.old.pass) (seen_by self.new.pass) }
        ensures made { self.new.pass.made ≡ self.old.pass.made }
    {
        let Some(pass) = self.pass.take() else {
            unreachable!()
        };
        let (pass, seen) = holds::end(rt, book, pass, self.site);
        self.pass = Some(pass);
        self.seen = seen;
    }

    /// Its replica, its pass and its reader. It takes no memory.
    pub fn finish(self) -> Ended
        ensures own { (result.client ≡ self.client) × (result.pass ≡ self.pass) × (result.reader ≡ self.reader) }
        ensures stands { ReplicaStands result.client result.pass self.unpushed }
    {
        let Session {
            client,
            pass,
            reader,
            ..
        } = self;
        Ended {
            client,
            pass: pass.unwrap(),
            reader,
        }
    }
}
