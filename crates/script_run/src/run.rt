ghost use Rattle.std.specs.Prelude.{◌≡◌, ◌≢◌, ◌≤◌, ◌<◌, ◌-◌, ◌+◌, ◌⊎◌, [], ◌∷◌, ◌++◌, length, map, Some, None, Ok, Err, IfOk, OnOk, OnErr, IfErr, ℕ, is_some, true, false};
ghost use Rattle.sheet_ops.specs.declared.operation.Intent.{Intent};
ghost use Rattle.sheet_ops.specs.History.{sheet_of};
ghost use Rattle.sheet_ops.specs.Placed.{placed};
ghost use Rattle.sheet_grid.specs.Values.{placed_in};
ghost use Rattle.script_read.specs.declared.command.Command.TheVariants as command;
ghost use Rattle.script_read.specs.Commands.{EditWithin};
ghost use Rattle.script_run.specs.World.{no_world, new_seat, seat_index, place_in, seat_at, site_view, decided, after_decided, at_most, pushed, pulled, recalculated, synced, reading, each_pushed, each_pulled, pushed_up_to, pulled_up_to, after_command};
ghost use Rattle.sheet_text.specs.Operations.{history_text, wire_text};
ghost use Rattle.sheet_text.specs.Values.{all_text, range_values_text};
ghost use Rattle.script_run.specs.Transcript.{effects, site_names, published_values, show_text, server_text, printed};
ghost use Rattle.script_run.specs.Places.{with_place};
ghost use Rattle.script_run.specs.Rooms.{RoomRepresents};
ghost use Rattle.script_run.specs.States.{MayStep, closes};

use crate::deliver::{deliver, hand_in};
use crate::issue::issue;
use crate::places::Places;
use crate::published::PublishedSheet;
use crate::room::Room;
use crate::seat::Seat;
use jup_client::Client;
use jup_server::Server;
use script_read::Command;
use sheet_grid::Sheet;
use sheet_ops::{Edit, EditErr, Effect, Entry};
use sheet_text::{answer_text, head, history_lines, nothing, server_head, sheet_lines, wire_lines};
use sheet_value::Grid;
use ss_base::{Memory, Seq, Site, Size, Span, Txt};
use std::alloc::Global;
use std::marker::Model;

/// The history of a run, what its sites have, the room that represents them, which is a client for each
/// site and one server, and what is published. Sites go by their places, counted from 0 in the order in which they were added.
#[derive(Debug, Drop)]
pub struct Run {
    size: Size,
    history: Vec<Entry>,
    /// What each entry of the history does, as it goes to every site but its author's.
    effects: Vec<Effect>,
    seats: Vec<Seat>,
    /// Where each name stands among the seats.
    places: Places,
    server: Server,
    clients: Vec<Client>,
    published: PublishedSheet,
}

impl Model for Run {
    ghost use Rattle.std.specs.Coded.{codes};
    ghost use Rattle.sheet_ops.specs.contracts.operation.Entry as entry;
    ghost use Rattle.script_run.specs.World.{World};
    ghost use Rattle.script_run.specs.Runs.{RunStands};

    ghost Value = { World };

    ghost coded = { Prim.hlevel (codes, entry.the_row.coded) };

    ghost view = { λ r. record { size = r.size; history = r.history.items; published = r.published.length; seats = r.seats.items } };

    ghost invariant = { λ r. RunStands (record { size = r.size; history = r.history.items; published = r.published.length; seats = r.seats.items })
        r.effects.items (record { server = r.server; clients = r.clients.items }) r.published r.places };
}

impl Run {
    /// Opens a sheet of a size. There is no site yet, and the server is for one.
    pub fn open(alloc: Global, size: Size) -> Result<Run, Memory>
        requires rows { size.rows ≤ 1000 }
        requires cols { size.cols ≤ 64 }
        ensures { IfOk result (λ r. r ≡ record no_world { size = size }) }
    {
        let server = Server::new(alloc, size, 1)?;
        let published = PublishedSheet::new(alloc, size)?;
        Ok(Run {
            size,
            history: Vec::new(alloc),
            effects: Vec::new(alloc),
            seats: Vec::new(alloc),
            places: Places::new(alloc),
            server,
            clients: Vec::new(alloc),
            published,
        })
    }

    /// How many sites there are.
    pub fn sites(&self) -> usize
        ensures sites { result ≡ length self.now.seats }
        ensures most { result ≤ 8 }
    {
        let _size = self.size;
        self.seats.len()
    }

    /// The place of the site with this name, if there is one. It takes constant time on the average, beside
    /// the time for the bytes of the name.
    pub fn place_of(&self, name: &Txt) -> Option<usize>
        ensures { result ≡ place_in self.now.seats name.now }
    {
        self.places.get(name)
    }

    /// The number of the site at a place.
    fn site_at(&self, place: usize) -> Site
        requires { place < length self.now.seats }
        ensures { result.0 ≡ place + 1 }
    {
        let _size = self.size;
        Site(place as u8 + 1)
    }

    /// Adds a site, before there is an entry in the history: the server begins anew, for one more. A
    /// refused call leaves the run.
    pub fn add_site(&mut self, alloc: Global, name: &Txt) -> Result<(), Memory>
        requires few { length self.old.seats < 8 }
        requires new { self.old.history ≡ [] }
        ensures ok { OnOk result (self.new ≡ record self.old { seats = self.old.seats ++ new_seat name.now ∷ [] }) }
        ensures err { OnErr result (self.new ≡ self.old) }
    {
        let sites = self.seats.len() as u8 + 1;
        let server = Server::new(alloc, self.size, sites)?;
        let client = Client::new(alloc, Site(sites), self.size)?;
        add_seat(
            alloc,
            &mut self.seats,
            &mut self.places,
            &mut self.clients,
            name,
            client,
        )?;
        self.server = server;
        Ok(())
    }

    /// Does an edit of a site at once. A refused edit leaves the run.
    pub fn edit(&mut self, alloc: Global, place: usize, edit: &Edit) -> Result<(), EditErr>
        requires place { place < length self.old.seats }
        requires short { EditWithin 4096 edit.now }
        ensures ok { OnOk result ((op : Intent) × (decided self.old place edit.now ≡ Ok op) × (self.new ≡ after_decided self.old place (Ok op))) }
        ensures err { OnErr result (self.new ≡ self.old) }
        ensures cause { IfErr result (λ e. e ≢ EditErr.Memory → decided self.old place edit.now ≡ Err e) }
    {
        let site = self.site_at(place);
        let seat = &mut self.seats[place];
        let client = &mut self.clients[place];
        issue(alloc, site, seat, client, edit)
    }

    /// Puts the next own entry of a site at the end of the history. A refused call leaves the run.
    pub fn push_one(&mut self, place: usize) -> Result<(), Memory>
        requires place { place < length self.old.seats }
        requires more { (seat_at self.old place).pushed < length (seat_at self.old place).made }
        ensures ok { OnOk result (self.new ≡ pushed self.old place (Some 1)) }
        ensures err { OnErr result (self.new ≡ self.old) }
    {
        let site = self.site_at(place);
        let seat = &mut self.seats[place];
        self.history.reserve(1)?;
        self.effects.reserve(1)?;
        let (entry, effect) = hand_in(&mut self.server, site, seat)?;
        self.history.push_reserved(entry);
        self.effects.push_reserved(effect);
        seat.pushed += 1;
        Ok(())
    }

    /// Takes the next entry of the history at a site. A refused call leaves the run.
    pub fn pull_one(&mut self, place: usize) -> Result<(), Memory>
        requires place { place < length self.old.seats }
        requires more { (seat_at self.old place).taken < length self.old.history }
        ensures ok { OnOk result (self.new ≡ pulled self.old place (Some 1)) }
        ensures err { OnErr result (self.new ≡ self.old) }
    {
        let site = self.site_at(place);
        let seat = &mut self.seats[place];
        let client = &mut self.clients[place];
        let history = self.history.as_slice();
        let effects = self.effects.as_slice();
        deliver(client, site, history, effects)?;
        seat.taken += 1;
        Ok(())
    }

    /// How many own entries of a site are not in the history.
    fn unpushed(&self, place: usize) -> usize
        requires { place < length self.now.seats }
        ensures { result ≡ length (seat_at self.now place).made - (seat_at self.now place).pushed }
    {
        let _size = self.size;
        let seat = &self.seats[place];
        seat.made.len() - seat.pushed as usize
    }

    /// How many entries of the history a site has not taken.
    fn untaken(&self, place: usize) -> usize
        requires { place < length self.now.seats }
        ensures { result ≡ length self.now.history - (seat_at self.now place).taken }
    {
        let _size = self.size;
        let seat = &self.seats[place];
        self.history.len() - seat.taken as usize
    }

    /// Pushes own entries of a site, all or at most so many. After a refused call those that the server
    /// took are pushed.
    pub fn push(&mut self, place: usize, most: Option<u32>) -> Result<(), Memory>
        requires { place < length self.old.seats }
        ensures ok { OnOk result (self.new ≡ pushed self.old place most) }
        ensures err { OnErr result ((k : ℕ) × (self.new ≡ pushed self.old place (Some k))) }
    {
        let count = limited(most, self.unpushed(place));
        for _i in 0..count {
            self.push_one(place)?;
        }
        Ok(())
    }

    /// Takes entries of the history at a site, all or at most so many. After a refused call those that the
    /// client took are taken.
    pub fn pull(&mut self, place: usize, most: Option<u32>) -> Result<(), Memory>
        requires { place < length self.old.seats }
        ensures ok { OnOk result (self.new ≡ pulled self.old place most) }
        ensures err { OnErr result ((k : ℕ) × (self.new ≡ pulled self.old place (Some k))) }
    {
        let count = limited(most, self.untaken(place));
        for _i in 0..count {
            self.pull_one(place)?;
        }
        Ok(())
    }

    /// Pushes all, site by site in the order in which they were added. After a refused call the sites
    /// before one of them have pushed all, and that one what the server took.
    pub fn push_all(&mut self) -> Result<(), Memory>
        ensures ok { OnOk result (self.new ≡ each_pushed self.old) }
        ensures err { OnErr result ((place count : ℕ) × (place < length self.old.seats) × (self.new ≡ pushed_up_to self.old place count)) }
    {
        for place in 0..self.sites() {
            self.push(place, None)?;
        }
        Ok(())
    }

    /// Pulls all, site by site in the order in which they were added. After a refused call the sites
    /// before one of them have taken all, and that one what its client took.
    pub fn pull_all(&mut self) -> Result<(), Memory>
        ensures ok { OnOk result (self.new ≡ each_pulled self.old) }
        ensures err { OnErr result ((place count : ℕ) × (place < length self.old.seats) × (self.new ≡ pulled_up_to self.old place count)) }
    {
        for place in 0..self.sites() {
            self.pull(place, None)?;
        }
        Ok(())
    }

    /// Publishes the next entry of the history. A refused call leaves the run.
    fn publish_one(&mut self) -> Result<(), Memory>
        requires { self.old.published < length self.old.history }
        ensures ok { OnOk result (self.new ≡ recalculated self.old (Some 1)) }
        ensures err { OnErr result (self.new ≡ self.old) }
    {
        let effect = &self.effects[self.published.length as usize];
        self.published.advance(effect)
    }

    /// How many entries of the history aren't published.
    fn unpublished(&self) -> usize
        ensures { result ≡ length self.now.history - self.now.published }
    {
        self.history.len() - self.published.length as usize
    }

    /// Publishes the rest of the history, all of it or at most so many entries. After a refused call those
    /// are published that were done.
    pub fn recalc(&mut self, most: Option<u32>) -> Result<(), Memory>
        ensures ok { OnOk result (self.new ≡ recalculated self.old most) }
        ensures err { OnErr result ((k : ℕ) × (self.new ≡ recalculated self.old (Some k))) }
    {
        let count = limited(most, self.unpublished());
        for _i in 0..count {
            self.publish_one()?;
        }
        Ok(())
    }

    /// Pushes all own entries of a site, and then publishes the rest of the history. After a refused call
    /// what the server took is pushed, and where that was all, so many entries are published.
    pub fn sync(&mut self, place: usize) -> Result<(), Memory>
        requires { place < length self.old.seats }
        ensures ok { OnOk result (self.new ≡ synced self.old place) }
        ensures err { OnErr result ((k : ℕ) × ((self.new ≡ pushed self.old place (Some k)) ⊎ (self.new ≡ recalculated (pushed self.old place None) (Some k)))) }
    {
        self.push(place, None)?;
        self.recalc(None)
    }

    /// The text of all published values. They are evaluated in full where they weren't since the last
    /// entry was published.
    pub fn values(&mut self, alloc: Global) -> Result<Txt, Memory>
        ensures text { IfOk result (λ t. t ≡ all_text self.old.published (published_values self.old)) }
        ensures same { self.new ≡ self.old }
    {
        self.published.all_text(alloc)
    }

    /// What a site reads of the published values in a range, by its name and the number of the line.
    pub fn read(
        &mut self,
        alloc: Global,
        number: u32,
        name: &Txt,
        range: &Span,
    ) -> Result<Txt, Memory>
        requires { MayStep self.old (command.Read name.now range.now) }
        ensures ok { IfOk result (λ t. (t ≡ printed self.old number (command.Read name.now range.now)) × (self.new ≡ after_command self.old (command.Read name.now range.now))) }
        ensures err { OnErr result (self.new ≡ self.old) }
    {
        let place = self.place(name);
        let text = self.published.range_text(alloc, number, name, range)?;
        let seat = &mut self.seats[place];
        seat.read = self.published.length;
        Ok(text)
    }

    /// The text of the sheet that a site sees.
    pub fn show(&self, alloc: Global, place: usize) -> Result<Txt, Memory>
        requires { place < length self.now.seats }
        ensures { IfOk result (λ t. t ≡ show_text self.now place) }
    {
        let seat = &self.seats[place];
        let client = &self.clients[place];
        let head = head(
            alloc,
            &seat.name,
            seat.taken,
            client.pending(),
            client.sheet(),
        )?;
        sheet_lines(alloc, &head, client.sheet())
    }

    /// The text of the server's sheet.
    pub fn show_server(&self, alloc: Global) -> Result<Txt, Memory>
        ensures { IfOk result (λ t. t ≡ server_text self.now) }
    {
        let head = server_head(alloc, self.server.count(), self.server.sheet())?;
        sheet_lines(alloc, &head, self.server.sheet())
    }

    /// The text of the history, each operation as its author issued it. It takes time with the text.
    pub fn history(&self, alloc: Global) -> Result<Txt, Memory>
        ensures { IfOk result (λ t. t ≡ history_text (site_names self.now) self.now.history) }
    {
        let names = names_of(alloc, self.seats.as_slice())?;
        history_lines(alloc, names.as_slice(), self.history.as_slice())
    }

    /// The text of what the entries of the history did, each as the server applied it. It takes time
    /// with the text.
    pub fn wire(&self, alloc: Global) -> Result<Txt, Memory>
        ensures { IfOk result (λ t. t ≡ wire_text (effects self.now.size self.now.history)) }
    {
        wire_lines(alloc, self.effects.as_slice())
    }

    /// Does an edit of a site, and gives what is printed of it by the number of its line.
    fn edited(&mut self, alloc: Global, number: u32, name: &Txt, edit: &Edit) -> Result<Txt, Memory>
        requires { MayStep self.old (command.Edit name.now edit.now) }
        ensures { IfOk result (λ t. (t ≡ printed self.old number (command.Edit name.now edit.now)) × (self.new ≡ after_command self.old (command.Edit name.now edit.now))) }
    {
        let place = self.place(name);
        let answer = self.edit(alloc, place, edit);
        answer_text(alloc, number, answer)
    }

    /// The place of a site that is there.
    fn place(&self, name: &Txt) -> usize
        requires { is_some (place_in self.now.seats name.now) ≡ true }
        ensures place { result ≡ seat_index self.now name.now }
        ensures within { result < length self.now.seats }
    {
        match self.place_of(name) {
            Some(place) => place,
            None => unreachable!(),
        }
    }

    /// Does a command, and gives what it prints by the number of its line. A refused call leaves the run
    /// where it wanted memory for a site; else the pushes, the pulls and the publishing that were done stand.
    pub fn step(&mut self, alloc: Global, number: u32, command: &Command) -> Result<Txt, Memory>
        requires { MayStep self.old command.now }
        ensures ok { IfOk result (λ t. (t ≡ printed self.old number command.now) × (self.new ≡ after_command self.old command.now)) }
        ensures err { OnErr result (closes command.now ≡ false → self.new ≡ self.old) }
    {
        match command {
            Command::Note | Command::End => Ok(nothing(alloc)),
            Command::Sheet(_) => unreachable!(),
            Command::Site(name) => {
                self.add_site(alloc, name)?;
                Ok(nothing(alloc))
            }
            Command::Edit(name, edit) => self.edited(alloc, number, name, edit),
            Command::Push(name, count) => {
                self.push(self.place(name), *count)?;
                Ok(nothing(alloc))
            }
            Command::Pull(name, count) => {
                self.pull(self.place(name), *count)?;
                Ok(nothing(alloc))
            }
            Command::PushAll => {
                self.push_all()?;
                Ok(nothing(alloc))
            }
            Command::PullAll => {
                self.pull_all()?;
                Ok(nothing(alloc))
            }
            Command::Sync(name) => {
                self.sync(self.place(name))?;
                Ok(nothing(alloc))
            }
            Command::Recalc(count) => {
                self.recalc(*count)?;
                Ok(nothing(alloc))
            }
            Command::Read(name, range) => self.read(alloc, number, name, range),
            Command::Values => self.values(alloc),
            Command::History => self.history(alloc),
            Command::Wire => self.wire(alloc),
            Command::Show(name) => self.show(alloc, self.place(name)),
            Command::ShowServer => self.show_server(alloc),
        }
    }

    /// How many entries the history has.
    pub fn length(&self) -> usize
        ensures { result ≡ length self.now.history }
    {
        let _size = self.size;
        self.history.len()
    }

    /// How many entries are published.
    pub fn published_length(&self) -> u32
        ensures { result ≡ self.now.published }
    {
        self.published.length
    }

    /// The values of what is published, evaluated anew. It takes the time of a full evaluation.
    pub fn evaluated(&self, alloc: Global) -> Result<Grid, Memory>
        ensures { IfOk result (λ g. g ≡ published_values self.now) }
    {
        self.published.evaluated(alloc)
    }

    /// The server's sheet: that of the history.
    pub fn server_sheet(&self) -> &Sheet
        ensures { placed_in result.now ≡ placed (sheet_of self.now.size self.now.history) }
    {
        let _size = self.size;
        self.server.sheet()
    }

    /// The sheet that the site at a place sees.
    pub fn replica(&self, place: usize) -> &Sheet
        requires { place < length self.now.seats }
        ensures { placed_in result.now ≡ placed (site_view self.now place) }
    {
        let client = &self.clients[place];
        client.sheet()
    }

    /// The server and the clients, as the run leaves them. It takes no memory.
    pub fn into_room(self) -> Room
        ensures { RoomRepresents self result }
    {
        Room {
            server: self.server,
            clients: Seq::from_vec(self.clients),
        }
    }
}

/// Gives a new site its seat and its client, and its name the place of that seat, unless the name has a
/// place. A refused call leaves all three.
fn add_seat(
    alloc: Global,
    seats: &mut Vec<Seat>,
    places: &mut Places,
    clients: &mut Vec<Client>,
    name: &Txt,
    client: Client,
) -> Result<(), Memory>
    ensures seats { OnOk result (seats.new.items ≡ seats.old.items ++ new_seat name.now ∷ []) }
    ensures places { OnOk result (places.new ≡ with_place places.old name.now (length seats.old.items)) }
    ensures clients { OnOk result (clients.new.items ≡ clients.old.items ++ client ∷ []) }
    ensures err { OnErr result ((seats.new.items ≡ seats.old.items) × (places.new ≡ places.old) × (clients.new.items ≡ clients.old.items)) }
{
    seats.reserve(1)?;
    clients.reserve(1)?;
    let kept = name.copy()?;
    places.add(name, seats.len())?;
    clients.push_reserved(client);
    seats.push_reserved(Seat {
        name: kept,
        made: Seq::new(alloc),
        pushed: 0,
        taken: 0,
        read: 0,
    });
    Ok(())
}

/// The names of seats, in their order.
fn names_of(alloc: Global, seats: &[Seat]) -> Result<Vec<Txt>, Memory>
    ensures { IfOk result (λ v. v.items ≡ map (λ s. s.name) seats.now) }
{
    let mut names = Vec::new(alloc);
    for seat in seats {
        names.push(seat.name.copy()?)?;
    }
    Ok(names)
}

/// A number that is asked for, or all that is left.
fn limited(most: Option<u32>, left: usize) -> usize
    ensures { result ≡ at_most most left }
{
    match most {
        None => left,
        Some(most) => left.min(most as usize),
    }
}
