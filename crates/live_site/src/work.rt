ghost use Rattle.std.specs.Prelude.{◌≡◌, ◌≤◌, ◌<◌, ℕ, List, [], ◌∷◌, ◌++◌, OnOk};
ghost use Rattle.script_read.specs.Commands.{EditWithin};
ghost use Rattle.value_snap.specs.Views.{store_size};
ghost use Rattle.live_script.specs.declared.script.Action.TheVariants as action;
ghost use Rattle.live_script.specs.SoFar.{ActionWithin};
ghost use Rattle.live_site.specs.Lines.{SessionGoesOn, DidLine};

use crate::reading::read_text;
use hub::Hub;
use live_record::{Note, NoteKind};
use live_script::{Action, SiteLine};
use live_session::Session;
use sheet_ops::Edit;
use sheet_text::answer_text;
use ss_base::{Memory, Seq, Span, Txt};
use std::sync::Wait;
use std::thread::Threads;
use turn_book::Book;
use value_snap::Teller;

/// A site at work: its session, and what it noted and logged of the lines that it has done.
#[derive(Drop)]
pub struct Work {
    pub session: Session,
    pub notes: Seq<Note>,
    pub log: Vec<u8>,
}

impl Work {
    /// Does a line of the site of this name, and notes and logs it. After want of memory the session is
    /// as its call left it, and the line may have no note.
    pub fn do_line<R: Threads + Wait + Sync, T: Teller>(
        &mut self,
        rt: &R,
        name: &Txt,
        line: &SiteLine,
        book: &Book<Hub>,
        teller: &T,
    ) -> Result<(), Memory>
        requires within { ActionWithin line.now.action }
        requires book { self.old.session.pass.book ≡ book.now.id }
        requires has { T.has teller.now self.old.session.client.site }
        requires store { T.stores teller.now self.old.session.client.site ≡ self.old.session.reader.store }
        requires size { store_size self.old.session.reader.store ≡ self.old.session.client.size }
        ensures goes_on { SessionGoesOn self.old.session self.new.session }
        ensures did { OnOk result (DidLine name.now line.now self.old self.new) }
    {
        match &line.action {
            Action::Edit(edit) => self.edit(line.number, edit),
            Action::Push(count) => self.push(rt, line.number, *count, book),
            Action::Pull(count) => self.pull(rt, line.number, *count, book),
            Action::Sync => self.sync(rt, line.number, book, teller),
            Action::Read(range) => self.read(rt, line.number, name, range),
        }
    }

    /// Does an edit, and logs its refusal.
    fn edit(&mut self, number: u32, edit: &Edit) -> Result<(), Memory>
        requires { EditWithin 4096 edit.now }
        ensures goes_on { SessionGoesOn self.old.session self.new.session }
        ensures did { (name : List ℕ) → OnOk result (DidLine name (record { number = number; action = action.Edit edit.now }) self.old self.new) }
    {
        let _taken = self.session.taken();
        let answer = self.session.edit(edit);
        let text = answer_text(*self.log.allocator(), number, answer)?;
        self.write(&text)
    }

    /// Pushes own entries, all or at most so many.
    fn push<R: Wait>(
        &mut self,
        rt: &R,
        number: u32,
        count: Option<u32>,
        book: &Book<Hub>,
    ) -> Result<(), Memory>
        requires { self.old.session.pass.book ≡ book.now.id }
        ensures goes_on { SessionGoesOn self.old.session self.new.session }
        ensures did { (name : List ℕ) → OnOk result (DidLine name (record { number = number; action = action.Push count }) self.old self.new) }
    {
        self.session.push(rt, book, count.unwrap_or(u32::MAX))?;
        let _taken = self.session.taken();
        let seen = self.session.seen();
        self.note(number, NoteKind::Pushed, seen)
    }

    /// Takes entries of the history, all or at most so many.
    fn pull<R: Wait>(
        &mut self,
        rt: &R,
        number: u32,
        count: Option<u32>,
        book: &Book<Hub>,
    ) -> Result<(), Memory>
        requires { self.old.session.pass.book ≡ book.now.id }
        ensures goes_on { SessionGoesOn self.old.session self.new.session }
        ensures did { (name : List ℕ) → OnOk result (DidLine name (record { number = number; action = action.Pull count }) self.old self.new) }
    {
        self.session.pull(rt, book, count.unwrap_or(u32::MAX))?;
        let _seen = self.session.seen();
        let taken = self.session.taken();
        self.note(number, NoteKind::Taken, taken)
    }

    /// Pushes all, and learns of values that reach as far.
    fn sync<R: Threads + Wait + Sync, T: Teller>(
        &mut self,
        rt: &R,
        number: u32,
        book: &Book<Hub>,
        teller: &T,
    ) -> Result<(), Memory>
        requires book { self.old.session.pass.book ≡ book.now.id }
        requires has { T.has teller.now self.old.session.client.site }
        requires store { T.stores teller.now self.old.session.client.site ≡ self.old.session.reader.store }
        ensures goes_on { SessionGoesOn self.old.session self.new.session }
        ensures did { (name : List ℕ) → OnOk result (DidLine name (record { number = number; action = action.Sync }) self.old self.new) }
    {
        let length = self.session.sync(rt, book, teller)?;
        let _taken = self.session.taken();
        self.note(number, NoteKind::Synced, length)
    }

    /// Reads the values of a range, and logs them or the refusal.
    fn read<R: Wait>(&mut self, rt: &R, number: u32, name: &Txt, range: &Span) -> Result<(), Memory>
        requires last_row { range.now.bottom < 9999999 }
        requires last_col { range.now.right < 18278 }
        requires rows { range.now.top ≤ range.now.bottom }
        requires cols { range.now.left ≤ range.now.right }
        requires size { store_size self.old.session.reader.store ≡ self.old.session.client.size }
        ensures goes_on { SessionGoesOn self.old.session self.new.session }
        ensures did { OnOk result (DidLine name.now (record { number = number; action = action.Read range.now }) self.old self.new) }
    {
        let text = read_text(
            rt,
            *self.log.allocator(),
            &mut self.session,
            number,
            name,
            range,
        )?;
        let length = self.session.read_length();
        self.write(&text)?;
        self.note(number, NoteKind::Read, length)
    }

    /// Notes a line.
    fn note(&mut self, line: u32, kind: NoteKind, length: u32) -> Result<(), Memory>
        ensures same { (self.new.session ≡ self.old.session) × (self.new.log.items ≡ self.old.log.items) }
        ensures ok { OnOk result (self.new.notes ≡ self.old.notes ++ record { line = line; kind = kind; length = length } ∷ []) }
    {
        self.notes.push(Note { line, kind, length })
    }

    /// Logs a text.
    fn write(&mut self, text: &Txt) -> Result<(), Memory>
        ensures same { (self.new.session ≡ self.old.session) × (self.new.notes ≡ self.old.notes) }
        ensures ok { OnOk result (self.new.log.items ≡ self.old.log.items ++ text.now) }
    {
        self.log.extend_from_slice(text.bytes())?;
        Ok(())
    }
}
