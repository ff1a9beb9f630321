ghost use Rattle.std.specs.Prelude.{◌≡◌, ◌≤◌, ◌||◌, Bool, true, is_some, nat_lt, IfOk, Some, None, length};
ghost use Rattle.script_read.specs.declared.command.Command.TheVariants as command;
ghost use Rattle.script_read.specs.Script.{fault_of, is_declared, without_site};
ghost use Rattle.script_read.specs.Commands.{CommandWithin};
ghost use Rattle.script_run.specs.States.{first_table, run_state_of, CommandGives, TurnGives, StepGives, run_opened, closes, is_end};
ghost use Rattle.script_run.specs.World.{place_in};
ghost use Rattle.script_run.specs.Rooms.{RoomRepresents};

use crate::room::Room;
use crate::run::Run;
use script_read::{Command, LineFault, ScriptErr, ScriptKind, read_command};
use sheet_text::nothing;
use ss_base::{Memory, Txt};
use std::alloc::Global;
use std::marker::Model;

/// What a line came to.
#[derive(Debug, Drop)]
pub enum Outcome {
    /// The script goes on, and this is printed.
    Goes(Txt),
    /// The script ended.
    Ended,
    /// The line was refused.
    Refused(ScriptErr),
}

/// What the lines of a script have declared so far, and the run that they made.
#[derive(Debug, Drop)]
pub struct ScriptState {
    /// There is none before the `sheet` line.
    run: Option<Run>,
    /// Whether a line was read behind which no site may be declared.
    closed: bool,
}

impl Model for ScriptState {
    ghost use Rattle.std.specs.Coded.{codes};
    ghost use Rattle.sheet_ops.specs.contracts.operation.Entry as entry;
    ghost use Rattle.script_run.specs.States.{RunState, run_state_of, IsState};

    ghost Value = { RunState };

    ghost coded = { Prim.hlevel (codes, entry.the_row.coded) };

    ghost view = { λ s. run_state_of s.run s.closed };

    ghost invariant = { λ s. IsState s.run s.closed };
}

impl ScriptState {
    /// Nothing is declared yet. It takes no memory.
    pub fn new() -> ScriptState
        ensures { result ≡ first_table }
    {
        ScriptState {
            run: None,
            closed: false,
        }
    }

    /// Does what the line with this number says. A line that ends the script, or is refused, leaves the
    /// state.
    pub fn turn(&mut self, alloc: Global, number: u32, line: &[u8]) -> Result<Outcome, Memory>
        requires { length line.now ≤ 4096 }
        ensures { IfOk result (λ o. TurnGives self.old self.new number line.now o) }
    {
        match read_command(alloc, line) {
            Ok(command) => self.command(alloc, number, &command),
            Err(LineFault::Grammar) => Ok(Outcome::Refused(ScriptErr {
                line: number,
                kind: ScriptKind::Grammar,
            })),
            Err(LineFault::Memory) => Err(Memory),
        }
    }

    /// Does what a command on the line with this number says.
    pub fn command(
        &mut self,
        alloc: Global,
        number: u32,
        command: &Command,
    ) -> Result<Outcome, Memory>
        requires { CommandWithin 4096 command.now }
        ensures { IfOk result (λ o. CommandGives self.old self.new number command.now o) }
    {
        if let Some(kind) = self.fault_of(command) {
            return Ok(Outcome::Refused(ScriptErr { line: number, kind }));
        }
        if is_end(command) {
            return Ok(Outcome::Ended);
        }
        let text = self.step(alloc, number, command)?;
        Ok(Outcome::Goes(text))
    }

    /// The first kind of fault that fits a command, if one does.
    fn fault_of(&self, command: &Command) -> Option<ScriptKind>
        ensures { result ≡ fault_of self.now.declared command.now }
    {
        match &self.run {
            None => fault_unopened(command),
            Some(run) => fault_in(run, self.closed, command),
        }
    }

    /// Does a command that no fault fits, and gives what it prints by the number of its line.
    fn step(&mut self, alloc: Global, number: u32, command: &Command) -> Result<Txt, Memory>
        requires within { CommandWithin 4096 command.now }
        requires accepted { fault_of self.old.declared command.now ≡ None }
        ensures { IfOk result (λ t. StepGives self.old self.new number command.now t) }
    {
        match &mut self.run {
            None => {
                self.run = opened(alloc, command)?;
                Ok(nothing(alloc))
            }
            Some(run) => {
                self.closed = closed_after(self.closed, command);
                run.step(alloc, number, command)
            }
        }
    }

    /// The server and the clients, as the script leaves them. It takes no memory.
    pub fn into_room(self) -> Room
        requires { self.declared.sheet ≡ true }
        ensures { RoomRepresents self.world result }
    {
        match self.run {
            Some(run) => run.into_room(),
            None => unreachable!(),
        }
    }
}

/// The fault of a command before the `sheet` line.
fn fault_unopened(command: &Command) -> Option<ScriptKind>
    ensures { (closed : Bool) → result ≡ fault_of (run_state_of None closed).declared command.now }
{
    match command {
        Command::Note | Command::Sheet(_) => None,
        _ => Some(ScriptKind::Sheet),
    }
}

/// The fault of a command behind the `sheet` line.
fn fault_in(run: &Run, closed: bool, command: &Command) -> Option<ScriptKind>
    ensures { result ≡ fault_of (run_state_of (Some run.now) closed).declared command.now }
{
    match command {
        Command::Sheet(_) => Some(ScriptKind::Sheet),
        Command::Site(name) => site_refused(run, closed, name),
        Command::Edit(name, _)
        | Command::Push(name, _)
        | Command::Pull(name, _)
        | Command::Sync(name)
        | Command::Read(name, _)
        | Command::Show(name) => site_missing(run, name),
        Command::Note
        | Command::PushAll
        | Command::PullAll
        | Command::Recalc(_)
        | Command::Values
        | Command::History
        | Command::Wire
        | Command::ShowServer
        | Command::End => None,
    }
}

fn is_declared(run: &Run, name: &Txt) -> bool
    ensures { (closed : Bool) → result ≡ is_declared (run_state_of (Some run.now) closed).declared name.now }
{
    run.place_of(name).is_some()
}

/// The fault of a line that names a site.
fn site_missing(run: &Run, name: &Txt) -> Option<ScriptKind>
    ensures { (closed : Bool) → result ≡ without_site (run_state_of (Some run.now) closed).declared name.now }
{
    if is_declared(run, name) {
        None
    } else {
        Some(ScriptKind::Site)
    }
}

/// The fault of a line that declares a site.
fn site_refused(run: &Run, closed: bool, name: &Txt) -> Option<ScriptKind>
    ensures { result ≡ fault_of (run_state_of (Some run.now) closed).declared (command.Site name.now) }
{
    if refuses_site(run, closed, name) {
        Some(ScriptKind::Site)
    } else {
        None
    }
}

/// Whether no further site may have this name.
fn refuses_site(run: &Run, closed: bool, name: &Txt) -> bool
    ensures { result ≡ (closed || (is_some (place_in run.now.seats name.now) || nat_lt 7 (length run.now.seats))) }
{
    closed || run.place_of(name).is_some() || run.sites() > 7
}

/// The run that a first command opens, if it is the `sheet` line.
fn opened(alloc: Global, command: &Command) -> Result<Option<Run>, Memory>
    requires { CommandWithin 4096 command.now }
    ensures { IfOk result (λ r. r ≡ run_opened command.now) }
{
    match command {
        Command::Sheet(size) => Ok(Some(Run::open(alloc, *size)?)),
        _ => Ok(None),
    }
}

fn is_end(command: &Command) -> bool
    ensures { result ≡ is_end command.now }
{
    matches!(command, Command::End)
}

/// Whether no site may be declared behind a command, where that was so before or not.
fn closed_after(closed: bool, command: &Command) -> bool
    ensures { result ≡ (closed || closes command.now) }
{
    closed || closes(command)
}

/// Whether no site may be declared behind a command.
fn closes(command: &Command) -> bool
    ensures { result ≡ closes command.now }
{
    !matches!(
        command,
        Command::Note | Command::Sheet(_) | Command::Site(_)
    )
}
