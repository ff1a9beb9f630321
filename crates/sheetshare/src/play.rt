ghost use Rattle.std.specs.Prelude.{◌≡◌, ◌≢◌, ◌↔◌, ℕ, ◌<◌, ◌≤◌, List, true, length, None, Some, Err, IfOk, IfErr, OnOk, IsErrOf, IfSome, IsSome};
ghost use Rattle.ss_base.specs.Streams.{Rose};
ghost use Rattle.script_read.specs.Script.{script};
ghost use Rattle.words.specs.Calls.{call_in};
ghost use Rattle.generated_run.specs.Runs.{generated_world};
ghost use Rattle.script_run.specs.Publishing.{NeverGoesBack};
ghost use Rattle.script_run.specs.World.{world_after};
ghost use Rattle.script_run.specs.Rooms.{RoomRepresents};
ghost use Rattle.script_run.specs.States.{first_table};
ghost use Rattle.sheetshare.specs.LineGives.{LineGives};
ghost use Rattle.sheetshare.specs.Places.{FaultedAt, EndedAt};
ghost use Rattle.sheetshare.specs.Played.{Played, StopsAs, WroteSummary, RunsToItsEnd, IsUnlessMemory, status_of};

use generated_run::{Loaded, load_summary};
use run_status::Status;
use script_read::{ScriptErr, ScriptKind};
use script_run::laws::publishing_never_goes_back;
use script_run::{Outcome, Room, ScriptState};
use ss_base::{Failed, LineErr, LineFeed, Memory, Sink, Source, Turn, Txt, write_all};
use std::alloc::Global;
use words::{Call, WordsErr, read_words};

/// What a line leads to that no fault stops.
#[derive(Clone, Copy, Debug)]
enum Flow {
    /// The next line.
    GoesOn,
    /// It was the line `end`.
    Ended,
}

/// What a run leaves.
#[derive(Debug, Drop)]
pub struct PlayEnd {
    pub status: Status,
    /// The server and the clients as the run left them, one client for each site in the order in which the
    /// sites were declared: exactly where the run was done.
    pub room: Option<Room>,
}

/// Does what the words ask for: without words it runs the script that the source gives, and writes what
/// that prints to the sink, each line's text before the next line is read; for `load` and a number it
/// writes the summary of the generated run of that number, and reads nothing.
pub fn play<S: Source, K: Sink>(
    alloc: Global,
    words: &[Txt],
    source: &mut S,
    sink: &mut K,
) -> PlayEnd
    ensures script { (bytes before : List ℕ) → call_in words.now ≡ Some Call.Script → S.left source.old ≡ Some bytes → K.taken sink.old ≡ Some before →
        Played (script bytes) before (K.taken sink.new) result.status }
    ensures stop { (bytes : List ℕ) → call_in words.now ≡ Some Call.Script → S.left source.old ≡ Some bytes → StopsAs (script bytes).stop result.status }
    // What is published never goes back.
    ensures published { (bytes : List ℕ) → NeverGoesBack (script bytes).commands }
    ensures room { (bytes : List ℕ) → call_in words.now ≡ Some Call.Script → S.left source.old ≡ Some bytes →
        IfSome result.room (RoomRepresents (world_after (script bytes).commands)) }
    ensures summary { (number : ℕ) (before : List ℕ) → call_in words.now ≡ Some (Call.Load number) → K.taken sink.old ≡ Some before →
        WroteSummary number before (K.taken sink.new) result.status }
    ensures loaded_room { (number : ℕ) → call_in words.now ≡ Some (Call.Load number) → IfSome result.room (RoomRepresents (generated_world number)) }
    ensures done { IsSome result.room ↔ (result.status ≡ Status.Done) }
    ensures usage { result.status ≡ Status.Usage → call_in words.now ≡ None }
    ensures refused { call_in words.now ≡ None → IsUnlessMemory Status.Usage result.status }
    ensures complete { RunsToItsEnd (call_in words.now) (S.left source.old) → ¬ (Rose (S.faults source.old) (S.faults source.new)) → ¬ (Rose (K.faults sink.old) (K.faults sink.new)) →
        IsUnlessMemory Status.Done result.status }
    ensures read_place { (bytes left before : List ℕ) → call_in words.now ≡ Some Call.Script → S.left source.old ≡ Some bytes → S.left source.new ≡ Some left →
        K.taken sink.old ≡ Some before → result.status ≡ Status.ReadFault → FaultedAt bytes left before (K.taken sink.new) }
    ensures end_place { (bytes left : List ℕ) → call_in words.now ≡ Some Call.Script → S.left source.old ≡ Some bytes → S.left source.new ≡ Some left →
        result.status ≡ Status.Done → EndedAt bytes left }
    ensures unread { call_in words.now ≢ Some Call.Script → source.new ≡ source.old }
    ensures unwritten { call_in words.now ≡ None → sink.new ≡ sink.old }
    ensures read { result.status ≡ Status.ReadFault → Rose (S.faults source.old) (S.faults source.new) }
    ensures write { result.status ≡ Status.WriteFault → Rose (K.faults sink.old) (K.faults sink.new) }
{
    publishing_never_goes_back();
    match play_call(alloc, words, source, sink) {
        Ok(room) => PlayEnd {
            status: Status::Done,
            room: Some(room),
        },
        Err(status) => PlayEnd { status, room: None },
    }
}

/// Does what the words ask for, and gives the room or the status of another end.
fn play_call<S: Source, K: Sink>(
    alloc: Global,
    words: &[Txt],
    source: &mut S,
    sink: &mut K,
) -> Result<Room, Status>
    ensures script { (bytes before : List ℕ) → call_in words.now ≡ Some Call.Script → S.left source.old ≡ Some bytes → K.taken sink.old ≡ Some before →
        Played (script bytes) before (K.taken sink.new) (status_of result) }
    ensures stop { (bytes : List ℕ) → call_in words.now ≡ Some Call.Script → S.left source.old ≡ Some bytes → StopsAs (script bytes).stop (status_of result) }
    ensures room { (bytes : List ℕ) → call_in words.now ≡ Some Call.Script → S.left source.old ≡ Some bytes →
        IfOk result (RoomRepresents (world_after (script bytes).commands)) }
    ensures summary { (number : ℕ) (before : List ℕ) → call_in words.now ≡ Some (Call.Load number) → K.taken sink.old ≡ Some before →
        WroteSummary number before (K.taken sink.new) (status_of result) }
    ensures loaded_room { (number : ℕ) → call_in words.now ≡ Some (Call.Load number) → IfOk result (RoomRepresents (generated_world number)) }
    ensures undone { IfErr result (λ s. s ≢ Status.Done) }
    ensures usage { IsErrOf result Status.Usage → call_in words.now ≡ None }
    ensures refused { call_in words.now ≡ None → IsUnlessMemory Status.Usage (status_of result) }
    ensures complete { RunsToItsEnd (call_in words.now) (S.left source.old) → ¬ (Rose (S.faults source.old) (S.faults source.new)) → ¬ (Rose (K.faults sink.old) (K.faults sink.new)) →
        IsUnlessMemory Status.Done (status_of result) }
    ensures read_place { (bytes left before : List ℕ) → call_in words.now ≡ Some Call.Script → S.left source.old ≡ Some bytes → S.left source.new ≡ Some left →
        K.taken sink.old ≡ Some before → IsErrOf result Status.ReadFault → FaultedAt bytes left before (K.taken sink.new) }
    ensures end_place { (bytes left : List ℕ) → call_in words.now ≡ Some Call.Script → S.left source.old ≡ Some bytes → S.left source.new ≡ Some left → OnOk result (EndedAt bytes left) }
    ensures unread { call_in words.now ≢ Some Call.Script → source.new ≡ source.old }
    ensures unwritten { call_in words.now ≡ None → sink.new ≡ sink.old }
    ensures read { IsErrOf result Status.ReadFault → Rose (S.faults source.old) (S.faults source.new) }
    ensures write { IsErrOf result Status.WriteFault → Rose (K.faults sink.old) (K.faults sink.new) }
{
    match read_words(alloc, words) {
        Ok(Call::Script) => play_lines(alloc, source, sink),
        Ok(Call::Load(number)) => print_summary(alloc, number, sink),
        Err(WordsErr::Usage) => Err(Status::Usage),
        Err(WordsErr::Memory) => Err(Status::Memory),
    }
}

/// Writes the summary of the generated run of a number, and gives its room or the status of another end.
fn print_summary<K: Sink>(alloc: Global, number: u64, sink: &mut K) -> Result<Room, Status>
    ensures summary { (before : List ℕ) → K.taken sink.old ≡ Some before → WroteSummary number before (K.taken sink.new) (status_of result) }
    ensures room { IfOk result (RoomRepresents (generated_world number)) }
    ensures other { IfErr result (λ s. (s ≢ Status.Done) × (s ≢ Status.Usage) × (s ≢ Status.ReadFault)) }
    ensures complete { ¬ (Rose (K.faults sink.old) (K.faults sink.new)) → IsUnlessMemory Status.Done (status_of result) }
    ensures write { IsErrOf result Status.WriteFault → Rose (K.faults sink.old) (K.faults sink.new) }
{
    let Loaded { summary, room } = match load_summary(alloc, number) {
        Ok(loaded) => loaded,
        Err(Memory) => return Err(Status::Memory),
    };
    match write_all(sink, summary.bytes()) {
        Ok(()) => Ok(room),
        Err(Failed) => Err(Status::WriteFault),
    }
}

/// Does line after line up to the line `end`, and gives the room or the status of another end.
fn play_lines<S: Source, K: Sink>(
    alloc: Global,
    source: &mut S,
    sink: &mut K,
) -> Result<Room, Status>
    ensures text { (bytes before : List ℕ) → S.left source.old ≡ Some bytes → K.taken sink.old ≡ Some before →
        Played (script bytes) before (K.taken sink.new) (status_of result) }
    ensures read_place { (bytes left before : List ℕ) → S.left source.old ≡ Some bytes → S.left source.new ≡ Some left → K.taken sink.old ≡ Some before →
        IsErrOf result Status.ReadFault → FaultedAt bytes left before (K.taken sink.new) }
    ensures end_place { (bytes left : List ℕ) → S.left source.old ≡ Some bytes → S.left source.new ≡ Some left → OnOk result (EndedAt bytes left) }
    ensures stop { (bytes : List ℕ) → S.left source.old ≡ Some bytes → StopsAs (script bytes).stop (status_of result) }
    ensures room { (bytes : List ℕ) → S.left source.old ≡ Some bytes → IfOk result (RoomRepresents (world_after (script bytes).commands)) }
    ensures other { IfErr result (λ s. (s ≢ Status.Done) × (s ≢ Status.Usage)) }
    ensures read { IsErrOf result Status.ReadFault → Rose (S.faults source.old) (S.faults source.new) }
    ensures write { IsErrOf result Status.WriteFault → Rose (K.faults sink.old) (K.faults sink.new) }
{
    let mut state = ScriptState::new();
    match play_each(alloc, &mut state, source, sink) {
        Ok(()) => Ok(state.into_room()),
        Err(status) => Err(status),
    }
}

/// Does line after line up to the line `end`, from the state before the first one.
fn play_each<S: Source, K: Sink>(
    alloc: Global,
    state: &mut ScriptState,
    source: &mut S,
    sink: &mut K,
) -> Result<(), Status>
    requires { state.old ≡ first_table }
    ensures text { (bytes before : List ℕ) → S.left source.old ≡ Some bytes → K.taken sink.old ≡ Some before →
        Played (script bytes) before (K.taken sink.new) (status_of result) }
    ensures read_place { (bytes left before : List ℕ) → S.left source.old ≡ Some bytes → S.left source.new ≡ Some left → K.taken sink.old ≡ Some before →
        IsErrOf result Status.ReadFault → FaultedAt bytes left before (K.taken sink.new) }
    ensures end_place { (bytes left : List ℕ) → S.left source.old ≡ Some bytes → S.left source.new ≡ Some left → OnOk result (EndedAt bytes left) }
    ensures stop { (bytes : List ℕ) → S.left source.old ≡ Some bytes → StopsAs (script bytes).stop (status_of result) }
    ensures world { (bytes : List ℕ) → S.left source.old ≡ Some bytes → OnOk result (state.new.world ≡ world_after (script bytes).commands) }
    ensures opened { OnOk result (state.new.declared.sheet ≡ true) }
    ensures other { IfErr result (λ s. (s ≢ Status.Done) × (s ≢ Status.Usage)) }
    ensures read { IsErrOf result Status.ReadFault → Rose (S.faults source.old) (S.faults source.new) }
    ensures write { IsErrOf result Status.WriteFault → Rose (K.faults sink.old) (K.faults sink.new) }
{
    let mut feed = match LineFeed::new(alloc) {
        Ok(feed) => feed,
        Err(Memory) => return Err(Status::Memory),
    };
    let mut number = 1u32;
    loop {
        match feed.read_line(source) {
            Ok(Turn::Line) => {}
            Ok(Turn::End) => {
                return Err(Status::Script(ScriptErr {
                    line: number,
                    kind: ScriptKind::Unended,
                }));
            }
            Err(LineErr::ReadFault) => return Err(Status::ReadFault),
            Err(LineErr::TooLong) => return Err(Status::TooLong(number)),
        }
        match play_line(alloc, state, number, feed.line(), sink) {
            Ok(Flow::GoesOn) => {}
            Ok(Flow::Ended) => return Ok(()),
            Err(status) => return Err(status),
        }
        number += 1;
    }
}

/// Does the line with this number, and writes what it prints.
fn play_line<K: Sink>(
    alloc: Global,
    state: &mut ScriptState,
    number: u32,
    line: &[u8],
    sink: &mut K,
) -> Result<Flow, Status>
    requires { length line.now ≤ 4096 }
    ensures gives { LineGives state.old state.new number line.now (K.taken sink.old) (K.taken sink.new) result }
    ensures other { IfErr result (λ s. (s ≢ Status.Done) × (s ≢ Status.Usage) × (s ≢ Status.ReadFault)) }
    ensures count { K.faults sink.old ≤ K.faults sink.new }
    ensures write { IsErrOf result Status.WriteFault → Rose (K.faults sink.old) (K.faults sink.new) }
{
    match state.turn(alloc, number, line) {
        Ok(Outcome::Goes(text)) => match write_all(sink, text.bytes()) {
            Ok(()) => Ok(Flow::GoesOn),
            Err(Failed) => Err(Status::WriteFault),
        },
        Ok(Outcome::Ended) => Ok(Flow::Ended),
        Ok(Outcome::Refused(err)) => Err(Status::Script(err)),
        Err(Memory) => Err(Status::Memory),
    }
}
