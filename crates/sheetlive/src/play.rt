ghost use Rattle.std.specs.Prelude.{◌≡◌, ◌≢◌, ◌↔◌, ◌⊎◌, ℕ, List, [], Some, None, IsSome, IfOk};
ghost use Rattle.ss_base.specs.Streams.{Rose};
ghost use Rattle.live_script.specs.Scripts.{live_script};
ghost use Rattle.live_script.specs.SoFar.{IsOpened};
ghost use Rattle.live_record.specs.Records.{live_text};
ghost use Rattle.script_read.specs.Script.{ended};
ghost use Rattle.live_close.specs.Recorded.{IsRecordOf};
ghost use Rattle.sheetlive.specs.LivePlayed.{LivePlayed};
ghost use Rattle.sheetlive.specs.Reads.{stop_status, Written};

use live_close::{LiveRecord, close};
use live_script::{LiveScript, LiveStop, read_live};
use live_threads::{open, run_threads};
use recalc_loop::Gate;
use run_status::Status;
use ss_base::{Failed, Memory, Sink, Source, Txt, write_all};
use std::alloc::Global;
use std::marker::Brand;
use std::sync::Wait;
use std::thread::Threads;

/// What a run leaves.
#[derive(Drop)]
pub struct LiveEnd {
    pub status: Status,
    /// What the threads left: exactly where they ran to their ends, so that it was written, or a part
    /// of it.
    pub noted: Option<LiveRecord>,
}

/// Reads the script that the source gives, runs each of its sites as a thread beside the recalculation,
/// and writes at the end what they logged, each replica, the server, the values and the history. Nothing
/// runs unless the whole script is read and none of its lines is refused.
///
/// `Usage` comes exactly where there are words, and then nothing is read. `Script` and `TooLong` come only
/// at that stop of the script, `ReadFault` and `WriteFault` only where that end counted a fault. `Memory`
/// comes also where a thread was refused memory. At `WriteFault` a beginning of the text was written, and
/// else nothing but at `Done`.
///
/// The gate is met before each line of a site and before each publication, and may hold the thread there.
/// It waits for its threads.
pub fn play_live<R: Threads + Wait + Sync, S: Source, K: Sink, G: Gate + Sync>(
    rt: &R,
    alloc: Global,
    words: &[Txt],
    source: &mut S,
    sink: &mut K,
    gate: &G,
) -> LiveEnd
    ensures script { (bytes before : List ℕ) → words.now ≡ [] → S.left source.old ≡ Some bytes → K.taken sink.old ≡ Some before →
        LivePlayed (live_script bytes) before (K.taken sink.new) result.status result.noted }
    ensures noted { IsSome result.noted ↔ ((result.status ≡ Status.Done) ⊎ (result.status ≡ Status.WriteFault)) }
    ensures usage { (result.status ≡ Status.Usage) ↔ (words.now ≢ []) }
    ensures unread { words.now ≢ [] → source.new ≡ source.old }
    ensures unwritten { words.now ≢ [] → sink.new ≡ sink.old }
    ensures complete { (bytes : List ℕ) → words.now ≡ [] → S.left source.old ≡ Some bytes → (live_script bytes).stop ≡ ended →
        ¬ (Rose (S.faults source.old) (S.faults source.new)) → ¬ (Rose (K.faults sink.old) (K.faults sink.new)) →
        (result.status ≡ Status.Done) ⊎ (result.status ≡ Status.Memory) }
    ensures read { result.status ≡ Status.ReadFault → Rose (S.faults source.old) (S.faults source.new) }
    ensures write { result.status ≡ Status.WriteFault → Rose (K.faults sink.old) (K.faults sink.new) }
{
    if !words.is_empty() {
        return nothing_ran(Status::Usage);
    }
    let script = match read_live(alloc, source) {
        Ok(script) => script,
        Err(stop) => return nothing_ran(stop_status(stop)),
    };
    match run_script(rt, alloc, &script, gate) {
        Ok((noted, text)) => LiveEnd {
            status: written(sink, &text),
            noted: Some(noted),
        },
        Err(Memory) => nothing_ran(Status::Memory),
    }
}

/// An end before anything was written.
fn nothing_ran(status: Status) -> LiveEnd
    ensures { result ≡ record { status = status; noted = None } }
{
    LiveEnd {
        status,
        noted: None,
    }
}

/// The status of a script that wasn't read to its end.
fn stop_status(stop: LiveStop) -> Status
    ensures { result ≡ stop_status stop }
{
    match stop {
        LiveStop::Script(err) => Status::Script(err),
        LiveStop::TooLong(line) => Status::TooLong(line),
        LiveStop::ReadFault => Status::ReadFault,
        LiveStop::Memory => Status::Memory,
    }
}

/// Writes the text of a record.
fn written<K: Sink>(sink: &mut K, text: &Txt) -> Status
    ensures { Written text.now (K.taken sink.old) (K.taken sink.new) (K.faults sink.old) (K.faults sink.new) result }
{
    match write_all(sink, text.bytes()) {
        Ok(()) => Status::Done,
        Err(Failed) => Status::WriteFault,
    }
}

/// Runs the sites of a script as threads, and gives the record with its text.
fn run_script<R: Threads + Wait + Sync, G: Gate + Sync>(
    rt: &R,
    alloc: Global,
    script: &LiveScript,
    gate: &G,
) -> Result<(LiveRecord, Txt), Memory>
    requires { IsOpened script.now }
    ensures { IfOk result (λ r. (logs : List (List ℕ)) × IsRecordOf script.now r.0 logs × (r.1 ≡ live_text script.now r.0.hub.state.entries logs)) }
{
    let opening = open(rt, alloc, script)?;
    let ran = run_threads::<Brand, R, G>(rt, alloc, script, opening, gate)?;
    close(rt, alloc, script, ran)
}
