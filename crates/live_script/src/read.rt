ghost use Rattle.std.specs.Prelude.{◌≡◌, ◌≤◌, ℕ, List, Some, length, IfOk, IfErr, OnOk, IsErrOf};
ghost use Rattle.ss_base.specs.Streams.{Rose};
ghost use Rattle.script_read.specs.Commands.{CommandWithin};
ghost use Rattle.script_read.specs.Script.{ended};
ghost use Rattle.live_script.specs.Scripts.{live_script, by_sites};
ghost use Rattle.live_script.specs.SoFar.{nothing_so_far, CommandAddressed, CommandAdds, LineAdds, ends_script, TellsStop, IsOpened};

use crate::collect::Collected;
use crate::flow::Flow;
use crate::script::{LiveScript, LiveStop};
use script_read::{Command, LineFault, ScriptErr, ScriptKind, read_command};
use ss_base::{LineErr, LineFeed, Memory, Source, Turn};
use std::alloc::Global;

/// The script that the source gives up to its line `end`, parted by sites, for running each of them in a
/// thread. It takes the time and the memory of the script's bytes, and of a line for each site where a line
/// is for all.
///
/// `Script` comes exactly where the script stops at a line that is refused, with the first kind that fits:
/// `Grammar`, `Sheet`, `Site`, or `NotLive` for a line that prints or publishes for all sites at one
/// moment; or where the input ends before `end`. `TooLong` comes exactly where it stops at a line that is
/// too long. `ReadFault` comes only where the source's count of faults rose. Nothing of a script that is
/// refused is handed out.
pub fn read_live<S: Source>(alloc: Global, source: &mut S) -> Result<LiveScript, LiveStop>
    ensures script { (bytes : List ℕ) → S.left source.old ≡ Some bytes →
        IfOk result (λ s. ((live_script bytes).stop ≡ ended) × (s ≡ by_sites (live_script bytes).commands)) }
    ensures stops { (bytes : List ℕ) → S.left source.old ≡ Some bytes → IfErr result (λ e. TellsStop (live_script bytes).stop e) }
    ensures opened { IfOk result IsOpened }
    ensures read { IsErrOf result LiveStop.ReadFault → Rose (S.faults source.old) (S.faults source.new) }
{
    let mut collected = Collected::new(alloc);
    match read_each(alloc, &mut collected, source) {
        Ok(()) => Ok(collected.into_script()),
        Err(stop) => Err(stop),
    }
}

/// Reads line after line up to the line `end`, from the state before the first one.
fn read_each<S: Source>(
    alloc: Global,
    collected: &mut Collected,
    source: &mut S,
) -> Result<(), LiveStop>
    requires { collected.old ≡ nothing_so_far }
    ensures script { (bytes : List ℕ) → S.left source.old ≡ Some bytes →
        OnOk result (((live_script bytes).stop ≡ ended) × (collected.new.script ≡ by_sites (live_script bytes).commands)) }
    ensures stops { (bytes : List ℕ) → S.left source.old ≡ Some bytes → IfErr result (λ e. TellsStop (live_script bytes).stop e) }
    ensures opened { OnOk result (IsOpened collected.new.script) }
    ensures read { IsErrOf result LiveStop.ReadFault → Rose (S.faults source.old) (S.faults source.new) }
{
    let mut feed = match LineFeed::new(alloc) {
        Ok(feed) => feed,
        Err(Memory) => return Err(LiveStop::Memory),
    };
    let mut number = 1u32;
    loop {
        match feed.read_line(source) {
            Ok(Turn::Line) => {}
            Ok(Turn::End) => {
                return Err(LiveStop::Script(ScriptErr {
                    line: number,
                    kind: ScriptKind::Unended,
                }));
            }
            Err(LineErr::ReadFault) => return Err(LiveStop::ReadFault),
            Err(LineErr::TooLong) => return Err(LiveStop::TooLong(number)),
        }
        match take_line(alloc, collected, number, feed.line()) {
            Ok(Flow::GoesOn) => {}
            Ok(Flow::Ended) => return Ok(()),
            Err(stop) => return Err(stop),
        }
        number += 1;
    }
}

/// Takes in the line with this number.
fn take_line(
    alloc: Global,
    collected: &mut Collected,
    number: u32,
    line: &[u8],
) -> Result<Flow, LiveStop>
    requires { length line.now ≤ 4096 }
    ensures { LineAdds collected.old collected.new number line.now result }
{
    match read_command(alloc, line) {
        Ok(command) => take_command(alloc, collected, number, command),
        Err(LineFault::Grammar) => Err(LiveStop::Script(ScriptErr {
            line: number,
            kind: ScriptKind::Grammar,
        })),
        Err(LineFault::Memory) => Err(LiveStop::Memory),
    }
}

/// Takes in a command on the line with this number.
fn take_command(
    alloc: Global,
    collected: &mut Collected,
    number: u32,
    command: Command,
) -> Result<Flow, LiveStop>
    requires within { CommandWithin 4096 command }
    requires addressed { CommandAddressed command }
    ensures { CommandAdds collected.old collected.new number command result }
{
    if let Some(kind) = collected.fault_of(&command) {
        return Err(LiveStop::Script(ScriptErr { line: number, kind }));
    }
    if ends_script(&command) {
        return Ok(Flow::Ended);
    }
    match collected.add(alloc, number, command) {
        Ok(()) => Ok(Flow::GoesOn),
        Err(Memory) => Err(LiveStop::Memory),
    }
}

fn ends_script(command: &Command) -> bool
    ensures { result ≡ ends_script command.now }
{
    matches!(command, Command::End)
}
