//! Several sites edit one sheet: runs a script of edits, deliveries and reads.
#![tactic(auto)]

mod play;
#[cfg(test)]
mod tests;

use crate::play::play;
use run_status::Status;
use ss_base::{StdSink, StdSource, Txt};
use std::env;
use std::io::ErrorKind;
use std::process::ExitCode;

fn main(rt: HostRuntime) -> ExitCode {
    let status = run_script(&rt);
    if status != Status::Done {
        // The exit status tells the same where standard error takes no line.
        let _ = eprintln!(rt; "sheetshare: {status}");
    }
    ExitCode::from(status.code())
}

/// Plays the script on standard input, and prints to standard output, neither with a buffer between.
fn run_script(rt: &HostRuntime) -> Status {
    let words = match words_of(rt) {
        Ok(words) => words,
        Err(status) => return status,
    };
    let mut source = StdSource::new(rt.stdin());
    let mut sink = StdSink::new(rt.stdout());
    play(rt.alloc(), words.as_slice(), &mut source, &mut sink).status
}

/// The words after the program's name.
fn words_of(rt: &HostRuntime) -> Result<Vec<Txt>, Status> {
    let args = match env::args(rt) {
        Ok(args) => args,
        Err(error) if error.kind() == ErrorKind::OutOfMemory => return Err(Status::Memory),
        // A word that isn't UTF-8 is a word.
        Err(_) => return Err(Status::Usage),
    };
    let mut words = Vec::new(rt.alloc());
    for arg in args.skip(1) {
        if words.push(Txt::from_vec(arg.into_bytes())).is_err() {
            return Err(Status::Memory);
        }
    }
    Ok(words)
}
