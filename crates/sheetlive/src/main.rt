//! Several sites edit one sheet at once, each in a thread of its own: runs a script of their lines, and
//! prints at the end what they logged and what came of it.
#![tactic(auto)]

mod play;
#[cfg(test)]
mod tests;

use crate::play::play_live;
use recalc_loop::NoGate;
use run_status::Status;
use ss_base::{StdSink, StdSource, Txt};
use std::env;
use std::io::ErrorKind;
use std::process::ExitCode;

fn main(rt: HostRuntime) -> ExitCode {
    // Neither end has a buffer between.
    let status = match words_of(&rt) {
        Ok(words) => {
            let mut source = StdSource::new(rt.stdin());
            let mut sink = StdSink::new(rt.stdout());
            let alloc = rt.alloc();
            play_live(
                &rt,
                alloc,
                words.as_slice(),
                &mut source,
                &mut sink,
                &NoGate,
            )
            .status
        }
        Err(status) => status,
    };
    if status != Status::Done {
        // The exit status tells the same where standard error takes no line.
        let _ = eprintln!(rt; "sheetlive: {status}");
    }
    ExitCode::from(status.code())
}

/// The words after the program's name.
fn words_of(rt: &HostRuntime) -> Result<Vec<Txt>, Status> {
    let args = match env::args(rt) {
        Ok(args) => args,
        Err(error) if error.kind() == ErrorKind::OutOfMemory => return Err(Status::Memory),
        // A word that isn't UTF-8 is a word.
        Err(_) => return Err(Status::Usage),
    };
    let mut words = Vec::new(rt.alloc());
    for arg in args.skip(1) {
        if words.push(Txt::from_vec(arg.into_bytes())).is_err() {
            return Err(Status::Memory);
        }
    }
    Ok(words)
}
