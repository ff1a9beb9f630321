ghost use Rattle.std.specs.Prelude.{◌≡◌, ◌<◌, ◌≤◌, [], ◌++◌, IfOk, OnOk, OnErr, IsErrOf, length, drop, vec_len, vec_capacity};
ghost use Rattle.ss_base.specs.Streams.{Rose};
ghost use Rattle.ss_base.specs.Search.{Refills, IsEndOf, ComesNext, NoFeed, StopsAt};

use crate::lines::LineErr;
use crate::stream::Source;
use crate::types::{Failed, Memory};
use std::alloc::Global;
use std::marker::Model;

/// How many bytes are read at once.
const AHEAD: usize = 8192;

/// The most bytes that a line has without its line feed.
pub(crate) const LONGEST: usize = 4096;

const LINE_FEED: u8 = 10;

/// Bytes that were read and not yet used, which contracts see as the list of them.
#[derive(Debug, Drop)]
pub(crate) struct Ahead {
    bytes: Vec<u8>,
    at: usize,
    end: usize,
}

impl Model for Ahead {
    ghost use Rattle.std.specs.Prelude.{List, ℕ, ◌<◌, ◌≤◌, take, drop, vec_len};

    ghost Value = { List ℕ };

    ghost view = { λ s. drop s.at (take s.end s.bytes.items) };

    ghost invariant = { λ s. (s.at ≤ s.end) × (s.end ≤ vec_len s.bytes) × (0 < vec_len s.bytes) × (vec_len s.bytes ≤ 8192) };
}

impl Ahead {
    pub(crate) fn new(alloc: Global) -> Result<Ahead, Memory>
        ensures { IfOk result (λ a. a ≡ []) }
    {
        let bytes = vec![in alloc; 0; AHEAD]?;
        Ok(Ahead {
            bytes,
            at: 0,
            end: 0,
        })
    }

    /// Reads on where no byte is at hand. None is at hand afterwards exactly at the end of input.
    fn fill<S: Source>(&mut self, source: &mut S) -> Result<(), Failed>
        ensures told { Refills (S.left source.old) (S.left source.new) self.old self.new }
        ensures end { OnOk result (self.new ≡ [] → IsEndOf (S.left source.new)) }
        ensures count { S.faults source.old ≤ S.faults source.new }
        ensures cause { OnErr result (Rose (S.faults source.old) (S.faults source.new)) }
        ensures err { OnErr result (self.new ≡ []) }
    {
        if self.at < self.end {
            return Ok(());
        }
        let count = source.read(self.bytes.as_mut_slice())?;
        self.at = 0;
        self.end = count;
        Ok(())
    }

    /// The byte that comes next of those at hand.
    fn first(&self) -> Option<u8>
        ensures { ComesNext self.now result }
    {
        if self.at < self.end {
            Some(self.bytes[self.at])
        } else {
            None
        }
    }

    /// Steps over the byte that comes next.
    pub(crate) fn skip(&mut self)
        requires { 0 < length self.old }
        ensures rest { self.new ≡ drop 1 self.old }
        ensures few { length self.new < 8192 }
    {
        self.at += 1;
    }
}

/// Where a search for the end of a line stopped.
#[derive(Clone, Copy, Debug, PartialEq, Eq)]
pub(crate) enum Found {
    /// Before a line feed.
    Feed,
    /// At the end of input.
    End,
}

/// Takes what comes next, up to the end of the line, behind the front of the line that is known.
pub(crate) fn find<S: Source>(
    line: &mut Vec<u8>,
    ahead: &mut Ahead,
    source: &mut S,
) -> Result<Found, LineErr>
    requires plain { NoFeed line.old.items }
    requires short { vec_len line.old ≤ 4096 }
    requires room { 4096 ≤ vec_capacity line.old }
    ensures told { Refills (S.left source.old) (S.left source.new)
        (line.old.items ++ ahead.old) (line.new.items ++ ahead.new) }
    ensures stop { StopsAt line.new.items ahead.new (S.left source.new) result }
    ensures plain { NoFeed line.new.items }
    ensures short { vec_len line.new ≤ 4096 }
    ensures room { 4096 ≤ vec_capacity line.new }
    ensures count { S.faults source.old ≤ S.faults source.new }
    ensures cause { IsErrOf result LineErr.ReadFault →
        Rose (S.faults source.old) (S.faults source.new) }
{
    loop {
        if ahead.fill(source).is_err() {
            return Err(LineErr::ReadFault);
        }
        let Some(byte) = ahead.first() else {
            return Ok(Found::End);
        };
        if byte == LINE_FEED {
            return Ok(Found::Feed);
        }
        if line.len() == LONGEST {
            return Err(LineErr::TooLong);
        }
        line.push_reserved(byte);
        ahead.skip();
    }
}
