ghost use Rattle.std.specs.Prelude.{◌≡◌, [], ◌<◌, ◌≤◌, ◌++◌, ◌⊎◌, ◌↔◌, length, take, drop, min, IsOk, IsErr, IfOk, OnErr, IsNone, IfSome, IfNone};
ghost use Rattle.ss_base.specs.Streams.{Rose};
ghost use Rattle.ss_base.specs.Ends.{IsToFail, unbroken, passed, failed, count_up, FindsNoRoom, fitting};

use crate::plan::Plan;
use crate::stream::{Sink, Source};
use crate::types::{Failed, Memory};
use std::alloc::Global;
use std::marker::Model;

/// A source in memory that never fails, which contracts see as the list of the bytes that are left.
#[derive(Debug, Drop)]
pub struct PureSource {
    bytes: Vec<u8>,
    at: usize,
}

impl Model for PureSource {
    ghost use Rattle.std.specs.Prelude.{List, ℕ, ◌≤◌, length, drop};

    ghost Value = { List ℕ };

    ghost view = { λ s. drop s.at s.bytes.items };

    ghost invariant = { λ s. s.at ≤ length s.bytes.items };
}

impl PureSource {
    /// The source of these bytes.
    pub fn new(alloc: Global, bytes: &[u8]) -> Result<PureSource, Memory>
        ensures { IfOk result (λ s. s ≡ bytes.now) }
    {
        let bytes = Vec::from_slice(alloc, bytes)?;
        Ok(PureSource { bytes, at: 0 })
    }

    /// Moves as many bytes as fit to the front of the buffer, and answers how many.
    fn take_front(&mut self, buf: &mut [u8]) -> usize
        ensures count { result ≡ min (length buf.old) (length self.old) }
        ensures moved { buf.new ≡ take result self.old ++ drop result buf.old }
        ensures rest { self.new ≡ drop result self.old }
    {
        let rest = &self.bytes[self.at..];
        let count = buf.len().min(rest.len());
        buf[..count].copy_from_slice(&rest[..count]);
        self.at += count;
        count
    }
}

impl Source for PureSource {
    ghost use Rattle.std.specs.Prelude.{Some};

    ghost left = { λ s. Some s };

    ghost faults = { λ s. 0 };

    /// It gives as many bytes as fit.
    fn read(&mut self, buf: &mut [u8]) -> Result<usize, Failed>
        ensures well { IsOk result }
        ensures number { IfOk result (λ n. n ≡ min (length buf.old) (length self.old)) }
        ensures moved { IfOk result (λ n. buf.new ≡ take n self.old ++ drop n buf.old) }
        ensures rest { IfOk result (λ n. self.new ≡ drop n self.old) }
    {
        Ok(self.take_front(buf))
    }
}

/// A source in memory whose reads fail as planned.
#[derive(Debug, Drop)]
pub struct MemSource {
    source: PureSource,
    plan: Plan,
}

impl Model for MemSource {
    ghost use Rattle.ss_base.specs.Ends.{SourceState};

    ghost Value = { SourceState };

    ghost view = { λ s. record { left = s.source; plan = s.plan } };
}

impl MemSource {
    /// The source of these bytes, with the numbers of the reads that are to fail, counted from 1.
    pub fn new(alloc: Global, bytes: &[u8], fail: &[u64]) -> Result<MemSource, Memory>
        ensures { IfOk result (λ s. s ≡ record { left = bytes.now; plan = unbroken fail.now }) }
    {
        let source = PureSource::new(alloc, bytes)?;
        let plan = Plan::new(alloc, fail)?;
        Ok(MemSource { source, plan })
    }
}

impl Source for MemSource {
    ghost use Rattle.std.specs.Prelude.{Some};

    ghost left = { λ s. Some s.left };

    ghost faults = { λ s. s.plan.faults };

    /// It fails exactly where it is to fail, and gives as many bytes as fit otherwise.
    fn read(&mut self, buf: &mut [u8]) -> Result<usize, Failed>
        ensures count { self.old.plan.faults ≤ self.new.plan.faults }
        ensures cause { OnErr result (Rose self.old.plan.faults self.new.plan.faults) }
        ensures fails { IsErr result ↔ IsToFail self.old.plan }
        ensures failed { OnErr result (self.new ≡ record self.old { plan = failed self.old.plan }) }
        ensures number { IfOk result (λ n. n ≡ min (length buf.old) (length self.old.left)) }
        ensures moved { IfOk result (λ n. buf.new ≡ take n self.old.left ++ drop n buf.old) }
        ensures rest { IfOk result (λ n. self.new ≡
            record { left = drop n self.old.left; plan = passed self.old.plan }) }
    {
        if self.plan.is_to_fail() {
            self.plan.fail();
            return Err(Failed);
        }
        self.plan.pass();
        Ok(self.source.take_front(buf))
    }
}

/// Bytes, and how many there may be.
#[derive(Debug, Drop)]
struct Room {
    bytes: Vec<u8>,
    room: usize,
}

impl Model for Room {
    ghost use Rattle.std.specs.Prelude.{◌≤◌, vec_len, vec_capacity};
    ghost use Rattle.ss_base.specs.Ends.{RoomState};

    ghost Value = { RoomState };

    ghost view = { λ r. record { taken = r.bytes.items; room = r.room } };

    ghost invariant = { λ r. (r.room ≤ vec_capacity r.bytes) × (vec_len r.bytes ≤ r.room) };
}

impl Room {
    fn new(alloc: Global, room: usize) -> Result<Room, Memory>
        ensures { IfOk result (λ r. r ≡ record { taken = []; room = room }) }
    {
        let bytes = Vec::with_capacity(alloc, room)?;
        Ok(Room { bytes, room })
    }

    /// Takes as many bytes of the piece as fit, and answers how many. `None` comes exactly where no byte
    /// fits of a piece that isn't empty.
    fn put(&mut self, piece: &[u8]) -> Option<usize>
        ensures full { IsNone result ↔ FindsNoRoom self.old.taken self.old.room piece.now }
        ensures kept { IfNone result (self.new ≡ self.old) }
        ensures some { 0 < length piece.now → IfSome result (λ n. 0 < n) }
        ensures number { IfSome result (λ n. n ≡ fitting self.old.taken self.old.room piece.now) }
        ensures taken { IfSome result (λ n. self.new ≡
            record self.old { taken = self.old.taken ++ take n piece.now }) }
    {
        let count = piece.len().min(self.room - self.bytes.len());
        if count == 0 && !piece.is_empty() {
            return None;
        }
        match self.bytes.extend_from_slice(&piece[..count]) {
            Ok(()) => Some(count),
            Err(_) => unreachable!(),
        }
    }

    fn bytes(&self) -> &[u8]
        ensures value { result.now ≡ self.now.taken }
        ensures within { length self.now.taken ≤ self.now.room }
    {
        self.bytes.as_slice()
    }
}

/// A sink in memory that fails where its room is full.
#[derive(Debug, Drop)]
pub struct PureSink {
    room: Room,
    faults: u64,
}

impl Model for PureSink {
    ghost use Rattle.std.specs.Prelude.{◌≡◌, ◌<◌, length};
    ghost use Rattle.ss_base.specs.Ends.{PureSinkState};

    ghost Value = { PureSinkState };

    ghost view = { λ s. record { taken = s.room.taken; room = s.room.room; faults = s.faults } };

    ghost invariant = { λ s. 0 < s.faults → length s.room.taken ≡ s.room.room };
}

impl PureSink {
    /// A sink that may take this many bytes in all. It takes the memory for them at once.
    pub fn new(alloc: Global, room: usize) -> Result<PureSink, Memory>
        ensures { IfOk result (λ s. s ≡ record { taken = []; room = room; faults = 0 }) }
    {
        let room = Room::new(alloc, room)?;
        Ok(PureSink { room, faults: 0 })
    }

    /// The bytes that it took. A write has failed only where they fill the room.
    pub fn bytes(&self) -> &[u8]
        ensures value { result.now ≡ self.now.taken }
        ensures within { length self.now.taken ≤ self.now.room }
        ensures full { 0 < self.now.faults → length self.now.taken ≡ self.now.room }
    {
        self.room.bytes()
    }
}

impl Sink for PureSink {
    ghost use Rattle.std.specs.Prelude.{Some};

    ghost taken = { λ s. Some s.taken };

    ghost faults = { λ s. s.faults };

    /// It fails exactly where the room is full and the piece isn't empty, and takes as many bytes as fit
    /// otherwise.
    fn write(&mut self, piece: &[u8]) -> Result<usize, Failed>
        ensures some { 0 < length piece.now → IfOk result (λ n. 0 < n) }
        ensures count { self.old.faults ≤ self.new.faults }
        ensures cause { OnErr result (Rose self.old.faults self.new.faults) }
        ensures fails { IsErr result ↔ FindsNoRoom self.old.taken self.old.room piece.now }
        ensures failed { OnErr result (self.new ≡ record self.old { faults = count_up self.old.faults }) }
        ensures number { IfOk result (λ n. n ≡ fitting self.old.taken self.old.room piece.now) }
        ensures taken { IfOk result (λ n. self.new ≡
            record self.old { taken = self.old.taken ++ take n piece.now }) }
    {
        match self.room.put(piece) {
            Some(count) => Ok(count),
            None => {
                self.faults = self.faults.saturating_add(1);
                Err(Failed)
            }
        }
    }
}

/// A sink in memory whose writes fail as planned, and where its room is full.
#[derive(Debug, Drop)]
pub struct MemSink {
    room: Room,
    plan: Plan,
}

impl Model for MemSink {
    ghost use Rattle.ss_base.specs.Ends.{MemSinkState};

    ghost Value = { MemSinkState };

    ghost view = { λ s. record { taken = s.room.taken; room = s.room.room; plan = s.plan } };
}

impl MemSink {
    /// A sink that may take this many bytes in all, with the numbers of the writes that are to fail,
    /// counted from 1. It takes the memory for the bytes at once.
    pub fn new(alloc: Global, room: usize, fail: &[u64]) -> Result<MemSink, Memory>
        ensures { IfOk result (λ s. s ≡ record { taken = []; room = room; plan = unbroken fail.now }) }
    {
        let room = Room::new(alloc, room)?;
        let plan = Plan::new(alloc, fail)?;
        Ok(MemSink { room, plan })
    }

    /// The bytes that it took.
    pub fn bytes(&self) -> &[u8]
        ensures value { result.now ≡ self.now.taken }
        ensures within { length self.now.taken ≤ self.now.room }
    {
        self.room.bytes()
    }
}

impl Sink for MemSink {
    ghost use Rattle.std.specs.Prelude.{Some};

    ghost taken = { λ s. Some s.taken };

    ghost faults = { λ s. s.plan.faults };

    /// It fails exactly where it is to fail, or where the room is full and the piece isn't empty. It
    /// takes as many bytes as fit otherwise.
    fn write(&mut self, piece: &[u8]) -> Result<usize, Failed>
        ensures some { 0 < length piece.now → IfOk result (λ n. 0 < n) }
        ensures count { self.old.plan.faults ≤ self.new.plan.faults }
        ensures cause { OnErr result (Rose self.old.plan.faults self.new.plan.faults) }
        ensures fails { IsErr result ↔
            (IsToFail self.old.plan ⊎ FindsNoRoom self.old.taken self.old.room piece.now) }
        ensures failed { OnErr result (self.new ≡ record self.old { plan = failed self.old.plan }) }
        ensures number { IfOk result (λ n. n ≡ fitting self.old.taken self.old.room piece.now) }
        ensures taken { IfOk result (λ n. self.new ≡ record self.old {
          taken = self.old.taken ++ take n piece.now;
          plan = passed self.old.plan;
        }) }
    {
        if self.plan.is_to_fail() {
            self.plan.fail();
            return Err(Failed);
        }
        match self.room.put(piece) {
            Some(count) => {
                self.plan.pass();
                Ok(count)
            }
            None => {
                self.plan.fail();
                Err(Failed)
            }
        }
    }
}

#[cfg(test)]
mod tests {
    use super::*;
    use std::test::Fail;

    #[test]
    fn source_fails_at_chosen_reads(rt: HostRuntime) -> Result<(), Fail> {
        let mut source = MemSource::new(rt.alloc(), b"abcd", &[1, 3])?;
        let mut buf = [b'-'; 3];
        let reads = [
            (Err(Failed), b"---"),
            (Ok(3), b"abc"),
            (Err(Failed), b"abc"),
            (Ok(1), b"dbc"),
            (Ok(0), b"dbc"),
        ];
        for (answer, held) in reads {
            assert_eq!(rt; source.read(&mut buf), answer);
            assert_eq!(rt; buf, *held);
        }
        Ok(())
    }

    #[test]
    fn sink_fails_at_chosen_writes_and_where_it_is_full(rt: HostRuntime) -> Result<(), Fail> {
        let mut sink = MemSink::new(rt.alloc(), 4, &[2])?;
        let writes = [
            (b"abc".as_slice(), Ok(3), b"abc".as_slice()),
            (b"d", Err(Failed), b"abc"),
            (b"de", Ok(1), b"abcd"),
            (b"e", Err(Failed), b"abcd"),
            (b"", Ok(0), b"abcd"),
        ];
        for (piece, answer, taken) in writes {
            assert_eq!(rt; sink.write(piece), answer);
            assert_eq!(rt; sink.bytes(), taken);
        }
        Ok(())
    }

    #[test]
    fn pure_ends_pass_bytes_on(rt: HostRuntime) -> Result<(), Fail> {
        let mut source = PureSource::new(rt.alloc(), b"abc")?;
        let mut sink = PureSink::new(rt.alloc(), 2)?;
        let mut buf = [0; 3];
        assert_eq!(rt; source.read(&mut buf), Ok(3));
        assert_eq!(rt; sink.write(&buf), Ok(2));
        assert_eq!(rt; sink.write(b"c"), Err(Failed));
        assert_eq!(rt; sink.bytes(), b"ab".as_slice());
        Ok(())
    }
}
