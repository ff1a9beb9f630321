ghost use Rattle.std.specs.Prelude.{◌≡◌, ◌<◌, ◌≤◌, length, IfOk, OnErr};
ghost use Rattle.std.specs.Io.KnownBytes.{ReadConsumes, WriteAppends};
ghost use Rattle.ss_base.specs.Streams.{Rose};
ghost use Rattle.ss_base.specs.Ends.{failures_after};

use crate::stream::{Sink, Source};
use crate::types::Failed;
use std::io::{Read, Write};
use std::marker::Model;

/// A reader as a source. As a source it tells nothing of the bytes. Contracts see the count of its
/// faults, and the bytes of the reader where that tells them.
#[derive(Debug, Drop)]
pub struct StdSource<R: Read> {
    inner: R,
    faults: u64,
}

impl<R: Read> Model for StdSource<R> {
    ghost use Rattle.ss_base.specs.Ends.{EndState};

    ghost Value = { EndState };

    ghost view = { λ s. record { known = R.remaining s.inner; faults = s.faults } };
}

impl<R: Read> StdSource<R> {
    /// A source that reads from `inner`, with no fault counted. It takes no memory.
    pub fn new(inner: R) -> StdSource<R>
        ensures { result ≡ record { known = R.remaining inner; faults = 0 } }
    {
        StdSource { inner, faults: 0 }
    }
}

impl<R: Read> Source for StdSource<R> {
    ghost use Rattle.std.specs.Prelude.{None};

    ghost left = { λ _. None };

    ghost faults = { λ s. s.faults };

    fn read(&mut self, buf: &mut [u8]) -> Result<usize, Failed>
        ensures within { IfOk result (λ n. n ≤ length buf.new) }
        ensures counted { self.new.faults ≡ failures_after self.old.faults result }
        ensures passed { ReadConsumes self.old.known self.new.known result buf.new }
        ensures count { self.old.faults ≤ self.new.faults }
        ensures cause { OnErr result (Rose self.old.faults self.new.faults) }
    {
        match self.inner.read(buf) {
            Ok(count) => Ok(count),
            Err(_) => {
                self.faults = self.faults.saturating_add(1);
                Err(Failed)
            }
        }
    }
}

/// A writer as a sink. As a sink it tells nothing of the bytes. Contracts see the count of its faults,
/// and the bytes of the writer where that tells them. A writer that takes no byte of a piece that isn't
/// empty has failed. Nothing is flushed here.
#[derive(Debug, Drop)]
pub struct StdSink<W: Write> {
    inner: W,
    faults: u64,
}

impl<W: Write> Model for StdSink<W> {
    ghost use Rattle.ss_base.specs.Ends.{EndState};

    ghost Value = { EndState };

    ghost view = { λ s. record { known = W.contents s.inner; faults = s.faults } };
}

impl<W: Write> StdSink<W> {
    /// A sink that writes to `inner`, with no fault counted. It takes no memory.
    pub fn new(inner: W) -> StdSink<W>
        ensures { result ≡ record { known = W.contents inner; faults = 0 } }
    {
        StdSink { inner, faults: 0 }
    }
}

impl<W: Write> Sink for StdSink<W> {
    ghost use Rattle.std.specs.Prelude.{None};

    ghost taken = { λ _. None };

    ghost faults = { λ s. s.faults };

    fn write(&mut self, piece: &[u8]) -> Result<usize, Failed>
        ensures within { IfOk result (λ n. n ≤ length piece.now) }
        ensures some { 0 < length piece.now → IfOk result (λ n. 0 < n) }
        ensures counted { self.new.faults ≡ failures_after self.old.faults result }
        ensures passed { WriteAppends self.old.known self.new.known result piece.now }
        ensures count { self.old.faults ≤ self.new.faults }
        ensures cause { OnErr result (Rose self.old.faults self.new.faults) }
    {
        match self.inner.write(piece) {
            Ok(count) if count > 0 || piece.is_empty() => Ok(count),
            _ => {
                self.faults = self.faults.saturating_add(1);
                Err(Failed)
            }
        }
    }
}

#[cfg(test)]
mod tests {
    use super::*;
    use crate::stream::write_all;
    use std::test::Fail;

    #[test]
    fn reads_to_the_end(rt: HostRuntime) -> Result<(), Fail> {
        let bytes: &[u8] = b"abcd";
        let mut source = StdSource::new(bytes);
        let mut buf = [0; 3];
        for (count, front) in [(3, b"abc"), (1, b"dbc"), (0, b"dbc")] {
            assert_eq!(rt; source.read(&mut buf), Ok(count));
            assert_eq!(rt; buf, *front);
        }
        Ok(())
    }

    #[test]
    fn writes_to_a_vector(rt: HostRuntime) -> Result<(), Fail> {
        let mut taken = Vec::new(rt.alloc());
        let mut sink = StdSink::new(&mut taken);
        write_all(&mut sink, b"ab")?;
        write_all(&mut sink, b"c")?;
        assert_eq!(rt; taken.as_slice(), b"abc".as_slice());
        Ok(())
    }

    #[test]
    fn fails_where_no_byte_is_taken(rt: HostRuntime) -> Result<(), Fail> {
        let mut taken = [0; 3];
        let mut sink = StdSink::new(taken.as_mut_slice());
        for (piece, answer) in [(b"ab", Ok(2)), (b"cd", Ok(1)), (b"ef", Err(Failed))] {
            assert_eq!(rt; sink.write(piece), answer);
        }
        assert_eq!(rt; sink.write(b""), Ok(0));
        assert_eq!(rt; taken, *b"abc");
        Ok(())
    }
}
