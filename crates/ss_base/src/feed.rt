ghost use Rattle.std.specs.Prelude.{◌≡◌, ◌≤◌, [], length, IfOk, IsErrOf, if◌then◌else◌, vec_capacity};
ghost use Rattle.ss_base.specs.Streams.{Rose};
ghost use Rattle.ss_base.specs.Lines.{FeedState, lines_left, bytes_left, GivesLine, UsesBytes, IsAhead, MovesOn};

use crate::lines::{LineErr, Turn};
use crate::search::{Ahead, Found, LONGEST, find};
use crate::stream::Source;
use crate::types::Memory;
use std::alloc::Global;
use std::marker::Model;

/// The last byte that a line may end with, counted from 1, its line feed among its bytes.
const LAST: usize = 1_048_576;

/// The lines of what a source gives, one after another. A line ends at a line feed; a last line may
/// have none.
#[derive(Debug, Drop)]
pub struct LineFeed {
    line: Vec<u8>,
    ahead: Ahead,
    used: usize,
    unfinished: bool,
}

impl Model for LineFeed {
    ghost use Rattle.ss_base.specs.Lines.{FeedState};

    ghost Value = { FeedState };

    ghost use Rattle.ss_base.specs.Feed.{state_of, IsSound};

    ghost view = { state_of };

    ghost invariant = { IsSound };
}

impl LineFeed {
    /// A feed that gave no line yet. It takes the room for one line and for what is read ahead.
    pub fn new(alloc: Global) -> Result<LineFeed, Memory>
        ensures { IfOk result (λ f. f ≡ record { line = []; ahead = []; used = 0 }) }
    {
        let line = Vec::with_capacity(alloc, LONGEST)?;
        let ahead = Ahead::new(alloc)?;
        Ok(LineFeed {
            line,
            ahead,
            used: 0,
            unfinished: false,
        })
    }

    /// Reads the next line, without memory.
    ///
    /// `TooLong` comes exactly where that line has more than 4,096 bytes without its line feed or ends
    /// behind byte 1,048,576, and comes again at each later call. `ReadFault` comes only where the
    /// source's count of faults rose in this call; what was read so far stays, and a later call goes on
    /// behind it. The source is read only where no whole line is at hand.
    pub fn read_line<S: Source>(&mut self, source: &mut S) -> Result<Turn, LineErr>
        ensures line { GivesLine (lines_left self.old (S.left source.old))
            (lines_left self.new (S.left source.new)) self.new.line result }
        ensures progress { MovesOn self.old.used self.new.used self.new.line result }
        ensures bytes { UsesBytes self.old self.new (bytes_left self.old (S.left source.old))
            (bytes_left self.new (S.left source.new)) result }
        ensures ahead { IsAhead self.new.ahead result }
        ensures count { S.faults source.old ≤ S.faults source.new }
        ensures cause { IsErrOf result LineErr.ReadFault →
            Rose (S.faults source.old) (S.faults source.new) }
    {
        keep(&mut self.line, self.unfinished);
        self.unfinished = true;
        match find(&mut self.line, &mut self.ahead, source)? {
            Found::Feed => {
                let end = self.used + self.line.len() + 1;
                if end > LAST {
                    return Err(LineErr::TooLong);
                }
                self.ahead.skip();
                self.used = end;
                self.unfinished = false;
                Ok(Turn::Line)
            }
            Found::End => {
                if self.line.is_empty() {
                    return Ok(Turn::End);
                }
                let end = self.used + self.line.len();
                if end > LAST {
                    return Err(LineErr::TooLong);
                }
                self.used = end;
                self.unfinished = false;
                Ok(Turn::Line)
            }
        }
    }

    /// The last line that was read, without its line feed. After any other answer of `read_line` it is
    /// the front of the next line, as far as it was read.
    pub fn line(&self) -> &[u8]
        ensures line { result.now ≡ self.now.line }
        ensures short { length result.now ≤ 4096 }
    {
        self.line.as_slice()
    }
}

/// Keeps the front of an unfinished line, and else empties the room.
fn keep(line: &mut Vec<u8>, unfinished: bool)
    ensures items { line.new.items ≡ (if unfinished then line.old.items else []) }
    ensures room { vec_capacity line.new ≡ vec_capacity line.old }
{
    if !unfinished {
        line.clear();
    }
}

#[cfg(test)]
mod tests {
    use super::*;
    use crate::memory::MemSource;
    use std::test::Fail;

    const LONG: Result<Turn, LineErr> = Err(LineErr::TooLong);

    #[test]
    fn reads_lines_up_to_the_end(rt: HostRuntime) -> Result<(), Fail> {
        let mut feed = LineFeed::new(rt.alloc())?;
        let mut source = MemSource::new(rt.alloc(), b"ab\n\nlast", &[1, 3])?;
        let turns = [
            (Err(LineErr::ReadFault), b"".as_slice()),
            (Ok(Turn::Line), b"ab"),
            (Ok(Turn::Line), b""),
            (Err(LineErr::ReadFault), b"last"),
            (Ok(Turn::Line), b"last"),
            (Ok(Turn::End), b""),
            (Ok(Turn::End), b""),
        ];
        for (turn, line) in turns {
            assert_eq!(rt; feed.read_line(&mut source), turn);
            assert_eq!(rt; feed.line(), line);
        }
        Ok(())
    }

    #[test]
    fn keeps_the_front_of_a_line_at_each_fault(rt: HostRuntime) -> Result<(), Fail> {
        let mut bytes = vec![in rt.alloc(); b'x'; 12_000]?;
        bytes[3999] = b'\n';
        bytes[7999] = b'\n';
        for fault in 1..5 {
            let mut feed = LineFeed::new(rt.alloc())?;
            let mut source = MemSource::new(rt.alloc(), &bytes, &[fault])?;
            let mut faults = 0u8;
            let mut lengths = Vec::new(rt.alloc());
            for _ in 0..5 {
                match feed.read_line(&mut source) {
                    Ok(Turn::Line) => lengths.push(feed.line().len())?,
                    Ok(Turn::End) => {}
                    Err(_) => faults = faults.saturating_add(1),
                }
            }
            assert_eq!(rt; lengths.as_slice(), [3999, 3999, 4000].as_slice());
            assert_eq!(rt; faults, 1, "the read {fault} fails");
        }
        Ok(())
    }

    #[test]
    fn refuses_lines_that_are_too_long(rt: HostRuntime) -> Result<(), Fail> {
        for (length, turn) in [(LONGEST, Ok(Turn::Line)), (LONGEST + 1, LONG)] {
            let mut feed = LineFeed::new(rt.alloc())?;
            let mut bytes = vec![in rt.alloc(); b'x'; length]?;
            bytes.push(b'\n')?;
            let mut source = MemSource::new(rt.alloc(), &bytes, &[])?;
            assert_eq!(rt; feed.read_line(&mut source), turn);
            let again = if turn == LONG { LONG } else { Ok(Turn::End) };
            assert_eq!(rt; feed.read_line(&mut source), again);
        }
        Ok(())
    }

    #[test]
    fn refuses_what_ends_past_the_last_byte(rt: HostRuntime) -> Result<(), Fail> {
        for (more, turn) in [(0, Ok(Turn::End)), (1, LONG)] {
            let mut feed = LineFeed::new(rt.alloc())?;
            let bytes = vec![in rt.alloc(); b'\n'; LAST + more]?;
            let mut source = MemSource::new(rt.alloc(), &bytes, &[])?;
            for _ in 0..LAST {
                assert_eq!(rt; feed.read_line(&mut source), Ok(Turn::Line));
            }
            assert_eq!(rt; feed.read_line(&mut source), turn);
            assert_eq!(rt; feed.read_line(&mut source), turn);
        }
        Ok(())
    }
}
