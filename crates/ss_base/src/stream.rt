ghost use Rattle.std.specs.Prelude.{◌≡◌, ℕ, ◌<◌, ◌≤◌, List, Option, length, take, IfOk, OnOk, OnErr};
ghost use Rattle.ss_base.specs.Streams.{Rose, Reads, AddsBack, TakesPrefix};

use crate::types::Failed;

/// Where bytes are read from.
pub trait Source {
    /// The bytes that are left, where it tells them.
    ghost left: { Self → Option (List ℕ) };

    /// How often it failed, a count that never falls and stands still at 2^64 - 1.
    ghost faults: { Self → ℕ };

    /// Reads some bytes into the front of the buffer and answers how many. For a buffer that isn't
    /// empty the answer 0 is the end of input. `Failed` comes only where the count of faults rose in
    /// this call; no byte is taken then.
    fn read(&mut self, buf: &mut [u8]) -> Result<usize, Failed>
        ensures ok { IfOk result (λ n. Reads (left self.old) (left self.new) buf.new n) }
        ensures count { faults self.old ≤ faults self.new }
        ensures cause { OnErr result (Rose (faults self.old) (faults self.new)) }
        ensures err { OnErr result (left self.new ≡ left self.old) };
}

/// Where bytes are written to.
pub trait Sink {
    /// The bytes taken so far, where it tells them.
    ghost taken: { Self → Option (List ℕ) };

    /// How often it failed, a count that never falls and stands still at 2^64 - 1.
    ghost faults: { Self → ℕ };

    /// Takes some bytes from the front of the piece and answers how many: at least one of a piece that
    /// isn't empty. `Failed` comes only where the count of faults rose in this call; no byte is taken
    /// then.
    fn write(&mut self, piece: &[u8]) -> Result<usize, Failed>
        ensures within { IfOk result (λ n. n ≤ length piece.now) }
        ensures some { 0 < length piece.now → IfOk result (λ n. 0 < n) }
        ensures ok { IfOk result (λ n. AddsBack (taken self.old) (taken self.new) (take n piece.now)) }
        ensures count { faults self.old ≤ faults self.new }
        ensures cause { OnErr result (Rose (faults self.old) (faults self.new)) }
        ensures err { OnErr result (taken self.new ≡ taken self.old) };
}

/// Writes the whole piece, at least a byte a turn, and takes no memory. `Failed` comes only where the
/// sink's count of faults rose in this call; a prefix of the piece was taken then, and not all.
pub fn write_all<K: Sink>(sink: &mut K, piece: &[u8]) -> Result<(), Failed>
    ensures ok { OnOk result (AddsBack (K.taken sink.old) (K.taken sink.new) piece.now) }
    ensures count { K.faults sink.old ≤ K.faults sink.new }
    ensures cause { OnErr result (Rose (K.faults sink.old) (K.faults sink.new)) }
    ensures err { OnErr result (TakesPrefix (K.taken sink.old) (K.taken sink.new) piece.now) }
{
    let mut at = 0usize;
    while at < piece.len() {
        let (_, rest) = piece.split_at(at);
        at += sink.write(rest)?;
    }
    Ok(())
}
