// The streams of the host.
ghost use Rattle.std.specs.Prelude.{◌≡◌, ◌<◌, ◌⊎◌, length, Ok, IsErr, IfOk, OnOk, MatchResult};
ghost use Rattle.std.specs.Io.{WritesAtMost};
ghost use Rattle.std.specs.Io.KnownBytes.{WriteAppends};
ghost use Rattle.sk_edge.specs.Causes.{HasCause};
ghost use Rattle.sk_edge.specs.Host.{flushed_part};

use crate::{Failed, Sink};
use std::io;
use std::io::Write;

/// A writer of std, which is flushed after each write. Bytes that it took and could not flush do not count as written,
/// and nothing is written behind them.
#[derive(Drop)]
pub struct StreamSink<W: Write> {
    writer: W,
    unflushed: usize,
    faults: u64,
}

/// How many bytes of a piece a writer took, by its answer. To take none of some bytes is a failure.
fn taken(piece: &[u8], answer: io::Result<usize>) -> Result<usize, Failed>
    ensures count { IfOk result (λ count. answer ≡ Ok count) }
    ensures some { IfOk result (λ count. 0 < length piece.now → 0 < count) }
    ensures cause { IsErr result → IsErr answer ⊎ ((answer ≡ Ok 0) × (0 < length piece.now)) }
{
    match answer {
        Ok(0) if !piece.is_empty() => Err(Failed),
        Ok(count) => Ok(count),
        Err(_) => Err(Failed),
    }
}

/// What a write comes to, by how many bytes were taken and how the flush behind it ended.
fn settled(count: usize, flushed: io::Result<()>) -> Result<usize, Failed>
    ensures { MatchResult flushed (λ _. result ≡ Ok count) (λ _. IsErr result) }
{
    match flushed {
        Ok(()) => Ok(count),
        Err(_) => Err(Failed),
    }
}

impl<W: Write + Drop> StreamSink<W> {
    /// What the writer holds counts as written, and no write has failed.
    pub fn new(writer: W) -> StreamSink<W>
        ensures written { ⟦<StreamSink<W> as Sink>⟧.written result ≡ W.contents writer }
        ensures faults { ⟦<StreamSink<W> as Sink>⟧.faults result ≡ 0 }
    {
        StreamSink {
            writer,
            unflushed: 0,
            faults: 0,
        }
    }

    /// Writes the front of a piece, and flushes it. It counts no fault.
    fn push(&mut self, piece: &[u8]) -> Result<usize, Failed>
        ensures bound { WritesAtMost result piece.now }
        ensures some { IfOk result (λ count. 0 < length piece.now → 0 < count) }
        ensures bytes { WriteAppends (flushed_part (W.contents self.old.writer) self.old.unflushed) (flushed_part (W.contents self.new.writer) self.new.unflushed) result piece.now }
        ensures faults { self.new.faults ≡ self.old.faults }
    {
        if self.unflushed > 0 {
            return Err(Failed);
        }
        let count = taken(piece, self.writer.write(piece))?;
        let Ok(count) = settled(count, self.writer.flush()) else {
            self.unflushed = count;
            return Err(Failed);
        };
        Ok(count)
    }
}

impl<W: Write + Drop> Sink for StreamSink<W> {
    ghost written = { λ s. flushed_part (W.contents s.writer) s.unflushed };

    ghost faults = { λ s. s.faults };

    fn write(&mut self, piece: &[u8]) -> Result<usize, Failed>
        ensures bound { WritesAtMost result piece.now }
        ensures some { IfOk result (λ count. 0 < length piece.now → 0 < count) }
        ensures bytes { WriteAppends (flushed_part (W.contents self.old.writer) self.old.unflushed) (flushed_part (W.contents self.new.writer) self.new.unflushed) result piece.now }
        ensures cause { HasCause self.old.faults self.new.faults result }
        // A write that succeeds counts no fault.
        ensures quiet { OnOk result (self.new.faults ≡ self.old.faults) }
    {
        let answer = self.push(piece);
        if answer.is_err() {
            self.faults = self.faults.saturating_add(1);
        }
        answer
    }
}
