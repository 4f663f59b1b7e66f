ghost use Rattle.std.specs.Prelude.{◌≡◌, ◌<◌, ◌≤◌, length, None, Ok, OnErr, IfOk};
ghost use Rattle.std.specs.Io.KnownBytes.{WriteAppends};
ghost use Rattle.mbqi_edge.specs.Faults.{Rose};

use crate::{Sink, SinkFailed};
use std::io::Write;

/// A sink over a writer. It doesn't tell what it took: the writer does, where its type has a way to.
#[derive(Drop)]
pub struct WriterSink<W: Write> {
    pub writer: W,
    faults: u64,
}

impl<W: Write> WriterSink<W> {
    /// A sink that keeps the writer, with no fault yet.
    pub fn new(writer: W) -> WriterSink<W>
        ensures writer { result.writer ≡ writer }
        ensures faults { ⟦<WriterSink<W> as Sink>⟧.faults result ≡ 0 }
    {
        WriterSink { writer, faults: 0 }
    }
}

impl<W: Write> Sink for WriterSink<W> {
    ghost taken = { λ _. None };

    ghost faults = { λ sink. sink.faults };

    /// One call of `write`, and none for an empty piece. An error of the writer is a fault, and so is a writer
    /// that takes nothing.
    fn put(&mut self, piece: &[u8]) -> Result<usize, SinkFailed>
        ensures writes { WriteAppends (W.contents self.old.writer) (W.contents self.new.writer) result
            piece.now }
        ensures empty { length piece.now ≡ 0 → (result ≡ Ok 0) × (self.new ≡ self.old) }

        ensures within { IfOk result (λ n. n ≤ length piece.now) }
        ensures some { IfOk result (λ n. 0 < length piece.now → 0 < n) }
        ensures cause { OnErr result (Rose self.old.faults self.new.faults) }
        ensures faults { self.old.faults ≤ self.new.faults }
    {
        if piece.is_empty() {
            return Ok(0);
        }
        match self.writer.write(piece) {
            Ok(count) if count > 0 => Ok(count),
            _ => {
                self.faults = self.faults.saturating_add(1);
                Err(SinkFailed)
            }
        }
    }
}
