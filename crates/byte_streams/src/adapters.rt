//! Std's readers and writers as sources and sinks. Nothing is known of the bytes that they give and
//! take.
ghost use Rattle.std.specs.Prelude.{None};

use crate::sinks::{Sink, SinkFault};
use crate::sources::{Source, SourceFault};
use std::io::{ErrorKind, Read, Write};

/// How often one call is repeated after an interruption.
const REPEATS: u32 = 1000;

/// A source over a reader. A call that is interrupted is repeated up to 1,000 times; the next
/// interruption, and any other error, is a fault. The count of faults stops at 2^64 - 1.
#[derive(Drop)]
pub struct StdSource<R> {
    reader: R,
    faults: u64,
}

impl<R> StdSource<R> {
    /// A source that reads from `reader`.
    pub fn new(reader: R) -> StdSource<R> {
        StdSource { reader, faults: 0 }
    }
}

impl<R: Read> Source for StdSource<R> {
    ghost left = { λ _. None };

    ghost faults = { λ s. s.faults };

    fn read(&mut self, into: &mut [u8]) -> Result<usize, SourceFault> {
        for _ in 0..=REPEATS {
            match self.reader.read(into) {
                Ok(count) => return Ok(count),
                Err(error) if error.kind() == ErrorKind::Interrupted => {}
                Err(_) => break,
            }
        }
        self.faults = self.faults.saturating_add(1);
        Err(SourceFault)
    }
}

/// A sink over a writer. A call that is interrupted is repeated up to 1,000 times; the next
/// interruption, any other error, and a write that takes nothing of a piece, is a fault. The count of
/// faults stops at 2^64 - 1.
#[derive(Drop)]
pub struct StdSink<W> {
    writer: W,
    faults: u64,
}

impl<W> StdSink<W> {
    /// A sink that writes to `writer`.
    pub fn new(writer: W) -> StdSink<W> {
        StdSink { writer, faults: 0 }
    }
}

impl<W: Write> Sink for StdSink<W> {
    ghost taken = { λ _. None };

    ghost faults = { λ s. s.faults };

    fn write(&mut self, piece: &[u8]) -> Result<usize, SinkFault> {
        for _ in 0..=REPEATS {
            match self.writer.write(piece) {
                Ok(0) if !piece.is_empty() => break,
                Ok(count) => return Ok(count),
                Err(error) if error.kind() == ErrorKind::Interrupted => {}
                Err(_) => break,
            }
        }
        self.faults = self.faults.saturating_add(1);
        Err(SinkFault)
    }
}
