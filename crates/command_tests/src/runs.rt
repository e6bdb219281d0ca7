//! Runs of the program over inputs in memory.

use crate::pieces::Text;
use crate::report::Report;
use byte_streams::{MemorySink, MemorySource, OpenGate};
use case_kit::{push_word, status_of};
use std::alloc::Global;
use std::marker::Sync;
use std::mem;
use std::thread::Threads;

/// How the input comes and the output goes: the most bytes of a read and of a write, the number of the read
/// and of the write that fails (0 where none does), and the bytes that the output has room for.
#[derive(Clone, Copy)]
pub(crate) struct Streams {
    pub reads: usize,
    pub writes: usize,
    pub failing_read: usize,
    pub failing_write: usize,
    pub room: usize,
}

impl Streams {
    /// Streams that do not fail, with reads of up to `reads` bytes.
    pub(crate) fn of_reads(reads: usize) -> Streams {
        Streams {
            reads,
            writes: 1 << 22,
            failing_read: 0,
            failing_write: 0,
            room: 1 << 22,
        }
    }

    /// Streams whose reads give one byte each, of which this one fails.
    pub(crate) fn failing_at_read(read: usize) -> Streams {
        Streams {
            failing_read: read,
            ..Streams::of_reads(1)
        }
    }

    /// Streams whose writes take one byte each, of which this one fails.
    pub(crate) fn failing_at_write(write: usize) -> Streams {
        Streams {
            writes: 1,
            failing_write: write,
            ..Streams::of_reads(61)
        }
    }

    /// The source of an input.
    fn source(self, alloc: Global, input: &[u8]) -> Option<MemorySource> {
        let failing = Vec::from_slice(alloc, &[self.failing_read as u64]).ok()?;
        let bytes = Vec::from_slice(alloc, input).ok()?;
        Some(MemorySource::new(bytes, self.reads.max(1), failing))
    }

    /// The sink of an output.
    fn sink(self, alloc: Global) -> Option<MemorySink> {
        let failing = Vec::from_slice(alloc, &[self.failing_write as u64]).ok()?;
        MemorySink::new(alloc, self.room, self.writes.max(1), failing).ok()
    }
}

/// How a run ended, and what it wrote.
#[derive(Drop)]
pub(crate) struct Ran {
    pub status: u8,
    pub text: Text,
}

impl Ran {
    /// Whether the run ended with this status and wrote as many bytes of this text, or all where it has fewer.
    pub(crate) fn is(&self, status: u8, text: &[u8], length: usize) -> bool {
        self.status == status && self.text.bytes.as_slice() == text.get(..length).unwrap_or(text)
    }

    /// Whether another run ended with the same status and wrote the same.
    pub(crate) fn is_like(&self, other: &Ran) -> bool {
        self.is(other.status, &other.text.bytes, usize::MAX)
    }
}

/// Appends the words of a line, between single spaces; the word `''` is the empty one. Workers that are not 0
/// are one word more. False out of memory.
fn push_line(alloc: Global, words: &mut Vec<String>, line: &str, workers: &str) -> bool {
    let mut is_whole = true;
    for word in line.split(' ') {
        let word = if word == "''" { "" } else { word };
        is_whole &= push_word(alloc, words, word, "");
    }
    if workers != "0" {
        is_whole &= push_word(alloc, words, "--workers=", workers);
    }
    is_whole
}

/// What runs the program: its input, what its last two runs came to, what is due, and what is told of the
/// cases.
#[derive(Drop)]
pub(crate) struct Bench<'r, R> {
    runtime: &'r R,
    pub alloc: Global,
    pub input: Text,
    pub due: Text,
    pub ran: Ran,
    pub before: Ran,
    pub report: Report,
    /// Whether the next run is the first with its words, so that no other has to be like it.
    pub is_first: bool,
}

impl<'r, R: Threads + Sync> Bench<'r, R> {
    pub(crate) fn new(runtime: &'r R, alloc: Global) -> Bench<'r, R> {
        Bench {
            runtime,
            alloc,
            input: Text::new(alloc),
            due: Text::new(alloc),
            ran: Ran {
                status: 0,
                text: Text::new(alloc),
            },
            before: Ran {
                status: 0,
                text: Text::new(alloc),
            },
            report: Report::new(alloc),
            is_first: true,
        }
    }

    /// Runs the program from this source, and keeps what came.
    fn run_from(&mut self, words: &[String], source: &mut MemorySource, streams: Streams) -> bool {
        match streams.sink(self.alloc) {
            Some(mut sink) => {
                let ended = status_of(
                    self.runtime,
                    self.alloc,
                    words,
                    source,
                    &mut sink,
                    &OpenGate,
                );
                self.ran.status = ended as u8;
                self.ran.text.put(sink.taken());
                self.ran.text.is_whole
            }
            None => false,
        }
    }

    /// Runs the program with these words over the input.
    fn run_words(&mut self, words: &[String], streams: Streams) -> bool {
        match streams.source(self.alloc, &self.input.bytes) {
            Some(mut source) => self.run_from(words, &mut source, streams),
            None => false,
        }
    }

    /// Runs the program with the words of a line and these workers over the input. False where there is no
    /// memory for it, or the input is not whole.
    pub(crate) fn run(&mut self, line: &str, workers: &str, streams: Streams) -> bool {
        mem::swap(&mut self.ran, &mut self.before);
        self.ran.text.clear();
        let mut words = Vec::new(self.alloc);
        push_line(self.alloc, &mut words, line, workers)
            && self.input.is_whole
            && self.run_words(&words, streams)
    }

    /// Runs the program with the words of a line. Whether it ends with this status and writes as many bytes
    /// of what is due.
    pub(crate) fn ends(&mut self, line: &str, streams: Streams, status: u8, length: usize) -> bool {
        self.run(line, "0", streams) && self.ran.is(status, &self.due.bytes, length)
    }
}
