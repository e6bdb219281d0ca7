//! Runs in which each read, or each write, fails in turn.

use crate::pieces::section;
use crate::runs::{Bench, Streams};
use crate::steps::Step;
use memchr::memchr_iter;
use std::marker::Sync;
use std::thread::Threads;

/// How many lines stand whole in the first `taken` bytes of a text.
fn whole_lines(text: &[u8], taken: usize) -> usize {
    memchr_iter(b'\n', text.get(..taken).unwrap_or(text)).count()
}

impl<R: Threads + Sync> Bench<'_, R> {
    /// Whether a run is as the one without a fault where a read after the one at the input's end would fail:
    /// then that read is not asked for.
    fn reads_no_further(&mut self, words: &str) -> bool {
        let at_end = self.input.bytes.len().saturating_add(1);
        let mut is_like = self.run(words, "0", Streams::of_reads(1));
        for further in 1..3 {
            let streams = Streams::failing_at_read(at_end.saturating_add(further));
            is_like &= self.run(words, "0", streams) && self.ran.is_like(&self.before);
        }
        is_like
    }

    /// Reads give one byte each, and the first fails, then the second alone, and so on to the one at the
    /// input's end: whether all of these runs are as is due, and no read after it is asked for. A line `after
    /// N` among the pieces says that those after it come with the N-th line.
    pub(crate) fn fits_each_failing_read(&mut self, step: &Step<'_>, words: &str) -> bool {
        let pieces = section(step.lines, "output", "");
        for taken in 0..=self.input.bytes.len() {
            let whole = whole_lines(&self.input.bytes, taken);
            self.due.set_pieces(step.file, pieces, whole);
            let streams = Streams::failing_at_read(taken.saturating_add(1));
            if !self.ends(words, streams, 6, usize::MAX) {
                return false;
            }
        }
        self.reads_no_further(words)
    }

    /// Writes take one byte each, and the first fails, then the second alone, and so on: whether all of these
    /// runs are as is due.
    pub(crate) fn fits_each_failing_write(&mut self, step: &Step<'_>, words: &str) -> bool {
        let pieces = section(step.lines, "output", "");
        self.due.set_pieces(step.file, pieces, usize::MAX);
        for taken in 0..self.due.bytes.len() {
            let streams = Streams::failing_at_write(taken.saturating_add(1));
            if !self.ends(words, streams, 7, taken) {
                return false;
            }
        }
        true
    }
}
