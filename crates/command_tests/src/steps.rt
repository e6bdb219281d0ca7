//! A step of a case: runs with its words over an input, each with every number of workers and every size of
//! reads.

use crate::bounds::{are_bounds_right, stand_often};
use crate::due::{is_said, lines_of};
use crate::pieces::Text;
use crate::runs::{Bench, Streams};
use std::alloc::Global;
use std::marker::Sync;
use std::thread::Threads;

/// What stands after this word in the first line that begins with it.
pub(crate) fn said<'a>(lines: &[&'a str], word: &str) -> Option<&'a str> {
    for line in lines {
        if let Some(rest) = line.strip_prefix(word) {
            return Some(rest);
        }
    }
    None
}

/// The lines of a step, with those of its file and the name of its case.
#[derive(Clone, Copy)]
pub(crate) struct Step<'a> {
    pub name: &'a str,
    pub file: &'a [&'a str],
    pub lines: &'a [&'a str],
}

impl Step<'_> {
    /// Whether the step has this line.
    fn has(&self, word: &str) -> bool {
        self.lines.contains(&word)
    }

    /// The number after this word, and the usual one where there is none.
    fn number(&self, word: &str, usual: usize) -> usize {
        match said(self.lines, word) {
            Some(number) => number.parse().unwrap_or(usual),
            None => usual,
        }
    }

    /// How the input comes, in reads of up to this many bytes, and how the output goes.
    fn streams(&self, reads: &str) -> Option<Streams> {
        let plain = Streams::of_reads(reads.parse().ok()?);
        Some(Streams {
            reads: plain.reads,
            writes: self.number("writes ", plain.writes),
            failing_read: self.number("failing read ", 0),
            failing_write: self.number("failing write ", 0),
            room: self.number("room ", plain.room),
        })
    }

    /// Whether the status is one of those that are due.
    fn has_status(&self, status: u8) -> bool {
        let Some(due) = said(self.lines, "status ") else {
            return true;
        };
        for word in due.split(" or ") {
            if word.parse::<u8>() == Ok(status) {
                return true;
            }
        }
        false
    }

    /// Whether lines are those that one of the sections `output` says; any lines are where there is no such
    /// section.
    fn is_text_due(&self, alloc: Global, lines: &[&str], due: &mut Text) -> bool {
        let mut is_any_due = true;
        for (place, line) in self.lines.iter().enumerate() {
            if *line == "output" {
                is_any_due = false;
                let pieces = self.lines.get(place + 1..).unwrap_or(&[]);
                due.set_pieces(self.file, pieces, usize::MAX);
                if is_said(alloc, due, lines) {
                    return true;
                }
            }
        }
        is_any_due
    }

    /// Whether a run that ended with this status and wrote these lines is as is due.
    fn is_met(&self, alloc: Global, status: u8, lines: &[&str], due: &mut Text) -> bool {
        self.has_status(status)
            && (!self.has("bounds") || are_bounds_right(lines, status))
            && stand_often(lines, said(self.lines, "at least ").unwrap_or("0 "))
            && self.is_text_due(alloc, lines, due)
    }
}

impl<R: Threads + Sync> Bench<'_, R> {
    /// Whether what came is as is due.
    fn is_met(&mut self, step: &Step<'_>) -> bool {
        match lines_of(self.alloc, &self.ran.text.bytes) {
            Some(lines) => step.is_met(self.alloc, self.ran.status, &lines, &mut self.due),
            None => false,
        }
    }

    /// Runs with these words and workers, with reads of this size. Whether what came is as is due, and as
    /// what came before where this is not the first run with these words.
    fn run_once(&mut self, step: &Step<'_>, words: &str, workers: &str, reads: &str) -> bool {
        let Some(streams) = step.streams(reads) else {
            return false;
        };
        let is_like = !self.is_first;
        self.is_first = false;
        self.run(words, workers, streams)
            && self.is_met(step)
            && (!is_like || self.ran.is_like(&self.before))
    }

    /// Runs with these words and workers, with each size of reads.
    fn run_reads(&mut self, step: &Step<'_>, words: &str, workers: &str) -> bool {
        for reads in said(step.lines, "reads ").unwrap_or("4096").split(' ') {
            if !self.run_once(step, words, workers, reads) {
                return false;
            }
        }
        true
    }

    /// Runs with these words, each number of workers and each size of reads. All runs have to give the same.
    fn run_all(&mut self, step: &Step<'_>, words: &str) -> bool {
        self.is_first = true;
        for workers in said(step.lines, "workers ").unwrap_or("0").split(' ') {
            if !self.run_reads(step, words, workers) {
                return false;
            }
        }
        true
    }

    /// Runs with these words, with the faults that the step asks for, and tells what is not as is due.
    pub(crate) fn run_line(&mut self, step: &Step<'_>, words: &str) -> bool {
        let is_due = if step.has("each read fails") {
            self.fits_each_failing_read(step, words)
        } else if step.has("each write fails") {
            self.fits_each_failing_write(step, words)
        } else {
            self.run_all(step, words)
        };
        if !is_due {
            self.report.differs(step.name, words, &self.ran);
        }
        is_due
    }

    /// Runs the step with the words of a line, if it has some, and counts that as a case.
    fn run_words_of(&mut self, step: &Step<'_>, line: &str) -> bool {
        match line.strip_prefix("words ") {
            Some(words) => {
                self.report.count();
                self.run_line(step, words)
            }
            None => true,
        }
    }

    /// Runs the first step of a case with all its words.
    pub(crate) fn run_step(&mut self, step: &Step<'_>) -> bool {
        let mut is_due = true;
        for line in step.lines {
            is_due &= self.run_words_of(step, line);
        }
        is_due
    }
}
