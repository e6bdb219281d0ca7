//! Answers that are damaged: a check of one says no, refuses it, or says yes to what is so.

use crate::due::{is_said, lines_of};
use crate::pieces::Text;
use crate::runs::{Bench, Streams};
use bstr::ByteSlice;
use std::marker::Sync;
use std::mem;
use std::thread::Threads;

/// What is done to an answer.
#[derive(Clone, Copy)]
enum Damage {
    /// A line is written `before` times before the next one, and is put after it, or not.
    Line { before: usize, is_after: bool },
    /// This is added to a digit.
    Digit { step: u8 },
}

/// A line is dropped, doubled and put after the next one, and a digit is one more and one less.
const DAMAGES: [Damage; 5] = [
    Damage::Line {
        before: 0,
        is_after: false,
    },
    Damage::Line {
        before: 2,
        is_after: false,
    },
    Damage::Line {
        before: 0,
        is_after: true,
    },
    Damage::Digit { step: 1 },
    Damage::Digit { step: 255 },
];

impl Text {
    /// Appends lines of which the first stands `before` times before the second, and after it, or not.
    fn put_moved(&mut self, text: &[u8], before: usize, is_after: bool) {
        let mut lines = text.lines_with_terminator();
        let line = lines.next().unwrap_or(&[]);
        for _ in 0..before {
            self.put(line);
        }
        self.put(lines.next().unwrap_or(&[]));
        if is_after {
            self.put(line);
        }
        self.put(lines.as_bytes());
    }

    /// Appends a text whose first byte, a digit, is greater by this. False where it is no digit.
    fn put_raised(&mut self, text: &[u8], step: u8) -> bool {
        match text.split_first() {
            Some((digit, rest)) if digit.is_ascii_digit() => {
                self.put(&[digit.wrapping_add(step)]);
                self.put(rest);
                true
            }
            _ => false,
        }
    }

    /// Appends an answer with the line, or the digit, damaged that begins at this place. False where none does.
    fn put_damaged(&mut self, answer: &[u8], place: usize, damage: Damage) -> bool {
        let (front, rest) = answer.split_at_checked(place).unwrap_or((answer, &[]));
        self.put(front);
        match damage {
            Damage::Digit { step } => self.put_raised(rest, step),
            Damage::Line { before, is_after } => {
                self.put_moved(rest, before, is_after);
                front.is_empty() || front.ends_with(b"\n")
            }
        }
    }
}

impl<R: Threads + Sync> Bench<'_, R> {
    /// Whether a check wrote the yes that is due.
    fn says_yes(&self) -> bool {
        match lines_of(self.alloc, &self.ran.text.bytes) {
            Some(lines) => is_said(self.alloc, &self.due, &lines),
            None => false,
        }
    }

    /// Whether a check of the input says no, refuses it, or says the yes that is due.
    fn is_checked(&mut self) -> bool {
        if !self.run("lift check", "0", Streams::of_reads(4096)) {
            return false;
        }
        match self.ran.status {
            0 => self.says_yes(),
            status => status == 4 || status == 5,
        }
    }

    /// Checks the answer with this damage at each place.
    fn checks_each(&mut self, answer: &[u8], damage: Damage) -> bool {
        let case = self.input.bytes.len();
        for place in 0..answer.len() {
            let is_damaged = self.input.put_damaged(answer, place, damage);
            if is_damaged && !self.is_checked() {
                return false;
            }
            self.input.bytes.truncate(case);
        }
        true
    }

    /// Checks the answer with each damage.
    fn checks_all(&mut self, answer: &[u8]) -> bool {
        for damage in DAMAGES.iter() {
            if !self.checks_each(answer, *damage) {
                return false;
            }
        }
        true
    }

    /// Checks what the last run wrote, damaged, as an answer to the case that is the input. `least` is what
    /// the cheapest plan costs. Tells a check that is not right.
    pub(crate) fn checks_damaged(&mut self, name: &str, least: &str) -> bool {
        self.due.clear();
        self.due.put(b"yes {");
        self.due.put(least.as_bytes());
        self.due.put(b"..18446744073709551615} {0..");
        self.due.put(least.as_bytes());
        self.due.put(b"}\n");
        let answer = mem::replace(&mut self.ran.text.bytes, Vec::new(self.alloc));
        let is_right = self.checks_all(&answer);
        if !is_right {
            self.report.differs(name, "damaged", &self.ran);
        }
        is_right
    }
}
