//! Cases: one run after another, where a later one reads what an earlier one wrote.

use crate::pieces::section;
use crate::runs::Bench;
use crate::steps::Step;
use std::marker::Sync;
use std::mem;
use std::thread::Threads;

/// What a step begins with.
#[derive(Clone, Copy)]
enum Head<'a> {
    /// These words run over the input of the step before with its output after it.
    Then(&'a str),
    /// These words run over the output of the step before.
    Next(&'a str),
    /// The output of the step before is checked with damages; the cheapest plan costs this.
    Damaged(&'a str),
    /// A first step, with an input of its own.
    First,
}

impl<'a> Head<'a> {
    fn of_line(line: &'a str) -> Head<'a> {
        if let Some(words) = line.strip_prefix("then ") {
            return Head::Then(words);
        }
        if let Some(words) = line.strip_prefix("next ") {
            return Head::Next(words);
        }
        match line.strip_prefix("damaged least ") {
            Some(least) => Head::Damaged(least),
            None => Head::First,
        }
    }
}

/// Whether a later step begins with this line.
fn is_later(line: &str) -> bool {
    !matches!(Head::of_line(line), Head::First)
}

impl<R: Threads + Sync> Bench<'_, R> {
    /// Runs the first step of a case. Says whether it is as is due.
    fn takes_first(&mut self, step: &Step<'_>) -> bool {
        let pieces = section(step.lines, "input", "");
        self.input.set_pieces(step.file, pieces, usize::MAX);
        self.run_step(step)
    }

    /// Runs a step over what the step before it read and wrote. Says whether it is as is due.
    fn takes_step(&mut self, step: &Step<'_>, head: Head<'_>) -> bool {
        match head {
            Head::Then(words) => {
                self.input.put(&self.ran.text.bytes);
                self.run_line(step, words)
            }
            Head::Next(words) => {
                mem::swap(&mut self.input, &mut self.ran.text);
                self.run_line(step, words)
            }
            Head::Damaged(least) => self.checks_damaged(step.name, least),
            Head::First => self.takes_first(step),
        }
    }

    /// Runs the steps of a case, until one is not as is due.
    pub(crate) fn run_case<'a>(
        &mut self,
        file: &'a [&'a str],
        name: &'a str,
        lines: &'a [&'a str],
    ) {
        for lines in lines.chunk_by(|_, line| !is_later(line)) {
            let head = lines.first().copied().unwrap_or("");
            if !self.takes_step(&Step { name, file, lines }, Head::of_line(head)) {
                return;
            }
        }
    }
}
