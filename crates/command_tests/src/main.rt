//! `command_tests FILE..` runs the cases of these files through the program, with sources and sinks in
//! memory. It prints a line for each case that differs, with what came, and last how many cases there were.
//! `docs/cases.md` says how a case is written.
#![tactic(auto)]

mod bounds;
mod cases;
mod damage;
mod due;
mod faults;
mod pieces;
mod report;
mod runs;
mod steps;
mod tables;

use due::lines_of;
use runs::Bench;
use std::marker::Sync;
use std::process::ExitCode;
use std::thread::Threads;
use std::{env, fs};

/// Whether a block begins with this line.
fn is_head(line: &str) -> bool {
    line.starts_with("text ") || line.starts_with("case ") || line.starts_with("table ")
}

impl<R: Threads + Sync> Bench<'_, R> {
    /// Runs a block, if it is a case or a table.
    fn run_block<'a>(&mut self, file: &'a [&'a str], block: &'a [&'a str]) {
        let head = block.first().copied().unwrap_or("");
        if let Some(name) = head.strip_prefix("case ") {
            self.run_case(file, name, block);
        } else if let Some(name) = head.strip_prefix("table ") {
            self.run_table(file, name, block);
        }
    }

    /// Runs the cases of a file.
    fn run_lines<'a>(&mut self, file: &'a [&'a str]) {
        for block in file.chunk_by(|_, line| !is_head(line)) {
            self.run_block(file, block);
        }
    }

    /// Runs the cases of the text of a file. False out of memory.
    fn run_text(&mut self, text: &str) -> bool {
        match lines_of(self.alloc, text.as_bytes()) {
            Some(file) => {
                self.run_lines(&file);
                true
            }
            None => false,
        }
    }
}

/// Runs the cases of the file with this name. False out of memory, and where it is not read.
fn run_file<R: Threads + Sync>(rt: &HostRuntime, bench: &mut Bench<'_, R>, name: &str) -> bool {
    match fs::read_to_string(rt, name) {
        Ok(text) => bench.run_text(&text),
        Err(_) => false,
    }
}

/// Runs the cases of the files that the words name. False where not all of them were run.
fn run_files<R: Threads + Sync>(rt: &HostRuntime, bench: &mut Bench<'_, R>) -> bool {
    let Ok(words) = env::args(rt) else {
        return false;
    };
    let mut are_run = true;
    for name in words.skip(1) {
        are_run &= run_file(rt, bench, &name);
    }
    are_run
}

fn main(rt: HostRuntime) -> ExitCode {
    let mut bench = Bench::new(&rt, rt.alloc());
    let are_run = run_files(&rt, &mut bench);
    let is_told = bench.report.print(&rt).is_ok();
    if !are_run || !is_told {
        return ExitCode::from(2);
    }
    ExitCode::from(u8::from(bench.report.differing != 0))
}
