//! The words of the command line: a request with its numbers, and the texts of the faults.

use case_kit::push_word;
use lift_words::{Request, SolveOptions, WordsFault, read_words};
use search_model::Limits;
use std::alloc::Global;
use work_fan::Workers;

/// Appends the words, as a command line has them. False out of memory.
pub(crate) fn put_words(alloc: Global, words: &[&str], all: &mut Vec<String>) -> bool {
    let mut are_whole = true;
    for word in words {
        are_whole &= push_word(alloc, all, word, "");
    }
    are_whole
}

fn are_same(options: SolveOptions, due: SolveOptions) -> bool {
    options.limits.rounds() == due.limits.rounds()
        && options.limits.most_tours() == due.limits.most_tours()
        && options.workers.count() == due.workers.count()
        && options.claims == due.claims
        && options.brief == due.brief
        && options.progress == due.progress
}

/// Whether the words are the request with these options.
fn is_solve(alloc: Global, words: &[String], due: SolveOptions) -> bool {
    match read_words(alloc, words) {
        Ok(Request::Solve(options)) => are_same(options, due),
        _ => false,
    }
}

fn are_words_of(alloc: Global, words: &[&str], due: Option<SolveOptions>) -> bool {
    let Some(due) = due else {
        return false;
    };
    let mut all = Vec::new(alloc);
    put_words(alloc, words, &mut all) && is_solve(alloc, all.as_slice(), due)
}

fn options_due() -> Option<SolveOptions> {
    Some(SolveOptions {
        limits: Limits::new(11, 7)?,
        workers: Workers::new(3)?,
        claims: 29,
        brief: true,
        progress: false,
    })
}

#[test]
fn a_request_has_its_numbers(rt: HostRuntime) {
    let words = [
        "lift",
        "solve",
        "--brief",
        "--moves=7",
        "--claims=29",
        "--workers",
        "3",
        "--rounds=011",
    ];
    assert!(rt; are_words_of(rt.alloc(), &words, options_due()));
}

fn has_text(alloc: Global, fault: WordsFault, due: &str) -> bool {
    match format!(in alloc; "{fault}") {
        Ok(text) => text.as_str() == due,
        Err(_) => false,
    }
}

#[test]
fn faults_have_a_text(rt: HostRuntime) {
    assert!(rt; has_text(rt.alloc(), WordsFault::NotTaken, "the words are not taken"));
    assert!(rt; has_text(rt.alloc(), WordsFault::NoMemory, "out of memory"));
}
