//! Commands, run over sources and sinks in memory.

use crate::lookout::Lookout;
use crate::watched::Watched;
use byte_streams::{Gate, OpenGate, Sink, Source};
use lift_commands::{Status, run};
use std::alloc::Global;
use std::thread::Threads;
use thread_crew::InThreads;

/// Appends a word of the command line, in two parts. False out of memory.
pub fn push_word(alloc: Global, words: &mut Vec<String>, first: &str, second: &str) -> bool {
    match String::from_str(alloc, first) {
        Ok(mut word) => word.push_str(second).is_ok() && words.push(word).is_ok(),
        Err(_) => false,
    }
}

/// How a run of the program ends. What `run` promises stays out of the proofs of those who let go of its
/// words, source and sink.
pub fn status_of<S: Source, K: Sink, G: Gate>(
    rt: &impl Threads,
    alloc: Global,
    words: &[String],
    source: &mut S,
    sink: &mut K,
    gate: &G,
) -> Status {
    run(&InThreads::new(rt), alloc, words, source, sink, gate)
}

/// How a run of the program ends, each of whose jobs passes the lookout.
pub fn watched_status_of<S: Source, K: Sink>(
    rt: &impl Threads,
    alloc: Global,
    words: &[String],
    source: &mut S,
    sink: &mut K,
    lookout: &Lookout,
) -> Status {
    let watched = Watched {
        threads: rt,
        lookout,
    };
    run(&watched, alloc, words, source, sink, &OpenGate)
}
