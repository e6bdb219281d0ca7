//! `lift`: exact, machine-checked dispatching of elevator groups.
//!
//! `main` takes the real words, source and sink, threads for the work that is shared out, and standard error for
//! what is told of the work's progress, calls `run` of `lift_commands` and ends with its status.
#![tactic(auto)]

ghost use Rattle.std.specs.Prelude.{◌≡◌, IfErr};

use byte_streams::{Sink, Source, StdSink, StdSource};
use lift_commands::{Status, run};
use progress_gates::ErrorGate;
use std::alloc::Global;
use std::process::ExitCode;
use std::thread::Threads;
use std::{env, io};
use thread_crew::InThreads;

/// The words of the command line. Where one is not text there are none, and no such words are taken. An
/// `Err` is the status of running out of memory.
fn words(rt: &HostRuntime) -> Result<Vec<String>, Status>
    ensures { IfErr result (λ status. status ≡ Status.Memory) }
{
    match env::args(rt) {
        Ok(args) => args.collect(rt.alloc()).map_err(|_| Status::Memory),
        Err(error) if error.kind() == io::ErrorKind::OutOfMemory => Err(Status::Memory),
        Err(_) => Ok(Vec::new(rt.alloc())),
    }
}

/// Runs the command of these words. What `run` promises stays out of the proof of `main`, which lets go of
/// the words, the source and the sink.
fn status_of<S: Source, K: Sink>(
    rt: &(impl Threads + Eprint),
    alloc: Global,
    words: &[String],
    source: &mut S,
    sink: &mut K,
) -> Status {
    let crew = InThreads::new(rt);
    run(&crew, alloc, words, source, sink, &ErrorGate::new(rt))
}

fn main(rt: HostRuntime) -> ExitCode {
    let mut source = StdSource::new(rt.reader());
    let mut sink = StdSink::new(io::writer(&rt));
    let status = match words(&rt) {
        Ok(words) => status_of(&rt, rt.alloc(), words.as_slice(), &mut source, &mut sink),
        Err(status) => status,
    };
    ExitCode::from(status as u8)
}
