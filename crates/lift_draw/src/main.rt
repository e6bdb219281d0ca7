//! `lift_draw`: a picture of a day that `lift` ran.
//!
//! `main` takes the real words, source and sink, calls `run` of `draw_command` and ends with its status.
#![tactic(auto)]

ghost use Rattle.std.specs.Prelude.{◌≡◌, IfErr};

use byte_streams::{Sink, Source, StdSink, StdSource};
use draw_command::{Status, run};
use std::alloc::Global;
use std::process::ExitCode;
use std::{env, io};

/// The words of the command line. Where one is not text there are none, and no such words are taken. An
/// `Err` is the status of running out of memory.
fn words(rt: &HostRuntime) -> Result<Vec<String>, Status>
    ensures { IfErr result (λ status. status ≡ Status.Memory) }
{
    match env::args(rt) {
        Ok(args) => args.collect(rt.alloc()).map_err(|_| Status::Memory),
        Err(error) if error.kind() == io::ErrorKind::OutOfMemory => Err(Status::Memory),
        Err(_) => Ok(Vec::new(rt.alloc())),
    }
}

/// Runs the program with these words. What `run` promises stays out of the proof of `main`, which lets go of
/// the words, the source and the sink.
fn status_of<S: Source, K: Sink>(
    alloc: Global,
    words: &[String],
    source: &mut S,
    sink: &mut K,
) -> Status {
    run(alloc, words, source, sink)
}

fn main(rt: HostRuntime) -> ExitCode {
    let mut source = StdSource::new(rt.reader());
    let mut sink = StdSink::new(io::writer(&rt));
    let status = match words(&rt) {
        Ok(words) => status_of(rt.alloc(), words.as_slice(), &mut source, &mut sink),
        Err(status) => status,
    };
    ExitCode::from(status as u8)
}
