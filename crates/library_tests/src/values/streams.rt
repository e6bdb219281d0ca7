//! Sources and sinks, in memory and over std's readers and writers.

ghost use Rattle.std.specs.Prelude.{◌≡◌, IfOk};

use byte_streams::{
    Gate, MemorySink, MemorySource, OpenGate, Sink, SinkFault, Source, SourceFault, StdSink,
    StdSource, SureSink, SureSource, put_all, read_full,
};
use std::alloc::Global;
use std::io;
use std::io::{ErrorKind, Read, Write};

/// A stream whose first calls are interrupted and whose later calls find the end.
#[derive(Drop)]
struct Interrupted {
    times: u32,
}

impl Interrupted {
    fn call(&mut self) -> io::Result<usize>
        ensures { IfOk result (λ count. count ≡ 0) }
    {
        if self.times == 0 {
            return Ok(0);
        }
        self.times -= 1;
        Err(io::Error::from(ErrorKind::Interrupted))
    }
}

impl Read for Interrupted {
    fn read(&mut self, _buf: &mut [u8]) -> io::Result<usize> {
        self.call()
    }
}

impl Write for Interrupted {
    fn write(&mut self, _buf: &[u8]) -> io::Result<usize> {
        self.call()
    }

    fn flush(&mut self) -> io::Result<()> {
        Ok(())
    }
}

/// Whether a read after this many interrupted ones gives nothing, or fails and the next one gives nothing.
fn reads_after(times: u32, fails: bool) -> bool {
    let mut into = [0; 4];
    let mut source = StdSource::new(Interrupted { times });
    (!fails || source.read(&mut into) == Err(SourceFault)) && source.read(&mut into) == Ok(0)
}

/// Whether a read with room for three bytes gives the first three.
fn reads_a_part() -> bool {
    let mut into = [0; 4];
    let mut source = StdSource::new(b"lift".as_slice());
    source.read(&mut into[..3]) == Ok(3) && into == *b"lif\0"
}

#[test]
fn std_source_repeats_a_thousand_interrupted_reads(rt: HostRuntime) {
    assert!(rt; reads_after(1000, false) && reads_after(1001, true) && reads_a_part());
}

/// Whether a write after a thousand interrupted ones takes nothing of nothing.
fn writes_after_a_thousand() -> bool {
    StdSink::new(Interrupted { times: 1000 }).write(b"") == Ok(0)
}

/// Whether one more is a fault, and then nothing is taken of nothing, and of a piece none: a fault again.
fn writes_after_one_more() -> bool {
    let mut sink = StdSink::new(Interrupted { times: 1001 });
    sink.write(b"") == Err(SinkFault)
        && sink.write(b"") == Ok(0)
        && sink.write(b"lift") == Err(SinkFault)
}

/// Whether a list takes a whole piece.
fn writes_a_piece(alloc: Global) -> bool {
    StdSink::new(Vec::new(alloc)).write(b"lift") == Ok(4)
}

#[test]
fn std_sink_repeats_a_thousand_interrupted_writes(rt: HostRuntime) {
    assert!(rt; writes_after_a_thousand() && writes_after_one_more());
    assert!(rt; writes_a_piece(rt.alloc()));
}

/// Whether the third read fails, in the middle of a text that is read in pieces of three bytes.
fn fails_at_the_third(source: &mut MemorySource) -> bool {
    let mut into = [0; 7];
    source.read(&mut into) == Ok(3)
        && read_full(source, &mut into) == Err(SourceFault)
        && into == *b"vat\0\0\0\0"
        && read_full(source, &mut into) == Ok(2)
        && into == *b"ort\0\0\0\0"
}

fn failing_source(alloc: Global) -> Option<MemorySource> {
    let bytes = Vec::from_slice(alloc, b"elevator").ok()?;
    let failing = Vec::from_slice(alloc, &[3]).ok()?;
    Some(MemorySource::new(bytes, 3, failing))
}

fn fails_in_memory(alloc: Global) -> bool {
    match failing_source(alloc) {
        Some(mut source) => fails_at_the_third(&mut source),
        None => false,
    }
}

#[test]
fn source_in_memory_fails_at_the_listed_read(rt: HostRuntime) {
    assert!(rt; fails_in_memory(rt.alloc()));
}

fn gives_seven(source: &mut SureSource) -> bool {
    let mut into = [0; 7];
    read_full(source, &mut into) == Ok(7) && into == *b"elevato"
}

fn gives_its_bytes(alloc: Global) -> bool {
    match Vec::from_slice(alloc, b"elevator") {
        Ok(bytes) => gives_seven(&mut SureSource::new(bytes)),
        Err(_) => false,
    }
}

#[test]
fn sure_source_gives_its_bytes(rt: HostRuntime) {
    assert!(rt; gives_its_bytes(rt.alloc()));
}

/// Whether the second write fails, and later ones end where the room does.
fn fails_at_the_second(sink: &mut MemorySink) -> bool {
    put_all(sink, b"lifts") == Err(SinkFault)
        && sink.taken() == b"lif".as_slice()
        && put_all(sink, b"elevator") == Err(SinkFault)
        && sink.taken() == b"lifelevat".as_slice()
}

fn failing_sink(alloc: Global) -> Option<MemorySink> {
    let failing = Vec::from_slice(alloc, &[2]).ok()?;
    MemorySink::new(alloc, 9, 3, failing).ok()
}

fn writes_to_its_room(alloc: Global) -> bool {
    match failing_sink(alloc) {
        Some(mut sink) => fails_at_the_second(&mut sink),
        None => false,
    }
}

#[test]
fn sink_in_memory_fails_at_the_listed_write(rt: HostRuntime) {
    assert!(rt; writes_to_its_room(rt.alloc()));
}

fn has_room_for_six(sink: &mut SureSink) -> bool {
    put_all(sink, b"lift") == Ok(())
        && put_all(sink, b"lift") == Err(SinkFault)
        && sink.taken() == b"liftli".as_slice()
}

fn takes_what_it_has_room_for(alloc: Global) -> bool {
    match SureSink::new(alloc, 6) {
        Ok(mut sink) => has_room_for_six(&mut sink),
        Err(_) => false,
    }
}

#[test]
fn sure_sink_takes_what_it_has_room_for(rt: HostRuntime) {
    assert!(rt; takes_what_it_has_room_for(rt.alloc()));
}

#[test]
fn open_gate_lets_a_job_begin() {
    OpenGate.enter(0);
}
