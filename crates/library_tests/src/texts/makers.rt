//! What several of the tests read from. Sources, readers and the snapshot are made, lent and let go here, so
//! that no test owns one: each exit of a function repeats the drops of what it owns.

ghost use Rattle.std.specs.Prelude.{◌≡◌, ◌≤◌, None};
ghost use Rattle.lift_text.specs.LineReader.{failure};

use building_text::read_building;
use byte_streams::{MemorySource, Source, SureSource};
use call_state::{Building, Snapshot};
use case_kit::snapshot_in;
use lift_text::LineReader;
use std::alloc::Global;

/// A building: car 7 serves all four floors, car 3 the lower three.
const HOUSE: &[u8] = b"building 1
speed 2000
accel 1000
weights 1 1
floors 0 4000 8000 12000
car 7 8 1000 1000 500 500 all
car 3 2 900 1100 500 500 0 1 2
end
";

/// Calls 22, 7 and 4 are open in it.
const NOON: &[u8] = b"building 1
speed 2000
accel 1000
weights 1 1
floors 0 4000 8000 12000
car 7 8 1000 1000 500 500 all
car 3 2 900 1100 500 500 0 1 2
end
snapshot 1
now 5000
car 7 idle 1 5000
car 3 idle 2 5000
call 22 0 3 1 4999 any
call 7 2 0 2 5000 3
call 4 1 2 1 4000 any
end
";

/// A source that gives these bytes in pieces.
pub(crate) fn source_of(alloc: Global, bytes: &[u8], each: usize) -> Option<MemorySource>
    requires { 1 ≤ each }
{
    let bytes = Vec::from_slice(alloc, bytes).ok()?;
    Some(MemorySource::new(bytes, each, Vec::new(alloc)))
}

/// What is asked of the lines of a text.
pub(crate) trait OfLines {
    fn is_so(&self, alloc: Global, lines: &mut LineReader<MemorySource>) -> bool
        requires { failure lines.old ≡ None };
}

/// Whether it is so of the lines of the source.
pub(crate) fn is_so_over<A: OfLines>(alloc: Global, source: &mut MemorySource, asked: &A) -> bool {
    match LineReader::new(alloc, source) {
        Ok(mut lines) => asked.is_so(alloc, &mut lines),
        Err(_) => false,
    }
}

/// Whether it is so of the lines of these bytes, which come in pieces.
pub(crate) fn is_so_of<A: OfLines>(alloc: Global, bytes: &[u8], each: usize, asked: &A) -> bool
    requires { 1 ≤ each }
{
    match source_of(alloc, bytes, each) {
        Some(mut source) => is_so_over(alloc, &mut source, asked),
        None => false,
    }
}

/// The words of the next line, and none where there is no line.
pub(crate) fn words_behind<S: Source>(lines: &mut LineReader<S>) -> u32 {
    match lines.next_line() {
        Ok(true) => lines.words(),
        _ => 0,
    }
}

fn house_in(alloc: Global, source: &mut SureSource) -> Option<Building> {
    match LineReader::new(alloc, source) {
        Ok(mut lines) => read_building(alloc, &mut lines).ok(),
        Err(_) => None,
    }
}

/// The building.
pub(crate) fn house(alloc: Global) -> Option<Building> {
    match Vec::from_slice(alloc, HOUSE) {
        Ok(bytes) => house_in(alloc, &mut SureSource::new(bytes)),
        Err(_) => None,
    }
}

/// What is asked of the snapshot with the three calls.
pub(crate) trait OfNoon {
    fn is_so(&self, alloc: Global, snapshot: &Snapshot) -> bool;
}

/// Whether it is so of the snapshot with the three calls.
pub(crate) fn is_so_at_noon<A: OfNoon>(alloc: Global, asked: &A) -> bool {
    match snapshot_in(alloc, NOON) {
        Some(snapshot) => asked.is_so(alloc, &snapshot),
        None => false,
    }
}
