//! Buildings: canonical texts that are written back.

use crate::texts::makers::{OfLines, is_so_of};
use building_text::{read_building, write_building};
use byte_streams::MemorySource;
use call_state::Building;
use lift_text::{LineReader, put_word, put_words};
use std::alloc::Global;

/// The building that is read is written as this text, after what was written before.
#[derive(Clone, Copy)]
struct Canonical<'a> {
    text: &'a [u8],
}

fn is_written_behind(alloc: Global, building: &Building, out: &mut Vec<u8>, text: &[u8]) -> bool {
    write_building(alloc, building, out).is_ok() && out.as_slice().strip_prefix(b"# ") == Some(text)
}

fn is_written(alloc: Global, building: &Building, text: &[u8]) -> bool {
    match Vec::from_slice(alloc, b"# ") {
        Ok(mut out) => is_written_behind(alloc, building, &mut out, text),
        Err(_) => false,
    }
}

impl OfLines for Canonical<'_> {
    fn is_so(&self, alloc: Global, lines: &mut LineReader<MemorySource>) -> bool {
        match read_building(alloc, lines) {
            Ok(building) => is_written(alloc, &building, self.text),
            Err(_) => false,
        }
    }
}

/// Whether a text is read and written as the same bytes.
fn is_canonical(alloc: Global, text: &[u8]) -> bool {
    is_so_of(alloc, text, 7, &Canonical { text })
}

const FIRST: &[u8] = b"building 1
speed 2000
accel 1000
weights 3 7
floors 0 4000 9000
car 7 8 1 2 3 4 all
car 4294967295 64 0 60000 0 5 0 2
end
";

const THIRD: &[u8] = b"building 3
speed 100
accel 5000
weights 0 1000
patience 500 3
floors 5 6
times 0 5000
times 4999 0
car 0 1 9 8 7 6 all
end
";

const GREATEST: &[u8] = b"building 3
speed 20000
accel 5000
weights 1000 1000
patience 1000000000 1000
floors";

/// Appends a line of the greatest times from a floor.
fn put_times(from: u64, out: &mut Vec<u8>) -> Option<()> {
    out.extend_from_slice(b"\ntimes").ok()?;
    for to in 0..64u64 {
        put_word(out, if from == to { 0 } else { 20_000_000 }).ok()?;
    }
    Some(())
}

/// Appends a car that serves all floors but the lowest.
fn put_car(car: u64, out: &mut Vec<u8>) -> Option<()> {
    out.push(b'\n').ok()?;
    let id = 4_294_967_295_u64.saturating_sub(car);
    let numbers = [id, 64, 60_000, 60_000, 60_000, 60_000];
    put_words(out, b"car", &numbers).ok()?;
    for floor in 1..64u64 {
        put_word(out, floor).ok()?;
    }
    Some(())
}

/// Appends what stands behind the head of the largest building: 64 floors, 64 lines of times, 16 cars.
fn put_largest(out: &mut Vec<u8>) -> Option<()> {
    for floor in 0..64u64 {
        put_word(out, floor * 15_873).ok()?;
    }
    for from in 0..64u64 {
        put_times(from, out)?;
    }
    for car in 0..16u64 {
        put_car(car, out)?;
    }
    out.extend_from_slice(b"\nend\n").ok()
}

fn largest_is_canonical(alloc: Global) -> bool {
    match Vec::from_slice(alloc, GREATEST) {
        Ok(mut out) => put_largest(&mut out).is_some() && is_canonical(alloc, out.as_slice()),
        Err(_) => false,
    }
}

#[test]
fn canonical_texts_are_written_back(rt: HostRuntime) {
    assert!(rt; is_canonical(rt.alloc(), FIRST));
    assert!(rt; is_canonical(rt.alloc(), THIRD));
    assert!(rt; largest_is_canonical(rt.alloc()));
}
