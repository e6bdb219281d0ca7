//! Rounds in which a text is read and written again.

use answer_text::{read_answer, write_answer};
use building_text::read_building;
use byte_streams::MemorySource;
use call_state::Snapshot;
use case_text::write_case;
use lift_text::LineReader;
use snapshot_text::read_snapshot;
use std::alloc::{AllocError, Global};
use std::io;

/// How many bytes the source gives at once.
const PIECE: usize = 65_536;

/// What the rounds saw, modulo 2^32.
#[derive(Clone, Copy, Default)]
struct Counts {
    /// The calls that were read.
    calls: u32,
    /// The rounds that wrote what they had read.
    same: u32,
}

/// The snapshot that is read from the lines. None where they are refused, or memory runs out.
fn read_from(alloc: Global, lines: &mut LineReader<MemorySource>) -> Option<Snapshot> {
    match read_building(alloc, lines) {
        Ok(building) => read_snapshot(alloc, lines, building).ok(),
        Err(_) => None,
    }
}

/// Reads an answer to the snapshot and appends its text. False where it is refused, or memory runs out.
fn copy_answer(
    alloc: Global,
    lines: &mut LineReader<MemorySource>,
    snapshot: &Snapshot,
    text: &mut Vec<u8>,
) -> bool {
    match read_answer(alloc, lines, snapshot) {
        Ok(stated) => write_answer(snapshot, &stated, text).is_ok(),
        Err(_) => false,
    }
}

/// Appends the text of a snapshot, reads an answer to it and appends that, and counts its calls. None where
/// the answer is refused, or memory is wanting.
fn copy_rest(
    alloc: Global,
    lines: &mut LineReader<MemorySource>,
    snapshot: &Snapshot,
    text: &mut Vec<u8>,
) -> Option<u32> {
    if write_case(alloc, snapshot, text).is_ok() && copy_answer(alloc, lines, snapshot, text) {
        Some(snapshot.calls().len() as u32)
    } else {
        None
    }
}

/// Reads a case with its answer, appends the text of both, and counts its calls. None where one of them is
/// refused, or memory is wanting.
fn copy_case(
    alloc: Global,
    lines: &mut LineReader<MemorySource>,
    text: &mut Vec<u8>,
) -> Option<u32> {
    match read_from(alloc, lines) {
        Some(snapshot) => {
            let calls = copy_rest(alloc, lines, &snapshot, text);
            drop(snapshot);
            calls
        }
        None => None,
    }
}

/// Reads this many cases with their answers, one after another, appends the text of each, and counts their
/// calls. None where one of them is refused, or memory is wanting.
fn copy_cases(
    alloc: Global,
    lines: &mut LineReader<MemorySource>,
    cases: u32,
    text: &mut Vec<u8>,
) -> Option<u32> {
    let mut calls = 0u32;
    for _ in 0..cases {
        calls = calls.wrapping_add(copy_case(alloc, lines, text)?);
    }
    Some(calls)
}

/// Reads the text of this many cases with their answers by one reader, writes it again, and counts that.
/// False where one is refused, or memory runs out.
fn go_round(alloc: Global, text: &[u8], cases: u32, counts: &mut Counts) -> bool {
    let Ok(bytes) = Vec::from_slice(alloc, text) else {
        return false;
    };
    let mut source = MemorySource::new(bytes, PIECE, Vec::new(alloc));
    let mut written = Vec::new(alloc);
    let calls = match LineReader::new(alloc, &mut source) {
        Ok(mut lines) => copy_cases(alloc, &mut lines, cases, &mut written),
        Err(_) => None,
    };
    counts.calls = counts.calls.wrapping_add(calls.unwrap_or(0));
    counts.same = counts
        .same
        .wrapping_add(u32::from(written.as_slice() == text));
    calls.is_some()
}

/// The text of this many cases, one after another.
fn repeated(alloc: Global, text: &[u8], cases: u32) -> Result<Vec<u8>, AllocError> {
    let mut all = Vec::new(alloc);
    for _ in 0..cases {
        all.extend_from_slice(text)?;
    }
    Ok(all)
}

/// Makes a text of this many of these cases with an answer, reads it `rounds` times from memory, each time by
/// one reader, writes what it read, and prints how many bytes there were and how many of the texts written
/// were the text read. False where the text is none of a building, a snapshot and an answer.
pub(crate) fn print_rounds(
    rt: &HostRuntime,
    case: &[u8],
    rounds: u32,
    cases: u32,
) -> io::Result<bool> {
    let text = repeated(rt.alloc(), case, cases)?;
    let mut counts = Counts::default();
    for _ in 0..rounds {
        if !go_round(rt.alloc(), &text, cases, &mut counts) {
            return Ok(false);
        }
    }
    println!(rt;
        "bytes {} rounds {} calls {} written_back {}",
        text.len(),
        rounds,
        counts.calls,
        counts.same
    )?;
    Ok(true)
}
