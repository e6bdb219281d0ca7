//! Reads that fail: the reader answers so ever after, and asks for none after the end.

use byte_streams::MemorySource;
use lift_text::{LineReader, RawLine, TextFault};
use std::alloc::{AllocError, Global};

/// A read that fails, where each gives one byte, and what was read before it.
#[derive(Clone, Copy)]
struct Failure {
    read: u64,
    lines: u32,
    lines_with_words: u32,
}

fn source_of(alloc: Global, failing: u64) -> Result<MemorySource, AllocError> {
    let bytes = Vec::from_slice(alloc, b"a\r\n#\n\nb c")?;
    Ok(MemorySource::new(bytes, 1, Vec::from_slice(alloc, &[failing])?))
}

/// Whether both ways to read fail, twice, and the number of lines stays.
fn fails_ever_after(lines: &mut LineReader<MemorySource>, line: u32) -> bool {
    for _ in 0..2 {
        if lines.next_line() != Err(TextFault::Read) || lines.raw_line() != Err(TextFault::Read) {
            return false;
        }
    }
    lines.line() == u64::from(line)
}

/// Whether the lines with words come before the failure, and then it.
fn fails_at_words(lines: &mut LineReader<MemorySource>, failure: Failure) -> bool {
    for _ in 0..failure.lines_with_words {
        if lines.next_line() != Ok(true) {
            return false;
        }
    }
    fails_ever_after(lines, failure.lines)
}

/// Whether the lines as they stand come before the failure, and then it.
fn fails_at_raw(lines: &mut LineReader<MemorySource>, failure: Failure) -> bool {
    for _ in 0..failure.lines {
        if lines.raw_line() != Ok(RawLine::Line) {
            return false;
        }
    }
    lines.raw_line() == Err(TextFault::Read) && fails_ever_after(lines, failure.lines)
}

/// Whether the failure is answered so by a reader of words, or of lines as they stand.
fn fails(lines: &mut LineReader<MemorySource>, failure: Failure, raw: bool) -> bool {
    if raw {
        fails_at_raw(lines, failure)
    } else {
        fails_at_words(lines, failure)
    }
}

fn fails_over(alloc: Global, source: &mut MemorySource, failure: Failure, raw: bool) -> bool {
    match LineReader::new(alloc, source) {
        Ok(mut lines) => fails(&mut lines, failure, raw),
        Err(_) => false,
    }
}

fn is_answered(alloc: Global, failure: Failure, raw: bool) -> bool {
    match source_of(alloc, failure.read) {
        Ok(mut source) => fails_over(alloc, &mut source, failure, raw),
        Err(_) => false,
    }
}

#[test]
fn a_failed_read_is_answered_ever_after(rt: HostRuntime) {
    for (read, lines, lines_with_words) in [(1, 0, 0), (4, 1, 1), (7, 3, 1), (10, 3, 1)] {
        let failure = Failure {
            read,
            lines,
            lines_with_words,
        };
        assert!(rt; is_answered(rt.alloc(), failure, false), "at read {read}");
        assert!(rt;
            is_answered(rt.alloc(), failure, true),
            "at read {read}, as it stands"
        );
    }
}

/// Whether all lines come, and then the end for good.
fn ends_for_good(lines: &mut LineReader<MemorySource>) -> bool {
    for _ in 0..2 {
        if lines.next_line() != Ok(true) {
            return false;
        }
    }
    lines.next_line() == Ok(false) && lines.raw_line() == Ok(RawLine::End) && lines.line() == 4
}

fn ends_over(alloc: Global, source: &mut MemorySource) -> bool {
    match LineReader::new(alloc, source) {
        Ok(mut lines) => ends_for_good(&mut lines),
        Err(_) => false,
    }
}

// The 10th read is the one that finds the end, behind a last line without an LF.
#[test]
fn a_source_is_not_asked_after_its_end(rt: HostRuntime) {
    let is_left_alone = match source_of(rt.alloc(), 11) {
        Ok(mut source) => ends_over(rt.alloc(), &mut source),
        Err(_) => false,
    };
    assert!(rt; is_left_alone);
}
