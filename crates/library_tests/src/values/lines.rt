//! Lines and their words, read from a source that gives its bytes in pieces of any size.

ghost use Rattle.std.specs.Prelude.{◌≤◌};

use byte_streams::MemorySource;
use lift_text::{LineReader, NumberFault, RawLine};
use std::alloc::{AllocError, Global};

/// What a word is as a number of -5 to 99.
#[derive(Clone, Copy, PartialEq)]
enum Word {
    Number(i128),
    /// None, with its size in bytes and its fault.
    Other(usize, NumberFault),
}

/// The words of a text, each with the number of its line, and the line at which they end.
#[derive(Clone, Copy)]
struct Words<'a> {
    words: &'a [(u64, Word)],
    last: u64,
}

/// The lines of a text as they stand: number, answer and size in bytes.
type RawLines<'a> = &'a [(u64, RawLine, usize)];

fn word_at(lines: &LineReader<MemorySource>, k: u32) -> Option<Word> {
    if k >= lines.words() {
        return None;
    }
    match lines.number(k, -5, 99) {
        Ok(value) => Some(Word::Number(value)),
        Err(fault) => Some(Word::Other(lines.word(k).len(), fault)),
    }
}

fn reads_words(lines: &mut LineReader<MemorySource>, due: Words) -> bool {
    // How many words of the present line were compared.
    let mut compared = 0u32;
    for (line, due) in due.words {
        if compared == lines.words() {
            if lines.next_line() != Ok(true) {
                return false;
            }
            compared = 0;
        }
        if lines.line() != *line || word_at(lines, compared) != Some(*due) {
            return false;
        }
        compared = compared.saturating_add(1);
    }
    compared == lines.words() && lines.next_line() == Ok(false) && lines.line() == due.last
}

fn reads_raw(lines: &mut LineReader<MemorySource>, due: RawLines) -> bool {
    for (line, answer, size) in due {
        let is_due = lines.raw_line() == Ok(*answer);
        if !is_due || lines.line() != *line || lines.raw().len() != *size {
            return false;
        }
    }
    true
}

/// A source of these bytes, with at most `each` of them in a read.
fn source_of(alloc: Global, bytes: &[u8], each: usize) -> Result<MemorySource, AllocError>
    requires { 1 ≤ each }
{
    Ok(MemorySource::new(Vec::from_slice(alloc, bytes)?, each, Vec::new(alloc)))
}

/// What is read of a text.
#[derive(Clone, Copy)]
enum Expected<'a> {
    Words(Words<'a>),
    Raw(RawLines<'a>),
}

fn reads(lines: &mut LineReader<MemorySource>, due: Expected) -> bool {
    match due {
        Expected::Words(words) => reads_words(lines, words),
        Expected::Raw(raw) => reads_raw(lines, raw),
    }
}

fn reads_over(alloc: Global, source: &mut MemorySource, due: Expected) -> bool {
    match LineReader::new(alloc, source) {
        Ok(mut lines) => reads(&mut lines, due),
        Err(_) => false,
    }
}

fn is_read_by(alloc: Global, bytes: &[u8], each: usize, due: Expected) -> bool
    requires { 1 ≤ each }
{
    match source_of(alloc, bytes, each) {
        Ok(mut source) => reads_over(alloc, &mut source, due),
        Err(_) => false,
    }
}

/// Whether the text is read so, in pieces of any size.
fn is_read(alloc: Global, bytes: &[u8], due: Expected) -> bool {
    is_read_by(alloc, bytes, 1, due)
        && is_read_by(alloc, bytes, 3, due)
        && is_read_by(alloc, bytes, 100_000, due)
}

/// CR LF, blank lines, comments with any bytes, and no LF at the end. The last numbers have 39 and 40 digits.
const MIXED: &[u8] = b"# \x00\xff any\r\n\r\n \t\nab  7\t-0 # x\x1f\x7f\n-\n007 -5 -6 100 \
    170141183460469231731687303715884105727 1000000000000000000000000000000000000000 \
    0000000000000000000000000000000000000007";

const MIXED_WORDS: [(u64, Word); 11] = [
    (4, Word::Other(2, NumberFault::NoNumber)),
    (4, Word::Number(7)),
    (4, Word::Number(0)),
    (5, Word::Other(1, NumberFault::NoNumber)),
    (6, Word::Number(7)),
    (6, Word::Number(-5)),
    (6, Word::Other(2, NumberFault::OutOfRange)),
    (6, Word::Other(3, NumberFault::OutOfRange)),
    (6, Word::Other(39, NumberFault::OutOfRange)),
    (6, Word::Other(40, NumberFault::OutOfRange)),
    (6, Word::Number(7)),
];

const MIXED_LINES: [(u64, RawLine, usize); 7] = [
    (1, RawLine::Line, 8),
    (2, RawLine::Line, 0),
    (3, RawLine::Line, 2),
    (4, RawLine::Line, 14),
    (5, RawLine::Line, 1),
    (6, RawLine::Line, 135),
    (6, RawLine::End, 0),
];

#[test]
fn lines_are_the_same_in_any_pieces(rt: HostRuntime) {
    let mixed = Words {
        words: &MIXED_WORDS,
        last: 6,
    };
    assert!(rt; is_read(rt.alloc(), MIXED, Expected::Words(mixed)));
    assert!(rt; is_read(rt.alloc(), MIXED, Expected::Raw(&MIXED_LINES)));
}
