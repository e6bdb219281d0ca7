//! A small section, read in pieces, and the lists of numbers of a line.

use crate::texts::makers::{OfLines, is_so_of, words_behind};
use byte_streams::{MemorySource, Source};
use lift_text::{LineReader, TextCode, TextFault};
use std::alloc::Global;
use std::marker::Model;
use text_sections::{
    AfterLine, LineFault, Section, exactly, is_word, number, numbers, read_section,
};

/// Lines `set N once` or `set N twice` with N from 1 to 9, at least one, and `end`.
#[derive(Drop)]
struct Sample {
    state: u64,
}

impl Model for Sample {
    ghost use Rattle.std.specs.Prelude.{ℕ};

    ghost Value = { ℕ };

    ghost view = { λ sample. sample.state };
}

impl Section for Sample {
    ghost use Rattle.library_tests.specs.Sample.{after};

    ghost after = { after };

    fn take_line<S: Source>(&mut self, lines: &LineReader<S>) -> Result<AfterLine, LineFault> {
        if is_word(lines, 0, b"end") {
            return Ok(take_end(self.state, lines)?);
        }
        if !is_word(lines, 0, b"set") {
            return Err(LineFault::from(TextCode::NoLineWord));
        }
        self.state = set_to(lines)?;
        Ok(AfterLine::More)
    }
}

ghost use Rattle.std.specs.Prelude.{◌≡◌, ◌<◌, IfOk, length, Ok};
ghost use Rattle.lift_text.specs.LineReader.{words};
ghost use Rattle.library_tests.specs.Sample.{end_of, set_of, times};

fn take_end<S: Source>(state: u64, lines: &LineReader<S>) -> Result<AfterLine, TextCode>
    ensures { result ≡ end_of state (words lines.now) }
{
    if state == 0 {
        return Err(TextCode::OutOfOrder);
    }
    exactly(lines, 1)?;
    Ok(AfterLine::Whole)
}

fn set_to<S: Source>(lines: &LineReader<S>) -> Result<u64, TextCode>
    ensures { result ≡ set_of (words lines.now) }
{
    exactly(lines, 3)?;
    let number = number(lines, 1, 1, 9)?;
    Ok(number * times(lines)?)
}

fn times<S: Source>(lines: &LineReader<S>) -> Result<u64, TextCode>
    requires { 2 < length (words lines.now) }
    ensures value { result ≡ times (words lines.now) }
    ensures bound { IfOk result (λ k. k < 3) }
{
    if is_word(lines, 2, b"once") {
        Ok(1)
    } else if is_word(lines, 2, b"twice") {
        Ok(2)
    } else {
        Err(TextCode::NoLineWord)
    }
}

/// What is read of the section.
fn read(lines: &mut LineReader<MemorySource>) -> Result<u64, TextFault> {
    let mut sample = Sample { state: 0 };
    match read_section(lines, &mut sample) {
        Ok(()) => Ok(sample.state),
        Err(fault) => Err(fault),
    }
}

/// This is read of the section, and the line behind it has this many words.
#[derive(Clone, Copy)]
struct IsRead {
    want: Result<u64, TextFault>,
    behind: u32,
}

impl OfLines for IsRead {
    fn is_so(&self, _alloc: Global, lines: &mut LineReader<MemorySource>) -> bool {
        read(lines) == self.want && words_behind(lines) == self.behind
    }
}

/// Whether it is so of this text in pieces of any size.
fn is_read(alloc: Global, bytes: &[u8], asked: &IsRead) -> bool {
    is_so_of(alloc, bytes, 1, asked) && is_so_of(alloc, bytes, 100, asked)
}

#[test]
fn sections_are_read_in_any_pieces(rt: HostRuntime) {
    let bad = |line, code| Err(TextFault::Bad { line, code });
    let table: [(&[u8], Result<u64, TextFault>, u32); 11] = [
        (
            b"# a\nset 7 once\n\nset 07 twice\nend # x\nrows a b\n",
            Ok(14),
            3,
        ),
        (b"set 7 once\n\nput 7", bad(3, TextCode::NoLineWord), 0),
        (b"set 7 often\nend", bad(1, TextCode::NoLineWord), 1),
        (b"\nend x", bad(2, TextCode::OutOfOrder), 0),
        (b"set x\nend", bad(1, TextCode::Missing), 1),
        (b"set 1 once\nend x\nend", bad(2, TextCode::TooMany), 1),
        (b"set x often", bad(1, TextCode::NoNumber), 0),
        (b"set 10 often", bad(1, TextCode::OutOfRange), 0),
        (b"set 0 once", bad(1, TextCode::OutOfRange), 0),
        (b"set 1 once\n#\n", bad(3, TextCode::CutShort), 0),
        (b"set 1 once\n\x01\n", bad(2, TextCode::ForbiddenByte), 0),
    ];
    for (bytes, want, behind) in table {
        assert!(rt; is_read(rt.alloc(), bytes, &IsRead { want, behind }));
    }
}

/// Whether three numbers of the line are appended behind one, and with a lower limit refused.
fn appends(lines: &LineReader<MemorySource>, out: &mut Vec<u64>) -> bool {
    numbers(lines, 1, 3, 7, out) == Ok(())
        && out.as_slice() == [2, 7, 5, 3].as_slice()
        && numbers(lines, 1, 3, 6, out) == Err(LineFault::Bad(TextCode::OutOfRange))
}

/// This is so of the next line.
struct HasThreeNumbers;

impl OfLines for HasThreeNumbers {
    fn is_so(&self, alloc: Global, lines: &mut LineReader<MemorySource>) -> bool {
        match Vec::from_slice(alloc, &[2]) {
            Ok(mut out) => lines.next_line() == Ok(true) && appends(lines, &mut out),
            Err(_) => false,
        }
    }
}

#[test]
fn several_numbers_are_appended(rt: HostRuntime) {
    assert!(rt; is_so_of(rt.alloc(), b"x 7 005 3", 4096, &HasThreeNumbers));
}
