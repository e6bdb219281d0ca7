//! Words as numbers of up to 128 bits, and numbers and lines as text.

use byte_streams::SureSource;
use lift_text::{LineReader, NumberFault, put_line, put_number};
use std::alloc::{AllocError, Global};

const NUMBERS: &[u8] =
    b"170141183460469231731687303715884105727 170141183460469231731687303715884105728 \
    -170141183460469231731687303715884105728 1000000000000000000000000000000000000000 -1 -0 - \
    -000000000000000000000000000000000000000000000001 +1";

const OUTSIDE: Result<i128, NumberFault> = Err(NumberFault::OutOfRange);

const NONE: Result<i128, NumberFault> = Err(NumberFault::NoNumber);

/// Words, the least number that they may write, and what is read.
const READ: [(u32, i128, Result<i128, NumberFault>); 11] = [
    (0, i128::MIN, Ok(i128::MAX)),
    (1, i128::MIN, OUTSIDE),
    (2, i128::MIN, Ok(i128::MIN)),
    (3, i128::MIN, OUTSIDE),
    (4, i128::MIN, Ok(-1)),
    (4, 0, NONE),
    (5, -1, Ok(0)),
    (5, 0, NONE),
    (6, i128::MIN, NONE),
    (7, i128::MIN, Ok(-1)),
    (8, i128::MIN, NONE),
];

/// The first word of the table that is not read so.
fn first_wrong(lines: &LineReader<SureSource>) -> Option<u32> {
    for (word, low, due) in READ {
        if word >= lines.words() || lines.number(word, low, i128::MAX) != due {
            return Some(word);
        }
    }
    None
}

/// Whether a line has nine words, and each row of the table is so.
fn reads_numbers(lines: &mut LineReader<SureSource>) -> bool {
    lines.next_line() == Ok(true) && lines.words() == 9 && first_wrong(lines).is_none()
}

fn are_numbers(alloc: Global, source: &mut SureSource) -> bool {
    match LineReader::new(alloc, source) {
        Ok(mut lines) => reads_numbers(&mut lines),
        Err(_) => false,
    }
}

fn are_read(alloc: Global) -> bool {
    match Vec::from_slice(alloc, NUMBERS) {
        Ok(bytes) => are_numbers(alloc, &mut SureSource::new(bytes)),
        Err(_) => false,
    }
}

#[test]
fn numbers_have_up_to_128_bits(rt: HostRuntime) {
    assert!(rt; are_read(rt.alloc()));
}

/// The least number behind two bytes.
fn with_number(alloc: Global) -> Result<Vec<u8>, AllocError> {
    let mut out = Vec::from_slice(alloc, b"x ")?;
    put_number(&mut out, i128::MIN)?;
    Ok(out)
}

/// A line with the greatest number of 64 bits behind another line.
fn with_line(alloc: Global) -> Result<Vec<u8>, AllocError> {
    let mut out = Vec::from_slice(alloc, b"x\n")?;
    put_line(&mut out, b"floors", &[0, 18_446_744_073_709_551_615])?;
    Ok(out)
}

fn is_text(made: Result<Vec<u8>, AllocError>, due: &[u8]) -> bool {
    match made {
        Ok(text) => text.as_slice() == due,
        Err(_) => false,
    }
}

#[test]
fn numbers_are_appended(rt: HostRuntime) {
    let due = b"x -170141183460469231731687303715884105728";
    assert!(rt; is_text(with_number(rt.alloc()), due));
}

#[test]
fn lines_are_appended(rt: HostRuntime) {
    assert!(rt; is_text(with_line(rt.alloc()), b"x\nfloors 0 18446744073709551615\n"));
}
