//! What the words of one line say.
ghost use Rattle.std.specs.Prelude.{◌≡◌, ◌≤◌, ◌<◌, length, IfOk};
ghost use Rattle.lift_text.specs.LineReader.{words};
ghost use Rattle.building_text.specs.Said.{SaysAs};
ghost use Rattle.building_text.specs.Words.{one_number, two_numbers, heights_of};

use call_state::are_rising;
use elevator_model::{Fault, MOST_FLOORS};
use lift_text::{LineReader, Source, TextCode};
use std::alloc::Global;
use text_sections::{LineFault, at_least, at_most, exactly, number, numbers};

/// The greatest height of a floor, in mm.
const HIGHEST: u64 = 1_000_000;

/// A line of one number.
pub(crate) fn one_number<S: Source>(
    lines: &LineReader<S>,
    low: u64,
    high: u64,
) -> Result<u64, TextCode>
    ensures value { result ≡ one_number (words lines.now) low high }
    ensures within { IfOk result (λ n. n ≤ high) }
{
    exactly(lines, 2)?;
    number(lines, 1, low, high)
}

/// A line of two numbers, from 0 to these.
pub(crate) fn two_numbers<S: Source>(
    lines: &LineReader<S>,
    first: u64,
    second: u64,
) -> Result<(u64, u64), TextCode>
    ensures { result ≡ two_numbers (words lines.now) first second }
{
    exactly(lines, 3)?;
    Ok((number(lines, 1, 0, first)?, number(lines, 2, 0, second)?))
}

/// The heights of a line, in mm.
pub(crate) fn heights<S: Source>(
    alloc: Global,
    lines: &LineReader<S>,
) -> Result<Vec<u64>, LineFault>
    ensures value { SaysAs (λ v. v.items) (heights_of (words lines.now)) result }
    ensures floors { IfOk result (λ v. (2 ≤ length v.items) × (length v.items ≤ 64)) }
{
    at_least(lines, 3)?;
    at_most(lines, MOST_FLOORS + 1)?;
    let mut heights = Vec::new(alloc);
    numbers(lines, 1, 0, HIGHEST, &mut heights)?;
    if !are_rising(&heights) {
        return Err(LineFault::Bad(TextCode::Item(Fault::NotRising)));
    }
    Ok(heights)
}
