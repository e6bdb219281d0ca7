//! Several numbers of a line.
ghost use Rattle.lift_text.specs.LineReader.{words};
ghost use Rattle.text_sections.specs.NumberLists.{numbers, Appends};

use crate::faults::LineFault;
use crate::words::number;
use lift_text::{LineReader, Source};

/// Appends the words from `from` on as numbers from `low` to `high`. The first word that is none, or is
/// outside the range, decides the code.
pub fn numbers<S: Source>(
    lines: &LineReader<S>,
    from: u32,
    low: u64,
    high: u64,
    out: &mut Vec<u64>,
) -> Result<(), LineFault>
    ensures { Appends (numbers (words lines.now) from low high) out.old.items result out.new.items }
{
    for k in from..lines.words() {
        let value = number(lines, k, low, high)?;
        out.push(value)?;
    }
    Ok(())
}
