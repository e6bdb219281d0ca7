//! What the words of a line say.
ghost use Rattle.std.specs.Prelude.{◌≡◌, ℕ, ◌<◌, ◌≤◌, ◌^◌, Ok, IfOk, OnOk, length, decimal};
ghost use Rattle.lift_text.specs.LineReader.{words};
ghost use Rattle.text_sections.specs.Words.{at_least, at_most, exactly, is_word, number, short, signed};
ghost use Rattle.text_sections.specs.Words.{word_at};

use lift_text::{LineReader, Source, TextCode};

/// There are at least this many words on the line.
pub fn at_least<S: Source>(lines: &LineReader<S>, count: u32) -> Result<(), TextCode>
    ensures value { result ≡ at_least (words lines.now) count }
    ensures count { OnOk result (count ≤ length (words lines.now)) }
{
    if lines.words() < count {
        return Err(TextCode::Missing);
    }
    Ok(())
}

/// There are at most this many words on the line.
pub fn at_most<S: Source>(lines: &LineReader<S>, count: u32) -> Result<(), TextCode>
    ensures value { result ≡ at_most (words lines.now) count }
    ensures count { OnOk result (length (words lines.now) ≤ count) }
{
    if lines.words() > count {
        return Err(TextCode::TooMany);
    }
    Ok(())
}

/// There are exactly this many words on the line.
pub fn exactly<S: Source>(lines: &LineReader<S>, count: u32) -> Result<(), TextCode>
    ensures value { result ≡ exactly (words lines.now) count }
    ensures count { OnOk result (length (words lines.now) ≡ count) }
{
    at_least(lines, count)?;
    at_most(lines, count)
}

/// Whether word `k` is this text.
pub fn is_word<S: Source>(lines: &LineReader<S>, k: u32, text: &[u8]) -> bool
    requires { k < length (words lines.now) }
    ensures { result ≡ is_word (words lines.now) k text.now }
{
    lines.word(k) == text
}

/// Word `k` as a number from `low` to `high`, which has no sign. A number that was written is read as
/// that number again.
pub fn number<S: Source>(
    lines: &LineReader<S>,
    k: u32,
    low: u64,
    high: u64,
) -> Result<u64, TextCode>
    requires { k < length (words lines.now) }
    ensures value { result ≡ number (words lines.now) k low high }
    ensures within { IfOk result (λ n. (low ≤ n) × (n ≤ high)) }
    ensures written { (n : ℕ) → n < 2 ^ 64 → word_at (words lines.now) k ≡ decimal n → low ≤ n → n ≤ high
        → result ≡ Ok n }
{
    let value = signed(lines, k, i128::from(low), i128::from(high))?;
    Ok(value as u64)
}

/// Word `k` as an id, a floor or a number of persons: a number from 0 to 4294967295.
pub fn short<S: Source>(lines: &LineReader<S>, k: u32) -> Result<u32, TextCode>
    requires { k < length (words lines.now) }
    ensures { result ≡ short (words lines.now) k }
{
    let value = number(lines, k, 0, u64::from(u32::MAX))?;
    Ok(value as u32)
}

/// Word `k` as a number from `low` to `high`, which a `-` may begin where `low` is below 0.
pub fn signed<S: Source>(
    lines: &LineReader<S>,
    k: u32,
    low: i128,
    high: i128,
) -> Result<i128, TextCode>
    requires { k < length (words lines.now) }
    ensures { result ≡ signed (words lines.now) k low high }
{
    match lines.number(k, low, high) {
        Ok(value) => Ok(value),
        Err(fault) => Err(TextCode::from(fault)),
    }
}
