//! The words of a line that is due.

ghost use Rattle.std.specs.Prelude.{◌≡◌, ◌↔◌, ◌<◌, IsTrue, length, decimal};
ghost use Rattle.lift_text.specs.LineReader.{words};
ghost use Rattle.text_sections.specs.Words.{word_at};
ghost use Rattle.day_audit.specs.Words.{due_text, due_words};

use itoa::Buffer;
use lift_text::{LineReader, Source};

/// A word of a log.
#[derive(Clone, Copy)]
pub(crate) enum DueWord {
    Row,
    Accepted,
    Refused,
    Board,
    Deliver,
    Total,
    End,
    /// A number in decimal digits, without leading zeros.
    Number(u64),
}

/// Whether word `k` is this text.
fn is_text<S: Source>(lines: &LineReader<S>, k: u32, text: &[u8]) -> bool
    requires { k < length (words lines.now) }
    ensures { IsTrue result ↔ (word_at (words lines.now) k ≡ text.now) }
{
    lines.word(k) == text
}

/// Whether word `k` is this number, as it is written.
fn is_number<S: Source>(lines: &LineReader<S>, k: u32, number: u64) -> bool
    requires { k < length (words lines.now) }
    ensures { IsTrue result ↔ (word_at (words lines.now) k ≡ decimal number) }
{
    let mut buffer = Buffer::new();
    is_text(lines, k, buffer.format(number).as_bytes())
}

/// Whether word `k` is the one that is due.
fn is_due<S: Source>(lines: &LineReader<S>, k: u32, due: DueWord) -> bool
    requires { k < length (words lines.now) }
    ensures { IsTrue result ↔ (word_at (words lines.now) k ≡ due_text due) }
{
    match due {
        DueWord::Row => is_text(lines, k, b"row"),
        DueWord::Accepted => is_text(lines, k, b"accepted"),
        DueWord::Refused => is_text(lines, k, b"refused"),
        DueWord::Board => is_text(lines, k, b"board"),
        DueWord::Deliver => is_text(lines, k, b"deliver"),
        DueWord::Total => is_text(lines, k, b"total"),
        DueWord::End => is_text(lines, k, b"end"),
        DueWord::Number(number) => is_number(lines, k, number),
    }
}

/// Whether the line has exactly the words that are due.
pub(crate) fn says<S: Source>(lines: &LineReader<S>, due: &[DueWord]) -> bool
    ensures { IsTrue result ↔ (words lines.now ≡ due_words due.now) }
{
    if lines.words() as usize != due.len() {
        return false;
    }
    for k in 0..lines.words() {
        if !is_due(lines, k, due[k as usize]) {
            return false;
        }
    }
    true
}
