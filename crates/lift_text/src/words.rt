//! The words of a line.
ghost use Rattle.std.specs.Prelude.{◌≡◌, ◌+◌, ◌*◌, ◌<◌, ◌≤◌, ◌-◌, ◌++◌, [], All, length, vec_len};
ghost use Rattle.std.specs.Prelude.{vec_capacity};
ghost use Rattle.std.specs.List.{list_all};
ghost use Rattle.lift_text.specs.Lines.{before_comment, is_blank, is_allowed, words_in};
ghost use Rattle.lift_text.specs.Words.{parts_of, word_span};

use crate::places::place_of;

/// Where a word is in its line: from `start` up to `end`.
#[derive(Clone, Copy)]
pub(crate) struct Span {
    pub start: usize,
    pub end: usize,
}

/// What comes before the comment of a line.
pub(crate) fn before_comment(line: &[u8]) -> &[u8]
    ensures value { result.now ≡ before_comment line.now }
    ensures length { length result.now ≤ length line.now }
{
    &line[..place_of(b'#', line)]
}

/// Whether no byte is one that is allowed only in a comment.
pub(crate) fn are_allowed(bytes: &[u8]) -> bool
    ensures { result ≡ list_all is_allowed bytes.now }
{
    bytes
        .iter()
        .all(|byte| matches!(*byte, b' '..=b'~' | b'\t'))
}

fn is_blank(byte: u8) -> bool
    ensures { result ≡ is_blank byte }
{
    byte == b' ' || byte == b'\t'
}

/// Finds the words of a text without a comment, for which there must be room: a word and the blank
/// after it take two bytes at least.
pub(crate) fn find_words(text: &[u8], spans: &mut Vec<Span>)
    requires room { length text.now < 2 * vec_capacity spans.old }
    requires none { spans.old.items ≡ [] }
    ensures words { parts_of text.now spans.new.items ≡ words_in text.now }
    ensures count { 2 * vec_len spans.new ≤ length text.now + 1 }
    ensures capacity { vec_capacity spans.old ≤ vec_capacity spans.new }
    ensures inside { All (λ span. (span.start ≤ span.end)
        × (span.end ≤ length text.now)) spans.new.items }
{
    let mut start = 0;
    for (i, byte) in text.iter().enumerate() {
        if is_blank(*byte) {
            end_word(spans, start, i);
            start = i + 1;
        }
    }
    end_word(spans, start, text.len());
}

/// Adds the word from `start` up to `end`, if it has a byte.
fn end_word(spans: &mut Vec<Span>, start: usize, end: usize)
    requires ordered { start ≤ end }
    requires room { start < end → vec_len spans.old < vec_capacity spans.old }
    ensures items { spans.new.items ≡ spans.old.items ++ word_span start end }
    ensures len { 2 * vec_len spans.new ≤ 2 * vec_len spans.old + (end + 1 - start) }
    ensures capacity { vec_capacity spans.old ≤ vec_capacity spans.new }
{
    if start < end {
        let Ok(()) = spans.push(Span { start, end }) else {
            unreachable!();
        };
    }
}
