//! Whether what came is what is due.
//!
//! In what is due a word `{LOW..HIGH}` is any number in this range, a word `...` at the end of a line the
//! rest of that line, and a line `...` any lines, also none.

use crate::pieces::Text;
use std::alloc::Global;

/// Whether a word is a number in the range `{LOW..HIGH}`.
fn is_in_range(range: &str, word: &str) -> bool {
    let (low, high) = range.split_once("..").unwrap_or(("", ""));
    let low = low.strip_prefix("{").unwrap_or("").parse::<u64>();
    let high = high.strip_suffix("}").unwrap_or("").parse::<u64>();
    match (low, high, word.parse::<u64>()) {
        (Ok(low), Ok(high), Ok(found)) => low <= found && found <= high,
        _ => false,
    }
}

/// Whether a word is there and is as is due.
fn is_due(wanted: &str, word: Option<&str>) -> bool {
    match word {
        Some(word) => word == wanted || is_in_range(wanted, word),
        None => false,
    }
}

/// Whether a line is as is due, word by word.
fn fits(due: &str, line: &str) -> bool {
    let mut words = line.split(' ');
    for wanted in due.split(' ') {
        if wanted == "..." {
            return true;
        }
        if !is_due(wanted, words.next()) {
            return false;
        }
    }
    words.next().is_none()
}

/// Whether the lines begin with those that are due.
fn begin(due: &[&str], lines: &[&str]) -> bool {
    for (place, wanted) in due.iter().enumerate() {
        match lines.get(place) {
            Some(line) if fits(wanted, line) => {}
            _ => return false,
        }
    }
    true
}

/// The place after the first lines that are as is due and begin at one of these places.
fn past(due: &[&str], lines: &[&str], from: usize, to: usize) -> Option<usize> {
    for place in from..=to {
        if begin(due, lines.get(place..)?) {
            return place.checked_add(due.len());
        }
    }
    None
}

/// Whether the lines are all that is due: the lines before the first `...` stand first, those after the last
/// one stand last, and the others at the first place after those before them.
fn are_said(due: &[&str], lines: &[&str]) -> bool {
    let mut left = due.len();
    let mut from = 0;
    let mut to = 0;
    for part in due.split(|line| *line == "...") {
        left = left.saturating_sub(part.len());
        if left == 0 {
            from = from.max(lines.len().saturating_sub(part.len()));
        }
        let Some(next) = past(part, lines, from, to) else {
            return false;
        };
        left = left.saturating_sub(1);
        from = next;
        to = lines.len();
    }
    from == lines.len()
}

/// The lines of a text. None where it is no text, or out of memory.
pub(crate) fn lines_of<'a>(alloc: Global, text: &'a [u8]) -> Option<Vec<&'a str>> {
    match str::from_utf8(text) {
        Ok(text) => text.split('\n').collect(alloc).ok(),
        Err(_) => None,
    }
}

/// Whether a text that has these lines is as is due.
pub(crate) fn is_said(alloc: Global, due: &Text, lines: &[&str]) -> bool {
    match lines_of(alloc, &due.bytes) {
        Some(wanted) => due.is_whole && are_said(&wanted, lines),
        None => false,
    }
}
