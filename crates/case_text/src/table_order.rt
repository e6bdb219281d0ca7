//! The order of a table's lines.
ghost use Rattle.std.specs.Prelude.{◌≡◌, ◌<◌, ◌≤◌, length};
ghost use Rattle.lift_text.specs.LineReader.{words};
ghost use Rattle.case_text.specs.TableOrder.{name_of, after_rows, is_first, is_line_word, misplaced};

use lift_text::{LineReader, Source, TextCode};
use text_sections::is_word;

/// The line of a table that is due.
#[derive(Clone, Copy)]
pub(crate) enum Due {
    /// The first line, with the version.
    Head,
    /// The times from a floor. The first such line decides how many floors there are.
    Times { floors: Option<u32> },
    /// The last line, after the times from each of these floors.
    End { floors: u32 },
}

impl Due {
    /// The line word of the line that is due.
    pub(crate) fn name(self) -> &'static [u8]
        ensures { result.now ≡ name_of self }
    {
        match self {
            Due::Head => b"table",
            Due::Times { .. } => b"times",
            Due::End { .. } => b"end",
        }
    }

    /// Whether no line was read yet.
    fn is_first(self) -> bool
        ensures { result ≡ is_first self }
    {
        matches!(self, Due::Head)
    }

    /// What is due after this many times, of this many floors.
    pub(crate) fn after_rows(floors: u32, times: usize) -> Due
        requires { floors ≤ 64 }
        ensures { result ≡ after_rows floors times }
    {
        if times == floors as usize * floors as usize {
            Due::End { floors }
        } else {
            Due::Times {
                floors: Some(floors),
            }
        }
    }

    /// What is wrong with a line that is not due.
    pub(crate) fn misplaced<S: Source>(self, lines: &LineReader<S>) -> TextCode
        requires { 0 < length (words lines.now) }
        ensures { result ≡ misplaced self (words lines.now) }
    {
        if !self.is_first() && is_line_word(lines) {
            TextCode::OutOfOrder
        } else {
            TextCode::NoLineWord
        }
    }
}

/// Whether the first word is a line word of a table.
fn is_line_word<S: Source>(lines: &LineReader<S>) -> bool
    requires { 0 < length (words lines.now) }
    ensures { result ≡ is_line_word (words lines.now) }
{
    is_word(lines, 0, b"table") || is_word(lines, 0, b"times") || is_word(lines, 0, b"end")
}
