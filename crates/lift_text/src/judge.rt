//! Whether a line is allowed in a text.
ghost use Rattle.std.specs.Prelude.{◌≡◌, ◌*◌, ◌<◌, ◌≤◌, [], length, All, true, OnErr, vec_len, vec_capacity};
ghost use Rattle.lift_text.specs.Words.{parts_of};
ghost use Rattle.lift_text.specs.Judge.{Judged};

use crate::codes::TextCode;
use crate::words::{Span, are_allowed, before_comment, find_words};

/// The most bytes of a line without its end.
pub const LINE_LIMIT: usize = 4_096;

/// Why a line is bad whatever it says.
#[derive(Clone, Copy)]
pub(crate) enum Flaw {
    OverLong,
    ForbiddenByte,
}

impl Flaw {
    /// What is wrong with the line.
    pub(crate) fn code(self) -> TextCode
        ensures over_long { self ≡ Flaw.OverLong → result ≡ TextCode.OverLong }
        ensures forbidden { self ≡ Flaw.ForbiddenByte → result ≡ TextCode.ForbiddenByte }
    {
        match self {
            Flaw::OverLong => TextCode::OverLong,
            Flaw::ForbiddenByte => TextCode::ForbiddenByte,
        }
    }
}

/// Finds the words of a line, and answers whether it has some.
pub(crate) fn judge(line: &[u8], spans: &mut Vec<Span>) -> Result<bool, Flaw>
    requires room { 4096 < 2 * vec_capacity spans.old }
    requires none { spans.old.items ≡ [] }
    ensures judged { Judged line.now result (parts_of line.now spans.new.items) }
    ensures count { vec_len spans.new ≤ 4096 }
    ensures some { result ≡ Ok true → 0 < vec_len spans.new }
    ensures err { OnErr result (spans.new.items ≡ []) }
    ensures capacity { vec_capacity spans.old ≤ vec_capacity spans.new }
    ensures inside { All (λ span. (span.start ≤ span.end)
        × (span.end ≤ length line.now)) spans.new.items }
{
    if line.len() > LINE_LIMIT {
        return Err(Flaw::OverLong);
    }
    let text = before_comment(line);
    if !are_allowed(text) {
        return Err(Flaw::ForbiddenByte);
    }
    find_words(text, spans);
    Ok(!spans.is_empty())
}
