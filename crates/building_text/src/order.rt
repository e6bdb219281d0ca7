//! The order of a building's lines.
ghost use Rattle.std.specs.Prelude.{◌≡◌, ◌<◌, length};
ghost use Rattle.lift_text.specs.LineReader.{words};
ghost use Rattle.building_text.specs.Order.{name_of, is_first, may_end, after_weights, after_floors};
ghost use Rattle.building_text.specs.Order.{is_plain_word, is_line_word, misplaced};

use lift_text::{LineReader, Source, TextCode};
use text_sections::is_word;

/// The line of a building's text that is due.
#[derive(Clone, Copy)]
pub(crate) enum Due {
    Version,
    Speed,
    Accel,
    Weights,
    Patience,
    Floors,
    Times,
    FirstCar,
    NextCar,
}

impl Due {
    /// The line word of the line that is due.
    pub(crate) fn name(self) -> &'static [u8]
        ensures { result.now ≡ name_of self }
    {
        match self {
            Due::Version => b"building",
            Due::Speed => b"speed",
            Due::Accel => b"accel",
            Due::Weights => b"weights",
            Due::Patience => b"patience",
            Due::Floors => b"floors",
            Due::Times => b"times",
            Due::FirstCar | Due::NextCar => b"car",
        }
    }

    /// Whether no line was read yet.
    fn is_first(self) -> bool
        ensures { result ≡ is_first self }
    {
        matches!(self, Due::Version)
    }

    /// Whether the section may end: a car was read.
    pub(crate) fn may_end(self) -> bool
        ensures { result ≡ may_end self }
    {
        matches!(self, Due::NextCar)
    }

    /// What is due after the weights: version 1 has no patience.
    pub(crate) fn after_weights(version: u8) -> Due
        ensures { result ≡ after_weights version }
    {
        if version == 1 {
            Due::Floors
        } else {
            Due::Patience
        }
    }

    /// What is due after the heights: only version 3 states times.
    pub(crate) fn after_floors(version: u8) -> Due
        ensures { result ≡ after_floors version }
    {
        if version == 3 {
            Due::Times
        } else {
            Due::FirstCar
        }
    }

    /// What is wrong with a line that is not due in a building of this version.
    pub(crate) fn misplaced<S: Source>(self, version: u8, lines: &LineReader<S>) -> TextCode
        requires { 0 < length (words lines.now) }
        ensures { result ≡ misplaced self version (words lines.now) }
    {
        if !self.is_first() && is_line_word(version, lines) {
            TextCode::OutOfOrder
        } else {
            TextCode::NoLineWord
        }
    }
}

/// Whether the first word is a line word of every version.
fn is_plain_word<S: Source>(lines: &LineReader<S>) -> bool
    requires { 0 < length (words lines.now) }
    ensures { result ≡ is_plain_word (words lines.now) }
{
    is_word(lines, 0, b"building")
        || is_word(lines, 0, b"speed")
        || is_word(lines, 0, b"accel")
        || is_word(lines, 0, b"weights")
        || is_word(lines, 0, b"floors")
        || is_word(lines, 0, b"car")
        || is_word(lines, 0, b"end")
}

/// Whether the first word is a line word of a building of this version.
fn is_line_word<S: Source>(version: u8, lines: &LineReader<S>) -> bool
    requires { 0 < length (words lines.now) }
    ensures { result ≡ is_line_word version (words lines.now) }
{
    is_plain_word(lines)
        || version > 1 && is_word(lines, 0, b"patience")
        || version == 3 && is_word(lines, 0, b"times")
}
