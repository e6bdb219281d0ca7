//! What is wrong with a line.
ghost use Rattle.std.specs.Prelude.{◌≡◌};
ghost use Rattle.lift_text.specs.Numbers.{code_of};

use crate::numbers::NumberFault;
use elevator_model::Fault;
use std::fmt;

/// What is wrong with a line of a text. What is printed for it is the commands' to say.
#[derive(Clone, Copy, Debug, PartialEq, Eq)]
pub enum TextCode {
    /// A byte outside the comment is not allowed.
    ForbiddenByte,
    /// The line is over 4,096 bytes.
    OverLong,
    /// The first word is no line word of the section, or a word that must be one of some fixed words
    /// is none of them.
    NoLineWord,
    /// A word is missing.
    Missing,
    /// There is a word too many.
    TooMany,
    /// A word that must be a number is none.
    NoNumber,
    /// A number is outside its range.
    OutOfRange,
    /// The line stands out of order or is repeated, or lines before it are missing.
    OutOfOrder,
    /// The input ended before the section did, or before the header of the rows of a day.
    CutShort,
    /// A car has no state line.
    NoState,
    /// The claims of a certificate, up to this line, sum past their limit.
    ClaimsPast,
    /// The id of a car or a call is not known.
    UnknownId,
    /// The line may not stand in the opening snapshot of a day.
    NotInOpening,
    /// The line is not the header of the rows of a day.
    NoHeader,
    /// A way over a third floor is shorter than the time between two floors.
    ShorterWay,
    /// A time is not 0 from a floor to itself, or is 0 between two floors.
    NoTime,
    /// What the line says has this fault.
    Item(Fault),
}

impl fmt::Display for TextCode {
    fn fmt<W: fmt::Write>(&self, f: &mut fmt::Formatter<W>) -> fmt::Result {
        f.write_str(match self {
            TextCode::ForbiddenByte => "a byte is not allowed",
            TextCode::OverLong => "the line is too long",
            TextCode::NoLineWord => "a word is none of those that may stand here",
            TextCode::Missing => "a word is missing",
            TextCode::TooMany => "there is a word too many",
            TextCode::NoNumber => "a word is no number",
            TextCode::OutOfRange => "a number is outside its range",
            TextCode::OutOfOrder => "the line is out of order",
            TextCode::CutShort => "the input ends too early",
            TextCode::NoState => "a car has no state",
            TextCode::ClaimsPast => "the claims are too large",
            TextCode::UnknownId => "the id is not known",
            TextCode::NotInOpening => "the line may not stand in an opening snapshot",
            TextCode::NoHeader => "the line is not the header of the rows",
            TextCode::ShorterWay => "a way over a third floor is shorter",
            TextCode::NoTime => "a time is 0 between two floors, or is not 0 at one",
            TextCode::Item(fault) => return write!(f, "{fault}"),
        })
    }
}

impl From<NumberFault> for TextCode {
    ghost from_gives = { λ fault code. code ≡ code_of fault };

    fn from(fault: NumberFault) -> TextCode {
        match fault {
            NumberFault::NoNumber => TextCode::NoNumber,
            NumberFault::OutOfRange => TextCode::OutOfRange,
        }
    }
}
