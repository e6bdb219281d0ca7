//! What a text reader answers.
ghost use Rattle.lift_text.specs.declared.faults.TextFault.TheVariants.{NoMemory};
ghost use Rattle.std.specs.Prelude.{◌≡◌};

use crate::codes::TextCode;
use std::alloc::{AllocError, AllocFailed};
use std::error::Error;
use std::fmt;

/// Why a text could not be read on.
#[derive(Clone, Copy, Debug, PartialEq, Eq)]
pub enum TextFault {
    /// A read of the source failed.
    Read,
    /// The text has more than 67,108,864 bytes, and no bad line ends among the first of them.
    TooLong,
    /// The line with this number, counted from 1, is the first bad one, and the code says why.
    Bad { line: u64, code: TextCode },
    /// Out of memory.
    NoMemory,
}

impl fmt::Display for TextFault {
    fn fmt<W: fmt::Write>(&self, f: &mut fmt::Formatter<W>) -> fmt::Result {
        match self {
            TextFault::Read => write!(f, "the input could not be read"),
            TextFault::TooLong => write!(f, "the input is too long"),
            TextFault::Bad { line, code } => write!(f, "line {line}: {code}"),
            TextFault::NoMemory => write!(f, "out of memory"),
        }
    }
}

impl Error for TextFault {}

impl From<AllocError> for TextFault {
    ghost from_gives = { λ _ fault. fault ≡ NoMemory };

    fn from(_error: AllocError) -> TextFault {
        TextFault::NoMemory
    }
}

impl<T: Drop> From<AllocFailed<T>> for TextFault {
    ghost from_gives = { λ _ fault. fault ≡ NoMemory };

    fn from(_error: AllocFailed<T>) -> TextFault {
        TextFault::NoMemory
    }
}

/// What a line is as it stands.
#[derive(Clone, Copy, PartialEq, Eq)]
pub enum RawLine {
    /// A line of at most 4,096 bytes without its end.
    Line,
    /// A longer line.
    Long,
    /// No line: the text is at its end.
    End,
}
