//! Why words are not taken.
ghost use Rattle.std.specs.Prelude.{◌≡◌, Some};
ghost use Rattle.option_words.specs.Faults.{printed};
ghost use Rattle.option_words.specs.declared.faults.WordsFault.TheVariants.{NoMemory};

use std::alloc::{AllocError, AllocFailed};
use std::error::Error;
use std::fmt;

/// Why words make no request.
#[derive(Clone, Copy, Debug, PartialEq, Eq)]
pub enum WordsFault {
    /// The words are not taken.
    NotTaken,
    /// Out of memory.
    NoMemory,
}

impl fmt::Display for WordsFault {
    ghost output = { λ fault. Some (printed fault) };

    fn fmt<W: fmt::Write>(&self, f: &mut fmt::Formatter<W>) -> fmt::Result {
        match self {
            WordsFault::NotTaken => write!(f, "the words are not taken"),
            WordsFault::NoMemory => write!(f, "out of memory"),
        }
    }
}

impl Error for WordsFault {}

impl From<AllocError> for WordsFault {
    ghost from_gives = { λ _ fault. fault ≡ NoMemory };

    fn from(_error: AllocError) -> WordsFault {
        WordsFault::NoMemory
    }
}
