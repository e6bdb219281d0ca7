//! Why a line of a section is not taken.
ghost use Rattle.std.specs.Prelude.{◌≡◌};
ghost use Rattle.text_sections.specs.declared.faults.LineFault.TheVariants.{Bad, NoMemory};

use lift_text::TextCode;
use std::alloc::{AllocError, AllocFailed};

/// Why a line of a section is not taken.
#[derive(Clone, Copy, PartialEq, Eq)]
pub enum LineFault {
    /// The line is bad with this code.
    Bad(TextCode),
    /// Memory is wanting.
    NoMemory,
}

impl From<TextCode> for LineFault {
    ghost from_gives = { λ code fault. fault ≡ Bad code };

    fn from(code: TextCode) -> LineFault {
        LineFault::Bad(code)
    }
}

impl From<AllocError> for LineFault {
    ghost from_gives = { λ _ fault. fault ≡ NoMemory };

    fn from(_error: AllocError) -> LineFault {
        LineFault::NoMemory
    }
}

impl<T: Drop> From<AllocFailed<T>> for LineFault {
    ghost from_gives = { λ _ fault. fault ≡ NoMemory };

    fn from(_error: AllocFailed<T>) -> LineFault {
        LineFault::NoMemory
    }
}
