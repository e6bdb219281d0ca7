//! Why work ended before it was done.

ghost use Rattle.std.specs.Prelude.{◌≡◌, IsErrOf, IsOk, IsOkUnless, Ok, true, false, IfOk, OnErr};
ghost use Rattle.search_model.specs.declared.interruptions.Interruption.TheVariants.{OutOfMemory, Told};

use std::alloc::{AllocError, AllocFailed};

/// Why work ended before it was done.
#[derive(Clone, Copy, Drop)]
pub enum Interruption {
    /// There is no memory left.
    OutOfMemory,
    /// The work was told to stop.
    Told,
}

impl From<AllocError> for Interruption {
    ghost from_gives = { λ _ interruption. interruption ≡ OutOfMemory };

    fn from(_error: AllocError) -> Interruption {
        Interruption::OutOfMemory
    }
}

impl<T: Drop> From<AllocFailed<T>> for Interruption {
    ghost from_gives = { λ _ interruption. interruption ≡ OutOfMemory };

    fn from(_error: AllocFailed<T>) -> Interruption {
        Interruption::OutOfMemory
    }
}

impl Interruption {
    /// What work ended with that is never told to stop. It fails only where there is no memory left.
    pub fn unstopped<T: Drop>(ended: Result<T, Interruption>) -> Result<T, AllocError>
        requires { IsOkUnless ended OutOfMemory }
        ensures done { IfOk result (λ done. ended ≡ Ok done) }
        ensures memory { OnErr result (IsErrOf ended OutOfMemory) }
    {
        match ended {
            Ok(done) => Ok(done),
            Err(Interruption::OutOfMemory) => Err(AllocError),
            Err(Interruption::Told) => unreachable!(),
        }
    }

    /// Whether the work that ended in this way was told to stop. It fails only where there is no memory left.
    pub fn was_told(ended: Result<(), Interruption>) -> Result<bool, AllocError>
        ensures told { IfOk result (λ told. told ≡ true → IsErrOf ended Told) }
        ensures done { IfOk result (λ told. told ≡ false → IsOk ended) }
        ensures memory { OnErr result (IsErrOf ended OutOfMemory) }
    {
        match ended {
            Ok(()) => Ok(false),
            Err(Interruption::Told) => Ok(true),
            Err(Interruption::OutOfMemory) => Err(AllocError),
        }
    }
}
