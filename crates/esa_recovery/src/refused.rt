//! Why a database isn't recovered.

ghost use Rattle.std.specs.Prelude.{◌≡◌};
ghost use Rattle.esa_recovery.specs.declared.refused.RecoverRefused.TheVariants.{OutOfMemory};

use std::alloc::{AllocError, AllocFailed};

/// Why a database isn't recovered.
#[derive(Clone, Copy, PartialEq, Eq, Debug)]
pub enum RecoverRefused {
    /// The sum of all counts and of the number unopened passes 4,294,967,295.
    Sum,
    /// There is no memory.
    OutOfMemory,
}

impl From<AllocError> for RecoverRefused {
    ghost from_gives = { λ _ refused. refused ≡ OutOfMemory };

    fn from(_: AllocError) -> Self {
        RecoverRefused::OutOfMemory
    }
}

impl<T: Drop> From<AllocFailed<T>> for RecoverRefused {
    ghost from_gives = { λ _ refused. refused ≡ OutOfMemory };

    fn from(_: AllocFailed<T>) -> Self {
        RecoverRefused::OutOfMemory
    }
}
