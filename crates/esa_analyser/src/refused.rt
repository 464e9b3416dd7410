//! Why a database file is refused.

ghost use Rattle.std.specs.Prelude.{◌≡◌};
ghost use Rattle.esa_analyser.specs.declared.refused.DbRefused.TheVariants.{OutOfMemory};

use esa_bytes::Cut;
use std::alloc::{AllocError, AllocFailed};

/// The first test that a database file fails, or want of memory. After the version the file is tested
/// row by row.
#[derive(Clone, Copy, PartialEq, Eq, Debug)]
pub enum DbRefused {
    /// The file ends before its 13 bytes of header do, or before a row does.
    Cut(Cut),
    /// The file doesn't begin with `ESAD`. It is tested once 13 bytes are there.
    BadMagic,
    /// The version is neither 1 nor 2.
    BadVersion,
    /// The value of this row, counted from 0, is longer than a report of the version can carry.
    BadLength(u32),
    /// The value of this row isn't above the one before it.
    Unsorted(u32),
    /// The count of this row is 0.
    ZeroCount(u32),
    /// The file goes on behind its last row.
    Trailing,
    /// There is no memory for the rows.
    OutOfMemory,
}

impl From<AllocError> for DbRefused {
    ghost from_gives = { λ _ refused. refused ≡ OutOfMemory };

    fn from(_: AllocError) -> Self {
        DbRefused::OutOfMemory
    }
}

impl<T: Drop> From<AllocFailed<T>> for DbRefused {
    ghost from_gives = { λ _ refused. refused ≡ OutOfMemory };

    fn from(_: AllocFailed<T>) -> Self {
        DbRefused::OutOfMemory
    }
}
