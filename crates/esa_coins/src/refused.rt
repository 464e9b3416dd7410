//! Why a coins file is refused.

ghost use Rattle.std.specs.Prelude.{◌≡◌};
ghost use Rattle.esa_coins.specs.declared.refused.CoinsRefused.TheVariants.{OutOfMemory};

use std::alloc::{AllocError, AllocFailed};

/// The first place that a coins file is refused for, or want of memory. Attempts, places and buckets are counted
/// from 0.
#[derive(Clone, Copy, PartialEq, Eq, Debug)]
pub enum CoinsRefused {
    /// The file is no JSON object whose field `attempts` is a list of as many objects as the plan has attempts.
    Shape,
    /// The targets of this attempt are no list of as many whole numbers, from 0 to 2^64 - 1, as the plan has records.
    Targets(u32),
    /// The target of this place is no bucket.
    Target { attempt: u32, place: u32 },
    /// The order of this bucket is no permutation of the places of an import. It is bucket 0 where the orders of the
    /// attempt are no list of one value for each bucket.
    Order { attempt: u32, bucket: u32 },
    /// There is no memory for the lists.
    OutOfMemory,
}

impl From<AllocError> for CoinsRefused {
    ghost from_gives = { λ _ refused. refused ≡ OutOfMemory };

    fn from(_: AllocError) -> Self {
        CoinsRefused::OutOfMemory
    }
}

impl<T: Drop> From<AllocFailed<T>> for CoinsRefused {
    ghost from_gives = { λ _ refused. refused ≡ OutOfMemory };

    fn from(_: AllocFailed<T>) -> Self {
        CoinsRefused::OutOfMemory
    }
}
