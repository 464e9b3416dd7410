//! Why a forward file is refused.

ghost use Rattle.std.specs.Prelude.{◌≡◌};
ghost use Rattle.esa_threshold.specs.declared.refused.ForwardRefused.TheVariants.{OutOfMemory};
ghost use Rattle.esa_threshold.specs.Refusal.{refusal_of};

use esa_bytes::Cut;
use esa_header::HeaderRefused;
use std::alloc::AllocError;

/// The first test that a forward file fails, in this order, or want of memory.
#[derive(Clone, Copy, PartialEq, Eq, Debug)]
pub enum ForwardRefused {
    /// The file ends before its header does, or before its last envelope does.
    Cut(Cut),
    /// The file doesn't begin with `ESAF`. It is tested once 11 bytes are there.
    BadMagic,
    /// The version is neither 1 nor 2.
    BadVersion,
    /// The size of an envelope is another than that of the version.
    BadSize,
    /// The file goes on behind its last envelope.
    Trailing,
    /// There are more envelopes than a batch has.
    TooMany {
        /// How many envelopes the file has.
        n: u32,
    },
    /// There is no memory for the envelopes.
    OutOfMemory,
}

impl From<HeaderRefused> for ForwardRefused {
    ghost from_gives = { λ header refused. refused ≡ refusal_of header };

    fn from(refused: HeaderRefused) -> Self {
        match refused {
            HeaderRefused::Cut(cut) => ForwardRefused::Cut(cut),
            HeaderRefused::BadMagic => ForwardRefused::BadMagic,
            HeaderRefused::BadVersion => ForwardRefused::BadVersion,
            HeaderRefused::BadSize => ForwardRefused::BadSize,
            HeaderRefused::Trailing => ForwardRefused::Trailing,
        }
    }
}

impl From<AllocError> for ForwardRefused {
    ghost from_gives = { λ _ refused. refused ≡ OutOfMemory };

    fn from(_: AllocError) -> Self {
        ForwardRefused::OutOfMemory
    }
}
