//! Why a batch is refused.

ghost use Rattle.std.specs.Prelude.{◌≡◌};
ghost use Rattle.esa_batcher.specs.declared.refused.BatchRefused.TheVariants.{OutOfMemory};
ghost use Rattle.esa_batcher.specs.Refusal.{refusal_of};

use esa_bytes::Cut;
use esa_header::HeaderRefused;
use esa_line::LineRefused;
use std::alloc::AllocError;

/// The first test that a batch file fails, in this order, or want of memory.
#[derive(Clone, Copy, PartialEq, Eq, Debug)]
pub enum BatchRefused {
    /// The file doesn't begin with `ESAB`. It is tested once 11 bytes are there.
    BadMagic,
    /// The version is neither 1 nor 2.
    BadVersion,
    /// The size of a record is another than that of the version.
    BadSize,
    /// The file ends before its header does, or before its last record does.
    Cut(Cut),
    /// The file goes on behind its last record.
    Trailing,
    /// The first place, counted from 0, whose record is below the one before it.
    Unsorted(u32),
    /// There are fewer records than were wanted.
    TooFew {
        /// How many records there are.
        n: u32,
        /// How many were wanted.
        m: u32,
    },
    /// There are more records than a batch has.
    TooMany {
        /// How many records there are.
        n: u32,
    },
    /// There is no memory for the records.
    OutOfMemory,
}

impl From<HeaderRefused> for BatchRefused {
    ghost from_gives = { λ header refused. refused ≡ refusal_of header };

    fn from(refused: HeaderRefused) -> Self {
        match refused {
            HeaderRefused::Cut(cut) => BatchRefused::Cut(cut),
            HeaderRefused::BadMagic => BatchRefused::BadMagic,
            HeaderRefused::BadVersion => BatchRefused::BadVersion,
            HeaderRefused::BadSize => BatchRefused::BadSize,
            HeaderRefused::Trailing => BatchRefused::Trailing,
        }
    }
}

impl From<AllocError> for BatchRefused {
    ghost from_gives = { λ _ refused. refused ≡ OutOfMemory };

    fn from(_: AllocError) -> Self {
        BatchRefused::OutOfMemory
    }
}

/// Why a submission line was not added to a batch.
#[derive(Clone, Copy, PartialEq, Eq, Debug)]
pub enum AddRefused {
    /// The line is refused.
    Line(LineRefused),
    /// As many envelopes are held as a batch has. It is tested before the line is looked at.
    TooMany {
        /// How many envelopes there would be: 262,145.
        n: u64,
    },
    /// There is no memory for the envelope.
    OutOfMemory,
}
