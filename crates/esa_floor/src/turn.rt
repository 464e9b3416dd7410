//! What a turn answers, and how turns and runs end.

/// Why the turns of an attempt stopped.
#[derive(Clone, Copy, PartialEq, Eq, Debug)]
pub enum Stop {
    /// The stash would have held too much after the exchange of this bucket.
    StashOverflow(u32),
    /// The device gave a block for the slot of this number that does not open.
    Tampered(u32),
    /// The device failed at the slot of this number.
    DeviceFault(u32),
}

/// What a turn did.
#[derive(Clone, Copy, PartialEq, Eq, Debug)]
pub enum Turn {
    /// The worker has the next bucket.
    Claimed(u32),
    /// The block of the worker's bucket was read.
    Read(u32),
    /// The worker's bucket was exchanged with the stash.
    Exchanged(u32),
    /// The chunk of the worker's bucket for a target was written.
    Wrote {
        /// The bucket.
        bucket: u32,
        /// The target.
        target: u32,
    },
    /// No bucket was left, or no attempt is at work.
    Done,
    /// A turn of a round that has no bucket.
    Idle,
    /// This turn or an earlier one of the attempt failed.
    Stopped(Stop),
}

/// How a run ended.
#[derive(Clone, Copy, PartialEq, Eq, Debug)]
pub enum Outcome {
    /// This attempt succeeded.
    Shuffled {
        /// The attempt.
        attempt: u32,
    },
    /// Each attempt failed.
    Overflow,
    /// The device gave a block for the slot of this number that does not open.
    Tampered(u32),
    /// The device failed at the slot of this number.
    DeviceFault(u32),
    /// The source of the records failed while they were loaded.
    BatchFailed,
}
