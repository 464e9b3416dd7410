//! What a turn of a worker does, and how an attempt ends.

/// What one turn of a worker does in an attempt.
#[derive(Clone, Copy, PartialEq, Eq, Debug)]
pub enum Event {
    /// The worker takes the next bucket for its round.
    Claim(u32),
    /// The block of the worker's bucket is read.
    Read(u32),
    /// The items of the worker's bucket are exchanged with the stash.
    Exchange(u32),
    /// The chunk of the worker's bucket for a target is written.
    Write {
        /// The bucket.
        bucket: u32,
        /// The target.
        target: u32,
    },
    /// No bucket was left to claim.
    Done,
    /// A turn of a round that has no bucket.
    Idle,
}

/// How an attempt ends.
#[derive(Clone, Copy, PartialEq, Eq, Debug)]
pub enum Verdict {
    /// All records came out.
    Good,
    /// The stash would have held too much after the exchange of this bucket.
    StashOverflow(u32),
    /// The stash still held more than a tail for this target.
    StashLeft(u32),
    /// The window's queue would have held too much after the import of this intermediate bucket.
    QueueOverflow(u32),
    /// The window's queue held too little for this output bucket.
    QueueStarved(u32),
}
