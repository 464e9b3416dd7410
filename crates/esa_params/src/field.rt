//! The names of the numbers of a job, in the order in which their limits are looked at.

/// A number of a job that has a limit.
#[derive(Clone, Copy, PartialEq, Eq, Debug)]
pub enum ParamField {
    /// The number of buckets.
    B,
    /// The items of a chunk.
    C,
    /// The items that the stash holds at most.
    S,
    /// The items of a tail.
    K,
    /// How many buckets the window runs ahead.
    W,
    /// The items that the window's queue holds at most.
    Q,
    /// The items of the chunks and the tails together.
    Mid,
    /// The number of workers.
    Workers,
    /// The number of attempts.
    Attempts,
    /// The least number of records of a batch.
    M,
    /// The least number of reports of a crowd.
    T,
    /// The number of records to generate or to plan for.
    Records,
    /// The number of crowds to generate.
    Crowds,
    /// The form of the records.
    Form,
    /// The key epoch.
    Epoch,
    /// The number of shares that give a value.
    Shares,
}
