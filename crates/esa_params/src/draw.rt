//! How coins are drawn.

/// How the targets of a bucket are drawn.
#[derive(Clone, Copy, PartialEq, Eq, Debug)]
pub enum Draw {
    /// Each target by itself.
    Single,
    /// Together, by shuffling the bucket's places among separators.
    Separators,
}
