//! Why a line is refused.

/// Why a line is refused. A line that has several causes is refused for the first in this order.
#[derive(Clone, Copy, PartialEq, Eq, Debug)]
pub enum LineCause {
    /// There are fewer tabs than the line needs.
    MissingField,
    /// The moment is no decimal number below 2^64.
    BadMoment,
    /// The sender isn't 1 to 64 bytes from 0x21 to 0x7e.
    BadSender,
    /// The value of a report is longer than its form carries.
    TooLong,
    /// What a submission has behind its second tab isn't as many hexadecimal digits as its form wants.
    BadHex,
}

/// A line that is refused.
#[derive(Clone, Copy, PartialEq, Eq, Debug)]
pub struct LineRefused {
    /// The line's number, counted from 1.
    pub line: u64,
    /// Its first cause.
    pub cause: LineCause,
}
