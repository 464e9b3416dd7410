//! Why a file of cases isn't in the form.

use std::alloc::{AllocError, AllocFailed};
use std::fmt;

/// What is wrong with a line.
#[derive(Clone, Copy, Debug, PartialEq, Eq)]
pub enum Wrong {
    /// Its first word isn't one of the form.
    Word,
    /// It doesn't belong where it stands.
    Place,
    /// It names bytes or a setting that no line before it has.
    Unknown,
    /// A case, a setting or bytes of this name are there already.
    Twice,
    /// Where a number belongs, or a status, there is none.
    Number,
    /// It asks for more bytes than there are.
    Short,
    /// These aren't pairs of hexadecimal digits.
    Hex,
    /// What follows a backslash isn't `t`, `n`, `x` and two digits, or another backslash.
    Escape,
    /// A name is missing.
    Nameless,
    /// The case that ends here makes no call.
    Idle,
    OutOfMemory,
}

impl fmt::Display for Wrong {
    fn fmt<W: fmt::Write>(&self, f: &mut fmt::Formatter<W>) -> fmt::Result {
        f.write_str(match self {
            Wrong::Word => "no word of the form",
            Wrong::Place => "doesn't belong here",
            Wrong::Unknown => "names what isn't there",
            Wrong::Twice => "a name that is there already",
            Wrong::Number => "no number",
            Wrong::Short => "more bytes than there are",
            Wrong::Hex => "no pairs of hexadecimal digits",
            Wrong::Escape => "a backslash before something else than t, n, x or a backslash",
            Wrong::Nameless => "no name",
            Wrong::Idle => "the case before makes no call",
            Wrong::OutOfMemory => "out of memory",
        })
    }
}

impl From<AllocError> for Wrong {
    fn from(_error: AllocError) -> Wrong {
        Wrong::OutOfMemory
    }
}

impl<T: Drop> From<AllocFailed<T>> for Wrong {
    fn from(_error: AllocFailed<T>) -> Wrong {
        Wrong::OutOfMemory
    }
}

/// The first line of a file that isn't in the form, counted from 1 on, and what is wrong with it.
#[derive(Clone, Copy, Debug)]
pub struct Mistake {
    pub line: usize,
    pub wrong: Wrong,
}
