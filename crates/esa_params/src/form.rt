//! The two forms of a record, and the lengths that follow from each.

ghost use Rattle.std.specs.Prelude.{◌≡◌};
ghost use Rattle.esa_params.specs.Form.{report_length, inner_length, body_length, envelope_length};

/// The form of a record: how long a value it can carry, and so how long all that wraps it is.
#[derive(Clone, Copy, PartialEq, Eq, Debug)]
pub enum Form {
    /// A report of 64 bytes, for values of at most 62 bytes.
    One,
    /// A report of 192 bytes, for values of at most 190 bytes.
    Two,
}

impl Form {
    /// The length of a report, in bytes.
    pub fn report(&self) -> u32
        ensures { result ≡ report_length self.now }
    {
        match self {
            Form::One => 64,
            Form::Two => 192,
        }
    }

    /// The length of an inner envelope, in bytes: a sealed report.
    pub fn inner(&self) -> u32
        ensures { result ≡ inner_length self.now }
    {
        match self {
            Form::One => 104,
            Form::Two => 232,
        }
    }

    /// The length of an outer plain text, in bytes: a crowd id of 32 bytes and an inner envelope.
    pub fn body(&self) -> u32
        ensures { result ≡ body_length self.now }
    {
        match self {
            Form::One => 136,
            Form::Two => 264,
        }
    }

    /// The length of an outer envelope, in bytes.
    pub fn envelope(&self) -> u32
        ensures { result ≡ envelope_length self.now }
    {
        match self {
            Form::One => 176,
            Form::Two => 304,
        }
    }
}
