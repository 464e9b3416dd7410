//! The fields of a job, the order in which they are looked at, and what the table says of each.

ghost use Rattle.std.specs.Prelude.{◌≡◌, ◌≤◌, length, slice_index_or};
ghost use Rattle.esa_job.specs.Table.{field_word, kind_of, limits_of, need_of, fields};

use crate::command::Command;
use crate::table::Limits;

/// A field of a job, or the job as a whole.
#[derive(Clone, Copy, PartialEq, Eq, Debug)]
pub enum JobField {
    /// The file of keys.
    Keys,
    /// The file to read.
    Input,
    /// The files to read.
    Inputs,
    /// The file to write.
    Output,
    /// The file to write the trace to.
    Trace,
    /// The file of turns to take.
    Turns,
    /// The file to write the turns to that were taken.
    TurnsOut,
    /// The file of drops.
    Drops,
    /// The file of coins.
    Coins,
    /// The seed to draw the coins from.
    Seed,
    /// How the coins are drawn.
    Draw,
    /// The number of records.
    Records,
    /// The number of crowds.
    Crowds,
    /// The number that the generator starts from.
    Number,
    /// The number before the first nonce.
    NonceBase,
    /// The form of the records.
    Form,
    /// The key epoch.
    Epoch,
    /// The number of shares that give a value.
    Shares,
    /// The number of buckets.
    B,
    /// The items of a chunk.
    C,
    /// The items that the stash holds at most.
    S,
    /// The items of a tail.
    K,
    /// How many buckets the window runs ahead.
    W,
    /// The items that the window's queue holds at most.
    Q,
    /// The number of workers.
    Workers,
    /// The number of attempts.
    Attempts,
    /// The least number of records of a batch.
    M,
    /// The least number of reports of a crowd.
    T,
    /// Whether turns are handed in or workers run.
    Mode,
    /// The job itself: a JSON object.
    Job,
}

/// The type that a field's value has to have.
#[derive(Clone, Copy, PartialEq, Eq, Debug)]
pub(crate) enum Kind {
    /// A text of 1 to 255 bytes.
    Name,
    /// A list of 1 to 16 names.
    Names,
    /// A text of 64 hexadecimal digits, of either case.
    Seed,
    /// `single` or `separators`.
    Draw,
    /// A whole number from 0 to 2^64 - 1.
    Number,
    /// `turns` or `crew`.
    Mode,
}

/// What a command makes of a field.
#[derive(Clone, Copy, PartialEq, Eq, Debug)]
pub enum Need {
    /// The field is ignored.
    Unused,
    /// The field may be missing.
    Optional,
    /// The field has to be there.
    Needed,
}

impl JobField {
    /// The fields of a job, in the order in which they are looked at.
    pub const IN_ORDER: [JobField; 29] = [
        JobField::Keys,
        JobField::Input,
        JobField::Inputs,
        JobField::Output,
        JobField::Trace,
        JobField::Turns,
        JobField::TurnsOut,
        JobField::Drops,
        JobField::Coins,
        JobField::Seed,
        JobField::Draw,
        JobField::Records,
        JobField::Crowds,
        JobField::Number,
        JobField::NonceBase,
        JobField::Form,
        JobField::Epoch,
        JobField::Shares,
        JobField::B,
        JobField::C,
        JobField::S,
        JobField::K,
        JobField::W,
        JobField::Q,
        JobField::Workers,
        JobField::Attempts,
        JobField::M,
        JobField::T,
        JobField::Mode,
    ];

    /// The fields that name a file to read, beside the inputs.
    pub(crate) const READ: [JobField; 5] = [
        JobField::Keys,
        JobField::Input,
        JobField::Turns,
        JobField::Drops,
        JobField::Coins,
    ];

    /// The numbers that have limits of their own, in the order in which these are looked at.
    pub(crate) const LIMITED: [JobField; 7] = [
        JobField::M,
        JobField::T,
        JobField::Records,
        JobField::Crowds,
        JobField::Form,
        JobField::Epoch,
        JobField::Shares,
    ];

    /// The field's place in the order. The job itself has the place behind the last.
    #[tactic(auto, unfolding(crate::specs::Table::fields))]
    pub(crate) fn place(self) -> usize
        ensures { slice_index_or fields result JobField.Job ≡ self }
    {
        self as usize
    }

    /// The field's name: 1 to 10 bytes.
    pub fn word(self) -> &'static str
        ensures word { result.now ≡ field_word self }
        ensures short { length result.now ≤ 10 }
    {
        self.row().word
    }

    /// The type of the field's value.
    pub(crate) fn kind(self) -> Kind
        ensures { result ≡ kind_of self }
    {
        self.row().kind
    }

    /// The limits of a number that has limits of its own.
    pub(crate) fn limits(self) -> Option<Limits>
        ensures { result ≡ limits_of self }
    {
        self.row().limits
    }

    /// What the command makes of the field.
    pub fn need(self, command: Command) -> Need
        ensures { result ≡ need_of self command }
    {
        let row = self.row();
        if command.is_among(row.needed) {
            Need::Needed
        } else if command.is_among(row.optional) {
            Need::Optional
        } else {
            Need::Unused
        }
    }
}
