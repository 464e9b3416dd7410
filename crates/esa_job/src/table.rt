//! The table of a job's fields: one row for each, which the definition `row_of` has beside it in the same order.

ghost use Rattle.std.specs.Prelude.{◌≡◌};
ghost use Rattle.esa_job.specs.Table.{plain, limited, row_of};
ghost use Rattle.esa_job.specs.Rows.{seen_row};

use crate::command::Command;
use crate::command::Command::{
    Analyse, Audit, Batch, Encode, Gen, Histogram, Intake, Plan, Recover, Relay, Run, Shuffle,
    Upgrade,
};
use crate::field::{JobField, Kind};
use esa_params::{
    GREATEST_EPOCH, MOST_CROWDS, MOST_OF_A_CROWD, MOST_RECORDS, MOST_SHARES, ParamField,
};

/// From which to which number a number may be, and what it is refused as where it isn't.
#[derive(Clone, Copy)]
pub(crate) struct Limits {
    pub(crate) param: ParamField,
    pub(crate) least: u32,
    pub(crate) greatest: u32,
}

/// A row of the table.
#[derive(Clone, Copy)]
pub(crate) struct Row {
    /// The field's name.
    pub(crate) word: &'static str,
    /// The type of its value.
    pub(crate) kind: Kind,
    /// The commands for which it has to be there.
    pub(crate) needed: &'static [Command],
    /// The commands for which it may be there. The others ignore it.
    pub(crate) optional: &'static [Command],
    /// The limits of a number that has limits of its own. Those of a shuffle's parameters are looked at together.
    pub(crate) limits: Option<Limits>,
}

/// The commands that shuffle, or tell what a shuffle does.
const SHUFFLES: &[Command] = &[Shuffle, Run, Relay, Plan, Audit];

/// A row of a field that has no limits of its own.
fn plain(
    word: &'static str,
    kind: Kind,
    needed: &'static [Command],
    optional: &'static [Command],
) -> Row
    ensures { seen_row result ≡ plain word.now kind needed.now optional.now }
{
    Row {
        word,
        kind,
        needed,
        optional,
        limits: None,
    }
}

/// A row of a number from a least to a greatest one.
fn limited(
    word: &'static str,
    needed: &'static [Command],
    optional: &'static [Command],
    param: ParamField,
    least: u32,
    greatest: u32,
) -> Row
    ensures { seen_row result ≡ limited word.now needed.now optional.now param least greatest }
{
    Row {
        word,
        kind: Kind::Number,
        needed,
        optional,
        limits: Some(Limits {
            param,
            least,
            greatest,
        }),
    }
}

impl JobField {
    /// The field's row of the table.
    pub(crate) fn row(self) -> Row
        ensures { seen_row result ≡ row_of self }
    {
        match self {
            // The job itself is no field of its object.
            JobField::Job => plain("job", Kind::Number, &[], &[]),
            JobField::Keys => plain(
                "keys",
                Kind::Name,
                &[Encode, Shuffle, Run, Relay, Analyse],
                &[],
            ),
            JobField::Input => plain(
                "input",
                Kind::Name,
                &[
                    Encode, Batch, Shuffle, Run, Relay, Analyse, Histogram, Upgrade, Recover, Audit,
                ],
                &[],
            ),
            JobField::Inputs => plain("inputs", Kind::Names, &[Intake], &[]),
            JobField::Output => plain(
                "output",
                Kind::Name,
                &[
                    Gen, Encode, Batch, Intake, Shuffle, Run, Relay, Analyse, Upgrade, Recover,
                ],
                &[],
            ),
            JobField::Trace => plain("trace", Kind::Name, &[], &[Shuffle, Run, Relay, Plan]),
            JobField::Turns => plain("turns", Kind::Name, &[], SHUFFLES),
            JobField::TurnsOut => plain("turns_out", Kind::Name, &[], &[Shuffle, Run, Relay]),
            JobField::Drops => plain("drops", Kind::Name, &[], &[Shuffle, Run]),
            // Of the coins and the seed one has to be there, which is a rule of its own.
            JobField::Coins => plain("coins", Kind::Name, &[], SHUFFLES),
            JobField::Seed => plain("seed", Kind::Seed, &[], SHUFFLES),
            JobField::Draw => plain("draw", Kind::Draw, &[], SHUFFLES),
            JobField::Records => limited(
                "records",
                &[Gen, Plan, Audit],
                &[],
                ParamField::Records,
                1,
                MOST_RECORDS,
            ),
            JobField::Crowds => limited("crowds", &[Gen], &[], ParamField::Crowds, 1, MOST_CROWDS),
            JobField::Number => plain("number", Kind::Number, &[Gen], &[]),
            JobField::NonceBase => plain("nonce_base", Kind::Number, &[Encode, Relay], &[]),
            JobField::Form => limited(
                "form",
                &[],
                &[Encode, Batch, Intake, Plan, Audit],
                ParamField::Form,
                1,
                2,
            ),
            JobField::Epoch => limited(
                "epoch",
                &[],
                &[Encode, Batch, Intake],
                ParamField::Epoch,
                0,
                GREATEST_EPOCH,
            ),
            JobField::Shares => limited(
                "shares",
                &[],
                &[Encode],
                ParamField::Shares,
                2,
                MOST_SHARES,
            ),
            JobField::B => plain("b", Kind::Number, SHUFFLES, &[]),
            JobField::C => plain("c", Kind::Number, SHUFFLES, &[]),
            JobField::S => plain("s", Kind::Number, SHUFFLES, &[]),
            JobField::K => plain("k", Kind::Number, SHUFFLES, &[]),
            JobField::W => plain("w", Kind::Number, SHUFFLES, &[]),
            JobField::Q => plain("q", Kind::Number, SHUFFLES, &[]),
            JobField::Workers => plain("workers", Kind::Number, SHUFFLES, &[]),
            JobField::Attempts => plain("attempts", Kind::Number, SHUFFLES, &[]),
            JobField::M => limited(
                "m",
                &[Batch, Intake, Shuffle, Run, Relay],
                &[],
                ParamField::M,
                1,
                MOST_RECORDS,
            ),
            JobField::T => limited("t", &[Shuffle, Run], &[], ParamField::T, 1, MOST_OF_A_CROWD),
            JobField::Mode => plain(
                "mode",
                Kind::Mode,
                &[Intake, Shuffle, Run, Relay, Plan, Audit],
                &[],
            ),
        }
    }
}
