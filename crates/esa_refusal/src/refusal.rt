//! Why a command was refused, and the text that says so.

ghost use Rattle.std.specs.Prelude.{◌≡◌, ◌+◌, ◌≤◌, ◌++◌, length, codes};
ghost use Rattle.esa_refusal.specs.Refusal.{refusal_text, coins_text, batch_text, cause_word, line_text, file_text, forward_text, database_text, cut_text, numbered};

use crate::line::Line;
use crate::words::{word_of_param, word_of_role};
use esa_analyser::DbRefused;
use esa_batcher::BatchRefused;
use esa_bytes::Cut;
use esa_coins::CoinsRefused;
use esa_job::{Command, JobField, KeyField};
use esa_line::{LineCause, LineRefused};
use esa_outside::Role;
use esa_params::ParamField;
use esa_threshold::ForwardRefused;

/// The first thing that is wrong with what a command was given.
///
/// A variant that carries what a reader refused never carries want of memory.
#[derive(Clone, Copy, PartialEq, Eq, Debug)]
pub enum Refusal {
    /// The file of this role is longer than its limit.
    Large(Role),
    /// A field of the job file is missing, of another type, or at odds with another.
    Job(JobField),
    /// A number of the job file passes its limit.
    Params(ParamField),
    /// A key is missing or is no key.
    Keys(KeyField),
    /// A line of the drops file, counted from 1.
    Drops(u64),
    /// A line of the turns file, counted from 1.
    Turns(u64),
    /// The coins file isn't one for the job.
    Coins(CoinsRefused),
    /// The batch file breaks its format, or there are too few records.
    Batch(BatchRefused),
    /// A line of reports or submissions.
    Line(LineRefused),
    /// More lines than can be encoded or batched.
    Lines {
        /// Their number.
        n: u64,
    },
    /// The forward file breaks its format.
    Forward(ForwardRefused),
    /// The database file breaks its format.
    Database(DbRefused),
    /// A line of one of several files of submissions.
    File {
        /// The file's number among them, counted from 1.
        file: u32,
        /// The line, and why it is refused.
        refused: LineRefused,
    },
    /// The counts of a database and its number unopened add up to more than 4,294,967,295.
    SharesSum,
    /// The command isn't built yet.
    NotBuilt(Command),
}

/// Adds the text of a refusal.
pub fn add_refusal(line: &mut Line, refusal: &Refusal)
    requires { length line.old ≤ 20 }
    ensures { line.new ≡ line.old ++ refusal_text refusal.now }
{
    match refusal {
        Refusal::Large(role) => add_pair(line, "large ", word_of_role(*role)),
        Refusal::Job(field) => add_pair(line, "job ", field.word()),
        Refusal::Params(field) => add_pair(line, "params ", word_of_param(*field)),
        Refusal::Keys(field) => add_pair(line, "keys ", field.word()),
        Refusal::Drops(number) => add_numbered(line, "drops ", *number),
        Refusal::Turns(number) => add_numbered(line, "turns ", *number),
        Refusal::Coins(refused) => add_coins(line, refused),
        Refusal::Batch(refused) => add_batch(line, refused),
        Refusal::Line(refused) => add_line(line, refused),
        Refusal::Lines { n } => add_numbered(line, "lines ", *n),
        Refusal::Forward(refused) => add_forward(line, refused),
        Refusal::Database(refused) => add_database(line, refused),
        Refusal::File { file, refused } => add_file(line, *file, refused),
        Refusal::SharesSum => line.word("shares sum"),
        Refusal::NotBuilt(command) => add_pair(line, "not-built ", command.word()),
    }
}

/// Adds two words.
fn add_pair(line: &mut Line, first: &str, second: &str)
    requires line { length line.old ≤ 20 }
    requires first { length first.now ≤ 20 }
    requires second { length second.now ≤ 20 }
    ensures { line.new ≡ line.old ++ (first.now ++ second.now) }
{
    line.word(first);
    line.word(second);
}

/// Adds a word and a number.
pub fn add_numbered(line: &mut Line, word: &str, number: u64)
    requires line { length line.old ≤ 80 }
    requires word { length word.now ≤ 20 }
    ensures text { line.new ≡ line.old ++ numbered word.now number }
    ensures short { length line.new ≤ length line.old + length word.now + 20 }
{
    line.word(word);
    line.number(number);
}

/// Adds what a file that ends too early is told.
fn add_cut(line: &mut Line, cut: &Cut)
    requires { length line.old ≤ 40 }
    ensures { line.new ≡ line.old ++ cut_text cut.now }
{
    add_numbered(line, "cut want ", cut.want);
    add_numbered(line, " have ", cut.have);
}

/// Adds what is wrong with a forward file.
fn add_forward(line: &mut Line, refused: &ForwardRefused)
    requires { length line.old ≤ 20 }
    ensures { line.new ≡ line.old ++ (codes "forward " ++ forward_text refused.now) }
{
    line.word("forward ");
    match refused {
        ForwardRefused::Cut(cut) => add_cut(line, cut),
        ForwardRefused::BadMagic => line.word("bad-magic"),
        ForwardRefused::BadVersion => line.word("bad-version"),
        ForwardRefused::BadSize => line.word("bad-size"),
        ForwardRefused::Trailing => line.word("trailing"),
        ForwardRefused::TooMany { n } => add_numbered(line, "too-many ", u64::from(*n)),
        ForwardRefused::OutOfMemory => line.word("out-of-memory"),
    }
}

/// Adds what is wrong with a database file.
fn add_database(line: &mut Line, refused: &DbRefused)
    requires { length line.old ≤ 20 }
    ensures { line.new ≡ line.old ++ (codes "database " ++ database_text refused.now) }
{
    line.word("database ");
    match refused {
        DbRefused::Cut(cut) => add_cut(line, cut),
        DbRefused::BadMagic => line.word("bad-magic"),
        DbRefused::BadVersion => line.word("bad-version"),
        DbRefused::BadLength(row) => add_numbered(line, "bad-length ", u64::from(*row)),
        DbRefused::Unsorted(row) => add_numbered(line, "unsorted ", u64::from(*row)),
        DbRefused::ZeroCount(row) => add_numbered(line, "zero-count ", u64::from(*row)),
        DbRefused::Trailing => line.word("trailing"),
        DbRefused::OutOfMemory => line.word("out-of-memory"),
    }
}

/// Adds what is wrong with coins.
fn add_coins(line: &mut Line, refused: &CoinsRefused)
    requires { length line.old ≤ 20 }
    ensures { line.new ≡ line.old ++ (codes "coins " ++ coins_text refused.now) }
{
    line.word("coins ");
    match refused {
        CoinsRefused::Shape => line.word("shape"),
        CoinsRefused::Targets(attempt) => add_numbered(line, "targets ", u64::from(*attempt)),
        CoinsRefused::Target { attempt, place } => add_two(line, "target ", *attempt, *place),
        CoinsRefused::Order { attempt, bucket } => add_two(line, "order ", *attempt, *bucket),
        CoinsRefused::OutOfMemory => line.word("out-of-memory"),
    }
}

/// Adds what is wrong with a batch.
fn add_batch(line: &mut Line, refused: &BatchRefused)
    requires { length line.old ≤ 20 }
    ensures { line.new ≡ line.old ++ (codes "batch " ++ batch_text refused.now) }
{
    line.word("batch ");
    match refused {
        BatchRefused::BadMagic => line.word("bad-magic"),
        BatchRefused::BadVersion => line.word("bad-version"),
        BatchRefused::BadSize => line.word("bad-size"),
        BatchRefused::Cut(cut) => add_cut(line, cut),
        BatchRefused::Trailing => line.word("trailing"),
        BatchRefused::Unsorted(place) => add_numbered(line, "unsorted ", u64::from(*place)),
        BatchRefused::TooFew { n, m } => add_two(line, "too-few ", *n, *m),
        BatchRefused::TooMany { n } => add_numbered(line, "too-many ", u64::from(*n)),
        BatchRefused::OutOfMemory => line.word("out-of-memory"),
    }
}

/// Adds a word and two numbers.
fn add_two(line: &mut Line, word: &str, first: u32, second: u32)
    requires line { length line.old ≤ 40 }
    requires word { length word.now ≤ 20 }
    ensures { line.new ≡ line.old ++ (numbered word.now first ++ numbered (codes " ") second) }
{
    add_numbered(line, word, u64::from(first));
    add_numbered(line, " ", u64::from(second));
}

/// The word of a cause.
fn word_of_cause(cause: LineCause) -> &'static str
    ensures word { result.now ≡ cause_word cause }
    ensures short { length result.now ≤ 20 }
{
    match cause {
        LineCause::MissingField => "missing-field",
        LineCause::BadMoment => "bad-moment",
        LineCause::BadSender => "bad-sender",
        LineCause::TooLong => "too-long",
        LineCause::BadHex => "bad-hex",
    }
}

/// Adds in which file a line is refused, which line, and why.
fn add_file(line: &mut Line, file: u32, refused: &LineRefused)
    requires { length line.old ≤ 20 }
    ensures { line.new ≡ line.old ++ file_text file refused.now }
{
    add_numbered(line, "file ", u64::from(file));
    line.word(" ");
    add_line(line, refused);
}

/// Adds which line is refused, and why.
fn add_line(line: &mut Line, refused: &LineRefused)
    requires { length line.old ≤ 60 }
    ensures { line.new ≡ line.old ++ line_text refused.now }
{
    add_numbered(line, "line ", refused.line);
    line.word(" ");
    line.word(word_of_cause(refused.cause));
}
