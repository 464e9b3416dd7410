//! The commands, and the words that name them.

ghost use Rattle.std.specs.Prelude.{◌≡◌, ◌≢◌, ◌≤◌, length, IfSome, IsNone};
ghost use Rattle.esa_job.specs.Table.{only_plans, place_of, is_among};
ghost use Rattle.esa_job.specs.Word.{command_word};

/// A command of the program.
#[derive(Clone, Copy, PartialEq, Eq, Debug)]
pub enum Command {
    /// Makes report lines from a number.
    Gen,
    /// Seals report lines into submission lines.
    Encode,
    /// Drops sender and moment of submission lines, and sorts their envelopes into a batch.
    Batch,
    /// Takes several files of submission lines into one batch.
    Intake,
    /// Shuffles a batch, drops some records of each crowd and then each crowd that is too small.
    Shuffle,
    /// Shuffles a batch and counts what is left.
    Run,
    /// Shuffles a batch and seals it for a second shuffler.
    Relay,
    /// Counts what a shuffler handed on.
    Analyse,
    /// Prints a database.
    Histogram,
    /// Writes a database in its newest version.
    Upgrade,
    /// Puts a database's shares together.
    Recover,
    /// Tells what a shuffle will do, from its numbers alone.
    Plan,
    /// Says whether a trace is that of a plan.
    Audit,
}

impl Command {
    /// The word that names the command: 3 to 9 bytes.
    pub fn word(self) -> &'static str
        ensures word { result.now ≡ command_word self }
        ensures short { length result.now ≤ 9 }
    {
        match self {
            Command::Gen => "gen",
            Command::Encode => "encode",
            Command::Batch => "batch",
            Command::Intake => "intake",
            Command::Shuffle => "shuffle",
            Command::Run => "run",
            Command::Relay => "relay",
            Command::Analyse => "analyse",
            Command::Histogram => "histogram",
            Command::Upgrade => "upgrade",
            Command::Recover => "recover",
            Command::Plan => "plan",
            Command::Audit => "audit",
        }
    }

    /// The command's place among the commands.
    fn place(self) -> u8
        ensures { result ≡ place_of self }
    {
        match self {
            Command::Gen => 0,
            Command::Encode => 1,
            Command::Batch => 2,
            Command::Intake => 3,
            Command::Shuffle => 4,
            Command::Run => 5,
            Command::Relay => 6,
            Command::Analyse => 7,
            Command::Histogram => 8,
            Command::Upgrade => 9,
            Command::Recover => 10,
            Command::Plan => 11,
            Command::Audit => 12,
        }
    }

    /// Whether the command is one of these.
    pub(crate) fn is_among(self, commands: &[Command]) -> bool
        ensures { result ≡ is_among commands.now self }
    {
        commands.iter().any(|named| named.place() == self.place())
    }

    /// Whether the command takes a plan for what it is, so that nothing is shuffled.
    pub(crate) fn only_plans(self) -> bool
        ensures { result ≡ only_plans self }
    {
        match self {
            Command::Plan | Command::Audit => true,
            _ => false,
        }
    }
}

/// The command that the word names. `None` exactly where it names none.
pub fn command_of(word: &str) -> Option<Command>
    ensures named { IfSome result (λ command. word.now ≡ command_word command) }
    ensures other { IsNone result → (command : Command) → word.now ≢ command_word command }
{
    match word {
        "gen" => Some(Command::Gen),
        "encode" => Some(Command::Encode),
        "batch" => Some(Command::Batch),
        "intake" => Some(Command::Intake),
        "shuffle" => Some(Command::Shuffle),
        "run" => Some(Command::Run),
        "relay" => Some(Command::Relay),
        "analyse" => Some(Command::Analyse),
        "histogram" => Some(Command::Histogram),
        "upgrade" => Some(Command::Upgrade),
        "recover" => Some(Command::Recover),
        "plan" => Some(Command::Plan),
        "audit" => Some(Command::Audit),
        _ => None,
    }
}
