//! What a batch is shuffled for.

ghost use Rattle.std.specs.Prelude.{◌≡◌};
ghost use Rattle.esa_running.specs.Purpose.{command_for};

use esa_job::Command;

/// What a batch is shuffled for.
#[derive(Clone, Copy, PartialEq, Eq, Debug)]
pub enum Purpose {
    /// The command run: the values that come out are counted.
    Count,
    /// The command shuffle: what comes out is handed on to an analyser.
    HandOn,
}

impl Purpose {
    /// The command that shuffles a batch for it.
    pub fn command(self) -> Command
        ensures { result ≡ command_for self }
    {
        match self {
            Purpose::Count => Command::Run,
            Purpose::HandOn => Command::Shuffle,
        }
    }
}
