//! The files that a command reads and writes, by their roles.

ghost use Rattle.std.specs.Prelude.{◌≡◌};
ghost use Rattle.esa_refusal.specs.Source.{role_of, limit_of, input_limit, role_of_sink};

use esa_job::Command;
use esa_outside::Role;
use esa_params::{
    MOST_COINS_BYTES, MOST_JOB_BYTES, MOST_RECORD_BYTES, MOST_SUBMISSION_BYTES, MOST_TRACE_BYTES,
};

/// A file that a command reads, by its role.
#[derive(Clone, Copy, PartialEq, Eq, Debug)]
pub enum Source {
    Job,
    Keys,
    Drops,
    Turns,
    Input,
    Coins,
    /// One of several inputs, by its place among them, counted from 0.
    Inputs(u32),
}

impl Source {
    pub fn role(self) -> Role
        ensures { result ≡ role_of self }
    {
        match self {
            Source::Job => Role::Job,
            Source::Keys => Role::Keys,
            Source::Drops => Role::Drops,
            Source::Turns => Role::Turns,
            Source::Input | Source::Inputs(_) => Role::Input,
            Source::Coins => Role::Coins,
        }
    }

    /// The most bytes that the file may have.
    pub fn limit(self, command: Command) -> u64
        ensures { result ≡ limit_of command self }
    {
        match self {
            Source::Job | Source::Keys | Source::Drops => MOST_JOB_BYTES,
            Source::Turns | Source::Coins => MOST_COINS_BYTES,
            Source::Input | Source::Inputs(_) => most_input(command),
        }
    }
}

/// The most bytes of an input file.
fn most_input(command: Command) -> u64
    ensures { result ≡ input_limit command }
{
    match command {
        Command::Batch | Command::Intake => MOST_SUBMISSION_BYTES,
        Command::Audit => MOST_TRACE_BYTES,
        _ => MOST_RECORD_BYTES,
    }
}

/// A file that a command writes, by its role.
#[derive(Clone, Copy, PartialEq, Eq, Debug)]
pub enum Sink {
    Output,
    Trace,
    TurnsOut,
}

impl Sink {
    pub fn role(self) -> Role
        ensures { result ≡ role_of_sink self }
    {
        match self {
            Sink::Output => Role::Output,
            Sink::Trace => Role::Trace,
            Sink::TurnsOut => Role::TurnsOut,
        }
    }
}
