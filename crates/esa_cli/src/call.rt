//! The words of a command line.

ghost use Rattle.std.specs.Prelude.{◌≡◌, map, option_map, string_bytes};
ghost use Rattle.esa_cli.specs.Call.{call_of, command_named};

use esa_job::{Command, command_of};

/// What a command line asks for: a command, and the name of its job file.
#[derive(Clone, Copy)]
pub struct Call<'a> {
    pub command: Command,
    pub job: &'a str,
}

/// The command that a word names.
fn named(word: &str) -> Option<Command>
    ensures { result ≡ command_named word.now }
{
    command_of(word)
}

/// Reads the words after the program's name. None exactly where they aren't a command and a name.
pub fn call_of(words: &[String]) -> Option<Call<'_>>
    ensures { option_map (λ call. (call.command, call.job.now)) result ≡ call_of (map string_bytes words.now) }
{
    match words {
        [word, job] => Some(Call {
            command: named(word.as_str())?,
            job: job.as_str(),
        }),
        _ => None,
    }
}
