//! The line that a status is owed once a command has stopped.

ghost use Rattle.std.specs.Prelude.{◌≡◌};
ghost use Rattle.esa_command.specs.Stand.{stand};
ghost use Rattle.esa_command.specs.Telling.{status_in, Tells};

use esa_outside::{Failed, Printer};
use esa_refusal::{End, Status, line_of};

/// Prints the line that a command is owed, and answers its status. A fault of the printer leaves the status.
pub fn tell<P: Printer>(end: End, printer: &mut P) -> Status
    ensures status { result ≡ status_in end }
    ensures tells { Tells end (stand P.told P.faults P.heard printer.old) (stand P.told P.faults P.heard printer.new) }
{
    match end {
        End::Settled(status) => status,
        End::Stopped(status) => {
            let line = line_of(&status);
            match printer.line(line.as_bytes()) {
                Ok(()) => status,
                Err(Failed) => status,
            }
        }
    }
}
