//! The ends of a command's work: how it ends by its status, its files and its lines.

ghost use Rattle.std.specs.Prelude.{◌≡◌, ℕ, List, [], ◌∷◌};
ghost use Rattle.esa_lists.specs.Files.{Files};
ghost use Rattle.esa_command.specs.Doing.{AreWritten, WritesIt, WritesAll, PrintsAll, one_of_each, failed_work};
ghost use Rattle.esa_command.specs.Settled.{Settles, unwritten_as, unprinted_as};
ghost use Rattle.esa_command.specs.Stand.{Stand, stand};
ghost use Rattle.esa_command.specs.Work.{Write, Work};

use crate::status_lines::print_status;
use esa_outside::{Failed, Printer, Role};
use esa_refusal::{End, Line, Sink, Status};

/// Prints a line.
pub fn print_line<P: Printer>(printer: &mut P, text: &[u8]) -> Result<(), Failed>
    ensures { PrintsAll (text.now ∷ []) (stand P.told P.faults P.heard printer.old) (stand P.told P.faults P.heard printer.new) result }
{
    printer.line(text)
}

/// How work of a status ends where the file of a sink isn't written: Ok gives way to the fault, and any other stays.
fn unwritten(ended: Status, sink: Sink) -> End
    ensures { result ≡ unwritten_as sink ended }
{
    match ended {
        Status::Ok => End::Stopped(Status::OutsideFault(sink.role())),
        ended => End::Settled(ended),
    }
}

/// How work of a status ends where its lines aren't all printed: Ok gives way to the fault, and any other stays.
fn unprinted(ended: Status) -> End
    ensures { result ≡ unprinted_as ended }
{
    match ended {
        Status::Ok => End::Settled(Status::OutsideFault(Role::Printer)),
        ended => End::Settled(ended),
    }
}

/// How work of a status ends that has all its files written, by how its lines were printed.
pub fn settle(ended: Status, shown: Result<(), Failed>) -> End
    ensures { (work : Work) (cabinet cabinet_now : Stand Files) (printer printer_now : Stand (List ℕ)) → work.ended ≡ ended
        → AreWritten work.writes cabinet cabinet_now → PrintsAll work.prints printer printer_now shown
        → Settles work cabinet cabinet_now printer printer_now result }
{
    match shown {
        Ok(()) => End::Settled(ended),
        Err(Failed) => unprinted(ended),
    }
}

/// How work ends that has one file and one line, by how the file was written. The line is printed where it was.
pub fn settle_one<P: Printer>(
    saved: Result<(), Failed>,
    sink: Sink,
    printer: &mut P,
    line: &Line,
) -> End
    ensures { (write : Write) (cabinet cabinet_now : Stand Files) → write.sink ≡ sink → WritesIt write cabinet cabinet_now saved
        → Settles (one_of_each write line.now) cabinet cabinet_now
        (stand P.told P.faults P.heard printer.old) (stand P.told P.faults P.heard printer.new) result }
{
    match saved {
        Ok(()) => settle(Status::Ok, print_line(printer, line.as_bytes())),
        Err(Failed) => End::Stopped(Status::OutsideFault(sink.role())),
    }
}

/// How a command ends that failed after its input was accepted, by how its files were written. The lines of its status are
/// printed where they were. The status stays, whatever fails here.
pub fn settle_failed<P: Printer>(status: Status, saved: Result<(), Sink>, printer: &mut P) -> End
    ensures { (writes : List Write) (cabinet cabinet_now : Stand Files) → WritesAll writes cabinet cabinet_now saved
        → Settles (failed_work status writes) cabinet cabinet_now
        (stand P.told P.faults P.heard printer.old) (stand P.told P.faults P.heard printer.new) result }
{
    match saved {
        Ok(()) => settle(status, print_status(printer, &status)),
        Err(sink) => unwritten(status, sink),
    }
}
