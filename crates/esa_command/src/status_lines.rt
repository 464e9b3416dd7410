//! The lines of a status. After an overflow those of the attempts come first.

ghost use Rattle.esa_refusal.specs.Failures.{verdict_texts};
ghost use Rattle.esa_refusal.specs.Status.{failed_texts, own_texts, status_texts};
ghost use Rattle.esa_command.specs.Doing.{PrintsAll};
ghost use Rattle.esa_command.specs.Stand.{stand};

use crate::doing::print_line;
use esa_outside::{Failed, Printer};
use esa_refusal::{Status, line_of, verdict_line};
use esa_spec::Verdict;

/// Prints a line for each attempt.
pub fn print_verdicts<P: Printer>(printer: &mut P, verdicts: &[Verdict]) -> Result<(), Failed>
    ensures { PrintsAll (verdict_texts 0 verdicts.now)
        (stand P.told P.faults P.heard printer.old) (stand P.told P.faults P.heard printer.new) result }
{
    for attempt in 0..verdicts.len() {
        let line = verdict_line(attempt as u64, &verdicts[attempt]);
        print_line(printer, line.as_bytes())?;
    }
    Ok(())
}

/// Prints the lines of the attempts that failed, where all failed.
fn print_failed<P: Printer>(printer: &mut P, status: &Status) -> Result<(), Failed>
    ensures { PrintsAll (failed_texts status.now)
        (stand P.told P.faults P.heard printer.old) (stand P.told P.faults P.heard printer.new) result }
{
    match status {
        Status::Overflow(failures) => print_verdicts(printer, failures.made()),
        _ => Ok(()),
    }
}

/// Prints the own line of a status, where it has one.
fn print_own<P: Printer>(printer: &mut P, status: &Status) -> Result<(), Failed>
    ensures { PrintsAll (own_texts status.now)
        (stand P.told P.faults P.heard printer.old) (stand P.told P.faults P.heard printer.new) result }
{
    if status.has_line() {
        print_line(printer, line_of(status).as_bytes())
    } else {
        Ok(())
    }
}

/// Prints the lines of a status.
pub fn print_status<P: Printer>(printer: &mut P, status: &Status) -> Result<(), Failed>
    ensures { PrintsAll (status_texts status.now)
        (stand P.told P.faults P.heard printer.old) (stand P.told P.faults P.heard printer.new) result }
{
    print_failed(printer, status)?;
    print_own(printer, status)
}
