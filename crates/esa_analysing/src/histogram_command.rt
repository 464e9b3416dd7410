//! The command histogram: a database is printed for people.

ghost use Rattle.std.specs.Prelude.{map};
ghost use Rattle.esa_analysing.specs.RowText.{row_text};
ghost use Rattle.esa_analysing.specs.Histogram.{histogram_texts, histogram_steps};
ghost use Rattle.esa_command.specs.Doing.{PrintsAll};
ghost use Rattle.esa_command.specs.Ends.{Ends};
ghost use Rattle.esa_command.specs.Stand.{stand};

use crate::database::take_job_and_database;
use crate::row_line::RowLine;
use esa_analyser::Db;
use esa_command::{print_line, settle};
use esa_job::Command;
use esa_outside::{Cabinet, Failed, Printer};
use esa_refusal::{End, Status};
use std::alloc::Global;

/// Prints a line for each row, by rising values.
fn print_rows<P: Printer>(printer: &mut P, db: &Db) -> Result<(), Failed>
    ensures { PrintsAll (map row_text db.now.database.rows)
        (stand P.told P.faults P.heard printer.old) (stand P.told P.faults P.heard printer.new) result }
{
    for row in 0..db.rows() {
        let line = RowLine::of_row(db.value(row), db.count(row));
        print_line(printer, line.as_bytes())?;
    }
    Ok(())
}

/// Prints the rows, and a line for the envelopes that gave no value. It takes no memory.
fn print_histogram<P: Printer>(printer: &mut P, db: &Db) -> Result<(), Failed>
    ensures { PrintsAll (histogram_texts db.now.database)
        (stand P.told P.faults P.heard printer.old) (stand P.told P.faults P.heard printer.new) result }
{
    print_rows(printer, db)?;
    let line = RowLine::of_unopened(db.unopened());
    print_line(printer, line.as_bytes())
}

/// Prints a database for people.
pub fn histogram<K: Cabinet, P: Printer>(
    alloc: Global,
    cabinet: &mut K,
    printer: &mut P,
    crew_allowed: bool,
    name: &str,
) -> End
    ensures { Ends (histogram_steps crew_allowed name.now)
        (stand K.told K.faults K.heard cabinet.old) (stand K.told K.faults K.heard cabinet.new)
        (stand P.told P.faults P.heard printer.old) (stand P.told P.faults P.heard printer.new) result }
{
    match take_job_and_database(alloc, cabinet, Command::Histogram, crew_allowed, name) {
        Ok(input) => settle(Status::Ok, print_histogram(printer, &input.db)),
        Err(stop) => End::Stopped(Status::from(stop)),
    }
}
