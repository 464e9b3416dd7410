//! The command upgrade: a database of either version becomes one of version 2.

ghost use Rattle.esa_analyser.specs.Rows.{IsDatabase};
ghost use Rattle.esa_params.specs.declared.form.Form.TheVariants as form;
ghost use Rattle.esa_analysing.specs.Analyse.{database_work};
ghost use Rattle.esa_analysing.specs.Upgrade.{upgrade_steps};
ghost use Rattle.esa_command.specs.Ends.{Ends};
ghost use Rattle.esa_command.specs.Settled.{Settles};
ghost use Rattle.esa_command.specs.Stand.{stand};

use crate::database::take_job_and_database;
use crate::lines::counted_line;
use esa_analyser::{Db, write_db};
use esa_command::settle_one;
use esa_job::Command;
use esa_outside::{Cabinet, Printer};
use esa_params::Form;
use esa_refusal::{End, Sink, Status};
use std::alloc::Global;

/// Writes a database in version 2 and prints what it holds.
fn work_upgrade<K: Cabinet, P: Printer>(
    cabinet: &mut K,
    printer: &mut P,
    output: &str,
    db: &Db,
) -> End
    requires { IsDatabase db.now.form db.now.database }
    ensures { Settles (database_work output.now form.Two db.now.database)
        (stand K.told K.faults K.heard cabinet.old) (stand K.told K.faults K.heard cabinet.new)
        (stand P.told P.faults P.heard printer.old) (stand P.told P.faults P.heard printer.new) result }
{
    let saved = write_db(Form::Two, db, cabinet, output);
    let line = counted_line(db.rows(), db.unopened());
    settle_one(saved, Sink::Output, printer, &line)
}

/// Writes a database of either version as version 2.
pub fn upgrade<K: Cabinet, P: Printer>(
    alloc: Global,
    cabinet: &mut K,
    printer: &mut P,
    crew_allowed: bool,
    name: &str,
) -> End
    ensures { Ends (upgrade_steps crew_allowed name.now)
        (stand K.told K.faults K.heard cabinet.old) (stand K.told K.faults K.heard cabinet.new)
        (stand P.told P.faults P.heard printer.old) (stand P.told P.faults P.heard printer.new) result }
{
    match take_job_and_database(alloc, cabinet, Command::Upgrade, crew_allowed, name) {
        Ok(input) => work_upgrade(cabinet, printer, input.job.output(), &input.db),
        Err(stop) => End::Stopped(Status::from(stop)),
    }
}
