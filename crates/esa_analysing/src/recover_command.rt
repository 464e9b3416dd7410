//! The command recover: a database of shares becomes one of the values that they give back.

ghost use Rattle.std.specs.Prelude.{IfOk};
ghost use Rattle.esa_job.specs.Seen.{Needs};
ghost use Rattle.esa_analysing.specs.Analyse.{database_work};
ghost use Rattle.esa_analysing.specs.Recover.{recover_steps};
ghost use Rattle.esa_analysing.specs.RecoverTaken.{recover_taken};
ghost use Rattle.esa_command.specs.Ends.{Ends};
ghost use Rattle.esa_command.specs.Judged.{Judged};
ghost use Rattle.esa_command.specs.Settled.{Settles};
ghost use Rattle.esa_command.specs.Stand.{stand};

use crate::database::{DatabaseInput, take_job_and_database};
use crate::lines::counted_line;
use esa_command::settle_one;
use esa_job::{Command, Job, JobField};
use esa_outside::{Cabinet, Printer};
use esa_recovery::{RecoverRefused, Recovered};
use esa_refusal::{End, Refusal, Sink, Status, Stop};
use std::alloc::Global;

/// What recover takes in: its job, and the database of what the rows of the input mean.
#[derive(Drop)]
pub struct RecoverInput {
    pub job: Job,
    pub recovered: Recovered,
}

/// Takes in the job and its database, and puts the shares together.
fn take_recover<K: Cabinet>(
    alloc: Global,
    cabinet: &mut K,
    crew_allowed: bool,
    name: &str,
) -> Result<RecoverInput, Stop>
    ensures judged { Judged 0 6 recover_taken (recover_steps crew_allowed name.now)
        (stand K.told K.faults K.heard cabinet.old) (stand K.told K.faults K.heard cabinet.new) result }
    ensures output { IfOk result (λ input. Needs input.job JobField.Output) }
{
    let DatabaseInput { job, db } = take_job_and_database(
        alloc,
        cabinet,
        Command::Recover,
        crew_allowed,
        name,
    )?;
    match Recovered::make(alloc, &db) {
        Ok(recovered) => Ok(RecoverInput { job, recovered }),
        Err(RecoverRefused::Sum) => Err(Stop::Refused(Refusal::SharesSum)),
        Err(RecoverRefused::OutOfMemory) => Err(Stop::OutOfMemory),
    }
}

/// Writes the recovered database and prints what it holds.
fn work_recover<K: Cabinet, P: Printer>(
    cabinet: &mut K,
    printer: &mut P,
    output: &str,
    recovered: &Recovered,
) -> End
    ensures { Settles (database_work output.now recovered.now.form recovered.now.database)
        (stand K.told K.faults K.heard cabinet.old) (stand K.told K.faults K.heard cabinet.new)
        (stand P.told P.faults P.heard printer.old) (stand P.told P.faults P.heard printer.new) result }
{
    let saved = recovered.write(cabinet, output);
    let line = counted_line(recovered.rows(), recovered.unopened());
    settle_one(saved, Sink::Output, printer, &line)
}

/// Puts the shares of a database together, writes the database of the values that they give back, in the version that was
/// read, and prints what it holds.
pub fn recover<K: Cabinet, P: Printer>(
    alloc: Global,
    cabinet: &mut K,
    printer: &mut P,
    crew_allowed: bool,
    name: &str,
) -> End
    ensures { Ends (recover_steps crew_allowed name.now)
        (stand K.told K.faults K.heard cabinet.old) (stand K.told K.faults K.heard cabinet.new)
        (stand P.told P.faults P.heard printer.old) (stand P.told P.faults P.heard printer.new) result }
{
    match take_recover(alloc, cabinet, crew_allowed, name) {
        Ok(input) => work_recover(cabinet, printer, input.job.output(), &input.recovered),
        Err(stop) => End::Stopped(Status::from(stop)),
    }
}
