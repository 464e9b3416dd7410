//! A database that a job names.

ghost use Rattle.std.specs.Prelude.{◌≡◌, IfOk};
ghost use Rattle.esa_analyser.specs.Rows.{IsDatabase};
ghost use Rattle.esa_job.specs.declared.field.Need.TheVariants.{Needed};
ghost use Rattle.esa_job.specs.Seen.{request_of, Needs};
ghost use Rattle.esa_job.specs.Table.{need_of};
ghost use Rattle.esa_analysing.specs.Database.{database_file, database_input};
ghost use Rattle.esa_analysing.specs.DatabaseTaken.{database_taken};
ghost use Rattle.esa_command.specs.Judged.{Judged};
ghost use Rattle.esa_command.specs.Stand.{stand};

use esa_analyser::{Db, read_db};
use esa_command::{read_file, take_job};
use esa_job::{Command, Job, JobField};
use esa_outside::Cabinet;
use esa_refusal::{Source, Stop};
use std::alloc::Global;

/// What the commands take in that read a database.
#[derive(Drop)]
pub struct DatabaseInput {
    pub job: Job,
    pub db: Db,
}

/// Reads the database file of a job.
pub fn take_database<K: Cabinet>(
    alloc: Global,
    cabinet: &mut K,
    command: Command,
    job: &Job,
) -> Result<Db, Stop>
    requires { Needs job.now JobField.Input }
    ensures judged { Judged 4 5 (λ db. db) (database_file command (request_of job.now))
        (stand K.told K.faults K.heard cabinet.old) (stand K.told K.faults K.heard cabinet.new) result }
    ensures database { IfOk result (λ db. IsDatabase db.form db.database) }
{
    let bytes = read_file(alloc, cabinet, command, Source::Input, job.input())?;
    Ok(read_db(alloc, &bytes)?)
}

/// Takes in the job of a command and its database.
pub(crate) fn take_job_and_database<K: Cabinet>(
    alloc: Global,
    cabinet: &mut K,
    command: Command,
    crew_allowed: bool,
    name: &str,
) -> Result<DatabaseInput, Stop>
    requires { need_of JobField.Input command ≡ Needed }
    ensures judged { Judged 0 5 database_taken (database_input command crew_allowed name.now)
        (stand K.told K.faults K.heard cabinet.old) (stand K.told K.faults K.heard cabinet.new) result }
    ensures command { IfOk result (λ input. (request_of input.job).command ≡ command) }
    ensures database { IfOk result (λ input. IsDatabase input.db.form input.db.database) }
{
    let job = take_job(alloc, cabinet, command, crew_allowed, name)?;
    let db = take_database(alloc, cabinet, command, &job)?;
    Ok(DatabaseInput { job, db })
}
