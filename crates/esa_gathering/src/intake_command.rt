//! The command intake: several files of submissions become one batch.

ghost use Rattle.std.specs.Prelude.{◌≡◌, true, IfOk};
ghost use Rattle.esa_job.specs.declared.command.Command.TheVariants as command;
ghost use Rattle.esa_job.specs.Seen.{request_of, Needs};
ghost use Rattle.esa_command.specs.Ends.{Ends};
ghost use Rattle.esa_command.specs.Judged.{Judged};
ghost use Rattle.esa_command.specs.Stand.{stand};
ghost use Rattle.esa_gathering.specs.Intake.{inputs_batched, intake_input, intake_steps};
ghost use Rattle.esa_gathering.specs.IntakeTaken.{intake_taken};

use crate::gathers::{Crew, Gathers, OneThread};
use crate::taking::take_texts;
use esa_batcher::Batch;
use esa_command::{form_of, take_job};
use esa_job::{Command, Job, JobField};
use esa_outside::{Cabinet, Printer};
use esa_refusal::{End, Status, Stop};
use esa_shuffling::work_batch;
use std::alloc::Global;
use std::thread::Threads;

/// What intake takes in.
#[derive(Drop)]
pub struct IntakeInput {
    pub job: Job,
    pub batch: Batch,
}

/// Reads the inputs of a job, and gathers their submissions.
fn take_inputs<G: Gathers, K: Cabinet>(
    gathers: &G,
    alloc: Global,
    cabinet: &mut K,
    job: &Job,
) -> Result<Batch, Stop>
    requires ready { G.ready gathers.now }
    requires least { Needs job.now JobField.M }
    requires mode { Needs job.now JobField.Mode }
    ensures { Judged 6 22 (λ batch. batch) (inputs_batched (request_of job.now))
        (stand K.told K.faults K.heard cabinet.old) (stand K.told K.faults K.heard cabinet.new) result }
{
    let texts = take_texts(alloc, cabinet, job)?;
    let epoch = job.epoch().unwrap_or(0);
    Ok(gathers.batch(alloc, form_of(job), epoch, job.m(), job.mode(), &texts)?)
}

/// Takes in the job and the submissions of its inputs.
fn take_intake<G: Gathers, K: Cabinet>(
    gathers: &G,
    alloc: Global,
    cabinet: &mut K,
    crew_allowed: bool,
    name: &str,
) -> Result<IntakeInput, Stop>
    requires { G.ready gathers.now }
    ensures judged { Judged 0 22 intake_taken (intake_input crew_allowed name.now)
        (stand K.told K.faults K.heard cabinet.old) (stand K.told K.faults K.heard cabinet.new) result }
    ensures command { IfOk result (λ input. (request_of input.job).command ≡ command.Intake) }
{
    let job = take_job(alloc, cabinet, Command::Intake, crew_allowed, name)?;
    let batch = take_inputs(gathers, alloc, cabinet, &job)?;
    Ok(IntakeInput { job, batch })
}

/// Gathers the submissions of several files into one batch, writes it, and prints how many records it has.
fn intake_by<G: Gathers, K: Cabinet, P: Printer>(
    gathers: &G,
    alloc: Global,
    cabinet: &mut K,
    printer: &mut P,
    crew_allowed: bool,
    name: &str,
) -> End
    requires { G.ready gathers.now }
    ensures { Ends (intake_steps crew_allowed name.now)
        (stand K.told K.faults K.heard cabinet.old) (stand K.told K.faults K.heard cabinet.new)
        (stand P.told P.faults P.heard printer.old) (stand P.told P.faults P.heard printer.new) result }
{
    match take_intake(gathers, alloc, cabinet, crew_allowed, name) {
        Ok(input) => work_batch(cabinet, printer, input.job.output(), &input.batch),
        Err(stop) => End::Stopped(Status::from(stop)),
    }
}

/// The command intake on one thread.
pub fn intake<K: Cabinet, P: Printer>(
    alloc: Global,
    cabinet: &mut K,
    printer: &mut P,
    crew_allowed: bool,
    name: &str,
) -> End
    ensures { Ends (intake_steps crew_allowed name.now)
        (stand K.told K.faults K.heard cabinet.old) (stand K.told K.faults K.heard cabinet.new)
        (stand P.told P.faults P.heard printer.old) (stand P.told P.faults P.heard printer.new) result }
{
    intake_by(&OneThread, alloc, cabinet, printer, crew_allowed, name)
}

/// The command intake where threads can be started: one for each file, if the job asks for a crew. What it writes is the
/// same, whatever the threads do.
pub fn intake_crew<R: Threads + Sync, K: Cabinet, P: Printer>(
    rt: &R,
    alloc: Global,
    cabinet: &mut K,
    printer: &mut P,
    name: &str,
) -> End
    ensures { Ends (intake_steps true name.now)
        (stand K.told K.faults K.heard cabinet.old) (stand K.told K.faults K.heard cabinet.new)
        (stand P.told P.faults P.heard printer.old) (stand P.told P.faults P.heard printer.new) result }
{
    intake_by(&Crew { rt }, alloc, cabinet, printer, true, name)
}
