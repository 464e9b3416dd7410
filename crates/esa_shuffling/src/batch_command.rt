//! The command batch: submissions become a batch.

ghost use Rattle.std.specs.Prelude.{◌≡◌, Ok, IfOk, IfErr};
ghost use Rattle.esa_job.specs.declared.command.Command.TheVariants as command;
ghost use Rattle.esa_job.specs.Seen.{request_of, Needs};
ghost use Rattle.esa_command.specs.Ends.{Ends};
ghost use Rattle.esa_command.specs.Judged.{Judged};
ghost use Rattle.esa_command.specs.Settled.{Settles};
ghost use Rattle.esa_command.specs.Stand.{stand};
ghost use Rattle.esa_shuffling.specs.Batch.{batched, StopsBatching, submissions_file, batch_input, batched_text, batch_file_work, batch_steps};
ghost use Rattle.esa_shuffling.specs.BatchTaken.{batch_taken};

use esa_batcher::{Batch, gather};
use esa_command::{form_of, read_file, settle_one, take_job};
use esa_job::{Command, Job, JobField};
use esa_outside::{Cabinet, Printer};
use esa_params::Form;
use esa_refusal::{End, Line, Sink, Source, Status, Stop, add_numbered};
use std::alloc::Global;

/// What batch takes in.
#[derive(Drop)]
pub struct BatchInput {
    pub job: Job,
    pub batch: Batch,
}

/// The batch of the submissions in a text.
fn batch_of(
    alloc: Global,
    form: Form,
    epoch: u32,
    m: u32,
    submissions: &[u8],
) -> Result<Batch, Stop>
    ensures ok { IfOk result (λ batch. batched form epoch m submissions.now ≡ Ok batch) }
    ensures err { IfErr result (StopsBatching (batched form epoch m submissions.now)) }
{
    let batcher = gather(alloc, form, submissions)?;
    Ok(batcher.finish(epoch, m)?)
}

/// Reads the submissions of a job.
fn take_submissions<K: Cabinet>(alloc: Global, cabinet: &mut K, job: &Job) -> Result<Batch, Stop>
    requires input { Needs job.now JobField.Input }
    requires least { Needs job.now JobField.M }
    ensures { Judged 4 5 (λ batch. batch) (submissions_file (request_of job.now))
        (stand K.told K.faults K.heard cabinet.old) (stand K.told K.faults K.heard cabinet.new) result }
{
    let bytes = read_file(alloc, cabinet, Command::Batch, Source::Input, job.input())?;
    let epoch = job.epoch().unwrap_or(0);
    Ok(batch_of(alloc, form_of(job), epoch, job.m(), &bytes)?)
}

/// Takes in the job and its submissions.
fn take_batch<K: Cabinet>(
    alloc: Global,
    cabinet: &mut K,
    crew_allowed: bool,
    name: &str,
) -> Result<BatchInput, Stop>
    ensures judged { Judged 0 5 batch_taken (batch_input crew_allowed name.now)
        (stand K.told K.faults K.heard cabinet.old) (stand K.told K.faults K.heard cabinet.new) result }
    ensures command { IfOk result (λ input. (request_of input.job).command ≡ command.Batch) }
{
    let job = take_job(alloc, cabinet, Command::Batch, crew_allowed, name)?;
    let batch = take_submissions(alloc, cabinet, &job)?;
    Ok(BatchInput { job, batch })
}

/// The line that tells how many records a batch has.
fn batched_line(batch: &Batch) -> Line
    ensures { result ≡ batched_text batch.now }
{
    let mut line = Line::new();
    add_numbered(&mut line, "batched ", u64::from(batch.count()));
    line
}

/// Writes the batch and prints how many records it has.
pub fn work_batch<K: Cabinet, P: Printer>(
    cabinet: &mut K,
    printer: &mut P,
    output: &str,
    batch: &Batch,
) -> End
    ensures { Settles (batch_file_work output.now batch.now)
        (stand K.told K.faults K.heard cabinet.old) (stand K.told K.faults K.heard cabinet.new)
        (stand P.told P.faults P.heard printer.old) (stand P.told P.faults P.heard printer.new) result }
{
    let saved = batch.write(cabinet, output);
    settle_one(saved, Sink::Output, printer, &batched_line(batch))
}

/// Gathers submissions into a batch, writes it, and prints how many records it has.
pub fn batch<K: Cabinet, P: Printer>(
    alloc: Global,
    cabinet: &mut K,
    printer: &mut P,
    crew_allowed: bool,
    name: &str,
) -> End
    ensures { Ends (batch_steps crew_allowed name.now)
        (stand K.told K.faults K.heard cabinet.old) (stand K.told K.faults K.heard cabinet.new)
        (stand P.told P.faults P.heard printer.old) (stand P.told P.faults P.heard printer.new) result }
{
    match take_batch(alloc, cabinet, crew_allowed, name) {
        Ok(input) => work_batch(cabinet, printer, input.job.output(), &input.batch),
        Err(stop) => End::Stopped(Status::from(stop)),
    }
}
