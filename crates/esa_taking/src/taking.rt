//! The files that run and shuffle take in beside turns and coins: the drops and the batch.

ghost use Rattle.std.specs.Prelude.{◌≡◌, ◌≤◌, IfOk};
ghost use Rattle.esa_job.specs.Seen.{request_of, Needs};
ghost use Rattle.esa_params.specs.Sizes.{ArePlanned};
ghost use Rattle.esa_refusal.specs.declared.stop.Stop.TheVariants.{Refused};
ghost use Rattle.esa_command.specs.Judged.{Judged};
ghost use Rattle.esa_command.specs.Stand.{stand};
ghost use Rattle.esa_command.specs.Taking.{name_of};
ghost use Rattle.esa_taking.specs.Run.{Shuffles, IsInside, sizes_with, drops_refusal, drops_file, batch_file};

use esa_batcher::{ScanRefused, Scanned, scan_batch};
use esa_command::read_file;
use esa_job::{Command, Drops, DropsRefused, Job, JobField};
use esa_outside::{Cabinet, Role};
use esa_params::Plan;
use esa_refusal::{Refusal, Source, Stop};
use std::alloc::Global;

/// The bytes of the buffer through which a batch is tested.
const BUFFER: usize = 16384;

/// The plan of the shuffle of a batch, by the parameters of a job.
pub(crate) fn plan_with(job: &Job, batch: &Scanned) -> Plan
    requires parameters { Needs job.now JobField.B }
    requires some { 1 ≤ batch.now.count }
    requires few { batch.now.count ≤ 262144 }
    ensures sizes { result ≡ sizes_with (request_of job.now) batch.now }
    ensures limits { ArePlanned result }
{
    let plan = Plan::of(job.settings(), batch.count, batch.form);
    // A plan of which a number is read is known to keep its limits.
    let _records = plan.n();
    plan
}

/// How a command stops for a drops file that isn't accepted.
fn stop_for_drops(refused: DropsRefused) -> Stop
    ensures { result ≡ Refused (drops_refusal refused) }
{
    match refused {
        DropsRefused::Line(line) => Stop::Refused(Refusal::Drops(line)),
    }
}

/// Reads the drops of a job, where it names a file for them.
pub(crate) fn take_drops<K: Cabinet>(
    alloc: Global,
    cabinet: &mut K,
    command: Command,
    job: &Job,
) -> Result<Drops, Stop>
    ensures { Judged 2 3 (λ drops. drops) (drops_file command (request_of job.now))
        (stand K.told K.faults K.heard cabinet.old) (stand K.told K.faults K.heard cabinet.new) result }
{
    match job.drops() {
        None => Ok(Drops::zero()),
        Some(name) => {
            let bytes = read_file(alloc, cabinet, command, Source::Drops, name)?;
            match Drops::read(&bytes) {
                Ok(drops) => Ok(drops),
                Err(refused) => Err(stop_for_drops(refused)),
            }
        }
    }
}

/// Tests the batch of a job from its front to its end. It takes no memory.
pub(crate) fn take_batch<K: Cabinet>(
    cabinet: &mut K,
    command: Command,
    job: &Job,
) -> Result<Scanned, Stop>
    requires shuffles { Shuffles command }
    requires input { Needs job.now JobField.Input }
    requires least { Needs job.now JobField.M }
    ensures judged { Judged 4 5 (λ batch. batch) (batch_file command (request_of job.now))
        (stand K.told K.faults K.heard cabinet.old) (stand K.told K.faults K.heard cabinet.new) result }
    ensures number { IfOk result (λ batch. (1 ≤ batch.count) × (batch.count ≤ 262144)) }
    ensures inside { IfOk result (IsInside (K.told cabinet.old) (name_of (request_of job.now) JobField.Input)) }
{
    let mut buffer = [0; BUFFER];
    match scan_batch(cabinet, job.input(), job.m(), &mut buffer) {
        Ok(batch) => Ok(batch),
        Err(ScanRefused::Failed) => Err(Stop::Unread(Source::Input)),
        Err(ScanRefused::TooLarge { .. }) => Err(Stop::Refused(Refusal::Large(Role::Input))),
        Err(ScanRefused::Grammar(refused)) => Err(Stop::Refused(Refusal::Batch(refused))),
    }
}
