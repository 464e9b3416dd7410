//! What run and shuffle take in.

ghost use Rattle.std.specs.Prelude.{◌≡◌, IfOk};
ghost use Rattle.esa_job.specs.Seen.{request_of};
ghost use Rattle.esa_command.specs.Judged.{Judged};
ghost use Rattle.esa_command.specs.Stand.{stand};
ghost use Rattle.esa_command.specs.Taking.{name_of};
ghost use Rattle.esa_taking.specs.Run.{Shuffles, IsInside, run_steps};
ghost use Rattle.esa_taking.specs.RunTaken.{IsTaken, MayRun, run_taken};

use crate::taking::{plan_with, take_batch, take_drops};
use esa_batcher::Scanned;
use esa_coins::AnyCoins;
use esa_command::{take_job, take_keys};
use esa_job::{Command, Drops, Job, JobField, KeyRing};
use esa_model::Turns;
use esa_outside::Cabinet;
use esa_params::Plan;
use esa_refusal::Stop;
use esa_shuffling::{take_coins, take_turns};
use std::alloc::Global;

/// What run and shuffle take in. Of the batch it is what its header says.
#[derive(Drop)]
pub struct RunInput {
    pub job: Job,
    pub keys: KeyRing,
    pub drops: Drops,
    pub turns: Turns,
    pub batch: Scanned,
    pub coins: AnyCoins,
    /// The plan of the shuffle, by the parameters of the job and what the header of the batch says.
    pub plan: Plan,
}

/// Takes in the job of a shuffle, its keys, its drops, its turns, its batch and its coins, in this order. Of the batch
/// nothing is kept but what its header says.
pub fn take_run<K: Cabinet>(
    alloc: Global,
    cabinet: &mut K,
    command: Command,
    crew_allowed: bool,
    name: &str,
) -> Result<RunInput, Stop>
    requires { Shuffles command }
    ensures judged { Judged 0 6 run_taken (run_steps command crew_allowed name.now)
        (stand K.told K.faults K.heard cabinet.old) (stand K.told K.faults K.heard cabinet.new) result }
    ensures taken { IfOk result IsTaken }
    ensures mode { IfOk result (MayRun crew_allowed) }
    ensures command { IfOk result (λ input. (request_of input.job).command ≡ command) }
    ensures inside { IfOk result (λ input. IsInside (K.told cabinet.new) (name_of (request_of input.job) JobField.Input) input.batch) }
{
    let job = take_job(alloc, cabinet, command, crew_allowed, name)?;
    let keys = take_keys(alloc, cabinet, command, false, &job)?;
    let drops = take_drops(alloc, cabinet, command, &job)?;
    let turns = take_turns(alloc, cabinet, command, &job)?;
    let batch = take_batch(cabinet, command, &job)?;
    let plan = plan_with(&job, &batch);
    let coins = take_coins(alloc, cabinet, command, &job, plan)?;
    Ok(RunInput {
        job,
        keys,
        drops,
        turns,
        batch,
        coins,
        plan,
    })
}
