//! What a shuffle takes in beside its records: its sizes, the turns that are handed in, and its coins.

ghost use Rattle.std.specs.Prelude.{◌≡◌, IfOk};
ghost use Rattle.esa_job.specs.Seen.{request_of, Needs};
ghost use Rattle.esa_params.specs.Sizes.{ArePlanned};
ghost use Rattle.esa_coins.specs.AnyCoins.{any_plan};
ghost use Rattle.esa_coins.specs.SeededCoins.{seeds_of};
ghost use Rattle.esa_model.specs.Turns.{AreWorkers};
ghost use Rattle.esa_command.specs.Judged.{Judged};
ghost use Rattle.esa_command.specs.Stand.{stand};
ghost use Rattle.esa_shuffling.specs.Shuffle.{numbers_asked, sizes_asked, seeds_asked, turns_file, coins_file};
ghost use Rattle.esa_shuffling.specs.Drawn.{draws_of};

use esa_coins::{AnyCoins, SeededCoins, TableCoins};
use esa_command::{form_of, read_file};
use esa_job::{Command, Job, JobField};
use esa_model::Turns;
use esa_outside::Cabinet;
use esa_params::{Draw, Plan};
use esa_refusal::{Source, Stop};
use std::alloc::Global;

/// The plan of the shuffle that a job asks for.
pub fn plan_of(job: &Job) -> Plan
    requires parameters { Needs job.now JobField.B }
    requires records { Needs job.now JobField.Records }
    ensures value { result ≡ sizes_asked (request_of job.now) }
    ensures planned { ArePlanned result }
{
    Plan::of(job.settings(), job.records(), form_of(job))
}

/// Reads the turns of a job, where it names a file for them.
pub fn take_turns<K: Cabinet>(
    alloc: Global,
    cabinet: &mut K,
    command: Command,
    job: &Job,
) -> Result<Turns, Stop>
    requires { Needs job.now JobField.B }
    ensures judged { Judged 3 4 (λ turns. turns) (turns_file command (request_of job.now))
        (stand K.told K.faults K.heard cabinet.old) (stand K.told K.faults K.heard cabinet.new) result }
    ensures workers { IfOk result (λ turns. AreWorkers (numbers_asked (request_of job.now)).workers turns) }
{
    match job.turns() {
        None => Ok(Turns::none(alloc)),
        Some(name) => {
            let bytes = read_file(alloc, cabinet, command, Source::Turns, name)?;
            let settings = job.settings();
            let turns = Turns::read(alloc, &bytes, settings.workers(), settings.attempts())?;
            Ok(turns)
        }
    }
}

/// The coins that a job's seed draws for a plan.
fn seeded(job: &Job, plan: Plan) -> SeededCoins
    ensures { seeds_of result ≡ seeds_asked plan (request_of job.now) }
{
    let seed = job.seed().unwrap_or([0; 32]);
    let draw = job.draw().unwrap_or(Draw::Single);
    SeededCoins::make(seed, draw, plan)
}

/// Reads the coins of a job for a plan, where it names a file for them, and else draws them from its seed.
pub fn take_coins<K: Cabinet>(
    alloc: Global,
    cabinet: &mut K,
    command: Command,
    job: &Job,
    plan: Plan,
) -> Result<AnyCoins, Stop>
    ensures judged { Judged 5 6 draws_of (coins_file command plan (request_of job.now))
        (stand K.told K.faults K.heard cabinet.old) (stand K.told K.faults K.heard cabinet.new) result }
    ensures plan { IfOk result (λ coins. any_plan coins ≡ plan) }
{
    match job.coins() {
        None => Ok(AnyCoins::Seeded(seeded(job, plan))),
        Some(name) => {
            let bytes = read_file(alloc, cabinet, command, Source::Coins, name)?;
            let coins = TableCoins::read(alloc, &bytes, plan)?;
            Ok(AnyCoins::Table(coins))
        }
    }
}
