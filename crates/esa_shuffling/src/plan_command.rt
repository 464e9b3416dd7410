//! The command plan: what a shuffle will do, without a record. It needs no keys, no batch and no device.

ghost use Rattle.std.specs.Prelude.{◌≡◌, ◌<◌, ◌^◌, All, IfOk, MatchResult, length, option_map};
ghost use Rattle.esa_coins.specs.AnyCoins.{any_plan};
ghost use Rattle.esa_job.specs.Seen.{request_of, Needs};
ghost use Rattle.esa_model.specs.Turns.{AreWorkers};
ghost use Rattle.esa_command.specs.Doing.{PrintsAll};
ghost use Rattle.esa_command.specs.Ends.{Ends};
ghost use Rattle.esa_command.specs.Judged.{Judged};
ghost use Rattle.esa_command.specs.Settled.{Settles};
ghost use Rattle.esa_command.specs.Stand.{stand};
ghost use Rattle.esa_shuffling.specs.Shuffle.{sizes_asked};
ghost use Rattle.esa_shuffling.specs.Plan.{accesses_text, forecast_texts, forecast_work, plan_steps};
ghost use Rattle.esa_shuffling.specs.PlanTaken.{plan_taken};

use crate::taking::{plan_of, take_coins, take_turns};
use esa_coins::AnyCoins;
use esa_command::{print_line, print_verdicts, settle, take_job};
use esa_job::{Command, Job, JobField};
use esa_model::{Forecast, Predictor, Turns};
use esa_outside::{Cabinet, Failed, Printer, Role};
use esa_refusal::{End, Line, Status, Stop, add_numbered};
use esa_trace::write_trace;
use std::alloc::{AllocError, Global};

/// What plan takes in.
#[derive(Drop)]
pub struct PlanInput {
    pub job: Job,
    pub turns: Turns,
    pub coins: AnyCoins,
}

/// Takes in the job, its turns and its coins.
fn take_plan<K: Cabinet>(
    alloc: Global,
    cabinet: &mut K,
    crew_allowed: bool,
    name: &str,
) -> Result<PlanInput, Stop>
    ensures judged { Judged 0 6 plan_taken (plan_steps crew_allowed name.now)
        (stand K.told K.faults K.heard cabinet.old) (stand K.told K.faults K.heard cabinet.new) result }
    ensures parameters { IfOk result (λ input. Needs input.job JobField.B) }
    ensures records { IfOk result (λ input. Needs input.job JobField.Records) }
    ensures workers { IfOk result (λ input. AreWorkers (sizes_asked (request_of input.job)).workers input.turns) }
    ensures plan { IfOk result (λ input. any_plan input.coins ≡ sizes_asked (request_of input.job)) }
{
    let job = take_job(alloc, cabinet, Command::Plan, crew_allowed, name)?;
    let turns = take_turns(alloc, cabinet, Command::Plan, &job)?;
    let coins = take_coins(alloc, cabinet, Command::Plan, &job, plan_of(&job))?;
    Ok(PlanInput { job, turns, coins })
}

/// The line that tells how many accesses are made.
fn accesses_line(accesses: u64) -> Line
    ensures { result ≡ accesses_text accesses }
{
    let mut line = Line::new();
    add_numbered(&mut line, "accesses ", accesses);
    line
}

/// Prints how the attempts end, and how many accesses are made.
fn print_forecast<P: Printer>(printer: &mut P, forecast: &Forecast) -> Result<(), Failed>
    ensures { PrintsAll (forecast_texts forecast.now.verdicts forecast.now.accesses)
        (stand P.told P.faults P.heard printer.old) (stand P.told P.faults P.heard printer.new) result }
{
    print_verdicts(printer, forecast.verdicts())?;
    let line = accesses_line(forecast.accesses().len() as u64);
    print_line(printer, line.as_bytes())
}

/// Writes the trace, where the job names a file for it, and prints the forecast.
fn work_plan<K: Cabinet, P: Printer>(
    cabinet: &mut K,
    printer: &mut P,
    trace: Option<&str>,
    forecast: &Forecast,
) -> End
    requires attempts { All (λ access. access.attempt < 256) forecast.now.accesses }
    requires number { length forecast.now.accesses < 2 ^ 32 }
    ensures { Settles (forecast_work (option_map (λ name. name.now) trace.entry) forecast.now.verdicts forecast.now.accesses)
        (stand K.told K.faults K.heard cabinet.old) (stand K.told K.faults K.heard cabinet.new)
        (stand P.told P.faults P.heard printer.old) (stand P.told P.faults P.heard printer.new) result }
{
    match trace {
        None => settle(Status::Ok, print_forecast(printer, forecast)),
        Some(name) => match write_trace(forecast.accesses(), cabinet, name) {
            Ok(()) => settle(Status::Ok, print_forecast(printer, forecast)),
            Err(Failed) => End::Stopped(Status::OutsideFault(Role::Trace)),
        },
    }
}

/// Foretells what a shuffle will do, and does the work for it. Where memory is wanted nothing is done.
fn foretell_plan<K: Cabinet, P: Printer>(
    alloc: Global,
    cabinet: &mut K,
    printer: &mut P,
    input: &PlanInput,
) -> Result<End, AllocError>
    requires parameters { Needs input.now.job JobField.B }
    requires records { Needs input.now.job JobField.Records }
    requires workers { AreWorkers (sizes_asked (request_of input.now.job)).workers input.now.turns }
    requires plan { any_plan input.now.coins ≡ sizes_asked (request_of input.now.job) }
    ensures { MatchResult result
        (λ end. Settles (plan_taken input.now)
        (stand K.told K.faults K.heard cabinet.old) (stand K.told K.faults K.heard cabinet.new)
        (stand P.told P.faults P.heard printer.old) (stand P.told P.faults P.heard printer.new) end)
        (λ _. (cabinet.new ≡ cabinet.old) × (printer.new ≡ printer.old)) }
{
    let mut predictor = Predictor::make(alloc, plan_of(&input.job))?;
    let forecast = predictor.run(&input.coins, &input.turns);
    Ok(work_plan(cabinet, printer, input.job.trace(), forecast))
}

/// Foretells how the attempts of a shuffle end and which accesses it makes, from its sizes, its coins and the turns
/// that are handed in. It writes the trace, where the job names a file for it, and prints a line for each attempt up to the
/// first that succeeds, and then the number of accesses.
pub fn plan<K: Cabinet, P: Printer>(
    alloc: Global,
    cabinet: &mut K,
    printer: &mut P,
    crew_allowed: bool,
    name: &str,
) -> End
    ensures { Ends (plan_steps crew_allowed name.now)
        (stand K.told K.faults K.heard cabinet.old) (stand K.told K.faults K.heard cabinet.new)
        (stand P.told P.faults P.heard printer.old) (stand P.told P.faults P.heard printer.new) result }
{
    match take_plan(alloc, cabinet, crew_allowed, name) {
        Ok(input) => match foretell_plan(alloc, cabinet, printer, &input) {
            Ok(end) => end,
            Err(AllocError) => End::Stopped(Status::OutOfMemory),
        },
        Err(stop) => End::Stopped(Status::from(stop)),
    }
}
