//! What a run of a case does.

ghost use Rattle.std.specs.Prelude.{◌≡◌, ◌≤◌, [], Some};
ghost use Rattle.esa_model.specs.Turns.{AreWorkers};
ghost use Rattle.esa_params.specs.Slots.{greatest_trace};

use crate::batch::Numbered;
use crate::odd::OddDevice;
use crate::replays::replay_lines;
use crate::seen::{add_numbers, add_outcome, add_outputs, add_verdict};
use crate::setup::{
    block_keys, bytes_of, fault_of, late_of, oddities_of, outer_keys, plan_of, text_of, turns_of,
};
use anyhow::{Result, bail, ensure};
use esa_case_file::{Case, Run};
use esa_coins::TableCoins;
use esa_device::{Device, Recorder};
use esa_envelope::Keys;
use esa_floor::Outcome;
use esa_model::Turns;
use esa_params::Plan;
use esa_shuffle::{Ran, run_turns};
use esa_spec::Coins;
use std::alloc::Global;

/// Does what a run of a case says, and answers the lines of what is seen.
pub fn perform(alloc: Global, case: &Case, run: &Run) -> Result<String> {
    let plan = plan_of(text_of(case, "plan")?)?;
    let Ok(coins) = TableCoins::read(alloc, bytes_of(case, "coins"), plan) else {
        bail!("no coins of the plan");
    };
    let turns = turns_of(alloc, &run.words, &plan)?;
    let odd = oddities_of(alloc, text_of(case, "device")?)?;
    let mut recorder = Recorder::make(alloc, OddDevice::make(alloc, odd));
    ensure!(recorder.ready(&plan).is_ok(), "the device isn't laid");
    match run.words.first().map_or("", String::as_str) {
        "attempts" => attempt_lines(alloc, plan, &coins, recorder, &turns, fault_of(case)?),
        "replay" => replay_lines(alloc, plan, &coins, recorder, &turns, late_of(case)?),
        _ => bail!("nothing to do"),
    }
}

/// Runs a shuffle, of which this read of the batch fails, and answers the lines of what is seen.
fn attempt_lines<V: Device + Drop, C: Coins>(
    alloc: Global,
    plan: Plan,
    coins: &C,
    recorder: Recorder<V>,
    turns: &Turns,
    fails: Option<u64>,
) -> Result<String>
    requires coins { C.plan coins.now ≡ plan }
    requires ready { recorder.plan ≡ Some plan }
    requires trace { recorder.trace ≡ [] }
    requires room { greatest_trace plan ≤ recorder.room }
    requires numbers { AreWorkers plan.workers turns.now }
{
    let (outer, keys) = (outer_keys(), block_keys());
    let mut batch = Numbered::make(alloc, &plan, &outer, fails)?;
    match run_turns(alloc, plan, outer, keys, coins, &mut batch, recorder, turns) {
        Ok(ran) => lines_of(alloc, &keys, ran),
        Err(_) => bail!("no memory for a run"),
    }
}

/// The lines of what is seen of a run.
fn lines_of<V: Device + Drop>(alloc: Global, keys: &Keys, ran: Ran<V>) -> Result<String> {
    let Ran {
        outcome,
        failures,
        mut recorder,
        history,
    } = ran;
    let mut out = String::new(alloc);
    for (attempt, verdict) in failures.verdicts().iter().enumerate() {
        add_verdict(&mut out, attempt, *verdict)?;
    }
    add_outcome(&mut out, outcome)?;
    add_numbers(&mut out, "history", history.entries())?;
    let accesses = recorder.trace().len();
    let last = last_attempt(outcome, failures.verdicts().len());
    add_outputs(alloc, &mut out, &mut recorder, keys, last)?;
    writeln!(out, "accesses {accesses}")?;
    Ok(out)
}

/// The last attempt of a run in which so many have failed.
fn last_attempt(outcome: Outcome, failed: usize) -> u32 {
    let failed = failed.min(16) as u32;
    match outcome {
        Outcome::Overflow => failed.saturating_sub(1),
        _ => failed,
    }
}
