//! An attempt of many records, whose instructions a script counts, and the bare copy that it is compared with.

ghost use Rattle.std.specs.Prelude.{◌≡◌, ◌≤◌, [], Some};
ghost use Rattle.esa_params.specs.Slots.{greatest_trace};

use crate::batch::Numbered;
use crate::setup::{block_keys, number_of, outer_keys, plan_of};
use anyhow::{Result, bail, ensure};
use esa_coins::{Draw, SeededCoins};
use esa_device::{Device, MemDevice, Recorder};
use esa_model::Turns;
use esa_params::Plan;
use esa_report::{Item, Kind};
use esa_shuffle::run_turns;
use std::alloc::Global;

/// The plan, which docs/SIZING.md has for so many records.
const PLAN: &str = "records 100000, b 32, c 120, s 600, k 90, w 3, q 11000, workers 1, attempts 1";

/// Does one thing: `attempt N` makes an attempt of the plan, up to the access of this number, which fails, and `copy N`
/// copies so many items.
pub fn measure(rt: &(impl Print + AllocGlobal), words: &[String]) -> Result<()> {
    let number = words.get(1).map_or("0", String::as_str);
    match words.first().map_or("", String::as_str) {
        "attempt" => attempt(rt, number_of(number)?),
        "copy" => copy(rt, number_of(number)?),
        _ => bail!("nothing to do"),
    }
}

/// Makes an attempt, up to the access that fails.
fn attempt(rt: &(impl Print + AllocGlobal), fails: u64) -> Result<()> {
    let plan = plan_of(PLAN)?;
    let accesses = attempt_of(rt.alloc(), plan, fails)?;
    println!(rt; "{accesses} accesses")?;
    Ok(())
}

/// Makes an attempt of a plan, and answers how many accesses it made.
fn attempt_of(alloc: Global, plan: Plan, fails: u64) -> Result<usize> {
    let device = MemDevice::make(vec![in alloc; fails; 1]?, Vec::new(alloc));
    let mut recorder = Recorder::make(alloc, device);
    match recorder.ready(&plan) {
        Ok(()) => run_with(alloc, plan, recorder),
        Err(_) => bail!("the device isn't laid"),
    }
}

/// Runs a plan over a device, and answers how many accesses there were.
fn run_with(alloc: Global, plan: Plan, recorder: Recorder<MemDevice>) -> Result<usize>
    requires ready { recorder.plan ≡ Some plan }
    requires trace { recorder.trace ≡ [] }
    requires room { greatest_trace plan ≤ recorder.room }
{
    let coins = SeededCoins::make([3; 32], Draw::Single, plan);
    let (outer, keys) = (outer_keys(), block_keys());
    let mut batch = Numbered::make(alloc, &plan, &outer, None)?;
    let turns = Turns::none(alloc);
    let ran = run_turns(
        alloc, plan, outer, keys, &coins, &mut batch, recorder, &turns,
    );
    match ran {
        Ok(ran) => Ok(ran.recorder.trace().len()),
        Err(_) => bail!("no memory for a run"),
    }
}

/// Copies so many items, one after another.
fn copy(rt: &(impl Print + AllocGlobal), count: u64) -> Result<()> {
    ensure!(count <= 1_000_000, "too many items");
    let real = Item {
        kind: Kind::Real,
        body: [1; 264],
    };
    let items = vec![in rt.alloc(); real; count as usize]?;
    let mut copies = Vec::with_capacity(rt.alloc(), count as usize)?;
    for item in &items {
        copies.push(*item)?;
    }
    println!(rt; "copied {}", copies.len())?;
    Ok(())
}
