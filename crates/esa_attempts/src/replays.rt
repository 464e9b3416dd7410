//! Turns that are replayed on a floor alone: nothing is drained behind them.

ghost use Rattle.std.specs.Prelude.{◌≡◌, ℕ, ◌+◌, ◌<◌, ◌≤◌, [], All, IfOk, None, OnOk, Some, length, true};
ghost use Rattle.esa_crew.specs.Posts.{AreMembers};
ghost use Rattle.esa_floor.specs.Marks.{roots_of};
ghost use Rattle.esa_floor.specs.Parts.{begun_as};
ghost use Rattle.esa_floor.specs.Standing.{Stands};
ghost use Rattle.esa_model.specs.Turns.{AreWorkers};
ghost use Rattle.esa_params.specs.Form.{envelope_length};
ghost use Rattle.esa_params.specs.Sizes.{ArePlanned};
ghost use Rattle.esa_params.specs.Slots.{greatest_trace};
ghost use Rattle.esa_shuffle.specs.Loading.{IsUnbegun};
ghost use Rattle.esa_spec.specs.Draws.{drawn};
ghost use Rattle.esa_attempts.specs.Replays.{HasReplayed};

use crate::batch::Numbered;
use crate::floors::floor_lines;
use crate::setup::{block_keys, outer_keys};
use anyhow::{Result, bail, ensure};
use esa_crew::{begin, replay, workers};
use esa_device::{Device, Recorder};
use esa_floor::{Floor, Stop, Told, Turn, Worker};
use esa_load::Loader;
use esa_model::{Turns, most_turns};
use esa_outside::Records;
use esa_params::Plan;
use esa_shuffle::load;
use esa_spec::Coins;
use std::alloc::Global;
use std::marker::Brand;

/// Replays the turns of each attempt, up to the first that doesn't overflow the stash, lets a worker have one more
/// turn, and answers the lines of what is seen of the floor.
pub fn replay_lines<V: Device + Drop, C: Coins>(
    alloc: Global,
    plan: Plan,
    coins: &C,
    recorder: Recorder<V>,
    turns: &Turns,
    late: Option<u32>,
) -> Result<String>
    requires coins { C.plan coins.now ≡ plan }
    requires ready { recorder.plan ≡ Some plan }
    requires trace { recorder.trace ≡ [] }
    requires room { greatest_trace plan ≤ recorder.room }
    requires numbers { AreWorkers plan.workers turns.now }
{
    replayed::<Brand, V, C>(alloc, plan, coins, recorder, turns, late)
}

/// The same, where the draws are told.
fn replayed<G: Told + Drop, V: Device + Drop, C: Coins>(
    alloc: Global,
    plan: Plan,
    coins: &C,
    recorder: Recorder<V>,
    turns: &Turns,
    late: Option<u32>,
) -> Result<String>
    requires coins { C.plan coins.now ≡ plan }
    requires plan { G.plan ≡ plan }
    requires draws { (a : ℕ) → G.draws a ≡ drawn (C.target_list coins.now) (C.order_list coins.now) a }
    requires ready { recorder.plan ≡ Some plan }
    requires trace { recorder.trace ≡ [] }
    requires room { greatest_trace plan ≤ recorder.room }
    requires numbers { AreWorkers plan.workers turns.now }
{
    let (outer, keys) = (outer_keys(), block_keys());
    let entries = most_entries(&plan, turns);
    let mut batch = Numbered::make(alloc, &plan, &outer, None)?;
    let mut loader = Loader::make(alloc, plan, keys)?;
    let mut crew = workers(alloc, coins, plan, outer, keys)?;
    let Ok(mut floor) = Floor::<V, G>::make(alloc, plan, outer, keys, coins, recorder, entries)
    else {
        bail!("no memory for a floor");
    };
    let told = load_and_replay(
        &mut floor,
        &mut loader,
        &mut batch,
        &mut crew,
        turns,
        entries,
        late,
    )?;
    floor_lines(alloc, floor, &keys, told)
}

/// How many entries the history of a replay has at most: for each attempt the owner's and its turns', and one more.
fn most_entries(plan: &Plan, turns: &Turns) -> u64
    ensures planned { ArePlanned plan.now }
    ensures some { 0 < result }
{
    let mut entries = 0u64;
    for attempt in 0..plan.attempts() {
        let made = most_turns(plan, turns.list(attempt)) as u64;
        entries = entries.saturating_add(made + 1);
    }
    entries.saturating_add(1)
}

/// Loads a batch on a new floor, replays the turns of its attempts, and lets a worker have one more turn.
fn load_and_replay<V: Device, G: Told, C: Coins, R: Records>(
    floor: &mut Floor<V, G>,
    loader: &mut Loader,
    batch: &mut R,
    crew: &mut [Worker<'_, C>],
    turns: &Turns,
    entries: u64,
    late: Option<u32>,
) -> Result<Option<(u32, Turn)>>
    requires new { IsUnbegun V.faults G.plan G.draws floor.old }
    requires plan { loader.old.plan ≡ floor.old.plan }
    requires run { loader.old.run ≡ floor.old.run }
    requires count { R.count batch.old ≡ floor.old.plan.n }
    requires size { R.size batch.old ≡ envelope_length floor.old.plan.form }
    requires members { AreMembers G.draws C.target_list floor.old crew.old }
    requires each { length crew.old ≡ floor.old.plan.workers }
    requires numbers { AreWorkers floor.old.plan.workers turns.now }
    requires room { length floor.old.history + entries ≤ floor.old.room }
{
    let Ok(_loaded) = load(floor, loader, batch) else {
        bail!("the batch isn't loaded");
    };
    replay_all(floor, crew, turns, entries)?;
    Ok(late_turn(floor, crew, late))
}

/// Replays the turns of each attempt, up to the first that doesn't overflow the stash. There is room for these entries.
fn replay_all<V: Device, G: Told, C: Coins>(
    floor: &mut Floor<V, G>,
    crew: &mut [Worker<'_, C>],
    turns: &Turns,
    entries: u64,
) -> Result<()>
    requires first { Stands V.faults G.plan G.draws (begun_as floor.old 0) }
    requires some { 0 < floor.old.plan.attempts }
    requires members { AreMembers G.draws C.target_list floor.old crew.old }
    requires each { length crew.old ≡ floor.old.plan.workers }
    requires numbers { AreWorkers floor.old.plan.workers turns.now }
    requires room { length floor.old.history + entries ≤ floor.old.room }
    ensures { OnOk result (HasReplayed V.faults G.plan G.draws C.target_list floor.new crew.new) }
{
    let mut left = replay_next(floor, crew, 0, turns.list(0), entries)?;
    for attempt in 0..floor.plan().attempts().saturating_sub(1) {
        if !has_overflowed(floor, attempt) {
            return Ok(());
        }
        left = replay_next(floor, crew, attempt + 1, turns.list(attempt + 1), left)?;
    }
    Ok(())
}

/// Begins an attempt and replays its turns, where there is room for so many entries and these turns are fewer. Answers
/// for how many entries there is room then.
fn replay_next<V: Device, G: Told, C: Coins>(
    floor: &mut Floor<V, G>,
    crew: &mut [Worker<'_, C>],
    attempt: u32,
    turns: &[u32],
    entries: u64,
) -> Result<u64>
    requires next { Stands V.faults G.plan G.draws (begun_as floor.old attempt) }
    requires attempt { attempt < floor.old.plan.attempts }
    requires members { AreMembers G.draws C.target_list floor.old crew.old }
    requires each { length crew.old ≡ floor.old.plan.workers }
    requires numbers { All (λ number. number < floor.old.plan.workers) turns.now }
    requires few { length turns.now ≤ 4194304 }
    requires room { length floor.old.history + entries ≤ floor.old.room }
    ensures replayed { OnOk result (HasReplayed V.faults G.plan G.draws C.target_list floor.new crew.new) }
    ensures attempt { OnOk result (floor.new.attempt ≡ Some attempt) }
    ensures room { IfOk result (λ left. length floor.new.history + left ≤ floor.new.room) }
    ensures origin { OnOk result (roots_of floor.new ≡ roots_of floor.old) }
{
    let needed = 1 + most_turns(&floor.plan(), turns) as u64;
    ensure!(needed < entries, "no room for the turns");
    begin(floor, crew, attempt);
    replay(floor, crew, turns);
    Ok(entries - needed)
}

/// Whether the attempt at work overflowed the stash. Then the next one may begin.
fn has_overflowed<V: Device, G: Told>(floor: &Floor<V, G>, attempt: u32) -> bool
    requires stands { Stands V.faults G.plan G.draws floor.now }
    requires attempt { floor.now.attempt ≡ Some attempt }
    requires room { length floor.now.history < floor.now.room }
    ensures { result ≡ true → attempt + 1 < floor.now.plan.attempts → Stands V.faults G.plan G.draws (begun_as floor.now (attempt + 1)) }
{
    match floor.stop() {
        Some(Stop::StashOverflow(_)) => true,
        _ => false,
    }
}

/// Lets a worker have one more turn, if there is this one, and answers its number and what it was told.
fn late_turn<V: Device, G: Told, C: Coins>(
    floor: &mut Floor<V, G>,
    crew: &mut [Worker<'_, C>],
    late: Option<u32>,
) -> Option<(u32, Turn)>
    requires { HasReplayed V.faults G.plan G.draws C.target_list floor.old crew.old }
{
    match late {
        Some(number) if (number as usize) < crew.len() => {
            let worker = &mut crew[number as usize];
            Some((number, floor.turn(worker)))
        }
        _ => None,
    }
}
