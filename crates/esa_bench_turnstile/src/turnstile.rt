//! The turnstile: threads that enter again and again, with work inside and outside.
ghost use Rattle.std.specs.Prelude.{◌≡◌, ◌*◌, ◌+◌, ◌<◌, ◌≤◌, ℕ, IfOk, length, slice_index_or, All};
ghost use Rattle.esa_turnstile.specs.Passes.{passes_of, tickets_of, opened_of, IsPassOf, IsNewPass, IsOutside, left_of};
ghost use Rattle.esa_turnstile.specs.Rolls.{room_in};

use anyhow::{Result, bail};
use esa_turnstile::{Logged, Opened, Pass, Roll, Turnstile, go_rounds, workers};
use std::alloc::{AllocError, Global};
use std::rt::Clock;
use std::sync::Wait;
use std::sync::atomic::{AtomicU64, Ordering};
use std::thread;
use std::thread::Threads;
use std::time::Instant;

/// More is no measurement, but a mistake.
const MOST_THREADS: u64 = 64;

const MOST_TURNS: u64 = 100_000_000;

/// How many threads enter, how often each, and how many steps each works inside and outside at each turn.
#[derive(Clone, Copy)]
pub struct Load {
    pub turns: u64,
    pub threads: u64,
    pub inside: u64,
    pub outside: u64,
}

/// Prints the nanoseconds that the load takes. With no threads it works so many steps as there are turns.
pub fn measure<R: Print + Clock + Threads + Wait + Sync>(
    rt: &R,
    alloc: Global,
    load: &Load,
) -> Result<()> {
    if load.threads > MOST_THREADS || load.turns > MOST_TURNS {
        bail!("too many threads or turns");
    }
    let spent = match load.threads {
        0 => work_alone(rt, load.turns)?,
        1 => enter_alone(rt, alloc, load.turns)?,
        _ => enter_beside(rt, alloc, load)?,
    };
    println!(rt; "{spent}")?;
    Ok(())
}

/// Two threads at a small size.
pub fn small<R: Print + Threads + Wait + Sync>(rt: &R, alloc: Global) -> Result<()> {
    let roll = workers(rt, alloc, 2, 50)?;
    println!(rt;
        "turnstile of 2 threads has {} entries",
        roll.entries().len()
    )?;
    Ok(())
}

/// So many dependent steps.
fn work(mut state: u64, steps: u64) -> u64 {
    for _ in 0..steps {
        state ^= state << 13;
        state ^= state >> 7;
        state ^= state << 17;
    }
    state
}

fn work_alone(rt: &impl Clock, steps: u64) -> Result<u128> {
    let start = Instant::now(rt)?;
    let state = work(1, steps);
    let spent = start.elapsed(rt)?;
    if state == 0 {
        bail!("the work came to nothing");
    }
    Ok(spent.as_nanos())
}

fn open(alloc: Global, passes: u32, tickets: u64) -> Result<Opened<Roll>, AllocError>
    requires { (0 < passes) × (passes ≤ 64) × (tickets ≤ 100000000) }
    ensures turnstile { IfOk result (λ o. (passes_of o.turnstile ≡ passes) × (tickets_of o.turnstile ≡ tickets) × (passes * tickets ≤ room_in (opened_of o.turnstile))) }
    ensures count { IfOk result (λ o. length o.passes.items ≡ passes) }
    ensures passes { IfOk result (λ o. All (λ p. IsPassOf o.turnstile p × IsNewPass tickets 0 p) o.passes.items) }
{
    let roll = Roll::make(alloc, passes as usize * tickets as usize)?;
    match Turnstile::make(alloc, roll, passes, tickets) {
        Ok(opened) => Ok(opened),
        Err(_) => Err(AllocError),
    }
}

fn enter_alone<R: Clock + Wait>(rt: &R, alloc: Global, turns: u64) -> Result<u128>
    requires { turns ≤ 100000000 }
{
    let Opened {
        turnstile,
        mut passes,
    } = open(alloc, 1, turns)?;
    let start = Instant::now(rt)?;
    go_rounds(rt, &turnstile, &mut passes[0], turns);
    let spent = start.elapsed(rt)?;
    turnstile.close(passes);
    Ok(spent.as_nanos())
}

/// Each pass enters and works, in a thread of its own. What they come to goes into the sum.
fn work_beside<R: Threads + Wait + Sync>(
    rt: &R,
    turnstile: &Turnstile<Roll>,
    passes: &mut [Pass<Roll>],
    load: &Load,
    sum: &AtomicU64,
)
    requires passes { All (λ p. IsPassOf turnstile.now p × IsOutside p × (load.now.turns ≤ left_of p)) passes.old }
    requires room { passes_of turnstile.now * tickets_of turnstile.now ≤ room_in (opened_of turnstile.now) }
    ensures { (k : ℕ) (d : _) → k < length passes.old
        → IsPassOf turnstile.now (slice_index_or passes.new k d) × IsOutside (slice_index_or passes.new k d) }
{
    let threads = passes.len().max(1);
    thread::for_each_mut(
        rt,
        passes,
        threads,
        &|_, pass| {
            sum.fetch_xor(enter_and_work(rt, turnstile, pass, load), Ordering::SeqCst);
        },
    );
}

/// The nanoseconds that it takes.
fn time_beside<R: Clock + Threads + Wait + Sync>(
    rt: &R,
    turnstile: &Turnstile<Roll>,
    passes: &mut [Pass<Roll>],
    load: &Load,
) -> Result<u128>
    requires passes { All (λ p. IsPassOf turnstile.now p × IsOutside p × (load.now.turns ≤ left_of p)) passes.old }
    requires room { passes_of turnstile.now * tickets_of turnstile.now ≤ room_in (opened_of turnstile.now) }
    ensures { (k : ℕ) (d : _) → k < length passes.old
        → IsPassOf turnstile.now (slice_index_or passes.new k d) × IsOutside (slice_index_or passes.new k d) }
{
    let sum = AtomicU64::new(0);
    let start = Instant::now(rt)?;
    work_beside(rt, turnstile, passes, load, &sum);
    Ok(start.elapsed(rt)?.as_nanos())
}

fn enter_beside<R: Clock + Threads + Wait + Sync>(
    rt: &R,
    alloc: Global,
    load: &Load,
) -> Result<u128>
    requires threads { (0 < load.now.threads) × (load.now.threads ≤ 64) }
    requires turns { load.now.turns ≤ 100000000 }
{
    let Opened {
        turnstile,
        mut passes,
    } = open(alloc, load.threads as u32, load.turns)?;
    let spent = time_beside(rt, &turnstile, passes.as_mut_slice(), load);
    turnstile.close(passes);
    spent
}

fn enter_and_work<R: Wait>(
    rt: &R,
    turnstile: &Turnstile<Roll>,
    pass: &mut Pass<Roll>,
    load: &Load,
) -> u64
    requires pass { IsPassOf turnstile.now pass.old × IsOutside pass.old }
    requires tickets { load.now.turns ≤ left_of pass.old }
    requires room { passes_of turnstile.now * tickets_of turnstile.now ≤ room_in (opened_of turnstile.now) }
    ensures { IsPassOf turnstile.now pass.new × IsOutside pass.new }
{
    let mut state = 1;
    for turn in 0..load.turns {
        state = enter_once(rt, turnstile, pass, load, state);
    }
    state
}

fn enter_once<R: Wait>(
    rt: &R,
    turnstile: &Turnstile<Roll>,
    pass: &mut Pass<Roll>,
    load: &Load,
    state: u64,
) -> u64
    requires pass { IsPassOf turnstile.now pass.old × IsOutside pass.old }
    requires ticket { 0 < left_of pass.old }
    requires room { passes_of turnstile.now * tickets_of turnstile.now ≤ room_in (opened_of turnstile.now) }
    ensures pass { IsPassOf turnstile.now pass.new × IsOutside pass.new }
    ensures left { left_of pass.new + 1 ≡ left_of pass.old }
{
    let mut held = turnstile.enter(rt, pass);
    held.value.add(pass.number());
    let state = work(state, load.inside);
    turnstile.leave(pass, held);
    work(state, load.outside)
}
