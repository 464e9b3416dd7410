//! Workers that enter again and again, each in a thread of its own.
ghost use Rattle.std.specs.Prelude.{◌≡◌, ◌+◌, ◌*◌, ◌^◌, ◌<◌, ◌≤◌, ℕ, length, slice_index_or, All, IfOk};
ghost use Rattle.esa_turnstile.specs.Entries.{times};
ghost use Rattle.esa_turnstile.specs.Passes.{passes_of, tickets_of, opened_of, IsPassOf, IsOutside, number_of, added_of, left_of};
ghost use Rattle.esa_turnstile.specs.Rolls.{entries_in, room_in};
ghost use Rattle.esa_turnstile.specs.Rounds.{Goes};

use crate::pass::Pass;
use crate::roll::Roll;
use crate::turnstile::{Opened, Turnstile};
use std::alloc::{AllocError, Global};
use std::sync::Wait;
use std::thread;
use std::thread::Threads;

/// Enters once, and leaves with its number added.
pub fn go_round<R: Wait>(rt: &R, turnstile: &Turnstile<Roll>, pass: &mut Pass<Roll>)
    requires pass { IsPassOf turnstile.now pass.old × IsOutside pass.old }
    requires ticket { 0 < left_of pass.old }
    requires room { passes_of turnstile.now * tickets_of turnstile.now ≤ room_in (opened_of turnstile.now) }
    ensures pass { IsPassOf turnstile.now pass.new × IsOutside pass.new × (number_of pass.new ≡ number_of pass.old) }
    ensures counts { (added_of pass.new ≡ added_of pass.old + 1) × (left_of pass.new + 1 ≡ left_of pass.old) }
{
    let mut held = turnstile.enter(rt, pass);
    held.value.add(pass.number());
    turnstile.leave(pass, held);
}

/// Enters so many times.
pub fn go_rounds<R: Wait>(rt: &R, turnstile: &Turnstile<Roll>, pass: &mut Pass<Roll>, turns: u64)
    requires pass { IsPassOf turnstile.now pass.old × IsOutside pass.old }
    requires tickets { turns ≤ left_of pass.old }
    requires room { passes_of turnstile.now * tickets_of turnstile.now ≤ room_in (opened_of turnstile.now) }
    ensures pass { IsPassOf turnstile.now pass.new × IsOutside pass.new × (number_of pass.new ≡ number_of pass.old) }
    ensures counts { (added_of pass.new ≡ added_of pass.old + turns) × (left_of pass.new + turns ≡ left_of pass.old) }
{
    for turn in 0..turns {
        go_round(rt, turnstile, pass);
    }
}

/// Each pass enters so many times, in a thread of its own.
pub fn all_rounds<R: Threads + Wait + Sync>(
    rt: &R,
    turnstile: &Turnstile<Roll>,
    passes: &mut [Pass<Roll>],
    turns: u64,
)
    requires passes { All (λ p. IsPassOf turnstile.now p × IsOutside p × (turns ≤ left_of p)) passes.old }
    requires room { passes_of turnstile.now * tickets_of turnstile.now ≤ room_in (opened_of turnstile.now) }
    ensures { (k : ℕ) (d : _) → k < length passes.old → Goes turnstile.now turns (slice_index_or passes.old k d) (slice_index_or passes.new k d) }
{
    let threads = passes.len().max(1);
    thread::for_each_mut(
        rt,
        passes,
        threads,
        &|_, pass| { go_rounds(rt, turnstile, pass, turns) },
    );
}

/// So many workers enter `turns` times each. Then the number of each stands in the roll so often, and no other.
pub fn workers<R: Threads + Wait + Sync>(
    rt: &R,
    alloc: Global,
    count: u32,
    turns: u64,
) -> Result<Roll, AllocError>
    requires some { 0 < count }
    requires fits { count * turns < 2 ^ 64 }
    ensures each { IfOk result (λ roll. (x : ℕ) → x < count → times x (entries_in roll) ≡ turns) }
    ensures named { IfOk result (λ roll. All (λ x. x < count) (entries_in roll)) }
{
    let room = u64::from(count) * turns;
    let roll = Roll::make(alloc, room as usize)?;
    let Ok(opened) = Turnstile::make(alloc, roll, count, turns) else {
        return Err(AllocError);
    };
    let Opened {
        turnstile,
        mut passes,
    } = opened;
    all_rounds(rt, &turnstile, passes.as_mut_slice(), turns);
    Ok(turnstile.close(passes))
}

/// Two workers enter `turns` times each. Then each number stands in the roll so often, and there is no other.
pub fn two_workers<R: Threads + Wait + Sync>(
    rt: &R,
    alloc: Global,
    turns: u64,
) -> Result<Roll, AllocError>
    requires { 2 * turns < 2 ^ 64 }
    ensures first { IfOk result (λ roll. times 0 (entries_in roll) ≡ turns) }
    ensures second { IfOk result (λ roll. times 1 (entries_in roll) ≡ turns) }
    ensures all { IfOk result (λ roll. length (entries_in roll) ≡ 2 * turns) }
{
    workers(rt, alloc, 2, turns)
}
