//! The lines of an attempt, by numbers alone.

ghost use Rattle.std.specs.Prelude.{◌≡◌, ℕ, ◌+◌, ◌-◌, ◌<◌, ◌≤◌, ◌^◌, All, IfOk, length, take, slice_index};
ghost use Rattle.esa_params.specs.Sizes.{ArePlanned, size};
ghost use Rattle.esa_model.specs.Passed.{AreFew, AreLines, IsExchanged, AreCounted, HaveLeft, all_staying, none_passed, waiting_at};

use esa_params::Plan;
use esa_spec::Coins;
use std::alloc::{AllocError, Global};
use std::marker::Model;

/// For each target how many places came in with the exchanges so far, and how many of them have left with the chunks.
/// The difference is what the stash holds for the target.
#[derive(Drop)]
pub(crate) struct Lines {
    plan: Plan,
    arrived: Vec<u32>,
    gone: Vec<u32>,
    // The targets of the bucket that is exchanged, and room to draw them.
    targets: Vec<u32>,
    room: Vec<u32>,
}

impl Model for Lines {
    ghost use Rattle.std.specs.Prelude.{length};
    ghost use Rattle.esa_model.specs.Passed.{Passed, CanDraw};

    ghost Value = { Passed };

    ghost view = { λ l. record { p = l.plan; arrived = l.arrived.items; gone = l.gone.items } };

    ghost invariant = { λ l. CanDraw (record { p = l.plan; arrived = l.arrived.items; gone = l.gone.items }) (length l.targets.items) (length l.room.items) };
}

impl Lines {
    /// The lines of a plan, before any exchange.
    pub(crate) fn make(alloc: Global, plan: Plan) -> Result<Lines, AllocError>
        ensures { IfOk result (λ lines. lines ≡ none_passed plan) }
    {
        let b = plan.b() as usize;
        let largest = plan.size(0) as usize;
        let arrived = vec![in alloc; 0; b]?;
        let gone = vec![in alloc; 0; b]?;
        let targets = vec![in alloc; 0; largest]?;
        let room = vec![in alloc; 0; largest + b - 1]?;
        Ok(Lines {
            plan,
            arrived,
            gone,
            targets,
            room,
        })
    }

    /// Goes back to before any exchange.
    pub(crate) fn restart(&mut self)
        ensures { self.new ≡ none_passed self.old.p }
    {
        self.arrived.fill(0);
        self.gone.fill(0);
    }

    /// The plan.
    pub(crate) fn plan(&self) -> &Plan
        ensures value { result.now ≡ self.now.p }
        ensures limits { ArePlanned self.now.p }
        ensures lines { AreLines self.now }
    {
        &self.plan
    }

    /// How many places wait for a target.
    pub(crate) fn waiting(&self, target: u32) -> u32
        requires target { target < self.now.p.b }
        requires few { AreFew self.now }
        ensures { result ≡ waiting_at self.now target }
    {
        self.arrived[target as usize] - self.gone[target as usize]
    }

    /// How many places came in for each target.
    pub(crate) fn arrived(&self) -> &[u32]
        ensures value { result.now ≡ self.now.arrived }
        ensures each { length result.now ≡ self.now.p.b }
    {
        &self.arrived
    }

    /// Exchanges a bucket, and tells how many places wait for all targets together afterwards.
    pub(crate) fn exchange<C: Coins>(&mut self, coins: &C, attempt: u32, bucket: u32) -> u64
        requires plan { C.plan coins.now ≡ self.old.p }
        requires attempt { attempt < self.old.p.attempts }
        requires bucket { bucket < self.old.p.b }
        requires few { AreFew self.old }
        ensures exchanged { IsExchanged (C.target_list coins.now attempt bucket) self.old self.new }
        ensures lines { AreLines self.new }
        ensures total { result ≡ all_staying self.old.p.c self.new.arrived self.old.gone }
    {
        let places = draw(
            coins,
            &self.plan,
            attempt,
            bucket,
            &mut self.room,
            &mut self.targets,
        );
        pass(
            self.plan.c(),
            &self.targets,
            places,
            &mut self.arrived,
            &mut self.gone,
        )
    }
}

/// Draws the targets of a bucket to the front of `targets`, and tells how many they are.
fn draw<C: Coins>(
    coins: &C,
    plan: &Plan,
    attempt: u32,
    bucket: u32,
    room: &mut [u32],
    targets: &mut [u32],
) -> usize
    requires plan { C.plan coins.now ≡ plan.now }
    requires attempt { attempt < plan.now.attempts }
    requires bucket { bucket < plan.now.b }
    requires places { length targets.old ≡ size plan.now 0 }
    requires draws { length room.old ≡ size plan.now 0 + plan.now.b - 1 }
    ensures places { result ≡ size plan.now bucket }
    ensures within { result ≤ length targets.new }
    ensures value { take result targets.new ≡ C.target_list coins.now attempt bucket }
    ensures below { All (λ target. target < plan.now.b) (take result targets.new) }
{
    let places = plan.size(bucket) as usize;
    let needed = places + plan.b() as usize - 1;
    coins.targets(attempt, bucket, &mut room[..needed], &mut targets[..places]);
    places
}

/// Counts each of the first targets, lets up to `c` places of each target leave, and tells how many stay, all together.
fn pass(c: u32, targets: &[u32], places: usize, arrived: &mut [u32], gone: &mut [u32]) -> u64
    requires places { places ≤ length targets.now }
    requires each { length arrived.old ≡ length gone.old }
    requires short { length gone.old < 2 ^ 31 }
    requires below { All (λ target. target < length arrived.old) (take places targets.now) }
    requires few { (i : ℕ) → i < length arrived.old → slice_index arrived.old i + places < 2 ^ 32 }
    requires left { (i : ℕ) → i < length gone.old → slice_index gone.old i ≤ slice_index arrived.old i }
    ensures counted { AreCounted (take places targets.now) arrived.old arrived.new }
    ensures left { HaveLeft c arrived.new gone.old gone.new }
    ensures total { result ≡ all_staying c arrived.new gone.old }
{
    count(&targets[..places], arrived);
    leave(c, arrived, gone)
}

/// Counts each target that comes.
fn count(targets: &[u32], arrived: &mut [u32])
    requires below { All (λ target. target < length arrived.old) targets.now }
    requires few { (i : ℕ) → i < length arrived.old → slice_index arrived.old i + length targets.now < 2 ^ 32 }
    ensures { AreCounted targets.now arrived.old arrived.new }
{
    for target in targets {
        arrived[*target as usize] += 1;
    }
}

/// Lets up to `c` places of each target leave, and tells how many stay, all together.
fn leave(c: u32, arrived: &[u32], gone: &mut [u32]) -> u64
    requires each { length arrived.now ≡ length gone.old }
    requires short { length gone.old < 2 ^ 31 }
    requires few { (i : ℕ) → i < length gone.old → slice_index gone.old i ≤ slice_index arrived.now i }
    ensures left { HaveLeft c arrived.now gone.old gone.new }
    ensures total { result ≡ all_staying c arrived.now gone.old }
{
    let mut total = 0;
    for target in 0..gone.len() {
        let waiting = arrived[target] - gone[target];
        let leaving = waiting.min(c);
        gone[target] += leaving;
        total += u64::from(waiting - leaving);
    }
    total
}
