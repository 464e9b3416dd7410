//! The work of one worker: turn after turn, each inside the turnstile, and its private work between them.

ghost use Rattle.std.specs.Prelude.{◌≡◌, ◌≢◌, ℕ, ◌*◌, ◌<◌, ◌≤◌, ◌++◌, ◌∷◌, ◌⊎◌, [], None, Some, true, false, length};
ghost use mathlib.Core.List.{IsPrefix};
ghost use Rattle.esa_floor.specs.Marks.{mark_of, roots_of};
ghost use Rattle.esa_crew.specs.Posts.{KeepsRecords};
ghost use Rattle.esa_floor.specs.Trails.{IsKept, trail_of};
ghost use Rattle.esa_floor.specs.Workers.{IsOfFloor, WorkerStands};
ghost use Rattle.esa_floor.specs.Working.{IsReady};
ghost use Rattle.esa_turnstile.specs.Passes.{left_of, mark_of as mark_seen, number_of, opened_of, passes_of, seen_of, tickets_of};
ghost use Rattle.esa_workers.specs.Posts.{CanWork, Finds, HasWorked, IsManned, IsPlaced, IsSameWorker, IsUsed};
ghost use Rattle.esa_workers.specs.Works.{IsIdle, Leaves, Shows, is_last as is_last_turn};

use crate::gates::Gate;
use crate::posts::Post;
use esa_device::Device;
use esa_floor::{Floor, Told, Turn, Worker};
use esa_spec::Coins;
use esa_turnstile::Turnstile;
use std::sync::Wait;

/// Whether a worker is in this attempt.
fn is_in<C: Coins>(worker: &Worker<'_, C>, attempt: u32) -> bool
    ensures yes { result ≡ true → worker.now.attempt ≡ Some attempt }
    ensures no { result ≡ false → worker.now.attempt ≢ Some attempt }
{
    match worker.attempt() {
        Some(begun) => begun == attempt,
        None => false,
    }
}

/// Begins the floor's attempt with a worker that is not in it.
fn arrive<V: Device, G: Told, C: Coins>(floor: &Floor<V, G>, worker: &mut Worker<'_, C>)
    requires kept { IsKept V.faults G.plan G.draws floor.now }
    requires of { IsOfFloor G.draws (C.target_list worker.old.coins) floor.now worker.old }
    requires ready { IsReady worker.old.stage }
    requires finds { (a : ℕ) → floor.now.attempt ≡ Some a → Finds G.draws floor.now worker.old a }
    ensures same { IsSameWorker worker.old worker.new }
    ensures of { IsOfFloor G.draws (C.target_list worker.new.coins) floor.now worker.new }
    ensures ready { IsReady worker.new.stage }
    ensures stands { floor.now.attempt ≢ None → WorkerStands floor.now worker.new }
    ensures keeps { KeepsRecords G.draws floor.now worker.new }
{
    let Some(attempt) = floor.attempt() else {
        return;
    };
    if !is_in(worker, attempt) {
        worker.begin(attempt);
    }
}

/// A worker's turn on the floor that it found.
fn turn_on<V: Device, G: Told, C: Coins>(
    floor: &mut Floor<V, G>,
    worker: &mut Worker<'_, C>,
) -> Turn
    requires room { length floor.old.history < floor.old.room }
    requires kept { IsKept V.faults G.plan G.draws floor.old }
    requires of { IsOfFloor G.draws (C.target_list worker.old.coins) floor.old worker.old }
    requires ready { IsReady worker.old.stage }
    requires finds { (a : ℕ) → floor.old.attempt ≡ Some a → Finds G.draws floor.old worker.old a }
    ensures history { floor.new.history ≡ floor.old.history ++ worker.old.number ∷ [] }
    ensures kept { IsKept V.faults G.plan G.draws floor.new }
    ensures origin { roots_of floor.new ≡ roots_of floor.old }
    ensures mark { mark_of floor.old ≤ mark_of floor.new }
    ensures trail { IsPrefix (trail_of floor.old) (trail_of floor.new) }
    ensures shows { Shows G.plan floor.new.history (mark_of floor.new) worker.old.number result }
    ensures same { IsSameWorker worker.old worker.new }
    ensures worker { floor.new.attempt ≢ None → WorkerStands floor.new worker.new }
    ensures keeps { KeepsRecords G.draws floor.new worker.new }
    ensures idle { floor.new.attempt ≡ None → IsIdle G.plan floor.new.history (mark_of floor.new) }
{
    arrive(floor, worker);
    let turn = floor.turn(worker);
    floor.keeps_its_log();
    turn
}

/// One turn of a worker, inside the turnstile. Behind it the worker passes the gate and does its private work.
fn step<V: Device, G: Told, C: Coins, H: Gate, R: Wait>(
    rt: &R,
    turnstile: &Turnstile<Floor<V, G>>,
    post: &mut Post<'_, V, G, C>,
    gate: &H,
) -> Turn
    requires manned { IsManned G.draws C.target_list turnstile.now post.old }
    requires placed { IsPlaced V.faults G.draws G.plan post.old.pass post.old.worker post.old.worker.attempt }
    requires ticket { 0 < left_of post.old.pass }
    requires room { passes_of turnstile.now * tickets_of turnstile.now ≤ (opened_of turnstile.now).room }
    ensures manned { IsManned G.draws C.target_list turnstile.now post.new }
    ensures placed { IsPlaced V.faults G.draws G.plan post.new.pass post.new.worker post.new.worker.attempt
        ⊎ IsIdle G.plan (seen_of post.new.pass) (mark_seen post.new.pass) }
    ensures used { IsUsed post.old.pass post.new.pass }
    ensures shows { Shows G.plan (seen_of post.new.pass) (mark_seen post.new.pass) (number_of post.new.pass) result }
    ensures buckets { 1 ≤ G.plan.b }
{
    let number = post.pass.number();
    let mut held = turnstile.enter(rt, &mut post.pass);
    let _plan = held.value.plan();
    let turn = turn_on(&mut held.value, &mut post.worker);
    turnstile.leave(&mut post.pass, held);
    gate.pass(number, turn);
    post.worker.prepare();
    turn
}

/// Whether a worker has no turn after this one.
fn is_last(turn: Turn) -> bool
    ensures { result ≡ is_last_turn turn }
{
    match turn {
        Turn::Done => true,
        Turn::Stopped(_) => true,
        Turn::Claimed(_) => false,
        Turn::Read(_) => false,
        Turn::Exchanged(_) => false,
        Turn::Wrote { .. } => false,
        Turn::Idle => false,
    }
}

/// A worker takes its turns, until it finds that no bucket is left, that the turns have stopped, or that no attempt is at
/// work. It answers with that last turn. It takes no memory.
pub fn work<V: Device, G: Told, C: Coins, H: Gate, R: Wait>(
    rt: &R,
    turnstile: &Turnstile<Floor<V, G>>,
    post: &mut Post<'_, V, G, C>,
    gate: &H,
) -> Turn
    requires can_work { CanWork V.faults G.draws C.target_list G.plan turnstile.now post.old }
    requires room { passes_of turnstile.now * tickets_of turnstile.now ≤ (opened_of turnstile.now).room }
    ensures worked { HasWorked V.faults G.draws C.target_list G.plan turnstile.now post.old post.new }
    ensures leaves { Leaves G.plan (seen_of post.new.pass) (mark_seen post.new.pass) (number_of post.new.pass) result }
{
    loop {
        let turn = step(rt, turnstile, post, gate);
        if is_last(turn) {
            return turn;
        }
    }
}
