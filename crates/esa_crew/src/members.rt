//! The workers of a plan.

ghost use Rattle.std.specs.Prelude.{◌≡◌, ℕ, ◌<◌, IfOk, length, slice_index_or};
ghost use Rattle.esa_floor.specs.Working.{Working};
ghost use Rattle.esa_crew.specs.Posts.{IsNewWorker};

use esa_envelope::Keys;
use esa_floor::Worker;
use esa_params::Plan;
use esa_spec::Coins;
use std::alloc::{AllocError, Global};

/// A worker for each number of a plan.
pub fn workers<'c, C: Coins>(
    alloc: Global,
    coins: &'c C,
    plan: Plan,
    outer: Keys,
    run: Keys,
) -> Result<Vec<Worker<'c, C>>, AllocError>
    requires { C.plan coins.now ≡ plan }
    ensures each { IfOk result (λ workers. length workers.items ≡ plan.workers) }
    ensures made { IfOk result (λ workers. (k : ℕ) (w : Working C) → k < plan.workers → IsNewWorker coins.now plan outer run k (slice_index_or workers.items k w)) }
{
    let mut workers = Vec::with_capacity(alloc, plan.workers() as usize)?;
    for number in 0..plan.workers() {
        workers.push(Worker::make(alloc, coins, plan, number, outer, run)?)?;
    }
    Ok(workers)
}
