//! What a run by a crew needs besides a floor and its turnstile.

ghost use Rattle.std.specs.Prelude.{◌≡◌, ◌<◌, ◌≤◌, ℕ, [], IfOk, length, slice_index_or, vec_capacity};
ghost use Rattle.esa_crew.specs.Posts.{IsNewWorker};
ghost use Rattle.esa_floor.specs.Working.{Working};

use esa_crew::workers;
use esa_device::Device;
use esa_envelope::Keys;
use esa_floor::{Told, Worker};
use esa_load::Loader;
use esa_params::Plan;
use esa_press::Press;
use esa_spec::Coins;
use esa_workers::Post;
use std::alloc::{AllocError, Global};

/// What a run needs besides a floor and its turnstile: the workers, room for their posts, the press and the loader.
#[derive(Drop)]
pub(crate) struct Tools<'c, V: Device, G: Told, C: Coins> {
    pub(crate) workers: Vec<Worker<'c, C>>,
    pub(crate) posts: Vec<Post<'c, V, G, C>>,
    pub(crate) press: Press,
    pub(crate) loader: Loader,
}

impl<'c, V: Device, G: Told, C: Coins> Tools<'c, V, G, C> {
    /// The tools of a run of a plan, with these keys.
    pub(crate) fn make(
        alloc: Global,
        coins: &'c C,
        plan: Plan,
        outer: Keys,
        run: Keys,
    ) -> Result<Tools<'c, V, G, C>, AllocError>
        requires { C.plan coins.now ≡ plan }
        ensures each { IfOk result (λ tools. length tools.workers.items ≡ plan.workers) }
        ensures made { IfOk result (λ tools. (k : ℕ) (w : Working C) → k < plan.workers → IsNewWorker coins.now plan outer run k (slice_index_or tools.workers.items k w)) }
        ensures none { IfOk result (λ tools. tools.posts.items ≡ []) }
        ensures room { IfOk result (λ tools. plan.workers ≤ vec_capacity tools.posts) }
        ensures press_plan { IfOk result (λ tools. tools.press.plan ≡ plan) }
        ensures press_run { IfOk result (λ tools. tools.press.run ≡ run) }
        ensures loader_plan { IfOk result (λ tools. tools.loader.plan ≡ plan) }
        ensures loader_run { IfOk result (λ tools. tools.loader.run ≡ run) }
    {
        let workers = workers(alloc, coins, plan, outer, run)?;
        let posts = Vec::with_capacity(alloc, plan.workers() as usize)?;
        let press = Press::make(alloc, plan, run)?;
        let loader = Loader::make(alloc, plan, run)?;
        Ok(Tools {
            workers,
            posts,
            press,
            loader,
        })
    }
}
