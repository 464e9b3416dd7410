//! A crew: all workers at once, each in a thread of its own.

ghost use Rattle.std.specs.Prelude.{◌≡◌, ◌*◌, ◌<◌, ◌≤◌, ℕ, All, length, slice_index_or};
ghost use Rattle.esa_turnstile.specs.Passes.{opened_of, passes_of, tickets_of};
ghost use Rattle.esa_workers.specs.Posts.{CanWork, HasWorked};

use crate::gates::Gate;
use crate::posts::Post;
use crate::works::work;
use esa_device::Device;
use esa_floor::{Floor, Told};
use esa_spec::Coins;
use esa_turnstile::Turnstile;
use std::sync::Wait;
use std::thread;
use std::thread::Threads;

/// Each worker takes its turns, in a thread of its own, until its last one. It takes no memory.
pub fn crew<
    V: Device + Send,
    G: Told + Send,
    C: Coins + Sync,
    H: Gate + Sync,
    R: Threads + Wait + Sync,
>(rt: &R, turnstile: &Turnstile<Floor<V, G>>, posts: &mut [Post<'_, V, G, C>], gate: &H)
    requires can_work { All (λ m. CanWork V.faults G.draws C.target_list G.plan turnstile.now m) posts.old }
    requires room { passes_of turnstile.now * tickets_of turnstile.now ≤ (opened_of turnstile.now).room }
    ensures each { length posts.new ≡ length posts.old }
    ensures worked { (k : ℕ) (d : _) → k < length posts.old → HasWorked V.faults G.draws C.target_list G.plan turnstile.now (slice_index_or posts.old k d) (slice_index_or posts.new k d) }
{
    let threads = posts.len().max(1);
    thread::for_each_mut(
        rt,
        posts,
        threads,
        &|_, post| {
            let _ = work(rt, turnstile, post, gate);
        },
    );
}
