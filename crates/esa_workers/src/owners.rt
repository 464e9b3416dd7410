//! What the owner of a turnstile finds once its pass has met those of all workers.
//!
//! The functions do nothing when they run. They are there so that each law is proved where a contract names it.

ghost use Rattle.std.specs.Prelude.{◌≡◌, ◌≢◌, ℕ, ◌+◌, ◌*◌, ◌<◌, ◌≤◌, List, None, All};
ghost use Rattle.esa_params.specs.Sizes.{Sizes};
ghost use Rattle.esa_spec.specs.Draws.{Draw};
ghost use Rattle.esa_spec.specs.Histories.{begun};
ghost use Rattle.esa_floor.specs.Parts.{Parts};
ghost use Rattle.esa_floor.specs.Standing.{Stands};
ghost use Rattle.esa_floor.specs.declared.floor.Roots.{Roots};
ghost use Rattle.esa_turnstile.specs.declared.turnstile.Turnstile.{Turnstile};
ghost use Rattle.esa_workers.specs.Owners.{HasDone, IsBack};

use esa_device::Device;
use esa_spec::Coins;

/// Where each worker has worked in the attempt of a floor, all chunks are written or the floor has a stop.
pub fn workers_leave_no_chunk<V: Device>()
    ensures { (p : Sizes) (ds : ℕ → Draw) (f : Parts V) → Stands V.faults p ds f → f.attempt ≢ None → 1 ≤ p.workers
        → All (λ entry. entry < p.workers + 1) f.history → ((v : ℕ) → v < p.workers → HasDone p f v)
        → f.stop ≡ None → f.counted.writes ≡ f.plan.b * f.plan.b }
{}

/// The owner has begun an attempt, and no other since. Its pass has met those of all workers before they worked, and again
/// afterwards. Then it finds a floor whose chunks are all written, or which has a stop.
pub fn crews_leave_no_chunk<V: Device, C: Coins>()
    ensures { (p : Sizes) (ds : ℕ → Draw) (f : Parts V) (t : Turnstile (Parts V) Roots) (entries : List ℕ) (mark : ℕ)
        → Stands V.faults p ds f → f.attempt ≢ None → 1 ≤ p.workers → All (λ entry. entry < p.workers + 1) f.history
        → begun p.workers entries ≡ begun p.workers f.history → 8 * begun p.workers entries + 5 ≤ mark
        → ((v : ℕ) → v < p.workers → IsBack V.faults ds C.target_list p t entries mark f v)
        → f.stop ≡ None → f.counted.writes ≡ f.plan.b * f.plan.b }
{}
