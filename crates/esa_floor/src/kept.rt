//! What a floor keeps where its run ends.
//!
//! The function does nothing when it runs. It is there so that the law is proved where a contract names it.

ghost use Rattle.std.specs.Prelude.{◌≡◌, ℕ, Some, map};
ghost use Rattle.esa_device.specs.Logs.{Carried};
ghost use Rattle.esa_params.specs.Sizes.{Sizes};
ghost use Rattle.esa_params.specs.Slots.{item_length};
ghost use Rattle.esa_report.specs.declared.item.Item.{Item};
ghost use Rattle.esa_spec.specs.Draws.{Draw};
ghost use Rattle.esa_floor.specs.Parts.{Parts, ended_as};
ghost use Rattle.esa_floor.specs.Standing.{Stands};
ghost use Rattle.esa_floor.specs.Trails.{IsKept};
ghost use Rattle.esa_floor.specs.Written.{AreItems, EachTookItsBlock, FailedBy, GaveItsOwn, ReadsGaveBy};
ghost use Rattle.esa_floor.specs.declared.turn.Outcome.{Outcome};

use esa_device::Device;

/// Where a run ends, its floor keeps what a turnstile asks of it, however the run ends: if each write took its block, and the
/// outcome says which access failed and which read gave no block. That may be an access that no turn made.
pub fn ended_floors_are_kept<V: Device>()
    ensures { (p : Sizes) (ds : ℕ → Draw) (f : Parts V) (outcome : Outcome) → Stands V.faults p ds (ended_as f outcome)
        → map (λ (entry : Carried). entry.access) f.recorder.log ≡ f.recorder.trace
        → ((record_of : ℕ → Item) → AreItems (item_length p.form) record_of → EachTookItsBlock ds record_of f)
        → FailedBy f.plan (Some outcome) f.stop f.recorder.log → ReadsGaveBy (GaveItsOwn ds f) (Some outcome) f.stop f.recorder.log
        → IsKept V.faults p ds (ended_as f outcome) }
{}
