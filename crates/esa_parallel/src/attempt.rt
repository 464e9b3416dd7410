//! One attempt of a run by a crew.

ghost use Rattle.std.specs.Prelude.{◌≡◌, ◌+◌, ◌*◌, ◌<◌, ◌≤◌, ◌++◌, ◌∷◌, ℕ, [], None, Ok, OnOk, length, slice_index_or};
ghost use Rattle.esa_device.specs.Logs.{IsFaithful, NoneFailed};
ghost use Rattle.esa_floor.specs.Keeping.{HasInput};
ghost use Rattle.esa_floor.specs.Parts.{begun_as};
ghost use Rattle.esa_floor.specs.Standing.{Stands, turns_made};
ghost use Rattle.esa_floor.specs.Written.{AreItems, EachGaveItsBlock, EachTookItsBlock, EachUntil, GaveItsOwn};
ghost use Rattle.esa_params.specs.Slots.{item_length};
ghost use Rattle.esa_press.specs.Contents.{AreOrders, AreOutputsStored};
ghost use Rattle.esa_report.specs.declared.item.Item.{Item};
ghost use Rattle.esa_spec.specs.Fronts.{Begins};
ghost use Rattle.esa_shuffle.specs.Attempts.{AttemptEnd};
ghost use Rattle.esa_vault.specs.Traffic.{FailedByFault};
ghost use Rattle.esa_turnstile.specs.Entries.{times};
ghost use Rattle.esa_turnstile.specs.Passes.{added_of, left_of, opened_of, passes_of, tickets_of};
ghost use Rattle.esa_workers.specs.Distributions.{AreTurnsOfAll, HasFloor, Rests};
ghost use Rattle.esa_parallel.specs.Crews.{IsDoneByAll};

use esa_device::Device;
use esa_floor::{Floor, Told};
use esa_press::Press;
use esa_shuffle::finish;
use esa_spec::{Coins, Verdict};
use esa_turnstile::{Held, Pass, Turnstile};
use esa_vault::VaultFault;
use esa_workers::{Gate, Post, distribute};
use std::sync::Wait;
use std::thread::Threads;

/// What an attempt leaves: its floor, which the owner of the turnstile has, and how it ended.
#[derive(Drop)]
pub(crate) struct Attempted<V: Device, G: Told> {
    pub(crate) held: Held<Floor<V, G>>,
    pub(crate) end: Result<Verdict, VaultFault>,
}

/// Makes an attempt: a crew distributes it, and the owner drains and compresses it. What the crew's turns were is in the
/// history.
pub(crate) fn make_attempt<
    V: Device + Send,
    G: Told + Send,
    C: Coins + Sync,
    H: Gate + Sync,
    R: Threads + Wait + Sync,
>(
    rt: &R,
    turnstile: &Turnstile<Floor<V, G>>,
    owner: &mut Pass<Floor<V, G>>,
    held: Held<Floor<V, G>>,
    posts: &mut [Post<'_, V, G, C>],
    press: &mut Press,
    coins: &C,
    gate: &H,
    attempt: u32,
) -> Attempted<V, G>
    requires stands { Stands V.faults G.plan G.draws (begun_as held.value attempt) }
    requires some { 1 ≤ G.plan.workers }
    requires took { (record_of : ℕ → Item) → AreItems (item_length G.plan.form) record_of → EachTookItsBlock G.draws record_of held.value }
    requires failed { NoneFailed held.value.recorder.log }
    requires reads { EachGaveItsBlock G.draws held.value }
    requires floor { HasFloor G.plan turnstile.now owner.old held.value }
    requires tickets { 2 ≤ left_of owner.old }
    requires passes { passes_of turnstile.now ≡ G.plan.workers + 1 }
    requires room { passes_of turnstile.now * tickets_of turnstile.now ≤ (opened_of turnstile.now).room }
    requires each { length posts.old ≡ G.plan.workers }
    requires posts { (k : ℕ) (d : _) → k < length posts.old → Rests V.faults G.draws C.target_list G.plan turnstile.now held.value k (slice_index_or posts.old k d) }
    requires plan { press.old.plan ≡ G.plan }
    requires run { press.old.run ≡ held.value.run }
    requires coins { C.plan coins.now ≡ G.plan }
    requires orders { AreOrders G.plan (G.draws attempt) (C.order_list coins.now attempt) }
    ensures ends { AttemptEnd V.faults G.plan G.draws attempt result.held.value result.end }
    ensures history { result.held.value.history ≡ (held.value.history ++ G.plan.workers ∷ []) ++ turns_made result.held.value }
    ensures turns { AreTurnsOfAll G.plan result.held.value.stop (turns_made result.held.value) }
    ensures done { OnOk result.end (IsDoneByAll G.plan (G.draws attempt) (turns_made result.held.value)) }
    ensures outcome { result.held.value.outcome ≡ None }
    ensures floor { HasFloor G.plan turnstile.now owner.new result.held.value }
    ensures tickets { left_of owner.new + 1 ≡ left_of owner.old }
    ensures log { Begins held.value.recorder.log result.held.value.recorder.log }
    ensures input { (record_of : ℕ → Item) → IsFaithful G.plan result.held.value.recorder.log → HasInput held.value record_of → HasInput result.held.value record_of }

    // Where the input has these records and the log is faithful, the output of a good attempt has those of its places.
    ensures outputs { (record_of : ℕ → Item) → AreItems (item_length G.plan.form) record_of → IsFaithful G.plan result.held.value.recorder.log
        → HasInput held.value record_of → result.end ≡ Ok Verdict.Good
        → AreOutputsStored G.plan held.value.run (G.draws attempt) (turns_made result.held.value) attempt record_of G.plan.b result.held.value.recorder.log }
    ensures took { (record_of : ℕ → Item) → AreItems (item_length G.plan.form) record_of → EachTookItsBlock G.draws record_of result.held.value }
    ensures failed { FailedByFault result.end result.held.value.recorder.log }
    ensures reads { EachUntil (GaveItsOwn G.draws result.held.value) result.end result.held.value.recorder.log }
    ensures posts { (k : ℕ) (d : _) → k < length posts.new → Rests V.faults G.draws C.target_list G.plan turnstile.now result.held.value k (slice_index_or posts.new k d) }
    ensures each { length posts.new ≡ length posts.old }

    // A worker whose pass has added nothing stood nowhere in the history.
    ensures fresh { (k : ℕ) (d : _) → k < length posts.old → added_of (slice_index_or posts.old k d).pass ≡ 0 → times k held.value.history ≡ 0 }
    ensures plan { press.new.plan ≡ press.old.plan }
    ensures run { press.new.run ≡ press.old.run }
{
    let mut held = distribute(rt, turnstile, owner, held, posts, gate, attempt);
    let end = finish(&mut held.value, press, coins, attempt);
    Attempted { held, end }
}
