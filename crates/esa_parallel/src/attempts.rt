//! The attempts of a run by a crew, one after another.

ghost use Rattle.std.specs.Prelude.{◌≡◌, ◌+◌, ◌*◌, ◌<◌, ◌≤◌, ℕ, [], length, slice_index_or};
ghost use Rattle.esa_device.specs.Logs.{IsFaithful, NoneFailed};
ghost use Rattle.esa_ending.specs.Seen.{turns_in};
ghost use Rattle.esa_floor.specs.Keeping.{HasInput};
ghost use Rattle.esa_floor.specs.Marks.{roots_of};
ghost use Rattle.esa_floor.specs.Parts.{begun_as};
ghost use Rattle.esa_floor.specs.Standing.{Stands};
ghost use Rattle.esa_floor.specs.Written.{AreItems, EachGaveItsBlock, EachTookItsBlock, GaveItsOwn};
ghost use Rattle.esa_params.specs.Sizes.{ArePlanned};
ghost use Rattle.esa_params.specs.Slots.{item_length};
ghost use Rattle.esa_press.specs.Contents.{AreOutputsStored};
ghost use Rattle.esa_report.specs.declared.item.Item.{Item};
ghost use Rattle.esa_shuffle.specs.Records.{FailedByOutcome, ReadsOf};
ghost use Rattle.esa_shuffle.specs.Runs.{MayEnd, lists_ended};
ghost use Rattle.esa_spec.specs.Draws.{drawn};
ghost use Rattle.esa_spec.specs.Fronts.{Begins};
ghost use Rattle.esa_turnstile.specs.Passes.{added_of, left_of, opened_of, passes_of, tickets_of};
ghost use Rattle.esa_workers.specs.Distributions.{HasFloor, Rests};
ghost use Rattle.esa_parallel.specs.Crews.{AllAreDone, AllTookPart};

use crate::attempt::{Attempted, make_attempt};
use esa_device::Device;
use esa_floor::{Floor, Outcome, Told};
use esa_press::Press;
use esa_shuffle::{Failures, is_good, outcome_by};
use esa_spec::Coins;
use esa_turnstile::{Held, Pass, Turnstile};
use esa_workers::{Gate, Post};
use std::sync::Wait;
use std::thread::Threads;

/// What the attempts leave: the floor, which the owner of the turnstile has, and how the run may end on it.
#[derive(Drop)]
pub(crate) struct Over<V: Device, G: Told> {
    pub(crate) held: Held<Floor<V, G>>,
    pub(crate) outcome: Outcome,
}

/// Makes attempts, up to the first that is good, each by the crew. What failed is kept. Where a block is not put or got, no
/// further attempt is made. No pass of a worker was used before.
pub(crate) fn make_attempts<
    V: Device + Send,
    G: Told + Send,
    C: Coins + Sync,
    H: Gate + Sync,
    R: Threads + Wait + Sync,
>(
    rt: &R,
    turnstile: &Turnstile<Floor<V, G>>,
    owner: &mut Pass<Floor<V, G>>,
    mut held: Held<Floor<V, G>>,
    posts: &mut [Post<'_, V, G, C>],
    press: &mut Press,
    failures: &mut Failures,
    coins: &C,
    gate: &H,
) -> Over<V, G>
    requires next { Stands V.faults G.plan G.draws (begun_as held.value 0) }
    requires planned { ArePlanned G.plan }
    requires took { (record_of : ℕ → Item) → AreItems (item_length G.plan.form) record_of → EachTookItsBlock G.draws record_of held.value }
    requires failed { NoneFailed held.value.recorder.log }
    requires reads { EachGaveItsBlock G.draws held.value }
    requires floor { HasFloor G.plan turnstile.now owner.old held.value }
    requires tickets { G.plan.attempts + 1 ≤ left_of owner.old }
    requires passes { passes_of turnstile.now ≡ G.plan.workers + 1 }
    requires room { passes_of turnstile.now * tickets_of turnstile.now ≤ (opened_of turnstile.now).room }
    requires failures { failures.old ≡ [] }
    requires each { length posts.old ≡ G.plan.workers }
    requires posts { (k : ℕ) (d : _) → k < length posts.old → Rests V.faults G.draws C.target_list G.plan turnstile.now held.value k (slice_index_or posts.old k d) }
    requires unused { (k : ℕ) (d : _) → k < length posts.old → added_of (slice_index_or posts.old k d).pass ≡ 0 }
    requires plan { press.old.plan ≡ G.plan }
    requires run { press.old.run ≡ held.value.run }
    requires coins { C.plan coins.now ≡ G.plan }
    requires draws { (a : ℕ) → G.draws a ≡ drawn (C.target_list coins.now) (C.order_list coins.now) a }
    ensures ends { (count : ℕ) → MayEnd V.faults G.plan G.draws (lists_ended G.plan result.held.value) count count result.held.value failures.new result.outcome }
    ensures few { length (lists_ended G.plan result.held.value) ≤ G.plan.attempts }
    ensures took_part { AllTookPart G.plan (lists_ended G.plan result.held.value) }
    ensures done { AllAreDone G.plan G.draws (lists_ended G.plan result.held.value) result.outcome }

    // Nobody had come before the first attempt.
    ensures alone { held.value.history ≡ [] }
    ensures log { Begins held.value.recorder.log result.held.value.recorder.log }

    // Where the input has these records and the log is faithful, the output of the attempt that succeeded has those of its
    // places.
    ensures outputs { (record_of : ℕ → Item) (a : ℕ) → AreItems (item_length G.plan.form) record_of → IsFaithful G.plan result.held.value.recorder.log
        → HasInput held.value record_of → result.outcome ≡ Outcome.Shuffled a
        → AreOutputsStored G.plan held.value.run (G.draws a) (turns_in (lists_ended G.plan result.held.value) a) a record_of G.plan.b result.held.value.recorder.log }
    ensures input { (record_of : ℕ → Item) → IsFaithful G.plan result.held.value.recorder.log → HasInput held.value record_of → HasInput result.held.value record_of }

    // However the attempts ended, each write took its block, and no access failed but the last one.
    ensures took { (record_of : ℕ → Item) → AreItems (item_length G.plan.form) record_of → EachTookItsBlock G.draws record_of result.held.value }
    ensures failed { FailedByOutcome result.outcome result.held.value.recorder.log }

    // So each read gave its block, for every device.
    ensures reads { ReadsOf (GaveItsOwn G.draws result.held.value) result.outcome result.held.value.recorder.log }
    ensures origin { roots_of result.held.value ≡ roots_of held.value }
{
    for attempt in 0..held.value.plan().attempts() {
        let Attempted { held: after, end } = make_attempt(
            rt, turnstile, owner, held, posts, press, coins, gate, attempt,
        );
        held = after;
        match end {
            Ok(verdict) => {
                if is_good(verdict) {
                    return Over {
                        held,
                        outcome: Outcome::Shuffled { attempt },
                    };
                }
                failures.add(verdict);
            }
            Err(fault) => {
                return Over {
                    held,
                    outcome: outcome_by(fault),
                };
            }
        }
    }
    Over {
        held,
        outcome: Outcome::Overflow,
    }
}
