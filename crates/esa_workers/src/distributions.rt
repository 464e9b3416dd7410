//! The distribution of an attempt by a crew.

ghost use Rattle.std.specs.Prelude.{◌≡◌, ◌+◌, ◌*◌, ◌<◌, ◌≤◌, ◌++◌, ◌∷◌, ℕ, [], None, Some, length, slice_index_or};
ghost use Rattle.esa_device.specs.Logs.{IsFaithful, NoneFailed};
ghost use Rattle.esa_floor.specs.Keeping.{HasInput};
ghost use Rattle.esa_floor.specs.Parts.{begun_as};
ghost use Rattle.esa_floor.specs.Standing.{Stands, turns_made};
ghost use Rattle.esa_floor.specs.Trails.{IsKept};
ghost use Rattle.esa_floor.specs.Written.{AreItems, EachGaveItsBlock, EachTookItsBlock};
ghost use Rattle.esa_params.specs.Slots.{item_length};
ghost use Rattle.esa_report.specs.declared.item.Item.{Item};
ghost use Rattle.esa_spec.specs.Fronts.{Begins};
ghost use Rattle.esa_turnstile.specs.Entries.{times};
ghost use Rattle.esa_turnstile.specs.Passes.{added_of, left_of, opened_of, passes_of, tickets_of};
ghost use Rattle.esa_workers.specs.Distributions.{AreTurnsOfAll, HasFloor, Rests};

use crate::crews::crew;
use crate::gates::Gate;
use crate::meetings::{hear_all, tell_all};
use crate::posts::Post;
use esa_device::Device;
use esa_floor::{Floor, Told};
use esa_spec::Coins;
use esa_turnstile::{Held, Pass, Turnstile};
use std::sync::Wait;
use std::thread::Threads;

/// An attempt's distribution by a crew. The owner of the turnstile, who is inside, begins the attempt and leaves. It tells all
/// posts of it, lets them work, each in a thread of its own, and hears what they have seen. Then it enters again, and finds
/// all chunks written or a stop, whatever the schedule was.
pub fn distribute<
    V: Device + Send,
    G: Told + Send,
    C: Coins + Sync,
    H: Gate + Sync,
    R: Threads + Wait + Sync,
>(
    rt: &R,
    turnstile: &Turnstile<Floor<V, G>>,
    owner: &mut Pass<Floor<V, G>>,
    mut held: Held<Floor<V, G>>,
    posts: &mut [Post<'_, V, G, C>],
    gate: &H,
    attempt: u32,
) -> Held<Floor<V, G>>
    requires stands { Stands V.faults G.plan G.draws (begun_as held.value attempt) }
    requires some { 1 ≤ G.plan.workers }
    requires took { (record_of : ℕ → Item) → AreItems (item_length G.plan.form) record_of → EachTookItsBlock G.draws record_of held.value }
    requires failed { NoneFailed held.value.recorder.log }
    requires reads { EachGaveItsBlock G.draws held.value }
    requires floor { HasFloor G.plan turnstile.now owner.old held.value }
    requires tickets { 2 ≤ left_of owner.old }
    requires passes { passes_of turnstile.now ≡ G.plan.workers + 1 }
    requires room { passes_of turnstile.now * tickets_of turnstile.now ≤ (opened_of turnstile.now).room }
    requires each { length posts.old ≡ G.plan.workers }
    requires posts { (k : ℕ) (d : _) → k < length posts.old → Rests V.faults G.draws C.target_list G.plan turnstile.now held.value k (slice_index_or posts.old k d) }
    ensures kept { IsKept V.faults G.plan G.draws result.value }
    ensures attempt { result.value.attempt ≡ Some attempt }
    ensures floor { HasFloor G.plan turnstile.now owner.new result.value }
    ensures tickets { left_of owner.new + 1 ≡ left_of owner.old }
    ensures all { result.value.stop ≡ None → result.value.counted.writes ≡ result.value.plan.b * result.value.plan.b }
    ensures history { result.value.history ≡ (held.value.history ++ G.plan.workers ∷ []) ++ turns_made result.value }
    ensures turns { AreTurnsOfAll G.plan result.value.stop (turns_made result.value) }
    ensures log { Begins held.value.recorder.log result.value.recorder.log }
    ensures input { (record_of : ℕ → Item) → IsFaithful G.plan result.value.recorder.log → HasInput held.value record_of → HasInput result.value record_of }
    ensures posts { (k : ℕ) (d : _) → k < length posts.new → Rests V.faults G.draws C.target_list G.plan turnstile.now result.value k (slice_index_or posts.new k d) }
    ensures each { length posts.new ≡ length posts.old }

    // A worker whose pass has added nothing stood nowhere in the history.
    ensures fresh { (k : ℕ) (d : _) → k < length posts.old → added_of (slice_index_or posts.old k d).pass ≡ 0 → times k held.value.history ≡ 0 }
{
    held.value.begin(attempt);
    held.value.keeps_its_log();
    turnstile.leave(owner, held);
    tell_all(turnstile, owner, posts);
    crew(rt, turnstile, posts, gate);
    hear_all(turnstile, owner, posts);
    turnstile.enter(rt, owner)
}
