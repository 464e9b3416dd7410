//! How a crew begins an attempt.

ghost use Rattle.std.specs.Prelude.{◌≡◌, ℕ, ◌<◌, [], length};
ghost use Rattle.esa_floor.specs.Keeping.{KeepsDone, QueuesHold, SlotsHold};
ghost use Rattle.esa_floor.specs.Parts.{begun_as};
ghost use Rattle.esa_floor.specs.Standing.{Stands, turns_made};
ghost use Rattle.esa_floor.specs.Written.{EachGaveItsBlock, EachTookItsBlock};
ghost use Rattle.esa_report.specs.declared.item.Item.{Item};
ghost use Rattle.esa_crew.specs.Posts.{AllHold, AreMembers, ArePosts};

use esa_device::Device;
use esa_floor::{Floor, Told, Worker};
use esa_spec::Coins;

/// Begins an attempt on a floor and with each of its workers, which then stand at their posts.
pub fn begin<V: Device, G: Told, C: Coins>(
    floor: &mut Floor<V, G>,
    workers: &mut [Worker<'_, C>],
    attempt: u32,
)
    requires room { length floor.old.history < floor.old.room }
    requires stands { Stands V.faults G.plan G.draws (begun_as floor.old attempt) }
    requires attempt { attempt < floor.old.plan.attempts }
    requires members { AreMembers G.draws C.target_list floor.old workers.old }
    ensures begun { floor.new ≡ begun_as floor.old attempt }
    ensures stands { Stands V.faults G.plan G.draws floor.new }
    ensures fresh { turns_made floor.new ≡ [] }
    ensures posts { ArePosts G.draws C.target_list floor.new workers.new }
    ensures each { length workers.new ≡ length workers.old }
    ensures hold { AllHold G.draws floor.new workers.new }
    ensures queues { QueuesHold G.draws floor.new }
    ensures slots { SlotsHold G.draws floor.new }
    ensures done { KeepsDone V.faults G.draws floor.new }
    ensures reads { EachGaveItsBlock G.draws floor.old → EachGaveItsBlock G.draws floor.new }
    ensures took { (record_of : ℕ → Item) → EachTookItsBlock G.draws record_of floor.old → EachTookItsBlock G.draws record_of floor.new }
{
    floor.begin(attempt);
    for worker in workers.iter_mut() {
        worker.begin(attempt);
    }
}
