//! The load of a run.

ghost use Rattle.std.specs.Prelude.{◌≡◌, All, IsOk, []};
ghost use Rattle.esa_floor.specs.Written.{WritesInput};
ghost use Rattle.esa_params.specs.Form.{envelope_length};
ghost use Rattle.esa_shuffle.specs.Loading.{EndsLoad, FailedByLoad, HasGiven, IsUnbegun, TakesBatch};

use esa_crew::loaded_floors_begin;
use esa_device::Device;
use esa_floor::{Floor, Outcome, Told};
use esa_load::{LoadFault, Loader, loaded_batches_are_input};
use esa_outside::Records;

/// Loads a batch on a floor of which no attempt was begun. Where the batch or the device failed, the run ends so.
pub fn load<V: Device, G: Told, R: Records>(
    floor: &mut Floor<V, G>,
    loader: &mut Loader,
    batch: &mut R,
) -> Result<(), Outcome>
    requires new { IsUnbegun V.faults G.plan G.draws floor.old }
    requires plan { loader.old.plan ≡ floor.old.plan }
    requires run { loader.old.run ≡ floor.old.run }
    requires count { R.count batch.old ≡ floor.old.plan.n }
    requires size { R.size batch.old ≡ envelope_length floor.old.plan.form }
    ensures ends { EndsLoad V.faults G.plan G.draws floor.new (R.faults batch.old) (R.faults batch.new) result }
    ensures given { HasGiven floor.old.plan (R.told batch.old) (R.part (R.grounds batch.old)) (R.heard batch.old) (R.heard batch.new) (IsOk result)
        (TakesBatch floor.old floor.new result) }
    ensures input { floor.old.recorder.log ≡ [] → All (WritesInput floor.new.plan) floor.new.recorder.log }
    ensures failed { floor.old.recorder.log ≡ [] → FailedByLoad result floor.new.recorder.log }
    ensures floor { floor.new ≡ record floor.old { recorder = floor.new.recorder } }
    ensures told { R.told batch.new ≡ R.told batch.old }
    ensures grounds { R.grounds batch.new ≡ R.grounds batch.old }
    ensures count { R.count batch.new ≡ R.count batch.old }
    ensures size { R.size batch.new ≡ R.size batch.old }
{
    match loader.load(floor.recorder(), batch) {
        Ok(()) => {
            loaded_floors_begin::<V>();
            loaded_batches_are_input();
            Ok(())
        }
        Err(LoadFault::Batch(_)) => Err(Outcome::BatchFailed),
        Err(LoadFault::Device(number)) => Err(Outcome::DeviceFault(number)),
    }
}
