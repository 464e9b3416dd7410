//! The load of one bucket.

ghost use Rattle.std.specs.Prelude.{◌≡◌, ◌+◌, ◌<◌, Some, length};
ghost use Rattle.esa_params.specs.Form.{envelope_length};
ghost use Rattle.esa_params.specs.Sizes.{first};
ghost use Rattle.esa_params.specs.Slots.{plain_length};
ghost use Rattle.esa_load.specs.Loads.{BucketEnd, WriteEnd};

use crate::fault::LoadFault;
use esa_device::{Device, Recorder};
use esa_envelope::Prepared;
use esa_outside::Records;
use esa_params::{Plan, Region, Slot};
use esa_vault::put_block;

/// Writes the block of a bucket with this text, for which `sealed` is room.
fn write_bucket<V: Device>(
    recorder: &mut Recorder<V>,
    plan: &Plan,
    run: &Prepared,
    bucket: u32,
    text: &[u8],
    sealed: &mut [u8],
) -> Result<(), LoadFault>
    requires bucket { bucket < plan.now.b }
    requires ready { recorder.old.plan ≡ Some plan.now }
    requires room { 0 < recorder.old.room }
    requires text { length text.now ≡ plain_length plan.now Region.Input bucket }
    requires sealed { length sealed.old ≡ plain_length plan.now Region.Input bucket + 40 }
    ensures end { WriteEnd V.faults plan.now run.now bucket text.now recorder.old recorder.new result }
    ensures last { recorder.new.last ≡ recorder.old.last }
{
    let slot = Slot {
        region: Region::Input,
        index: bucket,
    };
    match put_block(recorder, plan, run, slot, 0, text, sealed) {
        Ok(()) => Ok(()),
        Err(_) => Err(LoadFault::Device(plan.number(slot))),
    }
}

/// Reads the records of a bucket into `text`, and writes its block, for which `sealed` is room.
pub(crate) fn load_bucket<V: Device, R: Records>(
    recorder: &mut Recorder<V>,
    plan: &Plan,
    run: &Prepared,
    batch: &mut R,
    bucket: u32,
    text: &mut [u8],
    sealed: &mut [u8],
) -> Result<(), LoadFault>
    requires bucket { bucket < plan.now.b }
    requires ready { recorder.old.plan ≡ Some plan.now }
    requires room { 0 < recorder.old.room }
    requires count { R.count batch.old ≡ plan.now.n }
    requires size { R.size batch.old ≡ envelope_length plan.now.form }
    requires text { length text.old ≡ plain_length plan.now Region.Input bucket }
    requires sealed { length sealed.old ≡ plain_length plan.now Region.Input bucket + 40 }
    ensures end { BucketEnd V.faults plan.now run.now (R.told batch.old) (R.part (R.grounds batch.old) (first plan.now bucket)) bucket text.new recorder.old recorder.new
        (record { faults = R.faults batch.old; heard = R.heard batch.old }) (record { faults = R.faults batch.new; heard = R.heard batch.new }) result }
    ensures long { length text.new ≡ plain_length plan.now Region.Input bucket }
    ensures told { R.told batch.new ≡ R.told batch.old }
    ensures grounds { R.grounds batch.new ≡ R.grounds batch.old }
    ensures count { R.count batch.new ≡ R.count batch.old }
    ensures size { R.size batch.new ≡ R.size batch.old }
{
    if let Err(_) = batch.records(plan.first(bucket), text) {
        return Err(LoadFault::Batch(bucket));
    }
    write_bucket(recorder, plan, run, bucket, text, sealed)
}
