//! Blocks written to the device.

ghost use Rattle.std.specs.Prelude.{◌≡◌, ◌<◌, Some, length};
ghost use Rattle.esa_envelope.specs.Envelope.{nonce_in};
ghost use Rattle.esa_params.specs.Slots.{IsPlanned, block_length, nonce_of, plain_length};
ghost use Rattle.esa_vault.specs.Seals.{sealed_block};
ghost use Rattle.esa_vault.specs.Traffic.{IsWritten};

use crate::block::seal_block;
use crate::fault::VaultFault;
use esa_device::{Device, Recorder};
use esa_envelope::Prepared;
use esa_params::{Op, Plan, Slot};

/// Writes a block that was sealed for its slot and attempt. It fails only where the device's count of faults rose. The
/// log has the block, or that the access failed.
pub fn write_block<V: Device>(
    recorder: &mut Recorder<V>,
    plan: &Plan,
    slot: Slot,
    attempt: u32,
    sealed: &[u8],
) -> Result<(), VaultFault>
    requires planned { IsPlanned plan.now slot }
    requires ready { recorder.old.plan ≡ Some plan.now }
    requires room { 0 < recorder.old.room }
    requires sealed { length sealed.now ≡ block_length plan.now slot }
    requires nonce { nonce_in sealed.now ≡ nonce_of plan.now attempt slot }
    ensures { IsWritten V.told V.faults V.last_call plan.now slot attempt sealed.now recorder.old recorder.new result }
{
    let access = plan.access(attempt, Op::Write, slot);
    match recorder.write(access, sealed) {
        Ok(()) => Ok(()),
        Err(_) => Err(VaultFault::Device(plan.number(slot))),
    }
}

/// Seals the text of a block into `sealed`, as [`seal_block`](crate::seal_block) does, and writes it as
/// [`write_block`] does.
pub fn put_block<V: Device>(
    recorder: &mut Recorder<V>,
    plan: &Plan,
    keys: &Prepared,
    slot: Slot,
    attempt: u32,
    plain: &[u8],
    sealed: &mut [u8],
) -> Result<(), VaultFault>
    requires planned { IsPlanned plan.now slot }
    requires ready { recorder.old.plan ≡ Some plan.now }
    requires room { 0 < recorder.old.room }
    requires plain { length plain.now ≡ plain_length plan.now slot.region slot.index }
    requires sealed { length sealed.old ≡ block_length plan.now slot }
    ensures sealed { sealed.new ≡ sealed_block plan.now keys.now slot attempt plain.now }
    ensures written { IsWritten V.told V.faults V.last_call plan.now slot attempt sealed.new recorder.old recorder.new result }
{
    seal_block(plan, keys, slot, attempt, plain, sealed);
    write_block(recorder, plan, slot, attempt, sealed)
}
