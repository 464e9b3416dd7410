//! Blocks read from the device.

ghost use Rattle.std.specs.Prelude.{◌≡◌, ◌<◌, ℕ, List, Some, length, slice_get};
ghost use Rattle.esa_params.specs.Sizes.{ArePlanned};
ghost use Rattle.esa_params.specs.Slots.{IsPlanned, block_length, number_of, plain_length};
ghost use Rattle.esa_vault.specs.Seals.{opens};
ghost use Rattle.esa_vault.specs.Traffic.{GivesLatest, GivesTold, IsOpenedTo, IsRead, OnGiven};

use crate::block::open_block;
use crate::fault::VaultFault;
use esa_device::{Device, Recorder};
use esa_envelope::Prepared;
use esa_params::{Op, Plan, Slot};

/// Reads the block of a slot into `sealed` and opens it into `plain`. Tampered exactly where the device gave bytes
/// that don't open for the slot, the attempt and the count, which is the number of items before the dummies, and is
/// not looked at for a block of `Input`. `plain` is as it was where no bytes were given, or their nonce or their tag
/// differs, and otherwise has the opened text.
pub fn get_block<V: Device>(
    recorder: &mut Recorder<V>,
    plan: &Plan,
    keys: &Prepared,
    slot: Slot,
    attempt: u32,
    count: u32,
    sealed: &mut [u8],
    plain: &mut [u8],
) -> Result<(), VaultFault>
    requires planned { IsPlanned plan.now slot }
    requires ready { recorder.old.plan ≡ Some plan.now }
    requires room { 0 < recorder.old.room }
    requires sealed { length sealed.old ≡ block_length plan.now slot }
    requires plain { length plain.old ≡ plain_length plan.now slot.region slot.index }
    ensures read { IsRead V.told V.faults V.last_call plan.now slot attempt (opens plan.now keys.now slot attempt count) sealed.new recorder.old recorder.new result }
    ensures opened { IsOpenedTo plan.now keys.now slot attempt sealed.new plain.old plain.new result }

    // Where the log is faithful, the text is the one that was sealed last for the slot. So it is over a device that
    // tells, which gives what the slot holds.
    ensures latest { GivesLatest plan.now keys.now slot attempt count plain.new recorder.old recorder.new result }
    ensures told { GivesTold plan.now keys.now slot attempt count sealed.new plain.new (V.told recorder.old.device) result }
{
    read_and_open(recorder, plan, keys, slot, attempt, count, sealed, plain)
}

/// Reads a block and opens it, whatever was written before.
fn read_and_open<V: Device>(
    recorder: &mut Recorder<V>,
    plan: &Plan,
    keys: &Prepared,
    slot: Slot,
    attempt: u32,
    count: u32,
    sealed: &mut [u8],
    plain: &mut [u8],
) -> Result<(), VaultFault>
    requires planned { IsPlanned plan.now slot }
    requires ready { recorder.old.plan ≡ Some plan.now }
    requires room { 0 < recorder.old.room }
    requires sealed { length sealed.old ≡ block_length plan.now slot }
    requires plain { length plain.old ≡ plain_length plan.now slot.region slot.index }
    ensures read { IsRead V.told V.faults V.last_call plan.now slot attempt (opens plan.now keys.now slot attempt count) sealed.new recorder.old recorder.new result }
    ensures opened { IsOpenedTo plan.now keys.now slot attempt sealed.new plain.old plain.new result }
    ensures bytes { (blocks : List (List ℕ)) → V.told recorder.old.device ≡ Some blocks
        → OnGiven result (slice_get blocks (number_of plan.now slot) ≡ Some sealed.new) }
    ensures limits { OnGiven result (ArePlanned plan.now) }
{
    let access = plan.access(attempt, Op::Read, slot);
    if recorder.read(access, sealed).is_err() {
        return Err(VaultFault::Device(plan.number(slot)));
    }
    if !open_block(plan, keys, slot, attempt, count, sealed, plain) {
        return Err(VaultFault::Tampered(plan.number(slot)));
    }
    Ok(())
}
