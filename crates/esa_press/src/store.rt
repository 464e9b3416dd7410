//! Blocks of items that are written.

ghost use Rattle.std.specs.Prelude.{◌≡◌, ◌<◌, ◌*◌, Some, All, length};
ghost use Rattle.esa_params.specs.Slots.{IsPlanned, block_length, item_length, plain_length};
ghost use Rattle.esa_vault.specs.Filled.{text_of};
ghost use Rattle.esa_vault.specs.Placed.{IsSpelled};
ghost use Rattle.esa_vault.specs.Seals.{sealed_block};
ghost use Rattle.esa_vault.specs.Traffic.{IsWritten};

use esa_device::{Device, Recorder};
use esa_envelope::Prepared;
use esa_params::{Plan, Slot};
use esa_report::Item;
use esa_vault::{VaultFault, put_block, put_items};

/// Seals items as the block of a slot in an attempt, and writes it. `text` and `sealed` are room for the block.
pub(crate) fn store_items<V: Device>(
    recorder: &mut Recorder<V>,
    plan: &Plan,
    keys: &Prepared,
    slot: Slot,
    attempt: u32,
    items: &[Item],
    text: &mut [u8],
    sealed: &mut [u8],
) -> Result<(), VaultFault>
    requires planned { IsPlanned plan.now slot }
    requires ready { recorder.old.plan ≡ Some plan.now }
    requires room { 0 < recorder.old.room }
    requires spelled { All (IsSpelled (item_length plan.now.form)) items.now }
    requires items { length items.now * item_length plan.now.form ≡ plain_length plan.now slot.region slot.index }
    requires text { length text.old ≡ plain_length plan.now slot.region slot.index }
    requires sealed { length sealed.old ≡ block_length plan.now slot }
    ensures { IsWritten V.told V.faults V.last_call plan.now slot attempt (sealed_block plan.now keys.now slot attempt (text_of (item_length plan.now.form) items.now)) recorder.old recorder.new result }
{
    put_items(plan.form(), items, text);
    put_block(recorder, plan, keys, slot, attempt, text, sealed)
}
