//! Blocks of items that are read.

ghost use Rattle.std.specs.Prelude.{◌≡◌, ◌≢◌, ◌+◌, ◌*◌, ◌<◌, ◌≤◌, Some, OnErr, length, map};
ghost use Rattle.esa_params.specs.Sizes.{below};
ghost use Rattle.esa_params.specs.Slots.{IsPlanned, block_length, item_length, plain_length};
ghost use Rattle.esa_vault.specs.Seals.{opens};
ghost use Rattle.esa_vault.specs.Traffic.{IsRead};
ghost use Rattle.esa_press.specs.Fetched.{AreGot};
ghost use Rattle.esa_press.specs.Records.{item_there};

use esa_device::{Device, Recorder};
use esa_envelope::Prepared;
use esa_params::{Form, Plan, Region, Slot};
use esa_report::Item;
use esa_vault::{VaultFault, get_block, item_in_text};

/// Reads the block of a slot into `sealed`, opens it into `text`, and has its items then. `items` is as it was where the
/// block wasn't got.
pub(crate) fn fetch_items<V: Device>(
    recorder: &mut Recorder<V>,
    plan: &Plan,
    keys: &Prepared,
    slot: Slot,
    attempt: u32,
    count: u32,
    sealed: &mut [u8],
    text: &mut [u8],
    items: &mut [Item],
) -> Result<(), VaultFault>
    requires planned { IsPlanned plan.now slot }
    requires of_items { slot.region ≢ Region.Input }
    requires ready { recorder.old.plan ≡ Some plan.now }
    requires room { 0 < recorder.old.room }
    requires count { count ≤ length items.old }
    requires sealed { length sealed.old ≡ block_length plan.now slot }
    requires text { length text.old ≡ plain_length plan.now slot.region slot.index }
    requires items { length items.old * item_length plan.now.form ≡ plain_length plan.now slot.region slot.index }
    ensures read { IsRead V.told V.faults V.last_call plan.now slot attempt (opens plan.now keys.now slot attempt count) sealed.new recorder.old recorder.new result }
    ensures got { AreGot plan.now keys.now slot attempt count items.new recorder.old recorder.new result }
    ensures unchanged { OnErr result (items.new ≡ items.old) }
{
    get_block(recorder, plan, keys, slot, attempt, count, sealed, text)?;
    open_items(plan.form(), text, items);
    Ok(())
}

/// The items of an opened text, one after another.
fn open_items(form: Form, text: &[u8], items: &mut [Item])
    requires { length items.old * item_length form ≡ length text.now }
    ensures { items.new ≡ map (item_there (item_length form) text.now) (below (length items.old)) }
{
    for place in 0..items.len() {
        items[place] = item_there(form, text, place);
    }
}

/// The item at a place of an opened text.
fn item_there(form: Form, text: &[u8], place: usize) -> Item
    requires { place * item_length form + item_length form ≤ length text.now }
    ensures { result ≡ item_there (item_length form) text.now place }
{
    item_in_text(form, text, place).unwrap_or(Item::dummy())
}
