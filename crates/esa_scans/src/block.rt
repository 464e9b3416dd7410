//! One block of the output, in each of the two scans.

ghost use Rattle.std.specs.Prelude.{◌≡◌, ◌+◌, ◌*◌, ◌<◌, ◌≤◌, ◌++◌, ℕ, List, [], Some, OnOk, length, take};
ghost use Rattle.std.specs.List.{concat};
ghost use Rattle.esa_crowds.specs.Entries.{entries_from};
ghost use Rattle.esa_crowds.specs.Kept.{sent_from};
ghost use Rattle.esa_hmac.specs.Mac.{StandsFor};
ghost use Rattle.esa_params.specs.Form.{inner_length};
ghost use Rattle.esa_params.specs.Sizes as sizes;
ghost use Rattle.esa_params.specs.Slots.{at, block_length, item_length};
ghost use Rattle.esa_params.specs.declared.slot.Region.TheVariants.{Output};
ghost use Rattle.esa_vault.specs.Seals.{opens};
ghost use Rattle.esa_vault.specs.Traffic.{IsRead};
ghost use Rattle.esa_scans.specs.Held.{is_marked};
ghost use Rattle.esa_scans.specs.Scans.{items_of, text_given};

use crate::sent::Sent;
use crate::text::{look_all, send_all};
use esa_crowds::Table;
use esa_device::{Device, Recorder};
use esa_envelope::Prepared;
use esa_hmac::Mac;
use esa_params::{Plan, Region, Slot};
use esa_vault::{VaultFault, get_block};

/// How many bytes a block is longer than its text.
const SEAL: usize = 40;

/// The length of the text of a block of the output.
fn text_length(plan: &Plan, bucket: u32) -> usize
    requires { bucket < plan.now.b }
    ensures text { result ≡ item_length plan.now.form * sizes.size plan.now bucket }
    ensures block { result + 40 ≡ block_length plan.now (at Output bucket) }
{
    let slot = Slot {
        region: Region::Output,
        index: bucket,
    };
    plan.block_length(slot) as usize - SEAL
}

/// Reads a block of the output into the front of `sealed`, and opens it into the front of `plain`.
fn read_block<V: Device>(
    recorder: &mut Recorder<V>,
    plan: &Plan,
    keys: &Prepared,
    attempt: u32,
    bucket: u32,
    sealed: &mut [u8],
    plain: &mut [u8],
) -> Result<(), VaultFault>
    requires bucket { bucket < plan.now.b }
    requires ready { recorder.old.plan ≡ Some plan.now }
    requires room { 0 < recorder.old.room }
    requires sealed { block_length plan.now (at Output bucket) ≤ length sealed.old }
    requires plain { block_length plan.now (at Output bucket) ≤ length plain.old }
    ensures read { IsRead V.told V.faults V.last_call plan.now (at Output bucket) attempt (opens plan.now keys.now (at Output bucket) attempt (sizes.size plan.now bucket)) (take (block_length plan.now (at Output bucket)) sealed.new) recorder.old recorder.new result }
    ensures opened { OnOk result (take (item_length plan.now.form * sizes.size plan.now bucket) plain.new ≡ text_given plan.now keys.now attempt bucket (take (block_length plan.now (at Output bucket)) sealed.new)) }
{
    let slot = Slot {
        region: Region::Output,
        index: bucket,
    };
    let text = text_length(plan, bucket);
    get_block(
        recorder,
        plan,
        keys,
        slot,
        attempt,
        plan.size(bucket),
        &mut sealed[..text + SEAL],
        &mut plain[..text],
    )
}

/// Reads a block in the first scan, and looks at its items.
pub(crate) fn gather_block<V: Device>(
    recorder: &mut Recorder<V>,
    plan: &Plan,
    keys: &Prepared,
    attempt: u32,
    bucket: u32,
    codes: &Mac,
    sealed: &mut [u8],
    plain: &mut [u8],
    table: &mut Table,
) -> Result<(), VaultFault>
    requires bucket { bucket < plan.now.b }
    requires ready { recorder.old.plan ≡ Some plan.now }
    requires room { 0 < recorder.old.room }
    requires sealed { block_length plan.now (at Output bucket) ≤ length sealed.old }
    requires plain { block_length plan.now (at Output bucket) ≤ length plain.old }
    requires form { table.old.form ≡ plan.now.form }
    requires next { table.old.next ≡ sizes.first plan.now bucket }
    requires records { table.old.room ≡ plan.now.n }
    ensures read { IsRead V.told V.faults V.last_call plan.now (at Output bucket) attempt (opens plan.now keys.now (at Output bucket) attempt (sizes.size plan.now bucket)) (take (block_length plan.now (at Output bucket)) sealed.new) recorder.old recorder.new result }
    ensures entries { OnOk result ((key : List ℕ) → StandsFor codes.now key []
        → table.new.entries ≡ table.old.entries ++ entries_from plan.now.form key (sizes.first plan.now bucket) (items_of plan.now keys.now attempt bucket (take (block_length plan.now (at Output bucket)) sealed.new))) }
    ensures next { OnOk result (table.new.next ≡ sizes.first plan.now (bucket + 1)) }
    ensures form { table.new.form ≡ table.old.form }
    ensures records { table.new.room ≡ table.old.room }
{
    read_block(recorder, plan, keys, attempt, bucket, sealed, plain)?;
    let text = text_length(plan, bucket);
    let count = plan.size(bucket);
    look_all(plan.form(), count, codes, &plain[..text], table);
    Ok(())
}

/// Reads a block in the second scan, and sends its items that are kept.
pub(crate) fn send_block<V: Device>(
    recorder: &mut Recorder<V>,
    plan: &Plan,
    keys: &Prepared,
    attempt: u32,
    bucket: u32,
    table: &Table,
    sealed: &mut [u8],
    plain: &mut [u8],
    sent: &mut Sent,
) -> Result<(), VaultFault>
    requires bucket { bucket < plan.now.b }
    requires ready { recorder.old.plan ≡ Some plan.now }
    requires room { 0 < recorder.old.room }
    requires sealed { block_length plan.now (at Output bucket) ≤ length sealed.old }
    requires plain { block_length plan.now (at Output bucket) ≤ length plain.old }
    requires form { table.now.form ≡ plan.now.form }
    requires records { table.now.room ≡ plan.now.n }
    requires few { length sent.old.bytes ≤ sizes.first plan.now bucket * inner_length plan.now.form }
    requires whole { sent.old.room ≡ plan.now.n * inner_length plan.now.form }
    ensures read { IsRead V.told V.faults V.last_call plan.now (at Output bucket) attempt (opens plan.now keys.now (at Output bucket) attempt (sizes.size plan.now bucket)) (take (block_length plan.now (at Output bucket)) sealed.new) recorder.old recorder.new result }
    ensures sent { OnOk result (sent.new.bytes ≡ sent.old.bytes ++ concat (sent_from plan.now.form (is_marked table.now.kept) (sizes.first plan.now bucket) (items_of plan.now keys.now attempt bucket (take (block_length plan.now (at Output bucket)) sealed.new)))) }
    ensures whole { sent.new.room ≡ sent.old.room }
{
    read_block(recorder, plan, keys, attempt, bucket, sealed, plain)?;
    let text = text_length(plan, bucket);
    let count = plan.size(bucket);
    let first = plan.first(bucket);
    send_all(plan.form(), count, first, table, &plain[..text], sent);
    Ok(())
}
