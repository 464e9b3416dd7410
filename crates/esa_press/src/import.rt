//! The blocks of an import, each read to its place of one buffer.

ghost use Rattle.std.specs.Prelude.{◌≡◌, ◌≢◌, ℕ, ◌+◌, ◌*◌, ◌<◌, ◌≤◌, List, Some, All, OnOk, flat_map, length, drop, slice_index, slice_range, sum, take};
ghost use Rattle.esa_device.specs.Logs.{IsFaithful};
ghost use Rattle.esa_params.specs.Sizes.{below};
ghost use Rattle.esa_params.specs.Slots.{IsPlanned, at, block_length, item_length, plain_length};
ghost use Rattle.esa_report.specs.declared.item.Item.{Item};
ghost use Rattle.esa_spec.specs.Traces.{chunk_slot};
ghost use Rattle.esa_stash.specs.Dealing.{chunk_at};
ghost use Rattle.esa_stash.specs.Stash.{padded};
ghost use Rattle.esa_compress.specs.Held.{held_count};
ghost use Rattle.esa_vault.specs.Placed.{IsSpelled};
ghost use Rattle.esa_vault.specs.Seals.{opens};
ghost use Rattle.esa_vault.specs.Traffic.{IsRead};
ghost use Rattle.esa_press.specs.Fetched.{AreGot, AreStored, IsFetched, IsStored};
ghost use Rattle.esa_press.specs.Records.{imported_items};

use crate::fetch::fetch_items;
use crate::room::Room;
use esa_device::{Device, Recorder};
use esa_envelope::Prepared;
use esa_params::{Plan, Region, Slot};
use esa_report::Item;
use esa_vault::VaultFault;

/// Reads the chunks for a target by the number of their bucket, and then its tail, each to its place among the items.
/// As many of these are no dummies as are counted, chunk after chunk and then in the tail.
pub(crate) fn fetch_import<V: Device>(
    recorder: &mut Recorder<V>,
    plan: &Plan,
    keys: &Prepared,
    attempt: u32,
    target: u32,
    counts: &[u32],
    chunk: &mut Room,
    tail: &mut Room,
    items: &mut [Item],
) -> Result<(), VaultFault>
    requires target { target < plan.now.b }
    requires ready { recorder.old.plan ≡ Some plan.now }
    requires room { plan.now.b + 1 ≤ recorder.old.room }
    requires each { length counts.now ≡ plan.now.b + 1 }
    requires few { (j : ℕ) → j < plan.now.b → slice_index counts.now j ≤ plan.now.c }
    requires few_left { slice_index counts.now plan.now.b ≤ plan.now.k }
    requires chunk { chunk.old ≡ item_length plan.now.form * plan.now.c }
    requires tail { tail.old ≡ item_length plan.now.form * plan.now.k }
    requires items { length items.old ≡ plan.now.b * plan.now.c + plan.now.k }
    ensures fetched { IsFetched V.faults plan.now keys.now attempt target counts.now (plan.now.b + 1) recorder.old recorder.new result }
    ensures counted { OnOk result (held_count items.new ≡ sum counts.now) }
    ensures spelled { OnOk result (All (IsSpelled (item_length plan.now.form)) items.new) }
    ensures gives { (chunks : ℕ → List Item) (left : List Item) → IsFaithful plan.now recorder.new.log
        → AreStored plan.now keys.now attempt target recorder.old.log chunks left → OnOk result (items.new ≡ imported_items plan.now chunks left) }
    ensures chunk { chunk.new ≡ chunk.old }
    ensures tail { tail.new ≡ tail.old }
{
    if let Err(fault) = fetch_chunks(
        recorder,
        plan,
        keys,
        attempt,
        target,
        counts,
        &mut chunk.sealed,
        &mut chunk.text,
        items,
    ) {
        return Err(fault);
    }
    let count = counts[plan.b() as usize];
    fetch_tail(
        recorder,
        plan,
        keys,
        attempt,
        target,
        count,
        &mut tail.sealed,
        &mut tail.text,
        items,
    )
}

/// Reads the tail of a target, to the items behind the chunks.
fn fetch_tail<V: Device>(
    recorder: &mut Recorder<V>,
    plan: &Plan,
    keys: &Prepared,
    attempt: u32,
    target: u32,
    count: u32,
    sealed: &mut [u8],
    text: &mut [u8],
    items: &mut [Item],
) -> Result<(), VaultFault>
    requires target { target < plan.now.b }
    requires ready { recorder.old.plan ≡ Some plan.now }
    requires room { 0 < recorder.old.room }
    requires count { count ≤ plan.now.k }
    requires sealed { length sealed.old ≡ item_length plan.now.form * plan.now.k + 40 }
    requires text { length text.old ≡ item_length plan.now.form * plan.now.k }
    requires items { length items.old ≡ plan.now.b * plan.now.c + plan.now.k }
    ensures read { IsRead V.told V.faults V.last_call plan.now (at Region.Tail target) attempt (opens plan.now keys.now (at Region.Tail target) attempt count) sealed.new recorder.old recorder.new result }
    ensures front { take (plan.now.b * plan.now.c) items.new ≡ take (plan.now.b * plan.now.c) items.old }
    ensures got { AreGot plan.now keys.now (at Region.Tail target) attempt count (drop (plan.now.b * plan.now.c) items.new) recorder.old recorder.new result }
{
    let from = plan.b() as usize * plan.c() as usize;
    let slot = Slot {
        region: Region::Tail,
        index: target,
    };
    let part = &mut items[from..];
    fetch_items(
        recorder, plan, keys, slot, attempt, count, sealed, text, part,
    )
}

/// Reads the chunks for a target, one after another, to the first items.
fn fetch_chunks<V: Device>(
    recorder: &mut Recorder<V>,
    plan: &Plan,
    keys: &Prepared,
    attempt: u32,
    target: u32,
    counts: &[u32],
    sealed: &mut [u8],
    text: &mut [u8],
    items: &mut [Item],
) -> Result<(), VaultFault>
    requires target { target < plan.now.b }
    requires ready { recorder.old.plan ≡ Some plan.now }
    requires room { plan.now.b ≤ recorder.old.room }
    requires each { plan.now.b ≤ length counts.now }
    requires few { (j : ℕ) → j < plan.now.b → slice_index counts.now j ≤ plan.now.c }
    requires sealed { length sealed.old ≡ item_length plan.now.form * plan.now.c + 40 }
    requires text { length text.old ≡ item_length plan.now.form * plan.now.c }
    requires items { plan.now.b * plan.now.c ≤ length items.old }
    ensures fetched { IsFetched V.faults plan.now keys.now attempt target counts.now plan.now.b recorder.old recorder.new result }
    ensures counted { OnOk result (held_count (take (plan.now.b * plan.now.c) items.new) ≡ sum (take plan.now.b counts.now)) }
    ensures spelled { OnOk result (All (IsSpelled (item_length plan.now.form)) (take (plan.now.b * plan.now.c) items.new)) }
    ensures gives { (records : ℕ → List Item) → IsFaithful plan.now recorder.new.log
        → ((j : ℕ) → j < plan.now.b → IsStored plan.now keys.now (chunk_slot plan.now j target) attempt plan.now.c recorder.old.log (records j))
        → OnOk result (take (plan.now.b * plan.now.c) items.new ≡ flat_map (λ j. padded plan.now.c (records j)) (below plan.now.b)) }
{
    for bucket in 0..plan.b() {
        let count = counts[bucket as usize];
        if let Err(fault) = fetch_chunk(
            recorder, plan, keys, attempt, target, bucket, count, sealed, text, items,
        ) {
            return Err(fault);
        }
    }
    Ok(())
}

/// Reads the chunk of a bucket for a target, to its place among the items.
fn fetch_chunk<V: Device>(
    recorder: &mut Recorder<V>,
    plan: &Plan,
    keys: &Prepared,
    attempt: u32,
    target: u32,
    bucket: u32,
    count: u32,
    sealed: &mut [u8],
    text: &mut [u8],
    items: &mut [Item],
) -> Result<(), VaultFault>
    requires target { target < plan.now.b }
    requires bucket { bucket < plan.now.b }
    requires ready { recorder.old.plan ≡ Some plan.now }
    requires room { 0 < recorder.old.room }
    requires count { count ≤ plan.now.c }
    requires sealed { length sealed.old ≡ item_length plan.now.form * plan.now.c + 40 }
    requires text { length text.old ≡ item_length plan.now.form * plan.now.c }
    requires items { plan.now.b * plan.now.c ≤ length items.old }
    ensures read { IsRead V.told V.faults V.last_call plan.now (chunk_slot plan.now bucket target) attempt (opens plan.now keys.now (chunk_slot plan.now bucket target) attempt count) sealed.new recorder.old recorder.new result }
    ensures front { take (bucket * plan.now.c) items.new ≡ take (bucket * plan.now.c) items.old }
    ensures got { AreGot plan.now keys.now (chunk_slot plan.now bucket target) attempt count (chunk_at plan.now.c items.new bucket) recorder.old recorder.new result }
{
    let size = plan.c() as usize;
    let from = bucket as usize * size;
    let slot = Slot {
        region: Region::Mid,
        index: bucket * plan.b() + target,
    };
    fetch_part(
        recorder, plan, keys, slot, attempt, count, from, size, sealed, text, items,
    )
}

/// Reads a block as [`fetch_items`] does, to so many items from a place on.
fn fetch_part<V: Device>(
    recorder: &mut Recorder<V>,
    plan: &Plan,
    keys: &Prepared,
    slot: Slot,
    attempt: u32,
    count: u32,
    from: usize,
    size: usize,
    sealed: &mut [u8],
    text: &mut [u8],
    items: &mut [Item],
) -> Result<(), VaultFault>
    requires planned { IsPlanned plan.now slot }
    requires of_items { slot.region ≢ Region.Input }
    requires ready { recorder.old.plan ≡ Some plan.now }
    requires room { 0 < recorder.old.room }
    requires count { count ≤ size }
    requires inside { from + size ≤ length items.old }
    requires sealed { length sealed.old ≡ block_length plan.now slot }
    requires text { length text.old ≡ plain_length plan.now slot.region slot.index }
    requires items { size * item_length plan.now.form ≡ plain_length plan.now slot.region slot.index }
    ensures read { IsRead V.told V.faults V.last_call plan.now slot attempt (opens plan.now keys.now slot attempt count) sealed.new recorder.old recorder.new result }
    ensures front { take from items.new ≡ take from items.old }
    ensures got { AreGot plan.now keys.now slot attempt count (slice_range items.new from (from + size)) recorder.old recorder.new result }
{
    let part = &mut items[from..from + size];
    fetch_items(
        recorder, plan, keys, slot, attempt, count, sealed, text, part,
    )
}
