//! The private work of a worker: it opens the envelopes of a bucket, and seals its chunks.

ghost use Rattle.std.specs.Prelude.{◌≡◌, ◌≢◌, ℕ, ◌+◌, ◌-◌, ◌*◌, ◌<◌, ◌≤◌, ◌↔◌, All, Some, IsOk, OnOk, OnErr, length, map, take};
ghost use Rattle.esa_params.specs.Sizes as sizes;
ghost use Rattle.esa_params.specs.Sizes.{below};
ghost use Rattle.esa_params.specs.Slots.{at, item_length, plain_length};
ghost use Rattle.esa_stash.specs.Stash.{chunks as chunks_of, count, exchanged, total};
ghost use Rattle.esa_vault.specs.Items.{IsEnvelopeLength};
ghost use Rattle.esa_vault.specs.Placed.{IsSpelled};
ghost use Rattle.esa_vault.specs.Seals.{opens};
ghost use Rattle.esa_vault.specs.Traffic.{GivesLatest, IsOpenedTo, IsRead};
ghost use Rattle.esa_floor.specs.Exchanges.{AreOf};
ghost use Rattle.esa_floor.specs.Parts.{count_at};
ghost use Rattle.esa_floor.specs.Private.{AreRooms, AreSealed, blocks_in, item_opened, sealed_chunk};

use crate::exchanger::Exchanger;
use esa_device::{Device, Recorder};
use esa_envelope::Prepared;
use esa_params::{Plan, Region, Slot};
use esa_report::Item;
use esa_spec::Coins;
use esa_stash::Overflow;
use esa_vault::{VaultFault, get_block, item_of, put_items, seal_block};

/// Opens the first envelopes of a text, of so many bytes each, as many as there are items.
pub(crate) fn open_all(keys: &Prepared, size: usize, text: &[u8], items: &mut [Item])
    requires size { IsEnvelopeLength size }
    requires whole { length items.old * size ≤ length text.now }
    ensures { items.new ≡ map (item_opened keys.now size text.now) (below (length items.old)) }
{
    for place in 0..items.len() {
        let at = place * size;
        items[place] = item_of(keys, &text[at..at + size]);
    }
}

/// Opens so many envelopes to the first items.
fn open_some(keys: &Prepared, size: usize, text: &[u8], items: &mut [Item], count: usize)
    requires size { IsEnvelopeLength size }
    requires count { count ≤ length items.old }
    requires whole { count * size ≤ length text.now }
    ensures { take count items.new ≡ map (item_opened keys.now size text.now) (below count) }
{
    open_all(keys, size, text, &mut items[..count]);
}

/// The same in a buffer.
pub(crate) fn open_first(
    keys: &Prepared,
    size: usize,
    text: &[u8],
    items: &mut Vec<Item>,
    count: usize,
)
    requires size { IsEnvelopeLength size }
    requires count { count ≤ length items.old.items }
    requires whole { count * size ≤ length text.now }
    ensures front { take count items.new.items ≡ map (item_opened keys.now size text.now) (below count) }
    ensures length { length items.new.items ≡ length items.old.items }
{
    open_some(keys, size, text, items, count);
}

/// Draws the targets of a bucket's places, so many, to the first targets.
fn draw_some<C: Coins>(
    coins: &C,
    attempt: u32,
    bucket: u32,
    size: usize,
    draw: &mut [u32],
    targets: &mut [u32],
)
    requires attempt { attempt < (C.plan coins.now).attempts }
    requires bucket { bucket < (C.plan coins.now).b }
    requires size { size ≡ sizes.size (C.plan coins.now) bucket }
    requires draw { size + (C.plan coins.now).b - 1 ≤ length draw.old }
    requires targets { size ≤ length targets.old }
    ensures { take size targets.new ≡ C.target_list coins.now attempt bucket }
{
    let drawn = size + coins.plan().b() as usize - 1;
    coins.targets(attempt, bucket, &mut draw[..drawn], &mut targets[..size]);
}

/// The same in buffers.
pub(crate) fn draw_first<C: Coins>(
    coins: &C,
    attempt: u32,
    bucket: u32,
    size: usize,
    draw: &mut Vec<u32>,
    targets: &mut Vec<u32>,
)
    requires attempt { attempt < (C.plan coins.now).attempts }
    requires bucket { bucket < (C.plan coins.now).b }
    requires size { size ≡ sizes.size (C.plan coins.now) bucket }
    requires draw { size + (C.plan coins.now).b - 1 ≤ length draw.old.items }
    requires targets { size ≤ length targets.old.items }
    ensures front { take size targets.new.items ≡ C.target_list coins.now attempt bucket }
    ensures draw { length draw.new.items ≡ length draw.old.items }
    ensures targets { length targets.new.items ≡ length targets.old.items }
{
    draw_some(coins, attempt, bucket, size, draw, targets);
}

/// Seals the chunks of a bucket, each for its slot in an attempt. `text` is room for the text of one of them.
pub(crate) fn seal_all(
    plan: &Plan,
    keys: &Prepared,
    bucket: u32,
    attempt: u32,
    chunks: &[Item],
    text: &mut [u8],
    blocks: &mut [Vec<u8>],
)
    requires bucket { bucket < plan.now.b }
    requires chunks { length chunks.now ≡ plan.now.b * plan.now.c }
    requires spelled { All (IsSpelled (item_length plan.now.form)) chunks.now }
    requires text { length text.old ≡ item_length plan.now.form * plan.now.c }
    requires blocks { AreRooms plan.now (blocks_in blocks.old) }
    ensures sealed { AreSealed plan.now keys.now bucket attempt chunks.now (blocks_in blocks.new) plan.now.b }
    ensures blocks { AreRooms plan.now (blocks_in blocks.new) }
{
    for target in 0..plan.b() {
        let block = &mut blocks[target as usize];
        seal_one(plan, keys, bucket, target, attempt, chunks, text, block);
    }
}

/// Seals the chunk for a target.
fn seal_one(
    plan: &Plan,
    keys: &Prepared,
    bucket: u32,
    target: u32,
    attempt: u32,
    chunks: &[Item],
    text: &mut [u8],
    block: &mut Vec<u8>,
)
    requires bucket { bucket < plan.now.b }
    requires target { target < plan.now.b }
    requires chunks { length chunks.now ≡ plan.now.b * plan.now.c }
    requires spelled { All (IsSpelled (item_length plan.now.form)) chunks.now }
    requires text { length text.old ≡ item_length plan.now.form * plan.now.c }
    requires block { length block.old.items ≡ item_length plan.now.form * plan.now.c + 40 }
    ensures sealed { block.new.items ≡ sealed_chunk plan.now keys.now bucket attempt chunks.now target }
    ensures block { length block.new.items ≡ item_length plan.now.form * plan.now.c + 40 }
{
    let c = plan.c() as usize;
    let from = target as usize * c;
    put_items(plan.form(), &chunks[from..from + c], text);
    let slot = Slot {
        region: Region::Mid,
        index: bucket * plan.b() + target,
    };
    seal_block(plan, keys, slot, attempt, text, block);
}

/// Reads the block of a bucket of the input to the first bytes of `sealed`, and opens it to the first of `text`.
fn read_some<V: Device>(
    recorder: &mut Recorder<V>,
    plan: &Plan,
    keys: &Prepared,
    bucket: u32,
    attempt: u32,
    size: usize,
    sealed: &mut [u8],
    text: &mut [u8],
) -> Result<(), VaultFault>
    requires bucket { bucket < plan.now.b }
    requires ready { recorder.old.plan ≡ Some plan.now }
    requires room { 0 < recorder.old.room }
    requires size { size ≡ plain_length plan.now Region.Input bucket }
    requires sealed { size + 40 ≤ length sealed.old }
    requires text { size ≤ length text.old }
    ensures read { IsRead V.told V.faults V.last_call plan.now (at Region.Input bucket) attempt (opens plan.now keys.now (at Region.Input bucket) attempt 0) (take (size + 40) sealed.new) recorder.old recorder.new result }
    ensures opened { IsOpenedTo plan.now keys.now (at Region.Input bucket) attempt (take (size + 40) sealed.new) (take size text.old) (take size text.new) result }
    ensures latest { GivesLatest plan.now keys.now (at Region.Input bucket) attempt 0 (take size text.new) recorder.old recorder.new result }
{
    let slot = Slot {
        region: Region::Input,
        index: bucket,
    };
    let sealed = &mut sealed[..size + 40];
    get_block(
        recorder,
        plan,
        keys,
        slot,
        attempt,
        0,
        sealed,
        &mut text[..size],
    )
}

/// The same in buffers.
pub(crate) fn read_first<V: Device>(
    recorder: &mut Recorder<V>,
    plan: &Plan,
    keys: &Prepared,
    bucket: u32,
    attempt: u32,
    size: usize,
    sealed: &mut Vec<u8>,
    text: &mut Vec<u8>,
) -> Result<(), VaultFault>
    requires bucket { bucket < plan.now.b }
    requires ready { recorder.old.plan ≡ Some plan.now }
    requires room { 0 < recorder.old.room }
    requires size { size ≡ plain_length plan.now Region.Input bucket }
    requires sealed { size + 40 ≤ length sealed.old.items }
    requires text { size ≤ length text.old.items }
    ensures read { IsRead V.told V.faults V.last_call plan.now (at Region.Input bucket) attempt (opens plan.now keys.now (at Region.Input bucket) attempt 0) (take (size + 40) sealed.new.items) recorder.old recorder.new result }
    ensures opened { IsOpenedTo plan.now keys.now (at Region.Input bucket) attempt (take (size + 40) sealed.new.items) (take size text.old.items) (take size text.new.items) result }
    ensures latest { GivesLatest plan.now keys.now (at Region.Input bucket) attempt 0 (take size text.new.items) recorder.old recorder.new result }
    ensures sealed { length sealed.new.items ≡ length sealed.old.items }
    ensures text { length text.new.items ≡ length text.old.items }
{
    read_some(recorder, plan, keys, bucket, attempt, size, sealed, text)
}

/// Exchanges the first items of a bucket, so many, for its chunks.
fn exchange_some(
    exchanger: &mut Exchanger,
    bucket: u32,
    size: usize,
    targets: &[u32],
    items: &[Item],
    chunks: &mut [Item],
) -> Result<(), Overflow>
    requires bucket { bucket < exchanger.old.plan.b }
    requires targets { size ≤ length targets.now }
    requires items { size ≤ length items.now }
    requires below { All (λ target. target < exchanger.old.plan.b) (take size targets.now) }
    requires places { length chunks.old ≡ exchanger.old.plan.b * exchanger.old.plan.c }
    ensures fits { IsOk result ↔ (total (exchanged exchanger.old.stash (take size targets.now, take size items.now)) ≤ exchanger.old.plan.s) }
    ensures plan { exchanger.new.plan ≡ exchanger.old.plan }
    ensures stash { OnOk result (exchanger.new.stash ≡ exchanged exchanger.old.stash (take size targets.now, take size items.now)) }
    ensures chunks { OnOk result (chunks.new ≡ chunks_of exchanger.old.stash (take size targets.now, take size items.now)) }
    ensures counts { OnOk result ((i : ℕ) → i < exchanger.old.plan.b → count_at exchanger.old.plan.b exchanger.new.counts bucket i ≡ count exchanger.old.stash (take size targets.now, take size items.now) i) }
    ensures others { OnOk result ((j i : ℕ) → i < exchanger.old.plan.b → j ≢ bucket → count_at exchanger.old.plan.b exchanger.new.counts j i ≡ count_at exchanger.old.plan.b exchanger.old.counts j i) }
    ensures unchanged { OnErr result (exchanger.new ≡ exchanger.old) }
    ensures chunks_unchanged { OnErr result (chunks.new ≡ chunks.old) }
    ensures of { AreOf exchanger.old.plan exchanger.old.stash exchanger.old.counts }
{
    exchanger.exchange(bucket, &targets[..size], &items[..size], chunks)
}

/// The same of buffers.
pub(crate) fn exchange_first(
    exchanger: &mut Exchanger,
    bucket: u32,
    size: usize,
    targets: &Vec<u32>,
    items: &Vec<Item>,
    chunks: &mut Vec<Item>,
) -> Result<(), Overflow>
    requires bucket { bucket < exchanger.old.plan.b }
    requires targets { size ≤ length targets.now.items }
    requires items { size ≤ length items.now.items }
    requires below { All (λ target. target < exchanger.old.plan.b) (take size targets.now.items) }
    requires places { length chunks.old.items ≡ exchanger.old.plan.b * exchanger.old.plan.c }
    ensures fits { IsOk result ↔ (total (exchanged exchanger.old.stash (take size targets.now.items, take size items.now.items)) ≤ exchanger.old.plan.s) }
    ensures plan { exchanger.new.plan ≡ exchanger.old.plan }
    ensures stash { OnOk result (exchanger.new.stash ≡ exchanged exchanger.old.stash (take size targets.now.items, take size items.now.items)) }
    ensures chunks { OnOk result (chunks.new.items ≡ chunks_of exchanger.old.stash (take size targets.now.items, take size items.now.items)) }
    ensures counts { OnOk result ((i : ℕ) → i < exchanger.old.plan.b → count_at exchanger.old.plan.b exchanger.new.counts bucket i ≡ count exchanger.old.stash (take size targets.now.items, take size items.now.items) i) }
    ensures others { OnOk result ((j i : ℕ) → i < exchanger.old.plan.b → j ≢ bucket → count_at exchanger.old.plan.b exchanger.new.counts j i ≡ count_at exchanger.old.plan.b exchanger.old.counts j i) }
    ensures unchanged { OnErr result (exchanger.new ≡ exchanger.old) }
    ensures chunks_unchanged { OnErr result (chunks.new.items ≡ chunks.old.items) }
    ensures of { AreOf exchanger.old.plan exchanger.old.stash exchanger.old.counts }
    ensures places { length chunks.new.items ≡ length chunks.old.items }
{
    exchange_some(exchanger, bucket, size, targets, items, chunks)
}
