//! A press: the window and the buffers of the drain and the compression, and the single steps of both.

ghost use Rattle.std.specs.Prelude.{◌≡◌, ℕ, ◌+◌, ◌*◌, ◌<◌, ◌≤◌, ◌++◌, List, [], ◌∷◌, Some, All, IfOk, OnOk, OnErr, length, map, min, slice_index, sum};
ghost use Rattle.esa_compress.specs.Held.{held_in};
ghost use Rattle.esa_device.specs.Logs.{IsFaithful};
ghost use Rattle.esa_floor.specs.Parts.{count_at};
ghost use Rattle.esa_params.specs.Sizes as sizes;
ghost use Rattle.esa_params.specs.Sizes.{below};
ghost use Rattle.esa_params.specs.Slots.{item_length};
ghost use Rattle.esa_report.specs.declared.item.Item.{Item};
ghost use Rattle.esa_stash.specs.Stash.{queue_at};
ghost use Rattle.esa_vault.specs.Placed.{IsSpelled};
ghost use Rattle.esa_press.specs.Drained.{DrainAnswer};
ghost use Rattle.esa_press.specs.Fetched.{AreStored};
ghost use Rattle.esa_press.specs.Pressed.{ImportAnswer, PutAnswer};
ghost use Rattle.esa_press.specs.Records.{imported_items};
ghost use Rattle.esa_press.specs.Stepped.{parts_counted};

use crate::halt::Halt;
use crate::import::fetch_import;
use crate::room::Room;
use crate::store::store_items;
use esa_compress::Window;
use esa_device::{Device, Recorder};
use esa_envelope::{Keys, Prepared, prepare};
use esa_floor::{Floor, Told};
use esa_params::{Plan, Region, Slot};
use esa_report::Item;
use esa_spec::{Coins, Verdict};
use std::alloc::{AllocError, Global};
use std::marker::Model;

/// The window of a compression, and room for all blocks of a drain and a compression, their items and their orders.
///
/// Only `make` takes memory.
#[derive(Drop)]
pub struct Press {
    plan: Plan,
    run: Prepared,
    window: Window,
    chunk: Room,
    tail: Room,
    output: Room,
    items: Vec<Item>,
    order: Vec<u32>,
    out: Vec<Item>,
    left: Vec<Item>,
    counts: Vec<u32>,
    tails: Vec<u32>,
}

impl Model for Press {
    ghost use Rattle.esa_press.specs.Pressed.{AreRooms, Pressed};

    ghost Value = { Pressed };

    ghost view = { λ w. record { plan = w.plan; run = w.run; queue = w.window.items; counts = w.counts.items; tails = w.tails.items } };

    ghost invariant = { λ w. AreRooms w.plan w.window.capacity w.window.items w.chunk w.tail w.output w.items.items w.order.items w.out.items w.left.items w.counts.items w.tails.items };
}

impl Press {
    /// A press for a plan and the keys of the blocks. Nothing waits in its window.
    pub fn make(alloc: Global, plan: Plan, run: Keys) -> Result<Press, AllocError>
        ensures plan { IfOk result (λ w. w.plan ≡ plan) }
        ensures run { IfOk result (λ w. w.run ≡ run) }
        ensures empty { IfOk result (λ w. w.queue ≡ []) }
    {
        let (b, c, k) = (plan.b() as usize, plan.c() as usize, plan.k() as usize);
        let size = plan.size(0) as usize;
        let item = plan.form().body() as usize + 1;
        Ok(Press {
            plan,
            run: prepare(&run),
            window: Window::make(alloc, plan.q().min(plan.n()))?,
            chunk: Room::make(alloc, item * c)?,
            tail: Room::make(alloc, item * k)?,
            output: Room::make(alloc, item * size)?,
            items: vec![in alloc; Item::dummy(); b * c + k]?,
            order: vec![in alloc; 0; b * c + k]?,
            out: vec![in alloc; Item::dummy(); size]?,
            left: vec![in alloc; Item::dummy(); k]?,
            counts: vec![in alloc; 0; b + 1]?,
            tails: vec![in alloc; 0; b]?,
        })
    }

    /// The plan.
    pub(crate) fn plan(&self) -> Plan
        ensures { result ≡ self.now.plan }
    {
        self.plan
    }

    /// Drains a target: moves what is queued for it to a tail, and seals and writes the tail.
    pub(crate) fn drain_one<V: Device, G: Told>(
        &mut self,
        floor: &mut Floor<V, G>,
        attempt: u32,
        target: u32,
    ) -> Result<(), Halt>
        requires plan { self.old.plan ≡ floor.old.plan }
        requires run { self.old.run ≡ floor.old.run }
        requires target { target < floor.old.plan.b }
        requires ready { floor.old.recorder.plan ≡ Some floor.old.plan }
        requires room { 0 < floor.old.recorder.room }
        requires spelled { All (IsSpelled (item_length floor.old.plan.form)) (queue_at floor.old.stash target) }
        ensures answer { DrainAnswer V.told V.faults V.last_call attempt target floor.old floor.new self.old.tails self.new.tails result }
        ensures others { self.new ≡ record self.old { tails = self.new.tails } }
        ensures each { length self.old.tails ≡ self.old.plan.b }
    {
        drain_some(
            floor,
            &self.plan,
            &self.run,
            attempt,
            target,
            &mut self.left,
            &mut self.tails,
            &mut self.tail.text,
            &mut self.tail.sealed,
        )
    }

    /// Leaves the window without items.
    pub(crate) fn clear(&mut self)
        ensures { self.new ≡ record self.old { queue = [] } }
    {
        self.window.clear();
    }

    /// Notes how many items each part of the import of a target has.
    pub(crate) fn count<V: Device, G: Told>(&mut self, floor: &Floor<V, G>, target: u32)
        requires plan { self.old.plan ≡ floor.now.plan }
        requires target { target < floor.now.plan.b }
        ensures { self.new ≡ record self.old { counts = parts_counted self.old.plan floor.now.counts self.old.tails target } }
    {
        let tail = self.tails[target as usize];
        count_parts(floor, &self.plan, target, tail, &mut self.counts);
    }

    /// Imports a target: reads its chunks and its tail, and moves their items into the window, in the order of the target and
    /// without the dummies.
    pub(crate) fn import<V: Device, C: Coins>(
        &mut self,
        recorder: &mut Recorder<V>,
        coins: &C,
        attempt: u32,
        target: u32,
    ) -> Result<(), Halt>
        requires coins { C.plan coins.now ≡ self.old.plan }
        requires attempt { attempt < self.old.plan.attempts }
        requires target { target < self.old.plan.b }
        requires ready { recorder.old.plan ≡ Some self.old.plan }
        requires room { self.old.plan.b + 1 ≤ recorder.old.room }
        requires few { (j : ℕ) → j < self.old.plan.b → slice_index self.old.counts j ≤ self.old.plan.c }
        requires few_left { slice_index self.old.counts self.old.plan.b ≤ self.old.plan.k }
        requires all { length self.old.queue + sum self.old.counts ≤ self.old.plan.n }
        ensures answer { ImportAnswer V.faults self.old.plan self.old.run attempt target self.old.counts self.old.queue recorder.old recorder.new result }
        ensures counted { OnOk result (length self.new.queue ≡ length self.old.queue + sum self.old.counts) }
        ensures gives { (chunks : ℕ → List Item) (left : List Item) → IsFaithful self.old.plan recorder.new.log
            → AreStored self.old.plan self.old.run attempt target recorder.old.log chunks left
            → OnOk result (self.new.queue ≡ self.old.queue ++ held_in (imported_items self.old.plan chunks left) (C.order_list coins.now attempt target)) }
        ensures unchanged { OnErr result (self.new ≡ self.old) }
        ensures others { self.new ≡ record self.old { queue = self.new.queue } }
    {
        import_some(
            recorder,
            &self.plan,
            &self.run,
            &mut self.window,
            coins,
            attempt,
            target,
            &self.counts,
            &mut self.chunk,
            &mut self.tail,
            &mut self.items,
            &mut self.order,
        )
    }

    /// Puts an output bucket: takes its items from the window, seals them and writes the block.
    pub(crate) fn put<V: Device>(
        &mut self,
        recorder: &mut Recorder<V>,
        attempt: u32,
        bucket: u32,
    ) -> Result<(), Halt>
        requires bucket { bucket < self.old.plan.b }
        requires ready { recorder.old.plan ≡ Some self.old.plan }
        requires room { 0 < recorder.old.room }
        ensures answer { PutAnswer V.told V.faults V.last_call self.old.plan self.old.run attempt bucket self.old.queue self.new.queue recorder.old recorder.new result }
        ensures others { self.new ≡ record self.old { queue = self.new.queue } }
    {
        let size = self.plan.size(bucket) as usize;
        put_some(
            recorder,
            &self.plan,
            &self.run,
            &mut self.window,
            attempt,
            bucket,
            size,
            &mut self.out,
            &mut self.output.text,
            &mut self.output.sealed,
        )
    }
}

/// Writes how many items each chunk for a target has, and behind these how many its tail has.
fn count_parts<V: Device, G: Told>(
    floor: &Floor<V, G>,
    plan: &Plan,
    target: u32,
    tail: u32,
    counts: &mut [u32],
)
    requires plan { plan.now ≡ floor.now.plan }
    requires target { target < floor.now.plan.b }
    requires counts { length counts.old ≡ plan.now.b + 1 }
    ensures { counts.new ≡ map (λ j. count_at plan.now.b floor.now.counts j target) (below plan.now.b) ++ tail ∷ [] }
{
    for bucket in 0..plan.b() {
        counts[bucket as usize] = floor.count(bucket, target);
    }
    counts[plan.b() as usize] = tail;
}

/// Drains a target over the buffers.
fn drain_some<V: Device, G: Told>(
    floor: &mut Floor<V, G>,
    plan: &Plan,
    keys: &Prepared,
    attempt: u32,
    target: u32,
    left: &mut [Item],
    tails: &mut [u32],
    text: &mut [u8],
    sealed: &mut [u8],
) -> Result<(), Halt>
    requires plan { plan.now ≡ floor.old.plan }
    requires run { keys.now ≡ floor.old.run }
    requires target { target < floor.old.plan.b }
    requires ready { floor.old.recorder.plan ≡ Some floor.old.plan }
    requires room { 0 < floor.old.recorder.room }
    requires spelled { All (IsSpelled (item_length floor.old.plan.form)) (queue_at floor.old.stash target) }
    requires left { length left.old ≡ floor.old.plan.k }
    requires tails { length tails.old ≡ floor.old.plan.b }
    requires text { length text.old ≡ item_length floor.old.plan.form * floor.old.plan.k }
    requires sealed { length sealed.old ≡ item_length floor.old.plan.form * floor.old.plan.k + 40 }
    ensures answer { DrainAnswer V.told V.faults V.last_call attempt target floor.old floor.new tails.old tails.new result }
{
    let count = match floor.spill(target, left) {
        Ok(count) => count,
        Err(_) => return Err(Halt::Verdict(Verdict::StashLeft(target))),
    };
    tails[target as usize] = count;
    let slot = Slot {
        region: Region::Tail,
        index: target,
    };
    let recorder = floor.recorder();
    match store_items(recorder, plan, keys, slot, attempt, left, text, sealed) {
        Ok(()) => Ok(()),
        Err(fault) => Err(Halt::Fault(fault)),
    }
}

/// Imports a target over the buffers.
fn import_some<V: Device, C: Coins>(
    recorder: &mut Recorder<V>,
    plan: &Plan,
    keys: &Prepared,
    window: &mut Window,
    coins: &C,
    attempt: u32,
    target: u32,
    counts: &[u32],
    chunk: &mut Room,
    tail: &mut Room,
    items: &mut [Item],
    order: &mut [u32],
) -> Result<(), Halt>
    requires coins { C.plan coins.now ≡ plan.now }
    requires attempt { attempt < plan.now.attempts }
    requires target { target < plan.now.b }
    requires ready { recorder.old.plan ≡ Some plan.now }
    requires room { plan.now.b + 1 ≤ recorder.old.room }
    requires each { length counts.now ≡ plan.now.b + 1 }
    requires few { (j : ℕ) → j < plan.now.b → slice_index counts.now j ≤ plan.now.c }
    requires few_left { slice_index counts.now plan.now.b ≤ plan.now.k }
    requires all { length window.old.items + sum counts.now ≤ plan.now.n }
    requires capacity { window.old.capacity ≡ min plan.now.q plan.now.n }
    requires spelled { All (IsSpelled (item_length plan.now.form)) window.old.items }
    requires chunk { chunk.old ≡ item_length plan.now.form * plan.now.c }
    requires tail { tail.old ≡ item_length plan.now.form * plan.now.k }
    requires items { length items.old ≡ plan.now.b * plan.now.c + plan.now.k }
    requires order { length order.old ≡ plan.now.b * plan.now.c + plan.now.k }
    ensures answer { ImportAnswer V.faults plan.now keys.now attempt target counts.now window.old.items recorder.old recorder.new result }
    ensures counted { OnOk result (length window.new.items ≡ length window.old.items + sum counts.now) }
    ensures gives { (chunks : ℕ → List Item) (left : List Item) → IsFaithful plan.now recorder.new.log
        → AreStored plan.now keys.now attempt target recorder.old.log chunks left
        → OnOk result (window.new.items ≡ window.old.items ++ held_in (imported_items plan.now chunks left) (C.order_list coins.now attempt target)) }
    ensures unchanged { OnErr result (window.new ≡ window.old) }
    ensures capacity { window.new.capacity ≡ window.old.capacity }
    ensures spelled { All (IsSpelled (item_length plan.now.form)) window.new.items }
    ensures chunk { chunk.new ≡ chunk.old }
    ensures tail { tail.new ≡ tail.old }
{
    if let Err(fault) = fetch_import(
        recorder, plan, keys, attempt, target, counts, chunk, tail, items,
    ) {
        return Err(Halt::Fault(fault));
    }
    coins.order(attempt, target, order);
    match window.import(items, order) {
        Ok(()) => Ok(()),
        Err(_) => Err(Halt::Verdict(Verdict::QueueOverflow(target))),
    }
}

/// Puts an output bucket of so many items, over the first places of the buffers.
fn put_some<V: Device>(
    recorder: &mut Recorder<V>,
    plan: &Plan,
    keys: &Prepared,
    window: &mut Window,
    attempt: u32,
    bucket: u32,
    size: usize,
    out: &mut [Item],
    text: &mut [u8],
    sealed: &mut [u8],
) -> Result<(), Halt>
    requires bucket { bucket < plan.now.b }
    requires ready { recorder.old.plan ≡ Some plan.now }
    requires room { 0 < recorder.old.room }
    requires spelled { All (IsSpelled (item_length plan.now.form)) window.old.items }
    requires size { size ≡ sizes.size plan.now bucket }
    requires out { size ≤ length out.old }
    requires text { item_length plan.now.form * size ≤ length text.old }
    requires sealed { item_length plan.now.form * size + 40 ≤ length sealed.old }
    ensures answer { PutAnswer V.told V.faults V.last_call plan.now keys.now attempt bucket window.old.items window.new.items recorder.old recorder.new result }
    ensures spelled { All (IsSpelled (item_length plan.now.form)) window.new.items }
    ensures capacity { window.new.capacity ≡ window.old.capacity }
{
    let taken = &mut out[..size];
    if window.take(taken).is_err() {
        return Err(Halt::Verdict(Verdict::QueueStarved(bucket)));
    }
    let length = (plan.form().body() as usize + 1) * size;
    let slot = Slot {
        region: Region::Output,
        index: bucket,
    };
    let (text, sealed) = (&mut text[..length], &mut sealed[..length + 40]);
    match store_items(recorder, plan, keys, slot, attempt, taken, text, sealed) {
        Ok(()) => Ok(()),
        Err(fault) => Err(Halt::Fault(fault)),
    }
}
