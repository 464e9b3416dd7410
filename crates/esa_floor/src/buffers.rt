//! The buffers of a worker.

ghost use Rattle.std.specs.Prelude.{◌≡◌, ◌≢◌, ℕ, ◌*◌, ◌<◌, ◌≤◌, ◌^◌, ◌↔◌, All, Some, IfOk, IsOk, OnOk, OnErr, length, map, replicate, take};
ghost use Rattle.esa_params.specs.Form.{envelope_length};
ghost use Rattle.esa_params.specs.Sizes.{below, size};
ghost use Rattle.esa_params.specs.Slots.{at, block_length, item_length, nonce_of, plain_length};
ghost use Rattle.esa_envelope.specs.Envelope.{nonce_in};
ghost use Rattle.esa_spec.specs.Traces.{chunk_slot};
ghost use Rattle.esa_stash.specs.Stash.{chunks as chunks_of, count, exchanged, total};
ghost use Rattle.esa_vault.specs.Placed.{IsSpelled};
ghost use Rattle.esa_vault.specs.Seals.{opens};
ghost use Rattle.esa_vault.specs.Traffic.{IsOpenedTo, IsRead, IsWritten};
ghost use Rattle.esa_floor.specs.Keeping.{OpensTo};
ghost use Rattle.esa_floor.specs.Exchanges.{AreOf};
ghost use Rattle.esa_floor.specs.Parts.{count_at};
ghost use Rattle.esa_floor.specs.Private.{AreSealed, blocks_in, item_opened};
ghost use Rattle.esa_floor.specs.Working.{block_for, handed_by};

use crate::exchanger::Exchanger;
use crate::private::{draw_first, exchange_first, open_first, read_first, seal_all};
use esa_device::{Device, Recorder};
use esa_envelope::Prepared;
use esa_params::{Plan, Region, Slot};
use esa_report::Item;
use esa_spec::Coins;
use esa_stash::Overflow;
use esa_vault::{VaultFault, write_block};
use std::alloc::{AllocError, Global};
use std::marker::Model;

/// Room for the envelopes of a bucket, their items and targets, and for its chunks and their blocks.
#[derive(Drop)]
pub(crate) struct Buffers {
    plan: Plan,
    text: Vec<u8>,
    items: Vec<Item>,
    targets: Vec<u32>,
    draw: Vec<u32>,
    sealed: Vec<u8>,
    chunks: Vec<Item>,
    chunk: Vec<u8>,
    blocks: Vec<Vec<u8>>,
}

impl Model for Buffers {
    ghost use Rattle.esa_floor.specs.Private.{blocks_in};
    ghost use Rattle.esa_floor.specs.Working.{AreBuffers, Buffered};

    ghost Value = { Buffered };

    ghost view = { λ b. record { plan = b.plan; text = b.text.items; items = b.items.items; targets = b.targets.items; sealed = b.sealed.items; chunks = b.chunks.items; blocks = blocks_in b.blocks.items } };

    ghost invariant = { λ b. AreBuffers b.plan b.text.items b.items.items b.targets.items b.draw.items b.chunks.items b.chunk.items b.sealed.items (blocks_in b.blocks.items) };
}

impl Buffers {
    /// Empty buffers for a plan.
    pub(crate) fn make(alloc: Global, plan: Plan) -> Result<Buffers, AllocError>
        ensures { IfOk result (λ b. b.plan ≡ plan) }
    {
        let b = plan.b() as usize;
        let c = plan.c() as usize;
        let size = plan.size(0) as usize;
        let form = plan.form();
        let item = form.body() as usize + 1;
        Ok(Buffers {
            plan,
            text: vec![in alloc; 0; size * form.envelope() as usize]?,
            items: vec![in alloc; Item::dummy(); size]?,
            targets: vec![in alloc; 0; size]?,
            draw: vec![in alloc; 0; size + b - 1]?,
            sealed: vec![in alloc; 0; size * form.envelope() as usize + 40]?,
            chunks: vec![in alloc; Item::dummy(); b * c]?,
            chunk: vec![in alloc; 0; item * c]?,
            blocks: rooms(alloc, b, item * c + 40)?,
        })
    }

    /// The plan.
    pub(crate) fn plan(&self) -> Plan
        ensures { result ≡ self.now.plan }
    {
        self.plan
    }

    /// Opens the envelopes of a bucket, and draws their targets in an attempt.
    #[tactic(auto, using(crate::proofs::Fitting::first_is_greatest))]
    pub(crate) fn open<C: Coins>(&mut self, keys: &Prepared, coins: &C, bucket: u32, attempt: u32)
        requires coins { C.plan coins.now ≡ self.old.plan }
        requires bucket { bucket < self.old.plan.b }
        requires attempt { attempt < self.old.plan.attempts }
        ensures items { take (size self.old.plan bucket) self.new.items
            ≡ map (item_opened keys.now (envelope_length self.old.plan.form) self.old.text) (below (size self.old.plan bucket)) }
        ensures targets { take (size self.old.plan bucket) self.new.targets ≡ C.target_list coins.now attempt bucket }
        ensures kept { self.new ≡ record self.old { items = self.new.items; targets = self.new.targets } }
    {
        let size = self.plan.size(bucket) as usize;
        let envelope = self.plan.form().envelope() as usize;
        open_first(keys, envelope, &self.text, &mut self.items, size);
        draw_first(
            coins,
            attempt,
            bucket,
            size,
            &mut self.draw,
            &mut self.targets,
        );
    }

    /// Seals the chunks of a bucket for their slots in an attempt.
    pub(crate) fn seal(&mut self, keys: &Prepared, bucket: u32, attempt: u32)
        requires bucket { bucket < self.old.plan.b }
        requires spelled { All (IsSpelled (item_length self.old.plan.form)) self.old.chunks }
        ensures sealed { AreSealed self.old.plan keys.now bucket attempt self.old.chunks self.new.blocks self.old.plan.b }
        ensures kept { self.new ≡ record self.old { blocks = self.new.blocks } }
    {
        seal_all(
            &self.plan,
            keys,
            bucket,
            attempt,
            &self.chunks,
            &mut self.chunk,
            &mut self.blocks,
        );
    }

    /// Reads the block of a bucket of the input, and opens it to its envelopes.
    #[tactic(auto, using(crate::proofs::Fitting::first_is_greatest))]
    pub(crate) fn read<V: Device>(
        &mut self,
        keys: &Prepared,
        bucket: u32,
        attempt: u32,
        recorder: &mut Recorder<V>,
    ) -> Result<(), VaultFault>
        requires bucket { bucket < self.old.plan.b }
        requires ready { recorder.old.plan ≡ Some self.old.plan }
        requires room { 0 < recorder.old.room }
        ensures read { IsRead V.told V.faults V.last_call self.old.plan (at Region.Input bucket) attempt (opens self.old.plan keys.now (at Region.Input bucket) attempt 0) (take (block_length self.old.plan (at Region.Input bucket)) self.new.sealed) recorder.old recorder.new result }
        ensures opened { IsOpenedTo self.old.plan keys.now (at Region.Input bucket) attempt (take (block_length self.old.plan (at Region.Input bucket)) self.new.sealed) (take (plain_length self.old.plan Region.Input bucket) self.old.text) (take (plain_length self.old.plan Region.Input bucket) self.new.text) result }
        ensures opens { OnOk result (OpensTo self.old.plan keys.now attempt bucket self.new.text recorder.old recorder.new) }
        ensures kept { self.new ≡ record self.old { text = self.new.text; sealed = self.new.sealed } }
    {
        let size = self.plan.size(bucket) as usize * self.plan.form().envelope() as usize;
        let (sealed, text) = (&mut self.sealed, &mut self.text);
        read_first(
            recorder, &self.plan, keys, bucket, attempt, size, sealed, text,
        )
    }

    /// Exchanges the items of a bucket for its chunks.
    #[tactic(auto, using(crate::proofs::Fitting::first_is_greatest))]
    pub(crate) fn exchange(
        &mut self,
        exchanger: &mut Exchanger,
        bucket: u32,
    ) -> Result<(), Overflow>
        requires bucket { bucket < self.old.plan.b }
        requires plan { exchanger.old.plan ≡ self.old.plan }
        requires below { All (λ target. target < exchanger.old.plan.b) (take (size self.old.plan bucket) self.old.targets) }
        ensures fits { IsOk result ↔ (total (exchanged exchanger.old.stash (handed_by self.old bucket)) ≤ exchanger.old.plan.s) }
        ensures plan { exchanger.new.plan ≡ exchanger.old.plan }
        ensures stash { OnOk result (exchanger.new.stash ≡ exchanged exchanger.old.stash (handed_by self.old bucket)) }
        ensures chunks { OnOk result (self.new.chunks ≡ chunks_of exchanger.old.stash (handed_by self.old bucket)) }
        ensures counts { OnOk result ((i : ℕ) → i < exchanger.old.plan.b → count_at exchanger.old.plan.b exchanger.new.counts bucket i ≡ count exchanger.old.stash (handed_by self.old bucket) i) }
        ensures others { OnOk result ((j i : ℕ) → i < exchanger.old.plan.b → j ≢ bucket → count_at exchanger.old.plan.b exchanger.new.counts j i ≡ count_at exchanger.old.plan.b exchanger.old.counts j i) }
        ensures unchanged { OnErr result (exchanger.new ≡ exchanger.old) }
        ensures of { AreOf exchanger.old.plan exchanger.old.stash exchanger.old.counts }
        ensures kept { self.new ≡ record self.old { chunks = self.new.chunks } }
        ensures chunks_unchanged { OnErr result (self.new ≡ self.old) }
        ensures text { length self.old.text ≡ size self.old.plan 0 * envelope_length self.old.plan.form }
    {
        let size = self.plan.size(bucket) as usize;
        exchange_first(
            exchanger,
            bucket,
            size,
            &self.targets,
            &self.items,
            &mut self.chunks,
        )
    }

    /// Writes the block of the chunk of a bucket for a target.
    pub(crate) fn write<V: Device>(
        &self,
        bucket: u32,
        target: u32,
        attempt: u32,
        recorder: &mut Recorder<V>,
    ) -> Result<(), VaultFault>
        requires bucket { bucket < self.now.plan.b }
        requires target { target < self.now.plan.b }
        requires ready { recorder.old.plan ≡ Some self.now.plan }
        requires room { 0 < recorder.old.room }
        requires nonce { nonce_in (block_for self.now target) ≡ nonce_of self.now.plan attempt (chunk_slot self.now.plan bucket target) }
        ensures { IsWritten V.told V.faults V.last_call self.now.plan (chunk_slot self.now.plan bucket target) attempt (block_for self.now target) recorder.old recorder.new result }
    {
        let slot = Slot {
            region: Region::Mid,
            index: bucket * self.plan.b() + target,
        };
        let block = &self.blocks[target as usize];
        write_block(recorder, &self.plan, slot, attempt, block)
    }
}

/// So many buffers of so many bytes each.
fn rooms(alloc: Global, count: usize, length: usize) -> Result<Vec<Vec<u8>>, AllocError>
    requires { count < 2 ^ 32 }
    ensures { IfOk result (λ rooms. blocks_in rooms.items ≡ replicate count (replicate length 0)) }
{
    let mut rooms = Vec::with_capacity(alloc, count)?;
    for _room in 0..count {
        rooms.push(vec![in alloc; 0; length]?)?;
    }
    Ok(rooms)
}
