//! A worker: what it holds of the bucket of its round, and its private work between turns.

ghost use Rattle.std.specs.Prelude.{◌≡◌, ◌≢◌, ℕ, ◌+◌, ◌-◌, ◌*◌, ◌<◌, ◌≤◌, ◌↔◌, Some, None, All, IsTrue, IfOk, IsOk, List, OnOk, OnErr, length, take};
ghost use Rattle.esa_params.specs.Form.{envelope_length};
ghost use Rattle.esa_params.specs.Sizes.{size};
ghost use Rattle.esa_params.specs.Slots.{at, block_length, item_length, plain_length};
ghost use Rattle.esa_spec.specs.Traces.{chunk_slot};
ghost use Rattle.esa_stash.specs.Stash.{chunks as chunks_of, count, exchanged, total};
ghost use Rattle.esa_vault.specs.Placed.{IsSpelled};
ghost use Rattle.esa_vault.specs.Seals.{opens};
ghost use Rattle.esa_vault.specs.Traffic.{IsOpenedTo, IsRead, IsWritten};
ghost use Rattle.esa_floor.specs.Exchanges.{AreOf};
ghost use Rattle.esa_floor.specs.Keeping.{OpensTo};
ghost use Rattle.esa_floor.specs.Parts.{count_at};
ghost use Rattle.esa_floor.specs.Private.{sealed_chunk};
ghost use Rattle.esa_floor.specs.Workers.{IsInRound};
ghost use Rattle.esa_floor.specs.Working.{AreDrawn, AreOpened, IsBegun, IsReady, Prepares, attempt_in, begun_with, block_for, handed_by, passed};

use crate::buffers::Buffers;
use crate::exchanger::Exchanger;
use esa_device::{Device, Recorder};
use esa_envelope::{Keys, Prepared, prepare};
use esa_params::{Plan, Region};
use esa_spec::Coins;
use esa_stash::Overflow;
use esa_vault::VaultFault;
use std::alloc::{AllocError, Global};
use std::marker::Model;

/// What a worker holds of the bucket of its round.
#[derive(Clone, Copy, PartialEq, Eq, Debug)]
pub enum Stage {
    /// The number of the bucket alone, or nothing.
    Empty,
    /// The envelopes, as they were read.
    Envelopes,
    /// The items of the envelopes, and their targets.
    Items,
    /// The chunks.
    Chunks,
    /// The blocks of the chunks.
    Blocks,
}

/// A worker of a run. It has the buffers that its turns and its private work need, and takes its targets from coins.
#[derive(Drop)]
pub struct Worker<'c, C: Coins> {
    coins: &'c C,
    number: u32,
    outer: Prepared,
    run: Prepared,
    attempt: Option<u32>,
    phase: u32,
    bucket: u32,
    stage: Stage,
    buffers: Buffers,
}

impl<'c, C: Coins> Model for Worker<'c, C> {
    ghost use Rattle.std.specs.Prelude.{◌≡◌, ◌<◌};
    ghost use Rattle.esa_floor.specs.Working.{Holds, Working};

    ghost Value = { Working C };

    ghost view = { λ w. record {
      coins = w.coins.now;
      number = w.number;
      outer = w.outer;
      run = w.run;
      attempt = w.attempt;
      phase = w.phase;
      bucket = w.bucket;
      stage = w.stage;
      buffers = w.buffers;
    } };

    ghost invariant = { λ w. (C.plan w.coins.now ≡ w.buffers.plan) × Holds w.outer w.run (C.target_list w.coins.now) w.attempt w.bucket w.buffers w.stage };
}

impl<'c, C: Coins> Worker<'c, C> {
    /// A worker that has begun no attempt.
    pub fn make(
        alloc: Global,
        coins: &'c C,
        plan: Plan,
        number: u32,
        outer: Keys,
        run: Keys,
    ) -> Result<Worker<'c, C>, AllocError>
        requires coins { C.plan coins.now ≡ plan }
        requires number { number < plan.workers }
        ensures coins { IfOk result (λ w. w.coins ≡ coins.now) }
        ensures plan { IfOk result (λ w. w.buffers.plan ≡ plan) }
        ensures number { IfOk result (λ w. w.number ≡ number) }
        ensures outer { IfOk result (λ w. w.outer ≡ outer) }
        ensures run { IfOk result (λ w. w.run ≡ run) }
        ensures attempt { IfOk result (λ w. w.attempt ≡ None) }
        ensures ready { IfOk result (λ w. IsReady w.stage) }
    {
        let buffers = Buffers::make(alloc, plan)?;
        Ok(Worker {
            coins,
            number,
            outer: prepare(&outer),
            run: prepare(&run),
            attempt: None,
            phase: 0,
            bucket: 0,
            stage: Stage::Empty,
            buffers,
        })
    }

    /// Begins an attempt, and holds nothing then.
    pub fn begin(&mut self, attempt: u32)
        requires { attempt < self.old.buffers.plan.attempts }
        ensures { self.new ≡ begun_with self.old attempt }
    {
        self.attempt = Some(attempt);
        self.phase = 0;
        self.bucket = 0;
        self.stage = Stage::Empty;
    }

    /// Does the private work after a turn: opens the envelopes that were read and draws their targets, or seals the chunks.
    pub fn prepare(&mut self)
        ensures ready { IsReady self.new.stage }
        ensures prepared { Prepares (C.target_list self.old.coins) self.old self.new self.old.stage }
        ensures kept { self.new ≡ record self.old { stage = self.new.stage; buffers = record self.old.buffers { items = self.new.buffers.items; targets = self.new.buffers.targets; blocks = self.new.buffers.blocks } } }
        ensures round { (b : ℕ) (h : List ℕ) → IsInRound b h self.old → IsInRound b h self.new }
    {
        let attempt = self.attempt.unwrap_or(0);
        match self.stage {
            Stage::Envelopes => {
                self.buffers
                    .open(&self.outer, self.coins, self.bucket, attempt);
                self.stage = Stage::Items;
            }
            Stage::Chunks => {
                self.buffers.seal(&self.run, self.bucket, attempt);
                self.stage = Stage::Blocks;
            }
            Stage::Empty => {}
            Stage::Items => {}
            Stage::Blocks => {}
        }
    }

    /// Whether nothing is left to prepare.
    pub fn ready(&self) -> bool
        ensures { IsTrue result ↔ IsReady self.now.stage }
    {
        match self.stage {
            Stage::Empty => true,
            Stage::Envelopes => false,
            Stage::Items => true,
            Stage::Chunks => false,
            Stage::Blocks => true,
        }
    }

    /// The attempt that it began last.
    pub fn attempt(&self) -> Option<u32>
        ensures { result ≡ self.now.attempt }
    {
        self.attempt
    }

    /// The number that its turns add.
    pub fn number(&self) -> u32
        ensures { result ≡ self.now.number }
    {
        self.number
    }
    /// The phase of its next turn.
    pub(crate) fn phase(&self) -> u32
        ensures { result ≡ self.now.phase }
    {
        self.phase
    }

    /// The bucket of its round.
    pub(crate) fn bucket(&self) -> u32
        ensures { result ≡ self.now.bucket }
    {
        self.bucket
    }

    /// Begins a round with a bucket, of which it holds nothing yet.
    pub(crate) fn claim(&mut self, bucket: u32)
        ensures { self.new ≡ record self.old { phase = 1; bucket = bucket; stage = Stage.Empty } }
    {
        self.phase = 1;
        self.bucket = bucket;
        self.stage = Stage::Empty;
    }

    /// Passes a turn.
    pub(crate) fn pass(&mut self)
        requires { self.old.phase < self.old.buffers.plan.b + 3 }
        ensures { self.new ≡ passed self.old }
    {
        let round = self.buffers.plan().b() + 3;
        self.phase = (self.phase + 1) % round;
    }

    /// Reads the block of its bucket.
    pub(crate) fn read<V: Device>(&mut self, recorder: &mut Recorder<V>) -> Result<(), VaultFault>
        requires begun { IsBegun self.old.buffers.plan self.old.attempt }
        requires bucket { self.old.bucket < self.old.buffers.plan.b }
        requires ready { recorder.old.plan ≡ Some self.old.buffers.plan }
        requires room { 0 < recorder.old.room }
        ensures read { IsRead V.told V.faults V.last_call self.old.buffers.plan (at Region.Input self.old.bucket) (attempt_in self.old.attempt) (opens self.old.buffers.plan self.old.run (at Region.Input self.old.bucket) (attempt_in self.old.attempt) 0) (take (block_length self.old.buffers.plan (at Region.Input self.old.bucket)) self.new.buffers.sealed) recorder.old recorder.new result }
        ensures opened { IsOpenedTo self.old.buffers.plan self.old.run (at Region.Input self.old.bucket) (attempt_in self.old.attempt) (take (block_length self.old.buffers.plan (at Region.Input self.old.bucket)) self.new.buffers.sealed) (take (plain_length self.old.buffers.plan Region.Input self.old.bucket) self.old.buffers.text) (take (plain_length self.old.buffers.plan Region.Input self.old.bucket) self.new.buffers.text) result }
        ensures opens { OnOk result (OpensTo self.old.buffers.plan self.old.run (attempt_in self.old.attempt) self.old.bucket self.new.buffers.text recorder.old recorder.new) }
        ensures held { OnOk result (self.new ≡ record self.old { phase = 2; stage = Stage.Envelopes; buffers = record self.old.buffers { text = self.new.buffers.text; sealed = self.new.buffers.sealed } }) }
        ensures failed { OnErr result (self.new ≡ record self.old { stage = Stage.Empty; buffers = record self.old.buffers { text = self.new.buffers.text; sealed = self.new.buffers.sealed } }) }
    {
        let attempt = self.attempt.unwrap_or(0);
        self.stage = Stage::Empty;
        self.buffers
            .read(&self.run, self.bucket, attempt, recorder)?;
        self.phase = 2;
        self.stage = Stage::Envelopes;
        Ok(())
    }

    /// Exchanges the items of its bucket for its chunks.
    pub(crate) fn exchange(&mut self, exchanger: &mut Exchanger) -> Result<(), Overflow>
        requires items { self.old.stage ≡ Stage.Items }
        requires plan { exchanger.old.plan ≡ self.old.buffers.plan }
        requires spelled { All (All (IsSpelled (item_length self.old.buffers.plan.form))) exchanger.old.stash.queues }
        ensures fits { IsOk result ↔ (total (exchanged exchanger.old.stash (handed_by self.old.buffers self.old.bucket)) ≤ exchanger.old.plan.s) }
        ensures plan { exchanger.new.plan ≡ exchanger.old.plan }
        ensures stash { OnOk result (exchanger.new.stash ≡ exchanged exchanger.old.stash (handed_by self.old.buffers self.old.bucket)) }
        ensures chunks { OnOk result (self.new.buffers.chunks ≡ chunks_of exchanger.old.stash (handed_by self.old.buffers self.old.bucket)) }
        ensures counts { OnOk result ((i : ℕ) → i < exchanger.old.plan.b → count_at exchanger.old.plan.b exchanger.new.counts self.old.bucket i ≡ count exchanger.old.stash (handed_by self.old.buffers self.old.bucket) i) }
        ensures others { OnOk result ((j i : ℕ) → i < exchanger.old.plan.b → j ≢ self.old.bucket → count_at exchanger.old.plan.b exchanger.new.counts j i ≡ count_at exchanger.old.plan.b exchanger.old.counts j i) }
        ensures unchanged { OnErr result (exchanger.new ≡ exchanger.old) }
        ensures of { AreOf exchanger.old.plan exchanger.old.stash exchanger.old.counts }
        ensures held { OnOk result (self.new ≡ record self.old { phase = 3; stage = Stage.Chunks; buffers = record self.old.buffers { chunks = self.new.buffers.chunks } }) }
        ensures failed { OnErr result (self.new ≡ self.old) }
        ensures drawn { AreDrawn (C.target_list self.old.coins (attempt_in self.old.attempt) self.old.bucket) self.old.buffers self.old.bucket }
        ensures opened { AreOpened self.old.outer self.old.buffers self.old.bucket }
        ensures text { length self.old.buffers.text ≡ size self.old.buffers.plan 0 * envelope_length self.old.buffers.plan.form }
    {
        self.buffers.exchange(exchanger, self.bucket)?;
        self.phase = 3;
        self.stage = Stage::Chunks;
        Ok(())
    }

    /// Writes the chunk of its bucket for the target of its phase.
    pub(crate) fn write<V: Device>(&mut self, recorder: &mut Recorder<V>) -> Result<(), VaultFault>
        requires blocks { self.old.stage ≡ Stage.Blocks }
        requires least { 3 ≤ self.old.phase }
        requires most { self.old.phase < self.old.buffers.plan.b + 3 }
        requires ready { recorder.old.plan ≡ Some self.old.buffers.plan }
        requires room { 0 < recorder.old.room }
        ensures written { IsWritten V.told V.faults V.last_call self.old.buffers.plan (chunk_slot self.old.buffers.plan self.old.bucket (self.old.phase - 3)) (attempt_in self.old.attempt) (block_for self.old.buffers (self.old.phase - 3)) recorder.old recorder.new result }
        ensures sealed { block_for self.old.buffers (self.old.phase - 3) ≡ sealed_chunk self.old.buffers.plan self.old.run self.old.bucket (attempt_in self.old.attempt) self.old.buffers.chunks (self.old.phase - 3) }
        ensures passed { OnOk result (self.new ≡ passed self.old) }
        ensures failed { OnErr result (self.new ≡ self.old) }
    {
        let attempt = self.attempt.unwrap_or(0);
        let round = self.buffers.plan().b() + 3;
        self.buffers
            .write(self.bucket, self.phase - 3, attempt, recorder)?;
        self.phase = (self.phase + 1) % round;
        Ok(())
    }
}
