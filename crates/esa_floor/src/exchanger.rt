//! The stash of an attempt, and how many items its chunks have.

ghost use Rattle.std.specs.Prelude.{◌≡◌, ◌≢◌, ℕ, ◌*◌, ◌<◌, ◌≤◌, ◌↔◌, All, IfOk, IfErr, IsOk, OnOk, OnErr, length};
ghost use Rattle.esa_stash.specs.Dealing.{chunk_at};
ghost use Rattle.esa_stash.specs.Stash.{chunks as chunks_of, count, empty_stash, exchanged, padded, padded_chunk, queue_at, total, without};
ghost use Rattle.esa_floor.specs.Exchanges.{AreOf};
ghost use Rattle.esa_floor.specs.Parts.{count_at, no_counts};

use esa_params::Plan;
use esa_report::Item;
use esa_stash::{Left, Overflow, Stash};
use std::alloc::{AllocError, Global};
use std::marker::Model;

/// A stash for a plan, and a count for the chunk of each bucket and target.
#[derive(Drop)]
pub(crate) struct Exchanger {
    plan: Plan,
    stash: Stash,
    counts: Vec<u32>,
}

impl Model for Exchanger {
    ghost use Rattle.esa_stash.specs.Stash.{contents};
    ghost use Rattle.esa_floor.specs.Exchanges.{AreOf, Exchanges};

    ghost Value = { Exchanges };

    ghost view = { λ e. record { plan = e.plan; stash = contents e.stash; counts = e.counts.items } };

    ghost invariant = { λ e. AreOf e.plan (contents e.stash) e.counts.items };
}

impl Exchanger {
    /// An empty stash of the plan, and counts of 0.
    pub(crate) fn make(alloc: Global, plan: Plan) -> Result<Exchanger, AllocError>
        ensures { IfOk result (λ e. e ≡ record { plan = plan; stash = empty_stash plan.b plan.c plan.s; counts = no_counts plan.b }) }
    {
        let b = plan.b();
        let stash = Stash::make(alloc, b, plan.c(), plan.s())?;
        let counts = vec![in alloc; 0; b as usize * b as usize]?;
        Ok(Exchanger {
            plan,
            stash,
            counts,
        })
    }

    /// Empties the stash and the counts.
    pub(crate) fn begin(&mut self)
        ensures { self.new ≡ record { plan = self.old.plan; stash = empty_stash self.old.plan.b self.old.plan.c self.old.plan.s; counts = no_counts self.old.plan.b } }
    {
        self.stash.clear();
        self.counts.fill(0);
    }

    /// The plan.
    pub(crate) fn plan(&self) -> Plan
        ensures { result ≡ self.now.plan }
    {
        self.plan
    }

    /// How many items the chunk of a bucket for a target has.
    pub(crate) fn count(&self, bucket: u32, target: u32) -> u32
        requires bucket { bucket < self.now.plan.b }
        requires target { target < self.now.plan.b }
        ensures { result ≡ count_at self.now.plan.b self.now.counts bucket target }
    {
        self.counts[bucket as usize * self.plan.b() as usize + target as usize]
    }

    /// Exchanges the items of a bucket for its chunks, as [`Stash::exchange`] does, and keeps how many items they have.
    pub(crate) fn exchange(
        &mut self,
        bucket: u32,
        targets: &[u32],
        items: &[Item],
        chunks: &mut [Item],
    ) -> Result<(), Overflow>
        requires bucket { bucket < self.old.plan.b }
        requires item_each { length items.now ≡ length targets.now }
        requires below { All (λ target. target < self.old.plan.b) targets.now }
        requires places { length chunks.old ≡ self.old.plan.b * self.old.plan.c }
        ensures fits { IsOk result ↔ (total (exchanged self.old.stash (targets.now, items.now)) ≤ self.old.plan.s) }
        ensures plan { self.new.plan ≡ self.old.plan }
        ensures stash { OnOk result (self.new.stash ≡ exchanged self.old.stash (targets.now, items.now)) }
        ensures chunks { OnOk result (chunks.new ≡ chunks_of self.old.stash (targets.now, items.now)) }
        ensures each { OnOk result ((i : ℕ) → i < self.old.plan.b → chunk_at self.old.plan.c chunks.new i ≡ padded_chunk self.old.stash (targets.now, items.now) i) }
        ensures counts { OnOk result ((i : ℕ) → i < self.old.plan.b → count_at self.old.plan.b self.new.counts bucket i ≡ count self.old.stash (targets.now, items.now) i) }
        ensures others { OnOk result ((j i : ℕ) → i < self.old.plan.b → j ≢ bucket → count_at self.old.plan.b self.new.counts j i ≡ count_at self.old.plan.b self.old.counts j i) }
        ensures unchanged { OnErr result (self.new ≡ self.old) }
        ensures chunks_unchanged { OnErr result (chunks.new ≡ chunks.old) }
        ensures of { AreOf self.old.plan self.old.stash self.old.counts }
    {
        let b = self.plan.b() as usize;
        let from = bucket as usize * b;
        self.stash
            .exchange(targets, items, chunks, &mut self.counts[from..from + b])
    }

    /// Moves a target's queue out, as [`Stash::spill`] does.
    pub(crate) fn spill(&mut self, target: u32, out: &mut [Item]) -> Result<u32, Left>
        requires { target < self.old.plan.b }
        ensures fits { IsOk result ↔ (length (queue_at self.old.stash target) ≤ length out.old) }
        ensures moved { OnOk result (out.new ≡ padded (length out.old) (queue_at self.old.stash target)) }
        ensures count { IfOk result (λ count. count ≡ length (queue_at self.old.stash target)) }
        ensures emptied { OnOk result (self.new ≡ record self.old { stash = without self.old.stash target }) }
        ensures left { IfErr result (λ left. left.held ≡ length (queue_at self.old.stash target)) }
        ensures unchanged { OnErr result (self.new ≡ self.old) }
        ensures out_unchanged { OnErr result (out.new ≡ out.old) }
    {
        self.stash.spill(target, out)
    }
}
