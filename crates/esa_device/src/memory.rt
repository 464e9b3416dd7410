//! A device whose blocks lie in memory.

ghost use Rattle.std.specs.Prelude.{◌≡◌, ◌<◌, ◌↔◌, ℕ, List, [], IfOk, OnOk, OnErr, IsErr, Contains, length, slice_get, slice_set};
ghost use Rattle.std.specs.Option.{option_map};
ghost use Rattle.esa_outside.specs.Calls.{up};
ghost use Rattle.esa_outside.specs.Cause.{HasCause};
ghost use Rattle.esa_device.specs.Blocks.{HasBlock, zero_blocks, ChangesBlock};
ghost use Rattle.esa_device.specs.Counting.{called, faulted};
ghost use Rattle.esa_device.specs.Laying.{Counted};
ghost use Rattle.esa_device.specs.Memory.{contents, told_by, flipped, flipped_by};

use crate::counts::Counts;
use crate::{Device, LayRefused};
use esa_outside::Failed;
use esa_params::{Op, Plan};
use std::alloc::{AllocError, Global};
use std::marker::Model;

/// A change of what a read gives: at this access, which counts reads and writes together from 1 on, `mask` is xored to
/// the byte at the place `byte`, from 0 on. Nothing is changed where the access is a write or there is no such byte.
#[derive(Clone, Copy, PartialEq, Eq, Debug)]
pub struct Flip {
    pub access: u64,
    pub byte: u32,
    pub mask: u8,
}

impl Flip {
    /// Changes what an access gives, if it is the one of the flip.
    fn apply(&self, access: u64, out: &mut [u8])
        ensures { out.new ≡ flipped_by self.now access out.old }
    {
        let place = self.byte as usize;
        if self.access == access && place < out.len() {
            out[place] ^= self.mask;
        }
    }
}

/// Blocks in memory, the calls that are to fail and the bits that are to flip. It tells its blocks where none is.
#[derive(Drop)]
pub struct MemDevice {
    blocks: Vec<Vec<u8>>,
    plan: Option<Plan>,
    fails: Vec<u64>,
    flips: Vec<Flip>,
    counts: Counts,
}

impl Model for MemDevice {
    ghost use Rattle.esa_device.specs.Memory.{InMemory, IsLaidOut, contents};

    ghost Value = { InMemory };

    ghost view = { λ a. record { blocks = contents a.blocks.items; plan = a.plan; fails = a.fails.items; flips = a.flips.items; counts = a.counts } };

    ghost invariant = { λ a. IsLaidOut a.plan (contents a.blocks.items) };
}

impl MemDevice {
    /// A device that is laid for no plan, whose calls with these numbers fail and whose reads flip these bits. Reads
    /// and writes are numbered together from 1 on, and `lay` has the number 0.
    pub fn make(fails: Vec<u64>, flips: Vec<Flip>) -> MemDevice
        ensures { result ≡ record { blocks = []; plan = None; fails = fails.items; flips = flips.items; counts = record { faults = 0; calls = 0; last_call = None } } }
    {
        let alloc = *fails.allocator();
        MemDevice {
            blocks: Vec::new(alloc),
            plan: None,
            fails,
            flips,
            counts: Counts::none(),
        }
    }
}

impl Device for MemDevice {
    ghost told = { λ device. told_by device.flips device.blocks };

    ghost laid = { λ device. device.plan };

    ghost faults = { λ device. device.counts.faults };

    ghost calls = { λ device. device.counts.calls };

    ghost last_call = { λ device. device.counts.last_call };

    fn faults(&self) -> u64 {
        self.counts.faults
    }

    fn lay(&mut self, plan: &Plan) -> Result<(), LayRefused>
        ensures laid { OnOk result (self.new ≡ record self.old { blocks = zero_blocks plan.now; plan = Some plan.now }) }
        ensures refused { OnErr result (self.new.plan ≡ None) }
        ensures fails { self.new.fails ≡ self.old.fails }
        ensures flips { self.new.flips ≡ self.old.flips }

        // It fails exactly where the number 0 is listed.
        ensures listed { (result ≡ Err LayRefused.Failed) ↔ Contains self.old.fails 0 }
        ensures fault { Contains self.old.fails 0 → self.new.counts ≡ faulted self.old.counts }
        ensures no_fault { ¬ Contains self.old.fails 0 → self.new.counts ≡ self.old.counts }
        ensures cause { Counted self.old.counts.faults self.new.counts.faults result }
    {
        let alloc = *self.fails.allocator();
        self.plan = None;
        self.blocks = Vec::new(alloc);
        if self.fails.contains(&0) {
            self.counts.fault();
            return Err(LayRefused::Failed);
        }
        self.blocks = zeroed(alloc, plan)?;
        self.plan = Some(*plan);
        Ok(())
    }

    fn read(&mut self, slot: u32, out: &mut [u8]) -> Result<(), Failed>
        requires { HasBlock self.old.plan slot (length out.old) }
        ensures ok { OnOk result (self.new ≡ record self.old { counts = called self.old.counts Op.Read slot }) }
        ensures err { OnErr result (self.new ≡ record self.old { counts = faulted (called self.old.counts Op.Read slot) }) }
        ensures cause { HasCause self.old.counts.faults self.new.counts.faults ⊥ result }
        ensures flipped { OnOk result (Some out.new ≡ option_map (flipped self.old.flips (up self.old.counts.calls)) (slice_get self.old.blocks slot)) }
        ensures bytes { (blocks : List (List ℕ)) → told_by self.old.flips self.old.blocks ≡ Some blocks → OnOk result (slice_get blocks slot ≡ Some out.new) }

        // It fails exactly where its number is listed.
        ensures listed { IsErr result ↔ Contains self.old.fails (up self.old.counts.calls) }
    {
        self.counts.call(Op::Read, slot);
        if self.fails.contains(&self.counts.calls) {
            self.counts.fault();
            return Err(Failed);
        }
        out.copy_from_slice(&self.blocks[slot as usize]);
        flip_all(&self.flips, self.counts.calls, out);
        Ok(())
    }

    fn write(&mut self, slot: u32, bytes: &[u8]) -> Result<(), Failed>
        requires { HasBlock self.old.plan slot (length bytes.now) }
        ensures ok { OnOk result (self.new ≡ record self.old { blocks = slice_set self.old.blocks slot bytes.now; counts = called self.old.counts Op.Write slot }) }
        ensures err { OnErr result (self.new ≡ record self.old { counts = faulted (called self.old.counts Op.Write slot) }) }
        ensures cause { HasCause self.old.counts.faults self.new.counts.faults ⊥ result }
        ensures there { (blocks : List (List ℕ)) → told_by self.old.flips self.old.blocks ≡ Some blocks → slot < length blocks }
        ensures failed { (blocks : List (List ℕ)) → told_by self.old.flips self.old.blocks ≡ Some blocks
            → OnErr result (ChangesBlock blocks slot (told_by self.new.flips self.new.blocks)) }

        // It fails exactly where its number is listed.
        ensures listed { IsErr result ↔ Contains self.old.fails (up self.old.counts.calls) }
    {
        self.counts.call(Op::Write, slot);
        if self.fails.contains(&self.counts.calls) {
            self.counts.fault();
            return Err(Failed);
        }
        replace(&mut self.blocks[slot as usize], bytes);
        Ok(())
    }

    fn calls(&self) -> u64 {
        self.counts.calls
    }

    fn last_call(&self) -> Option<(Op, u32)> {
        self.counts.last_call
    }
}

/// A block of zero bytes for each slot of a plan.
fn zeroed(alloc: Global, plan: &Plan) -> Result<Vec<Vec<u8>>, AllocError>
    ensures { IfOk result (λ blocks. contents blocks.items ≡ zero_blocks plan.now) }
{
    let mut blocks = Vec::with_capacity(alloc, plan.slots() as usize)?;
    for number in 0..plan.slots() {
        let block = vec![in alloc; 0; plan.length(number) as usize]?;
        blocks.push(block)?;
    }
    Ok(blocks)
}

/// Puts bytes in the place of those of a block.
fn replace(block: &mut Vec<u8>, bytes: &[u8])
    requires { length block.old.items ≡ length bytes.now }
    ensures { block.new.items ≡ bytes.now }
{
    block.copy_from_slice(bytes);
}

/// Changes what an access gives by the flips that name it.
fn flip_all(flips: &[Flip], access: u64, out: &mut [u8])
    ensures { out.new ≡ flipped flips.now access out.old }
{
    for flip in flips {
        flip.apply(access, out);
    }
}
