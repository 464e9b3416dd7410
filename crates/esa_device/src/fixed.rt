//! A device that answers the reads of one slot with bytes of its own.

ghost use Rattle.std.specs.Prelude.{◌≡◌, [], None, IsOk, IfErr, OnOk, OnErr, length, slice_set};
ghost use Rattle.esa_outside.specs.Cause.{HasCause};
ghost use Rattle.esa_device.specs.Blocks.{HasBlock, zero_blocks};
ghost use Rattle.esa_device.specs.Counting.{called};
ghost use Rattle.esa_device.specs.Fixed.{given_by};
ghost use Rattle.esa_device.specs.Laying.{Counted};

use crate::{Device, LayRefused, MemDevice};
use esa_outside::Failed;
use esa_params::{Op, Plan};
use std::marker::Model;

/// Blocks in memory, but for one slot, whose reads give other bytes, if they have its length. It never fails but for
/// want of memory in `lay`, and tells nothing.
#[derive(Drop)]
pub struct FixedDevice {
    memory: MemDevice,
    slot: u32,
    bytes: Vec<u8>,
}

impl Model for FixedDevice {
    ghost use Rattle.std.specs.Prelude.{◌≡◌, []};
    ghost use Rattle.esa_device.specs.Fixed.{Fixed};

    ghost Value = { Fixed };

    ghost view = { λ a. record { memory = a.memory; slot = a.slot; bytes = a.bytes.items } };

    ghost invariant = { λ a. (a.memory.fails ≡ []) × (a.memory.flips ≡ []) };
}

impl FixedDevice {
    /// A device that is laid for no plan, and answers each read of the slot with these bytes, if they have its length.
    pub fn make(slot: u32, bytes: Vec<u8>) -> FixedDevice
        ensures memory { result.memory ≡ record { blocks = []; plan = None; fails = []; flips = []; counts = record { faults = 0; calls = 0; last_call = None } } }
        ensures slot { result.slot ≡ slot }
        ensures bytes { result.bytes ≡ bytes.items }
    {
        let alloc = *bytes.allocator();
        FixedDevice {
            memory: MemDevice::make(Vec::new(alloc), Vec::new(alloc)),
            slot,
            bytes,
        }
    }
}

impl Device for FixedDevice {
    ghost told = { λ _. None };

    ghost laid = { λ device. device.memory.plan };

    ghost faults = { λ device. device.memory.counts.faults };

    ghost calls = { λ device. device.memory.counts.calls };

    ghost last_call = { λ device. device.memory.counts.last_call };

    fn faults(&self) -> u64 {
        self.memory.faults()
    }

    fn lay(&mut self, plan: &Plan) -> Result<(), LayRefused>
        ensures laid { OnOk result (self.new ≡ record self.old { memory = record self.old.memory { blocks = zero_blocks plan.now; plan = Some plan.now } }) }
        ensures refused { OnErr result (self.new.memory.plan ≡ None) }
        ensures slot { self.new.slot ≡ self.old.slot }
        ensures bytes { self.new.bytes ≡ self.old.bytes }
        ensures memory { IfErr result (λ e. e ≡ LayRefused.OutOfMemory) }
        ensures counts { self.new.memory.counts ≡ self.old.memory.counts }
        ensures cause { Counted self.old.memory.counts.faults self.new.memory.counts.faults result }
    {
        self.memory.lay(plan)
    }

    fn read(&mut self, slot: u32, out: &mut [u8]) -> Result<(), Failed>
        requires { HasBlock self.old.memory.plan slot (length out.old) }
        ensures ok { IsOk result }
        ensures given { Some out.new ≡ given_by self.old slot (length out.old) }
        ensures kept { self.new ≡ record self.old { memory = record self.old.memory { counts = called self.old.memory.counts Op.Read slot } } }
        ensures cause { HasCause self.old.memory.counts.faults self.new.memory.counts.faults ⊥ result }
    {
        self.memory.read(slot, out)?;
        if slot == self.slot && self.bytes.len() == out.len() {
            out.copy_from_slice(&self.bytes);
        }
        Ok(())
    }

    fn write(&mut self, slot: u32, bytes: &[u8]) -> Result<(), Failed>
        requires { HasBlock self.old.memory.plan slot (length bytes.now) }
        ensures ok { IsOk result }
        ensures written { self.new ≡ record self.old {
          memory = record self.old.memory {
            blocks = slice_set self.old.memory.blocks slot bytes.now;
            counts = called self.old.memory.counts Op.Write slot;
          };
        } }
        ensures cause { HasCause self.old.memory.counts.faults self.new.memory.counts.faults ⊥ result }
    {
        self.memory.write(slot, bytes)
    }

    fn calls(&self) -> u64 {
        self.memory.calls()
    }

    fn last_call(&self) -> Option<(Op, u32)> {
        self.memory.last_call()
    }
}
