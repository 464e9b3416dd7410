//! A device in memory that does something odd at the accesses that a case names.

ghost use Rattle.std.specs.Prelude.{◌≡◌, None, IfOk, length};
ghost use Rattle.esa_device.specs.Blocks.{HasBlock};

use esa_device::{Device, LayRefused, MemDevice};
use esa_outside::Failed;
use esa_params::{Op, Plan};
use std::alloc::{AllocError, Global};
use std::marker::Model;

/// What a device does otherwise at an access.
#[derive(Clone, Copy, PartialEq, Eq, Debug)]
pub enum Oddity {
    /// It fails.
    Fails,
    /// The byte at this place is given, or put there, with its last bit flipped.
    Flips {
        /// The place.
        byte: u32,
    },
    /// A read gives the block of the slot of this number, and a write puts it, if it is as long.
    Gives(u32),
    /// Nothing is read, or put: a read leaves what was in its room, and a write what was in its slot.
    Forgets,
}

/// What a device does otherwise, and at which access. Accesses are counted from 1 on.
#[derive(Clone, Copy, PartialEq, Eq, Debug)]
pub struct At {
    pub access: u64,
    pub oddity: Oddity,
}

/// Blocks in memory, and what is odd about which accesses. It tells nothing.
#[derive(Drop)]
pub struct OddDevice {
    alloc: Global,
    memory: MemDevice,
    plan: Option<Plan>,
    oddities: Vec<At>,
    faults: u64,
    calls: u64,
    last_call: Option<(Op, u32)>,
}

impl Model for OddDevice {
    ghost use Rattle.std.specs.Prelude.{◌≡◌};
    ghost use Rattle.esa_attempts.specs.Odd.{Odd};

    ghost Value = { Odd };

    ghost view = { λ d. record { plan = d.plan; faults = d.faults; calls = d.calls; last_call = d.last_call } };

    ghost invariant = { λ d. d.memory.plan ≡ d.plan };
}

impl OddDevice {
    /// A device that is laid for no plan.
    pub fn make(alloc: Global, oddities: Vec<At>) -> OddDevice
        ensures { result ≡ record { plan = None; faults = 0; calls = 0; last_call = None } }
    {
        OddDevice {
            alloc,
            memory: MemDevice::make(Vec::new(alloc), Vec::new(alloc)),
            plan: None,
            oddities,
            faults: 0,
            calls: 0,
            last_call: None,
        }
    }
}

/// What is odd about an access, if anything is.
fn oddity_at(oddities: &[At], access: u64) -> Option<Oddity> {
    match oddities.iter().find(|at| at.access == access) {
        Some(at) => Some(at.oddity),
        None => None,
    }
}

/// The slot whose block an access gives: another one, where it is odd so and that block is as long.
fn given_slot(plan: Option<Plan>, oddity: Option<Oddity>, slot: u32, length: usize) -> u32
    requires { HasBlock plan slot length }
    ensures { HasBlock plan result length }
{
    match (plan, oddity) {
        (Some(plan), Some(Oddity::Gives(other)))
            if other < plan.slots() && plan.length(other) as usize == length => { other }
        _ => slot,
    }
}

/// Changes a byte of a block, if the access is odd so.
fn flip(oddity: Option<Oddity>, block: &mut [u8])
    ensures { length block.new ≡ length block.old }
{
    if let Some(Oddity::Flips { byte }) = oddity {
        let place = byte as usize;
        if place < block.len() {
            block[place] ^= 1;
        }
    }
}

/// A copy of what a write puts, with a byte changed, if the access is odd so.
fn copy_of(alloc: Global, oddity: Option<Oddity>, bytes: &[u8]) -> Result<Vec<u8>, AllocError>
    ensures { IfOk result (λ copy. length copy.items ≡ length bytes.now) }
{
    let mut copy = Vec::from_slice(alloc, bytes)?;
    flip(oddity, &mut copy);
    Ok(copy)
}

impl OddDevice {
    /// Puts bytes into a slot, in the way that the access is odd.
    fn put(&mut self, oddity: Option<Oddity>, slot: u32, bytes: &[u8]) -> Result<(), Failed>
        requires { HasBlock self.old.plan slot (length bytes.now) }
        ensures { self.new ≡ self.old }
    {
        let Ok(mut copy) = copy_of(self.alloc, oddity, bytes) else {
            return Err(Failed);
        };
        match oddity {
            Some(Oddity::Fails) => return Err(Failed),
            Some(Oddity::Gives(_)) => {
                let from = given_slot(self.plan, oddity, slot, copy.len());
                self.memory.read(from, &mut copy)?;
            }
            _ => {}
        }
        self.memory.write(slot, &copy)
    }
}

impl Device for OddDevice {
    ghost told = { λ _. None };

    ghost laid = { λ device. device.plan };

    ghost faults = { λ device. device.faults };

    ghost calls = { λ device. device.calls };

    ghost last_call = { λ device. device.last_call };

    fn faults(&self) -> u64 {
        self.faults
    }

    fn lay(&mut self, plan: &Plan) -> Result<(), LayRefused> {
        self.plan = None;
        match self.memory.lay(plan) {
            Ok(()) => {
                self.plan = Some(*plan);
                Ok(())
            }
            Err(refused) => {
                if refused == LayRefused::Failed {
                    self.faults = self.faults.saturating_add(1);
                }
                Err(refused)
            }
        }
    }

    fn read(&mut self, slot: u32, out: &mut [u8]) -> Result<(), Failed> {
        self.calls = self.calls.saturating_add(1);
        self.last_call = Some((Op::Read, slot));
        let oddity = oddity_at(&self.oddities, self.calls);
        if oddity == Some(Oddity::Forgets) {
            return Ok(());
        }
        let from = given_slot(self.plan, oddity, slot, out.len());
        let failed = self.memory.read(from, out).is_err();
        if failed || oddity == Some(Oddity::Fails) {
            self.faults = self.faults.saturating_add(1);
            return Err(Failed);
        }
        flip(oddity, out);
        Ok(())
    }

    fn write(&mut self, slot: u32, bytes: &[u8]) -> Result<(), Failed> {
        self.calls = self.calls.saturating_add(1);
        self.last_call = Some((Op::Write, slot));
        let oddity = oddity_at(&self.oddities, self.calls);
        if oddity == Some(Oddity::Forgets) {
            return Ok(());
        }
        let put = self.put(oddity, slot, bytes);
        if put.is_err() {
            self.faults = self.faults.saturating_add(1);
        }
        put
    }

    fn calls(&self) -> u64 {
        self.calls
    }

    fn last_call(&self) -> Option<(Op, u32)> {
        self.last_call
    }
}
