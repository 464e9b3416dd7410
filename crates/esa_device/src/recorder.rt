//! A recorder: every access to a device, in order.

ghost use Rattle.std.specs.Prelude.{◌≡◌, ◌+◌, ◌<◌, ◌≤◌, ◌++◌, [], ◌∷◌, ℕ, List, OnOk, OnErr, IsSome, length, map, take, slice_get, slice_set};
ghost use Rattle.esa_params.specs.Slots.{greatest_trace};
ghost use Rattle.esa_bytes.specs.Field.{u64_in};
ghost use Rattle.esa_outside.specs.Cause.{HasCause};
ghost use Rattle.esa_device.specs.Blocks.{HasBlock, zero_blocks, ChangesBlock};
ghost use Rattle.esa_device.specs.Laying.{Counted};
ghost use Rattle.esa_device.specs.Logs.{Carried, IsBacked, carried_by, last_given};
ghost use Rattle.esa_device.specs.Recording.{Names, number_in};

use crate::log::{Carried, after};
use crate::{Device, LayRefused};
use esa_outside::{Failed, Log};
use esa_params::{Access, Op, Plan, Slot};
use std::alloc::Global;
use std::marker::Model;

/// A device, and all accesses that were made of it, in order. It is seen as the device, the list of accesses, the log of
/// what they carried, the plan that it is ready for, how many accesses it has room for, and the bytes of the last read
/// that did not fail.
///
/// An access is added to the list before the device is called, and none is ever taken out. The device is called for
/// the accesses of the list and for nothing else: it counts as many calls as the list is long, after each call of the
/// recorder.
///
/// The log has an entry for each access of the list, in order: the bytes that it gave or took, or that it failed. Where
/// the device tells its blocks, each slot holds what was written there last, and each read gave just that.
#[derive(Drop)]
pub struct Recorder<V: Device> {
    device: V,
    trace: Vec<Access>,
    log: Log<Carried>,
    plan: Option<Plan>,
    block: Vec<u8>,
    kept: usize,
}

impl<V: Device> Model for Recorder<V> {
    ghost use Rattle.std.specs.Prelude.{◌-◌, length, take, vec_len, vec_capacity};
    ghost use Rattle.esa_device.specs.Recording.{Recorded, IsKept};

    ghost Value = { Recorded V };

    ghost view = { λ a. record { device = a.device; trace = a.trace.items; log = a.log.entries; plan = a.plan; room = vec_capacity a.trace - vec_len a.trace; last = take a.kept a.block.items } };

    ghost invariant = { λ a. IsKept a.plan (V.laid a.device) (V.calls a.device) (V.told a.device) a.trace.items a.log.entries (take a.kept a.block.items) a.kept (length a.block.items) };
}

impl<V: Device> Recorder<V> {
    /// A recorder of a device that was not called yet. It is ready for no plan, and has room for no access.
    pub fn make(alloc: Global, device: V) -> Recorder<V>
        requires { V.calls device ≡ 0 }
        ensures { result ≡ record { device = device; trace = []; log = []; plan = None; room = 0; last = [] } }
    {
        Recorder {
            device,
            trace: Vec::new(alloc),
            log: Log::new(),
            plan: None,
            block: Vec::new(alloc),
            kept: 0,
        }
    }

    /// Makes room for the most accesses that a shuffle of the plan makes and for the longest block, and lays the device
    /// for the plan.
    pub fn ready(&mut self, plan: &Plan) -> Result<(), LayRefused>
        requires { self.old.trace ≡ [] }
        ensures ready { OnOk result (self.new.plan ≡ Some plan.now) }
        ensures laid { OnOk result (V.laid self.new.device ≡ Some plan.now) }
        ensures room { OnOk result (greatest_trace plan.now ≤ self.new.room) }
        ensures zeroed { (blocks : List (List ℕ)) → V.told self.old.device ≡ Some blocks → OnOk result (V.told self.new.device ≡ Some (zero_blocks plan.now)) }
        ensures tells { (blocks : List (List ℕ)) → V.told self.old.device ≡ Some blocks → IsSome (V.told self.new.device) }
        ensures silent { V.told self.old.device ≡ None → V.told self.new.device ≡ None }

        // After a refusal it is ready for no plan.
        ensures refused { OnErr result (self.new.plan ≡ None) }
        ensures trace { self.new.trace ≡ [] }
        ensures log { self.new.log ≡ [] }
        ensures counted { V.calls self.new.device ≡ 0 }
        ensures last_call { V.last_call self.new.device ≡ V.last_call self.old.device }
        ensures last { self.new.last ≡ [] }
        ensures cause { Counted (V.faults self.old.device) (V.faults self.new.device) result }
    {
        let alloc = *self.trace.allocator();
        self.plan = None;
        self.kept = 0;
        self.log = Log::new();
        self.trace = Vec::with_capacity(alloc, plan.greatest_trace() as usize)?;
        self.block = vec![in alloc; 0; plan.greatest_block() as usize]?;
        self.device.lay(plan)?;
        self.plan = Some(*plan);
        Ok(())
    }

    /// Reads the block of the access's slot, and keeps its bytes. The access is added, also where the device fails.
    pub fn read(&mut self, access: Access, out: &mut [u8]) -> Result<(), Failed>
        requires named { Names Op.Read self.old.plan access (length out.old) }
        requires room { 0 < self.old.room }
        ensures trace { self.new.trace ≡ self.old.trace ++ access ∷ [] }
        ensures log { self.new.log ≡ self.old.log ++ carried_by access result out.new ∷ [] }
        ensures room { self.old.room ≡ self.new.room + 1 }
        ensures plan { self.new.plan ≡ self.old.plan }
        ensures counted { V.calls self.new.device ≡ length self.new.trace }
        ensures last_call { V.last_call self.new.device ≡ Some (Op.Read, number_in self.old.plan access) }
        ensures bytes { (blocks : List (List ℕ)) → V.told self.old.device ≡ Some blocks → OnOk result (slice_get blocks (number_in self.old.plan access) ≡ Some out.new) }
        ensures told { V.told self.new.device ≡ V.told self.old.device }
        ensures laid { V.laid self.new.device ≡ V.laid self.old.device }

        // The bytes of the last read are kept.
        ensures kept { OnOk result (self.new.last ≡ out.new) }
        ensures failed { OnErr result (self.new.last ≡ self.old.last) }
        ensures cause { HasCause (V.faults self.old.device) (V.faults self.new.device) ⊥ result }
    {
        let number = self.number(access);
        self.trace.push_reserved(access);
        let done = self.device.read(number, out);
        self.log = after(&self.log, access, done, out);
        done?;
        self.kept = keep(&mut self.block, out);
        Ok(())
    }

    /// Writes the block of the access's slot, which begins with the access's nonce. The access is added, also where
    /// the device fails.
    pub fn write(&mut self, access: Access, bytes: &[u8]) -> Result<(), Failed>
        requires named { Names Op.Write self.old.plan access (length bytes.now) }
        requires nonce { u64_in bytes.now 0 ≡ access.nonce }
        requires room { 0 < self.old.room }
        ensures trace { self.new.trace ≡ self.old.trace ++ access ∷ [] }
        ensures log { self.new.log ≡ self.old.log ++ carried_by access result bytes.now ∷ [] }
        ensures room { self.old.room ≡ self.new.room + 1 }
        ensures plan { self.new.plan ≡ self.old.plan }
        ensures counted { V.calls self.new.device ≡ length self.new.trace }
        ensures last_call { V.last_call self.new.device ≡ Some (Op.Write, number_in self.old.plan access) }
        ensures there { (blocks : List (List ℕ)) → V.told self.old.device ≡ Some blocks → number_in self.old.plan access < length blocks }
        ensures written { (blocks : List (List ℕ)) → V.told self.old.device ≡ Some blocks
            → OnOk result (V.told self.new.device ≡ Some (slice_set blocks (number_in self.old.plan access) bytes.now)) }
        ensures failed { (blocks : List (List ℕ)) → V.told self.old.device ≡ Some blocks
            → OnErr result (ChangesBlock blocks (number_in self.old.plan access) (V.told self.new.device)) }
        ensures silent { V.told self.old.device ≡ None → V.told self.new.device ≡ None }
        ensures laid { V.laid self.new.device ≡ V.laid self.old.device }
        ensures last { self.new.last ≡ self.old.last }
        ensures cause { HasCause (V.faults self.old.device) (V.faults self.new.device) ⊥ result }
    {
        let number = self.number(access);
        self.trace.push_reserved(access);
        let done = self.device.write(number, bytes);
        self.log = after(&self.log, access, done, bytes);
        done
    }

    /// The plan that it is ready for.
    pub fn plan(&self) -> Option<Plan>
        ensures { result ≡ self.now.plan }
    {
        self.plan
    }

    /// How many more accesses there is room for.
    pub fn room(&self) -> usize
        ensures { result ≡ self.now.room }
    {
        self.trace.capacity() - self.trace.len()
    }

    /// The accesses that were made, in order.
    pub fn trace(&self) -> &[Access]
        ensures trace { result.now ≡ self.now.trace }
        ensures counted { V.calls self.now.device ≡ length self.now.trace }
    {
        &self.trace
    }

    /// What it keeps of its log: an entry for each access, in order, and the bytes that the last read gave. Over a device
    /// that tells, each slot holds what its latest write took, and the log is faithful. It does nothing when it runs.
    pub fn keeps_its_log(&self)
        ensures accesses { map (λ (entry : Carried). entry.access) self.now.log ≡ self.now.trace }
        ensures backed { IsBacked self.now.plan (V.told self.now.device) self.now.log }
        ensures gave { self.now.last ≡ last_given self.now.log }
    {
        let _ = &self.log;
    }

    /// The bytes of the last read that did not fail.
    pub fn last(&self) -> &[u8]
        ensures { result.now ≡ self.now.last }
    {
        &self.block[..self.kept]
    }

    /// The device's count of faults.
    pub fn faults(&self) -> u64
        ensures { result ≡ V.faults self.now.device }
    {
        self.device.faults()
    }

    /// The number of an access's slot.
    fn number(&self, access: Access) -> u32
        requires { (op : Op) × (n : ℕ) × Names op self.now.plan access n }
        ensures value { result ≡ number_in self.now.plan access }
        ensures block { HasBlock self.now.plan result access.length }
    {
        let plan = self.plan.unwrap();
        plan.number(Slot {
            region: access.region,
            index: access.index,
        })
    }
}

/// Keeps bytes at the front of a room for them, and answers how many they are.
fn keep(room: &mut Vec<u8>, bytes: &[u8]) -> usize
    requires { length bytes.now ≤ length room.old.items }
    ensures number { result ≡ length bytes.now }
    ensures front { take result room.new.items ≡ bytes.now }
    ensures fits { result ≤ length room.new.items }
    ensures length { length room.new.items ≡ length room.old.items }
{
    put_front(room, bytes);
    bytes.len()
}

/// Puts bytes at the front.
fn put_front(room: &mut [u8], bytes: &[u8])
    requires { length bytes.now ≤ length room.old }
    ensures { take (length bytes.now) room.new ≡ bytes.now }
{
    room[..bytes.len()].copy_from_slice(bytes);
}
