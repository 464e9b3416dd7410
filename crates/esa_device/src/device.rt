//! Blocks by the numbers of their slots.

ghost use Rattle.std.specs.Prelude.{◌≡◌, ◌<◌, ℕ, List, Option, OnOk, OnErr, IsSome, length, slice_get, slice_set};
ghost use Rattle.esa_params.specs.Sizes.{Sizes};
ghost use Rattle.esa_params.specs.declared.slot.Op.{Op};
ghost use Rattle.esa_outside.specs.Calls.{up};
ghost use Rattle.esa_outside.specs.Cause.{HasCause};
ghost use Rattle.esa_device.specs.Blocks.{HasBlock, zero_blocks, ChangesBlock};
ghost use Rattle.esa_device.specs.Laying.{Counted};
ghost use Rattle.esa_device.specs.declared.device.LayRefused.TheVariants.{OutOfMemory};

use esa_outside::Failed;
use esa_params::{Op, Plan};
use std::alloc::AllocError;

/// Why a device was not laid.
#[derive(Clone, Copy, PartialEq, Eq, Debug)]
pub enum LayRefused {
    /// The device failed.
    Failed,
    /// There is no memory for its blocks.
    OutOfMemory,
}

impl From<AllocError> for LayRefused {
    ghost from_gives = { λ _ e. e ≡ OutOfMemory };

    fn from(_: AllocError) -> Self {
        LayRefused::OutOfMemory
    }
}

/// An external memory of blocks, which are named by the numbers of their slots in the plan that it is laid for. It
/// may tell what they hold, and then its answers are by what it tells.
///
/// A call fails only where the count of faults rose in that call. A call that does not fail leaves the count. No call
/// changes whether the device tells, and none but `lay` changes for which plan it is laid.
pub trait Device {
    /// What the blocks hold, by the numbers of their slots, if the device tells.
    ghost told: { Self → Option (List (List ℕ)) };

    /// The plan that the device is laid for, if it is laid.
    ghost laid: { Self → Option Sizes };

    /// How many calls failed, or 2^64 - 1 if they were more.
    ghost faults: { Self → ℕ };

    /// How many reads and writes were made, also failed ones, or 2^64 - 1 if they were more.
    ghost calls: { Self → ℕ };

    /// The last read or write that was made, and its slot.
    ghost last_call: { Self → Option (Op × ℕ) };

    /// How many calls failed, or 2^64 - 1 if they were more.
    fn faults(&self) -> u64
        ensures { result ≡ faults self.now };

    /// Gives each slot of the plan a block of its length in the plan, of zero bytes. After a refusal the device is
    /// laid for no plan, and nothing is said of what it holds.
    fn lay(&mut self, plan: &Plan) -> Result<(), LayRefused>
        ensures laid { OnOk result (laid self.new ≡ Some plan.now) }
        ensures zeroed { (blocks : List (List ℕ)) → told self.old ≡ Some blocks → OnOk result (told self.new ≡ Some (zero_blocks plan.now)) }
        ensures refused { OnErr result (laid self.new ≡ None) }
        ensures tells { (blocks : List (List ℕ)) → told self.old ≡ Some blocks → IsSome (told self.new) }
        ensures silent { told self.old ≡ None → told self.new ≡ None }
        ensures calls { calls self.new ≡ calls self.old }
        ensures last_call { last_call self.new ≡ last_call self.old }
        ensures cause { Counted (faults self.old) (faults self.new) result };

    /// Fills `out` with the block of a slot, whose length `out` has. After a failure nothing is said of what `out`
    /// holds.
    fn read(&mut self, slot: u32, out: &mut [u8]) -> Result<(), Failed>
        requires { HasBlock (laid self.old) slot (length out.old) }
        ensures bytes { (blocks : List (List ℕ)) → told self.old ≡ Some blocks → OnOk result (slice_get blocks slot ≡ Some out.new) }
        ensures told { told self.new ≡ told self.old }
        ensures laid { laid self.new ≡ laid self.old }
        ensures calls { calls self.new ≡ up (calls self.old) }
        ensures last_call { last_call self.new ≡ Some (Op.Read, slot) }
        ensures cause { HasCause (faults self.old) (faults self.new) ⊥ result };

    /// Puts bytes in the place of the block of a slot, whose length they have, and leaves every other block as it was.
    fn write(&mut self, slot: u32, bytes: &[u8]) -> Result<(), Failed>
        requires { HasBlock (laid self.old) slot (length bytes.now) }
        ensures there { (blocks : List (List ℕ)) → told self.old ≡ Some blocks → slot < length blocks }
        ensures written { (blocks : List (List ℕ)) → told self.old ≡ Some blocks → OnOk result (told self.new ≡ Some (slice_set blocks slot bytes.now)) }

        // A failed call leaves any bytes in the slot.
        ensures failed { (blocks : List (List ℕ)) → told self.old ≡ Some blocks → OnErr result (ChangesBlock blocks slot (told self.new)) }
        ensures silent { told self.old ≡ None → told self.new ≡ None }
        ensures laid { laid self.new ≡ laid self.old }
        ensures calls { calls self.new ≡ up (calls self.old) }
        ensures last_call { last_call self.new ≡ Some (Op.Write, slot) }
        ensures cause { HasCause (faults self.old) (faults self.new) ⊥ result };

    /// How many reads and writes were made, also failed ones, or 2^64 - 1 if they were more.
    fn calls(&self) -> u64
        ensures { result ≡ calls self.now };

    /// The last read or write that was made, and its slot.
    fn last_call(&self) -> Option<(Op, u32)>
        ensures { result ≡ last_call self.now };
}
