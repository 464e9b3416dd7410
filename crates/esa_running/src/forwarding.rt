//! The output of a shuffle is scanned, and what is kept of it is forwarded.

ghost use Rattle.std.specs.Prelude.{◌≡◌, ◌*◌, ◌≤◌, ℕ, List, Some, OnOk, OnErr};
ghost use Rattle.esa_running.specs.Forwarding.{AreJoined, Forwards, BreaksOff};
ghost use Rattle.esa_running.specs.RunOwes.{fault_status};
ghost use Rattle.esa_taking.specs.RunTaken.{IsTaken, run_taken};

use esa_device::{Device, Recorder};
use esa_refusal::{DeviceAt, Status};
use esa_scans::{Tables, threshold};
use esa_taking::RunInput;
use esa_vault::VaultFault;

/// Scans the output of an attempt twice, and forwards what is kept of it. A scan ends early only where the device failed or
/// gave bytes that don't open.
pub(crate) fn forward_output<V: Device>(
    recorder: &mut Recorder<V>,
    input: &RunInput,
    attempt: u32,
    tables: &mut Tables,
) -> Result<(), VaultFault>
    requires taken { IsTaken input.now }
    requires tables { tables.old.plan ≡ input.now.plan }
    requires ready { recorder.old.plan ≡ Some input.now.plan }
    requires room { 2 * input.now.plan.b ≤ recorder.old.room }
    ensures forwarded { OnOk result ((envelopes : List (List ℕ)) × Forwards V.told V.faults (run_taken input.now) attempt recorder.old recorder.new envelopes
        × AreJoined (run_taken input.now) envelopes tables.new.forward) }
    ensures broken { OnErr result (BreaksOff V.told V.faults (run_taken input.now) attempt recorder.old recorder.new result) }
{
    threshold(
        recorder,
        &input.plan,
        &input.block_keys(),
        attempt,
        &input.drop_key(),
        &input.drops,
        input.job.t(),
        tables,
    )
}

/// The status of a shuffle that ends with a block that wasn't got.
pub(crate) fn status_of_fault(fault: VaultFault) -> Status
    ensures { result ≡ fault_status fault }
{
    match fault {
        VaultFault::Device(slot) => Status::DeviceFault(DeviceAt::Slot(slot)),
        VaultFault::Tampered(slot) => Status::Tampered(slot),
    }
}
