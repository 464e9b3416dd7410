//! Recorders of the devices that a case asks for.

ghost use Rattle.std.specs.Prelude.{◌≡◌, [], None, IfOk, map};
ghost use Rattle.esa_case_parts.specs.Flips.{flip_of};

use esa_case_file::{Case, Flip, Held};
use esa_device::{FileDevice, FixedDevice, Flip as DeviceFlip, MemDevice, Recorder};
use std::alloc::{AllocError, Global};
use std::fs::File as HostFile;
use std::rt::Files;

/// A recorder of a device in memory whose accesses fail and whose bits flip as a case says.
pub fn recorder_for(alloc: Global, case: &Case) -> Result<Recorder<MemDevice>, AllocError>
    ensures trace { IfOk result (λ recorder. recorder.trace ≡ []) }
    ensures fails { IfOk result (λ recorder. recorder.device.fails ≡ case.now.device_fails.items) }
    ensures flips { IfOk result (λ recorder. recorder.device.flips ≡ map flip_of case.now.device_flips.items) }
{
    let fails = Vec::from_slice(alloc, &case.device_fails)?;
    let flips = flips_of(alloc, &case.device_flips)?;
    Ok(Recorder::make(alloc, MemDevice::make(fails, flips)))
}

/// The flips of a device that a case's flips ask for.
fn flips_of(alloc: Global, flips: &[Flip]) -> Result<Vec<DeviceFlip>, AllocError>
    ensures { IfOk result (λ made. made.items ≡ map flip_of flips.now) }
{
    let mut made = Vec::new(alloc);
    for flip in flips {
        made.push(DeviceFlip {
            access: flip.access,
            byte: flip.byte,
            mask: flip.mask,
        })?;
    }
    Ok(made)
}

/// A recorder of a device that holds a block of its own.
pub fn recorder_that_holds(alloc: Global, held: &Held) -> Result<Recorder<FixedDevice>, AllocError>
    ensures trace { IfOk result (λ recorder. recorder.trace ≡ []) }
    ensures slot { IfOk result (λ recorder. recorder.device.slot ≡ held.now.slot) }
    ensures bytes { IfOk result (λ recorder. recorder.device.bytes ≡ held.now.bytes.items) }
{
    let bytes = Vec::from_slice(alloc, &held.bytes)?;
    Ok(Recorder::make(alloc, FixedDevice::make(held.slot, bytes)))
}

/// A recorder of a device in the machine's file of this name.
pub fn recorder_on_disk<R: Files<File = HostFile> + Clone + Drop>(
    rt: &R,
    alloc: Global,
    name: &str,
) -> Result<Recorder<FileDevice<R>>, AllocError>
    ensures trace { IfOk result (λ recorder. recorder.trace ≡ []) }
    ensures unlaid { IfOk result (λ recorder. recorder.device.plan ≡ None) }
{
    let path = String::from_str(alloc, name)?;
    Ok(Recorder::make(alloc, FileDevice::make(rt.clone()?, path)))
}
