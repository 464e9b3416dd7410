//! Blocks in a file: each block of a plan is written once and read once.

use anyhow::{Result, bail, ensure};
use esa_bytes::put_u64;
use esa_device::{Device, FileDevice, Recorder};
use esa_params::{Form, Op, Params, Plan, check};
use std::fs::{self, File};
use std::rt::Files;

/// The file of the blocks, in the folder that the program runs in.
const NAME: &str = "device.bin";

/// Blocks of 144 items in the middle: 88 slots, and room for 184 accesses.
const PARAMS: Params = Params {
    b: 8,
    c: 144,
    s: 0,
    k: 16,
    w: 1,
    q: 1,
    workers: 1,
    attempts: 1,
};

/// Writes and then reads each block of a plan of a thousand records, prints how many accesses these were, and removes
/// the file.
pub fn write_and_read<R: Print + Files<File = File> + AllocGlobal + Clone + Drop>(
    rt: &R,
) -> Result<()> {
    let Ok(settings) = check(&PARAMS) else {
        bail!("the parameters are past their limits");
    };
    let plan = Plan::of(settings, 1_000, Form::One);
    let path = String::from_str(rt.alloc(), NAME)?;
    let mut recorder = Recorder::make(rt.alloc(), FileDevice::make(rt.clone()?, path));
    ensure!(recorder.ready(&plan).is_ok(), "the device was not laid");
    let mut block = vec![in rt.alloc(); 0; plan.greatest_block() as usize]?;
    access_all(&mut recorder, Op::Write, plan.slots(), &mut block)?;
    access_all(&mut recorder, Op::Read, plan.slots(), &mut block)?;
    println!(rt; "device of {} accesses", recorder.trace().len())?;
    fs::remove_file(rt, NAME)?;
    Ok(())
}

/// Makes an access of each slot.
fn access_all<V: Device>(
    recorder: &mut Recorder<V>,
    op: Op,
    slots: u32,
    block: &mut [u8],
) -> Result<()> {
    for number in 0..slots {
        access(recorder, op, number, block)?;
    }
    Ok(())
}

/// Reads the block of a slot to the front of `block`, or writes that front, with the slot's nonce.
fn access<V: Device>(
    recorder: &mut Recorder<V>,
    op: Op,
    number: u32,
    block: &mut [u8],
) -> Result<()> {
    let Some(plan) = recorder.plan() else {
        bail!("the recorder is not ready");
    };
    ensure!(number < plan.slots(), "there is no such slot");
    ensure!(recorder.room() > 0, "there is no room for an access");
    let access = plan.access(0, op, plan.slot(number));
    let length = access.length as usize;
    ensure!(length <= block.len(), "the block is too short");
    let bytes = &mut block[..length];
    let answer = match op {
        Op::Read => recorder.read(access, bytes),
        Op::Write => {
            put_u64(bytes, 0, access.nonce);
            recorder.write(access, bytes)
        }
    };
    ensure!(answer.is_ok(), "the device failed");
    Ok(())
}
