//! Each device through the recorder, at its own type, and a file of the machine.

ghost use Rattle.std.specs.Prelude.{◌≡◌, [], IfOk};

use crate::{Device, FileDevice, FixedDevice, Flip, LayRefused, MemDevice, Recorder};
use esa_bytes::put_u64;
use esa_params::{Form, Op, Params, Plan, check};
use std::fs;
use std::fs::File;
use std::process::Abort;
use std::rt::Files;
use std::test::Fail;

const BASE: Params = Params {
    b: 2,
    c: 1,
    s: 2,
    k: 1,
    w: 2,
    q: 4,
    workers: 1,
    attempts: 1,
};

/// Four records in two buckets: ten slots, with blocks of 392, 177, 177 and 314 bytes.
fn base() -> Result<Plan, Fail> {
    Ok(Plan::of(check(&BASE)?, 4, Form::One))
}

/// A block of a slot, each of whose bytes is this.
fn block_of(rt: &(impl Abort + AllocGlobal), number: u32, byte: u8) -> Result<Vec<u8>, Fail> {
    let plan = base()?;
    assert!(rt; number < plan.slots());
    Ok(vec![in rt.alloc(); byte; plan.length(number) as usize]?)
}

/// Reads a slot into the block or writes the block, which then begins with the nonce, and answers whether it was done.
fn is_done<V: Device>(
    rt: &impl Abort,
    recorder: &mut Recorder<V>,
    op: Op,
    number: u32,
    block: &mut [u8],
) -> bool {
    let plan = recorder.plan().expect(rt, "the recorder is ready");
    assert!(rt; number < plan.slots());
    assert!(rt; recorder.room() > 0);
    let access = plan.access(0, op, plan.slot(number));
    assert_eq!(rt; block.len(), access.length as usize);
    match op {
        Op::Read => recorder.read(access, block).is_ok(),
        Op::Write => {
            put_u64(block, 0, access.nonce);
            recorder.write(access, block).is_ok()
        }
    }
}

/// What is written to a slot, whose bytes after the nonce are all this one.
fn written<V: Device>(
    rt: &(impl Abort + AllocGlobal),
    recorder: &mut Recorder<V>,
    number: u32,
    byte: u8,
) -> Result<Vec<u8>, Fail> {
    let mut block = block_of(rt, number, byte)?;
    assert!(rt; is_done(rt, recorder, Op::Write, number, &mut block));
    Ok(block)
}

/// A slot gives this block.
fn gives<V: Device>(
    rt: &(impl Abort + AllocGlobal),
    recorder: &mut Recorder<V>,
    number: u32,
    want: &[u8],
) -> Result<(), Fail> {
    let mut block = block_of(rt, number, 0xff)?;
    assert!(rt; is_done(rt, recorder, Op::Read, number, &mut block));
    assert!(rt; block.as_slice() == want, "slot {number}");
    Ok(())
}

/// A recorder goes to another thread where its device does.
fn crossed<V: Device + Send>(recorder: Recorder<V>) -> Recorder<V>
    ensures { result ≡ recorder }
{
    sent(recorder)
}

/// The value, which may go to another thread.
fn sent<T: Send>(value: T) -> T
    ensures { result ≡ value }
{
    value
}

/// A flipped bit changes what is read, and is no fault; a listed access is one.
#[test]
fn in_memory(rt: HostRuntime) -> Result<(), Fail> {
    let alloc = rt.alloc();
    let flip = Flip {
        access: 2,
        byte: 0,
        mask: 128,
    };
    let device = MemDevice::make(vec![in alloc; 3]?, vec![in alloc; flip]?);
    let mut recorder = crossed(Recorder::make(alloc, device));
    recorder.ready(&base()?)?;
    let mut block = written(&rt, &mut recorder, 0, 7)?;
    assert!(rt; !block.is_empty());
    block[0] ^= 128;
    gives(&rt, &mut recorder, 0, &block)?;
    assert!(rt; !is_done(&rt, &mut recorder, Op::Read, 0, &mut block));
    assert_eq!(rt; recorder.faults(), 1);
    Ok(())
}

#[test]
fn with_a_fixed_slot(rt: HostRuntime) -> Result<(), Fail> {
    let fixed = block_of(&rt, 2, 9)?;
    let device = FixedDevice::make(2, fixed.clone()?);
    let mut recorder = crossed(Recorder::make(rt.alloc(), device));
    recorder.ready(&base()?)?;
    let _ = written(&rt, &mut recorder, 2, 5)?;
    gives(&rt, &mut recorder, 2, &fixed)
}

/// A file in the folder that the tests run in.
const NAME: &str = "esa-device-test";

/// A recorder of a device in a file of this name.
fn on_file<R: Files<File = File> + AllocGlobal + Drop>(
    rt: R,
    name: &str,
) -> Result<Recorder<FileDevice<R>>, Fail>
    ensures { IfOk result (λ recorder. recorder.trace ≡ []) }
{
    let alloc = rt.alloc();
    let device = FileDevice::make(rt, String::from_str(alloc, name)?);
    Ok(Recorder::make(alloc, device))
}

/// Writes to each slot other bytes.
fn write_each<V: Device>(
    rt: &(impl Abort + AllocGlobal),
    recorder: &mut Recorder<V>,
) -> Result<Vec<Vec<u8>>, Fail> {
    let mut blocks = Vec::new(rt.alloc());
    for number in 0..10u8 {
        let block = written(rt, recorder, u32::from(number), 17 + number)?;
        blocks.push(block)?;
    }
    Ok(blocks)
}

/// Each slot gives its block of these.
fn give_each<V: Device>(
    rt: &(impl Abort + AllocGlobal),
    recorder: &mut Recorder<V>,
    wants: &[Vec<u8>],
) -> Result<(), Fail> {
    for (number, want) in wants.iter().enumerate() {
        gives(rt, recorder, u32::try_from(number)?, want)?;
    }
    Ok(())
}

/// Each slot gives zero bytes.
fn give_zeros<V: Device>(
    rt: &(impl Abort + AllocGlobal),
    recorder: &mut Recorder<V>,
) -> Result<(), Fail> {
    for number in 0..10 {
        let zeros = block_of(rt, number, 0)?;
        gives(rt, recorder, number, &zeros)?;
    }
    Ok(())
}

#[test]
fn blocks_in_a_file(rt: HostRuntime) -> Result<(), Fail> {
    let mut recorder = on_file(rt.clone()?, NAME)?;
    recorder.ready(&base()?)?;
    let blocks = write_each(&rt, &mut recorder)?;
    give_each(&rt, &mut recorder, &blocks)?;
    fs::remove_file(&rt, NAME)?;
    Ok(())
}

/// Laid anew over what a file held, and laid twice, it has zero bytes.
#[test]
fn laid_anew(rt: HostRuntime) -> Result<(), Fail> {
    let name = "esa-device-test-anew";
    let mut recorder = on_file(rt.clone()?, name)?;
    recorder.ready(&base()?)?;
    let _ = write_each(&rt, &mut recorder)?;
    drop(recorder);
    let mut recorder = on_file(rt.clone()?, name)?;
    recorder.ready(&base()?)?;
    recorder.ready(&base()?)?;
    give_zeros(&rt, &mut recorder)?;
    fs::remove_file(&rt, name)?;
    Ok(())
}

/// While one device is laid over a file another can't be, and the blocks of the first stay; once it is gone, it can.
#[test]
fn laid_by_one_at_a_time(rt: HostRuntime) -> Result<(), Fail> {
    let name = "esa-device-test-shared";
    let mut first = on_file(rt.clone()?, name)?;
    let mut second = on_file(rt.clone()?, name)?;
    first.ready(&base()?)?;
    let blocks = write_each(&rt, &mut first)?;
    assert_eq!(rt; second.ready(&base()?), Err(LayRefused::Failed));
    give_each(&rt, &mut first, &blocks)?;
    drop(first);
    second.ready(&base()?)?;
    give_zeros(&rt, &mut second)?;
    fs::remove_file(&rt, name)?;
    Ok(())
}

#[test]
fn a_folder_in_its_place(rt: HostRuntime) -> Result<(), Fail> {
    let name = "esa-device-test-folder";
    fs::create_dir(&rt, name)?;
    let mut recorder = crossed(on_file(rt.clone()?, name)?);
    assert_eq!(rt; recorder.ready(&base()?), Err(LayRefused::Failed));
    assert_eq!(rt; recorder.faults(), 1);
    fs::remove_dir(&rt, name)?;
    Ok(())
}
