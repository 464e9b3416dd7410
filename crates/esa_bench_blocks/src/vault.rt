//! Blocks of items: sealed and put to a device in memory, and got back.

ghost use Rattle.std.specs.Prelude.{◌≡◌, ◌*◌, ◌≤◌, IfOk, Some, length};
ghost use Rattle.esa_params.specs.Slots.{IsPlanned, block_length, plain_length};

use anyhow::{Result, ensure};
use esa_device::{Device, MemDevice, Recorder};
use esa_envelope::{Label, Prepared, keys_of, prepare};
use esa_params::{Form, Params, Plan, Slot, check};
use esa_vault::{get_block, put_block};
use std::alloc::{AllocError, Global};

/// The slot of the one tail of a plan with one bucket.
const TAIL: u32 = 2;

/// How many items a block has, how many of them are real, and how often it is put and got.
#[derive(Clone, Copy)]
pub struct Load {
    pub form: Form,
    pub items: u32,
    pub real: u32,
    pub times: u32,
}

/// A block, as text and as it is sealed.
#[derive(Drop)]
struct Block {
    text: Vec<u8>,
    sealed: Vec<u8>,
}

/// Puts a block and gets it again, as often as the load says.
pub fn measure<R: Print + AllocGlobal>(rt: &R, load: &Load) -> Result<()> {
    let plan = plan_of(load)?;
    ensure!(TAIL < plan.slots(), "there is no tail");
    let slot = plan.slot(TAIL);
    ensure!(load.times <= plan.greatest_trace() / 2, "too many times");
    ensure!(load.real <= load.items, "more real items than items");
    let alloc = rt.alloc();
    let mut block = block_of(alloc, &plan, slot, load)?;
    let mut recorder = Recorder::make(alloc, MemDevice::make(Vec::new(alloc), Vec::new(alloc)));
    ensure!(recorder.ready(&plan).is_ok(), "the device isn't laid");
    let keys = prepare(&keys_of(&[7; 32], Label::Block));
    let whole = go_rounds(&mut recorder, &plan, slot, &keys, load, &mut block);
    ensure!(whole, "a block didn't come back");
    println!(rt;
        "a block of {} items came back {} times",
        load.items, load.times
    )?;
    Ok(())
}

/// A small block of each form.
pub fn small<R: Print + AllocGlobal>(rt: &R) -> Result<()> {
    for form in [Form::One, Form::Two] {
        let load = Load {
            form,
            items: 3,
            real: 2,
            times: 1,
        };
        measure(rt, &load)?;
    }
    Ok(())
}

/// A plan with one bucket, whose tail has the items of the load.
fn plan_of(load: &Load) -> Result<Plan> {
    let params = Params {
        b: 1,
        c: 1,
        s: 0,
        k: u64::from(load.items),
        w: 1,
        q: 1,
        workers: 1,
        attempts: 16,
    };
    let Ok(settings) = check(&params) else {
        anyhow::bail!("too many items");
    };
    Ok(Plan::of(settings, 1, load.form))
}

/// The block whose first items are real, each with a body of bytes 5, and whose others are dummies.
fn block_of(alloc: Global, plan: &Plan, slot: Slot, load: &Load) -> Result<Block, AllocError>
    requires { IsPlanned plan.now slot }
    ensures text { IfOk result (λ block. length block.text.items ≡ plain_length plan.now slot.region slot.index) }
    ensures sealed { IfOk result (λ block. length block.sealed.items ≡ block_length plan.now slot) }
{
    let length = plan.block_length(slot) as usize;
    let item = load.form.body() as usize + 1;
    let mut text = vec![in alloc; 0; length - 40]?;
    for place in 0..text.len() {
        if (place / item) < load.real as usize {
            text[place] = if place % item == 0 { 1 } else { 5 };
        }
    }
    let sealed = vec![in alloc; 0; length]?;
    Ok(Block { text, sealed })
}

/// Puts and gets the block so many times, and answers whether each call was done.
fn go_rounds<V: Device>(
    recorder: &mut Recorder<V>,
    plan: &Plan,
    slot: Slot,
    keys: &Prepared,
    load: &Load,
    block: &mut Block,
) -> bool
    requires planned { IsPlanned plan.now slot }
    requires ready { recorder.old.plan ≡ Some plan.now }
    requires room { load.now.times * 2 ≤ recorder.old.room }
    requires text { length block.old.text.items ≡ plain_length plan.now slot.region slot.index }
    requires sealed { length block.old.sealed.items ≡ block_length plan.now slot }
{
    for attempt in 0..load.times {
        let put = put_block(
            recorder,
            plan,
            keys,
            slot,
            attempt,
            &block.text,
            &mut block.sealed,
        );
        let got = get_block(
            recorder,
            plan,
            keys,
            slot,
            attempt,
            load.real,
            &mut block.sealed,
            &mut block.text,
        );
        if put.is_err() || got.is_err() {
            return false;
        }
    }
    true
}
