//! The threshold by crowd over an output in memory, and the sort of as many keys.

ghost use Rattle.std.specs.Prelude.{◌≡◌, ◌*◌, ◌<◌, ◌≤◌, Some, OnOk};

use anyhow::{Result, bail, ensure};
use esa_device::{Device, MemDevice, Recorder};
use esa_envelope::{Keys, Label, keys_of, prepare};
use esa_job::Drops;
use esa_params::{Form, Params, Plan, Region, Slot, check};
use esa_report::crowd_of;
use esa_scans::{Tables, threshold};
use esa_vault::put_block;
use std::alloc::Global;

/// The buckets of the plan.
const BUCKETS: u32 = 32;

/// The length of an item of form One, and of the part of it before its inner envelope.
const ITEM: usize = 137;

const FRONT: usize = 33;

/// How many records there are, in how many crowds, and how often they are scanned.
#[derive(Clone, Copy)]
pub struct Load {
    pub records: u32,
    pub crowds: u32,
    pub times: u32,
}

/// What is done with the records.
#[derive(Clone, Copy)]
pub enum Work {
    /// They are scanned, and those that are kept are forwarded.
    Threshold,
    /// As many keys are sorted.
    Sort,
}

/// What a record is sorted by: its crowd, and its tag.
#[derive(Clone, Copy, PartialEq, Eq, PartialOrd, Ord)]
struct Key {
    crowd: [u8; 32],
    tag: [u8; 32],
}

/// Does the work as often as the load says.
pub fn measure<R: Print + AllocGlobal>(rt: &R, work: Work, load: &Load) -> Result<()> {
    match work {
        Work::Threshold => scan(rt, load),
        Work::Sort => sort(rt, load),
    }
}

/// Puts an output of real records, and forwards what is kept of it.
fn scan<R: Print + AllocGlobal>(rt: &R, load: &Load) -> Result<()> {
    let plan = plan_of(load.records)?;
    let alloc = rt.alloc();
    let mut recorder = Recorder::make(alloc, MemDevice::make(Vec::new(alloc), Vec::new(alloc)));
    ensure!(recorder.ready(&plan).is_ok(), "the device isn't laid");
    let keys = keys_of(&[7; 32], Label::Block);
    put_all(alloc, &mut recorder, &plan, &keys, load.crowds)?;
    let mut tables = Tables::make(alloc, plan)?;
    scan_all(&mut recorder, &plan, &keys, load.times, &mut tables)?;
    println!(rt;
        "of {} records in {} crowds {} are forwarded",
        load.records,
        load.crowds,
        tables.forward().len() / 104
    )?;
    Ok(())
}

/// Three records in two crowds.
pub fn small<R: Print + AllocGlobal>(rt: &R) -> Result<()> {
    let load = Load {
        records: 3,
        crowds: 2,
        times: 1,
    };
    scan(rt, &load)?;
    sort(rt, &load)
}

/// Sorts as many keys as the load has records.
fn sort<R: Print + AllocGlobal>(rt: &R, load: &Load) -> Result<()> {
    let alloc = rt.alloc();
    let mut keys = Vec::with_capacity(alloc, load.records as usize)?;
    for record in 0..load.records {
        keys.push(Key {
            crowd: crowd_at(record, load.crowds),
            tag: crowd_of(&record.to_be_bytes()),
        })?;
    }
    let mut first = 0;
    for _ in 0..load.times {
        let mut sorted = keys.clone()?;
        sorted.sort_unstable();
        first ^= sorted.first().map_or(0, |key| key.crowd[0]);
    }
    println!(rt; "{} sorted keys begin with {first}", load.records)?;
    Ok(())
}

/// The id of a record's crowd: of so many crowds each in turn.
fn crowd_at(record: u32, crowds: u32) -> [u8; 32] {
    let crowd = record.checked_rem(crowds).unwrap_or(0);
    crowd_of(&crowd.to_le_bytes())
}

/// A plan with 32 buckets.
fn plan_of(records: u32) -> Result<Plan> {
    ensure!(
        1 <= records && records <= 262_144,
        "too few or too many records"
    );
    let params = Params {
        b: u64::from(BUCKETS),
        c: 1,
        s: 0,
        k: 1,
        w: 1,
        q: 1,
        workers: 1,
        attempts: 16,
    };
    match check(&params) {
        Ok(settings) => Ok(Plan::of(settings, records, Form::One)),
        Err(_) => bail!("no such plan"),
    }
}

/// Puts each block of the output.
fn put_all<V: Device>(
    alloc: Global,
    recorder: &mut Recorder<V>,
    plan: &Plan,
    keys: &Keys,
    crowds: u32,
) -> Result<()>
    requires ready { recorder.old.plan ≡ Some plan.now }
    ensures ready { recorder.new.plan ≡ Some plan.now }
{
    for bucket in 0..plan.b() {
        ensure!(recorder.room() > 0, "no room");
        put_one(alloc, recorder, plan, keys, crowds, bucket)?;
    }
    Ok(())
}

/// Puts a block of the output.
fn put_one<V: Device>(
    alloc: Global,
    recorder: &mut Recorder<V>,
    plan: &Plan,
    keys: &Keys,
    crowds: u32,
    bucket: u32,
) -> Result<()>
    requires bucket { bucket < plan.now.b }
    requires ready { recorder.old.plan ≡ Some plan.now }
    requires room { 0 < recorder.old.room }
    ensures ready { recorder.new.plan ≡ Some plan.now }
{
    let slot = Slot {
        region: Region::Output,
        index: bucket,
    };
    let length = plan.block_length(slot) as usize;
    let mut text = vec![in alloc; 0; length - 40]?;
    let first = plan.first(bucket);
    for (place, item) in text.chunks_exact_mut(ITEM).enumerate() {
        write_item(item, first.saturating_add(place as u32), crowds);
    }
    let mut sealed = vec![in alloc; 0; length]?;
    let put = put_block(recorder, plan, &prepare(keys), slot, 1, &text, &mut sealed);
    ensure!(put.is_ok(), "a block wasn't put");
    Ok(())
}

/// Writes a real item, whose inner envelope begins with the record's number.
fn write_item(item: &mut [u8], record: u32, crowds: u32) {
    if item.len() == ITEM {
        item[0] = 1;
        item[1..FRONT].copy_from_slice(&crowd_at(record, crowds));
        item[FRONT..FRONT + 4].copy_from_slice(&record.to_be_bytes());
    }
}

/// Forwards what is kept so many times.
fn scan_all<V: Device>(
    recorder: &mut Recorder<V>,
    plan: &Plan,
    keys: &Keys,
    times: u32,
    tables: &mut Tables,
) -> Result<()>
    requires ready { recorder.old.plan ≡ Some plan.now }
    requires tables { tables.old.plan ≡ plan.now }
{
    let drops = Drops::zero();
    for _round in 0..times {
        ensure!(recorder.room() >= 2 * plan.b() as usize, "no room");
        scan_once(recorder, plan, keys, &drops, tables)?;
    }
    Ok(())
}

/// Forwards what is kept.
fn scan_once<V: Device>(
    recorder: &mut Recorder<V>,
    plan: &Plan,
    keys: &Keys,
    drops: &Drops,
    tables: &mut Tables,
) -> Result<()>
    requires ready { recorder.old.plan ≡ Some plan.now }
    requires tables { tables.old.plan ≡ plan.now }
    requires room { 2 * plan.now.b ≤ recorder.old.room }
    ensures ready { OnOk result (recorder.new.plan ≡ Some plan.now) }
    ensures tables { tables.new.plan ≡ plan.now }
{
    match threshold(recorder, plan, keys, 1, &[5; 32], drops, 1, tables) {
        Ok(()) => Ok(()),
        Err(_) => bail!("the output didn't come back"),
    }
}
