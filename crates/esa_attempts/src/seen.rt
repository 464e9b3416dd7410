//! What is seen of a run, as lines.

ghost use Rattle.std.specs.Prelude.{◌≡◌, ◌<◌, Some};
ghost use Rattle.esa_params.specs.Slots.{IsPlanned};

use anyhow::{Result, bail, ensure};
use esa_device::{Device, Recorder};
use esa_envelope::{Keys, prepare};
use esa_floor::Outcome;
use esa_params::{Plan, Region, Slot};
use esa_spec::Verdict;
use esa_vault::get_block;
use std::alloc::Global;

/// The length of an item of form One.
const ITEM: usize = 137;

/// Adds a line of a word and numbers.
pub fn add_numbers(out: &mut String, word: &str, numbers: &[u32]) -> Result<()> {
    out.push_str(word)?;
    for number in numbers {
        write!(out, " {number}")?;
    }
    out.push('\n')?;
    Ok(())
}

/// Adds how an attempt ended.
pub fn add_verdict(out: &mut String, attempt: usize, verdict: Verdict) -> Result<()> {
    write!(out, "attempt {attempt} ")?;
    match verdict {
        Verdict::Good => writeln!(out, "good")?,
        Verdict::StashOverflow(bucket) => writeln!(out, "stash-overflow {bucket}")?,
        Verdict::StashLeft(target) => writeln!(out, "stash-left {target}")?,
        Verdict::QueueOverflow(target) => writeln!(out, "queue-overflow {target}")?,
        Verdict::QueueStarved(bucket) => writeln!(out, "queue-starved {bucket}")?,
    }
    Ok(())
}

/// Adds how a run ended.
pub fn add_outcome(out: &mut String, outcome: Outcome) -> Result<()> {
    match outcome {
        Outcome::Shuffled { attempt } => writeln!(out, "attempt {attempt} good")?,
        Outcome::Overflow => writeln!(out, "overflow")?,
        Outcome::Tampered(number) => writeln!(out, "cut by a tampered block of slot {number}")?,
        Outcome::DeviceFault(number) => writeln!(out, "cut by a fault at slot {number}")?,
        Outcome::BatchFailed => writeln!(out, "cut by the batch")?,
    }
    Ok(())
}

/// Adds a line for each output bucket, with the records in it.
pub fn add_outputs<V: Device>(
    alloc: Global,
    out: &mut String,
    recorder: &mut Recorder<V>,
    run: &Keys,
    attempt: u32,
) -> Result<()> {
    let Some(plan) = recorder.plan() else {
        bail!("the recorder isn't ready");
    };
    for bucket in 0..plan.b() {
        ensure!(recorder.room() > 0, "no room for an access");
        let slot = Slot {
            region: Region::Output,
            index: bucket,
        };
        write!(out, "output {bucket}")?;
        add_block(
            alloc,
            out,
            recorder,
            &plan,
            run,
            slot,
            attempt,
            plan.size(bucket),
        )?;
    }
    Ok(())
}

/// Adds a line for each chunk, with the records in it, where these are the counts of the chunks, bucket after bucket.
pub fn add_chunks<V: Device>(
    alloc: Global,
    out: &mut String,
    recorder: &mut Recorder<V>,
    run: &Keys,
    attempt: u32,
    counts: &[u32],
) -> Result<()> {
    let Some(plan) = recorder.plan() else {
        bail!("the recorder isn't ready");
    };
    let b = plan.b();
    for chunk in 0..b * b {
        ensure!(recorder.room() > 0, "no room for an access");
        let slot = Slot {
            region: Region::Mid,
            index: chunk,
        };
        let count = counts.get(chunk as usize).copied().unwrap_or_default();
        write!(out, "chunk {} {}", chunk / b, chunk % b)?;
        add_block(alloc, out, recorder, &plan, run, slot, attempt, count)?;
    }
    Ok(())
}

/// Ends the line of a block with the records in it, if it opens as one with so many.
fn add_block<V: Device>(
    alloc: Global,
    out: &mut String,
    recorder: &mut Recorder<V>,
    plan: &Plan,
    run: &Keys,
    slot: Slot,
    attempt: u32,
    count: u32,
) -> Result<()>
    requires slot { IsPlanned plan.now slot }
    requires ready { recorder.old.plan ≡ Some plan.now }
    requires room { 0 < recorder.old.room }
    ensures ready { recorder.new.plan ≡ recorder.old.plan }
{
    let length = plan.block_length(slot) as usize;
    let mut sealed = vec![in alloc; 0; length]?;
    let mut text = vec![in alloc; 0; length - 40]?;
    if get_block(
        recorder,
        plan,
        &prepare(run),
        slot,
        attempt,
        count,
        &mut sealed,
        &mut text,
    )
    .is_err()
    {
        writeln!(out, " doesn't open")?;
        return Ok(());
    }
    out.push_str(" holds")?;
    add_numbers(out, "", &numbers_in(alloc, &text, count)?)
}

/// The numbers of the records whose items these are, of the first so many.
fn numbers_in(alloc: Global, text: &[u8], count: u32) -> Result<Vec<u32>> {
    let mut numbers = Vec::new(alloc);
    for item in text.chunks_exact(ITEM).take(count as usize) {
        numbers.push(u32::from(item[1]))?;
    }
    Ok(numbers)
}
