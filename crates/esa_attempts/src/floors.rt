//! What is seen of a floor, as lines.

use crate::seen::{add_chunks, add_numbers};
use anyhow::{Result, bail};
use esa_device::Device;
use esa_envelope::Keys;
use esa_floor::{Floor, Given, Stop, Told, Turn};
use esa_report::Item;
use std::alloc::Global;

/// The lines of what is seen of a floor: its history, why its turns have stopped, what a worker was told in its last
/// turn, the counts of the chunks, the queues, the accesses, and what the chunks of the attempt at work hold.
pub fn floor_lines<V: Device + Drop, G: Told + Drop>(
    alloc: Global,
    mut floor: Floor<V, G>,
    keys: &Keys,
    told: Option<(u32, Turn)>,
) -> Result<String> {
    let mut out = String::new(alloc);
    add_numbers(&mut out, "history", floor.history())?;
    if let Some(stop) = floor.stop() {
        add_stop(&mut out, stop)?;
    }
    if let Some((worker, turn)) = told {
        add_turn(&mut out, worker, turn)?;
    }
    let counts = counts_of(alloc, &floor)?;
    add_counts(&mut out, floor.plan().b(), &counts)?;
    add_queues(alloc, &mut out, &mut floor)?;
    let attempt = floor.attempt().unwrap_or_default();
    let Given {
        mut recorder,
        history: _,
        outcome: _,
    } = floor.give();
    writeln!(out, "accesses {}", recorder.trace().len())?;
    add_chunks(alloc, &mut out, &mut recorder, keys, attempt, &counts)?;
    Ok(out)
}

/// Adds why turns stopped.
fn add_stop(out: &mut String, stop: Stop) -> Result<()> {
    match stop {
        Stop::StashOverflow(bucket) => writeln!(out, "stopped by the exchange of bucket {bucket}")?,
        Stop::Tampered(number) => writeln!(out, "stopped by a tampered block of slot {number}")?,
        Stop::DeviceFault(number) => writeln!(out, "stopped by a fault at slot {number}")?,
    }
    Ok(())
}

/// Adds what a worker was told.
fn add_turn(out: &mut String, worker: u32, turn: Turn) -> Result<()> {
    write!(out, "worker {worker} is ")?;
    match turn {
        Turn::Stopped(stop) => add_stop(out, stop)?,
        Turn::Done => writeln!(out, "done")?,
        _ => writeln!(out, "at work")?,
    }
    Ok(())
}

/// The counts of the chunks, bucket after bucket.
fn counts_of<V: Device, G: Told>(alloc: Global, floor: &Floor<V, G>) -> Result<Vec<u32>> {
    let b = floor.plan().b();
    let mut counts = Vec::new(alloc);
    for chunk in 0..b * b {
        counts.push(floor.count(chunk / b, chunk % b))?;
    }
    Ok(counts)
}

/// Adds a line for each bucket, with the counts of its chunks.
fn add_counts(out: &mut String, b: u32, counts: &[u32]) -> Result<()> {
    if b == 0 {
        bail!("no buckets");
    }
    for (bucket, row) in counts.chunks_exact(b as usize).enumerate() {
        write!(out, "bucket {bucket} counts")?;
        add_numbers(out, "", row)?;
    }
    Ok(())
}

/// Adds a line for each queue, with the records in it, and empties it.
fn add_queues<V: Device, G: Told>(
    alloc: Global,
    out: &mut String,
    floor: &mut Floor<V, G>,
) -> Result<()> {
    let plan = floor.plan();
    let mut items = vec![in alloc; Item::dummy(); plan.s() as usize]?;
    for target in 0..plan.b() {
        let Ok(count) = floor.spill(target, &mut items) else {
            bail!("a queue that is too long");
        };
        write!(out, "queue {target} holds")?;
        add_numbers(out, "", &places_of(alloc, &items, count)?)?;
    }
    Ok(())
}

/// The numbers of the records whose items these are, of the first so many.
fn places_of(alloc: Global, items: &[Item], count: u32) -> Result<Vec<u32>> {
    let mut places = Vec::new(alloc);
    for item in items.iter().take(count as usize) {
        places.push(u32::from(item.body[0]))?;
    }
    Ok(places)
}
