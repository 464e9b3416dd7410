//! Forecasts, and a bare loop that appends as many accesses and does one addition for each record.

use anyhow::{Result, bail};
use esa_model::{Predictor, StoredCoins, Turns};
use esa_params::{Access, Form, Op, Params, Plan, Region, check};
use std::alloc::{AllocError, Global};

/// Which shuffle is forecast, with how many attempts, and how often; or the bare loop in its place.
#[derive(Clone, Copy)]
pub struct Load {
    /// 0 for 256 buckets and 16 workers, whose every attempt fails at the last import but one; 1 for 100,000 records in
    /// 32 buckets with 8 workers.
    pub shape: u64,
    pub attempts: u64,
    pub runs: u64,
    /// 1 for the bare loop.
    pub bare: u64,
}

/// Forecasts as often as the load says, or does the bare loop as often, and prints the number of accesses. Behind that of
/// the bare loop stands a sum of all that it wrote, so that none of it can be left out.
pub fn measure(rt: &impl Print, alloc: Global, load: &Load) -> Result<()> {
    if load.bare == 0 {
        let count = forecast(alloc, load)?;
        println!(rt; "{count}")?;
    } else {
        let (count, sum) = append(alloc, load)?;
        println!(rt; "{count} {sum}")?;
    }
    Ok(())
}

/// A forecast at a small size.
pub fn small(rt: &impl Print, alloc: Global) -> Result<()> {
    let load = Load {
        shape: 1,
        attempts: 1,
        runs: 1,
        bare: 0,
    };
    let count = forecast(alloc, &load)?;
    println!(rt; "forecast of 100000 records in 32 buckets has {count} accesses")?;
    Ok(())
}

/// Forecasts as often as the load says, and tells the number of accesses.
fn forecast(alloc: Global, load: &Load) -> Result<usize> {
    let plan = plan_of(load)?;
    let targets = targets_of(alloc, &plan, load.shape)?;
    let Some(coins) = StoredCoins::of(plan, targets) else {
        bail!("the targets are none of the plan");
    };
    let turns = Turns::none(alloc);
    let mut predictor = Predictor::make(alloc, plan)?;
    let mut count = 0;
    for _run in 0..load.runs {
        count = predictor.run(&coins, &turns).accesses().len();
    }
    Ok(count)
}

fn plan_of(load: &Load) -> Result<Plan> {
    let wide = load.shape == 0;
    let params = Params {
        b: if wide { 256 } else { 32 },
        c: if wide { 64 } else { 144 },
        s: if wide { 0 } else { 20_000 },
        k: if wide { 0 } else { 512 },
        w: if wide { 1 } else { 16 },
        q: if wide { 64 } else { 100_000 },
        workers: if wide { 16 } else { 8 },
        attempts: load.attempts,
    };
    let Ok(settings) = check(&params) else {
        bail!("no such number of attempts");
    };
    let records = if wide { 16_384 } else { 100_000 };
    Ok(Plan::of(settings, records, Form::One))
}

/// The targets of each attempt: those of a bucket are the bucket itself, but the last one's are the bucket before it; or
/// all of them in turn.
fn targets_of(alloc: Global, plan: &Plan, shape: u64) -> Result<Vec<u32>, AllocError> {
    let mut targets = Vec::new(alloc);
    for _attempt in 0..plan.attempts() {
        for place in 0..plan.n() {
            targets.push(if shape == 0 {
                (place / 64).min(254)
            } else {
                place % 32
            })?;
        }
    }
    Ok(targets)
}

/// The bare loop: appends as many accesses as a forecast has to a reserved list, and does one addition for each record of
/// each attempt, to the number of places of its target, as often as the load says. Tells how many accesses there are, and
/// a sum of all that was written.
fn append(alloc: Global, load: &Load) -> Result<(usize, u64)> {
    let plan = plan_of(load)?;
    let targets = targets_of(alloc, &plan, load.shape)?;
    let once = Load { runs: 1, ..*load };
    let Ok(count) = u32::try_from(forecast(alloc, &once)?) else {
        bail!("too many accesses");
    };
    let mut accesses = Vec::with_capacity(alloc, count as usize)?;
    let mut arrived = [0u32; 256];
    for _run in 0..load.runs {
        append_all(&mut accesses, count)?;
        count_all(&mut arrived, &targets);
    }
    let numbers = arrived
        .iter()
        .fold(0u64, |sum, number| sum.wrapping_add(u64::from(*number)));
    let sum = accesses.iter().fold(numbers, add_access);
    Ok((accesses.len(), sum))
}

/// Appends so many accesses to an emptied list.
fn append_all(accesses: &mut Vec<Access>, count: u32) -> Result<(), AllocError> {
    accesses.clear();
    for index in 0..count {
        accesses.push(access_at(index))?;
    }
    Ok(())
}

/// Adds each record to the number of its target. There are at most 256 targets.
fn count_all(arrived: &mut [u32; 256], targets: &[u32]) {
    for target in targets {
        let number = &mut arrived[(*target % 256) as usize];
        *number = number.wrapping_add(1);
    }
}

/// A sum with all fields of an access.
fn add_access(sum: u64, access: &Access) -> u64 {
    let fields = u64::from(access.index) ^ u64::from(access.length) ^ u64::from(access.attempt);
    let kind = u64::from(access.op == Op::Write) ^ u64::from(access.region == Region::Mid);
    sum.wrapping_add(fields ^ access.nonce ^ kind)
}

/// Some access.
fn access_at(index: u32) -> Access {
    Access {
        op: Op::Write,
        region: Region::Mid,
        index,
        length: 177,
        nonce: u64::from(index) + 512,
        attempt: 1,
    }
}
