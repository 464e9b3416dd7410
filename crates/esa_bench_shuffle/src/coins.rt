//! Coins at the limits of a job: drawn from a seed, or read from a file, and what the libraries alone do for it.

use anyhow::{Result, bail, ensure};
use esa_coins::{Coins, Draw, SeededCoins, TableCoins};
use esa_params::{Form, Params, Plan, check};
use rand::RngExt;
use rand::seq::SliceRandom;
use rand_chacha::ChaCha20Rng;
use rand_core::SeedableRng;
use serde_json::Value;
use std::alloc::{AllocError, Global};
use std::io::Read;
use std::rt::Files;
use std::{fs, str};

/// The seed that is drawn from.
const SEED: [u8; 32] = [7; 32];

/// The coins file that is read, in the folder that the program runs in.
const NAME: &str = "coins.json";

/// The length of the greatest coins file, and of one byte more.
const ROOM: usize = 16_777_217;

/// Who draws.
#[derive(Clone, Copy)]
pub enum Drawn {
    /// The coins of a seed.
    Coins,
    /// The draws of the library, without coins.
    Bare,
}

/// What is done with a coins file.
#[derive(Clone, Copy)]
pub enum Reading {
    /// Its text is read as a value.
    Value,
    /// Its text is read as a value, whose numbers are copied once.
    Copy,
    /// It is read as coins.
    Coins,
}

/// Draws the targets of so many records in 256 buckets, and the orders of 16,384 places each: as much as one attempt
/// may draw.
pub fn draw<R: Print + AllocGlobal>(rt: &R, who: Drawn, draw: Draw, records: u64) -> Result<()> {
    let plan = plan_of(256, 60, 1_024, records)?;
    let sum = match who {
        Drawn::Coins => sum_of_coins(rt.alloc(), &SeededCoins::make(SEED, draw, plan))?,
        Drawn::Bare => sum_of_bare(rt.alloc(), draw, &plan)?,
    };
    println!(rt; "what {records} records draw adds up to {sum:08x}")?;
    Ok(())
}

/// A small draw.
pub fn small<R: Print + AllocGlobal>(rt: &R) -> Result<()> {
    draw(rt, Drawn::Bare, Draw::Single, 3)
}

/// A plan with one attempt.
fn plan_of(b: u64, c: u64, k: u64, records: u64) -> Result<Plan> {
    ensure!(
        1 <= records && records <= 262_144,
        "too few or too many records"
    );
    let params = Params {
        b,
        c,
        s: 0,
        k,
        w: 1,
        q: 1,
        workers: 1,
        attempts: 1,
    };
    match check(&params) {
        Ok(settings) => Ok(Plan::of(settings, records as u32, Form::One)),
        Err(_) => bail!("no such plan"),
    }
}

/// The sum, by exclusive or, of what the coins draw.
fn sum_of_coins(alloc: Global, coins: &SeededCoins) -> Result<u32, AllocError> {
    let mut sum = 0;
    for bucket in 0..coins.plan().b() {
        sum ^= targets_of(alloc, coins, bucket)? ^ order_of(alloc, coins, bucket)?;
    }
    Ok(sum)
}

/// The sum of a bucket's targets.
fn targets_of(alloc: Global, coins: &SeededCoins, bucket: u32) -> Result<u32, AllocError> {
    let plan = coins.plan();
    if bucket >= plan.b() {
        return Ok(0);
    }
    let size = plan.size(bucket) as usize;
    let mut room = vec![in alloc; 0u32; size + plan.b() as usize - 1]?;
    let mut targets = vec![in alloc; 0u32; size]?;
    coins.targets(0, bucket, room.as_mut_slice(), targets.as_mut_slice());
    Ok(sum_of(targets.as_slice()))
}

/// The sum of an order.
fn order_of(alloc: Global, coins: &SeededCoins, target: u32) -> Result<u32, AllocError> {
    let plan = coins.plan();
    if target >= plan.b() || u64::from(plan.b()) * u64::from(plan.c()) > 1_000_000 {
        return Ok(0);
    }
    let places = plan.b() * plan.c() + plan.k();
    let mut order = vec![in alloc; 0u32; places as usize]?;
    coins.order(0, target, order.as_mut_slice());
    Ok(sum_of(order.as_slice()))
}

/// The sum of what the library draws by itself, for the same plan.
fn sum_of_bare(alloc: Global, draw: Draw, plan: &Plan) -> Result<u32, AllocError> {
    let mut sum = 0;
    for bucket in 0..plan.b() {
        let size = plan.size(bucket) as usize;
        sum ^= bare_targets(alloc, draw, bucket, size)? ^ bare_order(alloc, bucket)?;
    }
    Ok(sum)
}

/// The targets of a bucket of so many places, below 256: each by itself, or all by a shuffle.
fn bare_targets(alloc: Global, draw: Draw, bucket: u32, size: usize) -> Result<u32, AllocError> {
    let mut rng = ChaCha20Rng::from_seed(SEED);
    rng.set_stream(u64::from(bucket));
    let mut targets = vec![in alloc; 0u32; size]?;
    match draw {
        Draw::Single => {
            for target in targets.iter_mut() {
                *target = rng.random_range(0..256u32);
            }
        }
        Draw::Separators => {
            let mut entries = vec![in alloc; bucket; size.saturating_add(255)]?;
            entries.as_mut_slice().shuffle(&mut rng);
        }
    }
    Ok(sum_of(targets.as_slice()))
}

/// An order of 16,384 places.
fn bare_order(alloc: Global, target: u32) -> Result<u32, AllocError> {
    let mut rng = ChaCha20Rng::from_seed(SEED);
    rng.set_stream(u64::from(target) + (1 << 16));
    let mut order = vec![in alloc; target; 16_384]?;
    order.as_mut_slice().shuffle(&mut rng);
    Ok(sum_of(order.as_slice()))
}

fn sum_of(numbers: &[u32]) -> u32 {
    let mut sum = 0;
    for number in numbers {
        sum ^= *number;
    }
    sum
}

/// Reads a coins file of so many records, 128 buckets and 22,000 places of an import.
pub fn read<R: Print + Files + AllocGlobal>(rt: &R, what: Reading, records: u64) -> Result<()> {
    let mut bytes = Vec::with_capacity(rt.alloc(), ROOM)?;
    fs::open(rt, NAME)?.read_to_end(&mut bytes)?;
    match what {
        Reading::Value => {
            let _value = value_of(rt.alloc(), bytes.as_slice())?;
        }
        Reading::Copy => {
            let value = value_of(rt.alloc(), bytes.as_slice())?;
            let lists = copied(rt.alloc(), &value)?;
            println!(rt; "{} lists", lists.len())?;
        }
        Reading::Coins => {
            let plan = plan_of(128, 168, 496, records)?;
            if TableCoins::read(rt.alloc(), bytes.as_slice(), plan).is_err() {
                bail!("the coins are refused");
            }
        }
    }
    Ok(())
}

/// The value that a JSON text is.
fn value_of(alloc: Global, bytes: &[u8]) -> Result<Value> {
    let Ok(text) = str::from_utf8(bytes) else {
        bail!("no text");
    };
    match Value::from_str(alloc, text) {
        Ok(value) => Ok(value),
        Err(_) => bail!("no value"),
    }
}

/// The numbers of the first attempt, copied: its targets, and then each order.
fn copied(alloc: Global, value: &Value) -> Result<Vec<Vec<u32>>, AllocError> {
    let mut lists = Vec::new(alloc);
    let Some(attempt) = value.get("attempts").and_then(|attempts| attempts.get(0)) else {
        return Ok(lists);
    };
    if let Some(targets) = attempt.get("targets") {
        lists.push(numbers(alloc, targets)?)?;
    }
    let Some(orders) = attempt.get("orders").and_then(Value::as_array) else {
        return Ok(lists);
    };
    for order in orders {
        lists.push(numbers(alloc, order)?)?;
    }
    Ok(lists)
}

/// The numbers of a list, of which each has 32 bits.
fn numbers(alloc: Global, value: &Value) -> Result<Vec<u32>, AllocError> {
    let Some(values) = value.as_array() else {
        return Ok(Vec::new(alloc));
    };
    let mut numbers = Vec::with_capacity(alloc, values.len())?;
    for value in values {
        if let Some(number) = value.as_u64() {
            numbers.push((number & 0xffff_ffff) as u32)?;
        }
    }
    Ok(numbers)
}
