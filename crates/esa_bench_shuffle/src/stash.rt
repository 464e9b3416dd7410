//! Exchanges with a stash that holds many items.

ghost use Rattle.std.specs.Prelude.{◌≡◌, ◌<◌, All, length, IfOk, OnOk};
ghost use Rattle.esa_stash.specs.Stash.{contents};

use anyhow::{Result, bail, ensure};
use esa_report::{Item, Kind};
use esa_stash::{Overflow, Stash};
use std::alloc::{AllocError, Global};

/// How many targets there are.
const TARGETS: u32 = 32;

/// The items of a chunk.
const CHUNK: u32 = 96;

/// The items of an exchange: some more for each target than leave with its chunk.
const ITEMS: u32 = 3_125;

/// What is done once the stash is filled.
#[derive(Clone, Copy)]
pub enum Then {
    /// Nothing.
    Nothing,
    /// So many exchanges.
    Exchanges(u32),
}

/// Fills a stash with so many items in one exchange, and goes on from there.
pub fn fill<R: Print + AllocGlobal>(rt: &R, size: u64, then: Then) -> Result<()> {
    ensure!(size <= 1_000_000, "too many items");
    let held = size as u32;
    let alloc = rt.alloc();
    let mut stash = Stash::make(alloc, TARGETS, CHUNK, held + 100_000)?;
    exchange(alloc, &mut stash, held, 1)?;
    if let Then::Exchanges(many) = then {
        exchange(alloc, &mut stash, ITEMS, many)?;
    }
    let free = stash.cells().free();
    println!(rt; "a stash filled with {held} items has room for {free} more")?;
    Ok(())
}

/// So many exchanges of so many items.
fn exchange(alloc: Global, stash: &mut Stash, items: u32, many: u32) -> Result<()>
    requires queues { length (contents stash.old).queues ≡ 32 }
    requires chunk { stash.old.c ≡ 96 }
    ensures queues { OnOk result (length (contents stash.new).queues ≡ 32) }
    ensures chunk { OnOk result (stash.new.c ≡ 96) }
{
    let targets = targets_in_turn(alloc, items)?;
    let items = vec![in alloc; real(); items as usize]?;
    let mut chunks = vec![in alloc; Item::dummy(); 3_072]?;
    let mut counts = vec![in alloc; 0; 32]?;
    let done = repeat(
        stash,
        many,
        targets.as_slice(),
        items.as_slice(),
        chunks.as_mut_slice(),
        counts.as_mut_slice(),
    );
    match done {
        Ok(()) => Ok(()),
        Err(_) => bail!("the stash is too small"),
    }
}

/// The targets of so many items: each target in turn.
fn targets_in_turn(alloc: Global, items: u32) -> Result<Vec<u32>, AllocError>
    ensures each { IfOk result (λ targets. length targets.items ≡ items) }
    ensures below { IfOk result (λ targets. All (λ target. target < 32) targets.items) }
{
    let mut targets = Vec::with_capacity(alloc, items as usize)?;
    for item in 0..items {
        targets.push(item % 32)?;
    }
    Ok(targets)
}

/// The same exchange so many times.
fn repeat(
    stash: &mut Stash,
    many: u32,
    targets: &[u32],
    items: &[Item],
    chunks: &mut [Item],
    counts: &mut [u32],
) -> Result<(), Overflow>
    requires queues { length (contents stash.old).queues ≡ 32 }
    requires chunk { stash.old.c ≡ 96 }
    requires target_each { length items.now ≡ length targets.now }
    requires below { All (λ target. target < 32) targets.now }
    requires places { length chunks.old ≡ 3072 }
    requires count_each { length counts.old ≡ 32 }
    ensures queues { OnOk result (length (contents stash.new).queues ≡ 32) }
    ensures chunk { OnOk result (stash.new.c ≡ 96) }
{
    for _turn in 0..many {
        stash.exchange(targets, items, chunks, counts)?;
    }
    Ok(())
}

/// An item that isn't a dummy.
fn real() -> Item {
    Item {
        kind: Kind::Real,
        body: [1; 264],
    }
}
