//! A stash that is a plain list of pairs of target and item, and a table of exchanges that runs it beside the arena.

ghost use Rattle.std.specs.Prelude.{◌≡◌, ◌*◌, ◌^◌, ◌<◌, All, length, IfOk};
ghost use Rattle.esa_stash.specs.Stash.{contents};

use crate::Stash;
use crate::tests::real;
use esa_report::Item;
use std::alloc::{AllocError, Global};
use std::process::Abort;
use std::test::Fail;

/// Pairs of target and item, in the order in which they came.
#[derive(Drop)]
struct Plain {
    chunk: usize,
    room: usize,
    held: Vec<(u32, Item)>,
}

impl Plain {
    /// What leaves in an exchange, or how many would stay.
    fn exchange(
        &mut self,
        alloc: Global,
        handed: &[(u32, Item)],
    ) -> Result<Result<Vec<(u32, Item)>, usize>, AllocError> {
        let mut line = self.held.clone()?;
        line.extend_from_slice(handed)?;
        let mut passed: Vec<(u32, Item)> = Vec::new(alloc);
        let mut leaves = Vec::new(alloc);
        let mut stays = Vec::new(alloc);
        for pair in &line {
            let before = passed.iter().filter(|earlier| earlier.0 == pair.0).count();
            if before < self.chunk {
                leaves.push(*pair)?;
            } else {
                stays.push(*pair)?;
            }
            passed.push(*pair)?;
        }
        if stays.len() > self.room {
            return Ok(Err(stays.len()));
        }
        self.held = stays;
        Ok(Ok(leaves))
    }
}

/// The items of each target's pairs, with dummies up to the length of a chunk.
fn laid_out(
    alloc: Global,
    pairs: &[(u32, Item)],
    targets: u32,
    chunk: usize,
) -> Result<Vec<Item>, AllocError> {
    let mut laid = Vec::new(alloc);
    for target in 0..targets {
        for pair in pairs {
            if pair.0 == target {
                laid.push(pair.1)?;
            }
        }
        for _ in count(pairs, target)..chunk {
            laid.push(Item::dummy())?;
        }
    }
    Ok(laid)
}

fn count(pairs: &[(u32, Item)], target: u32) -> usize {
    pairs.iter().filter(|pair| pair.0 == target).count()
}

/// The next of a row of numbers that look drawn.
fn drawn(seed: u32) -> u32 {
    seed.wrapping_mul(1664525).wrapping_add(1013904223)
}

/// So many targets below a limit.
pub fn drawn_targets(
    alloc: Global,
    mut seed: u32,
    many: u32,
    limit: u32,
) -> Result<Vec<u32>, AllocError>
    requires { 0 < limit }
    ensures { IfOk result (λ targets. All (λ target. target < limit) targets.items) }
{
    let mut targets = Vec::new(alloc);
    for _turn in 0..many {
        seed = drawn(seed);
        targets.push((seed >> 16) % limit)?;
    }
    Ok(targets)
}

/// One exchange with both, which must give the same. Its items have its turn and their place.
fn exchange_both(
    rt: &impl Abort,
    alloc: Global,
    stash: &mut Stash,
    plain: &mut Plain,
    limit: u32,
    chunk: u32,
    turn: u8,
    targets: &[u32],
) -> Result<(), AllocError>
    requires targets { length (contents stash.old).queues ≡ limit }
    requires chunk { stash.old.c ≡ chunk }
    requires below { All (λ target. target < limit) targets.now }
    requires small { limit * chunk < 2 ^ 32 }
    ensures targets { IfOk result (λ _. length (contents stash.new).queues ≡ limit) }
    ensures chunk { IfOk result (λ _. stash.new.c ≡ chunk) }
{
    let mut items = Vec::new(alloc);
    let mut handed = Vec::new(alloc);
    let mut item = real(turn);
    for target in targets {
        item.body[0] = item.body[0].wrapping_add(1);
        items.push(item)?;
        handed.push((*target, item))?;
    }
    let mut chunks = vec![in alloc; real(77); (limit * chunk) as usize]?;
    let mut counts = vec![in alloc; 77; limit as usize]?;
    let mine = stash.exchange(targets, &items, &mut chunks, &mut counts);
    match plain.exchange(alloc, &handed)? {
        Ok(leaves) => {
            assert!(rt; mine.is_ok());
            let laid = laid_out(alloc, &leaves, limit, chunk as usize)?;
            assert!(rt; chunks.as_slice() == laid.as_slice());
            for (target, mine) in counts.iter().enumerate() {
                assert_eq!(rt; *mine as usize, count(&leaves, target as u32));
            }
        }
        Err(total) => {
            assert_eq!(rt;
                mine.map_err(|overflow| overflow.total as usize),
                Err(total)
            );
            assert!(rt; chunks.iter().all(|item| *item == real(77)));
            assert!(rt; counts.iter().all(|count| *count == 77));
        }
    }
    Ok(())
}

/// Exchanges of up to so many items, one after another.
fn run_both(
    rt: &impl Abort,
    alloc: Global,
    limit: u32,
    chunk: u32,
    room: u32,
    most: u32,
) -> Result<(), AllocError>
    requires some { 0 < limit }
    requires small { limit * chunk < 2 ^ 32 }
    requires few { most < 100 }
{
    let mut stash = Stash::make(alloc, limit, chunk, room)?;
    let mut plain = Plain {
        chunk: chunk as usize,
        room: room as usize,
        held: Vec::new(alloc),
    };
    for turn in 0..60u8 {
        let seed = drawn(u32::from(turn));
        let targets = drawn_targets(alloc, seed, (seed >> 8) % (most + 1), limit)?;
        exchange_both(
            rt, alloc, &mut stash, &mut plain, limit, chunk, turn, &targets,
        )?;
        assert_eq!(rt;
            stash.cells().free() as usize + plain.held.len(),
            room as usize
        );
    }
    Ok(())
}

/// Three hundred exchanges, over shapes with no places, no room, one target, and enough of all.
#[test]
fn two_stashes(rt: HostRuntime) -> Result<(), Fail> {
    let alloc = rt.alloc();
    for (limit, chunk, room, most) in [
        (3, 2, 6, 8),
        (1, 3, 4, 5),
        (4, 1, 9, 7),
        (2, 0, 30, 2),
        (5, 2, 0, 12),
    ] {
        run_both(&rt, alloc, limit, chunk, room, most)?;
    }
    Ok(())
}
