//! Numbers drawn from a seed, which `tests/draw.py` draws from the published algorithms, and lists read from a file.

use crate::orders::import_places;
use crate::{AnyCoins, Coins, Draw, SeededCoins, TableCoins};
use esa_params::{Form, Params, Plan, check};
use std::process::Abort;
use std::test::Fail;

fn plan_of(b: u64, c: u64, k: u64, attempts: u64, n: u32) -> Result<Plan, Fail> {
    let params = Params {
        b,
        c,
        s: 0,
        k,
        w: 1,
        q: 1,
        workers: 1,
        attempts,
    };
    match check(&params) {
        Ok(settings) if 1 <= n && n <= 262_144 => Ok(Plan::of(settings, n, Form::One)),
        _ => Err(Fail::from("a plan")),
    }
}

/// The coins of the seed whose bytes are 0, 1, 2 and so on.
fn seeded(draw: Draw, plan: Plan) -> SeededCoins {
    let mut seed = [0; 32];
    for place in 0..32 {
        seed[place] = place as u8;
    }
    SeededCoins::make(seed, draw, plan)
}

/// A bucket of an attempt has these targets. Threads may share the coins.
fn has_targets<C: Coins + Sync>(
    rt: &(impl Abort + AllocGlobal),
    coins: &C,
    attempt: u32,
    bucket: u32,
    wanted: &[u32],
) -> Result<(), Fail> {
    let plan = coins.plan();
    assert!(rt; attempt < plan.attempts() && bucket < plan.b());
    let size = plan.size(bucket) as usize;
    let mut room = vec![in rt.alloc(); 7u32; size + plan.b() as usize - 1]?;
    let mut out = vec![in rt.alloc(); 9u32; size]?;
    coins.targets(attempt, bucket, &mut room, &mut out);
    assert!(rt;
        out.as_slice() == wanted,
        "attempt {attempt}, bucket {bucket}"
    );
    Ok(())
}

/// A target of an attempt has this order.
fn has_order<C: Coins + Sync>(
    rt: &(impl Abort + AllocGlobal),
    coins: &C,
    attempt: u32,
    target: u32,
    wanted: &[u32],
) -> Result<(), Fail> {
    let plan = coins.plan();
    assert!(rt; attempt < plan.attempts() && target < plan.b());
    let mut out = vec![in rt.alloc(); 9u32; import_places(&plan) as usize]?;
    coins.order(attempt, target, &mut out);
    assert!(rt;
        out.as_slice() == wanted,
        "attempt {attempt}, target {target}"
    );
    Ok(())
}

/// How targets are drawn, the attempt, the bucket, and its targets, for 22 records in three buckets.
const TARGETS: [(Draw, u32, u32, &[u32]); 10] = [
    (Draw::Single, 0, 0, &[1, 1, 1, 0, 1, 2, 0, 1]),
    (Draw::Single, 0, 1, &[0, 1, 2, 2, 0, 1, 1, 1]),
    (Draw::Single, 0, 2, &[2, 0, 1, 0, 1, 2]),
    (Draw::Single, 1, 0, &[1, 0, 0, 1, 0, 1, 1, 1]),
    (Draw::Single, 1, 2, &[0, 1, 1, 1, 0, 1]),
    (Draw::Separators, 0, 0, &[1, 1, 2, 1, 2, 2, 2, 2]),
    (Draw::Separators, 0, 1, &[2, 2, 2, 2, 2, 1, 2, 0]),
    (Draw::Separators, 0, 2, &[0, 0, 0, 0, 2, 0]),
    (Draw::Separators, 1, 0, &[1, 1, 1, 2, 1, 1, 1, 1]),
    (Draw::Separators, 1, 2, &[1, 1, 1, 1, 0, 1]),
];

#[test]
fn drawn_targets(rt: HostRuntime) -> Result<(), Fail> {
    let plan = plan_of(3, 4, 1, 2, 22)?;
    for row in &TARGETS {
        let (draw, attempt, bucket, wanted) = *row;
        has_targets(&rt, &seeded(draw, plan), attempt, bucket, wanted)?;
    }
    Ok(())
}

/// One bucket has no separators, and a bucket without places has no targets, though there are separators to shuffle.
#[test]
fn separators_at_their_edges(rt: HostRuntime) -> Result<(), Fail> {
    let one = seeded(Draw::Separators, plan_of(1, 4, 0, 1, 4)?);
    has_targets(&rt, &one, 0, 0, &[0, 0, 0, 0])?;
    let empty = seeded(Draw::Separators, plan_of(4, 1, 0, 1, 1)?);
    has_targets(&rt, &empty, 0, 3, &[])
}

/// The attempt, the target, and its order, however targets are drawn.
const ORDERS: [(u32, u32, [u32; 13]); 3] = [
    (0, 0, [3, 1, 11, 7, 9, 8, 4, 12, 5, 2, 6, 0, 10]),
    (0, 1, [2, 4, 9, 7, 6, 12, 8, 5, 10, 0, 11, 1, 3]),
    (1, 2, [8, 11, 5, 0, 12, 9, 2, 6, 4, 10, 1, 3, 7]),
];

#[test]
fn drawn_orders(rt: HostRuntime) -> Result<(), Fail> {
    let plan = plan_of(3, 4, 1, 2, 22)?;
    for row in &ORDERS {
        let (attempt, target, wanted) = *row;
        for draw in [Draw::Single, Draw::Separators] {
            let coins = AnyCoins::Seeded(seeded(draw, plan));
            has_order(&rt, &coins, attempt, target, &wanted)?;
        }
    }
    Ok(())
}

const FILE: &[u8] = br#"{"attempts":[
    {"targets":[0,0,1,0],"orders":[[1,2,0],[0,2,1]]},
    {"targets":[1,0,1,1],"orders":[[2,1,0],[0,1,2]]}]}"#;

/// The attempt, a bucket, its targets, and the order of the target of its number.
const LISTS: [(u32, u32, [u32; 2], [u32; 3]); 4] = [
    (0, 0, [0, 0], [1, 2, 0]),
    (0, 1, [1, 0], [0, 2, 1]),
    (1, 0, [1, 0], [2, 1, 0]),
    (1, 1, [1, 1], [0, 1, 2]),
];

#[test]
fn lists_of_a_coins_file(rt: HostRuntime) -> Result<(), Fail> {
    let coins = match TableCoins::read(rt.alloc(), FILE, plan_of(2, 1, 1, 2, 4)?) {
        Ok(coins) => coins,
        Err(_) => return Err(Fail::from("the file is good")),
    };
    for row in &LISTS {
        let (attempt, bucket, targets, order) = *row;
        has_targets(&rt, &coins, attempt, bucket, &targets)?;
        has_order(&rt, &coins, attempt, bucket, &order)?;
    }
    has_targets(&rt, &AnyCoins::Table(coins), 1, 0, &[1, 0])
}
