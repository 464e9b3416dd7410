//! Whole runs by crews over a device in memory: what is the same whatever the schedule. The counts were worked by hand.

ghost use Rattle.std.specs.Prelude.{◌≡◌, length};

use crate::crew::run_told;
use crate::run_crew;
use esa_batcher::{Batch, read_batch};
use esa_coins::{SeededCoins, TableCoins};
use esa_device::{MemDevice, Recorder};
use esa_envelope::{Keys, Label, keys_of, seal};
use esa_floor::{Outcome, Turn};
use esa_outside::Records;
use esa_params::{Draw, Form, Params, Plan, check};
use esa_shuffle::Ran;
use esa_spec::{Coins, Verdict};
use esa_workers::Gate;
use std::alloc::Global;
use std::marker::Brand;
use std::sync::{Barrier, Wait};
use std::test::Fail;
use std::thread::Threads;

/// Fills a file with a batch of twelve envelopes of form One: its header, and then each with its number again and again.
fn fill(outer: &Keys, file: &mut [u8])
    requires { length file.old ≡ 2123 }
{
    file[..11].copy_from_slice(b"ESAB\x01\0\0\0\x0c\0\xb0");
    for number in 0..12u8 {
        let from = 11 + 176 * usize::from(number);
        let envelope = &mut file[from..from + 176];
        seal(
            outer,
            Label::Outer,
            u64::from(number),
            &[number; 136],
            envelope,
        );
    }
}

/// The batch of these twelve envelopes.
fn batch(alloc: Global) -> Result<Batch, Fail> {
    let outer = keys_of(&[7; 32], Label::Outer);
    let mut file = vec![in alloc; 0; 2123]?;
    fill(&outer, &mut file);
    match read_batch(alloc, &file, 1) {
        Ok(batch) => Ok(batch),
        Err(_) => Err(Fail::from("a batch")),
    }
}

/// A run of these envelopes by a crew, over a device whose calls with these numbers fail.
fn ran<C: Coins + Sync, R: Threads + Wait + Sync>(
    rt: &R,
    alloc: Global,
    plan: Plan,
    coins: &C,
    fails: Vec<u64>,
) -> Result<Ran<MemDevice>, Fail>
    requires { C.plan coins.now ≡ plan }
{
    let mut batch = batch(alloc)?;
    if Records::count(&batch) != plan.n() || Records::size(&batch) != plan.form().envelope() {
        return Err(Fail::from("twelve envelopes"));
    }
    let mut recorder = Recorder::make(alloc, MemDevice::make(fails, Vec::new(alloc)));
    recorder.ready(&plan)?;
    let outer = keys_of(&[7; 32], Label::Outer);
    let run = keys_of(&[9; 32], Label::Block);
    match run_crew(rt, alloc, plan, outer, run, coins, &mut batch, recorder) {
        Ok(ran) => Ok(ran),
        Err(_) => Err(Fail::from("memory for a run")),
    }
}

/// The plan of a run in which no attempt can fail: each chunk has room for all records, and so has the stash.
fn roomy(b: u64, workers: u64) -> Result<Plan, Fail> {
    let params = Params {
        b,
        c: 12,
        s: 12,
        k: 1,
        w: b,
        q: 24,
        workers,
        attempts: 1,
    };
    Ok(Plan::of(check(&params)?, 12, Form::One))
}

/// A run with room for all records, whose targets are drawn from a seed.
fn seeded<R: Threads + Wait + Sync>(
    rt: &R,
    alloc: Global,
    plan: Plan,
    fails: Vec<u64>,
) -> Result<Ran<MemDevice>, Fail> {
    let coins = SeededCoins::make([5; 32], Draw::Single, plan);
    ran(rt, alloc, plan, &coins, fails)
}

/// A crew of four on six buckets, one of sixteen on three, and one worker. For b buckets an attempt makes 2 b² + 5 b accesses.
/// Each bucket takes b + 3 turns, whoever has claimed it, and each worker has one turn that finds none. The owner has two
/// entries.
#[test]
fn crews(rt: HostRuntime) -> Result<(), Fail> {
    let alloc = rt.alloc();
    for (b, workers, accesses, entries) in [(6, 4, 102, 60), (3, 16, 33, 36), (2, 1, 18, 13)] {
        let ran = seeded(&rt, alloc, roomy(b, workers)?, Vec::new(alloc))?;
        assert_eq!(rt;
            ran.outcome,
            Outcome::Shuffled { attempt: 0 },
            "{workers} workers"
        );
        assert_eq!(rt; ran.recorder.trace().len(), accesses, "{workers} workers");
        assert_eq!(rt; ran.history.entries().len(), entries, "{workers} workers");
    }
    Ok(())
}

/// Three workers on two buckets make eighteen accesses. Whichever fails, while the others work or wait, is the last one.
#[test]
fn crew_fails_at_each_access(rt: HostRuntime) -> Result<(), Fail> {
    let alloc = rt.alloc();
    let plan = roomy(2, 3)?;
    for access in 1..19 {
        let ran = seeded(&rt, alloc, plan, vec![in alloc; access]?)?;
        assert!(rt;
            matches!(ran.outcome, Outcome::DeviceFault(_)),
            "access {access}"
        );
        assert_eq!(rt;
            ran.recorder.trace().len() as u64,
            access,
            "access {access}"
        );
    }
    Ok(())
}

/// In the first attempt all six records of bucket 0 have the target 0, and in the second each bucket has three for each.
const TWO_ATTEMPTS: &[u8] =
    br#"{"attempts":[{"targets":[0,0,0,0,0,0,0,1,0,1,0,1],"orders":[[0,1,2,3,4,5,6],[0,1,2,3,4,5,6]]},{"targets":[0,1,0,1,0,1,0,1,0,1,0,1],"orders":[[0,1,2,3,4,5,6],[0,1,2,3,4,5,6]]}]}"#;

/// Without a stash the exchange of bucket 0 overflows, whether it is the first or the second. In the second attempt nothing
/// waits.
#[test]
fn crew_makes_a_second_attempt(rt: HostRuntime) -> Result<(), Fail> {
    let alloc = rt.alloc();
    let params = Params {
        b: 2,
        c: 3,
        s: 0,
        k: 1,
        w: 2,
        q: 24,
        workers: 2,
        attempts: 2,
    };
    let plan = Plan::of(check(&params)?, 12, Form::One);
    let Ok(coins) = TableCoins::read(alloc, TWO_ATTEMPTS, plan) else {
        return Err(Fail::from("coins"));
    };
    let ran = ran(&rt, alloc, plan, &coins, Vec::new(alloc))?;
    assert_eq!(rt; ran.outcome, Outcome::Shuffled { attempt: 1 });
    assert_eq!(rt;
        ran.failures.verdicts(),
        [Verdict::StashOverflow(0)].as_slice()
    );
    Ok(())
}

/// A gate at which a worker that has claimed a bucket waits for another one.
#[derive(Drop)]
struct Meeting<'r, R: Wait> {
    rt: &'r R,
    barrier: Barrier,
}

impl<R: Wait> Gate for Meeting<'_, R> {
    fn pass(&self, number: u32, turn: Turn) {
        let _ = number;
        if let Turn::Claimed(_) = turn {
            let _ = self.barrier.wait(self.rt);
        }
    }
}

/// A run of the twelve envelopes in which two workers meet at each claim.
fn met<C: Coins + Sync, R: Threads + Wait + Sync>(
    rt: &R,
    alloc: Global,
    plan: Plan,
    coins: &C,
) -> Result<Ran<MemDevice>, Fail>
    requires { C.plan coins.now ≡ plan }
{
    let mut batch = batch(alloc)?;
    if Records::count(&batch) != plan.n() || Records::size(&batch) != plan.form().envelope() {
        return Err(Fail::from("twelve envelopes"));
    }
    let device = MemDevice::make(Vec::new(alloc), Vec::new(alloc));
    let mut recorder = Recorder::make(alloc, device);
    recorder.ready(&plan)?;
    let keys = keys_of(&[7; 32], Label::Outer);
    let gate = Meeting {
        rt,
        barrier: Barrier::new(2),
    };
    match run_told::<Brand, MemDevice, C, Meeting<'_, R>, Batch, R>(
        rt, alloc, plan, keys, keys, coins, &mut batch, recorder, &gate,
    ) {
        Ok(ran) => Ok(ran),
        Err(_) => Err(Fail::from("memory for a run")),
    }
}

/// Each of two workers claims one bucket, and goes on only when the other has claimed: nobody waits at the gate inside the
/// turnstile. So each has six turns, with the one that finds no bucket.
#[test]
fn workers_meet_at_the_gate(rt: HostRuntime) -> Result<(), Fail> {
    let plan = roomy(2, 2)?;
    let coins = SeededCoins::make([5; 32], Draw::Single, plan);
    let ran = met(&rt, rt.alloc(), plan, &coins)?;
    assert_eq!(rt; ran.outcome, Outcome::Shuffled { attempt: 0 });
    for number in 0..2 {
        let turns = ran
            .history
            .entries()
            .iter()
            .filter(|entry| **entry == number)
            .count();
        assert_eq!(rt; turns, 6, "worker {number}");
    }
    Ok(())
}
