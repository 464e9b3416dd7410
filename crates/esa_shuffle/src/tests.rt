//! Whole runs over a device in memory. The order in which the records come out, and the accesses, were worked by hand.

ghost use Rattle.std.specs.Prelude.{◌≡◌, length};

use crate::{Ran, run_turns};
use esa_batcher::{Batch, read_batch};
use esa_coins::TableCoins;
use esa_device::{Flip, MemDevice, Recorder};
use esa_envelope::{Keys, Label, keys_of, seal};
use esa_floor::Outcome;
use esa_model::Turns;
use esa_outside::Records;
use esa_params::{Form, Params, Plan, check};
use esa_spec::Verdict;
use std::alloc::Global;
use std::test::Fail;

/// Two buckets of two records each, one worker and one attempt.
const BASE: Params = Params {
    b: 2,
    c: 1,
    s: 2,
    k: 1,
    w: 2,
    q: 4,
    workers: 1,
    attempts: 1,
};

/// The places' targets are 0, 0, 1, 0, and the orders leave all as it is.
const BASE_COINS: &[u8] = br#"{"attempts":[{"targets":[0,0,1,0],"orders":[[0,1,2],[0,1,2]]}]}"#;

/// A second attempt in which the targets are 0, 1, 0, 1.
const TWO_ATTEMPTS: &[u8] =
    br#"{"attempts":[{"targets":[0,0,1,0],"orders":[[0,1,2],[0,1,2]]},{"targets":[0,1,0,1],"orders":[[0,1,2],[0,1,2]]}]}"#;

/// Fills a file with a batch of four envelopes of form One: its header, and then each with its number again and again.
fn fill(outer: &Keys, file: &mut [u8])
    requires { length file.old ≡ 715 }
{
    file[..11].copy_from_slice(b"ESAB\x01\0\0\0\x04\0\xb0");
    for number in 0..4u8 {
        let from = 11 + 176 * usize::from(number);
        let envelope = &mut file[from..from + 176];
        seal(
            outer,
            Label::Outer,
            u64::from(number),
            &[number; 136],
            envelope,
        );
    }
}

/// The batch of these four envelopes.
fn batch(alloc: Global) -> Result<Batch, Fail> {
    let outer = keys_of(&[7; 32], Label::Outer);
    let mut file = vec![in alloc; 0; 715]?;
    fill(&outer, &mut file);
    match read_batch(alloc, &file, 1) {
        Ok(batch) => Ok(batch),
        Err(_) => Err(Fail::from("a batch")),
    }
}

/// A run of these four envelopes over a device whose calls with these numbers fail and whose reads flip these bits.
fn ran(
    alloc: Global,
    params: &Params,
    coins: &[u8],
    fails: Vec<u64>,
    flips: Vec<Flip>,
) -> Result<Ran<MemDevice>, Fail> {
    let mut batch = batch(alloc)?;
    if Records::count(&batch) != 4 || Records::size(&batch) != 176 {
        return Err(Fail::from("four envelopes"));
    }
    let plan = Plan::of(check(params)?, 4, Form::One);
    let Ok(coins) = TableCoins::read(alloc, coins, plan) else {
        return Err(Fail::from("coins"));
    };
    let mut recorder = Recorder::make(alloc, MemDevice::make(fails, flips));
    recorder.ready(&plan)?;
    let outer = keys_of(&[7; 32], Label::Outer);
    let run = keys_of(&[9; 32], Label::Block);
    let turns = Turns::none(alloc);
    match run_turns(
        alloc, plan, outer, run, &coins, &mut batch, recorder, &turns,
    ) {
        Ok(ran) => Ok(ran),
        Err(_) => Err(Fail::from("memory for a run")),
    }
}

/// Nothing fails. The worker takes ten turns, and the shuffle makes all accesses but the two scans.
#[test]
fn base(rt: HostRuntime) -> Result<(), Fail> {
    let alloc = rt.alloc();
    let ran = ran(alloc, &BASE, BASE_COINS, Vec::new(alloc), Vec::new(alloc))?;
    assert_eq!(rt; ran.outcome, Outcome::Shuffled { attempt: 0 });
    assert_eq!(rt; ran.failures.verdicts().len(), 0);
    assert_eq!(rt;
        ran.history.entries(),
        [1, 0, 0, 0, 0, 0, 0, 0, 0, 0, 0, 1].as_slice()
    );
    assert_eq!(rt; ran.recorder.trace().len(), 18);
    Ok(())
}

/// Without a stash the first exchange overflows. In the second attempt nothing waits.
#[test]
fn second_attempt(rt: HostRuntime) -> Result<(), Fail> {
    let alloc = rt.alloc();
    let params = Params {
        s: 0,
        attempts: 2,
        ..BASE
    };
    let ran = ran(
        alloc,
        &params,
        TWO_ATTEMPTS,
        Vec::new(alloc),
        Vec::new(alloc),
    )?;
    assert_eq!(rt; ran.outcome, Outcome::Shuffled { attempt: 1 });
    assert_eq!(rt;
        ran.failures.verdicts(),
        [Verdict::StashOverflow(0)].as_slice()
    );
    assert_eq!(rt;
        ran.history.entries(),
        [1, 0, 0, 0, 1, 0, 0, 0, 0, 0, 0, 0, 0, 0, 0, 1].as_slice()
    );
    assert_eq!(rt; ran.recorder.trace().len(), 19);
    Ok(())
}

/// Without a stash and a second attempt the run overflows.
#[test]
fn overflow(rt: HostRuntime) -> Result<(), Fail> {
    let alloc = rt.alloc();
    let params = Params { s: 0, ..BASE };
    let ran = ran(alloc, &params, BASE_COINS, Vec::new(alloc), Vec::new(alloc))?;
    assert_eq!(rt; ran.outcome, Outcome::Overflow);
    assert_eq!(rt;
        ran.failures.verdicts(),
        [Verdict::StashOverflow(0)].as_slice()
    );
    assert_eq!(rt; ran.history.entries(), [1, 0, 0, 0, 1].as_slice());
    assert_eq!(rt; ran.recorder.trace().len(), 3);
    Ok(())
}

/// The seventh access is the write of the chunk of bucket 1 for target 0, in slot 4. It is that of the ninth turn.
#[test]
fn device_fails_at_seven(rt: HostRuntime) -> Result<(), Fail> {
    let alloc = rt.alloc();
    let fails = vec![in alloc; 7]?;
    let ran = ran(alloc, &BASE, BASE_COINS, fails, Vec::new(alloc))?;
    assert_eq!(rt; ran.outcome, Outcome::DeviceFault(4));
    assert_eq!(rt; ran.failures.verdicts().len(), 0);
    assert_eq!(rt;
        ran.history.entries(),
        [1, 0, 0, 0, 0, 0, 0, 0, 0, 0, 1].as_slice()
    );
    assert_eq!(rt; ran.recorder.trace().len(), 7);
    Ok(())
}

/// The eleventh access is the first of the compression, which reads slot 2.
#[test]
fn flip_at_eleven(rt: HostRuntime) -> Result<(), Fail> {
    let alloc = rt.alloc();
    let flips = vec![in alloc;
        Flip {
            access: 11,
            byte: 50,
            mask: 4
        },
    ]?;
    let ran = ran(alloc, &BASE, BASE_COINS, Vec::new(alloc), flips)?;
    assert_eq!(rt; ran.outcome, Outcome::Tampered(2));
    assert_eq!(rt; ran.recorder.trace().len(), 11);
    Ok(())
}

/// The second access is the write of bucket 1 in the load. No attempt is begun.
#[test]
fn load_fails_at_two(rt: HostRuntime) -> Result<(), Fail> {
    let alloc = rt.alloc();
    let fails = vec![in alloc; 2]?;
    let ran = ran(alloc, &BASE, BASE_COINS, fails, Vec::new(alloc))?;
    assert_eq!(rt; ran.outcome, Outcome::DeviceFault(1));
    assert_eq!(rt; ran.history.entries(), [1].as_slice());
    assert_eq!(rt; ran.recorder.trace().len(), 2);
    Ok(())
}
