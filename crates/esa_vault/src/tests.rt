//! A block that was made outside, and blocks that come back from a device or don't.

ghost use Rattle.esa_params.specs.Slots.{IsPlanned};

use super::*;
use esa_bytes::hex_into;
use esa_device::{Flip, MemDevice, Recorder};
use esa_envelope::{Keys, Label, keys_of, prepare};
use esa_params::{Form, Params, Plan, Slot, check};
use std::alloc::{AllocError, Global};
use std::process::Abort;
use std::test::Fail;

/// Two buckets of two records each, with chunks and tails of two items.
const SMALL: Params = Params {
    b: 2,
    c: 2,
    s: 2,
    k: 2,
    w: 2,
    q: 4,
    workers: 1,
    attempts: 2,
};

fn small(form: Form) -> Result<Plan, Fail> {
    Ok(Plan::of(check(&SMALL)?, 4, form))
}

/// The block keys of the master 00, 01, .. 1f.
fn run_keys() -> Keys {
    let mut master = [0; 32];
    for place in 0..32u8 {
        master[place as usize] = place;
    }
    keys_of(&master, Label::Block)
}

/// The block of a text of zero bytes, which is dummies, for a slot in an attempt.
fn dummies(alloc: Global, plan: &Plan, slot: Slot, attempt: u32) -> Result<Vec<u8>, AllocError>
    requires { IsPlanned plan.now slot }
{
    let length = plan.block_length(slot) as usize;
    let text = vec![in alloc; 0; length - 40]?;
    let mut sealed = vec![in alloc; 0; length]?;
    seal_block(
        plan,
        &prepare(&run_keys()),
        slot,
        attempt,
        &text,
        &mut sealed,
    );
    Ok(sealed)
}

/// The block of a slot that Python's hashlib and a ChaCha20 by hand made, in its first and last bytes.
#[test]
fn block_from_outside(rt: HostRuntime) -> Result<(), Fail> {
    let plan = small(Form::One)?;
    let sealed = dummies(rt.alloc(), &plan, plan.slot(3), 1)?;
    let mut front = [0; 16];
    let mut tag = [0; 32];
    assert!(rt; hex_into(b"0000000100000003d00e006cbc1adf9b", &mut front));
    assert!(rt;
        hex_into(
            b"db373ef94049b0f1fa5171fcb67981800abe84ea8f7f09f85da90c085de63d77",
            &mut tag
        )
    );
    assert_eq!(rt; sealed.len(), 314);
    assert!(rt; sealed.starts_with(&front));
    assert!(rt; sealed.ends_with(&tag));
    Ok(())
}

/// What putting a block of dummies and getting it again answers, and what was got, over a device with these flips.
fn put_and_get(
    alloc: Global,
    plan: &Plan,
    slot: Slot,
    flips: Vec<Flip>,
) -> Result<(Result<(), VaultFault>, Vec<u8>), Fail>
    requires { IsPlanned plan.now slot }
{
    let keys = prepare(&run_keys());
    let length = plan.block_length(slot) as usize;
    let text = vec![in alloc; 0; length - 40]?;
    let mut sealed = vec![in alloc; 0; length]?;
    let mut back = vec![in alloc; 7; length - 40]?;
    let mut recorder = Recorder::make(alloc, MemDevice::make(Vec::new(alloc), flips));
    recorder.ready(plan)?;
    let put = put_block(&mut recorder, plan, &keys, slot, 1, &text, &mut sealed);
    let got = get_block(
        &mut recorder,
        plan,
        &keys,
        slot,
        1,
        0,
        &mut sealed,
        &mut back,
    );
    Ok((put.and(got), back))
}

/// A block comes back, and with a bit flipped in its nonce, its cipher text or its tag it doesn't open.
fn check_slot(rt: &(impl Abort + AllocGlobal), plan: &Plan, number: u32) -> Result<(), Fail> {
    assert!(rt; number < plan.slots());
    let slot = plan.slot(number);
    let (done, back) = put_and_get(rt.alloc(), plan, slot, Vec::new(rt.alloc()))?;
    assert!(rt;
        done.is_ok() && back.iter().all(|byte| *byte == 0),
        "slot {number}"
    );
    let end = plan.block_length(slot);
    for byte in [0, 7, 8, end - 33, end - 32, end - 1] {
        let flip = Flip {
            access: 2,
            byte,
            mask: 1,
        };
        let (done, back) = put_and_get(rt.alloc(), plan, slot, vec![in rt.alloc(); flip]?)?;
        assert!(rt;
            done == Err(VaultFault::Tampered(number)),
            "slot {number}, byte {byte}"
        );
        assert!(rt;
            back.iter().all(|byte| *byte == 7),
            "slot {number}, byte {byte}"
        );
    }
    Ok(())
}

#[test]
fn blocks_over_a_device(rt: HostRuntime) -> Result<(), Fail> {
    for form in [Form::One, Form::Two] {
        let plan = small(form)?;
        for number in 0..plan.slots() {
            check_slot(&rt, &plan, number)?;
        }
    }
    Ok(())
}
