//! Small outputs, and what is forwarded of them: the codes were computed apart, by another implementation of HMAC.

ghost use Rattle.std.specs.Prelude.{◌≡◌, ◌<◌, Some};

use super::*;
use esa_device::{Device, MemDevice, Recorder};
use esa_envelope::{Keys, Label, keys_of, prepare};
use esa_job::{Drops, DropsRefused};
use esa_params::{Form, Params, Plan, Region, Slot, check};
use esa_vault::put_block;
use std::alloc::{AllocError, Global};
use std::process::Abort;
use std::test::Fail;

/// Under the key of bytes 7 the code of the crowd of bytes 1 begins with the byte 51, and those of the crowds of bytes 2
/// to 5 with others. The codes of the inner envelopes of bytes 1 to 5 begin with 184, 128, 22, 175 and 218 in form One,
/// and with 26, 173, 129, 92 and 226 in form Two.
const PLACE: usize = 51;

/// Two buckets.
const SMALL: Params = Params {
    b: 2,
    c: 2,
    s: 2,
    k: 2,
    w: 2,
    q: 5,
    workers: 1,
    attempts: 2,
};

/// A real record: the byte that its crowd's id is made of, and that of its inner envelope.
#[derive(Clone, Copy)]
struct Made {
    crowd: u8,
    inner: u8,
}

impl Made {
    /// A byte of its item.
    fn byte(self, at: usize) -> u8 {
        match at {
            0 => 1,
            1..=32 => self.crowd,
            _ => self.inner,
        }
    }
}

/// Five records of one crowd.
const ONE_CROWD: [Made; 5] = [
    Made { crowd: 1, inner: 1 },
    Made { crowd: 1, inner: 2 },
    Made { crowd: 1, inner: 3 },
    Made { crowd: 1, inner: 4 },
    Made { crowd: 1, inner: 5 },
];

/// Five records, each of which is a crowd.
const FIVE_CROWDS: [Made; 5] = [
    Made { crowd: 1, inner: 1 },
    Made { crowd: 2, inner: 2 },
    Made { crowd: 3, inner: 3 },
    Made { crowd: 4, inner: 4 },
    Made { crowd: 5, inner: 5 },
];

fn run_keys() -> Keys {
    keys_of(&[9; 32], Label::Block)
}

/// A table that drops two of the crowd of bytes 1, and none of another.
fn drops() -> Result<Drops, DropsRefused> {
    let mut file = [b'\n'; 512];
    for line in 0..256usize {
        file[line * 2] = b'0';
    }
    file[PLACE * 2] = b'2';
    Drops::read(&file)
}

/// Writes the records of a bucket as the block of the output.
fn put<V: Device>(
    alloc: Global,
    recorder: &mut Recorder<V>,
    plan: &Plan,
    records: &[Made; 5],
    bucket: u32,
) -> Result<(), Fail>
    requires bucket { bucket < plan.now.b }
    requires ready { recorder.old.plan ≡ Some plan.now }
    requires room { 0 < recorder.old.room }
    ensures ready { recorder.new.plan ≡ Some plan.now }
{
    let slot = Slot {
        region: Region::Output,
        index: bucket,
    };
    let length = plan.block_length(slot) as usize;
    let first = plan.first(bucket) as usize;
    let item = plan.form().body() as usize + 1;
    let mut text = vec![in alloc; 0; length - 40]?;
    for at in 0..text.len() {
        if let Some(record) = records.get(first + at / item) {
            text[at] = record.byte(at % item);
        }
    }
    let mut sealed = vec![in alloc; 0; length]?;
    put_block(
        recorder,
        plan,
        &prepare(&run_keys()),
        slot,
        1,
        &text,
        &mut sealed,
    )?;
    Ok(())
}

/// What is forwarded of five records, where at least `t` of a crowd are wanted.
fn forwarded(
    rt: &(impl Abort + AllocGlobal),
    form: Form,
    records: &[Made; 5],
    t: u32,
) -> Result<Vec<u8>, Fail> {
    let alloc = rt.alloc();
    let plan = Plan::of(check(&SMALL)?, 5, form);
    assert_eq!(rt; plan.b(), 2);
    let mut recorder = Recorder::make(alloc, MemDevice::make(Vec::new(alloc), Vec::new(alloc)));
    recorder.ready(&plan)?;
    assert!(rt; recorder.room() > 0);
    put(alloc, &mut recorder, &plan, records, 0)?;
    assert!(rt; recorder.room() > 0);
    put(alloc, &mut recorder, &plan, records, 1)?;
    assert!(rt; recorder.room() >= 4);
    let mut tables = Tables::make(alloc, plan)?;
    threshold(
        &mut recorder,
        &plan,
        &run_keys(),
        1,
        &[7; 32],
        &drops()?,
        t,
        &mut tables,
    )?;
    Ok(tables.forward().to_vec(alloc)?)
}

/// Inner envelopes, each of one byte, joined.
fn joined(alloc: Global, form: Form, bytes: &[u8]) -> Result<Vec<u8>, AllocError> {
    let mut joined = Vec::new(alloc);
    for byte in bytes {
        joined.extend_from_slice(&[*byte; 232][..form.inner() as usize])?;
    }
    Ok(joined)
}

/// Two are dropped, the first by tag. The others are forwarded where they are as many as are wanted, and none where they
/// are one less.
#[test]
fn as_many_as_are_wanted(rt: HostRuntime) -> Result<(), Fail> {
    let alloc = rt.alloc();
    assert_eq!(rt;
        forwarded(&rt, Form::One, &ONE_CROWD, 3)?,
        joined(alloc, Form::One, &[1, 4, 5])?
    );
    assert!(rt; forwarded(&rt, Form::One, &ONE_CROWD, 4)?.is_empty());
    assert_eq!(rt;
        forwarded(&rt, Form::Two, &ONE_CROWD, 3)?,
        joined(alloc, Form::Two, &[2, 3, 5])?
    );
    Ok(())
}

/// Each record is a crowd: the one of which more are dropped than there are isn't forwarded.
#[test]
fn crowds_of_one(rt: HostRuntime) -> Result<(), Fail> {
    assert_eq!(rt;
        forwarded(&rt, Form::One, &FIVE_CROWDS, 1)?,
        joined(rt.alloc(), Form::One, &[2, 3, 4, 5])?
    );
    assert!(rt; forwarded(&rt, Form::One, &FIVE_CROWDS, 2)?.is_empty());
    Ok(())
}
