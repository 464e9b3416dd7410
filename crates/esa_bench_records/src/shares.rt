//! Values that are encoded as shares, and databases of shares, at any size.

ghost use Rattle.std.specs.Prelude.{◌≤◌};

use anyhow::{Context, Result, bail, ensure};
use esa_analyser::{read_db, write_db};
use esa_encoder::{Shaper, encode, encode_by};
use esa_envelope::{Keys, Label, keys_of};
use esa_outside::MemCabinet;
use esa_params::Form;
use esa_recovery::Recovered;
use esa_report::crowd_of;
use esa_shares::ShareShaper;
use std::alloc::Global;
use std::io::Write;

/// The file that is written in memory.
const NAME: &str = "database";

/// What is done.
#[derive(Clone, Copy)]
pub enum Work {
    /// So many values are encoded as they are.
    EncodeValues,
    /// So many values are encoded as shares.
    EncodeShares,
    /// A database of the shares of so many values is made.
    Make,
    /// It is made, read and written.
    Copy,
    /// It is made, read, recovered and written.
    Recover,
}

/// How many values there are, and how many shares it takes to give one back.
#[derive(Clone, Copy)]
pub struct Load {
    pub values: u32,
    pub t: u8,
}

/// Does the work once.
pub fn measure<R: Print + AllocGlobal>(rt: &R, work: Work, load: &Load) -> Result<()> {
    ensure!(2 <= load.t && load.t <= 16, "too few or too many shares");
    let alloc = rt.alloc();
    let length = match work {
        Work::EncodeValues => encode_values(alloc, load)?,
        Work::EncodeShares => encode_shares(alloc, load)?,
        Work::Make => database(alloc, load)?.len(),
        Work::Copy => copy(alloc, load)?,
        Work::Recover => recover(alloc, load)?,
    };
    println!(rt; "{} values came to {length} bytes", load.values)?;
    Ok(())
}

/// Three values, by each work.
pub fn small<R: Print + AllocGlobal>(rt: &R) -> Result<()> {
    let load = Load { values: 3, t: 2 };
    measure(rt, Work::EncodeValues, &load)?;
    measure(rt, Work::EncodeShares, &load)?;
    measure(rt, Work::Make, &load)?;
    measure(rt, Work::Copy, &load)?;
    measure(rt, Work::Recover, &load)
}

/// Lines of reports, each with a value of its own.
fn reports(alloc: Global, values: u32) -> Result<Vec<u8>> {
    let mut lines = Vec::new(alloc);
    for number in 0..values {
        write!(lines, "{number}\ts{number}\tc\tv{number}\n")?;
    }
    Ok(lines)
}

/// The keys of a label.
fn keys(label: Label) -> Keys {
    keys_of(&[7; 32], label)
}

/// The length of the submissions of values as they are.
fn encode_values(alloc: Global, load: &Load) -> Result<usize> {
    let lines = reports(alloc, load.values)?;
    let (outer, inner) = (keys(Label::Outer), keys(Label::Inner));
    match encode(alloc, Form::One, &lines, &outer, &inner, 0) {
        Ok(submissions) => Ok(submissions.len()),
        Err(_) => bail!("a report is refused"),
    }
}

/// The length of the submissions of values as shares.
fn encode_shares(alloc: Global, load: &Load) -> Result<usize>
    requires some { 2 ≤ load.now.t }
    requires few { load.now.t ≤ 16 }
{
    let lines = reports(alloc, load.values)?;
    let shaper = ShareShaper::make(load.t, [9; 32]);
    let (outer, inner) = (keys(Label::Outer), keys(Label::Inner));
    match encode_by(alloc, Form::One, &lines, &outer, &inner, 0, &shaper) {
        Ok(submissions) => Ok(submissions.len()),
        Err(_) => bail!("a report is refused"),
    }
}

/// A value of eight bytes.
fn value_at(number: u32) -> [u8; 8] {
    let [a, b, c, d] = number.to_be_bytes();
    [b'p', b'a', b'g', b'e', a, b, c, d]
}

/// Numbers of values, by the marks of these.
fn by_mark(alloc: Global, values: u32) -> Result<Vec<([u8; 32], u32)>> {
    let mut marks = Vec::with_capacity(alloc, values as usize)?;
    for number in 0..values {
        marks.push((crowd_of(&value_at(number)), number))?;
    }
    marks.sort_unstable();
    Ok(marks)
}

/// A database file of shares at as many points as it takes, and of a third of the values at one more. Each row counts 1.
fn database(alloc: Global, load: &Load) -> Result<Vec<u8>>
    requires some { 2 ≤ load.now.t }
    requires few { load.now.t ≤ 16 }
{
    let marks = by_mark(alloc, load.values)?;
    let shaper = ShareShaper::make(load.t, [9; 32]);
    let third = load.values / 3;
    let rows = u64::from(load.values) * u64::from(load.t) + u64::from(third);
    let mut file = Vec::from_slice(alloc, b"ESAD\x01")?;
    file.extend_from_slice(&u32::try_from(rows).context("too many rows")?.to_be_bytes())?;
    file.extend_from_slice(&[0; 4])?;
    for nonce in 0..u64::from(load.t) {
        put_rows(&mut file, &shaper, &marks, nonce)?;
    }
    if let Some(front) = marks.get(..third as usize) {
        put_rows(&mut file, &shaper, front, u64::from(load.t))?;
    }
    Ok(file)
}

/// Puts the rows of shares at the point of a nonce.
fn put_rows(
    file: &mut Vec<u8>,
    shaper: &ShareShaper,
    marks: &[([u8; 32], u32)],
    nonce: u64,
) -> Result<()> {
    for (_, number) in marks {
        put_row(file, shaper, &value_at(*number), nonce)?;
    }
    Ok(())
}

/// Puts the row of a value's share.
fn put_row(file: &mut Vec<u8>, shaper: &ShareShaper, value: &[u8], nonce: u64) -> Result<()> {
    let mut room = [0; 190];
    let length = shaper.shape(value, nonce, &mut room).context("no share")?;
    let record = room.get(..length).context("no share")?;
    file.push(length as u8)?;
    file.extend_from_slice(record)?;
    file.extend_from_slice(&1u32.to_be_bytes())?;
    Ok(())
}

/// The length of the database, read and written.
fn copy(alloc: Global, load: &Load) -> Result<usize>
    requires some { 2 ≤ load.now.t }
    requires few { load.now.t ≤ 16 }
{
    let Ok(db) = read_db(alloc, &database(alloc, load)?) else {
        bail!("the database is refused");
    };
    let mut cabinet = MemCabinet::make(Vec::new(alloc), Vec::new(alloc));
    ensure!(
        write_db(Form::Two, &db, &mut cabinet, NAME).is_ok(),
        "the database isn't written"
    );
    Ok(cabinet.file(NAME).context("no file")?.len())
}

/// The length of the recovered database.
fn recover(alloc: Global, load: &Load) -> Result<usize>
    requires some { 2 ≤ load.now.t }
    requires few { load.now.t ≤ 16 }
{
    let Ok(db) = read_db(alloc, &database(alloc, load)?) else {
        bail!("the database is refused");
    };
    let Ok(recovered) = Recovered::make(alloc, &db) else {
        bail!("the database isn't recovered");
    };
    let mut cabinet = MemCabinet::make(Vec::new(alloc), Vec::new(alloc));
    ensure!(
        recovered.write(&mut cabinet, NAME).is_ok(),
        "the database isn't written"
    );
    Ok(cabinet.file(NAME).context("no file")?.len())
}
