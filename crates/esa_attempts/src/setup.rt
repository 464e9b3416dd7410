//! What a case sets up: the plan, the keys, the turns, the batch and the device.

ghost use Rattle.std.specs.Prelude.{IfOk};
ghost use Rattle.esa_model.specs.Turns.{AreWorkers};

use crate::odd::{At, Oddity};
use anyhow::{Context, Result, bail, ensure};
use esa_case_file::Case;
use esa_envelope::{Keys, Label, keys_of};
use esa_model::Turns;
use esa_params::{Form, Params, Plan, check};
use std::alloc::Global;

/// The bytes of a case's file, the last one of its name. There are none where there is no file.
pub fn bytes_of<'a>(case: &'a Case, name: &str) -> &'a [u8] {
    let mut bytes: &[u8] = &[];
    for file in &case.files {
        if file.name.as_str() == name {
            bytes = file.bytes.as_slice();
        }
    }
    bytes
}

/// The same as text.
pub fn text_of<'a>(case: &'a Case, name: &str) -> Result<&'a str> {
    std::str::from_utf8(bytes_of(case, name)).context("a file that is text")
}

/// The keys of the outer envelopes.
pub fn outer_keys() -> Keys {
    keys_of(&[5; 32], Label::Outer)
}

/// The keys of the blocks.
pub fn block_keys() -> Keys {
    keys_of(&[7; 32], Label::Block)
}

/// The plan of form One that a text says: names and numbers, as `records 4, b 2`. What it doesn't name is 1.
pub fn plan_of(text: &str) -> Result<Plan> {
    let mut records = 1;
    let mut params = Params {
        b: 1,
        c: 1,
        s: 1,
        k: 1,
        w: 1,
        q: 1,
        workers: 1,
        attempts: 1,
    };
    for part in text.trim().split(", ") {
        let (name, number) = named_number(part)?;
        if name == "records" {
            records = number;
        } else {
            set(&mut params, name, number)?;
        }
    }
    let Ok(settings) = check(&params) else {
        bail!("no such plan");
    };
    ensure!(
        1 <= records && records <= 262_144,
        "too few or too many records"
    );
    Ok(Plan::of(settings, records as u32, Form::One))
}

/// A name and the number behind it.
fn named_number(text: &str) -> Result<(&str, u64)> {
    match text.split_once(' ') {
        Some((name, number)) => Ok((name, number_of(number)?)),
        None => bail!("a name and a number"),
    }
}

/// The number that a text is.
pub fn number_of(text: &str) -> Result<u64> {
    text.parse::<u64>().context("a number")
}

/// The number of 32 bits that a text is.
fn index_of(text: &str) -> Result<u32> {
    text.parse::<u32>().context("a number")
}

/// Sets the number of a plan that has this name.
fn set(params: &mut Params, name: &str, number: u64) -> Result<()> {
    match name {
        "b" => params.b = number,
        "c" => params.c = number,
        "s" => params.s = number,
        "k" => params.k = number,
        "w" => params.w = number,
        "q" => params.q = number,
        "workers" => params.workers = number,
        "attempts" => params.attempts = number,
        _ => bail!("no number of a plan"),
    }
    Ok(())
}

/// The turns that words hand in behind their first: the workers of each attempt, as `0,1,1`. The word `-` lists none.
pub fn turns_of(alloc: Global, words: &[String], plan: &Plan) -> Result<Turns>
    ensures { IfOk result (AreWorkers plan.now.workers) }
{
    let mut lines = String::new(alloc);
    for (place, word) in words.iter().enumerate() {
        if place > 1 {
            lines.push_str("next\n")?;
        }
        if place > 0 && word.as_str() != "-" {
            add_turns(&mut lines, word.as_str())?;
        }
    }
    let (workers, attempts) = (plan.workers(), plan.attempts());
    match Turns::read(alloc, lines.as_bytes(), workers, attempts) {
        Ok(turns) => Ok(turns),
        Err(_) => bail!("no turns of the plan"),
    }
}

/// Adds a line for each number of a list.
fn add_turns(lines: &mut String, list: &str) -> Result<()> {
    for number in list.split(',') {
        writeln!(lines, "{number}")?;
    }
    Ok(())
}

/// The read of the batch that fails, counted from 1 on, where a case says one, as `2 fails`.
pub fn fault_of(case: &Case) -> Result<Option<u64>> {
    let text = text_of(case, "batch")?;
    if text.is_empty() {
        return Ok(None);
    }
    match text.strip_suffix(" fails") {
        Some(number) => Ok(Some(number_of(number)?)),
        None => bail!("a read of the batch that fails"),
    }
}

/// The worker that takes one more turn behind a replay, where a case says one.
pub fn late_of(case: &Case) -> Result<Option<u32>> {
    let text = text_of(case, "late")?;
    if text.is_empty() {
        return Ok(None);
    }
    Ok(Some(index_of(text)?))
}

/// What a text says is odd about a device: a line for each access, as `3 fails`, `3 flips byte 9`, `3 gives slot 1` or
/// `3 forgets`.
pub fn oddities_of(alloc: Global, text: &str) -> Result<Vec<At>> {
    let mut oddities = Vec::new(alloc);
    for line in text.lines() {
        let Some((access, oddity)) = line.split_once(' ') else {
            bail!("an access and what is odd about it");
        };
        oddities.push(At {
            access: number_of(access)?,
            oddity: oddity_of(oddity)?,
        })?;
    }
    Ok(oddities)
}

/// What is odd about an access.
fn oddity_of(text: &str) -> Result<Oddity> {
    if let Some(byte) = text.strip_prefix("flips byte ") {
        let byte = index_of(byte)?;
        return Ok(Oddity::Flips { byte });
    }
    if let Some(slot) = text.strip_prefix("gives slot ") {
        return Ok(Oddity::Gives(index_of(slot)?));
    }
    match text {
        "fails" => Ok(Oddity::Fails),
        "forgets" => Ok(Oddity::Forgets),
        _ => bail!("nothing odd"),
    }
}
