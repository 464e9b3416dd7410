//! What the measurements of commands over records need in Rattle: data at any size, and bare work of the libraries on as
//! much of it.
//!
//! With no words it runs each module that needs no file at a small size, and prints what is the same at every run. With a
//! word and numbers it does that work once, so that a script can count its instructions. It promises nothing but to be
//! safe and to end.
#![tactic(auto)]

mod batch;
mod encode;
mod forward;
mod shares;

use anyhow::{Context, Result, bail};
use encode::Call;
use forward::Values;
use shares::{Load, Work};
use std::env;
use std::rt::Files;

fn main(rt: HostRuntime) -> Result<()> {
    let mut words = env::args(&rt)?;
    let _program = words.next();
    let Some(work) = words.next() else {
        encode::small(&rt, rt.alloc())?;
        return shares::small(&rt);
    };
    let size = number(words.next())?;
    if let Some(shares_work) = shares_work(work.as_str()) {
        let load = Load {
            values: u32::try_from(size).context("too many values")?,
            t: u8::try_from(number(words.next())?).context("too many shares")?,
        };
        return shares::measure(&rt, shares_work, &load);
    }
    run(&rt, work.as_str(), size)
}

/// What a word asks for of shares.
fn shares_work(work: &str) -> Option<Work> {
    match work {
        "shares-values" => Some(Work::EncodeValues),
        "shares-encode" => Some(Work::EncodeShares),
        "shares-make" => Some(Work::Make),
        "shares-copy" => Some(Work::Copy),
        "shares-recover" => Some(Work::Recover),
        _ => None,
    }
}

/// The number that a word of the command line is, or 0 where there is no more word.
fn number(word: Option<String>) -> Result<u64> {
    match word {
        Some(text) => text.parse::<u64>().context("a number"),
        None => Ok(0),
    }
}

/// Does a work once, at a size.
fn run<R: Print + Files + AllocGlobal>(rt: &R, work: &str, size: u64) -> Result<()> {
    match work {
        "digits-slice" => encode::digits(rt, rt.alloc(), Call::Slice, size),
        "digits-text" => encode::digits(rt, rt.alloc(), Call::Text, size),
        "submissions" => batch::write(rt, size),
        "decode-and-sort" => batch::bare(rt),
        "forward-seven" => forward::write(rt, Values::Seven, size),
        "forward-distinct" => forward::write(rt, Values::Distinct, size),
        _ => bail!("no such work"),
    }
}
