//! What the measurements of a shuffle's parts need in Rattle: coins, the stash, a forecast and the threshold at any size,
//! and bare work of the libraries, to compare with.
//!
//! With no words it runs each module at a small size, and prints what is the same at every run. With a word and numbers
//! it does that work once, so that a script can count its instructions. It promises nothing but to be safe and to end.
#![tactic(auto)]

mod coins;
mod forecast;
mod stash;
mod threshold;

use anyhow::{Context, Result, bail};
use coins::{Drawn, Reading};
use esa_coins::Draw;
use stash::Then;
use std::env;
use std::rt::Files;
use threshold::Work;

fn main(rt: HostRuntime) -> Result<()> {
    let mut words = env::args(&rt)?;
    let _program = words.next();
    let Some(work) = words.next() else {
        coins::small(&rt)?;
        stash::fill(&rt, 4_000, Then::Exchanges(2))?;
        threshold::small(&rt)?;
        return forecast::small(&rt, rt.alloc());
    };
    let size = number(words.next())?;
    if work.as_str() == "forecast" {
        let load = forecast::Load {
            shape: size,
            attempts: number(words.next())?,
            runs: number(words.next())?,
            bare: number(words.next())?,
        };
        return forecast::measure(&rt, rt.alloc(), &load);
    }
    if let Some(threshold_work) = threshold_work(work.as_str()) {
        let load = threshold::Load {
            records: small(size)?,
            crowds: small(number(words.next())?)?,
            times: small(number(words.next())?)?,
        };
        return threshold::measure(&rt, threshold_work, &load);
    }
    run(&rt, work.as_str(), size)
}

/// What a word asks for of records in crowds.
fn threshold_work(work: &str) -> Option<Work> {
    match work {
        "threshold" => Some(Work::Threshold),
        "threshold-sort" => Some(Work::Sort),
        _ => None,
    }
}

/// The number that a word of the command line is, or 0 where there is no more word.
fn number(word: Option<String>) -> Result<u64> {
    match word {
        Some(text) => text.parse::<u64>().context("a number"),
        None => Ok(0),
    }
}

/// A number of 32 bits.
fn small(number: u64) -> Result<u32> {
    u32::try_from(number).context("too large a number")
}

/// Does a work once, at a size.
fn run<R: Print + Files + AllocGlobal>(rt: &R, work: &str, size: u64) -> Result<()> {
    match work {
        "coins-single" => coins::draw(rt, Drawn::Coins, Draw::Single, size),
        "coins-single-bare" => coins::draw(rt, Drawn::Bare, Draw::Single, size),
        "coins-separators" => coins::draw(rt, Drawn::Coins, Draw::Separators, size),
        "coins-separators-bare" => coins::draw(rt, Drawn::Bare, Draw::Separators, size),
        "coins-value" => coins::read(rt, Reading::Value, size),
        "coins-copy" => coins::read(rt, Reading::Copy, size),
        "coins-read" => coins::read(rt, Reading::Coins, size),
        "stash-filled" => stash::fill(rt, size, Then::Nothing),
        "stash-exchanged" => stash::fill(rt, size, Then::Exchanges(20)),
        _ => bail!("no such work"),
    }
}
