//! What the measurement of the turnstile needs in Rattle: threads that enter it again and again.
//!
//! With no words it runs two threads at a small size, and prints what is the same at every run. With numbers of turns,
//! threads, and steps inside and outside it runs that load once, and prints how long it took. It promises nothing but to
//! be safe and to end.
#![tactic(auto)]

mod turnstile;

use anyhow::{Context, Result};
use std::env;
use turnstile::Load;

fn main(rt: HostRuntime) -> Result<()> {
    let mut words = env::args(&rt)?;
    let _program = words.next();
    let Some(turns) = words.next() else {
        return turnstile::small(&rt, rt.alloc());
    };
    let load = Load {
        turns: number(Some(turns))?,
        threads: number(words.next())?,
        inside: number(words.next())?,
        outside: number(words.next())?,
    };
    turnstile::measure(&rt, rt.alloc(), &load)
}

/// The number that a word of the command line is, or 0 where there is no more word.
fn number(word: Option<String>) -> Result<u64> {
    match word {
        Some(text) => text.parse::<u64>().context("a number"),
        None => Ok(0),
    }
}
