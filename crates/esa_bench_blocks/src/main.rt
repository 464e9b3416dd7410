//! What the measurements of blocks and of their seals need in Rattle: the bare hash and keystream of the libraries, and
//! blocks on a device in memory and in a file.
//!
//! With no words it runs each module at a small size, and prints what is the same at every run. With a word and numbers
//! it does that work once, so that a script can count its instructions. It promises nothing but to be safe and to end.
#![tactic(auto)]

mod bare;
mod device;
mod vault;

use anyhow::{Context, Result, bail};
use esa_params::Form;
use std::env;
use vault::Load;

fn main(rt: HostRuntime) -> Result<()> {
    let mut words = env::args(&rt)?;
    let _program = words.next();
    let Some(work) = words.next() else {
        bare::small(&rt)?;
        device::write_and_read(&rt)?;
        return vault::small(&rt);
    };
    let size = number(words.next())?;
    if let Some(form) = form_of(work.as_str()) {
        let load = Load {
            form,
            items: small(size)?,
            real: small(number(words.next())?)?,
            times: small(number(words.next())?)?,
        };
        return vault::measure(&rt, &load);
    }
    match work.as_str() {
        "hash" => bare::hash(&rt, size),
        "keystream" => bare::keystream(&rt, size),
        "device" => device::write_and_read(&rt),
        _ => bail!("no such work"),
    }
}

/// The form of the blocks that a word asks for.
fn form_of(work: &str) -> Option<Form> {
    match work {
        "vault-one" => Some(Form::One),
        "vault-two" => Some(Form::Two),
        _ => None,
    }
}

/// The number that a word of the command line is, or 0 where there is no more word.
fn number(word: Option<String>) -> Result<u64> {
    match word {
        Some(text) => text.parse::<u64>().context("a number"),
        None => Ok(0),
    }
}

/// A number of 32 bits.
fn small(number: u64) -> Result<u32> {
    u32::try_from(number).context("too large a number")
}
