//! The words of a line.

use crate::wrong::Wrong;
use crate::{Case, Flip};

/// The first word of a line, and what follows the space behind it.
pub fn split_word(text: &str) -> (&str, &str) {
    match text.split_once(' ') {
        Some(parts) => parts,
        None => (text, ""),
    }
}

/// A number.
pub fn number(text: &str) -> Result<u64, Wrong> {
    match text.parse::<u64>() {
        Ok(number) => Ok(number),
        Err(_) => Err(Wrong::Number),
    }
}

/// Adds the numbers of a line `fails N..`.
pub fn add_fails(fails: &mut Vec<u64>, rest: &str) -> Result<(), Wrong> {
    let (word, numbers) = split_word(rest);
    if word != "fails" {
        return Err(Wrong::Word);
    }
    for text in numbers.split(' ') {
        fails.push(number(text)?)?;
    }
    Ok(())
}

/// Adds what a line `device fails N..` or `device flips ACCESS BYTE BIT` says.
pub fn add_device(case: &mut Case, rest: &str) -> Result<(), Wrong> {
    match split_word(rest) {
        ("flips", numbers) => Ok(case.device_flips.push(flip(numbers)?)?),
        _ => add_fails(&mut case.device_fails, rest),
    }
}

/// The flip of `ACCESS BYTE BIT`. The bits of a byte are numbered from 0, the lowest, to 7.
fn flip(numbers: &str) -> Result<Flip, Wrong> {
    let (access, rest) = split_word(numbers);
    let (byte, bit) = split_word(rest);
    match (
        access.parse::<u64>(),
        byte.parse::<u32>(),
        bit.parse::<u8>(),
    ) {
        (Ok(access), Ok(byte), Ok(bit @ 0..=7)) => Ok(Flip {
            access,
            byte,
            mask: 1 << bit,
        }),
        _ => Err(Wrong::Number),
    }
}

/// The status that a run must end with.
pub fn status(text: &str) -> Result<u8, Wrong> {
    match text.parse::<u8>() {
        Ok(status) => Ok(status),
        Err(_) => Err(Wrong::Number),
    }
}
