//! Forward files of form One at any size, as data to analyse.

use anyhow::{Result, bail, ensure};
use esa_envelope::{Label, Prepared, keys_of, prepare, seal_with};
use esa_params::Form;
use esa_report::code;
use esa_threshold::forward_header;
use std::fs::{self, File};
use std::io::{BufWriter, Write};
use std::rt::Files;

/// The file that is written, in the folder that the program runs in.
const NAME: &str = "forward.bin";

/// The most envelopes of a file: a power of two.
const MOST: u64 = 262_144;

/// An odd number: times it, the numbers below `MOST` come to the same numbers again, in another order.
const MIXER: u64 = 157_993;

/// What the values of the reports are.
#[derive(Clone, Copy)]
pub enum Values {
    /// Seven values in turn.
    Seven,
    /// Each report has a value of its own, in a mixed order.
    Distinct,
}

/// Writes a forward file of so many envelopes, sealed under the inner master 00, 01, .. 1f.
pub fn write<R: Files + AllocGlobal>(rt: &R, values: Values, count: u64) -> Result<()> {
    ensure!(count <= MOST, "too many envelopes");
    let mut header = [0u8; 15];
    let length = forward_header(Form::One, 0, count as u32, &mut header);
    let mut file = BufWriter::new(rt.alloc(), fs::create(rt, NAME)?)?;
    file.write_all(&header[..length])?;
    let keys = prepare(&keys_of(&master(), Label::Inner));
    for number in 0..count {
        file.write_all(&envelope(&keys, values, number)?)?;
    }
    file.flush()?;
    Ok(())
}

/// The master of the keys file beside the data.
fn master() -> [u8; 32] {
    let mut master = [0u8; 32];
    for place in 0..32u8 {
        master[place as usize] = place;
    }
    master
}

/// The envelope of a number: its value in decimal, sealed with the number as nonce.
fn envelope(keys: &Prepared, values: Values, number: u64) -> Result<[u8; 104]> {
    let mut digits = [0u8; 20];
    let value = match values {
        Values::Seven => number % 7,
        Values::Distinct => number.wrapping_mul(MIXER) % MOST,
    };
    let length = esa_bytes::put_decimal(value, &mut digits);
    let Ok(report) = code::<64>(&digits[..length]) else {
        bail!("the value has no report");
    };
    let mut sealed = [0u8; 104];
    seal_with(keys, Label::Inner, number, &report, &mut sealed);
    Ok(sealed)
}
