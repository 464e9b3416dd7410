//! Submissions of form One at any size, as data to batch, and the bare work on their envelopes.

use anyhow::{Result, bail, ensure};
use esa_params::MOST_RECORDS;
use rand_chacha::ChaCha20Rng;
use rand_core::{Rng, SeedableRng};
use std::fs::{self, File};
use std::io::{BufWriter, Write};
use std::rt::Files;

/// The submission lines, in the folder that the program runs in.
const LINES: &str = "submissions.txt";

/// The same envelopes in hexadecimal digits alone.
const DIGITS: &str = "digits.txt";

/// The length of an envelope of form One, in bytes.
const SIZE: usize = 176;

/// Writes both files: so many envelopes of bytes that a generator draws.
pub fn write<R: Files + AllocGlobal>(rt: &R, count: u64) -> Result<()> {
    ensure!(count <= u64::from(MOST_RECORDS), "too many envelopes");
    let mut lines = BufWriter::new(rt.alloc(), fs::create(rt, LINES)?)?;
    let mut digits = BufWriter::new(rt.alloc(), fs::create(rt, DIGITS)?)?;
    let mut generator = ChaCha20Rng::from_seed([0u8; 32]);
    let mut envelope = [0u8; SIZE];
    for number in 0..count {
        generator.fill_bytes(&mut envelope);
        let text = hex::encode(rt.alloc(), envelope.as_slice())?;
        write!(lines, "{}\ts{}\t", 1_700_000_000 + number, number % 1000)?;
        lines.write_all(text.as_bytes())?;
        lines.write_all(b"\n")?;
        digits.write_all(text.as_bytes())?;
    }
    lines.flush()?;
    digits.flush()?;
    Ok(())
}

/// Decodes the envelopes of the file of digits, and sorts them.
pub fn bare<R: Files + Print + AllocGlobal>(rt: &R) -> Result<()> {
    let digits = fs::read(rt, DIGITS)?;
    let mut envelopes = Vec::with_capacity(rt.alloc(), digits.len() / (2 * SIZE))?;
    for text in digits.chunks_exact(2 * SIZE) {
        let mut envelope = [0u8; SIZE];
        if hex::decode_to_slice(text, &mut envelope).is_err() {
            bail!("no digits");
        }
        envelopes.push(envelope)?;
    }
    envelopes.sort_unstable();
    println!(rt; "{} envelopes are sorted", envelopes.len())?;
    Ok(())
}
