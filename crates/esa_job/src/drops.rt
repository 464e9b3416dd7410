//! Drops: how many records of a crowd are dropped, by the crowd's place in a table.

ghost use Rattle.std.specs.Prelude.{◌≡◌, drop, option_map, option_and_then, slice_get, IfSome};
ghost use Rattle.esa_bytes.specs.Lines.{text_lines};
ghost use Rattle.esa_job.specs.Drops.{drop_in};

use esa_bytes::{decimal, split_line};
use esa_params::MOST_OF_A_CROWD;
use std::marker::Model;

/// Why a drops file was refused.
#[derive(Clone, Copy, PartialEq, Eq, Debug)]
pub enum DropsRefused {
    /// The first line that is bad or missing, counted from 1, or 257 where there are more than 256.
    Line(u64),
}

/// A table of 256 numbers of records to drop, each up to 262,144.
#[derive(Drop)]
pub struct Drops {
    entries: [u32; 256],
}

impl Model for Drops {
    ghost use Rattle.std.specs.Prelude.{ℕ, List};

    ghost Value = { List ℕ };

    ghost view = { λ drops. drops.entries };
}

impl Drops {
    ghost use Rattle.std.specs.Prelude.{replicate, slice_index, Ok, Err, IfOk, IfErr};
    ghost use Rattle.esa_job.specs.Drops.{drops_of};

    /// The table in which no record is dropped.
    pub fn zero() -> Drops
        ensures { result ≡ replicate 256 0 }
    {
        Drops { entries: [0; 256] }
    }

    /// Reads the table from the bytes of a drops file: 256 lines, each a decimal number up to 262,144. The number of
    /// line x + 1 is the entry x.
    pub fn read(bytes: &[u8]) -> Result<Drops, DropsRefused>
        ensures ok { IfOk result (λ drops. drops_of bytes.now ≡ Ok drops) }
        ensures err { IfErr result (λ e. drops_of bytes.now ≡ Err e) }
    {
        let mut entries = [0; 256];
        let mut rest = bytes;
        for place in 0..256 {
            match next_drop(rest) {
                Some((number, behind)) => {
                    entries[place] = number;
                    rest = behind;
                }
                None => return Err(DropsRefused::Line(place as u64 + 1)),
            }
        }
        match split_line(rest) {
            Some(_) => Err(DropsRefused::Line(257)),
            None => Ok(Drops { entries }),
        }
    }

    /// How many records are dropped of a crowd at this place of the table.
    pub fn at(&self, place: u8) -> u32
        ensures { result ≡ slice_index self.now place }
    {
        self.entries[place as usize]
    }
}

/// The drop that the first line writes, and the text behind the line.
fn next_drop(text: &[u8]) -> Option<(u32, &[u8])>
    ensures value { option_map (λ found. found.0) result ≡ option_and_then drop_in (slice_get (text_lines text.now) 0) }
    ensures rest { IfSome result (λ found. drop 1 (text_lines text.now) ≡ text_lines found.1.now) }
{
    let (line, behind) = split_line(text)?;
    let number = drop_of(line)?;
    Some((number, behind))
}

/// The drop that a line writes: a decimal number up to 262,144.
fn drop_of(line: &[u8]) -> Option<u32>
    ensures { result ≡ drop_in line.now }
{
    match decimal(line) {
        Some(number) => {
            if number <= u64::from(MOST_OF_A_CROWD) {
                Some(number as u32)
            } else {
                None
            }
        }
        None => None,
    }
}
