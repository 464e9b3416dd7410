//! The bare hexadecimal digits of the library, by each of its calls that writes them.

ghost use Rattle.std.specs.Prelude.{◌<◌};

use anyhow::Result;
use std::alloc::Global;

/// The bytes that are written at once: an outer envelope of form One.
const BYTES: usize = 176;

/// A call of the library.
#[derive(Clone, Copy)]
pub enum Call {
    /// Into a slice that is there already.
    Slice,
    /// Into a text of its own.
    Text,
}

/// Writes the digits of so many envelopes, each other than the one before, and adds up bytes of them
/// by exclusive or.
pub fn digits(rt: &impl Print, alloc: Global, call: Call, envelopes: u64) -> Result<()> {
    let mut bytes = [7u8; BYTES];
    let mut sum = 0u8;
    for number in 0..envelopes {
        let place = (number % 176) as usize;
        bytes[place] = bytes[place].wrapping_add(1);
        sum ^= match call {
            Call::Slice => by_slice(&bytes, place)?,
            Call::Text => by_text(alloc, &bytes, place)?,
        };
    }
    println!(rt; "digits of {envelopes} envelopes add up to {sum:02x}")?;
    Ok(())
}

/// A digit of the bytes, which are all written.
fn by_slice(bytes: &[u8; 176], place: usize) -> Result<u8>
    requires { place < 176 }
{
    let mut out = [0u8; 352];
    hex::encode_to_slice(bytes.as_slice(), &mut out)?;
    Ok(out[2 * place])
}

/// The same, by a text.
fn by_text(alloc: Global, bytes: &[u8; 176], place: usize) -> Result<u8>
    requires { place < 176 }
{
    let text = hex::encode(alloc, bytes.as_slice())?;
    match text.as_bytes().get(2 * place) {
        Some(digit) => Ok(*digit),
        None => Ok(0),
    }
}

/// Both at a small size.
pub fn small(rt: &impl Print, alloc: Global) -> Result<()> {
    digits(rt, alloc, Call::Slice, 3)?;
    digits(rt, alloc, Call::Text, 3)
}
