//! Pieces: the lines that say which bytes a file has.

ghost use Rattle.std.specs.Prelude.{◌≤◌, IfOk, length};

use crate::File;
use crate::statement::{number, split_word};
use crate::wrong::Wrong;

/// Adds the bytes that a line `N times PIECE` or `PIECE` stands for.
pub fn add_piece(out: &mut Vec<u8>, named: &[File], text: &str) -> Result<(), Wrong> {
    let (times, piece) = match text.split_once(" times ") {
        Some((count, piece)) if is_number(count) => (number(count)?, piece),
        _ => (1, text),
    };
    let alloc = *out.allocator();
    let mut once = Vec::new(alloc);
    add_once(&mut once, named, piece)?;
    for _ in 0..times {
        out.extend_from_slice(&once)?;
    }
    Ok(())
}

/// Whether all bytes are digits.
fn is_number(text: &str) -> bool {
    text.as_bytes().iter().all(u8::is_ascii_digit)
}

/// Adds the bytes of one piece.
fn add_once(out: &mut Vec<u8>, named: &[File], piece: &str) -> Result<(), Wrong> {
    let (word, rest) = split_word(piece);
    match word {
        "text" => add_text(out, rest),
        "line" => {
            add_text(out, rest)?;
            Ok(out.push(b'\n')?)
        }
        "hex" => add_hex(out, rest),
        "part" => Ok(out.extend_from_slice(bytes_of(named, rest)?)?),
        "digits" => add_digits(out, bytes_of(named, rest)?),
        "first" => add_front(out, named, rest),
        "from" => add_back(out, named, rest),
        "not" => Ok(out.push(!byte_and_rest(named, rest)?.0)?),
        "after" => Ok(out.extend_from_slice(byte_and_rest(named, rest)?.1)?),
        _ => Err(Wrong::Word),
    }
}

/// The bytes of a name.
fn bytes_of<'a>(named: &'a [File], name: &str) -> Result<&'a [u8], Wrong> {
    for file in named {
        if file.name.as_str() == name {
            return Ok(&file.bytes);
        }
    }
    Err(Wrong::Unknown)
}

/// The number and the bytes of `N of NAME`. The number is at most that of the bytes.
fn part_of<'a>(named: &'a [File], rest: &str) -> Result<(usize, &'a [u8]), Wrong>
    ensures { IfOk result (λ part. part.0 ≤ length part.1.now) }
{
    let Some((count, name)) = rest.split_once(" of ") else {
        return Err(Wrong::Word);
    };
    let bytes = bytes_of(named, name)?;
    let count = number(count)? as usize;
    if count > bytes.len() {
        return Err(Wrong::Short);
    }
    Ok((count, bytes))
}

/// Adds the first bytes of a name.
fn add_front(out: &mut Vec<u8>, named: &[File], rest: &str) -> Result<(), Wrong> {
    let (count, bytes) = part_of(named, rest)?;
    Ok(out.extend_from_slice(&bytes[..count])?)
}

/// Adds what follows the first bytes of a name.
fn add_back(out: &mut Vec<u8>, named: &[File], rest: &str) -> Result<(), Wrong> {
    let (count, bytes) = part_of(named, rest)?;
    Ok(out.extend_from_slice(&bytes[count..])?)
}

/// The byte behind the first ones of a name, and what follows it.
fn byte_and_rest<'a>(named: &'a [File], rest: &str) -> Result<(u8, &'a [u8]), Wrong> {
    let (count, bytes) = part_of(named, rest)?;
    match bytes[count..].split_first() {
        Some((byte, behind)) => Ok((*byte, behind)),
        None => Err(Wrong::Short),
    }
}

/// Adds the lower-case hexadecimal digits of bytes.
fn add_digits(out: &mut Vec<u8>, bytes: &[u8]) -> Result<(), Wrong> {
    let text = hex::encode(*out.allocator(), bytes)?;
    Ok(out.extend_from_slice(text.as_bytes())?)
}

/// Adds the bytes of pairs of digits, with spaces wherever they help.
fn add_hex(out: &mut Vec<u8>, text: &str) -> Result<(), Wrong> {
    let alloc = *out.allocator();
    let mut digits = Vec::new(alloc);
    for digit in text.as_bytes() {
        if *digit != b' ' {
            digits.push(*digit)?;
        }
    }
    match hex::decode(alloc, digits.as_slice()) {
        Ok(bytes) => Ok(out.extend_from_slice(&bytes)?),
        Err(_) => Err(Wrong::Hex),
    }
}

/// What the next byte of a text belongs to.
#[derive(Clone, Copy)]
enum Escape {
    /// The text itself.
    No,
    /// A backslash stands before it.
    Begun,
    /// `\x` stands before it.
    High,
    /// `\x` and a digit of this value stand before it.
    Low(u8),
}

/// Adds a text in which `\t`, `\n`, `\\` and `\x` with two digits stand for a byte each.
pub fn add_text(out: &mut Vec<u8>, text: &str) -> Result<(), Wrong> {
    let mut escape = Escape::No;
    for byte in text.as_bytes() {
        escape = add_byte(out, escape, *byte)?;
    }
    match escape {
        Escape::No => Ok(()),
        _ => Err(Wrong::Escape),
    }
}

/// Adds what a byte of a text stands for, if it ends something.
fn add_byte(out: &mut Vec<u8>, escape: Escape, byte: u8) -> Result<Escape, Wrong> {
    match (escape, byte) {
        (Escape::No, b'\\') => return Ok(Escape::Begun),
        (Escape::No, byte) => out.push(byte)?,
        (Escape::Begun, b't') => out.push(b'\t')?,
        (Escape::Begun, b'n') => out.push(b'\n')?,
        (Escape::Begun, b'\\') => out.push(b'\\')?,
        (Escape::Begun, b'x') => return Ok(Escape::High),
        (Escape::Begun, _) => return Err(Wrong::Escape),
        (Escape::High, digit) => return Ok(Escape::Low(digit_of(digit)?)),
        (Escape::Low(high), digit) => out.push((high << 4) | digit_of(digit)?)?,
    }
    Ok(Escape::No)
}

/// The value of a hexadecimal digit.
fn digit_of(digit: u8) -> Result<u8, Wrong> {
    match digit {
        b'0'..=b'9' => Ok(digit - b'0'),
        b'a'..=b'f' => Ok(digit - b'a' + 10),
        _ => Err(Wrong::Escape),
    }
}
