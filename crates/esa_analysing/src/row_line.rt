//! The lines of the histogram.

ghost use Rattle.std.specs.Prelude.{◌≡◌, ◌+◌, ◌<◌, ◌≤◌, ◌++◌, [], length};
ghost use Rattle.esa_bytes.specs.Decimal.{decimal_of};
ghost use Rattle.esa_analysing.specs.RowText.{shown, hex_digit, placed, row_text, unopened_text};

use esa_bytes::put_decimal;
use std::marker::Model;

/// The room of a line, in bytes: ten places and 20 digits, a space, and a value of 190 bytes, each shown
/// in up to four.
const LINE: usize = 791;

/// A line that is made piece by piece.
#[derive(Drop)]
pub(crate) struct RowLine {
    bytes: [u8; LINE],
    filled: usize,
}

impl Model for RowLine {
    ghost use Rattle.std.specs.Prelude.{◌≡◌, ◌≤◌, List, ℕ, length, take};
    ghost use Rattle.esa_analysing.specs.declared.row_line.TheConstants.{LINE};

    ghost Value = { List ℕ };

    ghost view = { λ line. take line.filled line.bytes };

    ghost invariant = { λ line. (line.filled ≤ LINE) × (length line.bytes ≡ LINE) };
}

/// The digit of a number below 16, in lower case.
fn digit(n: u8) -> u8
    requires { n < 16 }
    ensures { result ≡ hex_digit n }
{
    if n < 10 { 48 + n } else { 87 + n }
}

impl RowLine {
    /// An empty line.
    fn empty() -> Self
        ensures { result ≡ [] }
    {
        RowLine {
            bytes: [0; LINE],
            filled: 0,
        }
    }

    /// The line.
    pub(crate) fn as_bytes(&self) -> &[u8]
        ensures { result.now ≡ self.now }
    {
        &self.bytes[..self.filled]
    }

    /// Adds bytes for which there is room.
    fn add(&mut self, bytes: &[u8])
        requires { length self.old + length bytes.now ≤ LINE }
        ensures { self.new ≡ self.old ++ bytes.now }
    {
        let end = self.filled + bytes.len();
        self.bytes[self.filled..end].copy_from_slice(bytes);
        self.filled = end;
    }

    /// Adds a number.
    fn number(&mut self, number: u32)
        requires { length self.old + 20 ≤ LINE }
        ensures { self.new ≡ self.old ++ decimal_of number }
    {
        let mut digits = [0; 20];
        let length = put_decimal(u64::from(number), &mut digits);
        self.add(&digits[..length]);
    }

    /// Adds a number, right in ten places.
    fn place(&mut self, number: u32)
        requires { length self.old + 30 ≤ LINE }
        ensures text { self.new ≡ self.old ++ placed number }
        ensures room { length self.new ≤ length self.old + 30 }
    {
        let mut digits = [0; 20];
        let length = put_decimal(u64::from(number), &mut digits);
        let spaces = [b' '; 10];
        self.add(&spaces[..10usize.saturating_sub(length)]);
        self.add(&digits[..length]);
    }

    /// Adds a byte as it is shown.
    fn show(&mut self, byte: u8)
        requires { length self.old + 4 ≤ LINE }
        ensures shown { self.new ≡ self.old ++ shown byte }
        ensures room { length self.new ≤ length self.old + 4 }
    {
        match byte {
            b'\\' => self.add(b"\\\\"),
            0x20..=0x7e => self.add(&[byte]),
            _ => self.add(&[b'\\', b'x', digit(byte / 16), digit(byte % 16)]),
        }
    }

    /// The line of a row.
    pub(crate) fn of_row(value: &[u8], count: u32) -> RowLine
        requires { length value.now ≤ 190 }
        ensures { result ≡ row_text (value.now, count) }
    {
        let mut line = RowLine::empty();
        line.place(count);
        line.add(b" ");
        for byte in value {
            line.show(*byte);
        }
        line
    }

    /// The last line.
    pub(crate) fn of_unopened(unopened: u32) -> RowLine
        ensures { result ≡ unopened_text unopened }
    {
        let mut line = RowLine::empty();
        line.add(b"unopened ");
        line.number(unopened);
        line
    }
}
