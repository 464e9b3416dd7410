//! One row of a database file.

ghost use Rattle.std.specs.Prelude.{◌≡◌, ◌+◌, ◌≤◌, Some, None, length, drop, MatchResult};
ghost use Rattle.std.specs.Option.{option_map};
ghost use Rattle.esa_analyser.specs.Rows.{is_above};
ghost use Rattle.esa_analyser.specs.Reading.{row_refusal, row_length};

use crate::DbRefused;
use esa_bytes::{Cut, u32_at};
use std::cmp::Ordering;

/// Whether a value is above the one before it, if there is one.
fn above(before: Option<&[u8]>, value: &[u8]) -> bool
    ensures { result ≡ is_above (option_map (λ bytes. bytes.now) before.entry) value.now }
{
    match before {
        Some(before) => before.cmp(value) == Ordering::Less,
        None => true,
    }
}

/// The end of the row that starts at a place of a database file, or the first test that the row fails.
pub(crate) fn read_row(
    bytes: &[u8],
    start: usize,
    longest: u32,
    row: u32,
    before: Option<&[u8]>,
) -> Result<usize, DbRefused>
    requires { start ≤ length bytes.now }
    ensures { let rest = drop start bytes.now in
        let refusal = row_refusal longest (length bytes.now) row (option_map (λ value. value.now) before.entry) rest in
        MatchResult result (λ end. (refusal ≡ None) × (end ≡ start + row_length rest)) (λ refused. refusal ≡ Some refused) }
{
    let have = bytes.len() as u64;
    let rest = &bytes[start..];
    if rest.is_empty() {
        return Err(DbRefused::Cut(Cut {
            want: start as u64 + 1,
            have,
        }));
    }
    let length = rest[0];
    if longest < u32::from(length) {
        return Err(DbRefused::BadLength(row));
    }
    let size = 5 + usize::from(length);
    if rest.len() < size {
        return Err(DbRefused::Cut(Cut {
            want: start as u64 + size as u64,
            have,
        }));
    }
    if !above(before, &rest[1..size - 4]) {
        return Err(DbRefused::Unsorted(row));
    }
    if u32_at(rest, size - 4) == 0 {
        return Err(DbRefused::ZeroCount(row));
    }
    Ok(start + size)
}
