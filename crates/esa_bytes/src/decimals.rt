//! Numbers below 2^64 in decimal digits.

ghost use Rattle.std.specs.Prelude.{◌≡◌, ◌==◌, length, take, drop, slice_index, Some, IfSome};
ghost use Rattle.esa_bytes.specs.Decimal.{decimal_in, decimal_of, has_leading_zero};

use itoa::Buffer;

/// The number that the digits write. None exactly where the bytes aren't digits alone, have a
/// superfluous leading zero, or write a number of 2^64 or more. So a number has one spelling.
pub fn decimal(bytes: &[u8]) -> Option<u64>
    ensures value { result ≡ decimal_in bytes.now }
    ensures one_spelling { IfSome result (λ number. decimal_of number ≡ bytes.now) }
{
    if has_leading_zero(bytes) {
        return None;
    }
    if begins_with_plus(bytes) {
        return None;
    }
    match std::str::from_utf8(bytes) {
        Ok(text) => text.parse().ok(),
        Err(_) => None,
    }
}

/// Whether a zero stands before another byte.
fn has_leading_zero(bytes: &[u8]) -> bool
    ensures { result ≡ has_leading_zero bytes.now }
{
    match bytes {
        [first, _, ..] => *first == b'0',
        _ => false,
    }
}

/// Whether the first byte is a plus, which std's reader would skip.
fn begins_with_plus(bytes: &[u8]) -> bool
    ensures { result ≡ (slice_index bytes.now 0 == 43) }
{
    match bytes {
        [first, ..] => *first == b'+',
        [] => false,
    }
}

/// Writes the digits of `v` to the front of `out` and answers their number. The bytes behind them
/// stay.
pub fn put_decimal(v: u64, out: &mut [u8; 20]) -> usize
    ensures digits { take result out.new ≡ decimal_of v }
    ensures behind { drop result out.new ≡ drop result out.old }
    ensures number { result ≡ length (decimal_of v) }
    ensures reads_back { decimal_in (decimal_of v) ≡ Some v }
{
    let mut buffer = Buffer::new();
    let text = buffer.format(v).as_bytes();
    out[..text.len()].copy_from_slice(text);
    text.len()
}
