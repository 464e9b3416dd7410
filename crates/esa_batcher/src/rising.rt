//! Whether records rise.

ghost use Rattle.std.specs.Prelude.{◌≡◌, ◌+◌, ◌*◌, ◌<◌, ◌^◌, length};
ghost use Rattle.std.specs.Ordering.{is_lt};
ghost use Rattle.esa_header.specs.Pieces.{pieces};
ghost use Rattle.esa_batcher.specs.Rising.{by_bytes, fall_at};

/// Whether a record is below another.
fn is_below(next: &[u8], last: &[u8]) -> bool
    ensures { result ≡ is_lt (by_bytes next.now last.now) }
{
    next.cmp(last).is_lt()
}

/// The first place whose record is below the one before it, where the first of the records stands at
/// the place `first`.
pub(crate) fn first_fall(bytes: &[u8], size: usize, count: u32, first: u32) -> Option<u32>
    requires whole { length bytes.now ≡ size * count }
    requires few { first + count < 2 ^ 32 }
    ensures { result ≡ fall_at first (pieces size count bytes.now) }
{
    let mut rest = bytes;
    for next in 1..count {
        let (last, others) = rest.split_at(size);
        if is_below(&others[..size], last) {
            return Some(first + next);
        }
        rest = others;
    }
    None
}
