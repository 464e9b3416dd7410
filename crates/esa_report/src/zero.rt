//! Zero bytes.

ghost use Rattle.std.specs.Prelude.{◌≡◌};
ghost use Rattle.esa_report.specs.Zero.{is_zero};

/// Whether all bytes are zero: the first is, and each other one equals the one before it. So whole
/// slices are compared, and not byte by byte.
pub(crate) fn is_zero(bytes: &[u8]) -> bool
    ensures { result ≡ is_zero bytes.now }
{
    if bytes.is_empty() {
        return true;
    }
    let before = &bytes[..bytes.len() - 1];
    bytes[0] == 0 && before == &bytes[1..]
}
