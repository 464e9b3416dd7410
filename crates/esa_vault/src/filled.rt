//! The items of a block's text.

ghost use Rattle.std.specs.Prelude.{◌≡◌, length};
ghost use Rattle.esa_report.specs.Item.{IsItemLength, kind_held};
ghost use Rattle.esa_vault.specs.Filled.{is_filled, suits};

use esa_report::{Kind, kind_at};

/// Whether each item of the text, of so many bytes each, is well formed, the first ones up to `count` are no
/// dummies, and the rest are.
pub(crate) fn is_filled(size: usize, count: u32, text: &[u8]) -> bool
    requires { IsItemLength size }
    ensures { result ≡ is_filled size count text.now }
{
    for place in 0..text.len() / size {
        let at = place * size;
        if !suits(count, place, &text[at..at + size]) {
            return false;
        }
    }
    true
}

/// Whether bytes hold an item that may stand at a place, where dummies stand from `count` on.
fn suits(count: u32, place: usize, bytes: &[u8]) -> bool
    requires { IsItemLength (length bytes.now) }
    ensures { result ≡ suits count place (kind_held bytes.now) }
{
    match kind_at(bytes) {
        None => false,
        Some(Kind::Dummy) => count as usize <= place,
        Some(Kind::Real) => place < count as usize,
        Some(Kind::Malformed) => place < count as usize,
    }
}
