//! One item of a block, in each of the two scans.

ghost use Rattle.std.specs.Prelude.{◌≡◌, ◌+◌, ◌<◌, ◌≤◌, ◌++◌, ℕ, List, [], ◌∷◌, length};
ghost use Rattle.std.specs.List.{concat};
ghost use Rattle.esa_crowds.specs.Entries.{entries_from};
ghost use Rattle.esa_crowds.specs.Kept.{sent_from};
ghost use Rattle.esa_hmac.specs.Mac.{StandsFor};
ghost use Rattle.esa_params.specs.Form.{inner_length};
ghost use Rattle.esa_params.specs.Slots.{item_length};
ghost use Rattle.esa_report.specs.Item.{IsItemLength};
ghost use Rattle.esa_scans.specs.Held.{is_marked, is_real, is_real_in, item_held};

use crate::sent::Sent;
use esa_crowds::Table;
use esa_hmac::Mac;
use esa_report::{Kind, kind_at};

/// The bytes of an item before its inner envelope: its kind and the id of its crowd.
const FRONT: usize = 33;

/// Whether a kind is that of a real item.
fn is_real(kind: Option<Kind>) -> bool
    ensures { result ≡ is_real_in kind }
{
    match kind {
        Some(Kind::Real) => true,
        Some(Kind::Dummy) => false,
        Some(Kind::Malformed) => false,
        None => false,
    }
}

/// Whether bytes hold a real item.
fn holds_real(bytes: &[u8]) -> bool
    requires { IsItemLength (length bytes.now) }
    ensures { result ≡ is_real (item_held bytes.now).kind }
{
    is_real(kind_at(bytes))
}

/// Looks at an item in the first scan.
pub(crate) fn look(codes: &Mac, bytes: &[u8], table: &mut Table)
    requires item { length bytes.now ≡ item_length table.old.form }
    requires room { table.old.next < table.old.room }
    ensures entries { (key : List ℕ) → StandsFor codes.now key []
        → table.new.entries ≡ table.old.entries ++ entries_from table.old.form key table.old.next (item_held bytes.now ∷ []) }
    ensures others { table.new ≡ record table.old { next = table.old.next + 1; entries = table.new.entries } }
{
    if holds_real(bytes) {
        table.add(codes, &bytes[1..]);
    } else {
        table.pass();
    }
}

/// Sends an item in the second scan: its inner envelope, where it is real and its position is kept.
pub(crate) fn send(table: &Table, position: u32, bytes: &[u8], sent: &mut Sent)
    requires item { length bytes.now ≡ item_length table.now.form }
    requires position { position < table.now.room }
    requires room { length sent.old.bytes + inner_length table.now.form ≤ sent.old.room }
    ensures bytes { sent.new.bytes ≡ sent.old.bytes ++ concat (sent_from table.now.form (is_marked table.now.kept) position (item_held bytes.now ∷ [])) }
    ensures room { sent.new.room ≡ sent.old.room }
{
    if table.is_kept(position) {
        if holds_real(bytes) {
            sent.put(&bytes[FRONT..]);
        }
    }
}
