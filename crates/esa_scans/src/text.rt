//! The items of a block's text, in each of the two scans.

ghost use Rattle.std.specs.Prelude.{◌≡◌, ◌+◌, ◌*◌, ◌^◌, ◌<◌, ◌≤◌, ◌++◌, ℕ, List, [], length};
ghost use Rattle.std.specs.List.{concat};
ghost use Rattle.esa_crowds.specs.Entries.{entries_from};
ghost use Rattle.esa_crowds.specs.Kept.{sent_from};
ghost use Rattle.esa_hmac.specs.Mac.{StandsFor};
ghost use Rattle.esa_params.specs.Form.{inner_length};
ghost use Rattle.esa_params.specs.Slots.{item_length};
ghost use Rattle.esa_scans.specs.Held.{is_marked, items_in};

use crate::item::{look, send};
use crate::sent::Sent;
use esa_crowds::Table;
use esa_hmac::Mac;
use esa_params::Form;

/// Looks at the items of a text, one after another.
pub(crate) fn look_all(form: Form, count: u32, codes: &Mac, text: &[u8], table: &mut Table)
    requires form { table.old.form ≡ form }
    requires whole { length text.now ≡ item_length form * count }
    requires room { table.old.next + count ≤ table.old.room }
    ensures entries { (key : List ℕ) → StandsFor codes.now key []
        → table.new.entries ≡ table.old.entries ++ entries_from form key table.old.next (items_in (item_length form) count text.now) }
    ensures others { table.new ≡ record table.old { next = table.old.next + count; entries = table.new.entries } }
{
    let size = form.body() as usize + 1;
    for place in 0..count as usize {
        let at = place * size;
        look(codes, &text[at..at + size], table);
    }
}

/// Sends the items of a text, the first of which stands at a position.
pub(crate) fn send_all(
    form: Form,
    count: u32,
    first: u32,
    table: &Table,
    text: &[u8],
    sent: &mut Sent,
)
    requires form { table.now.form ≡ form }
    requires whole { length text.now ≡ item_length form * count }
    requires positions { first + count ≤ table.now.room }
    requires few { first + count < 2 ^ 32 }
    requires room { length sent.old.bytes + count * inner_length form ≤ sent.old.room }
    ensures bytes { sent.new.bytes ≡ sent.old.bytes ++ concat (sent_from form (is_marked table.now.kept) first (items_in (item_length form) count text.now)) }
    ensures room { sent.new.room ≡ sent.old.room }
{
    let size = form.body() as usize + 1;
    for place in 0..count {
        let at = place as usize * size;
        send(table, first + place, &text[at..at + size], sent);
    }
}
