//! Items in the text of a block.

ghost use Rattle.std.specs.Prelude.{◌≡◌, ◌+◌, ◌*◌, ◌≤◌, All, length};
ghost use Rattle.esa_params.specs.Slots.{item_length};
ghost use Rattle.esa_report.specs.Item.{IsItemLength, item_in};
ghost use Rattle.esa_vault.specs.Filled.{bytes_at, text_of};
ghost use Rattle.esa_vault.specs.Placed.{IsSpelled};

use esa_params::Form;
use esa_report::{Item, item_at};

/// Writes items into the text of a block, one after another, each in 137 or 265 bytes by the form.
pub fn put_items(form: Form, items: &[Item], text: &mut [u8])
    requires spelled { All (IsSpelled (item_length form)) items.now }
    requires whole { length text.old ≡ length items.now * item_length form }
    ensures { text.new ≡ text_of (item_length form) items.now }
{
    write_all(item_length(form), items, text);
}

/// The item at a place of a block's text. None exactly where its bytes hold none.
pub fn item_in_text(form: Form, text: &[u8], place: usize) -> Option<Item>
    requires { place * item_length form + item_length form ≤ length text.now }
    ensures { result ≡ item_in (bytes_at (item_length form) text.now place) }
{
    let size = item_length(form);
    let at = place * size;
    item_at(&text[at..at + size])
}

/// The length of an item of a form, in bytes.
pub(crate) fn item_length(form: Form) -> usize
    ensures value { result ≡ item_length form }
    ensures length { IsItemLength result }
{
    form.body() as usize + 1
}

/// Writes items, so many bytes for each.
fn write_all(size: usize, items: &[Item], text: &mut [u8])
    requires length { IsItemLength size }
    requires spelled { All (IsSpelled size) items.now }
    requires whole { length text.old ≡ length items.now * size }
    ensures { text.new ≡ text_of size items.now }
{
    for place in 0..items.len() {
        let at = place * size;
        items[place].put(&mut text[at..at + size]);
    }
}
