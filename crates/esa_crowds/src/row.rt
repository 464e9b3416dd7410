//! One record in a table.

ghost use Rattle.std.specs.Prelude.{◌≡◌, ◌+◌, ◌-◌, ◌≤◌, ◌++◌, ℕ, List, [], length, replicate};
ghost use Rattle.esa_hmac.specs.Hmac.{hmac};
ghost use Rattle.esa_hmac.specs.Mac.{StandsFor};
ghost use Rattle.esa_params.specs.declared.form.Form.{Form};
ghost use Rattle.esa_params.specs.Form.{inner_length};
ghost use Rattle.esa_crowds.specs.Entries.{entry_in};
ghost use Rattle.esa_crowds.specs.Rows.{IsPadded, entry_row};

use esa_hmac::Mac;

/// The length of a crowd id, in bytes.
const CROWD: usize = 32;

/// The length of the longest inner envelope, in bytes.
const INNER: usize = 232;

/// One real record. Rows are compared by crowd, then by tag, then by inner envelope, then by position.
#[derive(Clone, Copy, PartialEq, Eq, PartialOrd, Ord)]
pub(crate) struct Row {
    /// The id of its crowd.
    pub(crate) crowd: [u8; 32],
    /// The code of its inner envelope.
    pub(crate) tag: [u8; 32],
    /// Its inner envelope, followed by zero bytes up to the longest one.
    pub(crate) inner: [u8; 232],
    /// Its position in the list.
    pub(crate) position: u32,
}

/// The row of an outer plain text at a position. The tag is made with a Mac of the key and the empty message.
pub(crate) fn row_of(tags: &Mac, position: u32, text: &[u8]) -> Row
    requires { (form : Form) × (length text.now ≡ 32 + inner_length form) }
    ensures entry { (form : Form) (key : List ℕ) → length text.now ≡ 32 + inner_length form → StandsFor tags.now key []
        → entry_row form result ≡ entry_in form key position text.now }
    ensures padded { (form : Form) → length text.now ≡ 32 + inner_length form → IsPadded form result }
    ensures position { result.position ≡ position }
{
    let (id, envelope) = text.split_at(CROWD);
    let mut crowd = [0; CROWD];
    crowd.copy_from_slice(id);
    Row {
        crowd,
        tag: code(tags, envelope),
        inner: padded(envelope),
        position,
    }
}

/// The bytes, followed by zero bytes up to the longest inner envelope.
fn padded(bytes: &[u8]) -> [u8; 232]
    requires { length bytes.now ≤ 232 }
    ensures { result ≡ bytes.now ++ replicate (232 - length bytes.now) 0 }
{
    let mut inner = [0; INNER];
    inner[..bytes.len()].copy_from_slice(bytes);
    inner
}

/// The code of a message, by a Mac of the key and the empty message.
pub(crate) fn code(codes: &Mac, message: &[u8]) -> [u8; 32]
    ensures { (key : List ℕ) → StandsFor codes.now key [] → result ≡ hmac key message.now }
{
    let mut mac = codes.again();
    mac.feed(message);
    mac.finish()
}
