//! Room for a block.

ghost use Rattle.std.specs.Prelude.{◌≡◌, ◌<◌, ◌^◌, IfOk};

use std::alloc::{AllocError, Global};
use std::marker::Model;

/// Room for a block and for its text, seen as the length of the text. A block is longer by its nonce and its tag, which
/// have 40 bytes together.
#[derive(Drop)]
pub(crate) struct Room {
    pub(crate) sealed: Vec<u8>,
    pub(crate) text: Vec<u8>,
}

impl Model for Room {
    ghost use Rattle.std.specs.Prelude.{◌≡◌, ◌+◌, ℕ, length};

    ghost Value = { ℕ };

    ghost view = { λ r. length r.text.items };

    ghost invariant = { λ r. length r.sealed.items ≡ length r.text.items + 40 };
}

impl Room {
    /// Room for a block with a text of so many bytes.
    pub(crate) fn make(alloc: Global, length: usize) -> Result<Room, AllocError>
        requires { length < 2 ^ 63 }
        ensures { IfOk result (λ room. room ≡ length) }
    {
        let sealed = vec![in alloc; 0; length + 40]?;
        let text = vec![in alloc; 0; length]?;
        Ok(Room { sealed, text })
    }
}
