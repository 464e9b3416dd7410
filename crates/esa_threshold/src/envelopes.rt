//! The envelopes of a forward file, and what the file says of them.

ghost use Rattle.std.specs.Prelude.{◌≡◌, ◌≤◌, length, drop};

use esa_params::Form;
use std::marker::Model;

/// Envelopes of one length, joined, in the bytes of their file.
#[derive(Drop)]
pub struct Envelopes {
    file: Vec<u8>,
    start: usize,
}

impl Model for Envelopes {
    ghost use Rattle.std.specs.Prelude.{List, ℕ, ◌≤◌, length, drop};

    ghost Value = { List ℕ };

    ghost view = { λ envelopes. drop envelopes.start envelopes.file.items };

    ghost invariant = { λ envelopes. envelopes.start ≤ length envelopes.file.items };
}

impl Envelopes {
    /// The envelopes that stand in a file from a place on.
    pub(crate) fn behind(file: Vec<u8>, start: usize) -> Self
        requires { start ≤ length file.items }
        ensures { result ≡ drop start file.items }
    {
        Envelopes { file, start }
    }

    /// The envelopes, one after another.
    pub fn bytes(&self) -> &[u8]
        ensures { result.now ≡ self.now }
    {
        &self.file[self.start..]
    }
}

/// What a forward file says.
#[derive(Drop)]
pub struct Forwarded {
    /// The form of the envelopes, which the version gives.
    pub form: Form,
    /// Their key epoch: 0 in version 1.
    pub epoch: u32,
    /// The inner envelopes, in the file's order.
    pub envelopes: Envelopes,
}
