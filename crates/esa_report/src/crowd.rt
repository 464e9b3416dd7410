//! The id of a crowd.

ghost use Rattle.std.specs.Prelude.{◌≡◌};
ghost use Rattle.sha2.specs.Sha256.{sha256};

use sha2::{Digest, Sha256};

/// The id of a crowd: the SHA-256 of its text.
pub fn crowd_of(text: &[u8]) -> [u8; 32]
    ensures { result ≡ sha256 text.now }
{
    Sha256::digest(text)
}
