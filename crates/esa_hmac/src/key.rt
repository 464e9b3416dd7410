//! The block that a key becomes, and its two masks.

ghost use Rattle.std.specs.Prelude.{◌≡◌, ◌≤◌, length};
ghost use Rattle.esa_hmac.specs.Hmac.{key_block, masked, padded};

use sha2::{Digest, Sha256};

/// The length of a block of SHA-256, in bytes.
const BLOCK: usize = 64;

/// The key as one block: hashed first where it is longer than a block, and then padded.
pub(crate) fn key_block(key: &[u8]) -> [u8; 64]
    ensures { result ≡ key_block key.now }
{
    if key.len() > BLOCK {
        return padded(&Sha256::digest(key));
    }
    padded(key)
}

/// The bytes, followed by zero bytes up to a block.
fn padded(bytes: &[u8]) -> [u8; 64]
    requires { length bytes.now ≤ 64 }
    ensures { result ≡ padded bytes.now }
{
    let mut block = [0; BLOCK];
    block[..bytes.len()].copy_from_slice(bytes);
    block
}

/// Each byte of the block xor the mask.
pub(crate) fn masked(mask: u8, block: &[u8; 64]) -> [u8; 64]
    ensures { result ≡ masked mask block.now }
{
    let mut out = *block;
    for place in 0..BLOCK {
        out[place] ^= mask;
    }
    out
}
