//! The bare hash and the bare keystream of the libraries, over zero bytes and under a zero key.

use anyhow::Result;
use rand_chacha::ChaCha20Rng;
use rand_core::SeedableRng;
use rand_core::utils::NextWord;
use sha2::{Digest, Sha256};

/// SHA-256 of so many blocks of 64 zero bytes, the padding's block not counted.
pub fn hash(rt: &impl Print, blocks: u64) -> Result<()> {
    let mut hasher = Sha256::new();
    feed(&mut hasher, &[0u8; 4096], blocks / 64);
    feed(&mut hasher, &[0u8; 64], blocks % 64);
    let digest = hasher.finalize();
    println!(rt;
        "hash of {blocks} blocks begins {:02x}{:02x}",
        digest[0], digest[1]
    )?;
    Ok(())
}

/// Feeds a piece so many times.
fn feed(hasher: &mut Sha256, piece: &[u8], times: u64) {
    for _ in 0..times {
        hasher.update(piece);
    }
}

/// So many words of the ChaCha20 keystream, added up by exclusive or.
pub fn keystream(rt: &impl Print, words: u64) -> Result<()> {
    let mut generator = ChaCha20Rng::from_seed([0u8; 32]);
    let mut sum = 0u32;
    for _ in 0..words {
        sum ^= generator.next_word();
    }
    println!(rt; "keystream of {words} words adds up to {sum:08x}")?;
    Ok(())
}

/// Both at a small size.
pub fn small(rt: &impl Print) -> Result<()> {
    hash(rt, 3)?;
    keystream(rt, 16)
}
