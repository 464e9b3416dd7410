//! The keystream of ChaCha20, and text under it.

ghost use Rattle.std.specs.Prelude.{◌≡◌, ◌≤◌, length, slice_index, EachIndex, bit_xor};
ghost use Rattle.std.specs.Int.{w32, to_le_bytes};
ghost use Rattle.rand_chacha.specs.ChaCha.{key_of};
ghost use Rattle.esa_envelope.specs.Keystream.{ciphered};

use rand_chacha::ChaCha20Rng;
use rand_core::SeedableRng;
use rand_core::utils::NextWord;

/// The bytes of a word of the keystream.
const WORD: usize = 4;

/// Writes each byte of `from` xor its byte of the keystream into `into`, of the same length.
pub(crate) fn cipher(key: &[u8; 32], nonce: u64, from: &[u8], into: &mut [u8])
    requires { length into.old ≡ length from.now }
    ensures { into.new ≡ ciphered key.now nonce 0 from.now }
{
    let mut words = keystream(key, nonce);
    let whole = from.len() / WORD;
    for word in 0..whole {
        let at = WORD * word;
        mask_word(
            words.next_word(),
            &from[at..at + WORD],
            &mut into[at..at + WORD],
        );
    }
    let at = WORD * whole;
    mask_word(words.next_word(), &from[at..], &mut into[at..]);
}

/// The keystream of a key and a nonce.
fn keystream(key: &[u8; 32], nonce: u64) -> ChaCha20Rng
    ensures { result ≡ record { key = key_of key.now; stream = nonce; word_pos = 0 } }
{
    let mut words = ChaCha20Rng::from_seed(*key);
    words.set_stream(nonce);
    words
}

/// Writes each byte of `from`, at most four, xor the word's byte at its place into `into`, of the
/// same length. The word's lowest byte comes first.
fn mask_word(word: u32, from: &[u8], into: &mut [u8])
    requires same_length { length into.old ≡ length from.now }
    requires one_word { length from.now ≤ 4 }
    ensures { EachIndex into.new (λ k. slice_index into.new k
        ≡ bit_xor (slice_index from.now k) (slice_index (to_le_bytes w32 word) k)) }
{
    let mask = word.to_le_bytes();
    for place in 0..from.len() {
        into[place] = from[place] ^ mask[place];
    }
}
