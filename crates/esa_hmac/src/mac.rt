//! A message authentication code that is fed piece by piece.

ghost use Rattle.std.specs.Prelude.{◌≡◌, ℕ, List, [], ◌++◌};

use crate::key::{key_block, masked};
use sha2::{Digest, Sha256};

/// The mask of the key block before the message.
const INNER_MASK: u8 = 0x36;

/// The mask of the key block before the inner digest.
const OUTER_MASK: u8 = 0x5c;

/// HMAC-SHA-256 under way: a key, and the message so far.
#[derive(Clone, Drop)]
pub struct Mac {
    inner: Sha256,
    outer: Sha256,
}

impl Mac {
    ghost use Rattle.esa_hmac.specs.Hmac.{hmac};
    ghost use Rattle.esa_hmac.specs.Mac.{StandsFor};

    /// Begins with a key of any length and the empty message.
    pub fn start(key: &[u8]) -> Mac
        ensures { StandsFor result key.now [] }
    {
        let block = key_block(key);
        let mut inner = Sha256::new();
        inner.update(&masked(INNER_MASK, &block));
        let mut outer = Sha256::new();
        outer.update(&masked(OUTER_MASK, &block));
        Mac { inner, outer }
    }

    /// Adds the bytes to the message.
    pub fn feed(&mut self, bytes: &[u8])
        ensures { (key message : List ℕ) → StandsFor self.old key message
            → StandsFor self.new key (message ++ bytes.now) }
    {
        self.inner.update(bytes);
    }

    /// The HMAC of the key and the message.
    #[tactic(auto, unfolding(crate::specs::Hmac::hmac))]
    pub fn finish(mut self) -> [u8; 32]
        ensures { (key message : List ℕ) → StandsFor self key message → result ≡ hmac key message }
    {
        self.outer.update(&self.inner.finalize());
        self.outer.finalize()
    }

    /// A second Mac of the same key and message. So a key is prepared once for many messages.
    pub fn again(&self) -> Mac
        ensures { result ≡ self.now }
    {
        self.clone().unwrap()
    }
}

ghost use Rattle.esa_hmac.specs.Hmac.{hmac};

/// The HMAC of a key of any length and a message.
pub fn hmac(key: &[u8], message: &[u8]) -> [u8; 32]
    ensures { result ≡ hmac key.now message.now }
{
    let mut mac = Mac::start(key);
    mac.feed(message);
    mac.finish()
}

/// The key that a master key of 32 bytes gives for a text: the HMAC of the two.
pub fn derive(master: &[u8; 32], text: &[u8]) -> [u8; 32]
    ensures { result ≡ hmac master.now text.now }
{
    hmac(master, text)
}
