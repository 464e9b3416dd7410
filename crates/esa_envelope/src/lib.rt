//! Sealed envelopes: a nonce, a cipher text under ChaCha20, and a tag under HMAC-SHA-256.
//!
//! An envelope opens exactly where its tag agrees, and then to the text that was sealed. No call
//! takes memory. The keys come from a master key, in form Two from the master of a key epoch. The crate stands on
//! `esa_bytes`, `esa_hmac`, `esa_params`, `rand_chacha` and `rand_core`.
#![tactic(auto)]

mod envelope;
mod keys;
mod keystream;
mod label;

pub use envelope::{
    Prepared, nonce_of, prepare, seal, seal_and_open, seal_with, unseal, unseal_with,
};
pub use keys::{Keys, epoch_master, keys_of, record_keys};
pub use label::Label;
