//! HMAC-SHA-256 (RFC 2104, FIPS 198-1), in one call or fed piece by piece.
//!
//! Each answer is the standard's HMAC of the key and the whole message, however the message came
//! in. No call refuses and none takes memory. The crate stands on `sha2`.
#![tactic(auto)]

mod key;
mod mac;

pub use mac::{Mac, derive, hmac};
