//! Vectors from outside: what the standards and other programs say of HMAC, keystream, envelopes and reports.
//! Tests alone, in one crate, since each crate with a test is proved a second time for it.
#![tactic(auto)]

#[cfg(test)]
mod envelopes;
#[cfg(test)]
mod hmac;
#[cfg(test)]
mod reports;
