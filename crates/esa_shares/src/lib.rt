//! Secret shares of values, after Shamir: a value that opens only where enough of its shares came in.
//!
//! The bytes of a secret are the constants of polynomials over the field of 256 elements. Shares at as many points as a
//! polynomial has coefficients give the secret back, whichever points they are: that is a clause of [`recover`]. Shares
//! at fewer points fit every secret of their length: [`explain`] gives the coefficients that say so. That the elements
//! are a field is proved from the product of polynomials. [`ShareShaper`] sends each value as a share record in place of
//! it, and [`open_shares`] says whether shares give back the value of their mark.
//!
//! The crate stands on `esa_encoder`, `esa_hmac`, `esa_params` and `sha2`, its tests on `esa_envelope` and `esa_line`.
#![tactic(auto)]

mod field;
mod newton;
mod opening;
mod polynomial;
mod shaper;
#[cfg(test)]
mod tests;

pub use field::{inverse, mul};
pub use newton::explain;
pub use opening::{is_share, open_shares};
pub use polynomial::{evaluate, recover};
pub use shaper::ShareShaper;
