//! What share records of a database give back, after Shamir: a value opens where enough reporters sent a share of it.
//!
//! The share records with one number of shares that it takes, one mark and one length are a group. Of each point its least
//! share counts, and the shares of the least points, as many as it takes, give back a value, which stands only where the
//! mark is its own. [`Recovered`] is the database of what the rows of a database mean.
//!
//! The crate stands on `esa_shares` for the arithmetic, and on `esa_analyser` for databases.
#![tactic(auto)]

mod group;
mod groups;
mod members;
mod recovered;
mod refused;
mod spelled;
mod sums;
mod tally;
#[cfg(test)]
mod tests;

pub use recovered::Recovered;
pub use refused::RecoverRefused;
