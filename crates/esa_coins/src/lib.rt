//! Coins: what a shuffle draws, from a seed or from a file.
//!
//! Coins give for each attempt and bucket a list of targets, and for each target an order. `SeededCoins` draws them from
//! a seed by ChaCha20, each target by itself or all of a bucket together, among separators: by the definitions of the
//! kit's `rand` and `rand_chacha`, so that another program over the same crates draws the same numbers. `TableCoins`
//! reads them from a JSON file, which `serde_json` and `esa_json` define: it accepts exactly the files with such lists,
//! and refuses the others at their first bad place. `AnyCoins` are coins of either kind, as a job asks for. The crate
//! gives out the trait `Coins` of `esa_spec` and the `Draw` of `esa_params` again.
#![tactic(auto)]

mod any;
mod attempt;
mod draws;
mod lists;
mod orders;
mod refused;
mod seeded;
mod streams;
mod table;
#[cfg(test)]
mod tests;

pub use any::AnyCoins;
pub use esa_params::Draw;
pub use esa_spec::Coins;
pub use refused::CoinsRefused;
pub use seeded::SeededCoins;
pub use streams::streams_differ;
pub use table::TableCoins;
