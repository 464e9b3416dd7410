//! The two scans of a shuffler's output that forward the records of large crowds.
//!
//! The first scan gathers the real records of all blocks, and the second forwards the inner envelopes at the positions
//! that are kept. Both read every block, whatever the blocks hold. The crate stands on `esa_crowds` for the positions,
//! `esa_vault` for the blocks and `esa_spec` for the accesses. After `Tables::make` no call takes memory.
#![tactic(auto)]

mod block;
mod item;
mod scan;
mod sent;
mod tables;
mod text;

pub use tables::{Tables, threshold};

#[cfg(test)]
mod tests;
