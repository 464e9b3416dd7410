//! The compression of a shuffle: what was distributed is imported target by target, freed of dummies, and put out.
//!
//! The window is a queue in private memory. What is imported for a target comes arranged by the target's order, and no
//! dummy enters. The laws say that a queue which is fed block by block is the list of places of esa_spec, and that its
//! refusals are decided by counts alone. This crate stands on the items of esa_report and on the kit's ring
//! `circular_buffer`. Only `make` takes memory.
#![tactic(auto)]

pub mod imports;
mod window;

pub use window::{Full, Starved, Window};

#[cfg(test)]
mod tests;
