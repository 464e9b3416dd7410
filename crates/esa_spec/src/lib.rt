//! What a shuffle does, as plain definitions over numbers and lists, and the coins that it draws.
//!
//! The definitions of `specs/` say which accesses a shuffle makes, whether it succeeds, and in which order the records
//! come out. They count arrivals and slice one line of places for each target, and take no record. This crate stands
//! on the sizes of a shuffle, and takes no memory.
#![tactic(auto)]

mod coins;
mod event;

pub use coins::Coins;
pub use event::{Event, Verdict};

#[cfg(test)]
mod cases;
