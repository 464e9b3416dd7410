//! Laws over the definitions of a shuffle: each is what a function with an empty body ensures.
//!
//! The functions do nothing when they run. They are there so that each law is proved where a contract names it. This
//! crate stands on the definitions alone, and takes no memory.
#![tactic(auto)]

pub mod attempts;
pub mod completions;
pub mod files;
pub mod histories;
pub mod lengths;
pub mod lines;
pub mod nonces;
pub mod orders;
pub mod permutations;
pub mod queues;
pub mod rounds;
pub mod sizes;
pub mod spreads;
pub mod turns;
pub mod windows;
