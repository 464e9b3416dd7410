//! The drain and the compression of an attempt, over the blocks of the external memory.
//!
//! An import reads the chunks and the tail of a target, each block into its place of one buffer, and moves the items into
//! the window of esa_compress, in the order of the target. An output bucket is taken from the window, sealed and written.
//! A tail is what is left in the stash for a target. This crate stands on the floor, esa_floor, on the
//! sealed blocks, esa_vault, and on the window. Only `make` takes memory.
#![tactic(auto)]

mod compress;
mod drain;
mod ends;
mod fetch;
mod halt;
mod import;
mod press;
mod room;
mod store;

pub use ends::{
    compressions_end_attempts, distributed_floors_are_ready, distributed_floors_have_their_turns,
    distributed_floors_hold, drains_end_attempts,
};
pub use halt::Halt;
pub use press::Press;
