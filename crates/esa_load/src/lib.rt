//! The load of a shuffle: the records of a batch become the blocks of the input.
//!
//! The records of each bucket are read, sealed and written, bucket after bucket. What was written is what the batch gave
//! in this call, and where a bucket could not be read or written, those before it are written and nothing else. Stands on
//! sealed blocks, esa_vault, on the records of a batch, esa_outside, and on what a floor asks of its input, esa_floor.
#![tactic(auto)]

mod bucket;
mod fault;
mod laws;
mod loader;

pub use fault::LoadFault;
pub use laws::loaded_batches_are_input;
pub use loader::Loader;
