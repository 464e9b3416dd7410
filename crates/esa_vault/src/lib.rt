//! Sealed blocks in an external memory that isn't trusted.
//!
//! A block is sealed under the run key with the nonce of its slot and attempt. What is read back is taken only
//! where it opens: the nonce and the tag agree, and the items are as many as the shuffler wrote there. The
//! crate stands on `esa_device` for the memory, `esa_envelope` for the seals, `esa_params` for the slots and
//! `esa_report` for the items. No call takes memory.
#![tactic(auto)]

mod block;
mod fault;
mod filled;
mod get;
mod item;
pub mod laws;
mod put;
mod text;

pub use block::seal_block;
pub use fault::VaultFault;
pub use get::get_block;
pub use item::item_of;
pub use put::{put_block, write_block};
pub use text::{item_in_text, put_items};

#[cfg(test)]
mod tests;
