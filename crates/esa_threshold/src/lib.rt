//! What a shuffler forwards: the file of the inner envelopes that are left, in shuffled order.
//!
//! A forward file has one spelling for each form, epoch and list, and a file is refused by the first
//! test that it fails. The crate stands on `esa_header`, and on `esa_page` to write the file.
#![tactic(auto)]

mod envelopes;
mod forward;
mod refused;
mod write;

pub use envelopes::{Envelopes, Forwarded};
pub use forward::{forward_header, forward_of, read_forward};
pub use refused::ForwardRefused;
pub use write::write_forward;
