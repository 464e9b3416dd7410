//! Batches: submissions become the one rising list of their envelopes, and the file of it.
//!
//! A batch has no moments and no senders, and doesn't depend on the order of its lines. Its file has
//! one spelling and is refused by the first test that it fails, whether it is read whole or through a
//! buffer. The crate stands on `esa_line`, `esa_header`, `esa_outside` and `esa_page`.
#![tactic(auto)]

mod arrange;
mod batch;
mod batcher;
mod digits;
mod envelopes;
mod file;
mod laws;
mod lines;
mod order;
mod piece;
mod read;
mod refused;
mod rising;
mod scan;

pub use batch::Batch;
pub use batcher::{Batcher, envelope_of};
pub use file::{BatchFile, Standing};
pub use laws::same_envelopes_same_file;
pub use lines::gather;
pub use read::read_batch;
pub use refused::{AddRefused, BatchRefused};
pub use scan::{ScanRefused, Scanned, scan_batch};
