//! Writes a trace as a file.
//!
//! A trace is the list of the accesses to external memory. Its file has a header with their number, and nineteen
//! bytes for each. `write_trace` writes exactly these bytes, and takes no memory.
//!
//! The crate stands on `esa_spec` for what the bytes are, and on `esa_page` and `esa_outside` for files.
#![tactic(auto)]

mod bytes;
mod fits;
mod write;

pub use fits::traces_fit;
pub use write::write_trace;
