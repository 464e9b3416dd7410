//! Writes a file through a page of fixed size.
//!
//! Bytes wait in the page until it is full, and go to the file's end together. So a file of any length is
//! written in few calls, and without memory. A file that lies in memory in two parts is written as they are.
//! What a failed call leaves is a front of the whole file. The crate also has the words for a file that is
//! read in pieces. It stands on `esa_outside`.
#![tactic(auto)]

mod page;
mod parts;

pub use page::{PAGE, Page};
pub use parts::write_parts;
