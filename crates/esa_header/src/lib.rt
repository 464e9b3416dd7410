//! The versions of the files, and the header of a file of sealed records.
//!
//! Version 1 of a file carries form One, and version 2 carries form Two. A header has one spelling, and
//! a file is refused by the first test that it fails. The crate takes no memory. It stands on
//! `esa_params` for the forms and on `esa_bytes` for the fields.
#![tactic(auto)]

mod header;
mod version;

pub use header::{FileKind, Header, HeaderRefused, header_length, put_header, read_header};
pub use version::{form_of, version_of};
