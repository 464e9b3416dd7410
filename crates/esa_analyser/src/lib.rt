//! Counts opened reports into a database, and reads and writes databases.
//!
//! A database has each value that was reported with how often it was, by rising values, and the number of
//! envelopes that gave none. What `Analysis` counts is that of the list of envelopes, whatever their order.
//! A database file has one spelling in each version: `read_db` accepts exactly those, and `Analysis::write`
//! and `write_db` write them. Counting and writing take no memory.
//!
//! The crate stands on `esa_envelope` and `esa_report` for what an envelope says, on `esa_header` for the
//! versions, on `esa_page` and `esa_outside` for files and lines, and on `esa_lists` for the laws of tallies.
#![tactic(auto)]

mod analysis;
mod db;
mod kept;
mod key;
mod keys;
mod put;
mod refused;
mod repeated;
mod row;
mod write;

pub use analysis::Analysis;
pub use db::{Db, read_db};
pub use put::{LONGEST, front, spell_row};
pub use refused::DbRefused;
pub use write::write_db;
