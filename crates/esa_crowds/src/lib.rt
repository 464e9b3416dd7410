//! Which records of a crowd are forwarded.
//!
//! A crowd's first records by tag, inner envelope and position are dropped, as many as a table says of the
//! crowd, and the others are kept where at least a threshold of them is left. What is forwarded is defined by
//! ranks and counts over a list, and its order makes no difference to the database. The crate stands on
//! `esa_hmac` for the tags, `esa_report` for the items, `esa_params` for the forms and `esa_job` for the table
//! of drops. After `Table::make` no call takes memory.
#![tactic(auto)]

pub mod laws;
mod order;
mod row;
mod runs;
mod table;

pub use table::Table;

#[cfg(test)]
mod tests;
