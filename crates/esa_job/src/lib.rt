//! Jobs: what a command is asked to do, with the keys and the drops that it is given.
//!
//! A job is a JSON object. What its fields are called, of which types they are, which commands need, may have or ignore
//! them and how large their numbers may be is one table, with a row for each field, and a job is refused for the first
//! thing that is wrong with it in the order of that table: `Job::read` answers exactly
//! this refusal, or a job whose fields are there, of their types and within their limits. A `Job` keeps what the values of
//! its fields stand for, which is found once, when it is read. Keys are read in the same way, and drops line by line.
//! Only reading takes memory. The crate stands on `esa_json`, `esa_params`,
//! `esa_bytes` and `hex`.
#![tactic(auto)]

mod command;
mod decoded;
mod draft;
mod drops;
mod field;
mod job;
mod keys;
mod table;
mod value;

pub use command::{Command, command_of};
pub use drops::{Drops, DropsRefused};
pub use field::{JobField, Need};
pub use job::{Job, JobRefused};
pub use keys::{KeyField, KeyRing, KeysRefused};
pub use value::Mode;
