//! The bounded stash of a shuffle's distribution: a queue of items for each target, all in one arena of cells.
//!
//! In an exchange a bucket hands over its items, each with its target, and gets a chunk for each target, which is filled
//! from the target's queue first and then from the items in order. What finds its chunk full stays queued, and no more
//! stays than the stash holds. The contracts say one exchange in one step, and over every list of exchanges since the
//! stash was empty by the queue of esa_spec, whose laws esa_laws has. The items are those of esa_report. Only `make`
//! takes memory.
#![tactic(auto)]

mod cells;
mod dealing;
mod links;
mod stash;
mod totals;

pub use cells::Cells;
pub use stash::{Left, Overflow, Stash};

#[cfg(test)]
mod plain;
#[cfg(test)]
mod tests;
