//! Submissions that arrive on several threads at once, kept until they become one batch.
//!
//! An intake is a queue that threads share, with one pass for each sender and one for the taker. What was put comes out
//! as often as it was put, and that of each sender in its order. The crate stands on `esa_batcher` and `crossbeam_queue`.
#![tactic(auto)]

mod hand;
mod intake;
mod offer;
mod sealed;

pub use hand::{Closed, Hand};
pub use intake::{Intake, Sender, Stand, Taker};
pub use offer::OfferRefused;
pub use sealed::Sealed;

#[cfg(test)]
mod tests;
