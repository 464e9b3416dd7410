//! A ticket lock over two words and one slot, whose value keeps a list of who entered.
//!
//! Passes are handed out by number. A pass that enters finds a value whose entries begin with all that the pass has
//! seen, and leaves it with its own number added. Once all passes are back, the value is given up, and each number
//! stands in it as often as its pass entered. It stands on `atomic_table`.
#![tactic(auto)]

mod logged;
mod pass;
mod plays;
mod roll;
mod rounds;
#[cfg(test)]
mod tests;
mod turnstile;
mod view;

pub use logged::Logged;
pub use pass::{Held, Pass};
pub use roll::Roll;
pub use rounds::{all_rounds, go_round, go_rounds, two_workers, workers};
pub use turnstile::{NoTurnstile, Opened, Turnstile};
