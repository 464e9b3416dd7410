//! What run and shuffle take in: job, keys, drops, turns, batch and coins, in this order, each judged before the next is
//! read. What is asked for by them stands in specs/Run.antt, and what a plan, keys and turns it comes to in
//! specs/Wanted.antt. Beside it, how the turns of a history are written down. It stands on the skeleton of commands
//! (esa_command), on what the forecast takes in (esa_shuffling) and on the scan of a batch (esa_batcher).
#![tactic(auto)]

mod input;
mod keys;
mod stored_turns;
mod taking;

pub use input::{RunInput, take_run};
pub use stored_turns::write_turns;
