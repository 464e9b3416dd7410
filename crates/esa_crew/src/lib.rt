//! The crew of a floor: workers whose turns are taken in some order until the attempt is over.
//!
//! A replay takes turns that were handed in, on one thread. It completes them, so that the attempt comes to its end
//! whatever they are. Stands on the floor, esa_floor, and on the laws of completed lists, esa_laws.
#![tactic(auto)]

mod begins;
mod ends;
mod loads;
mod members;
mod replays;

pub use begins::begin;
pub use ends::{
    accesses_that_were_made, drains_follow, failed_attempts_lead_on, runs_end_with_a_turn,
    runs_end_with_an_access, runs_end_with_the_load, runs_end_with_their_attempts,
    turns_that_were_made, written_chunks_are_stored,
};
pub use loads::loaded_floors_begin;
pub use members::workers;
pub use replays::replay;
