//! The floor of a shuffle's distribution: one turn at a time, for any list of turns.
//!
//! A floor keeps the recorder of the device, the history of all turns, the stash and the counts of the chunks. It stands
//! for its history: the accesses that were made, the lengths of the queues, the counts, and whether and why the turns
//! have stopped are functions of the plan, the draws and the history. It is the value of a turnstile, so that workers may
//! take their turns from threads. Stands on the sealed blocks, esa_vault, the stash, esa_stash, the definitions of a
//! shuffle, esa_spec, and the lock, esa_turnstile.
#![tactic(auto)]

mod acts;
mod buffers;
mod crossing;
mod exchanger;
mod floor;
mod kept;
mod logged;
mod private;
mod slots;
mod told;
mod turn;
mod worker;

pub use crossing::{crossed_floor, crossed_worker};
pub use floor::{Floor, Given, History, NoFloor, Roots};
pub use kept::ended_floors_are_kept;
pub use slots::{
    attempts_have_their_turns, each_write_takes_its_block, latest_writes_moved_their_bytes,
    latest_writes_took_their_blocks,
};
pub use told::Told;
pub use turn::{Outcome, Stop, Turn};
pub use worker::{Stage, Worker};
