//! Running workers: each takes its turns on the floor of a turnstile, from a thread of its own.
//!
//! A worker enters by its pass, has one turn, leaves, and then does its private work. So it goes on until no bucket is
//! left, or the turns have stopped, or no attempt is at work. Who has met all passes afterwards finds all chunks written
//! or a stop, whatever the schedule was. Stands on the floor, esa_floor, and the lock, esa_turnstile.
#![tactic(auto)]

mod crews;
mod distributions;
mod gates;
mod manning;
mod meetings;
mod owners;
mod posts;
mod works;

pub use crews::crew;
pub use distributions::distribute;
pub use gates::{Gate, OpenGate};
pub use manning::{dismiss, man};
pub use owners::{crews_leave_no_chunk, workers_leave_no_chunk};
pub use posts::{Manned, Post};
pub use works::work;
