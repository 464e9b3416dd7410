//! The numbers of a shuffle: its parameters with their limits, and what follows from them for a batch of a given
//! size, which is the places of each bucket and the number, the length and the nonce of each block of the external
//! memory.
//!
//! A record has one of two forms, which differ in their lengths alone. A block is named by its region and its index
//! there, and has a number only where a device is called. Every limit of the program stands here once, as a constant;
//! what a contract says of it is a number of its own. This crate stands on nothing but the standard library, and
//! takes no memory.
#![tactic(auto)]

mod draw;
mod field;
mod form;
mod limits;
mod params;
mod plan;
mod slot;

pub use draw::Draw;
pub use field::ParamField;
pub use form::Form;
pub use limits::{
    GREATEST_EPOCH, MOST_COINS_BYTES, MOST_CROWDS, MOST_INPUTS, MOST_JOB_BYTES, MOST_OF_A_CROWD,
    MOST_OF_A_NAME, MOST_RECORD_BYTES, MOST_RECORDS, MOST_SHARES, MOST_SUBMISSION_BYTES,
    MOST_TRACE_BYTES, MOST_TURNS, limits_are_stated,
};
pub use params::{Params, ParamsRefused, Settings, check};
pub use plan::Plan;
pub use slot::{Access, Op, Region, Slot};
