//! What a shuffle will do, by numbers alone: the turns that are handed in for it, and the forecast of its accesses and
//! of how its attempts end.
//!
//! `Turns::read` gives exactly the lists of a turns file, or the first line that is refused. `Predictor::run` gives
//! exactly the verdicts and the accesses of the definitions of `esa_spec`, over any coins, and takes no memory. The crate
//! stands on those definitions, on their laws in `esa_laws`, and on the sizes of `esa_params`; it takes no record
//! anywhere. It gives out `Event` and `Verdict` again.
#![tactic(auto)]

mod attempt;
mod completion;
mod compression;
mod distribution;
mod draft;
mod forecast;
mod lines;
mod predictor;
mod rounds;
mod stored;
mod trace;
mod turns;
mod word;

pub use completion::{most_turns, worker_at};
pub use esa_spec::{Event, Verdict};
pub use forecast::Forecast;
pub use predictor::Predictor;
pub use stored::StoredCoins;
pub use turns::{Turns, TurnsRefused};
