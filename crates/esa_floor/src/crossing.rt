//! Floors and workers in threads.
//!
//! The functions give back what they take. They are there so that it is checked, whatever the device, the coins and what
//! isn't kept, that these values may be in threads.

ghost use Rattle.std.specs.Prelude.{◌≡◌};

use crate::floor::Floor;
use crate::told::Told;
use crate::worker::Worker;
use esa_device::Device;
use esa_spec::Coins;
use esa_turnstile::{Pass, Turnstile};

/// The value, which may go to another thread.
fn sent<T: Send>(value: T) -> T
    ensures { result ≡ value }
{
    value
}

/// The value, which threads may share.
fn shared<T: Sync>(value: T) -> T
    ensures { result ≡ value }
{
    value
}

/// Threads share the turnstile of a floor and take its passes along, where its device may go from one to another.
pub fn crossed_floor<V: Device + Send, G: Told + Send>(
    turnstile: Turnstile<Floor<V, G>>,
    pass: Pass<Floor<V, G>>,
) -> (Turnstile<Floor<V, G>>, Pass<Floor<V, G>>)
    ensures { result ≡ (turnstile, pass) }
{
    (shared(turnstile), sent(pass))
}

/// A worker may go to another thread, where threads may share its coins.
pub fn crossed_worker<'c, C: Coins + Sync>(worker: Worker<'c, C>) -> Worker<'c, C>
    ensures { result ≡ worker.entry }
{
    sent(worker)
}
