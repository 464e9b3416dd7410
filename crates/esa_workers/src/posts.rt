//! A worker with its pass.

use esa_floor::{Floor, Worker};
use esa_turnstile::Pass;

/// Somebody with a pass of a turnstile.
#[derive(Drop)]
pub struct Manned<W, T> {
    /// Who has the pass.
    pub worker: W,
    /// The pass.
    pub pass: Pass<T>,
}

/// A worker with its pass of the turnstile of a floor.
pub type Post<'c, V, G, C> = Manned<Worker<'c, C>, Floor<V, G>>;
