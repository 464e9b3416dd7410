//! The turnstile and what its calls give.
ghost use Rattle.std.specs.Prelude.{◌≡◌, ◌<◌};

mod bells;
mod close;
mod enter;
mod leave;
mod make;
mod meet;

use crate::logged::Logged;
use crate::pass::Pass;
use crate::plays::Lock;
use crate::view::{About, View};
use atomic_table::Table;
use bells::Bells;
use std::alloc::Global;

/// The next ticket to be drawn, and the ticket that is served.
const NEXT: usize = 0;

const SERVED: usize = 1;

const SLOT: usize = 0;

/// A ticket lock round a value.
#[derive(Drop)]
pub struct Turnstile<T: Logged> {
    table: Table<Option<T>, View<T>, About<T>, Lock, Global>,
    bells: Bells,
    pub ghost sized: { (table.shared.table_id.words ≡ 2) × (table.shared.table_id.slots ≡ 1) },
    pub ghost some: { 0 < table.shared.key.passes },
}

/// A new turnstile, and its passes in the order of their numbers.
#[derive(Drop)]
pub struct Opened<T: Logged> {
    pub turnstile: Turnstile<T>,
    pub passes: Vec<Pass<T>>,
}

/// There was no memory. The value comes back.
#[derive(Drop)]
pub struct NoTurnstile<T> {
    pub value: T,
}
