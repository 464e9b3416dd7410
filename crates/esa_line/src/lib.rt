//! The front of a line that says who sent what and when, and why a line is refused.
//!
//! Lines of reports and lines of submissions begin alike: a moment, a tab, a sender, a tab. A line is
//! refused for its first cause. The crate takes no memory. It stands on `esa_bytes`.
#![tactic(auto)]

mod front;
mod head;
mod refused;

pub use head::{Head, head_cause, head_in, tab_place};
pub use refused::{LineCause, LineRefused};
