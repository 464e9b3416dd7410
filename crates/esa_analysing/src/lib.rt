//! The commands of the role that analyses: `analyse`, by which a forward file becomes a database, `histogram`, which
//! prints a database, `upgrade`, which writes it in version 2, and `recover`, which puts its shares together.
#![tactic(auto)]

mod analyse_command;
mod database;
mod forwarding;
mod histogram_command;
mod lines;
mod recover_command;
mod row_line;
mod upgrade_command;

pub use analyse_command::analyse;
pub use database::take_database;
pub use forwarding::take_forward;
pub use histogram_command::histogram;
pub use recover_command::recover;
pub use upgrade_command::upgrade;
