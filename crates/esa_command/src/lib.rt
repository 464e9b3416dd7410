//! What every command does: it takes in its input step by step, and then does the work that the input asks for.
#![tactic(auto)]

mod asked;
mod doing;
mod laws;
mod reading;
mod status_lines;
mod taking;
mod telling;
mod writing;

pub use asked::form_of;
pub use doing::{print_line, settle, settle_failed, settle_one};
pub use laws::{failed_status_stays, some_files_agree};
pub use reading::read_file;
pub use status_lines::{print_status, print_verdicts};
pub use taking::{take_job, take_keys};
pub use telling::tell;
pub use writing::write_bytes;
