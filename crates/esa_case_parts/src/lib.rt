//! What a program that runs worked cases has beside its calls: the files, the printer and the devices that a case asks
//! for, readers called by themselves, and what differs from what a case says.
//!
//! Stands on the reader of cases, esa_case_file, and below the commands, so that a change of a command leaves it proved.
//! It adds a difference of a run exactly where the status or the printed bytes aren't those of the case, and none for
//! files that are all as the case says.
#![tactic(auto)]

mod compare;
mod devices;
mod judging;
mod outside;
mod readers;

pub use compare::{difference, difference_of_bytes};
pub use devices::{recorder_for, recorder_on_disk, recorder_that_holds};
pub use judging::{judge_files, judge_run};
pub use outside::{cabinet_for, printer_for};
pub use readers::{Reader, read};
