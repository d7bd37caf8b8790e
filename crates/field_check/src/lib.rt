//! Whether a program shows the fields of a description, and what is reported of them.
#![tactic(auto)]

mod cursors;
mod demands;
mod judge;
mod names;
mod plan;
mod report;
mod verdict;
mod walk;
mod whys;

pub use report::{CheckReport, check_report};
