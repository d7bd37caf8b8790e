//! Inputs that are read and checked: program files, descriptions (one, the two of a chain, or that of a check), ring files,
//! and texts of listings.
#![tactic(auto)]

mod chains;
mod checks;
mod descriptions;
mod limited;
mod listings;
mod programs;
mod rings;

pub use chains::buffer_file;
pub use checks::shown_file;
pub use descriptions::{check_file, frame_file};
pub use listings::assemble_file;
pub use programs::{Loaded, accept, read_file};
pub use rings::ring_file;
