//! Descriptions whose geometry has no fault, and the programs that capture their pictures.
#![tactic(auto)]

mod checked;
mod judge;
mod sections;

pub use checked::{Checked, build, check};
pub use planar_plan::{BuildError, BuildFault};
pub use sections::sections_words;
