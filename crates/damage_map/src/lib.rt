//! Damage maps: which rows of a captured field are whole lines (this project's own rules).
#![tactic(auto)]

mod before;
mod lines;
mod mapped;
mod mark;
mod reading;
mod track;

pub use before::LinesBefore;
pub use mapped::Mapped;
pub use mark::{LineMark, LineMarks};
pub use track::Track;
