//! The top call: what the program does with its words.
#![tactic(auto)]

mod call;
mod contents;
mod descriptions;
mod listings;
mod machines;
mod produced;
mod programs;
mod runs;
mod status;
mod traces;

pub use call::bt878;
pub use command_texts::Answer;
pub use status::exit_status;
