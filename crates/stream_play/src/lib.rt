//! Streams, played on anything that takes their steps, and the machines of programs on which they are played.
#![tactic(auto)]

mod files;
mod machines;
mod play;
mod player;
mod reports;

pub use files::{Played, play_and_tell, play_file};
pub use machines::{machine_of, machine_of_sound};
pub use player::Player;
pub use reports::Reports;
