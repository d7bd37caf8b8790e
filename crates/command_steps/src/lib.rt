//! The steps at a desk that all commands share: to read an input, to write outputs and print a text, and
//! to report a refusal.
#![tactic(auto)]

mod keeps;
mod outputs;
mod read;
mod refusals;

pub use keeps::Keeps;
pub use outputs::{Content, Output, finish};
pub use read::{PIECE, open, read_into, read_pieces, read_whole};
pub use refusals::{refuse, refuse_words};
