//! Descriptions of a capture: the picture's format and size, where its bytes go, and what is left out.
//!
//! A description is a TOML table of eighteen keys (this project's own form), which `read_desc` reads.
#![tactic(auto)]

mod desc;
mod fault;
mod lists;
mod read;
mod values;

pub use desc::{Desc, Fields};
pub use fault::{DescError, DescFault, Key};
pub use lists::{ChunkList, KeyText, Numbers};
pub use read::{read_desc, what_a_text_describes};
