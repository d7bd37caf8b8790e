//! Rings of blocks in memory: from a ring file to its program (this project's own form, after the use that drivers make
//! of the chip's data function). The program fills block after block with lines, and the last WRITE of each block
//! interrupts and leaves the block's number in the RISC status.
#![tactic(auto)]

mod fault;
mod judge;
mod read;
mod ring;
mod words;

pub use fault::{RingError, RingFault, RingKey};
pub use read::read_ring;
pub use ring::{Ring, compile_ring};
