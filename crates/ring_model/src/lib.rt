//! Rings of blocks in memory, apart from any code: the lines of a block, the program that fills block after block and
//! signals each, and what a run over it brings (this project's own form). The definitions are in `specs/`.
#![tactic(auto)]

pub mod laws;
