//! The canonical encoding of stream files and of program files, and where a file is at fault. The functions do nothing; their
//! contracts are the laws.
#![tactic(auto)]

pub mod programs;
pub mod streams;
