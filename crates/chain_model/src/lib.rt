//! Chains, apart from any code: a standing loop of slots that the host patches between any two steps, each slot to a part
//! of its own or on to the next slot (this project's own form). The types of a part and of what two descriptions lack for a
//! chain are here; the definitions are in `specs/`.
#![tactic(auto)]

mod fault_words;
pub mod laws;

use capture_desc::Numbers;

/// The address at or below which a chain ends (this project's own limit): so the second word of a slot is no first word of
/// an instruction.
pub const CHAIN_LIMIT: u64 = 0x1000_0000;

/// A part of a chain: the slot that may lead to it, counted from 0, and its words.
#[derive(Drop)]
pub struct PartWords {
    /// The slot that may lead to the part.
    pub slot: u32,
    /// The words of the part.
    pub words: Numbers,
}

/// Why two descriptions make no chain, in the order in which it is checked (this project's own rule).
#[derive(Clone, Copy, Debug, PartialEq, Eq)]
pub enum ChainFault {
    /// The base of the first description is no multiple of 4.
    Base,
    /// The chunk of this number of the second description shares a byte with a chunk of the first. It is the first such
    /// chunk; they are counted from 0, in the order of the description.
    Shared(u32),
    /// The chunks of both are more than 4,096, or have more than 16,777,216 bytes together.
    TooMany,
    /// The chain has more words than a program may have, or ends above 0x10000000.
    TooLong,
    /// The chain shares a byte with the memory that it may write.
    OnPage,
}
