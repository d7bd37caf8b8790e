//! What a desk tells of a call.

use crate::octets::Octets;

/// A call of a desk that opens an input, reads, creates an output or finishes one, or a run of calls of
/// `say`. No desk tells writes: they fall between the creation of an output and its finish (this project's own
/// rules).
#[derive(Drop)]
pub enum Call {
    /// An input of this name was to be opened; whether it was.
    OpenIn(Octets, bool),
    /// A read asked for so many bytes, and moved so many; none where it failed.
    Read(usize, Option<usize>),
    /// An output of this name was to be created; whether it was.
    CreateOut(Octets, bool),
    /// The open output was to be closed; whether it was.
    Finish(bool),
    /// Something was to be printed, by one call or more.
    Say,
}
