//! Whether a program shows the fields of a description, apart from any code: what is found of each field, and what is
//! reported of it. The types are here; the definitions are in `specs/`.
#![tactic(auto)]

pub mod laws;
pub mod words;

use fifo_model::Queue;
use risc_word::{Code, Ctl};

/// A line of a field.
#[derive(Clone, Copy, Debug, PartialEq, Eq)]
pub enum Line {
    /// The VBI line of this number that is skipped, counted from 0 in the field.
    SkippedVbi(u64),
    /// The VBI line of this number, counted from 0 in the field behind the skipped ones.
    Vbi(u64),
    /// The line of this number that is skipped, counted from 0 in the field.
    Skipped(u64),
    /// This row of the picture.
    Row(u64),
}

/// A byte of a field on a queue.
#[derive(Clone, Copy, Debug, PartialEq, Eq)]
pub struct Spot {
    /// Its line.
    pub line: Line,
    /// Its number in the line, counted from 0 on the queue.
    pub number: u64,
}

/// Why a program doesn't show a field, in the order in which it is checked at an instruction (this project's own rules). The
/// bytes of a line are counted from 0 on each queue.
#[derive(Clone, Copy, Debug, PartialEq, Eq)]
pub enum Why {
    /// No SYNC for the field's vertical code is on the path.
    NoSync(Code),
    /// The SYNC that opens the field has no RESYNC.
    NoResync,
    /// As many instructions as the program has words lead to no SYNC of a next field.
    NoNextField,
    /// A WRITEC: where its bytes go depends on what came before.
    WriteC,
    /// A byte lane is off.
    LanesOff,
    /// A queue awaits this code, and something else comes.
    SyncAwaited(Code),
    /// A queue awaits a byte, and a code or the next field comes.
    ByteAwaited {
        line: Line,
        queue: Queue,
        byte: u64,
    },
    /// The byte has its place at this address, and it goes elsewhere or nowhere.
    PlaceAwaited {
        line: Line,
        queue: Queue,
        byte: u64,
        address: u64,
    },
    /// The byte has no place, and it is written.
    NoPlaceAwaited {
        line: Line,
        queue: Queue,
        byte: u64,
    },
    /// SOL is within a line.
    NoSolAwaited {
        line: Line,
        queue: Queue,
        byte: u64,
    },
    /// A line begins without SOL.
    SolAwaited {
        line: Line,
        queue: Queue,
    },
    /// A queue awaits nothing more, and bytes are taken of it.
    NothingMore(Queue),
    /// The instruction that takes a line's last byte has no EOL.
    EolAwaited {
        line: Line,
        queue: Queue,
    },
    /// EOL is within a line: the last byte that the instruction takes, and the bytes that the queue brings of the line.
    EarlyEol {
        line: Line,
        queue: Queue,
        byte: u64,
        bytes: u64,
    },
    /// Behind the field's end something comes before the next field.
    NothingAwaited,
    /// No instruction is there. This never holds of a sound program.
    Unread,
}

/// What ends a field.
#[derive(Clone, Copy, Debug, PartialEq, Eq)]
pub enum Closing {
    /// A JUMP with these control bits.
    Jump(Ctl),
    /// The SYNC of the next field.
    Sync,
}

/// What is found of a field.
#[derive(Clone, Copy, Debug, PartialEq, Eq)]
pub enum Verdict {
    /// The program shows the field.
    Shown {
        /// The address of the SYNC that opens it.
        begin: u64,
        /// The address of what ends it.
        end: u64,
        /// The instructions between.
        count: u64,
        /// What ends it.
        closing: Closing,
    },
    /// It doesn't: an address, and why.
    Differs {
        at: u64,
        why: Why,
    },
}
