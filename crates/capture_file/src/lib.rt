//! The files of the project: programs, streams and images of memory.
#![tactic(auto)]

use fifo_model::{Entry, Queue};
use irq_status::HostWrite;
use risc_word::Code;

mod image;
mod kept;
mod laws;
mod pairs;
mod program;
mod pushes;
mod reader;
mod records;
pub mod tags;
mod writing;

pub use image::write_image;
pub use kept::{ProgramBytes, read_kept};
pub use laws::{one_image, one_spelling, stream_goes_on, value_or_fault};
pub use pairs::PAIR;
pub use program::{ProgramError, ProgramFile, read_program};
pub use reader::{Got, StepReader};
pub use writing::write_program;

/// Which file is at fault.
#[derive(Clone, Copy, Debug, PartialEq)]
pub enum Input {
    /// The file of a program.
    Program,
    /// The file of a stream.
    Stream,
    /// The description of a capture, a TOML text.
    Desc,
    /// The file of a ring.
    Ring,
}

/// What is wrong with a field of a file (this project's own formats). A byte is given where it is the
/// fault.
#[derive(Clone, Copy, Debug, PartialEq)]
pub enum FileKind {
    /// The file begins with none of the words that it may begin with.
    Magic,
    /// The file ends within a field.
    Short,
    /// More than 1,048,576 words, more than 4,096 spans, pages or chunks, words that end above 2^32, or no span or no
    /// word in a span.
    Count,
    /// The base, or the address of a span, is no multiple of 4.
    Base,
    /// An address is no multiple of 4,096, or of 4 for a chunk.
    Page,
    /// A page or chunk isn't above the one before it, or a span touches the one before it or is below.
    Order,
    /// A page or chunk shares a byte with the program.
    Overlap,
    /// The tag of no record.
    Tag(u8),
    /// A status that no data entry has.
    Status(u8),
    /// The number of no control code.
    Code(u8),
    /// Enables above 3.
    Enable(u8),
    /// A byte is after the last field.
    AfterEnd,
    /// The file has more bytes than it may have; the place is that of the first of these.
    TooLong,
    /// The counts of turns so far sum to more than 1,073,741,824.
    TooManyTurns,
    /// A trigger point above 3.
    Trigger(u8),
    /// The length of a chunk is 0 or no multiple of 4, or the chunk ends above 2^32, or it and those
    /// before it have more than 16,777,216 bytes together.
    Length,
    /// All chunks are pages, which is another form of file.
    Pages,
    /// A slot above 1.
    Slot(u8),
    /// A buffer that is not 0, 1 or 255.
    Buffer(u8),
    /// The entry is the address of no word, or that of the first word of the only span, which is another form of file.
    Entry,
}

/// A fault of a file: the place of the first byte of the field at fault, counted from 0, or for
/// `Short` the length of the file.
#[derive(Clone, Copy, Debug, PartialEq)]
pub struct FileFault {
    /// The place, in bytes.
    pub at: u64,
    /// What is at fault there.
    pub kind: FileKind,
}

/// What one record of a stream stands for.
#[derive(Clone, Copy, Debug, PartialEq)]
pub enum Step {
    /// A push of a data entry to a queue.
    Push(Queue, Entry),
    /// A push of a control code to the three queues.
    Control(Code),
    /// That many turns of the machine.
    Turns(u32),
    /// A write of the host to a register.
    Host(HostWrite),
    /// A slot of a chain, 0 or 1, and the buffer that it goes to: 0, 1, or 255 for none.
    Patch(u8, u8),
}
