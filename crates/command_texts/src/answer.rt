//! What a call of the program comes to.

ghost use Rattle.std.specs.Prelude.{◌≡◌};
ghost use Rattle.command_texts.specs.Answers.{status_of};

use crate::check_text::CheckText;
use bt878_words::UsageFault;
use capture_desc::DescFault;
use capture_file::{FileFault, Input};
use chain_model::ChainFault;
use machine_model::Cause;
use picture_model::BuildFault;
use ring_compile::RingFault;
use risc_asm::AsmFault;

/// What a call of the program comes to (the statuses and texts are this project's own rules).
#[derive(Debug, Drop)]
pub enum Answer {
    /// The outputs are written and the text is printed.
    Done,
    /// The words are at fault.
    Usage(UsageFault),
    /// The desk could not read an input, or tells that there is none of that name.
    ReadFault,
    /// The desk could not write an output or print the text of Done.
    WriteFault,
    /// A file is at fault.
    Malformed(Input, FileFault),
    /// A description file holds no description.
    BadDesc(DescFault),
    /// The geometry of a description has a fault.
    BadGeometry(BuildFault),
    /// Two descriptions make no chain.
    BadChain(ChainFault),
    /// A ring file describes no ring.
    BadRing(RingFault),
    /// A text is not the listing of a program.
    BadText(AsmFault),
    /// The program isn't sound: the address of the first bad place of its path, the number of that
    /// place, counted from 0, and its fault.
    Rejected { at: u64, nth: u64, cause: Cause },
    /// A program doesn't show each field of a description: a line for each described field.
    Differs(CheckText),
    /// Out of memory.
    NoMemory,
}

impl Answer {
    /// The status with which the program ends: 0 for `Done`, 1 for `Rejected`, `BadGeometry`, `BadChain` and `Differs`, 2 for
    /// `Usage`, 3 for `Malformed`, `BadDesc`, `BadRing` and `BadText`, 4 for `ReadFault`, 5 for `WriteFault` and 6 for
    /// `NoMemory`.
    pub fn status(&self) -> u8
        ensures { result ≡ status_of self.now }
    {
        match self {
            Answer::Done => 0,
            Answer::BadGeometry(_) | Answer::BadChain(_) | Answer::Rejected { .. } => 1,
            Answer::Differs(_) => 1,
            Answer::Usage(_) => 2,
            Answer::Malformed(..) | Answer::BadDesc(_) => 3,
            Answer::BadRing(_) | Answer::BadText(_) => 3,
            Answer::ReadFault => 4,
            Answer::WriteFault => 5,
            Answer::NoMemory => 6,
        }
    }
}
