//! Why a command is refused.

ghost use Rattle.std.specs.Prelude.{◌≡◌};
ghost use Rattle.command_texts.specs.Answers.{answer_of};

use crate::answer::Answer;
use crate::check_text::CheckText;
use capture_desc::DescFault;
use capture_file::{FileFault, Input};
use chain_model::ChainFault;
use machine_model::Cause;
use picture_model::BuildFault;
use ring_compile::RingFault;
use risc_asm::AsmFault;
use std::alloc::AllocError;

/// Why a command whose words have no fault is not done, apart from faults of writing. It is found before the
/// first output is created (this project's own rules).
#[derive(Debug, Drop)]
pub enum Refusal {
    /// The desk could not read an input, or tells that there is none of that name.
    ReadFault,
    /// A file is at fault.
    Malformed(Input, FileFault),
    /// A description file holds no description.
    BadDesc(DescFault),
    /// The geometry of a description has a fault.
    BadGeometry(BuildFault),
    /// Two descriptions make no chain.
    BadChain(ChainFault),
    /// A ring file describes no ring.
    BadRing(RingFault),
    /// A text is not the listing of a program.
    BadText(AsmFault),
    /// The program isn't sound: the address of the first bad place of its path, the number of that
    /// place, counted from 0, and its fault.
    Rejected { at: u64, nth: u64, cause: Cause },
    /// A program doesn't show each field of a description: a line for each described field.
    Differs(CheckText),
    /// Out of memory.
    NoMemory,
}

impl From<AllocError> for Refusal {
    ghost use Rattle.std.specs.Prelude.{◌≡◌};
    ghost use Rattle.command_texts.specs.declared.refusal.Refusal.TheVariants.{NoMemory};

    ghost from_gives = { λ _ refusal. refusal ≡ NoMemory };

    fn from(_error: AllocError) -> Refusal {
        Refusal::NoMemory
    }
}

impl Refusal {
    /// What the call of the program comes to.
    pub fn into_answer(self) -> Answer
        ensures { result ≡ answer_of self }
    {
        match self {
            Refusal::ReadFault => Answer::ReadFault,
            Refusal::Malformed(input, fault) => Answer::Malformed(input, fault),
            Refusal::BadDesc(fault) => Answer::BadDesc(fault),
            Refusal::BadGeometry(fault) => Answer::BadGeometry(fault),
            Refusal::BadChain(fault) => Answer::BadChain(fault),
            Refusal::BadRing(fault) => Answer::BadRing(fault),
            Refusal::BadText(fault) => Answer::BadText(fault),
            Refusal::Rejected { at, nth, cause } => Answer::Rejected { at, nth, cause },
            Refusal::Differs(text) => Answer::Differs(text),
            Refusal::NoMemory => Answer::NoMemory,
        }
    }
}
