//! The assembler: the text of a listing is read back to its program.
#![tactic(auto)]

ghost use Rattle.risc_asm.specs.Answers.{Answers, ListingsAreAssembled, ListingsAreShort, OneAnswerFits};
ghost use Rattle.risc_asm.specs.declared.AsmError.TheVariants.{Memory};
ghost use Rattle.std.specs.Prelude.{◌≡◌};

mod compare;
mod draft;
mod fault_words;
mod judge;
mod lines;
mod programs;
mod readers;
mod search;
mod text;

use capture_file::ProgramFile;
use judge::{Verdict, judge};
use search::{count_lines, first_wrong, whole_lines};
use std::alloc::{AllocError, Global};
pub use text::Text;

/// The most bytes of a text that is assembled (this project's own limit).
pub const MOST_BYTES: usize = 67_108_864;

/// Why a text is not assembled. Lines end with their newline and are counted from 1.
#[derive(Clone, Copy, Debug, PartialEq)]
pub enum AsmFault {
    /// The lines before this one begin a listing, and with it they begin none. What is after the
    /// last newline is a line only where the lines before it are a listing; then it is at fault.
    Line(u64),
    /// The text has so many lines and none is at fault, but it is no listing: lines are missing.
    Short(u64),
    /// The text has more than 67,108,864 bytes.
    TooLong,
}

/// Why a text was not assembled.
#[derive(Debug, Drop)]
pub enum AsmError {
    /// The text is at fault.
    Bad(AsmFault),
    /// Out of memory.
    Memory,
}

impl From<AllocError> for AsmError {
    ghost use Rattle.risc_asm.specs.declared.AsmError.TheVariants.{Memory};
    ghost use Rattle.std.specs.Prelude.{◌≡◌};

    ghost from_gives = { λ _ e. e ≡ Memory };

    fn from(_: AllocError) -> AsmError {
        AsmError::Memory
    }
}

/// The program and the fill whose listing the text is, exactly: its lines as `risc_listing::list` makes
/// them. The program need not be sound. The form of a listing and its limits are this project's own rule.
pub fn assemble(alloc: Global, text: &[u8]) -> Result<ProgramFile, AsmError>
    ensures { Answers text.now result }
{
    if text.len() > MOST_BYTES {
        return Err(AsmError::Bad(AsmFault::TooLong));
    }
    let end = whole_lines(text);
    let lines = &text[..end];
    let fault = match judge(alloc, lines)? {
        Verdict::Whole(file) => {
            if end == text.len() {
                return Ok(file);
            }
            AsmFault::Line(count_lines(lines) + 1)
        }
        Verdict::Begun => AsmFault::Short(count_lines(lines)),
        Verdict::Wrong(begun) => AsmFault::Line(first_wrong(alloc, lines, begun)?),
    };
    Err(AsmError::Bad(fault))
}

/// At most one answer but out of memory fits a text, so each of them comes exactly where its rule says. The function does
/// nothing; its contract is the law.
pub fn one_answer_fits_a_text()
    ensures { OneAnswerFits }
{}

/// No listing has more bytes than a text that is assembled, so any answer for a listing but out of memory is the program
/// and the fill that it is of. The function does nothing; its contract is the law.
pub fn every_listing_is_assembled()
    ensures short { ListingsAreShort }
    ensures assembled { ListingsAreAssembled }
{}
