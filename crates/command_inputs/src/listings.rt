//! A text, read and assembled.

ghost use Rattle.std.specs.Prelude.{◌≡◌, ◌+◌, ◌++◌, [], ◌∷◌, take, IfOk};
ghost use Rattle.capture_desk.specs.Desks.{IsAllowed};
ghost use Rattle.command_steps.specs.Inputs.{OfInput, a_raw};
ghost use Rattle.command_steps.specs.Reading.{Takes};
ghost use Rattle.risc_asm.specs.Answers.{most_bytes};
ghost use Rattle.command_inputs.specs.Listings.{GivesAssembled, a_listing};

use capture_desk::Desk;
use capture_file::ProgramFile;
use command_steps::{Keeps, read_pieces};
use command_texts::Refusal;
use risc_asm::{AsmError, MOST_BYTES, Text};
use std::alloc::{AllocError, Global};
use std::mem::replace;

// A text of which pieces are read.
#[derive(Drop)]
struct Pieces {
    text: Text,
}

impl Keeps for Pieces {
    ghost kept = { λ pieces. pieces.text };

    fn keep(&mut self, alloc: Global, piece: &[u8]) -> Result<(), AllocError> {
        let text = replace(&mut self.text, Text::new(alloc));
        self.text = text.append(alloc, piece)?;
        Ok(())
    }
}

// Reads a text to its end, or up to one byte beyond the longest.
fn read_text<D: Desk>(alloc: Global, name: &str, desk: &mut D) -> Result<Text, Refusal>
    requires { IsAllowed name.now (D.seen desk.old).told.may_open }
    ensures bytes { IfOk result (λ text. OfInput name.now (D.seen desk.old).told.inputs (λ content. text ≡ take (most_bytes + 1) content)) }
    ensures takes { Takes (a_raw name.now most_bytes ∷ []) result (D.seen desk.old) (D.seen desk.new) }
{
    let mut pieces = Pieces {
        text: Text::new(alloc),
    };
    read_pieces(alloc, name, MOST_BYTES, desk, &mut pieces)?;
    Ok(pieces.text)
}

/// Reads a text to its end, or up to one byte beyond 67,108,864 bytes, and assembles it: the program and
/// the fill whose listing it is, or `BadText` with its first fault (this project's own rules). The program
/// need not be sound. The text is let go before this answers.
pub fn assemble_file<D: Desk>(
    alloc: Global,
    name: &str,
    desk: &mut D,
) -> Result<ProgramFile, Refusal>
    requires { IsAllowed name.now (D.seen desk.old).told.may_open }
    ensures assembles { IfOk result (λ file. OfInput name.now (D.seen desk.old).told.inputs (λ bytes. GivesAssembled bytes file)) }
    ensures takes { Takes (a_listing name.now ∷ []) result (D.seen desk.old) (D.seen desk.new) }
{
    let text = read_text(alloc, name, desk)?;
    match text.assemble(alloc) {
        Ok(file) => Ok(file),
        Err(AsmError::Bad(fault)) => Err(Refusal::BadText(fault)),
        Err(AsmError::Memory) => Err(Refusal::NoMemory),
    }
}
