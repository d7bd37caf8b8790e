use crate::worked::{WORKED, Worked};
use capture_file::ProgramFile;
use risc_asm::{AsmError, AsmFault, Text};
use std::alloc::Global;
use std::test::Fail;

// The answer of a text that is given in pieces of at most so many bytes.
fn assemble_pieces(alloc: Global, bytes: &[u8], size: usize) -> Result<ProgramFile, AsmError> {
    let mut text = Text::new(alloc);
    let mut at = 0;
    while at < bytes.len() {
        let end = at.saturating_add(size.max(1)).min(bytes.len());
        text = text.append(alloc, &bytes[at..end])?;
        at = end;
    }
    text.assemble(alloc)
}

// Whether the pieces of a listing are assembled to its program.
fn is_assembled(alloc: Global, worked: &Worked, size: usize) -> bool {
    match assemble_pieces(alloc, worked.listing, size) {
        Ok(file) => {
            file.program.base() == worked.base
                && file.program.words() == worked.words
                && file.program.grants().len() == worked.chunks.len()
                && file.fill == worked.fill
        }
        Err(_) => false,
    }
}

// The line at fault; 0 where the answer is another.
fn wrong_line(alloc: Global, text: &[u8], size: usize) -> u64 {
    match assemble_pieces(alloc, text, size) {
        Err(AsmError::Bad(AsmFault::Line(line))) => line,
        _ => 0,
    }
}

const SIZES: [usize; 3] = [1, 7, 4096];

#[test]
fn pieces_of_listings_are_assembled(rt: HostRuntime) -> Result<(), Fail> {
    for worked in &WORKED {
        for size in SIZES {
            assert!(rt; is_assembled(rt.alloc(), worked, size));
        }
    }
    Ok(())
}

// The fields of the fourth line are in another order.
const WRONG: &[u8] = b"base 00001000\n\
    00001000 sync vre resync\n\
    00001008 sync fm1\n\
    00001010 write eol sol 8 00020000\n\
    00001018 jump irq set=1 reset=e 00001000\n\
    page 00020000\n\
    fill 00\n";

#[test]
fn a_fault_in_pieces_is_told_at_its_line(rt: HostRuntime) -> Result<(), Fail> {
    for size in SIZES {
        assert_eq!(rt; wrong_line(rt.alloc(), WRONG, size), 4);
    }
    Ok(())
}
