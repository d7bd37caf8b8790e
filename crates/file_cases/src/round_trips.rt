use crate::worked::{WORKED, Worked};
use capture_file::ProgramFile;
use page_table::PageSet;
use risc_asm::assemble;
use risc_listing::list;
use std::alloc::Global;
use std::test::Fail;

fn are_chunks(grants: &PageSet, chunks: &[(u32, u32)]) -> bool {
    if grants.len() != chunks.len() {
        return false;
    }
    for i in 0..grants.len() {
        if chunks.get(i) != Some(&(grants.get(i), grants.size(i))) {
            return false;
        }
    }
    true
}

fn is_worked(file: &ProgramFile, worked: &Worked) -> bool {
    file.program.base() == worked.base
        && file.program.words() == worked.words
        && are_chunks(file.program.grants(), worked.chunks)
        && file.fill == worked.fill
}

// Whether a listing is assembled to its program, and that is listed as it was.
fn goes_round(alloc: Global, worked: &Worked) -> Result<bool, Fail> {
    match assemble(alloc, worked.listing) {
        Ok(file) => {
            let again = list(alloc, &file.program, file.fill)?;
            Ok(is_worked(&file, worked) && again.as_slice() == worked.listing)
        }
        Err(_) => Ok(false),
    }
}

#[test]
fn worked_listings_go_round(rt: HostRuntime) -> Result<(), Fail> {
    for worked in &WORKED {
        assert!(rt; goes_round(rt.alloc(), worked)?);
    }
    Ok(())
}
