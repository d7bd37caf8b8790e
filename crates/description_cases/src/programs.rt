// The programs of descriptions.

use capture_desc::read_desc;
use program_build::{Checked, build, check};
use std::alloc::Global;
use std::test::Fail;
use test_kit::ONE_LINE;

// The first keys of a description of one row of 8 bytes on a page.
const PLAIN: &str = "format = \"y8\"\nwidth = 8\nheight = 1\nfields = \"top\"\npages = [0x20000]\n";

const SKIPPED: &str =
    "format = \"y8\"\nwidth = 8\nheight = 1\nfields = \"top\"\npages = [0x20000]\nskip_lines = 1\n";

// A description without fault.
fn checked(alloc: Global, text: &str) -> Result<Checked, Fail> {
    let desc = read_desc(alloc, text.as_bytes())?;
    Ok(check(alloc, desc)?)
}

// Whether these are the words of a description's program, and so many.
fn are_built(alloc: Global, checked: &Checked, words: &[u32]) -> Result<bool, Fail> {
    let program = build(alloc, checked)?;
    Ok(program.words() == words && checked.words() as usize == words.len())
}

// Whether a description has a program of these words.
fn builds(alloc: Global, text: &str, words: &[u32]) -> Result<bool, Fail> {
    let checked = checked(alloc, text)?;
    are_built(alloc, &checked, words)
}

// Whether it gives its place for a program of these words.
fn becomes(alloc: Global, text: &str, words: &[u32]) -> Result<bool, Fail> {
    let program = checked(alloc, text)?.into_program(alloc)?;
    Ok(program.words() == words)
}

#[test]
fn programs_of_one_row(rt: HostRuntime) -> Result<(), Fail> {
    assert!(rt; builds(rt.alloc(), PLAIN, &ONE_LINE)?);
    assert!(rt; becomes(rt.alloc(), PLAIN, &ONE_LINE)?);
    let skipped = [
        0x8000_8004,
        0,
        0x8000_0006,
        0,
        0x2c00_0008,
        0x1c00_0008,
        0x20000,
        0x71e1_0000,
        0x1000,
    ];
    assert!(rt; builds(rt.alloc(), SKIPPED, &skipped)?);
    assert!(rt; becomes(rt.alloc(), SKIPPED, &skipped)?);
    Ok(())
}
