// The words of the lines of the blanking interval.

use crate::plans::framed;
use capture_desc::Fields;
use pixel_layout::Parity;
use planar_plan::Frame;
use std::alloc::Global;
use std::test::Fail;
use vbi_compile::compile_vbi;

// What was there before, a SYNC and two lines behind the eight bytes of the picture.
const WORDS: [u32; 7] = [
    7,
    0x8000_0006,
    0,
    0x1c00_0010,
    0x20008,
    0x1c00_0010,
    0x20018,
];

// Whether these are the words of the top field of a frame.
fn compiles(alloc: Global, frame: &Frame, words: &[u32]) -> Result<bool, Fail> {
    if frame.desc().fields != Fields::Top {
        return Ok(false);
    }
    let mut out = vec![in alloc; 7]?;
    compile_vbi(alloc, frame, Parity::Top, &mut out)?;
    Ok(out.as_slice() == words)
}

// The same of a description.
fn compiles_text(alloc: Global, text: &str, words: &[u32]) -> Result<bool, Fail> {
    let frame = framed(alloc, text)?;
    compiles(alloc, &frame, words)
}

#[test]
fn vbi_lines_stand_close_after_the_picture(rt: HostRuntime) -> Result<(), Fail> {
    let text = "format = \"y8\"\n\
            width = 8\n\
            height = 1\n\
            fields = \"top\"\n\
            vbi_lines = 2\n\
            vbi_bytes = 16\n\
            pages = [0x20000]\n";
    assert!(rt; compiles_text(rt.alloc(), text, &WORDS)?);
    Ok(())
}

// The same behind two lines that are skipped.
const SKIPPED: [u32; 9] = [
    7,
    0x8000_0006,
    0,
    0x2c00_0010,
    0x2c00_0010,
    0x1c00_0010,
    0x20008,
    0x1c00_0010,
    0x20018,
];

#[test]
fn skipped_vbi_lines_stand_before_the_others(rt: HostRuntime) -> Result<(), Fail> {
    let text = "format = \"y8\"\n\
            width = 8\n\
            height = 1\n\
            fields = \"top\"\n\
            vbi_lines = 2\n\
            vbi_bytes = 16\n\
            vbi_skip = [2]\n\
            pages = [0x20000]\n";
    assert!(rt; compiles_text(rt.alloc(), text, &SKIPPED)?);
    Ok(())
}
