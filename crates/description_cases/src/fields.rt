// The words of a field.

use crate::plans::framed;
use capture_desc::Fields;
use field_compile::compile_field;
use pixel_layout::Parity;
use planar_plan::Frame;
use std::alloc::{AllocError, Global};
use std::test::Fail;

// Whether the top field of a frame is compiled to so many words, the last of which are these.
fn compiles(alloc: Global, frame: &Frame, count: usize, last: &[u32]) -> Result<bool, Fail> {
    if frame.desc().fields != Fields::Top {
        return Ok(false);
    }
    let mut out = vec![in alloc; 7]?;
    compile_field(alloc, frame, Parity::Top, &mut out)?;
    Ok(out.len() == count && out.as_slice().ends_with(last))
}

// The same of a description.
fn compiles_text(alloc: Global, text: &str, count: usize, last: &[u32]) -> Result<bool, Fail> {
    let frame = framed(alloc, text)?;
    compiles(alloc, &frame, count, last)
}

// What was there before, a SYNC, the skipped line and the row.
const SKIPPED: [u32; 6] = [7, 0x8000_0006, 0, 0x2c00_0008, 0x1c00_0008, 0x20000];

#[test]
fn a_skipped_line_stands_before_the_row(rt: HostRuntime) -> Result<(), Fail> {
    let text = "format = \"y8\"\n\
            width = 8\n\
            height = 1\n\
            fields = \"top\"\n\
            skip_lines = 1\n\
            pages = [0x20000]\n";
    assert!(rt; compiles_text(rt.alloc(), text, 6, &SKIPPED)?);
    Ok(())
}

// Adds the rectangle of a clipped unit.
fn push_rect(alloc: Global, clip: &mut String, x: u32) -> Result<(), AllocError> {
    let rect = format!(in alloc; "[{x}, 0, 4, 1], ")?;
    clip.push_str(rect.as_str())
}

// Each unit behind three others, in a row of 1,024 bytes.
fn clipped_units(alloc: Global) -> Result<String, AllocError> {
    let mut clip = String::new(alloc);
    for unit in 0..64_u32 {
        push_rect(alloc, &mut clip, 16 * unit + 12)?;
    }
    Ok(clip)
}

// The description of a row of which these rectangles are clipped.
fn clipped_row(alloc: Global, clip: &str) -> Result<String, AllocError> {
    format!(in alloc;
        "format = \"y8\"\nwidth = 1024\nheight = 1\nfields = \"top\"\nclip = [{clip}]\npages = [0x20000]\n"
    )
}

// It has 64 pieces, behind the two words of a SYNC, and the word that was there before.
#[test]
fn a_row_of_many_pieces(rt: HostRuntime) -> Result<(), Fail> {
    let clip = clipped_units(rt.alloc())?;
    let text = clipped_row(rt.alloc(), clip.as_str())?;
    let last = [0x1000_000c, 0x203f0, 0x2400_0004];
    assert!(rt; compiles_text(rt.alloc(), text.as_str(), 1 + 2 + 64 * 3, &last)?);
    Ok(())
}
