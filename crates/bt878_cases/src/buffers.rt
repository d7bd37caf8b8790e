// Worked cases of the commands over rings, over chains of two descriptions, and over the rows of a field. Their files and
// answers were computed by hand from docs/FORMATS.md and docs/MACHINE.md.

use crate::calls::{LONG, chained, damaged, ringed};
use crate::cases::Parts;
use crate::left::Left;
use crate::programs::on_page;
use std::alloc::{AllocError, Global};
use std::test::Fail;
use test_kit::TWO_BLOCKS;

/// Two blocks of a line of 8 bytes.
pub const RING: &[u8] = b"blocks = 2\nlines = 1\nline_bytes = 8\npages = [0x20000]\n";

/// FM1 and three lines, then ten turns.
pub const RING_STREAM: &[u8] =
    b"BFS1\x04\x06\x01\x02\x10\x11\x12\x13\x01\x01\x14\x15\x16\x17\x01\x02\x20\x21\x22\x23\x01\x01\x24\x25\x26\x27\x01\x02\x30\x31\x32\x33\
        \x01\x01\x34\x35\x36\x37\x05\x0a\x00\x00\x00\x00";

/// The first two lines in their blocks.
const RING_IMAGE: Parts = &[
    (
        1,
        b"BMI1\x01\x00\x00\x00\x00\x00\x02\x00\x10\x11\x12\x13\x14\x15\x16\x17\x20\x21\x22\x23\x24\x25\x26\x27",
    ),
    (4080, b"\x00"),
];

/// A row of 8 bytes on a page of its own, in the top field.
pub const FIRST: &[u8] =
    b"format = \"y8\"\nwidth = 8\nheight = 1\nfields = \"top\"\npages = [0x20000]\n";

/// The same row on another page.
pub const SECOND: &[u8] =
    b"format = \"y8\"\nwidth = 8\nheight = 1\nfields = \"top\"\npages = [0x30000]\n";

/// Slot 0 shows the first description for a field, and from the middle of it on the second for the next.
pub const CHAIN_STREAM: &[u8] =
    b"BFS3\x09\x00\x00\x04\x04\x04\x06\x01\x02\x10\x11\x12\x13\x01\x01\x14\x15\x16\x17\x05\x06\x00\x00\x00\x09\x00\x01\x05\x03\x00\x00\x00\
        \x04\x04\x04\x06\x01\x02\x20\x21\x22\x23\x01\x01\x24\x25\x26\x27\x05\x0b\x00\x00\x00\x00";

/// Both rows.
const CHAIN_IMAGE: Parts = &[
    (
        1,
        b"BMI1\x02\x00\x00\x00\x00\x00\x02\x00\x10\x11\x12\x13\x14\x15\x16\x17",
    ),
    (4088, b"\x00"),
    (1, b"\x00\x00\x03\x00\x20\x21\x22\x23\x24\x25\x26\x27"),
    (4088, b"\x00"),
];

/// The field of `FIRST` with an entry of a reserved status in its line.
pub const RESERVED_STREAM: &[u8] =
    b"BFS1\x04\x04\x04\x06\x01\x02\x10\x11\x12\x13\x01\x03\xa0\xa1\xa2\xa3\x01\x01\x14\x15\x16\x17\x05\x0a\x00\x00\x00\x00";

/// The host empties the queues within a line, when they hold nothing.
const EMPTIED_STREAM: &[u8] =
    b"BFS1\x04\x04\x04\x06\x01\x02\x10\x11\x12\x13\x05\x06\x00\x00\x00\x07\x02\x07\x03\x01\x01\x14\x15\x16\x17\x05\x03\x00\x00\x00\x00";

/// Each pixel format with the places of its planes, in bytes from the beginning of its page.
static FORMATS: [(&str, &str); 12] = [
    ("rgb32", "[0]"),
    ("rgb24", "[0]"),
    ("rgb16", "[0]"),
    ("rgb15", "[0]"),
    ("yuy2", "[0]"),
    ("y8", "[0]"),
    ("rgb8", "[0]"),
    ("btyuv", "[0]"),
    ("yuv422p", "[0, 1024, 2048]"),
    ("yuv411p", "[0, 1024, 2048]"),
    ("yuv420p", "[0, 1024, 2048]"),
    ("yuv410p", "[0, 1024, 2048]"),
];

/// A picture of 32 by 8 pixels in both fields, in a format and on a page.
fn picture(alloc: Global, format: &(&str, &str), page: &str) -> Result<String, AllocError> {
    let (name, offset) = format;
    format!(in alloc;
        "format = \"{name}\"\nwidth = 32\nheight = 8\noffset = {offset}\npages = [{page}]\n"
    )
}

/// Appends the address of a page to a list of pages.
fn add_page(text: &mut String, alloc: Global, address: u32) -> Result<(), AllocError> {
    let page = format!(in alloc; "{address},")?;
    text.push_str(&page)
}

/// Appends so many pages, one after the other from an address on.
fn add_pages(text: &mut String, alloc: Global, count: u32, first: u32) -> Result<(), AllocError> {
    for page in 0..count {
        let address = first.saturating_add(page.saturating_mul(4096));
        add_page(text, alloc, address)?;
    }
    Ok(())
}

/// A row of 8 bytes and so many pages.
fn on_pages(alloc: Global, count: u32, first: u32) -> Result<String, AllocError> {
    let mut text = format!(in alloc;
        "format = \"y8\"\nwidth = 8\nheight = 1\nfields = \"top\"\npages = ["
    )?;
    add_pages(&mut text, alloc, count, first)?;
    text.push_str("]\n")?;
    Ok(text)
}

/// Whether `ring` answers and prints this on a ring file and a stream, and writes this program and
/// this image, or none.
fn rings(
    alloc: Global,
    files: [&[u8]; 2],
    answer: (u8, &[u8]),
    program: Option<&[u8]>,
    image: Parts,
) -> Result<bool, AllocError> {
    let [ring, stream] = files;
    let left = ringed(alloc, ring, stream, &[], LONG)?;
    Ok(left.has(answer.0, answer.1, image) && left.desk.output("program") == program)
}

/// Whether `chain` answers and prints this on two descriptions and a stream, and writes this image;
/// none where it is empty.
fn chains(
    alloc: Global,
    files: [&[u8]; 3],
    answer: (u8, &[u8]),
    image: Parts,
) -> Result<bool, AllocError> {
    let [first, second, stream] = files;
    let left = chained(alloc, first, second, stream, &[], LONG)?;
    Ok(left.has(answer.0, answer.1, image))
}

/// Whether `damage` prints this of `FIRST` and a stream.
fn tells_rows(alloc: Global, stream: &[u8], said: &[u8]) -> Result<bool, AllocError> {
    let left = damaged(alloc, FIRST, stream, &[], LONG)?;
    Ok(left.says(0, said))
}

#[test]
fn a_ring_ends_two_blocks(rt: HostRuntime) -> Result<(), Fail> {
    let said = b"blocks 2\nturns 10\nmoved 16\noverruns 0 0 0 0\nstatus 10000800\n";
    let program = on_page(rt.alloc(), &TWO_BLOCKS)?;
    let files = [RING, RING_STREAM];
    assert!(rt; rings(rt.alloc(), files, (0, said), Some(&program), RING_IMAGE)?);
    Ok(())
}

#[test]
fn a_ring_file_is_refused(rt: HostRuntime) -> Result<(), Fail> {
    let short = b"blocks = 2\nlines = 1\nline_bytes = 4\npages = [0x20000]\n";
    let said = b"ring: out of range key line_bytes\n";
    assert!(rt; rings(rt.alloc(), [short, b"BFS1\x00"], (3, said), None, &[])?);
    let wide = b"blocks = 3\nlines = 2\nline_bytes = 1000\npages = [0x20000]\n";
    let said = b"ring: too few pages, need 2, have 1\n";
    assert!(rt; rings(rt.alloc(), [wide, b"BFS1\x00"], (3, said), None, &[])?);
    Ok(())
}

#[test]
fn a_chain_shows_both_descriptions(rt: HostRuntime) -> Result<(), Fail> {
    let said = b"turns 20\nmoved 16\noverruns 0 0 0 0\nstatus 10000800\n";
    let files = [FIRST, SECOND, CHAIN_STREAM];
    assert!(rt; chains(rt.alloc(), files, (0, said), CHAIN_IMAGE)?);
    Ok(())
}

#[test]
fn a_chain_is_refused(rt: HostRuntime) -> Result<(), Fail> {
    let said = b"chain: shared 0\n";
    assert!(rt; chains(rt.alloc(), [FIRST, FIRST, b"BFS3\x00"], (1, said), &[])?);
    let said = b"stream file: slot 02 at 5\n";
    let files = [FIRST, SECOND, b"BFS3\x09\x02\x00\x00"];
    assert!(rt; chains(rt.alloc(), files, (3, said), &[])?);
    let said = b"stream file: magic at 0\n";
    assert!(rt; chains(rt.alloc(), [FIRST, SECOND, b"BFS1\x00"], (3, said), &[])?);
    Ok(())
}

#[test]
fn rows_are_told(rt: HostRuntime) -> Result<(), Fail> {
    assert!(rt; tells_rows(rt.alloc(), b"BFS1\x00", b"top none\n")?);
    assert!(rt; tells_rows(rt.alloc(), RESERVED_STREAM, b"top 0 of 1\nbad 0\n")?);
    assert!(rt; tells_rows(rt.alloc(), EMPTIED_STREAM, b"top 1 of 1\n")?);
    Ok(())
}

/// What `chain` leaves of two descriptions over a stream of nothing.
fn chained_still(alloc: Global, first: &str, second: &str) -> Result<Left, AllocError> {
    let (first, second) = (first.as_bytes(), second.as_bytes());
    chained(alloc, first, second, b"BFS3\x00", &[], LONG)
}

/// Whether pictures of two formats can be shown in turn.
fn are_paired(
    alloc: Global,
    before: &(&str, &str),
    after: &(&str, &str),
) -> Result<bool, AllocError> {
    let first = picture(alloc, before, "0x20000")?;
    let second = picture(alloc, after, "0x30000")?;
    let left = chained_still(alloc, &first, &second)?;
    Ok(left.says(0, b"turns 0\nmoved 0\noverruns 0 0 0 0\nstatus 00000000\n"))
}

#[test]
fn every_format_is_paired_with_the_next(rt: HostRuntime) -> Result<(), Fail> {
    let mut before = &FORMATS[11];
    for format in &FORMATS {
        assert!(rt; are_paired(rt.alloc(), before, format)?);
        before = format;
    }
    Ok(())
}

/// Whether a chain of descriptions of so many pages each is refused.
fn are_too_many(alloc: Global, first: u32, second: u32) -> Result<bool, AllocError> {
    let first = on_pages(alloc, first, 0x1000_0000)?;
    let second = on_pages(alloc, second, 0x2000_0000)?;
    let left = chained_still(alloc, &first, &second)?;
    Ok(left.has(1, b"chain: too many\n", &[]))
}

/// Both descriptions have 4,096 pages together at most.
#[test]
fn a_chain_of_too_many_pages_is_refused(rt: HostRuntime) -> Result<(), Fail> {
    assert!(rt; are_too_many(rt.alloc(), 2049, 2048)?);
    Ok(())
}
