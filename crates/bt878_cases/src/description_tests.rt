// Worked cases of the commands over descriptions.
//
// No contract states when memory is short, so a body that always answers that it is short meets each of them, and no
// edit of a body can show that it is wrong. These tests refuse it: they have ample memory, and each command
// must give another answer.
ghost use Rattle.std.specs.Prelude.{◌≡◌, ◌<◌, [], Some};
ghost use Rattle.capture_desk.specs.Memory.{all_told};

use crate::calls::{LONG, captured, compiled, is_at_fault, left_by, made};
use crate::descriptions::{
    CAPTURED, CHUNKED, CHUNKED_IMAGE, CHUNKED_REPORT, CHUNKED_STREAM, COMPILED, Captured, Compiled,
    MADE, Made, ON_CHUNKS, REFUSED, Refused, SEEDED_STREAM,
};
use crate::desks::{Limits, described, desk_of, joined};
use crate::left::Left;
use crate::painting::{PAINTED, PICTURE, Painted, paint};
use capture_desk::MemDesk;
use std::alloc::{AllocError, Global};
use std::test::Fail;

/// Whether `compile` left the program of a case and what is printed of it.
fn is_compiled(left: &Left, alloc: Global, case: &Compiled) -> Result<bool, AllocError> {
    let said = format!(in alloc; "words {} pages {}\n", case.words.len(), case.chunks.len())?;
    let program = case.program(alloc)?;
    Ok(left.says(0, said.as_bytes()) && left.wrote("out", &program) && left.has_faults(0, 0))
}

fn compiles(alloc: Global, case: &Compiled, longest: usize) -> Result<bool, AllocError> {
    let description = described(alloc, case.changes)?;
    let left = compiled(alloc, &description, &[], longest, 5000)?;
    is_compiled(&left, alloc, case)
}

#[test]
fn descriptions_are_compiled(rt: HostRuntime) -> Result<(), Fail> {
    for case in &COMPILED {
        assert!(rt; compiles(rt.alloc(), case, LONG)?);
        assert!(rt; compiles(rt.alloc(), case, 1)?);
    }
    Ok(())
}

/// Whether `compile`, `make` and `capture` refuse the description of a case.
fn refuse(
    alloc: Global,
    description: &[u8],
    case: &Refused,
    longest: usize,
) -> Result<bool, AllocError> {
    let compile = compiled(alloc, description, &[], longest, 5000)?;
    let make = made(alloc, description, &[], longest, 5000)?;
    let capture = captured(alloc, description, SEEDED_STREAM, &[], longest, 5000)?;
    Ok(
        compile.says_only(case.status, case.said)
            && make.says_only(case.status, case.said)
            && capture.says_only(case.status, case.said),
    )
}

fn refuses(alloc: Global, case: &Refused, longest: usize) -> Result<bool, AllocError> {
    let description = described(alloc, case.changes)?;
    refuse(alloc, &description, case, longest)
}

/// Whether `compile` reports this of a text that is no description.
fn is_no_description(alloc: Global, text: &[u8], said: &[u8]) -> Result<bool, AllocError> {
    let left = compiled(alloc, text, &[], LONG, 5000)?;
    Ok(left.says_only(3, said))
}

#[test]
fn descriptions_are_refused(rt: HostRuntime) -> Result<(), Fail> {
    for case in &REFUSED {
        assert!(rt; refuses(rt.alloc(), case, LONG)?);
        assert!(rt; refuses(rt.alloc(), case, 1)?);
    }
    assert!(rt; is_no_description(rt.alloc(), b"a = ", b"description: not toml\n")?);
    Ok(())
}

/// Whether `compile` writes the same program as `capture`.
fn compiles_alike(
    alloc: Global,
    description: &[u8],
    capture: &Left,
    longest: usize,
) -> Result<bool, AllocError> {
    let compile = compiled(alloc, description, &[], longest, 5000)?;
    Ok(capture.desk.output("program") == compile.desk.output("out"))
}

fn captures(alloc: Global, case: &Captured, longest: usize) -> Result<bool, AllocError> {
    let description = described(alloc, case.changes)?;
    let stream = joined(alloc, case.stream)?;
    let left = captured(alloc, &description, &stream, &[], longest, 5000)?;
    let alike = compiles_alike(alloc, &description, &left, longest)?;
    Ok(alike && left.has(0, case.said, case.image) && left.has_faults(0, 0))
}

#[test]
fn fields_are_captured(rt: HostRuntime) -> Result<(), Fail> {
    for case in &CAPTURED {
        assert!(rt; captures(rt.alloc(), case, LONG)?);
        assert!(rt; captures(rt.alloc(), case, 1)?);
    }
    Ok(())
}

/// Whether `capture` prints this on a stream.
fn capture_says(
    alloc: Global,
    description: &[u8],
    stream: &[u8],
    longest: usize,
    said: &[u8],
) -> Result<bool, AllocError> {
    let left = captured(alloc, description, stream, &[], longest, 5000)?;
    Ok(left.says(0, said))
}

fn makes(alloc: Global, case: &Made, longest: usize) -> Result<bool, AllocError> {
    let description = described(alloc, case.changes)?;
    let left = made(alloc, &description, &[], longest, 5000)?;
    let stream = left.desk.output("out").unwrap_or_default();
    let captured = capture_says(alloc, &description, stream, longest, case.captured)?;
    Ok(captured && left.says(0, case.said) && stream.len() == case.length)
}

/// Whether `make` writes this stream of the plain description.
fn makes_plain(alloc: Global, stream: &[u8]) -> Result<bool, AllocError> {
    let description = described(alloc, &[])?;
    let left = made(alloc, &description, &[], 1, 5000)?;
    Ok(left.wrote("out", stream))
}

#[test]
fn streams_are_made(rt: HostRuntime) -> Result<(), Fail> {
    for case in &MADE {
        assert!(rt; makes(rt.alloc(), case, LONG)?);
        assert!(rt; makes(rt.alloc(), case, 1)?);
    }
    assert!(rt; makes_plain(rt.alloc(), SEEDED_STREAM)?);
    Ok(())
}

/// The plain description with a comment, of this length in all.
fn long_description(alloc: Global, len: usize) -> Result<Vec<u8>, AllocError> {
    let mut description = described(alloc, &[])?;
    description.push(b'#')?;
    let missing = len.saturating_sub(description.len());
    let padding = Vec::from_elem(alloc, b' ', missing)?;
    description.extend_from_slice(&padding)?;
    Ok(description)
}

/// What `compile` leaves of it.
fn compiled_long(alloc: Global, len: usize) -> Result<Left, AllocError> {
    let description = long_description(alloc, len)?;
    compiled(alloc, &description, &[], LONG, 5000)
}

fn takes_long(alloc: Global, len: usize, said: &[u8]) -> Result<bool, AllocError> {
    let left = compiled_long(alloc, len)?;
    Ok(left.says(0, said))
}

fn refuses_long(alloc: Global, len: usize, said: &[u8]) -> Result<bool, AllocError> {
    let left = compiled_long(alloc, len)?;
    Ok(left.says_only(3, said))
}

/// A description may have 1,048,576 bytes and no more.
#[test]
fn descriptions_are_limited(rt: HostRuntime) -> Result<(), Fail> {
    assert!(rt; takes_long(rt.alloc(), 1_048_576, b"words 8 pages 1\n")?);
    let said = b"description: too long at 1048576\n";
    assert!(rt; refuses_long(rt.alloc(), 1_048_577, said)?);
    Ok(())
}

/// Whether these words are at fault on a desk that has no files, one after the other.
fn are_at_fault(alloc: Global, desk: &mut MemDesk) -> bool
    requires opens { (all_told desk.old).may_open ≡ Some [] }
    requires creates { (all_told desk.old).may_create ≡ Some [] }
{
    is_at_fault(alloc, &["make", "d", "01", "1", "s"], desk)
        && is_at_fault(alloc, &["make", "d", "1", "0", "s"], desk)
        && is_at_fault(alloc, &["make", "d", "1", "17", "s"], desk)
        && is_at_fault(alloc, &["make", "d", "1", "1"], desk)
        && is_at_fault(alloc, &["make", "d", "1", "1", "d"], desk)
}

fn faults_are_said(alloc: Global, said: &[u8]) -> Result<bool, AllocError> {
    let mut desk = desk_of(alloc, &[], &[], &[], Limits::new(&[], LONG, 500))?;
    Ok(are_at_fault(alloc, &mut desk) && desk.said() == said)
}

#[test]
fn words_of_make_are_at_fault(rt: HostRuntime) -> Result<(), Fail> {
    let said =
        b"usage: bad number\nusage: bad number\nusage: bad number\nusage: wrong number of words\nusage: same name\n";
    assert!(rt; faults_are_said(rt.alloc(), said)?);
    Ok(())
}

/// An ordinary capture: two fields with lines of the blanking interval, and a clip in each corner.
const ORDINARY: &[u8] =
    b"format = \"yuy2\"\nwidth = 640\nheight = 480\nvbi_lines = 16\nclip = [[0,0,64,32],[576,0,64,32],[0,448,64,32],[576,448,64,32]]\n";

/// Appends one of 200 pages that lie the other way round.
fn add_page(text: &mut Vec<u8>, alloc: Global, number: u32) -> Result<(), AllocError>
    requires { number < 200 }
{
    let page = format!(in alloc; "{},", 0x0100_0000 + 0x2000 * (199 - number))?;
    text.extend_from_slice(page.as_bytes())
}

/// Its description, on these pages.
fn ordinary(alloc: Global) -> Result<Vec<u8>, AllocError> {
    let mut text = Vec::from_slice(alloc, ORDINARY)?;
    text.extend_from_slice(b"pages = [")?;
    for number in 0..200u32 {
        add_page(&mut text, alloc, number)?;
    }
    text.extend_from_slice(b"]\n")?;
    Ok(text)
}

/// Whether `make` prints this and writes a stream of this length, and `capture` prints that of it.
fn makes_and_captures(
    alloc: Global,
    description: &[u8],
    made_said: &[u8],
    length: usize,
    captured_said: &[u8],
) -> Result<bool, AllocError> {
    let left = made(alloc, description, &[], LONG, 2_000_000)?;
    let stream = left.desk.output("out").unwrap_or_default();
    let run = captured(alloc, description, stream, &[], LONG, 1_000_000)?;
    Ok(left.says(0, made_said) && stream.len() == length && run.says(0, captured_said))
}

fn compiles_ordinary(alloc: Global, said: &[u8]) -> Result<bool, AllocError> {
    let description = ordinary(alloc)?;
    let left = compiled(alloc, &description, &[], LONG, 10_000)?;
    Ok(left.says(0, said))
}

fn captures_ordinary(
    alloc: Global,
    made_said: &[u8],
    length: usize,
    captured_said: &[u8],
) -> Result<bool, AllocError> {
    let description = ordinary(alloc)?;
    makes_and_captures(alloc, &description, made_said, length, captured_said)
}

#[test]
fn an_ordinary_field_is_captured(rt: HostRuntime) -> Result<(), Fail> {
    assert!(rt; compiles_ordinary(rt.alloc(), b"words 1438 pages 200\n")?);
    let made = b"fields 2 entries 169952\n";
    let said = b"turns 2719328\nmoved 663424\noverruns 0 0 0 0\nstatus 20000800\n";
    assert!(rt; captures_ordinary(rt.alloc(), made, 1_869_519, said)?);
    Ok(())
}

/// Two frames of seed 1.
fn made_twice(alloc: Global, description: &[u8]) -> Result<Left, AllocError> {
    let words = ["make", "description", "1", "2", "out"];
    let files = [description];
    let limits = Limits::new(&[], LONG, 100_000);
    left_by(alloc, &words, &words[1..2], &files, &words[4..], limits)
}

/// A page after the second frame of a stream.
fn painted_page(alloc: Global, stream: &[u8], case: &Painted) -> Result<Vec<u8>, AllocError> {
    let mut page = Vec::from_elem(alloc, 0x55u8, 4096)?;
    for plane in case.planes {
        paint(stream, plane, &mut page);
    }
    Ok(page)
}

/// Its image, at 0x20000.
fn painted(alloc: Global, stream: &[u8], case: &Painted) -> Result<Vec<u8>, AllocError> {
    let page = painted_page(alloc, stream, case)?;
    let mut image = Vec::from_slice(alloc, b"BMI1\x01\x00\x00\x00\x00\x00\x02\x00")?;
    image.extend_from_slice(&page)?;
    Ok(image)
}

/// Whether `capture` leaves the plain painting of a stream.
fn captures_painted(
    alloc: Global,
    description: &[u8],
    stream: &[u8],
    case: &Painted,
) -> Result<bool, AllocError> {
    let left = captured(alloc, description, stream, &[], LONG, 5000)?;
    let image = painted(alloc, stream, case)?;
    Ok(left.status == 0 && left.wrote("image", &image))
}

/// Whether the image of two frames is a plain painting of the second one.
fn paints_described(alloc: Global, description: &[u8], case: &Painted) -> Result<bool, AllocError> {
    let left = made_twice(alloc, description)?;
    let stream = left.desk.output("out").unwrap_or_default();
    Ok(captures_painted(alloc, description, stream, case)? && left.status == 0)
}

/// The same of a format.
fn paints(alloc: Global, format: &str, case: &Painted) -> Result<bool, AllocError> {
    let description = format!(in alloc; "format = \"{}\"\n{}{}", format, PICTURE, case.layout)?;
    paints_described(alloc, description.as_bytes(), case)
}

#[test]
fn pictures_of_each_format(rt: HostRuntime) -> Result<(), Fail> {
    for case in &PAINTED {
        for format in case.formats {
            assert!(rt; paints(rt.alloc(), format, case)?);
        }
    }
    Ok(())
}

/// Whether the outputs were begun one after the other, and the text after them.
fn began_in_order(left: &Left, program: &[u8]) -> bool {
    let said = left.desk.said();
    CHUNKED_REPORT.starts_with(said)
        && (left.lacks("image") || left.wrote("program", program))
        && (said.is_empty() || left.wrote("image", CHUNKED_IMAGE))
}

/// Whether a fault of writing left beginnings.
fn ended_writing(left: &Left, program: &[u8]) -> bool {
    left.began("program", program)
        && left.began("image", CHUNKED_IMAGE)
        && began_in_order(left, program)
        && left.has_faults(0, 1)
}

/// Whether all was done.
fn ended_whole(left: &Left, program: &[u8]) -> bool {
    left.says(0, CHUNKED_REPORT)
        && left.wrote("program", program)
        && left.wrote("image", CHUNKED_IMAGE)
}

/// What is left where a call alone fails of a capture that writes this program. A fault of reading creates nothing;
/// at a fault of writing the outputs that were begun are there one after the other, and the text begins after them.
fn stands(left: &Left, program: &[u8]) -> bool {
    match left.status {
        4 => left.says_only(4, b"read fault\n") && left.has_faults(1, 0),
        5 => ended_writing(left, program),
        _ => ended_whole(left, program),
    }
}

/// The status where the call of this number alone fails, if what is left is as it should be.
fn failing_status(
    alloc: Global,
    description: &[u8],
    program: &[u8],
    longest: usize,
    number: u64,
) -> Result<Option<u8>, AllocError> {
    let left = captured(alloc, description, CHUNKED_STREAM, &[number], longest, 500)?;
    Ok(if stands(&left, program) {
        Some(left.status)
    } else {
        None
    })
}

/// How many calls fail alone with this status, from one of this number on; none where one does not
/// leave what it should.
fn failing_calls(
    alloc: Global,
    longest: usize,
    first: u64,
    status: u8,
) -> Result<Option<u64>, AllocError> {
    let description = described(alloc, CHUNKED)?;
    let program = ON_CHUNKS.program(alloc)?;
    let mut count = 0;
    for number in first..1000 {
        match failing_status(alloc, &description, &program, longest, number)? {
            None => return Ok(None),
            Some(other) if other != status => break,
            Some(_) => count = number - first + 1,
        }
    }
    Ok(Some(count))
}

/// How many calls that write fail alone, after so many that read; none where one does not leave
/// what it should.
fn writing_calls(alloc: Global, longest: usize, reads: u64) -> Result<Option<u64>, AllocError> {
    if failing_calls(alloc, longest, 1, 4)? != Some(reads) {
        return Ok(None);
    }
    failing_calls(alloc, longest, reads.saturating_add(1), 5)
}

/// The first calls read and the others write: two outputs are created and finished. The description has 88
/// bytes, the stream 26, the program 73, the image 32 and the report 50.
#[test]
fn one_call_of_a_capture_fails(rt: HostRuntime) -> Result<(), Fail> {
    assert!(rt; matches!(writing_calls(rt.alloc(), LONG, 6)?, Some(7..)));
    let reads = 2 + 88 + 1 + 26 + 1;
    let writes = 1 + 73 + 1 + 1 + 32 + 1 + 50;
    assert!(rt; writing_calls(rt.alloc(), 1, reads)? == Some(writes));
    Ok(())
}
