use capture_file::ProgramFile;
use risc_asm::{AsmError, AsmFault, assemble};
use risc_listing::list;
use std::alloc::{AllocError, Global};
use std::test::Fail;
use test_kit::{ONE_LINE, ONE_LINE_LISTING};

fn is_listed_as(alloc: Global, file: &ProgramFile, text: &[u8]) -> bool {
    match list(alloc, &file.program, file.fill) {
        Ok(again) => again.as_slice() == text,
        Err(_) => false,
    }
}

// Whether a text has this fault. With none it is a listing that is listed again alike.
fn is_judged(alloc: Global, text: &[u8], want: Option<AsmFault>) -> bool {
    match (assemble(alloc, text), want) {
        (Ok(file), None) => is_listed_as(alloc, &file, text),
        (Err(AsmError::Bad(have)), Some(want)) => have == want,
        _ => false,
    }
}

// Whether a file is the program of four instructions.
fn has_four_instructions(file: &ProgramFile) -> bool {
    file.program.words() == ONE_LINE.as_slice()
        && file.program.base() == 0x1000
        && file.program.grants().len() == 1
        && file.fill == 0
}

fn assembles_four_instructions(alloc: Global) -> bool {
    match assemble(alloc, ONE_LINE_LISTING) {
        Ok(file) => has_four_instructions(&file),
        Err(_) => false,
    }
}

#[test]
fn listings_are_assembled(rt: HostRuntime) {
    assert!(rt; assembles_four_instructions(rt.alloc()));
    let operand = b"base 00001000\n\
        00001000 word 80008004\n\
        00001004 write 4 70000000\n\
        0000100c word 00001004\n\
        page 00020000\n\
        fill 00\n";
    assert!(rt; is_judged(rt.alloc(), operand, None));
    let all = b"base 00001000\n\
        00001000 write irq set=1 off=f 0 ffffffff\n\
        00001008 skip eol 4095\n\
        0000100c writec sol off=1 10\n\
        00001010 write123 1 22 333 00020000 00020004 00020008\n\
        00001024 skip123 sol 1 2 3\n\
        0000102c write1s23 1 2 3 00020000\n\
        00001038 sync fm3 irq\n\
        00001040 sync vro\n\
        chunk 00020000 8\n\
        chunk 00020008 4\n\
        page 00030000\n\
        fill a5\n";
    assert!(rt; is_judged(rt.alloc(), all, None));
}

// Texts and their faults.
const FAULTS: [(&[u8], Option<AsmFault>); 9] = [
    (
        b"base 00001000\n\
            00001000 sync vre resync\n\
            00001008 sync fm1\n\
            00001010 write sol eol 8 00020000\n\
            00001018 jump irq reset=e set=1 00001000\n\
            page 00020000\n\
            fill 00\n",
        Some(AsmFault::Line(5)),
    ),
    (b"", Some(AsmFault::Short(0))),
    (b"base 0000", Some(AsmFault::Short(0))),
    // two words that are an instruction: the second line is at fault
    (
        b"base 00001000\n00001000 word 70000000\n00001004 word 00001000\n",
        Some(AsmFault::Line(3)),
    ),
    // a word that is an instruction alone, and one whose second word is missing
    (
        b"base 00001000\n00001000 word 20000004\nfill 00\n",
        Some(AsmFault::Line(2)),
    ),
    (b"base 00001000\n00001000 word 70000000\nfill 00\n", None),
    // the newline of the last line, and a line after it
    (
        b"base 00001000\npage 00020000\nfill 00",
        Some(AsmFault::Short(2)),
    ),
    (b"base 00001000\nfill 00\n\n", Some(AsmFault::Line(3))),
    (b"base 00001000\nfill 00\n ", Some(AsmFault::Line(3))),
];

#[test]
fn the_first_line_at_fault_is_told(rt: HostRuntime) {
    for (i, &(text, fault)) in FAULTS.iter().enumerate() {
        assert!(rt; is_judged(rt.alloc(), text, fault), "text {i}");
    }
}

// Texts whose chunks don't rise or share a byte with the words.
const CHUNKS: [&[u8]; 3] = [
    b"base 00001000\nchunk 00020008 4\nchunk 00020000 4\nfill 00\n",
    b"base 00001000\npage 00020000\npage 00020000\nfill 00\n",
    b"base 00001000\n00001000 skip 4\nchunk 00001000 4\nfill 00\n",
];

#[test]
fn chunks_rise_apart_from_the_words(rt: HostRuntime) {
    for (i, text) in CHUNKS.iter().enumerate() {
        assert!(rt;
            is_judged(rt.alloc(), text, Some(AsmFault::Line(3))),
            "text {i}"
        );
    }
}

// Five words listed one by one that are an instruction: the line of the fifth is at fault.
#[test]
fn an_instruction_of_five_words_is_told(rt: HostRuntime) {
    let write = b"base 00001000\n\
        00001000 word 90000004\n\
        00001004 word 00040004\n\
        00001008 word 00020000\n\
        0000100c word 00020000\n\
        00001010 word 00020000\n\
        fill 00\n";
    assert!(rt; is_judged(rt.alloc(), write, Some(AsmFault::Line(6))));
}

// The listing of a program of no words with so many pages.
fn on_pages(alloc: Global, count: u32) -> Result<String, AllocError> {
    let mut text = format!(in alloc; "base 00001000\n")?;
    for number in 0..count {
        let page = number.saturating_mul(4096).saturating_add(0x0100_0000);
        text.push_str(&format!(in alloc; "page {page:08x}\n")?)?;
    }
    text.push_str("fill 00\n")?;
    Ok(text)
}

// Whether a program on so many pages has this fault.
fn is_judged_on_pages(
    alloc: Global,
    count: u32,
    want: Option<AsmFault>,
) -> Result<bool, AllocError> {
    let text = on_pages(alloc, count)?;
    Ok(is_judged(alloc, text.as_bytes(), want))
}

// By the contract any text may be out of memory, so a page too many is tried.
#[test]
fn a_page_too_many_is_at_fault(rt: HostRuntime) -> Result<(), Fail> {
    assert!(rt; is_judged_on_pages(rt.alloc(), 4096, None)?);
    assert!(rt; is_judged_on_pages(rt.alloc(), 4097, Some(AsmFault::Line(4098)))?);
    Ok(())
}

// Each of these lines after `base 00001000` is at fault.
const WRONG: [&[u8]; 14] = [
    b"00001000 sync  vre\n",
    b"00001000 sync vre resync \n",
    b"00001000 SYNC vre\n",
    b"00001000 write 08 00020000\n",
    b"00001000 write 8 0002000F\n",
    b"00001000 write eol sol 8 00020000\n",
    b"00001000 write 4096 00020000\n",
    b"00001004 sync vre\n",
    b"00001000 sync vre set=0\n",
    b"chunk 00020000 4096\n",
    b"chunk 00020000 6\n",
    b"page 00001000x\n",
    b"page 00020001\n",
    b"fill 0\n",
];

// Whether a line is at fault behind the base.
fn is_wrong(alloc: Global, line: &[u8]) -> Result<bool, AllocError> {
    let mut text = Vec::from_slice(alloc, b"base 00001000\n")?;
    text.extend_from_slice(line)?;
    Ok(is_judged(alloc, &text, Some(AsmFault::Line(2))))
}

#[test]
fn lines_that_are_near_a_listing_are_refused(rt: HostRuntime) -> Result<(), Fail> {
    for (i, line) in WRONG.iter().enumerate() {
        assert!(rt; is_wrong(rt.alloc(), line)?, "line {i}");
    }
    Ok(())
}

// A listing of 42 bytes: each byte, and which others of `OTHERS` make another listing in its place.
const SMALL: &[u8] = b"base 00001000\n00001000 skip 4\nfill 00\n";

// Ten bytes in the place of each.
const OTHERS: [u8; 10] = *b"0158af xe\n";

// The answer by the rule, where the byte at a place is another. The digits of the fill are free, and the
// count may be any digit. Every other byte is given by the form, or by the base, and is in the line
// that is at fault. A newline makes a line of what is before it; without its newline the last line is
// none.
fn wanted(at: usize, byte: u8) -> Option<AsmFault> {
    if SMALL.get(at) == Some(&byte) {
        return None;
    }
    match at {
        0..=13 => Some(base_wanted(at, byte)),
        28 if byte.is_ascii_digit() => None,
        14..=29 => Some(AsmFault::Line(2)),
        35..=36 if byte.is_ascii_digit() || byte == b'a' || byte == b'f' || byte == b'e' => None,
        37 => Some(AsmFault::Short(2)),
        _ => Some(AsmFault::Line(3)),
    }
}

// Another base whose digits are right makes the next line the one at fault, unless it is no multiple of 4.
fn base_wanted(at: usize, byte: u8) -> AsmFault {
    let digit = byte.is_ascii_digit() || byte == b'a' || byte == b'f' || byte == b'e';
    match at {
        5..=11 if digit => AsmFault::Line(2),
        12 if byte == b'8' => AsmFault::Line(2),
        _ => AsmFault::Line(1),
    }
}

fn is_judged_with(alloc: Global, at: usize, byte: u8) -> Result<bool, AllocError> {
    let mut text = Vec::from_slice(alloc, SMALL)?;
    if let Some(place) = text.get_mut(at) {
        *place = byte;
    }
    Ok(is_judged(alloc, &text, wanted(at, byte)))
}

#[test]
fn each_byte_counts(rt: HostRuntime) -> Result<(), Fail> {
    for at in 0..SMALL.len() {
        for byte in OTHERS {
            assert!(rt; is_judged_with(rt.alloc(), at, byte)?, "{byte} at {at}");
        }
    }
    Ok(())
}
