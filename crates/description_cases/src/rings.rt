use ring_compile::{Ring, RingError, RingFault, RingKey, compile_ring, read_ring};
use risc_verify::Program;
use std::alloc::{AllocError, Global};
use std::test::Fail;
use test_kit::TWO_BLOCKS;

const TWO_LINES: &str = "blocks = 2\nlines = 1\nline_bytes = 8\npages = [0x20000]\n";

// Whether the grants are the page at 0x20000.
fn has_one_page(program: &Program) -> bool {
    program.grants().len() == 1 && program.grants().get(0) == 0x20000
}

fn compiles_two_lines(alloc: Global, ring: &Ring) -> Result<bool, AllocError> {
    let program = compile_ring(alloc, ring)?;
    Ok(
        program.words() == TWO_BLOCKS.as_slice()
            && program.base() == 0x1000
            && has_one_page(&program),
    )
}

fn ends_two_blocks(ring: &Ring) -> bool {
    ring.ends(0x1008) == Some(0)
        && ring.ends(0x1010) == Some(1)
        && ring.ends(0x1000).is_none()
        && ring.ends(0x1018).is_none()
        && ring.fill() == 0
}

#[test]
fn two_blocks_of_a_line(rt: HostRuntime) -> Result<(), Fail> {
    let ring = read_ring(rt.alloc(), TWO_LINES.as_bytes())?;
    assert!(rt; compiles_two_lines(rt.alloc(), &ring)?);
    assert!(rt; ends_two_blocks(&ring));
    Ok(())
}

fn push_page(alloc: Global, pages: &mut String, address: u32) -> Result<(), AllocError> {
    let number = format!(in alloc; "{address},")?;
    pages.push_str(&number)
}

// 1,023 pages, from the one of number 2,000 down.
fn falling_pages(alloc: Global) -> Result<String, AllocError> {
    let mut pages = String::new(alloc);
    for page in 0..1023_u32 {
        push_page(alloc, &mut pages, 4096 * (2000 - page))?;
    }
    Ok(pages)
}

fn text_of_sixteen(alloc: Global, pages: &str) -> Result<String, AllocError> {
    format!(in alloc;
        "fill = 0xa5\nblocks = 16\nlines = 64\nline_bytes = 4092\nbase = 0\npages = [{pages}]\n"
    )
}

fn sixteen_blocks(alloc: Global) -> Result<Ring, Fail> {
    let pages = falling_pages(alloc)?;
    let text = text_of_sixteen(alloc, pages.as_str())?;
    Ok(read_ring(alloc, text.as_bytes())?)
}

// The second line is cut after 4 bytes, where the first page ends.
fn compiles_sixteen_blocks(alloc: Global, ring: &Ring) -> Result<bool, AllocError> {
    let program = compile_ring(alloc, ring)?;
    let begin = [
        0x8000_8006,
        0,
        0x1c00_0ffc,
        4096 * 2000,
        0x1800_0004,
        4096 * 2000 + 4092,
        0x1400_0ff8,
        4096 * 1999,
    ];
    let end = [
        0x1400_0004,
        4096 * 978,
        0x1d0f_0ffc,
        4096 * 978 + 4,
        0x7000_0000,
        8,
    ];
    let words = program.words();
    Ok(words.len() == 4096 && words.starts_with(&begin) && words.ends_with(&end))
}

fn ends_the_last_block(ring: &Ring) -> bool {
    ring.ends(4 * 4092) == Some(15)
        && ring.ends(4 * 4090).is_none()
        && ring.ends(4 * 4094).is_none()
        && ring.fill() == 0xa5
}

// Lines of 4,092 bytes on pages of 4,096: each page end but the last is within a line.
#[test]
fn sixteen_blocks_over_pages_in_falling_order(rt: HostRuntime) -> Result<(), Fail> {
    let ring = sixteen_blocks(rt.alloc())?;
    assert!(rt; compiles_sixteen_blocks(rt.alloc(), &ring)?);
    assert!(rt; ends_the_last_block(&ring));
    Ok(())
}

fn fault_of(alloc: Global, text: &str) -> Option<RingFault> {
    match read_ring(alloc, text.as_bytes()) {
        Err(RingError::Bad(fault)) => Some(fault),
        _ => None,
    }
}

fn is_no_toml(alloc: Global, text: &str) -> bool {
    matches!(fault_of(alloc, text), Some(RingFault::NotToml))
}

fn is_unknown(alloc: Global, text: &str, key: &str) -> bool {
    match fault_of(alloc, text) {
        Some(RingFault::Unknown(unknown)) => unknown.as_slice() == key.as_bytes(),
        _ => false,
    }
}

fn is_missing(alloc: Global, text: &str, key: RingKey) -> bool {
    match fault_of(alloc, text) {
        Some(RingFault::Missing(missing)) => missing == key,
        _ => false,
    }
}

fn is_of_wrong_kind(alloc: Global, text: &str, key: RingKey) -> bool {
    match fault_of(alloc, text) {
        Some(RingFault::WrongKind(wrong)) => wrong == key,
        _ => false,
    }
}

fn is_out_of_range(alloc: Global, text: &str, key: RingKey) -> bool {
    match fault_of(alloc, text) {
        Some(RingFault::OutOfRange(wrong)) => wrong == key,
        _ => false,
    }
}

#[test]
fn faults_of_the_text_and_its_keys(rt: HostRuntime) {
    let alloc = rt.alloc();
    assert!(rt; is_no_toml(alloc, "blocks"));
    assert!(rt; is_unknown(alloc, "blocks = 1\nzebra = 1\nformat = 2\n", "format"));
    assert!(rt; is_missing(alloc, "lines = 0\n", RingKey::Blocks));
    assert!(rt; is_out_of_range(alloc, "blocks = 17\n", RingKey::Blocks));
    assert!(rt; is_of_wrong_kind(alloc, "blocks = 16\nlines = \"1\"\n", RingKey::Lines));
    let short = "blocks = 2\nlines = 1\nline_bytes = 4\npages = [0x20000]\n";
    assert!(rt; is_out_of_range(alloc, short, RingKey::LineBytes));
    let nested = "blocks = 2\nlines = 1\nline_bytes = 8\npages = [[1]]\n";
    assert!(rt; is_of_wrong_kind(alloc, nested, RingKey::Pages));
    let dark = "blocks = 2\nlines = 1\nline_bytes = 8\npages = [1]\nfill = 256\n";
    assert!(rt; is_out_of_range(alloc, dark, RingKey::Fill));
}

fn is_unaligned(alloc: Global, text: &str, page: u32) -> bool {
    match fault_of(alloc, text) {
        Some(RingFault::PageUnaligned(wrong)) => wrong == page,
        _ => false,
    }
}

fn is_twice(alloc: Global, text: &str, page: u32) -> bool {
    match fault_of(alloc, text) {
        Some(RingFault::PageTwice(wrong)) => wrong == page,
        _ => false,
    }
}

// Whether two pages are needed and one is there.
fn lacks_a_page(alloc: Global, text: &str) -> bool {
    matches!(
        fault_of(alloc, text),
        Some(RingFault::TooFewPages { need: 2, have: 1 })
    )
}

#[test]
fn faults_of_the_pages(rt: HostRuntime) {
    let alloc = rt.alloc();
    let apart = "blocks = 2\nlines = 1\nline_bytes = 8\npages = [0x20000, 0x20000, 1]\n";
    assert!(rt; is_unaligned(alloc, apart, 2));
    let twice = "blocks = 2\nlines = 1\nline_bytes = 8\npages = [0x20000, 0x30000, 0x20000]\n";
    assert!(rt; is_twice(alloc, twice, 2));
    let long = "blocks = 3\nlines = 2\nline_bytes = 1000\npages = [0x20000]\n";
    assert!(rt; lacks_a_page(alloc, long));
}

fn is_bad_base(alloc: Global, text: &str) -> bool {
    matches!(fault_of(alloc, text), Some(RingFault::ProgramBase))
}

fn is_on_page(alloc: Global, text: &str) -> bool {
    matches!(fault_of(alloc, text), Some(RingFault::ProgramOnPage))
}

#[test]
fn faults_of_the_place(rt: HostRuntime) {
    let alloc = rt.alloc();
    let odd = "blocks = 2\nlines = 1\nline_bytes = 8\nbase = 2\npages = [0x20000]\n";
    assert!(rt; is_bad_base(alloc, odd));
    let high = "blocks = 2\nlines = 1\nline_bytes = 8\nbase = 0xffff_fffc\npages = [0x20000]\n";
    assert!(rt; is_bad_base(alloc, high));
    let on_page = "blocks = 2\nlines = 1\nline_bytes = 8\nbase = 0x1ffe4\npages = [0x20000]\n";
    assert!(rt; is_on_page(alloc, on_page));
    let below = "blocks = 2\nlines = 1\nline_bytes = 8\nbase = 0x1ffe0\npages = [0x20000]\n";
    assert!(rt; fault_of(alloc, below).is_none());
}
