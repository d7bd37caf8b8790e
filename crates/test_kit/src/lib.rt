//! What tests share: program files made from their fields, and programs that several crates try.
#![tactic(auto)]

ghost use Rattle.std.specs.Prelude.{◌≡◌, ◌++◌, length, IfOk};
ghost use Rattle.std.specs.List.{flat_map, list_all};
ghost use Rattle.byteorder.specs.Endian.{little_bytes};
ghost use Rattle.test_kit.specs.ProgramFiles.{chunk_bytes, is_page, name_of, program_file};

mod worked;

use std::alloc::{AllocError, Global};
pub use worked::{ONE_LINE, ONE_LINE_LISTING, TWO_BLOCKS};

/// Appends a number, four bytes with the lowest first.
fn append(bytes: &mut Vec<u8>, number: u32) -> Result<(), AllocError>
    ensures { IfOk result (λ _. bytes.new.items ≡ bytes.old.items ++ little_bytes 4 number) }
{
    bytes.extend_from_slice(&number.to_le_bytes())
}

/// Appends a length, its lowest four bytes with the lowest first.
fn append_length(bytes: &mut Vec<u8>, len: usize) -> Result<(), AllocError>
    ensures { IfOk result (λ _. bytes.new.items ≡ bytes.old.items ++ little_bytes 4 len) }
{
    bytes.extend_from_slice(&len.to_le_bytes()[..4])
}

/// Appends numbers, four bytes each with the lowest first.
fn append_words(bytes: &mut Vec<u8>, words: &[u32]) -> Result<(), AllocError>
    ensures { IfOk result (λ _. bytes.new.items ≡ bytes.old.items ++ flat_map (little_bytes 4) words.now) }
{
    for word in words {
        append(bytes, *word)?;
    }
    Ok(())
}

fn is_page(chunk: (u32, u32)) -> bool
    ensures { result ≡ is_page chunk }
{
    chunk.0.is_multiple_of(4096) && chunk.1 == 4096
}

fn are_pages(chunks: &[(u32, u32)]) -> bool
    ensures { result ≡ list_all is_page chunks.now }
{
    chunks.iter().all(|chunk| is_page(*chunk))
}

/// Appends a chunk: its address, and its length where not all chunks are pages.
fn append_chunk(bytes: &mut Vec<u8>, paged: bool, chunk: (u32, u32)) -> Result<(), AllocError>
    ensures { IfOk result (λ _. bytes.new.items ≡ bytes.old.items ++ chunk_bytes paged chunk) }
{
    append(bytes, chunk.0)?;
    if paged {
        return Ok(());
    }
    append(bytes, chunk.1)
}

fn append_chunks(bytes: &mut Vec<u8>, paged: bool, chunks: &[(u32, u32)]) -> Result<(), AllocError>
    ensures { IfOk result (λ _. bytes.new.items ≡ bytes.old.items ++ flat_map (chunk_bytes paged) chunks.now) }
{
    for chunk in chunks {
        append_chunk(bytes, paged, *chunk)?;
    }
    Ok(())
}

fn name(paged: bool) -> &'static [u8]
    ensures { result.now ≡ name_of paged }
{
    if paged { b"BRP1" } else { b"BRP2" }
}

/// The program file of words that are one after another from a base on, of chunks with their addresses and lengths,
/// and of a fill: BRP1 where all chunks are pages, else BRP2. The fields are taken as they are, right or wrong.
pub fn brp(
    alloc: Global,
    base: u32,
    words: &[u32],
    chunks: &[(u32, u32)],
    fill: u8,
) -> Result<Vec<u8>, AllocError>
    ensures { IfOk result (λ bytes. bytes.items ≡ program_file base words.now chunks.now fill) }
{
    let paged = are_pages(chunks);
    let mut bytes = Vec::from_slice(alloc, name(paged))?;
    append(&mut bytes, base)?;
    append_length(&mut bytes, words.len())?;
    append_words(&mut bytes, words)?;
    append_length(&mut bytes, chunks.len())?;
    append_chunks(&mut bytes, paged, chunks)?;
    bytes.push(fill)?;
    Ok(bytes)
}
