//! Images of memory written to a desk.

ghost use Rattle.capture_desk.specs.Desks.{Puts, WriteCounts, after_write};
ghost use Rattle.capture_file.specs.Images.{block_image, image_as, image_head, image_name, image_of, place_image};
ghost use Rattle.capture_file.specs.Programs.{layout_for};
ghost use Rattle.page_table.specs.Blocks.{AreBlocks, Block, chunk_of, chunks_of};
ghost use Rattle.page_table.specs.Grants.{is_page, max_bytes};
ghost use Rattle.std.specs.List.{flat_map, list_all};
ghost use Rattle.std.specs.Prelude.{◌≡◌, ◌^◌, ◌≤◌, length, IsTrue};

use super::program::Layout;
use super::writing::{put_numbers, spell_one};
use capture_desk::{Desk, Failed, put};
use page_ram::Ram;
use page_table::PAGE_SIZE;

fn name(layout: Layout) -> [u8; 4]
    ensures { result ≡ image_name layout }
{
    match layout {
        Layout::Paged => *b"BMI1",
        Layout::Chunked => *b"BMI2",
    }
}

// Appends the first word of an image and the number of its chunks.
fn put_head<D: Desk>(desk: &mut D, layout: Layout, count: u32) -> Result<(), Failed>
    requires open { IsTrue (D.seen desk.old).told.output_open }
    ensures puts { Puts (image_head layout count) result after_write (D.seen desk.old).told (D.seen desk.new).told }
    ensures counts { WriteCounts result (D.seen desk.old) (D.seen desk.new) }
{
    let mut piece = [0; 8];
    piece[..4].copy_from_slice(&name(layout));
    spell_one(count, &mut piece, 4);
    put(desk, &piece)
}

// Appends the address of a chunk, and its length where it is no page.
fn put_place<D: Desk>(desk: &mut D, layout: Layout, at: u32, len: u32) -> Result<(), Failed>
    requires open { IsTrue (D.seen desk.old).told.output_open }
    ensures puts { Puts (place_image layout at len) result after_write (D.seen desk.old).told (D.seen desk.new).told }
    ensures counts { WriteCounts result (D.seen desk.old) (D.seen desk.new) }
{
    match layout {
        Layout::Paged => put_numbers(desk, &[at]),
        Layout::Chunked => put_numbers(desk, &[at, len]),
    }
}

// Appends a chunk of an image.
fn put_block<D: Desk>(desk: &mut D, layout: Layout, at: u32, bytes: &[u8]) -> Result<(), Failed>
    requires open { IsTrue (D.seen desk.old).told.output_open }
    requires small { length bytes.now ≤ max_bytes }
    ensures puts { Puts (block_image layout (record { at = at; bytes = bytes.now })) result after_write
        (D.seen desk.old).told (D.seen desk.new).told }
    ensures counts { WriteCounts result (D.seen desk.old) (D.seen desk.new) }
{
    put_place(desk, layout, at, bytes.len() as u32)?;
    put(desk, bytes)
}

fn is_page_at(at: u32, bytes: &[u8]) -> bool
    ensures { result ≡ is_page (chunk_of (record { at = at; bytes = bytes.now })) }
{
    at % PAGE_SIZE == 0 && bytes.len() == PAGE_SIZE as usize
}

// The form of a memory's image: whether all chunks are pages.
fn layout_of_ram<R: Ram>(ram: &R) -> Layout
    ensures { result ≡ layout_for (chunks_of (R.memory ram.now)) }
{
    for i in 0..ram.pages() {
        let (at, bytes) = ram.page(i);
        if !is_page_at(at, bytes) {
            return Layout::Chunked;
        }
    }
    Layout::Paged
}

// Appends the chunks of an image.
fn put_blocks<R: Ram, D: Desk>(ram: &R, layout: Layout, desk: &mut D) -> Result<(), Failed>
    requires open { IsTrue (D.seen desk.old).told.output_open }
    ensures puts { Puts (flat_map (block_image layout) (R.memory ram.now)) result after_write
        (D.seen desk.old).told (D.seen desk.new).told }
    ensures counts { WriteCounts result (D.seen desk.old) (D.seen desk.new) }
{
    for i in 0..ram.pages() {
        let (at, bytes) = ram.page(i);
        put_block(desk, layout, at, bytes)?;
    }
    Ok(())
}

/// Appends the image of a memory to the open output: `BMI1` where all chunks are pages, else `BMI2`,
/// then the number of the chunks, and of each chunk, in rising order, its address, its length where it
/// is no page, and its bytes (this project's own format). Where a write fails, some first bytes of the
/// image were appended.
#[tactic(auto, unfolding(crate::specs::Images::image_of))]
pub fn write_image<R: Ram, D: Desk>(ram: &R, desk: &mut D) -> Result<(), Failed>
    requires open { IsTrue (D.seen desk.old).told.output_open }
    ensures puts { Puts (image_of (R.memory ram.now)) result after_write (D.seen desk.old).told (D.seen desk.new).told }
    ensures counts { WriteCounts result (D.seen desk.old) (D.seen desk.new) }
{
    let layout = layout_of_ram(ram);
    put_head(desk, layout, ram.pages() as u32)?;
    put_blocks(ram, layout, desk)
}
