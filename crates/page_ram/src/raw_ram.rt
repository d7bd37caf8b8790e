//! Memory in one raw block.
ghost use Rattle.std.specs.Prelude.{◌≡◌, ◌+◌, ◌^◌, ◌<◌, ◌≤◌, ℕ, List, None, IsTrue, IfOk, IfSome, false, length, true};
ghost use Rattle.page_table.specs.Grants.{Chunk, first_ungranted, granted, total, AreGrants};
ghost use Rattle.page_table.specs.Blocks.{Block, chunks_of, filled, stored_run};
ghost use Rattle.page_ram.specs.Extents.{extent_chunk, extent_chunks, AreLaid, StandsAt, StandsRun};

use crate::Ram;
use crate::each::{ByteStore, store_each};
use crate::raw_block::RawBlock;
use crate::span::{Span, place_of};
use page_table::{PAGE_SIZE, PageSet};
use std::alloc::{AllocError, Global};
use std::marker::Model;

const GUESSES: usize = 256;

// One chunk: the address of its first byte, its length in bytes, and where its bytes begin in the block.
#[derive(Drop)]
struct Extent {
    at: u32,
    len: u32,
    from: usize,
}

impl Span for Extent {
    ghost chunk = { extent_chunk };

    fn at(&self) -> u32 {
        self.at
    }

    fn end(&self) -> u64 {
        u64::from(self.at) + u64::from(self.len)
    }
}

// Which guess an address has.
#[inline(always)]
fn guess_of(addr: u32) -> usize
    ensures { result < 256 }
{
    (addr / PAGE_SIZE) as usize % GUESSES
}

// Where the byte at an address is: the place of its chunk, looked for first at the place `near`, and its
// index in the block.
fn locate(extents: &[Extent], near: usize, addr: u32) -> (usize, usize)
    requires grants { AreGrants (extent_chunks extents.now) }
    requires laid { AreLaid 0 extents.now }
    requires granted { IsTrue (granted (extent_chunks extents.now) addr) }
    ensures { StandsAt extents.now addr result.0 result.1 }
{
    let place = place_of(extents, near, addr);
    let extent = &extents[place];
    (place, extent.from + (addr - extent.at) as usize)
}

// The index in the block from which on so many bytes at addresses from `addr` on are, where the chunk at the
// place has them all.
#[inline]
fn run_in(extents: &[Extent], place: usize, addr: u32, count: usize) -> Option<usize>
    requires grants { AreGrants (extent_chunks extents.now) }
    requires laid { AreLaid 0 extents.now }
    requires few { count ≤ 2 ^ 32 }
    ensures found { IfSome result (λ index. StandsRun extents.now place addr count index) }
    ensures none { result ≡ None → (index : ℕ) → StandsRun extents.now place addr count index → ⊥ }
{
    let extent = extents.get(place)?;
    if addr < extent.at {
        return None;
    }
    let before = (addr - extent.at) as usize;
    if before + count <= extent.len as usize {
        Some(extent.from + before)
    } else {
        None
    }
}

// The chunks one behind the other, and how many bytes they take together.
fn lay_out(alloc: Global, grants: &PageSet) -> Result<(Vec<Extent>, usize), AllocError>
    ensures grants { AreGrants grants.now }
    ensures laid { IfOk result (λ r. (extent_chunks r.0.items ≡ grants.now) × AreLaid 0 r.0.items × (r.1 ≡ total grants.now)) }
{
    let mut extents = Vec::with_capacity(alloc, grants.len())?;
    let mut from = 0;
    for i in 0..grants.len() {
        let len = grants.size(i);
        extents.push(Extent {
            at: grants.get(i),
            len,
            from,
        })?;
        from += len as usize;
    }
    Ok((extents, from))
}

/// The fast memory: the bytes of all chunks are one behind the other in one raw block, which is taken
/// in `new` and freed once, when the memory is dropped. Only `new` takes memory.
#[derive(Drop)]
pub struct PageRam {
    extents: Vec<Extent>,
    // by the number of a page modulo `GUESSES`, the place of the chunk that was written last at such a page
    near: [u16; GUESSES],
    block: RawBlock,
}

impl Model for PageRam {
    ghost use Rattle.std.specs.Prelude.{List};
    ghost use Rattle.page_table.specs.Blocks.{Block};
    ghost use Rattle.page_ram.specs.Extents.{laid, AreCut};

    ghost Value = { List Block };

    ghost view = { λ ram. laid ram.block ram.extents.items };

    ghost invariant = { λ ram. AreCut ram.block ram.extents.items };
}

impl PageRam {
    /// Memory for these chunks in which every byte is `fill`.
    pub fn new(alloc: Global, grants: &PageSet, fill: u8) -> Result<PageRam, AllocError>
        ensures { IfOk result (λ ram. ram ≡ filled fill grants.now) }
    {
        let (extents, size) = lay_out(alloc, grants)?;
        let block = RawBlock::filled(alloc, size, fill)?;
        Ok(PageRam {
            extents,
            near: [0; GUESSES],
            block,
        })
    }

    // Notes which chunk has an address, as the one that is looked at first.
    fn note_near(&mut self, addr: u32)
        requires { IsTrue (granted (chunks_of self.old) addr) }
        ensures { self.new ≡ self.old }
    {
        let guess = guess_of(addr);
        let (place, _) = locate(&self.extents, usize::from(self.near[guess]), addr);
        self.near[guess] = place as u16;
    }

    // Writes bytes from an address on, where the chunk that is looked at first has them all. Whether it has.
    #[inline(always)]
    fn store_near(&mut self, addr: u32, bytes: &[u8]) -> bool
        requires { addr + length bytes.now ≤ 2 ^ 32 }
        ensures stored { result ≡ true → self.new ≡ stored_run self.old addr bytes.now }
        ensures kept { result ≡ false → self.new ≡ self.old }
    {
        let near = usize::from(self.near[guess_of(addr)]);
        match run_in(&self.extents, near, addr, bytes.len()) {
            Some(index) => {
                self.block.set_run(index, bytes);
                true
            }
            None => false,
        }
    }

    // Writes bytes from an address on that the chunk that is looked at first has not, or not all.
    #[cold]
    #[inline(never)]
    fn store_apart(&mut self, addr: u32, bytes: &[u8])
        requires within { addr + length bytes.now ≤ 2 ^ 32 }
        requires granted { first_ungranted (chunks_of self.old) addr (length bytes.now) ≡ None }
        ensures { self.new ≡ stored_run self.old addr bytes.now }
    {
        if bytes.is_empty() {
            return;
        }
        self.note_near(addr);
        if !self.store_near(addr, bytes) {
            store_each(self, addr, bytes);
        }
    }
}

impl ByteStore for PageRam {
    ghost bytes = { λ ram. ram };

    #[inline]
    fn store_byte(&mut self, addr: u32, byte: u8) {
        let guess = guess_of(addr);
        let (place, index) = locate(&self.extents, usize::from(self.near[guess]), addr);
        self.near[guess] = place as u16;
        self.block.set(index, byte);
    }
}

impl Ram for PageRam {
    ghost memory = { λ ram. ram };

    fn store(&mut self, addr: u32, byte: u8) {
        self.store_byte(addr, byte);
    }

    #[inline(always)]
    fn store_run(&mut self, addr: u32, bytes: &[u8]) {
        if !self.store_near(addr, bytes) {
            self.store_apart(addr, bytes);
        }
    }

    fn load(&self, addr: u32) -> u8 {
        let near = usize::from(self.near[guess_of(addr)]);
        let (_, index) = locate(&self.extents, near, addr);
        self.block.byte(index)
    }

    fn pages(&self) -> usize {
        self.extents.len()
    }

    fn page(&self, i: usize) -> (u32, &[u8]) {
        let extent = &self.extents[i];
        (
            extent.at,
            self.block.slice(extent.from, extent.len as usize),
        )
    }
}
