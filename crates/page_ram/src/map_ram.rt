//! Memory as a vector of bytes for each chunk.
ghost use Rattle.std.specs.Prelude.{◌≡◌, ◌-◌, List, IsTrue, length, slice_index, slice_set, IfOk};
ghost use Rattle.page_table.specs.Grants.{chunk, covers};
ghost use Rattle.page_table.specs.Blocks.{Block, chunk_of, filled, filled_block};

use crate::Ram;
use crate::each::{ByteStore, store_each};
use crate::span::{Span, place_of};
use page_table::PageSet;
use std::alloc::{AllocError, Global};
use std::marker::Model;

// One chunk: the address of its first byte, and its bytes.
#[derive(Drop)]
struct ChunkBytes {
    at: u32,
    bytes: Vec<u8>,
}

impl Model for ChunkBytes {
    ghost use Rattle.page_table.specs.Blocks.{Block};

    ghost Value = { Block };

    ghost view = { λ block. record { at = block.at; bytes = block.bytes.items } };
}

impl ChunkBytes {
    fn new(alloc: Global, at: u32, len: u32, fill: u8) -> Result<ChunkBytes, AllocError>
        ensures { IfOk result (λ block. block ≡ filled_block fill (chunk at len)) }
    {
        let bytes = vec![in alloc; fill; len as usize]?;
        Ok(ChunkBytes { at, bytes })
    }

    fn byte(&self, addr: u32) -> u8
        requires { IsTrue (covers (chunk_of self.now) addr) }
        ensures { result ≡ slice_index self.now.bytes (addr - self.now.at) }
    {
        self.bytes[(addr - self.at) as usize]
    }

    fn set_byte(&mut self, addr: u32, byte: u8)
        requires { IsTrue (covers (chunk_of self.old) addr) }
        ensures { self.new ≡ record self.old { bytes = slice_set self.old.bytes (addr - self.old.at) byte } }
    {
        self.bytes[(addr - self.at) as usize] = byte;
    }
}

impl Span for ChunkBytes {
    ghost chunk = { chunk_of };

    fn at(&self) -> u32 {
        self.at
    }

    fn end(&self) -> u64 {
        u64::from(self.at) + self.bytes.len() as u64
    }
}

/// The plain memory: a vector of bytes for each chunk.
#[derive(Drop)]
pub struct MapRam {
    blocks: Vec<ChunkBytes>,
    // the place of the chunk that was written last
    near: usize,
}

impl Model for MapRam {
    ghost use Rattle.std.specs.Prelude.{List};
    ghost use Rattle.page_table.specs.Blocks.{Block, AreBlocks};

    ghost Value = { List Block };

    ghost view = { λ ram. ram.blocks.items };

    ghost invariant = { λ ram. AreBlocks ram.blocks.items };
}

impl MapRam {
    /// Memory for these chunks in which every byte is `fill`.
    pub fn new(alloc: Global, grants: &PageSet, fill: u8) -> Result<MapRam, AllocError>
        ensures { IfOk result (λ ram. ram ≡ filled fill grants.now) }
    {
        let mut blocks = Vec::with_capacity(alloc, grants.len())?;
        for i in 0..grants.len() {
            let block = ChunkBytes::new(alloc, grants.get(i), grants.size(i), fill)?;
            blocks.push(block)?;
        }
        Ok(MapRam { blocks, near: 0 })
    }
}

impl ByteStore for MapRam {
    ghost bytes = { λ ram. ram };

    #[inline]
    fn store_byte(&mut self, addr: u32, byte: u8) {
        let place = place_of(&self.blocks, self.near, addr);
        self.near = place;
        let block = &mut self.blocks[place];
        block.set_byte(addr, byte);
    }
}

impl Ram for MapRam {
    ghost memory = { λ ram. ram };

    fn store(&mut self, addr: u32, byte: u8) {
        self.store_byte(addr, byte);
    }

    fn store_run(&mut self, addr: u32, bytes: &[u8]) {
        store_each(self, addr, bytes);
    }

    fn load(&self, addr: u32) -> u8 {
        let place = place_of(&self.blocks, self.near, addr);
        let block = &self.blocks[place];
        block.byte(addr)
    }

    fn pages(&self) -> usize {
        self.blocks.len()
    }

    fn page(&self, i: usize) -> (u32, &[u8]) {
        let block = &self.blocks[i];
        (block.at, &block.bytes)
    }
}
