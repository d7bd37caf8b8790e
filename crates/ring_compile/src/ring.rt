//! A ring, and its program.
ghost use Rattle.std.specs.Prelude.{◌≡◌, ◌<◌, ◌==◌, length, IfOk, IfSome};
ghost use Rattle.std.specs.List.{position};
ghost use Rattle.machine_model.specs.Paths.{IsSound};
ghost use Rattle.page_table.specs.Taken.{in_order};
ghost use Rattle.ring_model.specs.Rings.{ends, memory_of, ring_program, ring_words};
ghost use Rattle.ring_compile.specs.Kept.{IsJudged};

use crate::fault::RingError;
use crate::judge::page_grants;
use capture_desc::Numbers;
use page_table::PageSet;
use risc_verify::Program;
use std::alloc::{AllocError, Global};
use std::marker::Model;

/// The six values of a ring file.
#[derive(Drop)]
pub struct Values {
    pub blocks: u8,
    pub lines: u8,
    pub line_bytes: u16,
    pub base: u32,
    pub pages: Numbers,
    pub fill: u8,
}

impl Model for Values {
    ghost use Rattle.ring_model.specs.Rings.{Ring};

    ghost Value = { Ring };

    ghost view = { λ v. record {
      blocks = v.blocks;
      lines = v.lines;
      line_bytes = v.line_bytes;
      base = v.base;
      pages = v.pages;
      fill = v.fill;
    } };
}

/// A ring whose file has no fault, with the words of its program. Contracts see the six values of its file.
#[derive(Drop)]
pub struct Ring {
    pub(crate) values: Values,
    pub(crate) words: Vec<u32>,
    // the address of each block's last WRITE
    pub(crate) last_writes: Vec<u64>,
}

impl Model for Ring {
    ghost use Rattle.ring_model.specs.Rings.{Ring};
    ghost use Rattle.ring_compile.specs.Kept.{IsKept};

    ghost Value = { Ring };

    ghost view = { λ ring. ring.values };

    ghost invariant = { λ ring. IsKept ring.values ring.words.items ring.last_writes.items };
}

// The place of an address in a list.
fn place_of(addresses: &[u64], at: u32) -> Option<usize>
    ensures found { result ≡ position (λ address. address == at) addresses.now }
    ensures within { IfSome result (λ place. place < length addresses.now) }
{
    addresses
        .iter()
        .position(|address| *address == u64::from(at))
}

impl Ring {
    /// The block whose last WRITE is at an address, counted from 0. None where no block's is there.
    pub fn ends(&self, at: u32) -> Option<u8>
        ensures value { result ≡ ends self.now at }
        ensures judged { IsJudged self.now }
    {
        match place_of(&self.last_writes, at) {
            Some(block) => Some(block as u8),
            None => None,
        }
    }

    /// The byte that memory holds at first.
    pub fn fill(&self) -> u8
        ensures value { result ≡ self.now.fill }
        ensures judged { IsJudged self.now }
    {
        self.values.fill
    }
}

// The pages of a ring as grants.
fn grants(alloc: Global, values: &Values) -> Result<PageSet, AllocError>
    requires { IsJudged values.now }
    ensures { IfOk result (λ grants. grants ≡ in_order (memory_of values.now)) }
{
    match page_grants(alloc, values) {
        Ok(grants) => Ok(grants),
        Err(RingError::Memory) => Err(AllocError),
        Err(RingError::Bad(_)) => unreachable!(),
    }
}

// The program of a ring whose words are known.
fn program_of(alloc: Global, values: &Values, words: Vec<u32>) -> Result<Program, AllocError>
    requires judged { IsJudged values.now }
    requires words { words.items ≡ ring_words values.now }
    ensures program { IfOk result (λ program. program ≡ ring_program values.now) }
    ensures sound { IfOk result IsSound }
{
    let grants = grants(alloc, values)?;
    Ok(Program::new(values.base, words, grants))
}

/// The program of a ring, which is sound: SYNC on FM1 with RESYNC, the lines of block after block, and a JUMP to the
/// word behind the SYNC. The lines lie without a gap along the pages, in their order; a line is cut at the ends of
/// pages into the longest WRITEs. The last WRITE of a block interrupts and leaves the block's number in the RISC
/// status (this project's own form; instructions after the Bt878 data sheet, "RISC instructions"). The program may
/// write the pages.
pub fn compile_ring(alloc: Global, ring: &Ring) -> Result<Program, AllocError>
    ensures program { IfOk result (λ program. program ≡ ring_program ring.now) }
    ensures sound { IfOk result IsSound }
{
    let words = Vec::from_slice(alloc, &ring.words)?;
    program_of(alloc, &ring.values, words)
}
