//! Counts the blocks that a machine of a ring ends (this project's own form).
#![tactic(auto)]

ghost use Rattle.std.specs.Prelude.{◌≡◌, true};
ghost use Rattle.ring_machine.specs.States.{block_notes, counted, still_ends_none, whole_ends_none};
ghost use Rattle.ring_model.specs.Rings.{IsRing, ends};

use dma_machine::{Did, Machine, Seen};
use fifo_model::Queue;
use machine_watch::{Watch, Watched};
use page_ram::Ram;
use ring_compile::Ring;
use risc_verify::Program;
use std::marker::Model;

/// The ring whose program a machine runs, and the number of blocks that it has ended, up to 2^64 - 1.
#[derive(Drop)]
pub struct BlockCount {
    ring: Ring,
    blocks: u64,
}

impl Model for BlockCount {
    ghost use Rattle.ring_machine.specs.States.{Counted};

    ghost Value = { Counted };

    ghost view = { λ c. record { ring = c.ring; blocks = c.blocks } };
}

/// A machine that runs a ring's program, and counts its blocks.
pub type RingMachine<R> = Watched<R, BlockCount>;

impl BlockCount {
    /// No block is ended yet.
    pub fn new(ring: Ring) -> BlockCount
        ensures none { result ≡ record { ring = ring; blocks = 0 } }
        ensures ring { IsRing ring }
    {
        // the call brings in that the ring has no fault
        let _fill = ring.fill();
        BlockCount { ring, blocks: 0 }
    }

    /// An instruction retires at an address: it may end a block.
    #[inline]
    fn retire(&mut self, at: u32)
        ensures { self.new ≡ counted (ends self.old.ring at) self.old }
    {
        if self.ring.ends(at).is_some() {
            self.blocks = self.blocks.saturating_add(1);
        }
    }

    /// The ring whose blocks are counted.
    pub fn ring(&self) -> &Ring
        ensures { result.now ≡ self.now.ring }
    {
        &self.ring
    }

    /// How many blocks were ended, up to 2^64 - 1.
    pub fn blocks(&self) -> u64
        ensures { result ≡ self.now.blocks }
    {
        self.blocks
    }
}

impl Watch for BlockCount {
    ghost notes = { block_notes };

    ghost LETS_FALL = { true };

    const LETS_FALL: bool = true;

    fn saw(&mut self, _program: &Program, seen: &Seen) {
        if matches!(seen.did, Did::Retired) {
            self.retire(seen.at);
        }
    }

    fn took_whole(&mut self, _queue: Queue) {}

    fn emptied(&mut self, _one: bool, _two: bool, _three: bool) {}

    // Of a turn nothing but a retirement is asked, which is known without looking at what a burst meets.
    #[inline]
    fn turn<R: Ram>(&mut self, machine: &mut Machine<R>) {
        if let Some(at) = machine.next_retirement() {
            self.retire(at);
        }
        machine.turn();
    }

    ghost still = { still_ends_none };

    ghost whole = { whole_ends_none };
}
