//! Pushes into full queues.

use crate::engine::{Engine, Standing};
use fifo_model::{CHROMA_CAPACITY, Entry, LUMA_CAPACITY, Pushed, Queue};
use irq_status::FBUS;
use page_ram::Ram;
use sync_status::Status;

/// The status of four valid pixel bytes within a line.
const PIXELS_VALID: u8 = 0;

impl<R: Ram> Engine<R> {
    ghost use Rattle.dma_machine.specs.Facts.{HaveRoom};
    ghost use Rattle.dma_machine.specs.Lost.{loses_all};
    ghost use Rattle.dma_machine.specs.Views.{state_of};
    ghost use Rattle.dma_machine.specs.declared.engine.Standing.{Standing};
    ghost use Rattle.machine_model.specs.PlainEntries.{plain_entry};
    ghost use Rattle.machine_model.specs.Steps.{Push, push, run};
    ghost use Rattle.std.specs.Prelude.{◌≡◌, replicate, true};

    /// Whether each data push is lost: the FIFO is enabled, and all queues are full.
    #[inline]
    pub fn loses_all(&self) -> bool
        requires { HaveRoom self.now.trigger self.now.queues }
        ensures { result ≡ loses_all (state_of R.memory self.now) }
    {
        self.fifo_on
            && self.queues.len(Queue::One) == LUMA_CAPACITY
            && self.queues.len(Queue::Two) == CHROMA_CAPACITY
            && self.queues.len(Queue::Three) == CHROMA_CAPACITY
    }

    /// A push of a plain entry, which is lost.
    #[inline(always)]
    fn lose(&mut self, q: Queue)
        requires { loses_all (state_of R.memory self.old) ≡ true }
        ensures state { state_of R.memory self.new ≡ push q (plain_entry 0) (state_of R.memory self.old) }
        ensures stands { self.new.standing ≡ self.old.standing }
    {
        let status = Status::of(PIXELS_VALID);
        match self.queues.push(q, Entry { status, dword: 0 }) {
            Pushed::Overrun => self.interrupts.raise(FBUS),
            Pushed::Held | Pushed::Off => unreachable!(),
        }
    }

    /// Pushes so many plain entries to a queue, with no turn between them, each of which is lost.
    #[inline(always)]
    pub fn lose_times(&mut self, q: Queue, count: usize)
        requires { loses_all (state_of R.memory self.old) ≡ true }
        ensures state { state_of R.memory self.new ≡ run (state_of R.memory self.old) (replicate count (Push q (plain_entry 0))) }
        ensures loses { loses_all (state_of R.memory self.new) ≡ true }
        ensures stands { self.new.standing ≡ Standing.Unknown }
    {
        self.standing = Standing::Unknown;
        for _push in 0..count {
            self.lose(q);
        }
    }
}
