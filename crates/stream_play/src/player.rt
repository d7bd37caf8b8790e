//! What takes the steps of a stream.

ghost use Rattle.std.specs.Prelude.{◌≡◌, ◌*◌, ◌<◌, ◌≤◌, Bool, List, false, length, true, ℕ};
ghost use Rattle.capture_file.specs.declared.Step.TheVariants as Step;
ghost use Rattle.capture_file.specs.declared.Step.{Step as StepOf};
ghost use Rattle.fifo_model.specs.declared.Entry.{Entry as EntryOf};
ghost use Rattle.fifo_model.specs.declared.Queue.{Queue as QueueOf};
ghost use Rattle.capture_file.specs.Readers.{fresh};
ghost use Rattle.capture_file.specs.Records.{StepFits};
ghost use Rattle.capture_file.specs.Pairs.{pair_steps};
ghost use Rattle.capture_file.specs.Pushes.{counts_of, push_steps};
ghost use Rattle.dma_machine.specs.Lost.{loses_all};
ghost use Rattle.dma_machine.specs.Plain.{AreRun, plain_room};
ghost use Rattle.slot_chain.specs.Plays.{chain_act};
ghost use Rattle.machine_watch.specs.Watches.{run_room};
ghost use Rattle.stream_play.specs.Plays.{acted, watch_act};

use capture_file::StepReader;
use fifo_model::{Entry, Queue};
use irq_status::HostWrite;
use machine_watch::{Watch, Watched};
use page_ram::Ram;
use risc_word::Code;
use slot_chain::DoubleBuffer;

/// What takes the steps of a stream, one after the other. Proofs see what a step makes of it, and whether it has slots,
/// which patches change. Streams with patches are played by one with slots alone.
pub trait Player {
    ghost act: { StepOf → Self → Self };

    ghost has_slots: { Bool };

    ghost room: { QueueOf → Self → ℕ };

    ghost loses: { Self → Bool };

    /// A reader of its streams: with patches where it has slots, else of the other forms.
    fn reader(limit: u64) -> StepReader
        ensures { result ≡ fresh limit has_slots };

    /// Takes a data entry for one of the three queues.
    fn push(&mut self, queue: Queue, entry: Entry)
        requires { StepFits (Step.Push queue entry) }
        ensures { self.new ≡ act (Step.Push queue entry) self.old };

    /// Takes a control code for all queues.
    fn push_control(&mut self, code: Code)
        ensures { self.new ≡ act (Step.Control code) self.old };

    /// Takes so many turns.
    fn turns(&mut self, count: u32)
        ensures { self.new ≡ act (Step.Turns count) self.old };

    /// Takes a data entry for one of the three queues, and so many turns behind it, as a stream mostly has them.
    #[inline(always)]
    fn push_and_turns(&mut self, queue: Queue, entry: Entry, count: u32)
        requires { StepFits (Step.Push queue entry) }
        ensures { self.new ≡ act (Step.Turns count) (act (Step.Push queue entry) self.old) }
    {
        self.push(queue, entry);
        self.turns(count);
    }

    /// How many plain entries of a queue, which have four valid pixel bytes and turns behind them, `push_plain` may take.
    fn plain_room(&self, queue: Queue) -> u32
        ensures { result ≡ room queue self.now };

    /// Takes plain entries of a queue, one or more, and turns behind each: the bytes are their DWORDs, four for each entry, the lowest
    /// first, and `turns` the sum of their turns, at least one behind each.
    fn push_plain(&mut self, queue: Queue, dwords: &[u8], turns: u32)
        requires some { 0 < length dwords.now }
        requires room { length dwords.now ≤ 4 * room queue self.old }
        requires plain { (pairs : List (ℕ × ℕ)) × AreRun dwords.now turns pairs }
        ensures { (pairs : List (ℕ × ℕ)) → AreRun dwords.now turns pairs → self.new ≡ acted act (pair_steps queue pairs) self.old };

    /// Whether each data push is lost, so that `push_lost` may take it.
    fn loses_all(&self) -> bool
        ensures { result ≡ loses self.now };

    /// Takes so many data entries for queues 1, 2 and 3, each of which is lost. What they are and how they follow one another doesn't
    /// matter.
    fn push_lost(&mut self, lost: [usize; 3])
        requires loses { loses self.old ≡ true }
        requires counted { (entries : List (QueueOf × EntryOf)) × (counts_of entries ≡ lost) }
        ensures { (entries : List (QueueOf × EntryOf)) → counts_of entries ≡ lost → self.new ≡ acted act (push_steps entries) self.old };

    /// Takes a write of the host to a register.
    fn host(&mut self, write: HostWrite)
        requires { StepFits (Step.Host write) }
        ensures { self.new ≡ act (Step.Host write) self.old };

    /// Takes the patch of a slot: it shows a buffer from then on, 0 or 1, or none, 255.
    fn patch(&mut self, slot: u8, buffer: u8)
        requires { StepFits (Step.Patch slot buffer) }
        ensures { self.new ≡ act (Step.Patch slot buffer) self.old };
}

impl<R: Ram, W: Watch> Player for Watched<R, W> {
    ghost act = { watch_act W.notes };

    ghost has_slots = { false };

    ghost room = { λ queue w. run_room W.LETS_FALL queue w.machine };

    ghost loses = { λ w. loses_all w.machine };

    fn reader(limit: u64) -> StepReader {
        StepReader::new(limit)
    }

    #[inline(always)]
    fn push(&mut self, queue: Queue, entry: Entry) {
        let _ = Watched::push(self, queue, entry);
    }

    #[inline(always)]
    fn push_and_turns(&mut self, queue: Queue, entry: Entry, count: u32) {
        Watched::push_and_turns(self, queue, entry, count);
    }

    #[inline(always)]
    fn plain_room(&self, queue: Queue) -> u32 {
        Watched::plain_room(self, queue)
    }

    #[inline(always)]
    fn push_plain(&mut self, queue: Queue, dwords: &[u8], turns: u32) {
        Watched::push_plain(self, queue, dwords, turns);
    }

    #[inline(always)]
    fn loses_all(&self) -> bool {
        Watched::loses_all(self)
    }

    #[inline(always)]
    fn push_lost(&mut self, lost: [usize; 3]) {
        Watched::push_lost(self, lost);
    }

    #[inline(always)]
    fn push_control(&mut self, code: Code) {
        let _ = Watched::push_control(self, code);
    }

    #[inline(always)]
    fn turns(&mut self, count: u32) {
        Watched::turns(self, count);
    }

    #[inline(always)]
    fn host(&mut self, write: HostWrite) {
        Watched::host(self, write);
    }

    // A machine has no slots, and a stream that its reader takes has no patches: `act` makes nothing of one.
    fn patch(&mut self, _slot: u8, _buffer: u8) {}
}

impl<R: Ram> Player for DoubleBuffer<R> {
    ghost act = { chain_act };

    ghost has_slots = { true };

    ghost room = { λ queue b. plain_room queue b.live.machine };

    ghost loses = { λ b. loses_all b.live.machine };

    fn reader(limit: u64) -> StepReader {
        StepReader::chained(limit)
    }

    #[inline(always)]
    fn push(&mut self, queue: Queue, entry: Entry) {
        let _ = DoubleBuffer::push(self, queue, entry);
    }

    #[inline(always)]
    fn push_control(&mut self, code: Code) {
        let _ = DoubleBuffer::push_control(self, code);
    }

    #[inline(always)]
    fn plain_room(&self, queue: Queue) -> u32 {
        DoubleBuffer::plain_room(self, queue)
    }

    #[inline(always)]
    fn push_plain(&mut self, queue: Queue, dwords: &[u8], turns: u32) {
        DoubleBuffer::push_plain(self, queue, dwords, turns);
    }

    #[inline(always)]
    fn loses_all(&self) -> bool {
        DoubleBuffer::loses_all(self)
    }

    #[inline(always)]
    fn push_lost(&mut self, lost: [usize; 3]) {
        DoubleBuffer::push_lost(self, lost);
    }

    #[inline(always)]
    fn turns(&mut self, count: u32) {
        DoubleBuffer::turns(self, count);
    }

    #[inline(always)]
    fn host(&mut self, write: HostWrite) {
        DoubleBuffer::host(self, write);
    }

    fn patch(&mut self, slot: u8, buffer: u8) {
        DoubleBuffer::patch(self, slot, buffer);
    }
}
