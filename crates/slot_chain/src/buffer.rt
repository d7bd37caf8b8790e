//! The chain of two descriptions while it runs.

ghost use Rattle.std.specs.Prelude.{◌≡◌, ◌<◌, IfErr, IfOk, OnOk};
ghost use Rattle.slot_chain.specs.Faults.{Refuses, chain_fault};
ghost use Rattle.slot_chain.specs.Refusals.{IsOfFragments, told};
ghost use Rattle.slot_chain.specs.Pairs.{first_of_two};
ghost use Rattle.slot_chain.specs.Plays.{part_asked};
ghost use Rattle.slot_chain.specs.Promises.{IsPair};

use crate::chain::Chain;
use crate::faults::DoubleBufferError;
use crate::fragments::{SLOTS, fragments_of_two};
use crate::making::ChainError;
use crate::memory::grants_of_both;
use chain_model::ChainFault;
use dma_machine::Report;
use fifo_model::{CAPACITIES, Entry, Fifo, Pushed, Queue};
use irq_status::HostWrite;
use page_ram::{PageRam, Ram};
use planar_plan::Frame;
use risc_verify::Steps;
use risc_word::Code;
use std::alloc::Global;
use std::marker::{Brand, Model};
use std::sync::ledger::{Blank, Ledger};

/// The byte of a patch that stands for no buffer.
const NO_BUFFER: u8 = 255;

/// The chain of two descriptions, with its machine, its queues and its memory. Its parts are the fragments of the two,
/// once for each slot: the buffers that a slot may show. Contracts see the chain and its live state.
#[derive(Drop)]
pub struct DoubleBuffer<R: Ram> {
    running: Chain<R>,
}

impl<R: Ram> Model for DoubleBuffer<R> {
    ghost use Rattle.slot_chain.specs.States.{ChainState};
    ghost use Rattle.slot_chain.specs.Pairs.{HasBuffers};

    ghost Value = { ChainState };

    ghost view = { λ buffer. buffer.running };

    ghost invariant = { λ buffer. HasBuffers buffer.running.chain };
}

/// What is reported of a chain that isn't made. The chain of two descriptions is sound, since fragments are.
fn told(error: ChainError) -> DoubleBufferError
    requires { IsOfFragments error }
    ensures { result ≡ told error }
{
    match error {
        ChainError::Base => DoubleBufferError::Fault(ChainFault::Base),
        ChainError::TooLong => DoubleBufferError::Fault(ChainFault::TooLong),
        ChainError::OnPage => DoubleBufferError::Fault(ChainFault::OnPage),
        ChainError::Bad { .. } => unreachable!(),
        ChainError::Memory => DoubleBufferError::Memory,
    }
}

/// The part of a slot that a patch asks for: that of a buffer, or none.
fn part_asked(slot: u8, buffer: u8) -> Option<u32>
    ensures { result ≡ part_asked slot buffer }
{
    if buffer == NO_BUFFER {
        None
    } else {
        Some(2 * u32::from(slot) + u32::from(buffer))
    }
}

/// The chain of two descriptions. The verifier's steps are counted in the ledger of `blank`.
fn made_over<L: Ledger>(
    alloc: Global,
    first: &Frame,
    second: &Frame,
    blank: Blank,
) -> Result<DoubleBuffer<PageRam>, DoubleBufferError>
    requires name { blank.name ≡ L.name }
    requires parts { blank.parts ≡ L.parts }
    requires some { 0 < blank.parts }
    ensures first { IfOk result (λ buffer. buffer ≡ first_of_two first.now second.now) }
    ensures pair { OnOk result (IsPair first.now second.now) }
    ensures refused { IfErr result (Refuses (chain_fault first.now second.now)) }
{
    let base = first.desc().base;
    if base % 4 != 0 {
        return Err(DoubleBufferError::Fault(ChainFault::Base));
    }
    let grants = grants_of_both(alloc, first, second)?;
    let parts = fragments_of_two(alloc, first, second)?;
    let ram = PageRam::new(alloc, &grants, first.desc().fill)?;
    let fifo = Fifo::new(alloc, CAPACITIES)?;
    let mut steps = Steps::<L>::new(blank);
    match Chain::new(alloc, base, SLOTS, parts, grants, ram, fifo, &mut steps) {
        Ok(running) => Ok(DoubleBuffer { running }),
        Err(error) => Err(told(error)),
    }
}

impl DoubleBuffer<PageRam> {
    /// The chain of two descriptions before its first step: two slots, of which none shows a buffer. It is at the base
    /// of the first description, whose fill is every byte of its memory, and may write the pages or chunks of both. Errors:
    /// the first fault of the two in the order of `ChainFault`, or out of memory (this project's own rule).
    pub fn new(
        alloc: Global,
        first: &Frame,
        second: &Frame,
    ) -> Result<DoubleBuffer<PageRam>, DoubleBufferError>
        ensures first { IfOk result (λ buffer. buffer ≡ first_of_two first.now second.now) }
        ensures pair { OnOk result (IsPair first.now second.now) }
        ensures refused { IfErr result (Refuses (chain_fault first.now second.now)) }
    {
        made_over::<Brand>(alloc, first, second, Blank::new(1))
    }
}

impl<R: Ram> DoubleBuffer<R> {
    ghost use Rattle.std.specs.Prelude.{◌≡◌, ◌*◌, ◌<◌, ◌≤◌, List, length, true, ℕ};
    ghost use Rattle.capture_file.specs.declared.Step.TheVariants as Step;
    ghost use Rattle.capture_file.specs.Records.{StepFits};
    ghost use Rattle.dma_machine.specs.Facts.{report_of};
    ghost use Rattle.dma_machine.specs.Lost.{counts_of, loses_all, pushes};
    ghost use Rattle.dma_machine.specs.Plain.{AreRun, plain_room};
    ghost use Rattle.fifo_model.specs.declared.Entry.{Entry as EntryOf};
    ghost use Rattle.fifo_model.specs.declared.Queue.{Queue as QueueOf};
    ghost use Rattle.machine_model.specs.PlainEntries.{plain_steps};
    ghost use Rattle.machine_model.specs.Steps.{control_pushed_as, pushed_as};
    ghost use Rattle.slot_chain.specs.States.{stepped};
    ghost use Rattle.slot_chain.specs.Plays.{chain_act};

    /// A push of a data entry to a queue; it is ignored while the FIFO is off.
    #[inline]
    pub fn push(&mut self, queue: Queue, entry: Entry) -> Pushed
        requires { StepFits (Step.Push queue entry) }
        ensures state { self.new ≡ chain_act (Step.Push queue entry) self.old }
        ensures answer { result ≡ pushed_as queue self.old.live.machine }
    {
        self.running.push(queue, entry)
    }

    /// A push of a control code into all three queues; it is ignored while the FIFO is off.
    #[inline]
    pub fn push_control(&mut self, code: Code) -> Pushed
        ensures state { self.new ≡ chain_act (Step.Control code) self.old }
        ensures answer { result ≡ control_pushed_as self.old.live.machine }
    {
        self.running.push_control(code)
    }

    /// So many turns of the controller, each over the words as they are then.
    #[inline]
    pub fn turns(&mut self, count: u32)
        ensures { self.new ≡ chain_act (Step.Turns count) self.old }
    {
        self.running.turns(count);
    }

    /// How many plain entries of a queue `push_plain` may push, as `Machine::plain_room`.
    #[inline]
    pub fn plain_room(&self, queue: Queue) -> u32
        ensures { result ≡ plain_room queue self.now.live.machine }
    {
        self.running.plain_room(queue)
    }

    /// Pushes of plain entries and turns behind each, as `Machine::push_plain`.
    #[inline]
    pub fn push_plain(&mut self, queue: Queue, dwords: &[u8], turns: u32)
        requires some { 0 < length dwords.now }
        requires room { length dwords.now ≤ 4 * plain_room queue self.old.live.machine }
        requires plain { (entries : List (ℕ × ℕ)) × AreRun dwords.now turns entries }
        ensures { (entries : List (ℕ × ℕ)) → AreRun dwords.now turns entries → self.new ≡ stepped (plain_steps queue entries) self.old }
    {
        self.running.push_plain(queue, dwords, turns);
    }

    /// Whether each data push is lost, as `Machine::loses_all`.
    #[inline]
    pub fn loses_all(&self) -> bool
        ensures { result ≡ loses_all self.now.live.machine }
    {
        self.running.loses_all()
    }

    /// So many pushes of data entries to queues 1, 2 and 3, each of which is lost, as `Machine::push_lost`.
    #[inline]
    pub fn push_lost(&mut self, lost: [usize; 3])
        requires loses { loses_all self.old.live.machine ≡ true }
        requires counted { (entries : List (QueueOf × EntryOf)) × (counts_of entries ≡ lost) }
        ensures { (entries : List (QueueOf × EntryOf)) → counts_of entries ≡ lost → self.new ≡ stepped (pushes entries) self.old }
    {
        self.running.push_lost(lost);
    }

    /// A write of the host to a register.
    pub fn host(&mut self, write: HostWrite)
        requires { StepFits (Step.Host write) }
        ensures { self.new ≡ chain_act (Step.Host write) self.old }
    {
        self.running.host(write);
    }

    /// A patch of the host: a slot shows a buffer from now on, 0 or 1, or none, 255 (this project's own rule). A machine
    /// inside the fragment that is patched out finishes it.
    pub fn patch(&mut self, slot: u8, buffer: u8)
        requires { StepFits (Step.Patch slot buffer) }
        ensures { self.new ≡ chain_act (Step.Patch slot buffer) self.old }
    {
        self.running
            .patch(u32::from(slot), part_asked(slot, buffer));
    }

    /// The counts and INT_STAT.
    pub fn report(&self) -> Report
        ensures { result ≡ report_of self.now.live.machine }
    {
        self.running.report()
    }

    /// The memory.
    pub fn ram(&self) -> &R
        ensures { R.memory result.now ≡ self.now.live.machine.memory }
    {
        self.running.ram()
    }
}
