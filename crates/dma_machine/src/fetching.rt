//! Turns of a machine that fetches or waits.

use crate::engine::Engine;
use fifo_model::Queue;
use machine_model::Skipping;
use page_ram::Ram;
use risc_word::{Code, Instr};
use sync_status::{StatusKind, kind};

impl<R: Ram> Engine<R> {
    ghost use Rattle.dma_machine.specs.Needs.{CanBegin, CanExecute, CanFetch, CtlFits};
    ghost use Rattle.dma_machine.specs.Views.{state_of};
    ghost use Rattle.fifo_model.specs.Queues.{front_code, queue_state};
    ghost use Rattle.machine_model.specs.Paths.{fetch};
    ghost use Rattle.risc_word.specs.Parts.{instr_ctl};
    ghost use Rattle.machine_model.specs.Turns.{code_seen, common_code, data_fetched, fetched, instr_fetched, is_stray, lowest_stray};
    ghost use Rattle.machine_model.specs.Turns.{waited};
    ghost use Rattle.std.specs.Prelude.{◌≡◌, ◌<◌, ◌^◌, IfSome, IsSome};

    /// What a data instruction does that was fetched.
    #[inline]
    fn begin_or_pass(&mut self, instr: Instr, count: u8)
        requires fit { CtlFits (instr_ctl instr) }
        requires small { self.old.pc < 2 ^ 33 }
        requires can { CanBegin self.old.skipping self.old.accepted.grants instr self.old.target }
        ensures { state_of R.memory self.new ≡ data_fetched self.old.skipping instr count (state_of R.memory self.old) }
    {
        match self.skipping {
            Skipping::Nothing => self.begin(instr, count),
            Skipping::ToEol | Skipping::ToSync => self.pass(&instr, count),
        }
    }

    #[inline]
    fn execute(&mut self, instr: Instr, count: u8)
        requires fit { CtlFits (instr_ctl instr) }
        requires small { self.old.pc < 2 ^ 33 }
        requires can { CanExecute instr (state_of R.memory self.old) }
        ensures { state_of R.memory self.new ≡ instr_fetched instr count (state_of R.memory self.old) }
    {
        match instr {
            Instr::Jump { ctl, target } => self.jump(ctl, target),
            Instr::Sync { ctl, resync, code } => self.sync(ctl, resync, code, count),
            Instr::Write { .. }
            | Instr::Skip { .. }
            | Instr::WriteC { .. }
            | Instr::Write123 { .. }
            | Instr::Skip123 { .. }
            | Instr::Write1S23 { .. } => self.begin_or_pass(instr, count),
        }
    }

    /// A turn of an idle machine.
    #[cold]
    #[inline(never)]
    pub fn fetch(&mut self)
        requires { CanFetch (fetch self.old.accepted self.old.pc) (state_of R.memory self.old) }
        ensures { state_of R.memory self.new ≡ fetched (fetch self.old.accepted self.old.pc) (state_of R.memory self.old) }
    {
        match self.accepted.program().instr_near(&mut self.near, self.pc) {
            Ok((instr, count)) => self.execute(instr, count),
            Err(_) => self.halt(),
        }
    }

    /// Whether a queue has a front that is no control code.
    #[inline]
    fn is_stray(&self, q: Queue) -> bool
        ensures stray { result ≡ is_stray (queue_state q self.now.queues) }
    {
        match self.queues.front(q) {
            Some(entry) => !matches!(kind(entry.status), StatusKind::Control(_)),
            None => false,
        }
    }

    #[inline]
    pub fn lowest_stray(&self) -> Option<Queue>
        ensures lowest { result ≡ lowest_stray self.now.queues }
    {
        if self.is_stray(Queue::One) {
            Some(Queue::One)
        } else if self.is_stray(Queue::Two) {
            Some(Queue::Two)
        } else if self.is_stray(Queue::Three) {
            Some(Queue::Three)
        } else {
            None
        }
    }

    /// The control code at the front of a queue.
    #[inline]
    fn front_code(&self, q: Queue) -> Option<Code>
        ensures { result ≡ front_code (queue_state q self.now.queues) }
    {
        match kind(self.queues.front(q)?.status) {
            StatusKind::Control(code) => Some(code),
            _ => None,
        }
    }

    /// The control code that is at the front of all three queues.
    #[inline]
    pub fn common_code(&self) -> Option<Code>
        ensures code { result ≡ common_code self.now.queues }
        ensures there { IfSome result (λ _. IsSome (front_code self.now.queues.one) × IsSome (front_code self.now.queues.two)
            × IsSome (front_code self.now.queues.three)) }
    {
        let one = self.front_code(Queue::One)?;
        self.front_code(Queue::Two)?;
        self.front_code(Queue::Three)?;
        Some(one)
    }

    #[inline]
    fn see_codes(&mut self)
        ensures { state_of R.memory self.new ≡ code_seen
            (common_code self.old.queues) self.old.wait.ctl self.old.wait.resync self.old.wait.code (state_of R.memory self.old) }
    {
        if let Some(seen) = self.common_code() {
            self.meet(seen.nibble() == self.wait.code.nibble());
        }
    }

    /// A turn of a machine that waits.
    #[cold]
    #[inline(never)]
    pub fn wait(&mut self)
        ensures { state_of R.memory self.new
            ≡ waited self.old.wait.ctl self.old.wait.resync self.old.wait.code (state_of R.memory self.old) }
    {
        match self.lowest_stray() {
            Some(q) => self.drop_front(q),
            None => self.see_codes(),
        }
    }
}
