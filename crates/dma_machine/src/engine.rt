//! The machine's parts, and what each row of a turn does to them.

ghost use Rattle.dma_machine.specs.Needs.{AreParts};
ghost use Rattle.risc_verify.specs.Places.{IsNear};
ghost use Rattle.risc_word.specs.Parts.{instr_ctl, instr_off};
ghost use Rattle.std.specs.Prelude.{◌≡◌};

use crate::parts::{demands_of, skipping_after, target_after, target_before};
use fifo_model::{Fifo, Queue};
use irq_status::{FDSR, IntStat, OCERR};
use machine_model::{Demands, Skipping};
use page_ram::Ram;
use risc_verify::{Accepted, SpanPlace};
use risc_word::{Code, Ctl, Instr};

/// What the machine is at.
#[derive(Clone, Copy)]
pub enum Phase {
    Idle,
    Waiting,
    Running,
}

/// What is known of the turns to come, up to a push or a write of the host.
#[derive(Clone, Copy)]
pub enum Standing {
    /// Nothing.
    Unknown,
    /// They do nothing but count.
    Still,
    /// The same of a machine through which plain entries fall: both enables are on, one entry makes a queue ready, an instruction
    /// runs that has no lane off, and each of its lines has begun.
    Open,
}

/// The SYNC of a machine that waits.
#[derive(Clone, Copy)]
pub struct Wait {
    pub ctl: Ctl,
    pub resync: bool,
    pub code: Code,
}

/// The machine's parts. Those that each turn uses come first, where the processor reaches them by shorter instructions. `wait`
/// has a meaning only while the machine waits, `instr` and `demands` only while it runs.
#[derive(Drop)]
pub struct Engine<R> {
    pub phase: Phase,
    pub fifo_on: bool,
    pub risc_on: bool,
    pub standing: Standing,
    pub trigger: u16,
    pub demands: Demands,
    pub turns: u64,
    pub moved: u64,
    pub queues: Fifo,
    pub instr: Instr,
    /// The lanes that the instruction has off, found once when it begins.
    pub off: u8,
    pub wait: Wait,
    pub interrupts: IntStat,
    pub skipping: Skipping,
    pub target: Option<u64>,
    pub pc: u64,
    /// Where the span is in which a word was found last, or none.
    pub near: SpanPlace,
    pub ram: R,
    pub accepted: Accepted,
    ghost fit: { AreParts trigger wait.ctl (instr_ctl instr) },
    ghost lanes: { off ≡ instr_off instr },
    ghost found: { IsNear accepted near },
}

/// Rows of a turn, each on its own. What happens at most once an instruction is cold, so that the compiler lays out the
/// moves of a DWORD in a row.
impl<R: Ram> Engine<R> {
    ghost use Rattle.dma_machine.specs.Needs.{CanBegin, CtlFits, IsAddress};
    ghost use Rattle.dma_machine.specs.Views.{state_of};
    ghost use Rattle.machine_model.specs.Paths.{is_word};
    ghost use Rattle.risc_word.specs.Parts.{instr_ctl};
    ghost use Rattle.machine_model.specs.Turns.{begun, dropped, given_up, halted, jumped, met, passed, retired, synced, with_fdsr};
    ghost use Rattle.machine_model.specs.Turns.{with_fdsr_unless};
    ghost use Rattle.std.specs.Prelude.{◌≡◌, ◌<◌, ◌^◌, IsSome, None};
    ghost use Rattle.fifo_model.specs.Queues.{front, front_code, queue_state};

    /// Sets FDSR: data and program lost step.
    #[inline]
    pub fn lose_step(&mut self)
        ensures { state_of R.memory self.new ≡ with_fdsr (state_of R.memory self.old) }
    {
        self.interrupts.raise(FDSR);
    }

    /// The same while waiting, unless the SYNC has RESYNC.
    #[inline]
    pub fn lose_step_unless(&mut self, resync: bool)
        ensures { state_of R.memory self.new ≡ with_fdsr_unless resync (state_of R.memory self.old) }
    {
        if !resync {
            self.lose_step();
        }
    }

    /// No instruction can be executed.
    #[cold]
    pub fn halt(&mut self)
        ensures { state_of R.memory self.new ≡ halted (state_of R.memory self.old) }
    {
        self.interrupts.raise(OCERR);
        self.risc_on = false;
    }

    /// The instruction is given up.
    #[cold]
    #[inline(never)]
    pub fn give_up(&mut self, skipping: Skipping)
        ensures state { state_of R.memory self.new ≡ given_up skipping (state_of R.memory self.old) }
        ensures same { (self.new.ram ≡ self.old.ram) × (self.new.demands ≡ self.old.demands) }
    {
        self.phase = Phase::Idle;
        self.target = None;
        self.skipping = skipping;
        self.interrupts.raise(FDSR);
    }

    pub fn jump(&mut self, ctl: Ctl, addr: u32)
        requires { CtlFits ctl }
        ensures { state_of R.memory self.new ≡ jumped (is_word self.old.accepted addr) ctl addr (state_of R.memory self.old) }
    {
        let addr = u64::from(addr);
        if self
            .accepted
            .program()
            .word_near(&mut self.near, addr)
            .is_some()
        {
            self.interrupts.apply(ctl);
            self.pc = addr;
            self.target = None;
        } else {
            self.halt();
        }
    }

    pub fn sync(&mut self, ctl: Ctl, resync: bool, code: Code, count: u8)
        requires fit { CtlFits ctl }
        requires small { self.old.pc < 2 ^ 33 }
        ensures { state_of R.memory self.new ≡ synced ctl resync code count (state_of R.memory self.old) }
    {
        self.skipping = Skipping::Nothing;
        self.target = None;
        self.wait = Wait { ctl, resync, code };
        self.phase = Phase::Waiting;
        self.pc += 4 * u64::from(count);
    }

    pub fn pass(&mut self, instr: &Instr, count: u8)
        requires small { self.old.pc < 2 ^ 33 }
        ensures { state_of R.memory self.new ≡ passed instr.now count (state_of R.memory self.old) }
    {
        self.pc += 4 * u64::from(count);
        self.skipping = skipping_after(self.skipping, instr.ends().eol);
    }

    pub fn begin(&mut self, instr: Instr, count: u8)
        requires fit { CtlFits (instr_ctl instr) }
        requires small { self.old.pc < 2 ^ 33 }
        requires can { CanBegin Skipping.Nothing self.old.accepted.grants instr self.old.target }
        ensures { state_of R.memory self.new ≡ begun instr count (state_of R.memory self.old) }
    {
        let target = target_before(&instr, self.target);
        self.target = target;
        self.demands = demands_of(&instr, target);
        self.off = instr.off();
        self.instr = instr;
        self.phase = Phase::Running;
        self.pc += 4 * u64::from(count);
    }

    /// Removes, while the machine waits, a front that is no control code.
    pub fn drop_front(&mut self, q: Queue)
        requires there { IsSome (front (queue_state q self.old.queues)) }
        requires no_code { front_code (queue_state q self.old.queues) ≡ None }
        ensures { state_of R.memory self.new ≡ dropped q self.old.wait.resync (state_of R.memory self.old) }
    {
        self.queues.discard(q);
        self.lose_step_unless(self.wait.resync);
    }

    /// Removes the control code at the three fronts: it is the awaited one or another.
    pub fn meet(&mut self, awaited: bool)
        requires one { IsSome (front_code self.old.queues.one) }
        requires two { IsSome (front_code self.old.queues.two) }
        requires three { IsSome (front_code self.old.queues.three) }
        ensures { state_of R.memory self.new ≡ met awaited self.old.wait.ctl self.old.wait.resync (state_of R.memory self.old) }
    {
        self.queues.pop_controls();
        if awaited {
            self.interrupts.apply(self.wait.ctl);
            self.phase = Phase::Idle;
        } else {
            self.lose_step_unless(self.wait.resync);
        }
    }

    /// The instruction has all that it asked for.
    #[cold]
    #[inline(never)]
    pub fn retire(&mut self)
        requires { IsAddress self.old.target }
        ensures { state_of R.memory self.new ≡ retired self.old.instr (state_of R.memory self.old) }
    {
        self.interrupts.apply(self.instr.ctl());
        self.target = target_after(&self.instr, self.target);
        self.phase = Phase::Idle;
    }
}
