//! What is not a turn: pushes of the decoder, writes of the host, the report, and the first state.

use crate::Report;
use crate::engine::{Engine, Phase, Standing, Wait};
use crate::parts::demands_of;
use fifo_model::{Entry, Fifo, Pushed, Queue};
use irq_status::{FBUS, HostWrite, IntStat};
use machine_model::Skipping;
use page_ram::Ram;
use risc_verify::{Accepted, SpanPlace};
use risc_word::{Code, Instr, NO_CONTROL};

impl<R: Ram> Engine<R> {
    ghost use Rattle.dma_machine.specs.Facts.{IsMachine, report_of};
    ghost use Rattle.dma_machine.specs.Looks.{holds, next_drop, next_fetch};
    ghost use Rattle.dma_machine.specs.Views.{state_of};
    ghost use Rattle.fifo_model.specs.Queues.{empty_queues, empty_fifo};
    ghost use Rattle.irq_status.specs.Writes.{IsWrite};
    ghost use Rattle.machine_model.specs.States.{started};
    ghost use Rattle.page_table.specs.Blocks.{chunks_of};
    ghost use Rattle.machine_model.specs.Steps.{control_pushed_as, host, push, push_control, pushed_as, restarted, with_fifo, with_risc};
    ghost use Rattle.std.specs.Prelude.{◌≡◌, ◌<◌, ◌^◌, false};
    ghost use Rattle.sync_status.specs.Statuses.{is_control, kind_of};

    /// A data push.
    #[inline]
    pub fn push(&mut self, q: Queue, e: Entry) -> Pushed
        requires { is_control (kind_of e.status) ≡ false }
        ensures state { state_of R.memory self.new ≡ push q e (state_of R.memory self.old) }
        ensures answer { result ≡ pushed_as q (state_of R.memory self.old) }
        ensures stands { self.new.standing ≡ Standing.Unknown }
    {
        self.standing = Standing::Unknown;
        if !self.fifo_on {
            return Pushed::Off;
        }
        let pushed = self.queues.push(q, e);
        if matches!(pushed, Pushed::Overrun) {
            self.interrupts.raise(FBUS);
        }
        pushed
    }

    /// A push of a control code into all three queues.
    #[inline]
    pub fn push_control(&mut self, c: Code) -> Pushed
        ensures state { state_of R.memory self.new ≡ push_control c (state_of R.memory self.old) }
        ensures answer { result ≡ control_pushed_as (state_of R.memory self.old) }
        ensures stands { self.new.standing ≡ Standing.Unknown }
    {
        self.standing = Standing::Unknown;
        if !self.fifo_on {
            return Pushed::Off;
        }
        let pushed = self.queues.push_control(c);
        if matches!(pushed, Pushed::Overrun) {
            self.interrupts.raise(FBUS);
        }
        pushed
    }

    /// The enable of the FIFO: 0 empties the queues.
    fn enable_fifo(&mut self, fifo: bool)
        ensures { state_of R.memory self.new ≡ with_fifo fifo (state_of R.memory self.old) }
    {
        self.fifo_on = fifo;
        if !fifo {
            self.queues.clear();
        }
    }

    fn restart(&mut self)
        ensures { state_of R.memory self.new ≡ restarted (state_of R.memory self.old) }
    {
        self.risc_on = true;
        self.pc = u64::from(self.accepted.program().base());
        self.phase = Phase::Idle;
        self.skipping = Skipping::Nothing;
        self.target = None;
    }

    /// The enable of the controller: from 0 to 1 it begins at the base again.
    fn enable_risc(&mut self, risc: bool)
        ensures { state_of R.memory self.new ≡ with_risc risc self.old.risc_on (state_of R.memory self.old) }
    {
        if !risc {
            self.risc_on = false;
        } else if !self.risc_on {
            self.restart();
        }
    }

    #[inline]
    fn enable(&mut self, fifo: bool, risc: bool)
        ensures { state_of R.memory self.new ≡ with_risc risc self.old.risc_on (with_fifo fifo (state_of R.memory self.old)) }
    {
        self.enable_fifo(fifo);
        self.enable_risc(risc);
    }

    fn write(&mut self, w: HostWrite)
        requires { IsWrite w }
        ensures { state_of R.memory self.new ≡ host w (state_of R.memory self.old) }
    {
        match w {
            HostWrite::Ack(mask) => self.interrupts.ack(mask),
            HostWrite::Enable { fifo, risc } => self.enable(fifo, risc),
            HostWrite::Trigger(number) => self.trigger = 4 << number,
        }
    }

    /// A register write of the host.
    pub fn host(&mut self, w: HostWrite)
        requires { IsWrite w }
        ensures state { state_of R.memory self.new ≡ host w (state_of R.memory self.old) }
        ensures stands { self.new.standing ≡ Standing.Unknown }
    {
        self.write(w);
        self.standing = Standing::Unknown;
    }

    /// Where the next turn fetches, if it does.
    pub fn next_fetch(&self) -> Option<u32>
        requires { self.now.pc < 2 ^ 32 }
        ensures { result ≡ next_fetch (state_of R.memory self.now) }
    {
        match self.phase {
            Phase::Idle if self.risc_on => Some(self.next_address()),
            _ => None,
        }
    }

    /// The address of the next instruction.
    #[inline]
    pub fn next_address(&self) -> u32
        requires { self.now.pc < 2 ^ 32 }
        ensures { result ≡ self.now.pc }
    {
        self.pc as u32
    }

    /// The queue whose front the next turn drops, if it drops one.
    #[inline]
    pub fn next_drop(&self) -> Option<Queue>
        ensures { result ≡ next_drop (state_of R.memory self.now) }
    {
        match self.phase {
            Phase::Waiting if self.risc_on => self.lowest_stray(),
            _ => None,
        }
    }

    /// Whether a queue holds an entry.
    pub fn holds(&self, q: Queue) -> bool
        ensures { result ≡ holds q (state_of R.memory self.now) }
    {
        self.queues.front(q).is_some()
    }

    /// The counts and INT_STAT.
    pub fn report(&self) -> Report
        ensures { result ≡ report_of (state_of R.memory self.now) }
    {
        Report {
            turns: self.turns,
            moved: self.moved,
            overruns: self.queues.overruns(),
            int_stat: self.interrupts.word(),
        }
    }

    /// The parts of a machine at the base of its program. `wait`, `instr` and `demands` mean nothing yet.
    pub fn new(accepted: Accepted, ram: R, queues: Fifo) -> Engine<R>
        requires granted { chunks_of (R.memory ram) ≡ accepted.grants }
        requires empty { queues ≡ empty_fifo }
        ensures state { state_of R.memory result ≡ started accepted (R.memory ram) queues }
        ensures stands { result.standing ≡ Standing.Unknown }
        ensures facts { IsMachine (state_of R.memory result) }
    {
        let instr = Instr::Jump {
            ctl: NO_CONTROL,
            target: 0,
        };
        let pc = u64::from(accepted.program().base());
        Engine {
            accepted,
            ram,
            queues,
            interrupts: IntStat::none(),
            fifo_on: true,
            risc_on: true,
            trigger: 1,
            pc,
            near: SpanPlace::none(),
            skipping: Skipping::Nothing,
            target: None,
            phase: Phase::Idle,
            wait: Wait {
                ctl: NO_CONTROL,
                resync: false,
                code: Code::Vre,
            },
            instr,
            off: 0,
            demands: demands_of(&instr, None),
            turns: 0,
            moved: 0,
            standing: Standing::Unknown,
        }
    }
}
