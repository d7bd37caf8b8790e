//! The DMA controller: it takes what the decoder pushes into three queues, runs a RISC program, and writes the memory
//! that the program may write. All rules of how it finds its way after a broken line are this project's own.
#![tactic(auto)]

ghost use Rattle.dma_machine.specs.Counts.{acted, acted_times, with_turns};
ghost use Rattle.dma_machine.specs.FallThrough.{MovesWhole, falls_through};
ghost use Rattle.dma_machine.specs.Facts.{IsMachine, report_of};
ghost use Rattle.dma_machine.specs.Lost.{counts_of, loses_all, pushes};
ghost use Rattle.dma_machine.specs.Looks.{CanGoOn, RetiresAt, holds, next_drop, next_fetch, next_retirement};
ghost use Rattle.dma_machine.specs.Plain.{AreRun, AreTaken, plain_room};
ghost use Rattle.machine_model.specs.Paths.{RiscProgram};
ghost use Rattle.machine_model.specs.PlainEntries.{plain_steps};
ghost use Rattle.dma_machine.specs.Stills.{is_still};
ghost use Rattle.fifo_model.specs.declared.Entry.{Entry as EntryOf};
ghost use Rattle.fifo_model.specs.declared.Queue.{Queue as QueueOf};
ghost use Rattle.fifo_model.specs.Queues.{empty_queues, max_capacity, more, empty_fifo, queue_state};
ghost use Rattle.irq_status.specs.Register.{has_ocerr};
ghost use Rattle.irq_status.specs.Writes.{IsWrite};
ghost use Rattle.machine_model.specs.Safety.{StaysInside};
ghost use Rattle.machine_model.specs.declared.Did.TheVariants.{Still};
ghost use Rattle.machine_model.specs.Seen.{seen, taken};
ghost use Rattle.machine_model.specs.States.{started};
ghost use Rattle.machine_model.specs.Steps.{Turn, control_pushed_as, host, push, push_control, pushed_as, run, with_program};
ghost use Rattle.machine_model.specs.Turns.{counted, turn};
ghost use Rattle.page_table.specs.Blocks.{chunks_of};
ghost use Rattle.std.specs.Prelude.{◌≡◌, ◌*◌, ◌<◌, ◌≤◌, ◌^◌, List, false, length, replicate, true, ℕ};
ghost use Rattle.sync_status.specs.Statuses.{is_control, kind_of};

mod engine;
mod fetching;
mod host;
mod lost;
mod opening;
mod parts;
mod plain;
mod running;
mod seeing;
mod stores;
mod turning;

use engine::{Engine, Standing};
use fifo_model::{Entry, Fifo, Pushed, Queue};
use irq_status::HostWrite;
pub use machine_model::{Did, Seen};
use page_ram::Ram;
use risc_verify::{Accepted, Program, SpanPlace};
use risc_word::Code;
use std::marker::Model;
use std::mem::swap;

/// What a machine reports: its counts, each up to 2^64 - 1, and its interrupt status.
#[derive(Clone, Copy, Debug, PartialEq, Eq)]
pub struct Report {
    /// The turns taken.
    pub turns: u64,
    /// The bytes stored.
    pub moved: u64,
    /// The pushes lost: to queues 1, 2 and 3, and of control codes.
    pub overruns: [u64; 4],
    /// The register INT_STAT.
    pub int_stat: u32,
}

/// What one turn did, and how many bytes it took of a queue, stored or not.
#[derive(Clone, Copy, Debug, PartialEq, Eq)]
pub struct Told {
    /// What the turn did, and at which instruction.
    pub seen: Seen,
    /// The bytes that its applications took.
    pub taken: u32,
}

/// A machine with its program, its queues and its memory. Contracts see its `State`. Its program is sound, so it
/// never writes a byte that isn't granted and never meets a word that it can't execute.
#[derive(Drop)]
pub struct Machine<R: Ram> {
    engine: Engine<R>,
}

impl<R: Ram> Model for Machine<R> {
    ghost use Rattle.dma_machine.specs.Facts.{IsMachine};
    ghost use Rattle.dma_machine.specs.Stills.{StandsAs};
    ghost use Rattle.dma_machine.specs.Views.{state_of};
    ghost use Rattle.machine_model.specs.States.{State};

    ghost Value = { State };

    ghost view = { λ machine. state_of R.memory machine.engine };

    ghost invariant = { λ machine. IsMachine (state_of R.memory machine.engine)
        × StandsAs machine.engine.standing (state_of R.memory machine.engine) };
}

impl<R: Ram> Machine<R> {
    /// A machine at the base of its program: both enables are on, and the trigger point is 1.
    pub fn new(accepted: Accepted, ram: R, fifo: Fifo) -> Machine<R>
        requires granted { chunks_of (R.memory ram) ≡ accepted.grants }
        requires empty { fifo ≡ empty_fifo }
        ensures state { result ≡ started accepted (R.memory ram) fifo }
        ensures facts { IsMachine result }
    {
        Machine {
            engine: Engine::new(accepted, ram, fifo),
        }
    }

    /// A push of a data entry to a queue; it is ignored while the FIFO is off.
    #[inline]
    pub fn push(&mut self, q: Queue, e: Entry) -> Pushed
        requires { is_control (kind_of e.status) ≡ false }
        ensures state { self.new ≡ push q e self.old }
        ensures answer { result ≡ pushed_as q self.old }
        ensures facts { IsMachine self.new }
    {
        self.engine.push(q, e)
    }

    /// A push of a control code into all three queues; it is ignored while the FIFO is off.
    #[inline]
    pub fn push_control(&mut self, c: Code) -> Pushed
        ensures state { self.new ≡ push_control c self.old }
        ensures answer { result ≡ control_pushed_as self.old }
        ensures facts { IsMachine self.new }
    {
        self.engine.push_control(c)
    }

    /// Counts turns, which are then taken.
    #[inline(always)]
    fn count(&mut self, count: u32)
        ensures state { self.new ≡ with_turns (more self.old.turns count) self.old }
        ensures few { self.old.turns < 2 ^ 64 }
        ensures before { IsMachine self.old }
        ensures facts { IsMachine self.new }
    {
        self.engine.count(count);
    }

    /// Takes a turn that is counted.
    #[inline(always)]
    fn act(&mut self)
        ensures state { self.new ≡ acted self.old }
        ensures facts { IsMachine self.new }
    {
        self.engine.act();
    }

    /// One turn of the controller.
    #[inline]
    pub fn turn(&mut self)
        ensures state { self.new ≡ turn self.old }
        ensures facts { IsMachine self.new }
        ensures inside { StaysInside self.old }
        ensures no_error { has_ocerr self.new.interrupts ≡ false }
    {
        self.count(1);
        self.act();
    }

    /// Whether the machine is known to stand still: whether its last turn found it so.
    #[inline(always)]
    fn is_known_still(&self) -> bool
        ensures { result ≡ true → is_still self.now ≡ true }
    {
        self.engine.is_known_still()
    }

    /// Notes that the machine stands still, so that the compiler sees it too.
    #[inline(always)]
    fn know_still(&mut self)
        requires { is_still self.old ≡ true }
        ensures { self.new ≡ self.old }
    {
        if !self.engine.is_known_still() {
            self.engine.standing = Standing::Still;
        }
    }

    /// Takes so many turns, which are counted, of a machine that stands still: they do nothing. They have a loop of their own,
    /// in which the compiler sees it.
    #[inline(always)]
    fn stay(&mut self, count: u32)
        requires { is_still self.old ≡ true }
        ensures { self.new ≡ self.old }
    {
        for _turn in 0..count {
            self.act();
        }
    }

    /// Takes so many turns, which are counted, one after the other.
    #[inline(always)]
    fn act_all(&mut self, count: u32)
        requires { IsMachine self.old }
        ensures state { self.new ≡ acted_times count self.old }
        ensures facts { IsMachine self.new }
    {
        for turn in 0..count {
            if self.is_known_still() {
                self.stay(count - turn);
                return;
            }
            self.act();
        }
    }

    /// So many turns of the controller: they are counted, and then taken one after the other.
    #[inline(never)]
    pub fn turns(&mut self, count: u32)
        ensures state { self.new ≡ run self.old (replicate count Turn) }
        ensures facts { IsMachine self.new }
    {
        self.count(count);
        self.act_all(count);
    }

    /// A push of a data entry that falls through its queue, and the turn behind it, which is not counted yet.
    #[inline(always)]
    fn fall_through(&mut self, q: Queue, e: Entry)
        requires data { is_control (kind_of e.status) ≡ false }
        requires falls { falls_through q e.status self.old ≡ true }
        ensures state { self.new ≡ acted (push q e self.old) }
        ensures facts { IsMachine self.new }
    {
        self.engine.fall_through(q, e);
    }

    /// A push, and then so many turns.
    #[inline(never)]
    fn push_apart(&mut self, q: Queue, e: Entry, count: u32)
        requires { is_control (kind_of e.status) ≡ false }
        ensures state { self.new ≡ run (push q e self.old) (replicate count Turn) }
        ensures facts { IsMachine self.new }
    {
        self.push(q, e);
        self.turns(count);
    }

    /// The same of an entry that may fall through its queue.
    #[inline(always)]
    fn push_through(&mut self, q: Queue, e: Entry, count: u32)
        requires { is_control (kind_of e.status) ≡ false }
        ensures state { self.new ≡ run (push q e self.old) (replicate count Turn) }
        ensures facts { IsMachine self.new }
    {
        let falls = self.engine.falls_through(q, e.status);
        if falls && count > 0 {
            self.fall_through(q, e);
            self.count(count);
            self.act_all(count - 1);
        } else {
            self.push_apart(q, e, count);
        }
    }

    /// The same of an entry that doesn't fall through an open machine. Each queue has code of its own. Where one entry doesn't make
    /// a queue ready, none falls through.
    #[inline(never)]
    fn push_and_turns_apart(&mut self, q: Queue, e: Entry, count: u32)
        requires { is_control (kind_of e.status) ≡ false }
        ensures state { self.new ≡ run (push q e self.old) (replicate count Turn) }
        ensures facts { IsMachine self.new }
    {
        if self.engine.trigger != 1 {
            self.push_apart(q, e, count);
            return;
        }
        match q {
            Queue::One => self.push_through(Queue::One, e, count),
            Queue::Two => self.push_through(Queue::Two, e, count),
            Queue::Three => self.push_through(Queue::Three, e, count),
        }
    }

    /// A push of a plain entry that falls through an open machine and leaves it open, and so many turns behind it. Answers whether
    /// that was done; where it wasn't, nothing was.
    #[inline(always)]
    fn fall_open_on(&mut self, q: Queue, e: &Entry, count: u32) -> bool
        requires { is_control (kind_of e.now.status) ≡ false }
        ensures falls { result ≡ true → falls_through q e.now.status self.old ≡ true }
        ensures state { result ≡ true → self.new ≡ run (push q e.now self.old) (replicate count Turn) }
        ensures none { result ≡ false → self.new ≡ self.old }
        ensures before { IsMachine self.old }
        ensures facts { IsMachine self.new }
    {
        self.engine.fall_open(q, e, count)
    }

    /// The same, with code of its own for each queue.
    #[inline(always)]
    fn fall_open(&mut self, q: Queue, e: &Entry, count: u32) -> bool
        requires { is_control (kind_of e.now.status) ≡ false }
        ensures falls { result ≡ true → falls_through q e.now.status self.old ≡ true }
        ensures state { result ≡ true → self.new ≡ run (push q e.now self.old) (replicate count Turn) }
        ensures none { result ≡ false → self.new ≡ self.old }
        ensures before { IsMachine self.old }
        ensures facts { IsMachine self.new }
    {
        match q {
            Queue::One => self.fall_open_on(Queue::One, e, count),
            Queue::Two => self.fall_open_on(Queue::Two, e, count),
            Queue::Three => self.fall_open_on(Queue::Three, e, count),
        }
    }

    /// A push of a data entry to a queue, and so many turns of the controller behind it, as a stream mostly has them. Where
    /// the first of these turns takes the entry whole, it need not enter its queue.
    #[inline(never)]
    pub fn push_and_turns(&mut self, q: Queue, e: Entry, count: u32)
        requires { is_control (kind_of e.status) ≡ false }
        ensures state { self.new ≡ run (push q e self.old) (replicate count Turn) }
        ensures facts { IsMachine self.new }
    {
        if !self.fall_open(q, &e, count) {
            self.push_and_turns_apart(q, e, count);
        }
    }

    /// A push of a data entry, and the turn behind it where this turn takes the entry whole. Answers whether the turn was taken.
    #[inline(always)]
    fn push_and_take_on(&mut self, q: Queue, e: Entry) -> bool
        requires { is_control (kind_of e.status) ≡ false }
        ensures falls { result ≡ falls_through q e.status self.old }
        ensures pushed { result ≡ false → self.new ≡ push q e self.old }
        ensures taken { result ≡ true → self.new ≡ turn (push q e self.old) }
        ensures seen { result ≡ true → MovesWhole q (seen (push q e self.old)) }
        ensures before { IsMachine self.old }
        ensures facts { IsMachine self.new }
    {
        let falls = self.engine.falls_through(q, e.status);
        if falls {
            self.fall_through(q, e);
            self.count(1);
        } else {
            self.push(q, e);
        }
        falls
    }

    /// The same of an entry that doesn't fall through an open machine. Each queue has code of its own.
    #[inline(never)]
    fn push_and_take_apart(&mut self, q: Queue, e: Entry) -> bool
        requires { is_control (kind_of e.status) ≡ false }
        ensures falls { result ≡ falls_through q e.status self.old }
        ensures pushed { result ≡ false → self.new ≡ push q e self.old }
        ensures taken { result ≡ true → self.new ≡ turn (push q e self.old) }
        ensures seen { result ≡ true → MovesWhole q (seen (push q e self.old)) }
        ensures before { IsMachine self.old }
        ensures facts { IsMachine self.new }
    {
        match q {
            Queue::One => self.push_and_take_on(Queue::One, e),
            Queue::Two => self.push_and_take_on(Queue::Two, e),
            Queue::Three => self.push_and_take_on(Queue::Three, e),
        }
    }

    /// A push of a data entry to a queue, and the turn behind it where this turn takes the entry whole, as it takes most
    /// entries of a line: such an entry need not enter its queue. Answers whether the turn was taken. That turn neither
    /// fetches an instruction nor retires one.
    #[inline(never)]
    pub fn push_and_take(&mut self, q: Queue, e: Entry) -> bool
        requires { is_control (kind_of e.status) ≡ false }
        ensures falls { result ≡ falls_through q e.status self.old }
        ensures pushed { result ≡ false → self.new ≡ push q e self.old }
        ensures taken { result ≡ true → self.new ≡ turn (push q e self.old) }
        ensures seen { result ≡ true → MovesWhole q (seen (push q e self.old)) }
        ensures before { IsMachine self.old }
        ensures facts { IsMachine self.new }
    {
        self.fall_open(q, &e, 1) || self.push_and_take_apart(q, e)
    }

    /// How many plain entries, data entries with the status PixelsValid, `push_plain` may push to a queue. Where each of them has a
    /// turn behind it, each that makes the queue ready is taken whole with all that the queue holds then, and behind all turns the
    /// machine stands still. None where the FIFO or RISC is disabled, no data instruction runs, the line has not begun, a lane is
    /// off, or an entry waits in this queue or in another one of which the instruction asks something and which is ready.
    #[inline]
    pub fn plain_room(&self, q: Queue) -> u32
        ensures room { result ≡ plain_room q self.now }
        ensures facts { IsMachine self.now }
    {
        self.engine.plain_room(q)
    }

    /// Pushes of plain entries to a queue, one or more, and turns behind each: the bytes are their DWORDs, four for each entry, the
    /// lowest first, and `turns` the sum of their turns, at least one behind each. However the turns are shared out, the machine is as
    /// after all these pushes and turns, one after the other. The bytes of whole bursts are stored at once, and the entries behind
    /// them wait in the queue. Answers whether there was a burst.
    #[inline]
    pub fn push_plain(&mut self, q: Queue, dwords: &[u8], turns: u32) -> bool
        requires some { 0 < length dwords.now }
        requires room { length dwords.now ≤ 4 * plain_room q self.old }
        requires plain { (entries : List (ℕ × ℕ)) × AreRun dwords.now turns entries }
        ensures state { (entries : List (ℕ × ℕ)) → AreRun dwords.now turns entries → self.new ≡ run self.old (plain_steps q entries) }
        ensures others { (program : RiscProgram) (entries : List (ℕ × ℕ)) → AreRun dwords.now turns entries →
            with_program program self.new ≡ run (with_program program self.old) (plain_steps q entries) }
        ensures taken { (entries : List (ℕ × ℕ)) → AreRun dwords.now turns entries → AreTaken result q entries self.old }
        ensures facts { IsMachine self.new }
    {
        self.engine.push_plain(q, dwords, turns)
    }

    /// Whether each data push is lost until a turn or a write of the host comes: the FIFO is enabled, and all queues are full.
    #[inline]
    pub fn loses_all(&self) -> bool
        ensures loses { result ≡ loses_all self.now }
        ensures facts { IsMachine self.now }
    {
        self.engine.loses_all()
    }

    /// So many pushes of data entries to queues 1, 2 and 3, each of which is lost. Whatever the entries are and however the pushes
    /// follow one another, the machine is as after all of them: the counts of overruns rise, and FBUS is raised.
    #[inline]
    pub fn push_lost(&mut self, lost: [usize; 3])
        requires { loses_all self.old ≡ true }
        ensures state { (entries : List (QueueOf × EntryOf)) → counts_of entries ≡ lost → self.new ≡ run self.old (pushes entries) }
        ensures facts { IsMachine self.new }
    {
        let [one, two, three] = lost;
        self.engine.lose_times(Queue::One, one);
        self.engine.lose_times(Queue::Two, two);
        self.engine.lose_times(Queue::Three, three);
    }

    /// So many turns of a machine that stands still: beside being counted they do nothing.
    #[inline]
    pub fn stand(&mut self, count: u32)
        requires { is_still self.old ≡ true }
        ensures state { self.new ≡ run self.old (replicate count Turn) }
        ensures facts { IsMachine self.new }
    {
        self.know_still();
        self.count(count);
        self.stay(count);
    }

    /// One turn of the controller, and what it did. It is the same turn as `turn` takes.
    pub fn turn_seen(&mut self) -> Seen
        ensures state { self.new ≡ turn self.old }
        ensures seen { result ≡ seen self.old }
        ensures still { result.did ≡ Did.Still → self.new ≡ counted self.old }
        ensures retired { result.did ≡ Did.Retired → RetiresAt self.old result.at }
        ensures facts { IsMachine self.new }
        ensures inside { StaysInside self.old }
        ensures no_error { has_ocerr self.new.interrupts ≡ false }
    {
        let told = self.act_told();
        self.count(1);
        told.seen
    }

    /// The same turn, also with how many bytes it took of its queue, stored or not.
    pub fn turn_told(&mut self) -> Told
        ensures state { self.new ≡ turn self.old }
        ensures seen { result.seen ≡ seen self.old }
        ensures taken { result.taken ≡ taken self.old }
        ensures still { result.seen.did ≡ Did.Still → self.new ≡ counted self.old }
        ensures facts { IsMachine self.new }
        ensures inside { StaysInside self.old }
        ensures no_error { has_ocerr self.new.interrupts ≡ false }
    {
        let told = self.act_told();
        self.count(1);
        told
    }

    /// Takes a turn without counting it, and answers what it did.
    #[inline(always)]
    fn act_told(&mut self) -> Told
        ensures state { self.new ≡ acted self.old }
        ensures seen { result.seen ≡ seen self.old }
        ensures taken { result.taken ≡ taken self.old }
        ensures before { IsMachine self.old }
        ensures facts { IsMachine self.new }
    {
        self.engine.act_told()
    }

    /// Exchanges the machine's program for another one with which it can go on: one that begins at the same address, has
    /// words at the same addresses and the same grants, and on whose path the machine is (this project's own rule). Nothing else
    /// changes.
    pub fn swap(&mut self, other: &mut Accepted)
        requires { CanGoOn other.old self.old }
        ensures state { self.new ≡ with_program other.old self.old }
        ensures other { other.new ≡ self.old.program }
        ensures facts { IsMachine self.new }
    {
        // the call shows what each program keeps
        let _base = other.program().base();
        self.engine.near = SpanPlace::none();
        swap(&mut self.engine.accepted, other);
    }

    /// The address at which the next turn fetches an instruction. None exactly where RISC is disabled or the machine
    /// waits in a SYNC or runs a data instruction.
    pub fn next_fetch(&self) -> Option<u32>
        ensures address { result ≡ next_fetch self.now }
        ensures facts { IsMachine self.now }
    {
        self.engine.next_fetch()
    }

    /// The address of the instruction that the next turn retires. None exactly where the next turn retires none.
    #[inline]
    pub fn next_retirement(&self) -> Option<u32>
        ensures address { result ≡ next_retirement self.now }
        ensures facts { IsMachine self.now }
    {
        self.engine.next_retirement()
    }

    /// Whether turns only count until a push or a write of the host comes: RISC is disabled, a SYNC waits and no queue has
    /// a front that it could drop or match, or a data instruction runs and none of the queues of which it asks something is
    /// ready.
    #[inline]
    pub fn stands_still(&self) -> bool
        ensures still { result ≡ is_still self.now }
        ensures counts { result ≡ true → turn self.now ≡ counted self.now }
        ensures seen { result ≡ true → (seen self.now).did ≡ Still }
        ensures facts { IsMachine self.now }
    {
        self.engine.stands_still()
    }

    /// Whether a queue holds an entry, which a host write that disables the FIFO would lose.
    pub fn holds(&self, q: Queue) -> bool
        ensures held { result ≡ holds q self.now }
        ensures facts { IsMachine self.now }
    {
        self.engine.holds(q)
    }

    /// The address of the next instruction, behind the one that waits or runs. A word of the program is there.
    #[inline]
    pub fn pc(&self) -> u32
        ensures address { result ≡ self.now.pc }
        ensures facts { IsMachine self.now }
    {
        self.engine.next_address()
    }

    /// How many entries a queue holds. A front of which some bytes were taken counts.
    #[inline]
    pub fn level(&self, q: Queue) -> usize
        ensures entries { result ≡ length (queue_state q self.now.queues).entries }
        ensures most { result ≤ max_capacity }
        ensures facts { IsMachine self.now }
    {
        self.engine.queues.len(q)
    }

    /// The queue whose front the next turn drops: the lowest that has a front without a control code. None exactly where
    /// RISC is disabled, no SYNC waits, or there is no such queue.
    #[inline]
    pub fn next_drop(&self) -> Option<Queue>
        ensures queue { result ≡ next_drop self.now }
        ensures facts { IsMachine self.now }
    {
        self.engine.next_drop()
    }

    /// A register write of the host.
    pub fn host(&mut self, w: HostWrite)
        requires { IsWrite w }
        ensures state { self.new ≡ host w self.old }
        ensures facts { IsMachine self.new }
    {
        self.engine.host(w);
    }

    /// The counts and INT_STAT.
    pub fn report(&self) -> Report
        ensures report { result ≡ report_of self.now }
        ensures facts { IsMachine self.now }
    {
        self.engine.report()
    }

    /// The memory.
    pub fn ram(&self) -> &R
        ensures memory { R.memory result.now ≡ self.now.memory }
        ensures facts { IsMachine self.now }
    {
        &self.engine.ram
    }

    /// The program that runs.
    pub fn program(&self) -> &Program
        ensures program { result.now ≡ self.now.program }
        ensures facts { IsMachine self.now }
    {
        self.engine.accepted.program()
    }
}
