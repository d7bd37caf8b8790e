//! A machine that is watched.

ghost use Rattle.std.specs.Prelude.{◌≡◌, ◌<◌, ◌≤◌, ◌*◌, ◌∷◌, [], List, false, length, replicate, true, ℕ};
ghost use Rattle.dma_machine.specs.Facts.{report_of};
ghost use Rattle.dma_machine.specs.Lost.{counts_of, loses_all, pushes};
ghost use Rattle.dma_machine.specs.Plain.{AreRun};
ghost use Rattle.fifo_model.specs.declared.Entry.{Entry as EntryOf};
ghost use Rattle.fifo_model.specs.declared.Queue.{Queue as QueueOf};
ghost use Rattle.machine_model.specs.PlainEntries.{plain_steps};
ghost use Rattle.irq_status.specs.Writes.{IsWrite};
ghost use Rattle.machine_model.specs.Steps.{Control, Host, Push, Turn, control_pushed_as, pushed_as};
ghost use Rattle.machine_watch.specs.Watches.{run_room, watched, watching};
ghost use Rattle.sync_status.specs.Statuses.{is_control, kind_of};

use crate::watch::Watch;
use dma_machine::{Machine, Report};
use fifo_model::{Entry, Pushed, Queue};
use irq_status::HostWrite;
use page_ram::Ram;
use risc_word::Code;
use std::marker::Model;

/// A machine, and what is kept of its steps. Contracts see the machine's state and what is kept.
#[derive(Drop)]
pub struct Watched<R: Ram, W: Watch> {
    machine: Machine<R>,
    watch: W,
}

impl<R: Ram, W: Watch> Model for Watched<R, W> {
    ghost use Rattle.machine_watch.specs.Watches.{Watching};

    ghost Value = { Watching W };

    ghost view = { λ w. record { machine = w.machine; kept = w.watch } };
}

impl<R: Ram, W: Watch> Watched<R, W> {
    /// A machine, and what is kept of the steps that it took so far.
    pub fn new(machine: Machine<R>, watch: W) -> Watched<R, W>
        ensures { result ≡ watching machine watch }
    {
        Watched { machine, watch }
    }

    /// A push of a data entry, as `Machine::push`.
    #[inline]
    pub fn push(&mut self, queue: Queue, entry: Entry) -> Pushed
        requires { is_control (kind_of entry.status) ≡ false }
        ensures state { self.new ≡ watched W.notes (Push queue entry ∷ []) self.old }
        ensures answer { result ≡ pushed_as queue self.old.machine }
    {
        self.machine.push(queue, entry)
    }

    /// A push of a data entry, and so many turns behind it, as `Machine::push_and_turns`.
    #[inline(always)]
    pub fn push_and_turns(&mut self, queue: Queue, entry: Entry, count: u32)
        requires { is_control (kind_of entry.status) ≡ false }
        ensures { self.new ≡ watched W.notes (Push queue entry ∷ replicate count Turn) self.old }
    {
        self.watch
            .push_and_turns(&mut self.machine, queue, entry, count);
    }

    /// How many plain entries `push_plain` may push to a queue, as `Machine::plain_room`. None where each turn is noted with the
    /// address of its instruction.
    #[inline]
    pub fn plain_room(&self, queue: Queue) -> u32
        ensures { result ≡ run_room W.LETS_FALL queue self.now.machine }
    {
        if W::LETS_FALL {
            self.machine.plain_room(queue)
        } else {
            0
        }
    }

    /// Pushes of plain entries, and turns behind each, as `Machine::push_plain`.
    #[inline]
    pub fn push_plain(&mut self, queue: Queue, dwords: &[u8], turns: u32)
        requires some { 0 < length dwords.now }
        requires room { length dwords.now ≤ 4 * run_room W.LETS_FALL queue self.old.machine }
        requires plain { (entries : List (ℕ × ℕ)) × AreRun dwords.now turns entries }
        ensures { (entries : List (ℕ × ℕ)) → AreRun dwords.now turns entries →
            self.new ≡ watched W.notes (plain_steps queue entries) self.old }
    {
        if self.machine.push_plain(queue, dwords, turns) {
            self.watch.took_whole(queue);
        }
    }

    /// Whether each data push is lost, as `Machine::loses_all`.
    #[inline]
    pub fn loses_all(&self) -> bool
        ensures { result ≡ loses_all self.now.machine }
    {
        self.machine.loses_all()
    }

    /// So many pushes of data entries to queues 1, 2 and 3, each of which is lost, as `Machine::push_lost`.
    #[inline]
    pub fn push_lost(&mut self, lost: [usize; 3])
        requires { loses_all self.old.machine ≡ true }
        ensures { (entries : List (QueueOf × EntryOf)) → counts_of entries ≡ lost → self.new ≡ watched W.notes (pushes entries) self.old }
    {
        self.machine.push_lost(lost);
    }

    /// A push of a control code, as `Machine::push_control`.
    #[inline]
    pub fn push_control(&mut self, code: Code) -> Pushed
        ensures state { self.new ≡ watched W.notes (Control code ∷ []) self.old }
        ensures answer { result ≡ control_pushed_as self.old.machine }
    {
        self.machine.push_control(code)
    }

    /// One turn, as `Machine::turn`.
    #[inline]
    pub fn turn(&mut self)
        ensures { self.new ≡ watched W.notes (Turn ∷ []) self.old }
    {
        self.watch.turn(&mut self.machine);
    }

    /// So many turns, one after the other.
    #[inline]
    pub fn turns(&mut self, count: u32)
        ensures { self.new ≡ watched W.notes (replicate count Turn) self.old }
    {
        self.watch.turns(&mut self.machine, count);
    }

    /// A register write of the host, as `Machine::host`.
    pub fn host(&mut self, write: HostWrite)
        requires { IsWrite write }
        ensures { self.new ≡ watched W.notes (Host write ∷ []) self.old }
    {
        if let HostWrite::Enable { fifo: false, .. } = write {
            let one = self.machine.holds(Queue::One);
            let two = self.machine.holds(Queue::Two);
            let three = self.machine.holds(Queue::Three);
            self.watch.emptied(one, two, three);
        }
        self.machine.host(write);
    }

    /// The counts and INT_STAT of the machine.
    pub fn report(&self) -> Report
        ensures { result ≡ report_of self.now.machine }
    {
        self.machine.report()
    }

    /// The memory of the machine.
    pub fn ram(&self) -> &R
        ensures { R.memory result.now ≡ self.now.machine.memory }
    {
        self.machine.ram()
    }

    /// The machine.
    #[inline]
    pub fn machine(&self) -> &Machine<R>
        ensures { result.now ≡ self.now.machine }
    {
        &self.machine
    }

    /// The machine alone.
    pub fn into_machine(self) -> Machine<R>
    where
        W: Drop,
        ensures { result ≡ self.machine }
    {
        self.machine
    }

    /// What is kept of its steps.
    #[inline]
    pub fn watch(&self) -> &W
        ensures { result.now ≡ self.now.kept }
    {
        &self.watch
    }
}
