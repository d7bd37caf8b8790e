//! The trace of a machine: a line for each step, for emulator authors who compare their machine with this one. The form of the
//! lines is this project's own rule.
#![tactic(auto)]

ghost use Rattle.arrayvec.specs.ArrayString.{array_string_len};
ghost use Rattle.dma_machine.specs.Stills.{is_still};
ghost use Rattle.irq_status.specs.Writes.{IsWrite};
ghost use Rattle.machine_model.specs.Steps.{Control, Host, Push, Turn};
ghost use Rattle.std.specs.Prelude.{◌≡◌, ◌+◌, ◌-◌, ◌<◌, ◌≤◌, ◌∷◌, [], ◌++◌, false, replicate, true};
ghost use Rattle.sync_status.specs.Statuses.{is_control, kind_of};
ghost use Rattle.turn_trace.specs.Traces.{after_all, last_line, lines, tracing};

pub mod laws;
mod pieces;
mod words;

use dma_machine::{Did, Machine};
use fifo_model::{Entry, Queue};
use irq_status::HostWrite;
use page_ram::Ram;
use pieces::KeptAddress;
use risc_listing::{Lines, ROOM};
use risc_word::Code;
use std::marker::Model;
use words::{
    Kept, push_control_words, push_entry_words, push_fate, push_numbers, push_still_line,
    push_turn_words, push_write_words,
};

/// No step has a text of more bytes: the line of the turns before it of which nothing was seen, and its own.
pub const LONGEST_STEP: usize = 157;

/// A machine whose steps are traced, and how many turns of which nothing was seen came last.
#[derive(Drop)]
pub struct Trace<R: Ram> {
    machine: Machine<R>,
    still: u64,
    at: KeptAddress,
    kept: Kept,
}

impl<R: Ram> Model for Trace<R> {
    ghost use Rattle.turn_trace.specs.Traces.{Tracing, tracing};

    ghost Value = { Tracing };

    ghost view = { λ t. tracing t.machine t.still };
}

impl<R: Ram> Trace<R> {
    /// The trace of a machine's steps from now on.
    pub fn new(machine: Machine<R>) -> Trace<R>
        ensures { result ≡ tracing machine 0 }
    {
        Trace {
            machine,
            still: 0,
            at: KeptAddress::new(0),
            kept: Kept::new(0, 0),
        }
    }

    /// Ends the turns of which nothing was seen: their line is appended.
    #[inline(always)]
    fn end_still(&mut self, text: &mut Lines)
        requires { array_string_len text.old + 27 ≤ 65536 }
        ensures state { self.new ≡ tracing self.old.machine 0 }
        ensures text { text.new.bytes ≡ text.old.bytes ++ last_line self.old }
        ensures long { array_string_len text.new ≤ array_string_len text.old + 27 }
    {
        push_still_line(text, self.still);
        self.still = 0;
    }

    /// A push of a data entry to a queue, and its line.
    pub fn push(&mut self, queue: Queue, entry: Entry, text: &mut Lines)
        requires data { is_control (kind_of entry.status) ≡ false }
        requires room { array_string_len text.old + 157 ≤ 65536 }
        ensures state { self.new ≡ after_all self.old (Push queue entry ∷ []) }
        ensures text { text.new.bytes ≡ text.old.bytes ++ lines self.old (Push queue entry ∷ []) }
        ensures long { array_string_len text.new ≤ array_string_len text.old + 157 }
    {
        self.end_still(text);
        push_entry_words(text, queue, &entry);
        let pushed = self.machine.push(queue, entry);
        push_fate(text, pushed);
        push_numbers(text, &self.machine, &mut self.kept);
    }

    /// A push of a control code into the three queues, and its line.
    pub fn push_control(&mut self, code: Code, text: &mut Lines)
        requires room { array_string_len text.old + 157 ≤ 65536 }
        ensures state { self.new ≡ after_all self.old (Control code ∷ []) }
        ensures text { text.new.bytes ≡ text.old.bytes ++ lines self.old (Control code ∷ []) }
        ensures long { array_string_len text.new ≤ array_string_len text.old + 157 }
    {
        self.end_still(text);
        push_control_words(text, code);
        let pushed = self.machine.push_control(code);
        push_fate(text, pushed);
        push_numbers(text, &self.machine, &mut self.kept);
    }

    /// A register write of the host, and its line.
    pub fn host(&mut self, write: HostWrite, text: &mut Lines)
        requires write { IsWrite write }
        requires room { array_string_len text.old + 157 ≤ 65536 }
        ensures state { self.new ≡ after_all self.old (Host write ∷ []) }
        ensures text { text.new.bytes ≡ text.old.bytes ++ lines self.old (Host write ∷ []) }
        ensures long { array_string_len text.new ≤ array_string_len text.old + 157 }
    {
        self.end_still(text);
        push_write_words(text, write);
        self.machine.host(write);
        push_numbers(text, &self.machine, &mut self.kept);
    }

    /// A turn, and its line if anything is seen of it.
    #[inline]
    fn turn(&mut self, text: &mut Lines)
        requires room { array_string_len text.old + 157 ≤ 65536 }
        ensures state { self.new ≡ after_all self.old (Turn ∷ []) }
        ensures text { text.new.bytes ≡ text.old.bytes ++ lines self.old (Turn ∷ []) }
        ensures long { array_string_len text.new ≤ array_string_len text.old + 157 }
    {
        let turns = self.machine.report().turns;
        let drops = self.machine.next_drop();
        let told = self.machine.turn_told();
        if let Did::Still = told.seen.did {
            self.still = self.still.saturating_add(1);
            return;
        }
        self.end_still(text);
        push_turn_words(text, turns, drops, told, &mut self.at);
        push_numbers(text, &self.machine, &mut self.kept);
    }

    /// Takes so many turns of a machine that stands still.
    #[inline]
    fn stand(&mut self, count: u32)
        requires still { is_still self.old.machine ≡ true }
        requires some { 0 < count }
        ensures state { self.new ≡ after_all self.old (replicate count Turn) }
        ensures none { lines self.old (replicate count Turn) ≡ [] }
    {
        self.machine.stand(count);
        self.still = self.still.saturating_add(u64::from(count));
    }

    /// Takes turns one after the other, at most `count`, as long as there is room for the text of another, and appends their
    /// lines. Answers how many are left. Where there is room at first, at least one of `count` is taken. A machine that stands
    /// still takes all that are left at once.
    pub fn turns(&mut self, count: u32, text: &mut Lines) -> u32
        ensures within { result ≤ count }
        ensures state { self.new ≡ after_all self.old (replicate (count - result) Turn) }
        ensures text { text.new.bytes ≡ text.old.bytes ++ lines self.old (replicate (count - result) Turn) }
        ensures more { array_string_len text.old + 157 ≤ 65536 → 0 < count → result < count }
    {
        let mut left = count;
        while left > 0 && text.len() <= ROOM - LONGEST_STEP {
            if self.machine.stands_still() {
                self.stand(left);
                return 0;
            }
            left -= 1;
            self.turn(text);
        }
        left
    }

    /// Appends the line of the turns of which nothing was seen, if there were any since the last line.
    pub fn push_last(&self, text: &mut Lines)
        requires room { array_string_len text.old + 157 ≤ 65536 }
        ensures text { text.new.bytes ≡ text.old.bytes ++ last_line self.now }
        ensures long { array_string_len text.new ≤ array_string_len text.old + 157 }
    {
        push_still_line(text, self.still);
    }

    /// The machine.
    #[inline]
    pub fn machine(&self) -> &Machine<R>
        ensures { result.now ≡ self.now.machine }
    {
        &self.machine
    }

    /// The machine alone.
    pub fn into_machine(self) -> Machine<R>
        ensures { result ≡ self.machine }
    {
        self.machine
    }
}
