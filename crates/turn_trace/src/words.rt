//! The words of steps, and the numbers of a machine.

ghost use Rattle.arrayvec.specs.ArrayString.{array_string_len};
ghost use Rattle.irq_status.specs.Writes.{IsWrite};
ghost use Rattle.risc_listing.specs.Lines.{at_text, code_name, count_text, line_end};
ghost use Rattle.std.specs.Prelude.{◌≡◌, ◌+◌, ◌*◌, ◌^◌, ◌<◌, ◌≤◌, ◌++◌, codes, length};
ghost use Rattle.sync_status.specs.Statuses.{kind_of};
ghost use Rattle.turn_trace.specs.Kept.{kept_words};
ghost use Rattle.turn_trace.specs.Traces.{bit_text, control_words, did_words, dropped_words, entry_words, fate, given_up_words};
ghost use Rattle.turn_trace.specs.Traces.{levels_text, moved_words, numbers, queue_name, status_name, still_line, turn_words, write_words};

use crate::pieces::{KeptAddress, burst_words, pixel_words, still_words, three_digits};
use dma_machine::{Did, Machine, Told};
use fifo_model::{Entry, Pushed, Queue};
use irq_status::HostWrite;
use page_ram::Ram;
use risc_listing::{
    Lines, code_name, push_at, push_count, push_digit, push_number, space_and_address,
};
use risc_word::Code;
use std::marker::Model;
use std::str;
use sync_status::{Status, StatusKind, kind, valid};

fn queue_name(queue: Queue) -> &'static str
    ensures name { result.now ≡ queue_name queue }
    ensures long { length result.now ≡ 1 }
{
    match queue {
        Queue::One => "1",
        Queue::Two => "2",
        Queue::Three => "3",
    }
}

// The name of a status.
#[inline(always)]
fn push_status(text: &mut Lines, status: Status)
    requires { array_string_len text.old + 10 ≤ 65536 }
    ensures bytes { text.new.bytes ≡ text.old.bytes ++ status_name (kind_of status) status }
    ensures long { array_string_len text.new ≤ array_string_len text.old + 10 }
{
    match kind(status) {
        StatusKind::Pixels => text.push_str("pxv"),
        StatusKind::Start => text.push_str("sol"),
        StatusKind::End(_) => {
            text.push_str("eol");
            push_digit(text, valid(status));
        }
        StatusKind::Reserved => {
            text.push_str("reserved ");
            push_digit(text, status.nibble());
        }
        StatusKind::Control(code) => text.push_str(code_name(code)),
    }
}

/// Appends what became of a push.
#[inline(always)]
pub fn push_fate(text: &mut Lines, pushed: Pushed)
    requires { array_string_len text.old + 8 ≤ 65536 }
    ensures bytes { text.new.bytes ≡ text.old.bytes ++ fate pushed }
    ensures long { array_string_len text.new ≤ array_string_len text.old + 8 }
{
    match pushed {
        Pushed::Held => {}
        Pushed::Overrun => text.push_str(" lost"),
        Pushed::Off => text.push_str(" ignored"),
    }
}

/// Appends the words of a push of a data entry, most of which are of four pixel bytes.
#[inline(always)]
pub fn push_entry_words(text: &mut Lines, queue: Queue, entry: &Entry)
    requires { array_string_len text.old + 26 ≤ 65536 }
    ensures bytes { text.new.bytes ≡ text.old.bytes ++ entry_words queue entry.now }
    ensures long { array_string_len text.new ≤ array_string_len text.old + 26 }
{
    if let StatusKind::Pixels = kind(entry.status) {
        let words = pixel_words(queue, entry.dword);
        text.push_str(unsafe { str::from_utf8_unchecked(&words) });
        return;
    }
    text.push_str("push ");
    text.push_str(queue_name(queue));
    text.push_str(" ");
    push_status(text, entry.status);
    push_at(text, entry.dword);
}

/// Appends the words of a push of a control code.
#[inline(always)]
pub fn push_control_words(text: &mut Lines, code: Code)
    requires { array_string_len text.old + 11 ≤ 65536 }
    ensures bytes { text.new.bytes ≡ text.old.bytes ++ control_words code }
    ensures long { array_string_len text.new ≤ array_string_len text.old + 11 }
{
    text.push_str("control ");
    text.push_str(code_name(code));
}

fn bit_text(bit: bool) -> &'static str
    ensures name { result.now ≡ bit_text bit }
    ensures long { length result.now ≡ 2 }
{
    if bit { " 1" } else { " 0" }
}

// The trigger point of a packed number, in entries.
fn trigger_point(number: u8) -> u16
    requires { number < 4 }
    ensures { result ≡ 4 * 2 ^ number }
{
    4 << number
}

/// Appends the words of a register write.
#[inline(always)]
pub fn push_write_words(text: &mut Lines, write: HostWrite)
    requires write { IsWrite write }
    requires room { array_string_len text.old + 70 ≤ 65536 }
    ensures bytes { text.new.bytes ≡ text.old.bytes ++ write_words write }
    ensures long { array_string_len text.new ≤ array_string_len text.old + 70 }
{
    match write {
        HostWrite::Ack(mask) => {
            text.push_str("ack");
            push_at(text, mask);
        }
        HostWrite::Enable { fifo, risc } => {
            text.push_str("enable");
            text.push_str(bit_text(fifo));
            text.push_str(bit_text(risc));
        }
        HostWrite::Trigger(number) => {
            text.push_str("trigger");
            push_count(text, trigger_point(number));
        }
    }
}

// A burst that takes so many bytes of a queue.
#[inline(always)]
fn push_moved(text: &mut Lines, queue: Queue, taken: u32)
    requires { array_string_len text.old + 27 ≤ 65536 }
    ensures bytes { text.new.bytes ≡ text.old.bytes ++ moved_words queue taken }
    ensures long { array_string_len text.new ≤ array_string_len text.old + 27 }
{
    text.push_str("move ");
    text.push_str(queue_name(queue));
    push_number(text, u64::from(taken));
}

// The same where the instruction is given up at an entry of the queue.
#[cold]
#[inline(never)]
fn push_given_up(text: &mut Lines, queue: Queue, taken: u32)
    requires { array_string_len text.old + 35 ≤ 65536 }
    ensures bytes { text.new.bytes ≡ text.old.bytes ++ given_up_words queue taken }
    ensures long { array_string_len text.new ≤ array_string_len text.old + 35 }
{
    if taken == 0 {
        text.push_str("give up ");
        text.push_str(queue_name(queue));
    } else {
        push_moved(text, queue, taken);
        text.push_str(" give up");
    }
}

// The drop of a front.
#[cold]
#[inline(never)]
fn push_dropped(text: &mut Lines, drops: Option<Queue>)
    requires { array_string_len text.old + 35 ≤ 65536 }
    ensures bytes { text.new.bytes ≡ text.old.bytes ++ dropped_words drops }
    ensures long { array_string_len text.new ≤ array_string_len text.old + 35 }
{
    text.push_str("drop");
    if let Some(queue) = drops {
        text.push_str(" ");
        text.push_str(queue_name(queue));
    }
}

// What a turn did, the queue from which it dropped an entry, and how many bytes it took.
#[inline(always)]
fn push_did(text: &mut Lines, did: Did, drops: Option<Queue>, taken: u32)
    requires { array_string_len text.old + 35 ≤ 65536 }
    ensures bytes { text.new.bytes ≡ text.old.bytes ++ did_words did drops taken }
    ensures long { array_string_len text.new ≤ array_string_len text.old + 35 }
{
    match did {
        Did::Moved(queue) => push_moved(text, queue, taken),
        Did::GivenUp(queue) => push_given_up(text, queue, taken),
        Did::Dropped => push_dropped(text, drops),
        Did::Jumped => text.push_str("jump"),
        Did::Synced => text.push_str("sync"),
        Did::Passed => text.push_str("pass"),
        Did::Begun => text.push_str("begin"),
        Did::Matched => text.push_str("match"),
        Did::Missed => text.push_str("miss"),
        Did::Retired => text.push_str("retire"),
        Did::Still => {}
    }
}

// The words of a turn behind the count of turns: the address of its instruction, which is kept, and what it did. Most are
// bursts of few bytes.
#[inline(always)]
fn push_seen_words(text: &mut Lines, drops: Option<Queue>, told: Told, kept: &mut KeptAddress)
    requires { array_string_len text.old + 45 ≤ 65536 }
    ensures bytes { text.new.bytes ≡ text.old.bytes ++ (at_text told.seen.at ++ (codes " " ++ did_words told.seen.did drops told.taken)) }
    ensures long { array_string_len text.new ≤ array_string_len text.old + 45 }
{
    kept.keep(told.seen.at);
    if let Did::Moved(queue) = told.seen.did {
        if told.taken < 10 {
            let words = burst_words(kept, queue, told.taken as u8);
            text.push_str(unsafe { str::from_utf8_unchecked(&words) });
            return;
        }
    }
    kept.append(text);
    text.push_str(" ");
    push_did(text, told.seen.did, drops, told.taken);
}

/// Appends the words of a turn: how many were taken before, the queue from which it dropped an entry, and what it did.
#[inline(always)]
pub fn push_turn_words(
    text: &mut Lines,
    turns: u64,
    drops: Option<Queue>,
    told: Told,
    kept: &mut KeptAddress,
)
    requires { array_string_len text.old + 70 ≤ 65536 }
    ensures bytes { text.new.bytes ≡ text.old.bytes ++ turn_words turns told.seen drops told.taken }
    ensures long { array_string_len text.new ≤ array_string_len text.old + 70 }
{
    text.push_str("turn");
    push_number(text, turns);
    push_seen_words(text, drops, told, kept);
}

// How many entries each queue holds.
#[inline(always)]
fn push_levels<R: Ram>(text: &mut Lines, machine: &Machine<R>)
    requires { array_string_len text.old + 18 ≤ 65536 }
    ensures bytes { text.new.bytes ≡ text.old.bytes ++ levels_text machine.now }
    ensures long { array_string_len text.new ≤ array_string_len text.old + 18 }
{
    let one = machine.level(Queue::One) as u16;
    let two = machine.level(Queue::Two) as u16;
    let three = machine.level(Queue::Three) as u16;
    if one < 10 && two < 10 && three < 10 {
        let digits = three_digits(one, two, three);
        text.push_str(unsafe { str::from_utf8_unchecked(&digits) });
    } else {
        push_count(text, one);
        push_count(text, two);
        push_count(text, three);
    }
}

/// The words of a pc and an INT_STAT, kept with what they are of: in most lines they are those of the line before.
#[derive(Drop)]
pub struct Kept {
    pc: u32,
    int_stat: u32,
    words: [u8; 20],
}

impl Model for Kept {
    ghost use Rattle.std.specs.Prelude.{◌≡◌, ℕ};
    ghost use Rattle.std.specs.Str.{IsUtf8};
    ghost use Rattle.turn_trace.specs.Kept.{kept_words};

    ghost Value = { ℕ × ℕ };

    ghost view = { λ k. (k.pc, k.int_stat) };

    ghost invariant = { λ k. (k.words ≡ kept_words k.pc k.int_stat) × IsUtf8 k.words };
}

impl Kept {
    /// The words of a pc and an INT_STAT.
    pub fn new(pc: u32, int_stat: u32) -> Kept
        ensures { result ≡ (pc, int_stat) }
    {
        let at = space_and_address(pc);
        let bits = space_and_address(int_stat);
        Kept {
            pc,
            int_stat,
            words: [
                b' ', b'|', at[0], at[1], at[2], at[3], at[4], at[5], at[6], at[7], at[8], bits[0],
                bits[1], bits[2], bits[3], bits[4], bits[5], bits[6], bits[7], bits[8],
            ],
        }
    }

    /// Keeps the words of a pc and an INT_STAT.
    #[inline(always)]
    fn keep(&mut self, pc: u32, int_stat: u32)
        ensures { self.new ≡ (pc, int_stat) }
    {
        if self.pc != pc || self.int_stat != int_stat {
            *self = Kept::new(pc, int_stat);
        }
    }

    /// Appends the words that are kept.
    #[inline(always)]
    fn append(&self, text: &mut Lines)
        requires { array_string_len text.old + 20 ≤ 65536 }
        ensures bytes { text.new.bytes ≡ text.old.bytes ++ kept_words self.now.0 self.now.1 }
        ensures long { array_string_len text.new ≤ array_string_len text.old + 20 }
    {
        text.push_str(unsafe { str::from_utf8_unchecked(&self.words) });
    }
}

/// Appends the numbers of a machine, which end a line.
#[inline(always)]
pub fn push_numbers<R: Ram>(text: &mut Lines, machine: &Machine<R>, kept: &mut Kept)
    requires { array_string_len text.old + 60 ≤ 65536 }
    ensures bytes { text.new.bytes ≡ text.old.bytes ++ (numbers machine.now ++ line_end) }
    ensures long { array_string_len text.new ≤ array_string_len text.old + 60 }
{
    let report = machine.report();
    kept.keep(machine.pc(), report.int_stat);
    kept.append(text);
    push_levels(text, machine);
    push_number(text, report.moved);
    text.push_str("\n");
}

// The line of so many turns of which nothing was seen: mostly a number of two digits.
#[inline(always)]
fn push_still_words(text: &mut Lines, still: u64)
    requires { array_string_len text.old + 27 ≤ 65536 }
    ensures bytes { text.new.bytes ≡ text.old.bytes ++ (codes "still" ++ (count_text still ++ line_end)) }
    ensures long { array_string_len text.new ≤ array_string_len text.old + 27 }
{
    if still >= 10 && still < 100 {
        let words = still_words(still as u8);
        text.push_str(unsafe { str::from_utf8_unchecked(&words) });
    } else {
        text.push_str("still");
        push_number(text, still);
        text.push_str("\n");
    }
}

/// Appends the line of so many turns of which nothing was seen, if there were any.
#[inline(always)]
pub fn push_still_line(text: &mut Lines, still: u64)
    requires { array_string_len text.old + 27 ≤ 65536 }
    ensures bytes { text.new.bytes ≡ text.old.bytes ++ still_line still }
    ensures long { array_string_len text.new ≤ array_string_len text.old + 27 }
{
    if still != 0 {
        push_still_words(text, still);
    }
}
