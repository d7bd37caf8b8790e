//! The trace of a machine over a kept stream, whose text comes piece by piece.
#![tactic(auto)]

ghost use Rattle.arrayvec.specs.ArrayString.{array_string_len};
ghost use Rattle.capture_file.specs.Records.{StepFits};
ghost use Rattle.capture_file.specs.Streams.{atomic};
ghost use Rattle.machine_model.specs.Steps.{Step as MachineStep, Turn};
ghost use Rattle.std.specs.Prelude.{◌≡◌, ◌+◌, ◌^◌, ◌<◌, ◌≤◌, ◌++◌, [], List, codes, false, length, replicate, true};
ghost use Rattle.trace_play.specs.Playing.{begun, coming, text_left, weight};
ghost use Rattle.trace_play.specs.Texts.{rest_text};

use capture_file::{Got, Step, StepReader};
use command_texts::push_report;
use dma_machine::Machine;
use kept_stream::{KeptStream, LONGEST_KEPT};
use page_ram::Ram;
use risc_listing::{Lines, ROOM};
use std::marker::Model;
use turn_trace::Trace;

/// No record and no report has a text of more bytes, but for turns, whose text comes in parts.
const LONGEST: usize = 400;

/// The trace of a machine over a kept stream, so far as its text was made, and the turns that are left of the record that was
/// read last.
#[derive(Drop)]
pub struct StreamTrace<R: Ram> {
    trace: Trace<R>,
    turns: u32,
    reader: StepReader,
    stream: KeptStream,
    at: usize,
}

impl<R: Ram> Model for StreamTrace<R> {
    ghost use Rattle.std.specs.Prelude.{◌≤◌, drop, length};
    ghost use Rattle.trace_play.specs.Playing.{Playing};

    ghost Value = { Playing };

    ghost view = { λ t. record { tracing = t.trace; turns = t.turns; reader = t.reader; bytes = drop t.at t.stream } };

    ghost invariant = { λ t. t.at ≤ length t.stream };
}

impl<R: Ram> StreamTrace<R> {
    /// The trace of a machine over a stream, of which nothing was made yet.
    pub fn new(machine: Machine<R>, stream: KeptStream) -> StreamTrace<R>
        ensures { result ≡ begun machine stream }
    {
        StreamTrace {
            trace: Trace::new(machine),
            turns: 0,
            reader: StepReader::new(LONGEST_KEPT as u64),
            stream,
            at: 0,
        }
    }

    /// Takes a step, and appends its text. Turns are only noted.
    #[inline(always)]
    fn take_step(&mut self, step: Step, text: &mut Lines)
        requires fits { StepFits step }
        requires none { self.old.turns ≡ 0 }
        requires room { array_string_len text.old + 400 ≤ 65536 }
        ensures text { (later : List MachineStep) → text.new.bytes ++ rest_text self.new.tracing (replicate self.new.turns Turn ++ later)
            ≡ text.old.bytes ++ rest_text self.old.tracing (atomic step ++ later) }
        ensures reader { self.new.reader ≡ self.old.reader }
        ensures bytes { self.new.bytes ≡ self.old.bytes }
        ensures few { self.new.turns < 2 ^ 32 }
    {
        match step {
            Step::Push(queue, entry) => self.trace.push(queue, entry, text),
            Step::Control(code) => self.trace.push_control(code, text),
            Step::Turns(count) => self.turns = count,
            Step::Host(write) => self.trace.host(write, text),
            Step::Patch(..) => {}
        }
    }

    /// Takes the record at the front of the bytes that are left, and appends its text; whether there was one.
    fn take_record(&mut self, text: &mut Lines) -> bool
        requires none { self.old.turns ≡ 0 }
        requires room { array_string_len text.old + 400 ≤ 65536 }
        ensures text { text.new.bytes ++ text_left self.new ≡ text.old.bytes ++ text_left self.old }
        ensures less { result ≡ true → length self.new.bytes < length self.old.bytes }
        ensures few { self.new.turns < 2 ^ 32 }
        ensures none { result ≡ false → coming self.new ≡ [] }
        ensures room { result ≡ false → text.new ≡ text.old }
    {
        let (used, got) = self.reader.take(&self.stream.as_bytes()[self.at..]);
        self.at += used;
        match got {
            Got::Step(step) => {
                self.take_step(step, text);
                true
            }
            Got::End => true,
            Got::Bad(_) => false,
            Got::More => {
                // it finds no step where no byte is left
                let _ = self.reader.close();
                false
            }
        }
    }

    /// The same, quick where a data push or turns are there, as mostly.
    #[inline(always)]
    fn take_front(&mut self, text: &mut Lines) -> bool
        requires none { self.old.turns ≡ 0 }
        requires room { array_string_len text.old + 400 ≤ 65536 }
        ensures text { text.new.bytes ++ text_left self.new ≡ text.old.bytes ++ text_left self.old }
        ensures less { result ≡ true → length self.new.bytes < length self.old.bytes }
        ensures few { self.new.turns < 2 ^ 32 }
        ensures none { result ≡ false → coming self.new ≡ [] }
        ensures room { result ≡ false → text.new ≡ text.old }
    {
        let piece = &self.stream.as_bytes()[self.at..];
        if let Some((queue, entry)) = self.reader.take_push(piece) {
            self.at += 6;
            self.take_step(Step::Push(queue, entry), text);
            return true;
        }
        if let Some(count) = self.reader.take_turns(piece) {
            self.at += 5;
            self.take_step(Step::Turns(count), text);
            return true;
        }
        self.take_record(text)
    }

    /// Appends what comes behind the last step: the line of the turns of which nothing was seen, and the report.
    fn push_end(&self, text: &mut Lines)
        requires none { coming self.now ≡ [] }
        requires room { array_string_len text.old + 400 ≤ 65536 }
        ensures { text.new.bytes ≡ text.old.bytes ++ text_left self.now }
    {
        self.trace.push_last(text);
        push_report(text, &self.trace.machine().report());
    }

    /// Appends as much of the text that is left as surely has room; whether more is left then. Where 400 bytes have room,
    /// it goes on.
    pub fn fill(&mut self, text: &mut Lines) -> bool
        ensures more { result ≡ true → text.new.bytes ++ text_left self.new ≡ text.old.bytes ++ text_left self.old }
        ensures end { result ≡ false → text.new.bytes ≡ text.old.bytes ++ text_left self.old }
        ensures less { array_string_len text.old + 400 ≤ 65536 → result ≡ true → weight self.new < weight self.old }
    {
        while text.len() <= ROOM - LONGEST {
            if self.turns > 0 {
                self.turns = self.trace.turns(self.turns, text);
            } else if !self.take_front(text) {
                self.push_end(text);
                return false;
            }
        }
        true
    }
}
