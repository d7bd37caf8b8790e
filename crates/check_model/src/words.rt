//! What is reported of a field, in words. Numbers are decimal, addresses have eight hexadecimal digits (this project's own form).

ghost use Rattle.std.specs.Prelude.{◌≡◌, Some};
ghost use Rattle.risc_listing.specs.Lines.{code_name, control_text, flag_text, nibble_text};
ghost use Rattle.check_model.specs.Texts.{closing_words, field_name, line_words, on_line, queue_words, verdict_words, why_words};

use crate::{Closing, Line, Verdict, Why};
use fifo_model::Queue;
use pixel_layout::Parity;
use risc_word::{Code, Ctl};
use std::fmt;

/// The word for a field in descriptions and in texts.
pub fn field_name(field: Parity) -> &'static str
    ensures { result.now ≡ field_name field }
{
    match field {
        Parity::Top => "top",
        Parity::Bottom => "bottom",
    }
}

fn code_name(code: Code) -> &'static str
    ensures { result.now ≡ code_name code }
{
    match code {
        Code::Vre => "vre",
        Code::Vro => "vro",
        Code::Fm1 => "fm1",
        Code::Fm3 => "fm3",
    }
}

// A queue, counted from 1.
fn queue_name(q: Queue) -> &'static str
    ensures { result.now ≡ queue_words q }
{
    match q {
        Queue::One => "queue 1",
        Queue::Two => "queue 2",
        Queue::Three => "queue 3",
    }
}

impl fmt::Display for Line {
    ghost output = { λ line. Some (line_words line) };

    fn fmt<W: fmt::Write>(&self, f: &mut fmt::Formatter<W>) -> fmt::Result {
        match *self {
            Line::SkippedVbi(number) => write!(f, "skipped vbi {number}"),
            Line::Vbi(number) => write!(f, "vbi {number}"),
            Line::Skipped(number) => write!(f, "skipped {number}"),
            Line::Row(row) => write!(f, "row {row}"),
        }
    }
}

/// A line on a queue.
#[derive(Drop)]
struct OnLine {
    line: Line,
    queue: Queue,
}

impl fmt::Display for OnLine {
    ghost output = { λ words. Some (on_line words.line words.queue) };

    fn fmt<W: fmt::Write>(&self, f: &mut fmt::Formatter<W>) -> fmt::Result {
        let line = self.line;
        let queue = queue_name(self.queue);
        write!(f, "{line}, {queue}")
    }
}

impl fmt::Display for Why {
    ghost output = { λ why. Some (why_words why) };

    fn fmt<W: fmt::Write>(&self, f: &mut fmt::Formatter<W>) -> fmt::Result {
        match *self {
            Why::NoSync(code) => {
                let name = code_name(code);
                write!(f, "no sync {name}")
            }
            Why::NoResync => write!(f, "no resync"),
            Why::NoNextField => write!(f, "no next field"),
            Why::WriteC => write!(f, "writec"),
            Why::LanesOff => write!(f, "lanes off"),
            Why::SyncAwaited(code) => {
                let name = code_name(code);
                write!(f, "sync {name} awaited")
            }
            Why::ByteAwaited { line, queue, byte } => {
                let place = OnLine { line, queue };
                write!(f, "{place}: byte {byte} awaited")
            }
            Why::PlaceAwaited {
                line,
                queue,
                byte,
                address,
            } => {
                let place = OnLine { line, queue };
                write!(f, "{place}: byte {byte} at {address:08x} awaited")
            }
            Why::NoPlaceAwaited { line, queue, byte } => {
                let place = OnLine { line, queue };
                write!(f, "{place}: byte {byte} without a place awaited")
            }
            Why::NoSolAwaited { line, queue, byte } => {
                let place = OnLine { line, queue };
                write!(f, "{place}: no sol awaited at byte {byte}")
            }
            Why::SolAwaited { line, queue } => {
                let place = OnLine { line, queue };
                write!(f, "{place}: sol awaited")
            }
            Why::NothingMore(queue) => {
                let name = queue_name(queue);
                write!(f, "{name}: nothing awaited")
            }
            Why::EolAwaited { line, queue } => {
                let place = OnLine { line, queue };
                write!(f, "{place}: eol awaited")
            }
            Why::EarlyEol {
                line,
                queue,
                byte,
                bytes,
            } => {
                let place = OnLine { line, queue };
                write!(f, "{place}: eol at byte {byte} of {bytes}")
            }
            Why::NothingAwaited => write!(f, "nothing awaited"),
            Why::Unread => write!(f, "no instruction"),
        }
    }
}

/// The word of an interrupt, if there is one.
#[derive(Drop)]
struct IrqWord(bool);

impl fmt::Display for IrqWord {
    ghost use Rattle.std.specs.Prelude.{codes};

    ghost output = { λ word. Some (flag_text (codes " irq") word.0) };

    fn fmt<W: fmt::Write>(&self, f: &mut fmt::Formatter<W>) -> fmt::Result {
        if self.0 { write!(f, " irq") } else { Ok(()) }
    }
}

/// Status bits that are set, if any are.
#[derive(Drop)]
struct SetWord(u8);

impl fmt::Display for SetWord {
    ghost use Rattle.std.specs.Prelude.{codes};

    ghost output = { λ word. Some (nibble_text (codes " set=") word.0) };

    fn fmt<W: fmt::Write>(&self, f: &mut fmt::Formatter<W>) -> fmt::Result {
        let bits = self.0;
        if bits == 0 {
            Ok(())
        } else {
            write!(f, " set={bits:x}")
        }
    }
}

/// Status bits that are cleared, if any are.
#[derive(Drop)]
struct ResetWord(u8);

impl fmt::Display for ResetWord {
    ghost use Rattle.std.specs.Prelude.{codes};

    ghost output = { λ word. Some (nibble_text (codes " reset=") word.0) };

    fn fmt<W: fmt::Write>(&self, f: &mut fmt::Formatter<W>) -> fmt::Result {
        let bits = self.0;
        if bits == 0 {
            Ok(())
        } else {
            write!(f, " reset={bits:x}")
        }
    }
}

impl fmt::Display for Closing {
    ghost output = { λ closing. Some (closing_words closing) };

    fn fmt<W: fmt::Write>(&self, f: &mut fmt::Formatter<W>) -> fmt::Result {
        match *self {
            Closing::Jump(ctl) => {
                let irq = IrqWord(ctl.irq);
                let set = SetWord(ctl.set);
                let reset = ResetWord(ctl.reset);
                write!(f, "jump{irq}{set}{reset}")
            }
            Closing::Sync => write!(f, "sync"),
        }
    }
}

impl fmt::Display for Verdict {
    ghost output = { λ verdict. Some (verdict_words verdict) };

    fn fmt<W: fmt::Write>(&self, f: &mut fmt::Formatter<W>) -> fmt::Result {
        match *self {
            Verdict::Shown {
                begin,
                end,
                count,
                closing,
            } => write!(
                f,
                "shown from {begin:08x} to {end:08x}, {count} instructions, {closing}"
            ),
            Verdict::Differs { at, why } => write!(f, "differs at {at:08x}: {why}"),
        }
    }
}
