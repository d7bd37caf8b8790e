//! Whole pieces, written to the open output or printed.
ghost use Rattle.std.specs.Prelude.{◌≡◌, ◌<◌, length, IsTrue};
ghost use Rattle.capture_desk.specs.Desks.{Appends, CallCounts, Puts, SayCounts, WriteCounts, after_say, after_write};
ghost use Rattle.capture_desk.specs.Sinks.{AppendCalls, AppendCounts, IsReady, after_append};

use crate::desk::{Desk, Failed};

// Where bytes are appended: the open output, or the text on the standard output.
#[derive(Clone, Copy)]
enum Sink {
    Output,
    Text,
}

// Appends the first bytes, and answers how many: one at least.
fn append<D: Desk>(sink: Sink, desk: &mut D, bytes: &[u8]) -> Result<usize, Failed>
    requires open { IsReady sink (D.seen desk.old).told }
    requires some { 0 < length bytes.now }
    ensures appends { Appends bytes.now result (after_append sink) (D.seen desk.old).told (D.seen desk.new).told }
    ensures counts { CallCounts result (D.seen desk.old) (D.seen desk.new) }
    ensures calls { AppendCalls sink (D.seen desk.old).calls (D.seen desk.new).calls }
{
    match sink {
        Sink::Output => desk.write(bytes),
        Sink::Text => desk.say(bytes),
    }
}

// Appends all the bytes, up to a call that fails.
fn append_all<D: Desk>(sink: Sink, desk: &mut D, bytes: &[u8]) -> Result<(), Failed>
    requires open { IsReady sink (D.seen desk.old).told }
    ensures puts { Puts bytes.now result (after_append sink) (D.seen desk.old).told (D.seen desk.new).told }
    ensures counts { AppendCounts sink bytes.now result (D.seen desk.old) (D.seen desk.new) }
{
    let mut at = 0;
    while at < bytes.len() {
        at += append(sink, desk, &bytes[at..])?;
    }
    Ok(())
}

/// Appends all the bytes to the open output. Where a write fails, it is the last call, and the bytes
/// before it were appended.
pub fn put<D: Desk>(desk: &mut D, bytes: &[u8]) -> Result<(), Failed>
    requires open { IsTrue (D.seen desk.old).told.output_open }
    ensures puts { Puts bytes.now result after_write (D.seen desk.old).told (D.seen desk.new).told }
    ensures counts { WriteCounts result (D.seen desk.old) (D.seen desk.new) }
{
    append_all(Sink::Output, desk, bytes)
}

/// Prints a whole text. Where a `say` fails, it is the last call, and the bytes before it were printed.
pub fn say_all<D: Desk>(desk: &mut D, text: &[u8]) -> Result<(), Failed>
    ensures says { Puts text.now result after_say (D.seen desk.old).told (D.seen desk.new).told }
    ensures counts { SayCounts text.now result (D.seen desk.old) (D.seen desk.new) }
{
    append_all(Sink::Text, desk, text)
}
