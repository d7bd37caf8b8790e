//! A line's records as a template, in which only the drawn bytes change.

ghost use Rattle.std.specs.Prelude.{◌≡◌, ◌+◌, ◌*◌, ◌≤◌, List, ◌++◌, length, take, drop};
ghost use Rattle.field_stream.specs.Made.{records};
ghost use Rattle.field_stream.specs.Pushes.{Push};
ghost use Rattle.field_stream.specs.Lines.{AreWhole, line_pushes};
ghost use Rattle.field_stream.specs.Drafts.{AreRecords, Patterned};

use crate::draft::LINE;
use crate::generator::Generator;
use crate::lines::Line;
use std::marker::Model;

// How many bytes the records of an entry have: its own, and that of the turns behind it.
const ENTRY: usize = 11;

// Where the lanes stand in them, and how many there are.
const FIRST_LANE: usize = 2;

const LANES: usize = 4;

// The records of a line of which each entry holds four bytes.
#[derive(Drop)]
pub(crate) struct Template {
    line: Line,
    room: [u8; LINE],
    len: usize,
}

impl Model for Template {
    ghost use Rattle.std.specs.Prelude.{◌≤◌, take};
    ghost use Rattle.field_stream.specs.Lines.{AreWhole, line_pushes};
    ghost use Rattle.field_stream.specs.Drafts.{AreRecords, Patterned};

    ghost Value = { Patterned };

    ghost view = { λ t. record { line = t.line; bytes = take t.len t.room } };

    ghost invariant = { λ t. AreRecords (line_pushes t.line) (take t.len t.room) × AreWhole (line_pushes t.line) × (t.len ≤ 11264) };
}

// Puts the lanes of an entry.
#[inline]
fn put_lanes(bytes: &mut [u8], at: usize, lanes: [u8; 4])
    requires { at + 4 ≤ length bytes.old }
    ensures value { bytes.new ≡ take at bytes.old ++ (lanes ++ drop (at + 4) bytes.old) }
    ensures length { length bytes.new ≡ length bytes.old }
{
    bytes[at..at + LANES].copy_from_slice(&lanes);
}

// Puts the lanes of so many entries, which the generator is to draw next.
fn redraw(bytes: &mut [u8], entries: usize, generator: &Generator)
    requires length { length bytes.old ≡ 11 * entries }
    requires few { entries ≤ 1024 }
    ensures { (pushes : List Push) → AreWhole pushes → length pushes ≡ entries → AreRecords pushes bytes.old →
        bytes.new ≡ records generator.now pushes }
{
    for index in 0..entries {
        put_lanes(
            bytes,
            ENTRY * index + FIRST_LANE,
            generator.four_behind(LANES * index),
        );
    }
}

impl Template {
    // The template of a line, by its records.
    pub(crate) fn of(line: Line, records: &[u8]) -> Template
        requires whole { AreWhole (line_pushes line) }
        requires few { length records.now ≤ 11264 }
        requires records { AreRecords (line_pushes line) records.now }
        ensures { result ≡ record { line = line; bytes = records.now } }
    {
        let mut room = [0; LINE];
        let len = records.len();
        room[..len].copy_from_slice(records);
        Template { line, room, len }
    }

    pub(crate) fn as_slice(&self) -> &[u8]
        ensures value { result.now ≡ self.now.bytes }
        ensures few { length self.now.bytes ≤ 11264 }
    {
        &self.room[..self.len]
    }

    // How many entries the line has.
    fn entries(&self) -> usize
        ensures count { result ≡ length (line_pushes self.now.line) }
        ensures few { result ≤ 1024 }
        ensures length { length self.now.bytes ≡ 11 * result }
        ensures whole { AreWhole (line_pushes self.now.line) }
        ensures records { AreRecords (line_pushes self.now.line) self.now.bytes }
    {
        self.len / ENTRY
    }

    // Draws the bytes of one more line, and answers how many these are. The generator stays where it is.
    pub(crate) fn draw(&mut self, generator: &Generator) -> usize
        ensures value { self.new ≡ record self.old { bytes = records generator.now (line_pushes self.old.line) } }
        ensures drawn { result ≡ 4 * length (line_pushes self.old.line) }
        ensures few { result ≤ 4096 }
        ensures whole { AreWhole (line_pushes self.old.line) }
    {
        let entries = self.entries();
        redraw(&mut self.room[..self.len], entries, generator);
        LANES * entries
    }
}
