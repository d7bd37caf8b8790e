//! What is kept of a field under way.
ghost use Rattle.std.specs.Prelude.{◌≡◌, ◌∷◌, ℕ, Bool, List, Option, false, true, option_map, IfOk};
ghost use Rattle.damage_map.specs.Tracks.{fresh, is_good, is_whole, later_tell_nothing, left_mark, mark_on, met, met_mark, opened};
ghost use Rattle.damage_map.specs.Tracks.{rows_kept, signalled, still_tells_nothing, taken_mark, through, track_notes, untold, with_mark};

use crate::before::{LinesBefore, before_rows};
use crate::lines::{Lines, Told};
use crate::mark::{LineMark, LineMarks};
use crate::reading::{ends_line, opens, signals};
use dma_machine::{Did, Seen};
use fifo_model::Queue;
use machine_watch::Watch;
use pixel_layout::Parity;
use program_build::Checked;
use risc_verify::Program;
use std::alloc::{AllocError, Global};
use std::marker::Model;

impl LineMark {
    fn taken(self, ended: bool) -> LineMark
        ensures { result ≡ taken_mark ended self }
    {
        match self {
            LineMark::Fresh | LineMark::Within => {
                if ended {
                    LineMark::Done
                } else {
                    LineMark::Within
                }
            }
            LineMark::Done | LineMark::Spoilt => LineMark::Spoilt,
        }
    }

    fn left(self) -> LineMark
        ensures { result ≡ left_mark self }
    {
        match self {
            LineMark::Within => LineMark::Spoilt,
            LineMark::Fresh | LineMark::Done | LineMark::Spoilt => self,
        }
    }

    fn met(self, seen: &Seen) -> LineMark
        ensures { result ≡ met_mark seen.now.took seen.now.reserved seen.now.ended self }
    {
        match (seen.took, seen.reserved) {
            (true, true) => LineMark::Spoilt,
            (true, false) => self.taken(seen.ended),
            (false, true) => self.left(),
            (false, false) => self,
        }
    }

    fn is_good(self) -> bool
        ensures { result ≡ is_good self }
    {
        matches!(self, LineMark::Fresh | LineMark::Done)
    }
}

impl LineMarks {
    const FRESH: LineMarks = LineMarks {
        one: LineMark::Fresh,
        two: LineMark::Fresh,
        three: LineMark::Fresh,
    };

    fn on(self, q: Queue) -> LineMark
        ensures { result ≡ mark_on q self }
    {
        match q {
            Queue::One => self.one,
            Queue::Two => self.two,
            Queue::Three => self.three,
        }
    }

    fn put(&mut self, q: Queue, mark: LineMark)
        ensures { self.new ≡ with_mark q mark self.old }
    {
        match q {
            Queue::One => self.one = mark,
            Queue::Two => self.two = mark,
            Queue::Three => self.three = mark,
        }
    }
}

/// What is kept of a field under way, and of both fields at their last signals (this project's own rules). Contracts see
/// a record of the line under way on each queue, whether an instruction of that line was lost, which lines of the field
/// before it are whole, which lines of each field were so at its last signal, and how many of them are before the rows.
#[derive(Drop)]
pub struct Track {
    marks: LineMarks,
    lost: bool,
    lines: Lines,
    top: Told,
    bottom: Told,
    before: LinesBefore,
}

impl Model for Track {
    ghost use Rattle.damage_map.specs.Tracks.{FieldTrack};

    ghost Value = { FieldTrack };

    ghost view = { λ t. record { marks = t.marks; lost = t.lost; lines = t.lines; top = t.top; bottom = t.bottom; before = t.before } };
}

impl Track {
    /// That of a machine as it is made, with the program of this description: no field was opened or signalled.
    pub fn new(alloc: Global, checked: &Checked) -> Result<Track, AllocError>
        ensures { IfOk result (λ track. track ≡ untold checked.now) }
    {
        Ok(Track {
            marks: LineMarks::FRESH,
            lost: false,
            lines: Lines::new(alloc)?,
            top: Told::new(alloc)?,
            bottom: Told::new(alloc)?,
            before: before_rows(checked.frame().desc()),
        })
    }

    // The fronts of a queue are met.
    fn meet(&mut self, q: Queue, seen: &Seen)
        ensures { self.new ≡ met q seen.now self.old }
    {
        let mark = self.marks.on(q).met(seen);
        self.marks.put(q, mark);
    }

    fn is_whole(&self) -> bool
        ensures { result ≡ is_whole self.now }
    {
        let LineMarks { one, two, three } = self.marks;
        !self.lost && one.is_good() && two.is_good() && three.is_good()
    }

    // An instruction is done with; where it ends the line, the next line begins.
    fn pass(&mut self, ends_line: bool)
        ensures { self.new ≡ through ends_line self.old }
    {
        if ends_line {
            let whole = self.is_whole();
            self.lines.note(whole);
            self.marks = LineMarks::FRESH;
            self.lost = false;
        }
    }

    fn open(&mut self, opens: bool)
        ensures { self.new ≡ opened opens self.old }
    {
        if opens {
            self.marks = LineMarks::FRESH;
            self.lost = false;
            self.lines.clear();
        }
    }

    fn signal(&mut self, field: Option<Parity>)
        ensures { self.new ≡ signalled field self.old }
    {
        match field {
            Some(Parity::Top) => self.top.tell(&mut self.lines),
            Some(Parity::Bottom) => self.bottom.tell(&mut self.lines),
            None => {}
        }
    }

    /// For each row of a described field whether it is a whole line, at the field's last signal. None exactly where it
    /// had no signal so far.
    pub fn rows(&self, field: Parity) -> Option<&[bool]>
        ensures { option_map (λ rows. rows.now) result ≡ rows_kept field self.now }
    {
        match field {
            Parity::Top => self.top.after(self.before.top),
            Parity::Bottom => self.bottom.after(self.before.bottom),
        }
    }
}

impl Watch for Track {
    ghost notes = { track_notes };

    ghost LETS_FALL = { true };

    const LETS_FALL: bool = true;

    fn saw(&mut self, program: &Program, seen: &Seen) {
        match seen.did {
            Did::Synced => self.open(opens(program, seen.at)),
            Did::Jumped => self.signal(signals(program, seen.at)),
            Did::Moved(q) => self.meet(q, seen),
            Did::Retired => self.pass(ends_line(program, seen.at)),
            Did::Passed => {
                self.lost = true;
                self.pass(ends_line(program, seen.at));
            }
            Did::GivenUp(q) => {
                self.meet(q, seen);
                self.lost = true;
                self.pass(ends_line(program, seen.at));
            }
            Did::Still | Did::Begun | Did::Dropped | Did::Matched | Did::Missed => {}
        }
    }

    fn took_whole(&mut self, queue: Queue) {
        let mark = self.marks.on(queue).taken(false);
        self.marks.put(queue, mark);
    }

    fn emptied(&mut self, one: bool, two: bool, three: bool) {
        if one {
            self.marks.one = self.marks.one.left();
        }
        if two {
            self.marks.two = self.marks.two.left();
        }
        if three {
            self.marks.three = self.marks.three.left();
        }
    }

    ghost still = { still_tells_nothing };

    ghost whole = { later_tell_nothing };
}
