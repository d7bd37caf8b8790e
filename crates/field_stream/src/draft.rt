//! Bytes of a stream that are made but not put yet.

ghost use Rattle.std.specs.Prelude.{◌≡◌, ◌+◌, ◌*◌, ◌<◌, ◌≤◌, [], ◌++◌, length, drop};
ghost use Rattle.sync_status.specs.Statuses.{valid_bytes};
ghost use Rattle.field_stream.specs.Generator.{first_number};
ghost use Rattle.field_stream.specs.Pushes.{Mark, Fill, chroma_after, line_entries, packed_line, planar_at, planar_line};
ghost use Rattle.field_stream.specs.Made.{tag_of};
ghost use Rattle.field_stream.specs.Lines.{AreWhole, IsShort, line_pushes};
ghost use Rattle.field_stream.specs.Drafts.{Drafted, pushed, pushed_all};

use crate::generator::Generator;
use crate::lines::{Line, line_entries, status};
use crate::template::Template;
use capture_file::tags;
use fifo_model::Queue;
use risc_word::Code;
use std::marker::Model;
use sync_status::{Status, valid};

// How many bytes a draft holds at most.
pub(crate) const ROOM: usize = 32_768;

// How many bytes the records of a line have at most.
pub(crate) const LINE: usize = 11_264;

// How many turns are behind each push.
const TURNS: u8 = 16;

// Their record: its tag, and the count in four bytes, the lowest first.
const TURNS_RECORD: [u8; 5] = [tags::TURNS, TURNS, 0, 0, 0];

// The bytes that are not put yet, and the generator.
#[derive(Drop)]
pub(crate) struct Draft {
    room: [u8; ROOM],
    len: usize,
    generator: Generator,
}

impl Model for Draft {
    ghost use Rattle.std.specs.Prelude.{◌<◌, ◌≤◌, take};
    ghost use Rattle.field_stream.specs.Drafts.{Drafted};

    ghost Value = { Drafted };

    ghost view = { λ d. record { bytes = take d.len d.room; number = d.generator } };

    ghost invariant = { λ d. d.len ≤ 32768 };
}

// The tag of a push to a queue.
#[inline]
fn tag(queue: Queue) -> u8
    ensures { result ≡ tag_of queue }
{
    match queue {
        Queue::One => tags::PUSH_ONE,
        Queue::Two => tags::PUSH_TWO,
        Queue::Three => tags::PUSH_THREE,
    }
}

impl Draft {
    // Nothing yet, with the first number of a seed.
    pub(crate) fn new(seed: u64) -> Draft
        ensures { result ≡ record { bytes = []; number = first_number seed } }
    {
        Draft {
            room: [0; ROOM],
            len: 0,
            generator: Generator::new(seed),
        }
    }

    pub(crate) fn as_slice(&self) -> &[u8]
        ensures value { result.now ≡ self.now.bytes }
        ensures few { length self.now.bytes ≤ 32768 }
    {
        &self.room[..self.len]
    }

    pub(crate) fn clear(&mut self)
        ensures { self.new ≡ record self.old { bytes = [] } }
    {
        self.len = 0;
    }

    #[inline]
    pub(crate) fn append(&mut self, piece: &[u8])
        requires { length self.old.bytes + length piece.now ≤ 32768 }
        ensures { self.new ≡ record self.old { bytes = self.old.bytes ++ piece.now } }
    {
        let end = self.len + piece.len();
        self.room[self.len..end].copy_from_slice(piece);
        self.len = end;
    }

    // A control code, and 16 turns.
    pub(crate) fn mark(&mut self, code: Code)
        requires { length self.old.bytes + 7 ≤ 32768 }
        ensures { self.new ≡ pushed (Mark code) self.old }
    {
        let [turns, one, two, three, four] = TURNS_RECORD;
        self.append(&[tags::CONTROL, code.nibble(), turns, one, two, three, four]);
    }

    // An entry with drawn bytes, and 16 turns.
    #[inline]
    fn entry(&mut self, queue: Queue, status: Status)
        requires data { 1 ≤ valid_bytes status }
        requires room { length self.old.bytes + 11 ≤ 32768 }
        ensures value { self.new ≡ pushed (Fill queue status) self.old }
        ensures length { length self.new.bytes ≡ length self.old.bytes + 11 }
    {
        let [a, b, c, d] = self.generator.draw(valid(status));
        let [turns, one, two, three, four] = TURNS_RECORD;
        self.append(&[
            tag(queue),
            status.nibble(),
            a,
            b,
            c,
            d,
            turns,
            one,
            two,
            three,
            four,
        ]);
    }

    // A line of a packed format. Its last entry is apart, so that those in the loop are known to be full.
    fn packed_line(&mut self, bytes: u32)
        requires bytes { 5 ≤ bytes }
        requires room { length self.old.bytes + 11 * line_entries bytes ≤ 32768 }
        ensures value { self.new ≡ pushed_all (packed_line bytes) self.old }
        ensures length { length self.new.bytes ≡ length self.old.bytes + 11 * line_entries bytes }
    {
        let last = line_entries(bytes) - 1;
        for index in 0..last {
            self.entry(Queue::One, status(bytes, index));
        }
        self.entry(Queue::One, status(bytes, last));
    }

    // The two entries of chroma that follow an entry of luma, if there are any.
    #[inline]
    fn chroma_after(&mut self, chroma: u32, across: u32, index: u32)
        requires chroma { 5 ≤ chroma }
        requires across { 1 ≤ across }
        requires room { length self.old.bytes + 22 ≤ 32768 }
        ensures value { self.new ≡ pushed_all (chroma_after chroma across index) self.old }
        ensures length { length self.new.bytes ≤ length self.old.bytes + 22 }
    {
        if index % across == 0 && index / across < line_entries(chroma) {
            let status = status(chroma, index / across);
            self.entry(Queue::Two, status);
            self.entry(Queue::Three, status);
        }
    }

    // An entry of luma, and the entries of chroma that follow it.
    #[inline]
    fn planar_at(&mut self, luma: u32, chroma: u32, across: u32, index: u32)
        requires luma { 5 ≤ luma }
        requires index { index < line_entries luma }
        requires chroma { 5 ≤ chroma }
        requires across { 1 ≤ across }
        requires room { length self.old.bytes + 33 ≤ 32768 }
        ensures value { self.new ≡ pushed_all (planar_at luma chroma across index) self.old }
        ensures length { length self.new.bytes ≤ length self.old.bytes + 33 }
    {
        self.entry(Queue::One, status(luma, index));
        self.chroma_after(chroma, across, index);
    }

    // A line of a planar format: so many bytes of luma, and of chroma on each of two queues.
    fn planar_line(&mut self, luma: u32, chroma: u32, across: u32)
        requires luma { 5 ≤ luma }
        requires chroma { 5 ≤ chroma }
        requires across { 1 ≤ across }
        requires room { length self.old.bytes + 33 * line_entries luma ≤ 32768 }
        ensures value { self.new ≡ pushed_all (planar_line luma chroma across) self.old }
        ensures length { length self.new.bytes ≤ length self.old.bytes + 33 * line_entries luma }
    {
        for index in 0..line_entries(luma) {
            self.planar_at(luma, chroma, across, index);
        }
    }

    // A line, which is short enough for the room that is left.
    pub(crate) fn line(&mut self, line: Line)
        requires short { IsShort line }
        requires room { length self.old.bytes + 11264 ≤ 32768 }
        ensures value { self.new ≡ pushed_all (line_pushes line) self.old }
        ensures few { length self.new.bytes ≤ length self.old.bytes + 11264 }
    {
        match line {
            Line::Packed { bytes } => self.packed_line(bytes),
            Line::Planar {
                luma,
                chroma,
                across,
            } => self.planar_line(luma, chroma, across),
        }
    }
    // What stands behind so many bytes.
    fn behind(&self, from: usize) -> &[u8]
        requires { from ≤ length self.now.bytes }
        ensures { result.now ≡ drop from self.now.bytes }
    {
        &self.as_slice()[from..]
    }

    // A line of which each entry holds four bytes, and its template.
    pub(crate) fn template(&mut self, line: Line) -> Template
        requires short { IsShort line }
        requires whole { AreWhole (line_pushes line) }
        requires room { length self.old.bytes + 11264 ≤ 32768 }
        ensures line { result.line ≡ line }
        ensures value { self.new ≡ pushed_all (line_pushes line) self.old }
    {
        let from = self.as_slice().len();
        self.line(line);
        Template::of(line, self.behind(from))
    }

    // A line by its template.
    pub(crate) fn again(&mut self, template: &mut Template)
        requires { length self.old.bytes + 11264 ≤ 32768 }
        ensures line { template.new.line ≡ template.old.line }
        ensures value { self.new ≡ pushed_all (line_pushes template.old.line) self.old }
    {
        let drawn = template.draw(&self.generator);
        self.append(template.as_slice());
        self.generator.pass(drawn);
    }
}
