//! The three queues of the video FIFO.
#![tactic(auto)]

ghost use Rattle.std.specs.Prelude.{◌≡◌, ◌+◌, ◌<◌, ◌≤◌, ◌⊎◌, ◌++◌, drop, length, slice_index, All, IfOk, IsSome, false};
ghost use Rattle.sync_status.specs.Statuses.{kind_of, is_control};
ghost use Rattle.fifo_model.specs.Queues.{queue_state, with_queue_state, empty_queues, max_capacity, push_answer, pushed, control_entry};
ghost use Rattle.fifo_model.specs.Queues.{control_answer, control_pushed, front, front_valid};
ghost use Rattle.fifo_model.specs.Queues.{front_bytes, taken_from, removed, is_ready, front_code, all_removed, cleared, overruns_of};
ghost use Rattle.fifo_model.specs.Queues.{IsFifo};
ghost use Rattle.fifo_model.specs.Rings.{place_of};

mod ring;

use ring::Ring;
use risc_word::Code;
use std::alloc::{AllocError, Global};
use std::marker::Model;
use sync_status::{Status, StatusKind, kind};

/// The room of queue 1 of the chip, in entries (Bt878 data sheet, "FIFO interface").
pub const LUMA_CAPACITY: usize = 70;

/// The room of queue 2, and of queue 3, in entries (Bt878 data sheet, "FIFO interface").
pub const CHROMA_CAPACITY: usize = 35;

/// The rooms of queues 1, 2 and 3.
pub const CAPACITIES: [usize; 3] = [LUMA_CAPACITY, CHROMA_CAPACITY, CHROMA_CAPACITY];

/// A queue of the FIFO: queue 1 takes packed data or luma, queues 2 and 3 chroma
/// (Bt878 data sheet, "FIFO interface").
#[derive(Clone, Copy, Debug, PartialEq, Eq)]
pub enum Queue {
    One,
    Two,
    Three,
}

/// An entry of a queue: a DWORD with its status. Lane k of the DWORD is bits 8k + 7 to 8k.
#[derive(Clone, Copy, Debug, PartialEq, Eq)]
pub struct Entry {
    /// Which lanes hold bytes: so many, from lane 0 on.
    pub status: Status,
    /// Lane 0, its lowest bits, is the first byte.
    pub dword: u32,
}

/// What became of a push.
#[derive(Clone, Copy, Debug, PartialEq, Eq)]
pub enum Pushed {
    /// It is in its queue.
    Held,
    /// It was lost: a queue was full.
    Overrun,
    /// It was ignored: the FIFO is disabled. A `Fifo` never answers this; the machine does.
    Off,
}

/// The three queues of the FIFO, and the counts of what was lost.
#[derive(Drop)]
pub struct Fifo {
    rings: [Ring; 3],
    control_overruns: u64,
}

impl Model for Fifo {
    ghost use Rattle.fifo_model.specs.Queues.{Queues};
    ghost use Rattle.fifo_model.specs.Rings.{queues_of, AreRings};

    ghost Value = { Queues };

    ghost view = { λ fifo. queues_of fifo.rings fifo.control_overruns };

    ghost invariant = { λ fifo. AreRings fifo.rings fifo.control_overruns };
}

impl Queue {
    /// The place of the queue among the three.
    #[inline]
    fn place(self) -> usize
        ensures place { result ≡ place_of self }
        ensures three { result < 3 }
    {
        match self {
            Queue::One => 0,
            Queue::Two => 1,
            Queue::Three => 2,
        }
    }
}

/// The entry that a control push puts into each queue.
#[inline]
fn control(code: Code) -> Entry
    ensures { result ≡ control_entry code }
{
    Entry {
        status: Status::of(code.nibble()),
        dword: 0,
    }
}

impl Fifo {
    /// Empty queues with room for so many entries each. It is the only call that takes memory.
    pub fn new(alloc: Global, caps: [usize; 3]) -> Result<Fifo, AllocError>
        requires { All (λ cap. (1 ≤ cap) × (cap ≤ max_capacity)) caps }
        ensures { IfOk result (λ fifo. fifo ≡ empty_queues (slice_index caps 0) (slice_index caps 1) (slice_index caps 2)) }
    {
        let [one, two, three] = caps;
        let one = Ring::new(alloc, one)?;
        let two = Ring::new(alloc, two)?;
        let three = Ring::new(alloc, three)?;
        Ok(Fifo {
            rings: [one, two, three],
            control_overruns: 0,
        })
    }

    /// Puts a data entry last in its queue. Where the queue is full, the entry is lost and the queue's
    /// count of overruns rises.
    #[inline]
    pub fn push(&mut self, q: Queue, e: Entry) -> Pushed
        requires { is_control (kind_of e.status) ≡ false }
        ensures answer { result ≡ push_answer q self.old }
        ensures queues { self.new ≡ pushed q e self.old }
        ensures facts { IsFifo self.new }
    {
        self.rings[q.place()].push(e)
    }

    /// Puts a control code last in all three queues. Where one of them is full, it enters none and the
    /// count of lost control pushes rises.
    #[inline]
    pub fn push_control(&mut self, c: Code) -> Pushed
        ensures answer { result ≡ control_answer self.old }
        ensures queues { self.new ≡ control_pushed c self.old }
        ensures facts { IsFifo self.new }
    {
        if self.rings[0].is_full() || self.rings[1].is_full() || self.rings[2].is_full() {
            self.control_overruns = self.control_overruns.saturating_add(1);
            return Pushed::Overrun;
        }
        self.rings[0].push(control(c));
        self.rings[1].push(control(c));
        self.rings[2].push(control(c))
    }

    /// How many entries a queue holds. A front of which some bytes were taken counts.
    #[inline]
    pub fn len(&self, q: Queue) -> usize
        ensures entries { result ≡ length (queue_state q self.now).entries }
        ensures most { result ≤ max_capacity }
    {
        self.rings[q.place()].len()
    }

    /// The entry at the front of a queue, if there is one.
    #[inline]
    pub fn front(&self, q: Queue) -> Option<Entry>
        ensures entry { result ≡ front (queue_state q self.now) }
        ensures facts { IsFifo self.now }
    {
        self.rings[q.place()].front()
    }

    /// How many bytes of the front of a queue are taken already, 0 where there is no front.
    #[inline]
    pub fn part(&self, q: Queue) -> u8
        ensures part { result ≡ (queue_state q self.now).taken }
        ensures within { (result ≡ 0) ⊎ (result < front_valid (queue_state q self.now)) }
    {
        self.rings[q.place()].taken()
    }

    /// Takes the next `n` bytes of a queue's front: they come into the front of `out`, and the rest of
    /// `out` stays. It answers how many bytes were taken before. The front leaves the queue with its
    /// last valid byte.
    #[inline]
    pub fn take(&mut self, q: Queue, n: u8, out: &mut [u8; 4]) -> u8
        requires some { 1 ≤ n }
        requires valid { (queue_state q self.old).taken + n ≤ front_valid (queue_state q self.old) }
        ensures part { result ≡ (queue_state q self.old).taken }
        ensures bytes { out.new ≡ front_bytes n (queue_state q self.old) ++ drop n out.old }
        ensures queues { self.new ≡ with_queue_state q (taken_from n (queue_state q self.old)) self.old }
        ensures facts { IsFifo self.new }
    {
        self.rings[q.place()].take(n, out)
    }

    /// Removes the front of a queue.
    #[inline]
    pub fn discard(&mut self, q: Queue)
        requires there { IsSome (front (queue_state q self.old)) }
        requires no_control { front_code (queue_state q self.old) ≡ None }
        ensures queues { self.new ≡ with_queue_state q (removed (queue_state q self.old)) self.old }
        ensures facts { IsFifo self.new }
    {
        self.rings[q.place()].remove()
    }

    /// Removes the control codes at the front of the three queues, which are one code, and answers it.
    #[inline]
    pub fn pop_controls(&mut self) -> Code
        requires one { IsSome (front_code self.old.one) }
        requires two { IsSome (front_code self.old.two) }
        requires three { IsSome (front_code self.old.three) }
        ensures code { front_code self.old.one ≡ Some result }
        ensures queues { self.new ≡ all_removed self.old }
        ensures facts { IsFifo self.new }
    {
        let code = self.rings[0].code();
        self.rings[0].remove();
        self.rings[1].remove();
        self.rings[2].remove();
        code
    }

    /// Whether a queue holds so many entries, or an entry that is an End or a Control: then an
    /// instruction goes on with it.
    #[inline]
    pub fn ready(&self, q: Queue, n: u16) -> bool
        requires { 1 ≤ n }
        ensures { result ≡ is_ready n (queue_state q self.now) }
    {
        self.rings[q.place()].is_ready(n)
    }

    /// Empties the three queues. The counts stay.
    pub fn clear(&mut self)
        ensures queues { self.new ≡ cleared self.old }
        ensures facts { IsFifo self.new }
    {
        self.rings[0].clear();
        self.rings[1].clear();
        self.rings[2].clear();
    }

    /// How many pushes were lost, each count up to 2^64 - 1: those to queues 1, 2 and 3, and those of
    /// control codes.
    pub fn overruns(&self) -> [u64; 4]
        ensures { result ≡ overruns_of self.now }
    {
        let [one, two, three] = &self.rings;
        [
            one.overruns(),
            two.overruns(),
            three.overruns(),
            self.control_overruns,
        ]
    }
}
