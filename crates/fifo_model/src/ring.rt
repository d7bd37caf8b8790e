//! One queue: a ring of entries of which nothing but `new` takes memory.
ghost use Rattle.std.specs.Prelude.{◌≡◌, ◌+◌, ◌<◌, ◌≤◌, ◌||◌, ◌++◌, length, take, drop, IfOk, IsSome, if◌then◌else◌, nat_le};
ghost use Rattle.sync_status.specs.Statuses.{kind_of};
ghost use Rattle.fifo_model.specs.Queues.{empty_queue, max_capacity, is_full, entered, overrun, front, front_code, removed, taken_from};
ghost use Rattle.fifo_model.specs.Queues.{front_valid, front_bytes, lane_bytes, wakes, is_ready, emptied};

use crate::{Entry, Pushed};
use circular_buffer::HeapCircularBuffer;
use risc_word::Code;
use std::alloc::{AllocError, Global};
use std::marker::Model;
use sync_status::{Status, StatusKind, kind, valid};

/// A queue. How many of its entries are an End or a Control is kept beside them, so that nobody has to
/// look through them for one.
#[derive(Drop)]
pub struct Ring {
    entries: HeapCircularBuffer<Entry>,
    taken: u8,
    wakers: u16,
    overruns: u64,
}

impl Model for Ring {
    ghost use Rattle.fifo_model.specs.Queues.{QueueState};
    ghost use Rattle.fifo_model.specs.Rings.{IsRing};

    ghost Value = { QueueState };

    ghost view = { λ ring. record {
      entries = ring.entries.items;
      capacity = ring.entries.capacity;
      taken = ring.taken;
      overruns = ring.overruns;
    } };

    ghost invariant = { λ ring. IsRing ring.entries.items ring.entries.capacity ring.wakers };
}

/// Whether an entry of this status makes its queue ready, however few entries are there.
#[inline]
fn is_waking(status: Status) -> bool
    ensures { result ≡ wakes (kind_of status) }
{
    matches!(kind(status), StatusKind::End(_) | StatusKind::Control(_))
}

impl Ring {
    pub fn new(alloc: Global, capacity: usize) -> Result<Ring, AllocError>
        requires { capacity ≤ max_capacity }
        ensures { IfOk result (λ ring. ring ≡ empty_queue capacity) }
    {
        let entries = HeapCircularBuffer::with_capacity(alloc, capacity)?;
        Ok(Ring {
            entries,
            taken: 0,
            wakers: 0,
            overruns: 0,
        })
    }

    #[inline]
    pub fn is_full(&self) -> bool
        ensures { result ≡ is_full self.now }
    {
        self.entries.is_full()
    }

    /// Puts an entry last, where there is room for it.
    #[inline]
    pub fn push(&mut self, entry: Entry) -> Pushed
        ensures answer { result ≡ (if is_full self.old then Pushed.Overrun else Pushed.Held) }
        ensures queue { self.new ≡ (if is_full self.old then overrun self.old else entered entry self.old) }
    {
        let waking = is_waking(entry.status);
        match self.entries.try_push_back(entry) {
            Ok(()) => {
                if waking {
                    self.wakers += 1;
                }
                Pushed::Held
            }
            Err(_) => {
                self.overruns = self.overruns.saturating_add(1);
                Pushed::Overrun
            }
        }
    }

    #[inline]
    pub fn len(&self) -> usize
        ensures entries { result ≡ length self.now.entries }
        ensures most { result ≤ max_capacity }
    {
        self.entries.len()
    }

    #[inline]
    pub fn front(&self) -> Option<Entry>
        ensures { result ≡ front self.now }
    {
        self.entries.front().copied()
    }

    /// The control code at the front, which is there.
    #[inline]
    pub fn code(&self) -> Code
        requires { IsSome (front_code self.now) }
        ensures { front_code self.now ≡ Some result }
    {
        if let Some(entry) = self.front() {
            if let StatusKind::Control(code) = kind(entry.status) {
                return code;
            }
        }
        unreachable!()
    }

    #[inline]
    pub fn taken(&self) -> u8
        ensures { result ≡ self.now.taken }
    {
        self.taken
    }

    #[inline]
    pub fn overruns(&self) -> u64
        ensures { result ≡ self.now.overruns }
    {
        self.overruns
    }

    #[inline]
    #[tactic(auto, using(crate::proofs::Waking::any_waking))]
    pub fn is_ready(&self, trigger: u16) -> bool
        ensures { result ≡ is_ready trigger self.now }
    {
        self.entries.len() >= usize::from(trigger) || self.wakers > 0
    }

    /// Removes the front entry, where there is one.
    #[inline]
    pub fn remove(&mut self)
        ensures { self.new ≡ removed self.old }
    {
        if let Some(entry) = self.entries.pop_front() {
            self.wakers -= u16::from(is_waking(entry.status));
        }
        self.taken = 0;
    }

    /// Takes the four bytes of a front of which none was taken.
    #[inline(always)]
    fn take_whole(&mut self, out: &mut [u8; 4])
        requires { self.old.taken + 4 ≤ front_valid self.old }
        ensures bytes { out.new ≡ front_bytes 4 self.old ++ drop 4 out.old }
        ensures queue { self.new ≡ taken_from 4 self.old }
    {
        if let Some(entry) = self.front() {
            let _lanes = valid(entry.status);
            *out = entry.dword.to_le_bytes();
            self.entries.pop_front();
            if is_waking(entry.status) {
                self.wakers -= 1;
            }
        }
    }

    /// Takes some more bytes of the front into the front of `out`, and answers how many were taken before.
    #[inline]
    pub fn take(&mut self, count: u8, out: &mut [u8; 4]) -> u8
        requires some { 1 ≤ count }
        requires valid { self.old.taken + count ≤ front_valid self.old }
        ensures part { result ≡ self.old.taken }
        ensures bytes { out.new ≡ front_bytes count self.old ++ drop count out.old }
        ensures queue { self.new ≡ taken_from count self.old }
    {
        if count == 4 {
            self.take_whole(out);
            return 0;
        }
        let part = self.taken;
        if let Some(entry) = self.front() {
            put_lanes(entry.dword, part, count, out);
            if part + count == valid(entry.status) {
                self.remove();
            } else {
                self.taken = part + count;
            }
        }
        part
    }

    pub fn clear(&mut self)
        ensures { self.new ≡ emptied self.old }
    {
        self.entries.clear();
        self.taken = 0;
        self.wakers = 0;
    }
}

/// Puts `count` bytes of a DWORD, from lane `part` on, into the front of `out`.
#[inline]
fn put_lanes(dword: u32, part: u8, count: u8, out: &mut [u8; 4])
    requires { part + count ≤ 4 }
    ensures { out.new ≡ take count (drop part (lane_bytes dword)) ++ drop count out.old }
{
    let bytes = dword.to_le_bytes();
    let (from, to) = (usize::from(part), usize::from(part + count));
    out[..usize::from(count)].copy_from_slice(&bytes[from..to]);
}
