//! Scatter lists: chunks in any order, used as one stretch of bytes.

ghost use Rattle.std.specs.Prelude.{◌≡◌, ◌+◌, ◌^◌, ◌<◌, ◌≤◌, [], false, true, length, map, nat_le, IfOk, IsTrue, None};
ghost use Rattle.std.specs.List.{All, prefix_len};
ghost use Rattle.std.specs.List.Sorted.{IsNonDecreasingBy};
ghost use Rattle.page_table.specs.Grants.{total};
ghost use Rattle.page_table.specs.Taken.{first_shared, is_aligned, listed, page_at};
ghost use Rattle.page_table.specs.Scattered.{AreChunks, ArePages, Holds, IsScatterList, Scatters, address_at, ends_from, room_at, run_at};
ghost use Rattle.page_table.specs.Scattered.{scatter_list, scattered_chunks, scattered_pages};
ghost use Rattle.page_table.specs.declared.scatter.ScatterFault.TheVariants.{Memory};

use super::{PAGE_SIZE, total, whole_pages};
use std::alloc::{AllocError, AllocFailed, Global};
use std::marker::Model;

/// Why a list makes no scatter list.
#[derive(Clone, Copy, Debug, PartialEq)]
pub enum ScatterFault {
    /// More pages are needed than there are; of chunks both numbers are bytes.
    TooFew { need: u64, have: u64 },
    /// Out of memory.
    Memory,
}

/// Chunks in the order of a list, used as one stretch of bytes. The address of an offset lies in the
/// first chunk for which the lengths up to and with it sum to more than the offset (this project's
/// own rule). Contracts see the list of chunks and the number of bytes used.
#[derive(Drop)]
pub struct Scatter {
    chunks: Vec<(u32, u32)>,
    // the offset at which each chunk ends
    ends: Vec<u64>,
    len: u64,
}

impl Model for Scatter {
    ghost use Rattle.std.specs.Prelude.{◌≡◌};
    ghost use Rattle.page_table.specs.Taken.{listed};
    ghost use Rattle.page_table.specs.Scattered.{IsScatterList, ScatterList, ends_from, scatter_list};

    ghost Value = { ScatterList };

    ghost view = { λ s. scatter_list (listed s.chunks.items) s.len };

    ghost invariant = { λ s. IsScatterList (scatter_list (listed s.chunks.items) s.len)
        × (s.ends.items ≡ ends_from 0 (listed s.chunks.items)) };
}

// The offsets at which chunks end.
fn ends_of(alloc: Global, chunks: &[(u32, u32)]) -> Result<Vec<u64>, AllocError>
    requires { total (listed chunks.now) ≤ 2 ^ 32 }
    ensures { IfOk result (λ ends. ends.items ≡ ends_from 0 (listed chunks.now)) }
{
    let mut ends = Vec::with_capacity(alloc, chunks.len())?;
    let mut end = 0;
    for chunk in chunks.iter() {
        end += u64::from(chunk.1);
        ends.push(end)?;
    }
    Ok(ends)
}

// Whether the first `i` chunks end at an offset or before it, and the next one after it.
#[inline]
fn lies_in(ends: &[u64], i: usize, off: u64) -> bool
    requires { IsNonDecreasingBy (λ end. end) ends.now }
    ensures there { IsTrue result → i ≡ prefix_len (λ end. nat_le end off) ends.now }
    ensures elsewhere { result ≡ false → i < length ends.now → i ≡ prefix_len (λ end. nat_le end off) ends.now → ⊥ }
{
    if i >= ends.len() {
        return false;
    }
    off < ends[i] && (i == 0 || ends[i - 1] <= off)
}

// The chunk in which an offset lies: as many chunks end at the offset or before it. Where all chunks are
// pages there is nothing to search.
fn chunk_holding(chunks: &[(u32, u32)], ends: &[u64], off: u64) -> usize
    requires sums { ends.now ≡ ends_from 0 (listed chunks.now) }
    requires aligned { All (λ c. is_aligned c ≡ true) (listed chunks.now) }
    requires within { off < total (listed chunks.now) }
    ensures { Holds chunks.now ends.now off result }
{
    let page = (off / u64::from(PAGE_SIZE)) as usize;
    if lies_in(ends, page, off) {
        page
    } else {
        ends.partition_point(|end| *end <= off)
    }
}

// The address of an offset, and the bytes from it to the end of its chunk.
fn place(chunks: &[(u32, u32)], ends: &[u64], off: u64) -> (u32, u32)
    requires sums { ends.now ≡ ends_from 0 (listed chunks.now) }
    requires aligned { All (λ c. is_aligned c ≡ true) (listed chunks.now) }
    requires within { off < total (listed chunks.now) }
    ensures { result ≡ (address_at (listed chunks.now) off, room_at (listed chunks.now) off) }
{
    let i = chunk_holding(chunks, ends, off);
    let &(at, len) = &chunks[i];
    let room = (ends[i] - off) as u32;
    (at + (len - room), room)
}

// The scatter list over chunks, of which so many bytes are used.
fn over(alloc: Global, chunks: Vec<(u32, u32)>, len: u64) -> Result<Scatter, AllocError>
    requires { IsScatterList (scatter_list (listed chunks.items) len) }
    ensures { IfOk result (λ s. s ≡ scatter_list (listed chunks.items) len) }
{
    let ends = ends_of(alloc, &chunks)?;
    Ok(Scatter { chunks, ends, len })
}

fn copied(alloc: Global, chunks: &[(u32, u32)]) -> Result<Vec<(u32, u32)>, AllocError>
    ensures { IfOk result (λ copy. copy.items ≡ chunks.now) }
{
    chunks.iter().copied().collect(alloc)
}

impl From<AllocError> for ScatterFault {
    ghost from_gives = { λ _ fault. fault ≡ Memory };

    fn from(_error: AllocError) -> ScatterFault {
        ScatterFault::Memory
    }
}

impl<T: Drop> From<AllocFailed<T>> for ScatterFault {
    ghost from_gives = { λ _ fault. fault ≡ Memory };

    fn from(_error: AllocFailed<T>) -> ScatterFault {
        ScatterFault::Memory
    }
}

impl Scatter {
    /// So many bytes over the pages of 4,096 bytes at these addresses: distinct multiples of 4,096, in
    /// any order. `TooFew` comes where the pages needed for the bytes are more than there are; both
    /// its numbers are pages.
    pub fn new(alloc: Global, pages: &[u32], len: u64) -> Result<Scatter, ScatterFault>
        requires { ArePages pages.now }
        ensures answer { Scatters (scattered_pages pages.now len) result }
        ensures list { IfOk result IsScatterList }
    {
        let need = len.div_ceil(u64::from(PAGE_SIZE));
        let have = pages.len() as u64;
        if need > have {
            return Err(ScatterFault::TooFew { need, have });
        }
        let chunks = whole_pages(alloc, pages)?;
        Ok(over(alloc, chunks, len)?)
    }

    /// So many bytes over the chunks with these addresses and lengths in bytes, in any order: multiples
    /// of 4 that end at 2^32 at most, no length of 0, no byte in two of them. `TooFew` comes where the
    /// bytes are more than the chunks have together; both its numbers are bytes.
    pub fn of_chunks(
        alloc: Global,
        chunks: &[(u32, u32)],
        len: u64,
    ) -> Result<Scatter, ScatterFault>
        requires { AreChunks chunks.now }
        ensures answer { Scatters (scattered_chunks (listed chunks.now) len) result }
        ensures list { IfOk result IsScatterList }
    {
        let have = total(chunks);
        if len > have {
            return Err(ScatterFault::TooFew { need: len, have });
        }
        let chunks = copied(alloc, chunks)?;
        Ok(over(alloc, chunks, len)?)
    }

    /// The address of an offset below the bytes used. It takes the logarithm of the number of chunks.
    pub fn at(&self, off: u64) -> u32
        requires { off < self.now.len }
        ensures value { result ≡ address_at self.now.chunks off }
        ensures list { IsScatterList self.now }
    {
        place(&self.chunks, &self.ends, off).0
    }

    /// The address of an offset below the bytes used, and the length of the run from there on: the
    /// least of `max` (1 or more), the bytes left in its chunk and those left of the bytes used. A run
    /// ends at each chunk end, also where the next chunk follows in address. It takes the logarithm of
    /// the number of chunks.
    pub fn run(&self, off: u64, max: u32) -> (u32, u32)
        requires within { off < self.now.len }
        requires some { 1 ≤ max }
        ensures value { result ≡ run_at self.now off max }
        ensures bytes { 1 ≤ result.1 }
        ensures list { IsScatterList self.now }
    {
        let (at, room) = place(&self.chunks, &self.ends, off);
        let left = u64::from(max.min(room)).min(self.len - off);
        (at, left as u32)
    }
}
