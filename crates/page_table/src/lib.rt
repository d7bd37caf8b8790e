//! Granted memory as chunks: an address and a length each.
#![tactic(auto)]

ghost use Rattle.std.specs.Prelude.{◌≡◌, ◌+◌, ◌*◌, ◌^◌, ◌<◌, ◌≤◌, ◌↔◌, true, false, not, [], length, map, nat_le, IfOk, IfSome, IsTrue};
ghost use Rattle.std.specs.Prelude.{MatchResult, Some, None};
ghost use Rattle.std.specs.List.{list_any, position, prefix_len, All};
ghost use Rattle.std.specs.Result.{result_err};
ghost use Rattle.page_table.specs.Grants.{AreGrants, AreRising, IsChunk, chunk, chunk_at, first_ungranted, is_met, is_page, max_bytes};
ghost use Rattle.page_table.specs.Grants.{max_chunks, page_size, total};
ghost use Rattle.page_table.specs.Taken.{Answers, first_shared, is_aligned, is_page_address, listed, page_at, pair_chunk, shares};
ghost use Rattle.page_table.specs.Taken.{taken_chunks, taken_pages, unless_shared};
ghost use Rattle.page_table.specs.declared.PageFault.TheVariants.{Memory};

use std::alloc::{AllocError, AllocFailed, Global};
use std::collections::BTreeMap;
use std::marker::Model;

mod scatter;

pub use scatter::{Scatter, ScatterFault};

/// The most chunks that can be granted (this project's own limit).
pub const MAX_CHUNKS: usize = 4096;

/// The most bytes that all chunks together may have (this project's own limit).
pub const MAX_BYTES: u64 = 16_777_216;

/// The bytes of a page.
pub const PAGE_SIZE: u32 = 4096;

/// The first number that is no address.
pub const ADDRESSES: u64 = 0x1_0000_0000;

/// Why a list makes no set of grants. A number is the place in the list, counted from 0, of the
/// first entry at fault. The order of the faults and their limits are this project's own rule.
#[derive(Clone, Copy, Debug, PartialEq)]
pub enum PageFault {
    /// More than 4,096 entries, or more than 16,777,216 bytes together.
    TooMany,
    /// A page's address is no multiple of 4,096; a chunk's address or length is no multiple of 4,
    /// its length is 0, or its end passes 2^32.
    Unaligned(u32),
    /// An entry shares a byte with one before it.
    Twice(u32),
    /// Out of memory.
    Memory,
}

/// The memory that a program may write: chunks in rising order that share no byte. Chunks that
/// touch stay two chunks. Contracts see the list of chunks.
#[derive(Drop)]
pub struct PageSet {
    chunks: Vec<(u32, u32)>,
}

impl Model for PageSet {
    ghost use Rattle.std.specs.Prelude.{List};
    ghost use Rattle.page_table.specs.Grants.{Chunk, AreGrants};
    ghost use Rattle.page_table.specs.Taken.{listed};

    ghost Value = { List Chunk };

    ghost view = { λ set. listed set.chunks.items };

    ghost invariant = { λ set. AreGrants (listed set.chunks.items) };
}

/// Whether a chunk, so many bytes from the address `at` on, is a page.
#[inline]
pub fn is_page(at: u32, len: u32) -> bool
    ensures { result ≡ is_page (chunk at len) }
{
    at % PAGE_SIZE == 0 && len == PAGE_SIZE
}

/// Whether a chunk, so many bytes from the address `at` on, shares a byte with the addresses from `begin` up
/// to `end`.
#[inline]
pub fn is_met(begin: u32, end: u64, at: u32, len: u32) -> bool
    ensures { result ≡ is_met begin end (chunk at len) }
{
    u64::from(begin.max(at)) < end.min(u64::from(at) + u64::from(len))
}

/// Whether one of some chunks, an address and a length in bytes each, shares a byte with the addresses from
/// `begin` up to `end`.
pub fn any_met(begin: u32, end: u64, chunks: &[(u32, u32)]) -> bool
    ensures { result ≡ list_any (λ pair. is_met begin end (pair_chunk pair)) chunks.now }
{
    chunks
        .iter()
        .any(|chunk| is_met(begin, end, chunk.0, chunk.1))
}

/// Whether one of the pages at some addresses shares a byte with the addresses from `begin` up to `end`.
pub fn any_page_met(begin: u32, end: u64, pages: &[u32]) -> bool
    ensures { result ≡ list_any (λ page. is_met begin end (page_at page)) pages.now }
{
    pages
        .iter()
        .any(|page| is_met(begin, end, *page, PAGE_SIZE))
}

fn is_aligned(at: u32, len: u32) -> bool
    ensures { result ≡ is_aligned (chunk at len) }
{
    at % 4 == 0 && len % 4 == 0 && len > 0 && u64::from(at) + u64::from(len) <= ADDRESSES
}

fn total(chunks: &[(u32, u32)]) -> u64
    requires { length chunks.now ≤ 2 ^ 30 }
    ensures { result ≡ total (listed chunks.now) }
{
    chunks.iter().map(|pair| u64::from(pair.1)).sum()
}

fn first_unaligned(chunks: &[(u32, u32)]) -> Option<usize>
    ensures found { result ≡ position (λ pair. not (is_aligned (pair_chunk pair))) chunks.now }
    ensures within { IfSome result (λ place. place < length chunks.now) }
{
    chunks.iter().position(|pair| !is_aligned(pair.0, pair.1))
}

fn first_off_page(pages: &[u32]) -> Option<usize>
    ensures found { result ≡ position (λ page. not (is_page_address page)) pages.now }
    ensures within { IfSome result (λ place. place < length pages.now) }
{
    pages.iter().position(|page| page % PAGE_SIZE != 0)
}

/// The pages at some addresses as chunks, an address and a length in bytes each, in the order of the list. The
/// error is out of memory.
pub fn whole_pages(alloc: Global, pages: &[u32]) -> Result<Vec<(u32, u32)>, AllocError>
    ensures { IfOk result (λ chunks. chunks.items ≡ map (λ page. (page, page_size)) pages.now) }
{
    pages.iter().map(|page| (*page, PAGE_SIZE)).collect(alloc)
}

// Whether a chunk shares a byte with one of the set: the last that begins before its end decides.
fn shares_byte(set: &BTreeMap<u32, u32>, at: u32, len: u32) -> bool
    requires chunk { IsChunk (chunk at len) }
    requires rising { AreRising 0 (listed set.now.entries) }
    ensures { result ≡ list_any (shares (chunk at len)) (listed set.now.entries) }
{
    match set.range(..=at + (len - 1)).next_back() {
        Some((before, size)) => u64::from(at) < u64::from(*before) + u64::from(*size),
        None => false,
    }
}

// Whether chunks rise as they are, and share no byte.
fn are_rising(chunks: &[(u32, u32)]) -> bool
    requires { All (λ c. is_aligned c ≡ true) (listed chunks.now) }
    ensures { IsTrue result ↔ AreRising 0 (listed chunks.now) }
{
    let mut end = 0;
    for &(at, len) in chunks {
        if u64::from(at) < end {
            return false;
        }
        end = u64::from(at) + u64::from(len);
    }
    true
}

// Puts aligned chunks into rising order, unless one shares a byte with one before it.
fn sorted(alloc: Global, chunks: &[(u32, u32)]) -> Result<PageSet, PageFault>
    requires few { length (listed chunks.now) ≤ max_chunks }
    requires small { total (listed chunks.now) ≤ max_bytes }
    requires aligned { All (λ c. is_aligned c ≡ true) (listed chunks.now) }
    ensures answer { Answers (unless_shared (first_shared [] (listed chunks.now)) (listed chunks.now)) result }
    ensures grants { IfOk result AreGrants }
{
    let mut set = BTreeMap::new(alloc);
    for (i, &(at, len)) in chunks.iter().enumerate() {
        if shares_byte(&set, at, len) {
            return Err(PageFault::Twice(i as u32));
        }
        set.insert(at, len)?;
    }
    let chunks = in_a_row(alloc, &set)?;
    Ok(PageSet { chunks })
}

// Puts aligned chunks into rising order, unless one shares a byte with one before it. Those of a
// program file rise already, and are taken as they are.
fn gathered(alloc: Global, chunks: &[(u32, u32)]) -> Result<PageSet, PageFault>
    requires few { length (listed chunks.now) ≤ max_chunks }
    requires small { total (listed chunks.now) ≤ max_bytes }
    requires aligned { All (λ c. is_aligned c ≡ true) (listed chunks.now) }
    ensures answer { Answers (unless_shared (first_shared [] (listed chunks.now)) (listed chunks.now)) result }
    ensures grants { IfOk result AreGrants }
{
    if are_rising(chunks) {
        let chunks = Vec::from_slice(alloc, chunks)?;
        return Ok(PageSet { chunks });
    }
    sorted(alloc, chunks)
}

// The entries of a map in order.
fn in_a_row(alloc: Global, set: &BTreeMap<u32, u32>) -> Result<Vec<(u32, u32)>, AllocError>
    ensures { IfOk result (λ chunks. chunks.items ≡ set.now.entries) }
{
    set.iter().map(|(at, len)| (*at, *len)).collect(alloc)
}

// How many chunks end at an address or before it.
fn ended(chunks: &[(u32, u32)], addr: u32) -> usize
    requires { AreRising 0 (listed chunks.now) }
    ensures { result ≡ prefix_len (λ pair. nat_le (pair.0 + pair.1) addr) chunks.now }
{
    chunks.partition_point(|pair| u64::from(pair.0) + u64::from(pair.1) <= u64::from(addr))
}

// Goes from chunk to chunk.
fn find_gap(chunks: &[(u32, u32)], addr: u32, len: u32) -> Result<(), u32>
    requires rising { AreRising 0 (listed chunks.now) }
    requires fits { addr + len ≤ 2 ^ 32 }
    ensures { result_err result ≡ first_ungranted (listed chunks.now) addr len }
{
    let end = u64::from(addr) + u64::from(len);
    let mut next = u64::from(addr);
    let mut i = ended(chunks, addr);
    while next < end {
        if i == chunks.len() || u64::from(chunks[i].0) > next {
            return Err(next as u32);
        }
        next = u64::from(chunks[i].0) + u64::from(chunks[i].1);
        i += 1;
    }
    Ok(())
}

impl From<AllocError> for PageFault {
    ghost from_gives = { λ _ fault. fault ≡ Memory };

    fn from(_error: AllocError) -> PageFault {
        PageFault::Memory
    }
}

impl<T: Drop> From<AllocFailed<T>> for PageFault {
    ghost from_gives = { λ _ fault. fault ≡ Memory };

    fn from(_error: AllocFailed<T>) -> PageFault {
        PageFault::Memory
    }
}

impl PageSet {
    /// The pages of 4,096 bytes at these addresses, in any order. Of several faults
    /// the answer is the first in the order of `PageFault`, at the first place that has it.
    pub fn from_list(alloc: Global, pages: &[u32]) -> Result<PageSet, PageFault>
        ensures answer { Answers (taken_pages pages.now) result }
        ensures grants { IfOk result AreGrants }
    {
        if pages.len() > MAX_CHUNKS {
            return Err(PageFault::TooMany);
        }
        if let Some(place) = first_off_page(pages) {
            return Err(PageFault::Unaligned(place as u32));
        }
        let chunks = whole_pages(alloc, pages)?;
        gathered(alloc, &chunks)
    }

    /// The chunks with these addresses and lengths in bytes, in any order. Faults are answered as by
    /// `from_list`.
    pub fn from_chunks(alloc: Global, chunks: &[(u32, u32)]) -> Result<PageSet, PageFault>
        ensures answer { Answers (taken_chunks chunks.now) result }
        ensures grants { IfOk result AreGrants }
    {
        if chunks.len() > MAX_CHUNKS || total(chunks) > MAX_BYTES {
            return Err(PageFault::TooMany);
        }
        if let Some(place) = first_unaligned(chunks) {
            return Err(PageFault::Unaligned(place as u32));
        }
        gathered(alloc, chunks)
    }

    /// How many chunks there are.
    pub fn len(&self) -> usize
        ensures value { result ≡ length self.now }
        ensures grants { AreGrants self.now }
    {
        self.chunks.len()
    }

    /// The address of a chunk; chunks are counted from 0 in rising order.
    pub fn get(&self, i: usize) -> u32
        requires { i < length self.now }
        ensures value { result ≡ (chunk_at self.now i).at }
        ensures grants { AreGrants self.now }
    {
        self.chunks[i].0
    }

    /// The length of a chunk in bytes.
    pub fn size(&self, i: usize) -> u32
        requires { i < length self.now }
        ensures value { result ≡ (chunk_at self.now i).len }
        ensures grants { AreGrants self.now }
    {
        self.chunks[i].1
    }

    /// The address and the length in bytes of each chunk, in rising order.
    pub fn as_slice(&self) -> &[(u32, u32)]
        ensures value { listed result.now ≡ self.now }
        ensures grants { AreGrants self.now }
    {
        &self.chunks
    }

    /// Whether a chunk shares a byte with the addresses from `begin` up to `end`.
    pub fn meets(&self, begin: u32, end: u64) -> bool
        ensures met { result ≡ list_any (is_met begin end) self.now }
        ensures grants { AreGrants self.now }
    {
        any_met(begin, end, &self.chunks)
    }

    /// Whether a range of so many bytes is granted. The error is the first byte of the range that is
    /// in no chunk.
    pub fn covers(&self, addr: u32, len: u32) -> Result<(), u32>
        requires { addr + len ≤ 2 ^ 32 }
        ensures value { result_err result ≡ first_ungranted self.now addr len }
        ensures grants { AreGrants self.now }
    {
        find_gap(&self.chunks, addr, len)
    }
}
