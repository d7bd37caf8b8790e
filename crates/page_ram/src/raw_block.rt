//! A block of bytes in raw memory.
ghost use Rattle.page_ram.specs.Extents.{set_run};
ghost use Rattle.std.specs.Prelude.{◌≡◌, ◌+◌, ◌^◌, ◌<◌, ◌≤◌, length, map, take, drop, replicate, slice_index, slice_set, IfOk, Some};

use crate::cells::{Base, Cells, Deed, allocate, deallocate};
use std::alloc::{AllocError, Global};
use std::marker::Model;

/// A block of bytes, taken once and given back when it is dropped. Contracts see its bytes.
pub(crate) struct RawBlock {
    base: Base<u8>,
    cells: Cells<u8>,
    deed: Deed<u8, Global>,
    len: usize,
    alloc: Global,
}

impl Model for RawBlock {
    ghost use Rattle.std.specs.Prelude.{◌≡◌, ℕ, List, length};
    ghost use Rattle.page_ram.specs.Row.{somes, AreFilled};

    ghost Value = { List ℕ };

    ghost view = { λ b. somes b.cells.slots };

    ghost invariant = { λ b. (b.cells.at ≡ b.base.ptr) × (b.deed.at ≡ b.base.ptr) × (b.deed.len ≡ b.len) × (b.deed.alloc ≡ b.alloc)
        × (length b.cells.slots ≡ b.len) × AreFilled b.cells.slots };
}

/// Puts bytes into the places from `index` on.
#[inline]
fn write_run(cells: &mut Cells<u8>, base: Base<u8>, index: usize, bytes: &[u8])
    requires at { base.ptr ≡ cells.old.at }
    requires within { index + length bytes.now ≤ length cells.old.slots }
    requires small { index + length bytes.now < 2 ^ 63 }
    ensures { (cells.new.at ≡ cells.old.at) × (cells.new.slots ≡ set_run cells.old.slots index (map Some bytes.now)) }
{
    let mut at = index;
    for byte in bytes {
        cells.write(base, at, *byte);
        at += 1;
    }
}

impl RawBlock {
    /// So many bytes, each equal to `fill`.
    pub(crate) fn filled(alloc: Global, len: usize, fill: u8) -> Result<RawBlock, AllocError>
        requires { len < 2 ^ 63 }
        ensures { IfOk result (λ block. block ≡ replicate len fill) }
    {
        let (base, mut cells, deed) = allocate(&alloc, len)?;
        for i in 0..len {
            cells.write(base, i, fill);
        }
        Ok(RawBlock {
            base,
            cells,
            deed,
            len,
            alloc,
        })
    }

    /// Writes one byte.
    pub(crate) fn set(&mut self, index: usize, byte: u8)
        requires { index < length self.old }
        ensures { self.new ≡ slice_set self.old index byte }
    {
        self.cells.write(self.base, index, byte);
    }

    /// Writes bytes at the indices from `index` on.
    #[inline]
    pub(crate) fn set_run(&mut self, index: usize, bytes: &[u8])
        requires within { index + length bytes.now ≤ length self.old }
        requires small { index + length bytes.now < 2 ^ 63 }
        ensures { self.new ≡ set_run self.old index bytes.now }
    {
        write_run(&mut self.cells, self.base, index, bytes);
    }

    /// Reads one byte.
    pub(crate) fn byte(&self, index: usize) -> u8
        requires { index < length self.now }
        ensures { result ≡ slice_index self.now index }
    {
        *self.cells.get(self.base, index)
    }

    /// The `len` bytes from `from` on.
    pub(crate) fn slice(&self, from: usize, len: usize) -> &[u8]
        requires { from + len ≤ length self.now }
        ensures { result.now ≡ take len (drop from self.now) }
    {
        self.cells.slice(self.base, from, len)
    }
}

impl Drop for RawBlock {
    fn drop(self) {
        let RawBlock {
            base,
            cells,
            deed,
            len,
            alloc,
        } = self;
        deallocate(&alloc, base, len, cells, deed);
    }
}
