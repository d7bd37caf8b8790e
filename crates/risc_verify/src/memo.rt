//! Where chunks were found last.

ghost use Rattle.machine_model.specs.Paths.{written_cause};
ghost use Rattle.page_table.specs.Grants.{first_ungranted};
ghost use Rattle.std.specs.Prelude.{◌≡◌, ◌+◌, ◌^◌, ◌≤◌, IfOk, IsTrue, None};
ghost use Rattle.std.specs.Result.{result_err};

use page_table::{PAGE_SIZE, PageSet};
use std::alloc::{AllocError, Global};

const SLOTS: u32 = 8192;

/// The place of the chunk in which an address was found last, for each number of a page modulo `SLOTS`. A
/// place is only a guess: it is tested before it is believed.
#[derive(Drop)]
pub(crate) struct ChunkMemo {
    places: Vec<u16>,
}

// Whether the chunk at a place has a whole range.
#[inline(always)]
fn is_within(grants: &PageSet, place: usize, address: u64, count: u16) -> bool
    requires { address ≤ 2 ^ 32 }
    ensures fits { IsTrue result → address + count ≤ 2 ^ 32 }
    ensures granted { IsTrue result → first_ungranted grants.now address count ≡ None }
{
    if place >= grants.len() {
        return false;
    }
    let begin = u64::from(grants.get(place));
    let end = begin + u64::from(grants.size(place));
    begin <= address && address + u64::from(count) <= end
}

// The place of the last chunk that begins at an address or before it, or else 0.
fn search_place(grants: &PageSet, addr: u32) -> u16 {
    let begun = grants.as_slice().partition_point(|&(at, _)| at <= addr);
    begun.saturating_sub(1) as u16
}

impl ChunkMemo {
    pub(crate) fn new(alloc: Global) -> Result<ChunkMemo, AllocError> {
        Ok(ChunkMemo {
            places: vec![in alloc; 0; SLOTS as usize]?,
        })
    }

    // The place of the chunk that was found last for an address and those that share its slot.
    #[inline(always)]
    fn place(&self, address: u64) -> usize {
        let slot = (address / u64::from(PAGE_SIZE) % u64::from(SLOTS)) as usize;
        usize::from(self.places.get(slot).copied().unwrap_or(0))
    }

    /// Whether a range is known to be fine: the chunk that was found last has the whole of it.
    #[inline(always)]
    pub(crate) fn has(&self, grants: &PageSet, address: u64, count: u16) -> bool
        requires { address ≤ 2 ^ 32 }
        ensures { IsTrue result → written_cause grants.now address count ≡ None }
    {
        is_within(grants, self.place(address), address, count)
    }

    /// Whether a range of so many bytes is granted, and else the address that `PageSet::covers` answers. Where a chunk
    /// is found, it is remembered.
    pub(crate) fn covers(&mut self, grants: &PageSet, addr: u32, count: u16) -> Result<(), u32>
        requires { addr + count ≤ 2 ^ 32 }
        ensures { result_err result ≡ first_ungranted grants.now addr count }
    {
        let place = search_place(grants, addr);
        if let Some(remembered) = self.places.get_mut((addr / PAGE_SIZE % SLOTS) as usize) {
            *remembered = place;
        }
        if is_within(grants, usize::from(place), u64::from(addr), count) {
            Ok(())
        } else {
            grants.covers(addr, u32::from(count))
        }
    }
}
