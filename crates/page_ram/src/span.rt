//! Which chunk has an address.
ghost use Rattle.std.specs.Prelude.{◌≡◌, ◌+◌, IsTrue, map, nat_le};
ghost use Rattle.page_table.specs.Grants.{Chunk, covers, granted, AreRising};
ghost use Rattle.page_ram.specs.Places.{HasAddress};

/// A chunk, wherever its bytes are kept.
pub(crate) trait Span {
    ghost chunk: { Self → Chunk };

    /// The address of the first byte.
    fn at(&self) -> u32
        ensures { result ≡ (chunk self.now).at };

    /// The address after the last byte.
    fn end(&self) -> u64
        ensures { result ≡ (chunk self.now).at + (chunk self.now).len };

    /// Whether the chunk ends at an address or before it.
    fn ends_by(&self, addr: u32) -> bool
        ensures { result ≡ nat_le ((chunk self.now).at + (chunk self.now).len) addr }
    {
        self.end() <= u64::from(addr)
    }

    /// Whether the chunk has an address.
    fn holds(&self, addr: u32) -> bool
        ensures { result ≡ covers (chunk self.now) addr }
    {
        self.at() <= addr && u64::from(addr) < self.end()
    }
}

// Searches all chunks.
fn search_place<S: Span>(spans: &[S], addr: u32) -> usize
    requires rising { AreRising 0 (map S.chunk spans.now) }
    requires granted { IsTrue (granted (map S.chunk spans.now) addr) }
    ensures { HasAddress (map S.chunk spans.now) result addr }
{
    spans.partition_point(|span| span.ends_by(addr))
}

/// The place of the chunk that has an address, looked for first at the place `near`.
pub(crate) fn place_of<S: Span>(spans: &[S], near: usize, addr: u32) -> usize
    requires rising { AreRising 0 (map S.chunk spans.now) }
    requires granted { IsTrue (granted (map S.chunk spans.now) addr) }
    ensures { HasAddress (map S.chunk spans.now) result addr }
{
    if near < spans.len() && spans[near].holds(addr) {
        near
    } else {
        search_place(spans, addr)
    }
}
