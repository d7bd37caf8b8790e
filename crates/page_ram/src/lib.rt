//! Granted memory, byte by byte: the trait and two implementations.
#![tactic(auto)]

ghost use Rattle.std.specs.Prelude.{◌≡◌, ◌+◌, ◌^◌, List, ◌<◌, ◌≤◌, IsTrue, length, slice_get, None, Some};
ghost use Rattle.page_table.specs.Grants.{first_ungranted, granted};
ghost use Rattle.page_table.specs.Blocks.{Block, AreBlocks, byte_at, chunks_of, stored, stored_run};

mod cells;
mod each;
mod map_ram;
mod raw_block;
mod raw_ram;
mod span;

pub use map_ram::MapRam;
pub use raw_ram::PageRam;

/// Memory that has a byte for each granted address and no other. Contracts see it as its chunks in
/// rising order, each with its bytes.
pub trait Ram {
    ghost memory: { Self → List Block };

    /// Writes one byte at a granted address.
    fn store(&mut self, addr: u32, byte: u8)
        requires { IsTrue (granted (chunks_of (memory self.old)) addr) }
        ensures stored { memory self.new ≡ stored (memory self.old) addr byte }
        ensures sound { AreBlocks (memory self.new) };

    /// Writes bytes at the granted addresses from `addr` on, as `store` would write each.
    fn store_run(&mut self, addr: u32, bytes: &[u8])
        requires within { addr + length bytes.now ≤ 2 ^ 32 }
        requires granted { first_ungranted (chunks_of (memory self.old)) addr (length bytes.now) ≡ None }
        ensures { memory self.new ≡ stored_run (memory self.old) addr bytes.now };

    /// Reads the byte at a granted address.
    fn load(&self, addr: u32) -> u8
        requires { IsTrue (granted (chunks_of (memory self.now)) addr) }
        ensures value { result ≡ byte_at (memory self.now) addr }
        ensures sound { AreBlocks (memory self.now) };

    /// How many chunks there are.
    fn pages(&self) -> usize
        ensures value { result ≡ length (memory self.now) }
        ensures sound { AreBlocks (memory self.now) };

    /// The address of a chunk and its bytes; chunks are counted from 0 in rising order.
    fn page(&self, i: usize) -> (u32, &[u8])
        requires { i < length (memory self.now) }
        ensures value { slice_get (memory self.now) i ≡ Some (record { at = result.0; bytes = result.1.now }) }
        ensures sound { AreBlocks (memory self.now) };
}
