//! Bytes written one by one.
ghost use Rattle.std.specs.Prelude.{◌≡◌, ◌+◌, ◌^◌, ◌≤◌, List, IsTrue, length, None};
ghost use Rattle.page_table.specs.Grants.{first_ungranted, granted};
ghost use Rattle.page_table.specs.Blocks.{AreBlocks, Block, chunks_of, stored, stored_run};

/// Memory that takes a byte at a time.
pub(crate) trait ByteStore {
    ghost bytes: { Self → List Block };

    /// Writes one byte at a granted address.
    fn store_byte(&mut self, addr: u32, byte: u8)
        requires { IsTrue (granted (chunks_of (bytes self.old)) addr) }
        ensures stored { bytes self.new ≡ stored (bytes self.old) addr byte }
        ensures sound { AreBlocks (bytes self.new) };
}

/// Writes bytes at the granted addresses from `addr` on.
#[cold]
#[inline(never)]
pub(crate) fn store_each<S: ByteStore>(ram: &mut S, addr: u32, bytes: &[u8])
    requires within { addr + length bytes.now ≤ 2 ^ 32 }
    requires granted { first_ungranted (chunks_of (S.bytes ram.old)) addr (length bytes.now) ≡ None }
    ensures { S.bytes ram.new ≡ stored_run (S.bytes ram.old) addr bytes.now }
{
    let mut address = u64::from(addr);
    for byte in bytes {
        ram.store_byte(address as u32, *byte);
        address += 1;
    }
}
