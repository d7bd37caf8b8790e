// Both memories, under the same stores.
ghost use Rattle.std.specs.Prelude.{◌≡◌, ◌+◌, ◌^◌, ◌≤◌, length, IsTrue, None};
ghost use Rattle.std.specs.List.{All};
ghost use Rattle.page_table.specs.Grants.{first_ungranted, granted};
ghost use Rattle.page_table.specs.Blocks.{chunks_of};

use page_ram::{MapRam, PageRam, Ram};
use page_table::PageSet;
use std::test::Fail;

// Writes a byte and reads it back.
fn exchange<R: Ram>(ram: &mut R, addr: u32, byte: u8) -> u8
    requires { IsTrue (granted (chunks_of (R.memory ram.old)) addr) }
    ensures kept { chunks_of (R.memory ram.new) ≡ chunks_of (R.memory ram.old) }
    ensures read { result ≡ byte }
{
    ram.store(addr, byte);
    ram.load(addr)
}

// Writes bytes one behind the other.
fn write_run<R: Ram>(ram: &mut R, addr: u32, bytes: &[u8])
    requires within { addr + length bytes.now ≤ 2 ^ 32 }
    requires granted { first_ungranted (chunks_of (R.memory ram.old)) addr (length bytes.now) ≡ None }
    ensures { chunks_of (R.memory ram.new) ≡ chunks_of (R.memory ram.old) }
{
    ram.store_run(addr, bytes);
}

// Writes a list of bytes, each read back at once; whether each was read as it was written.
fn exchange_all<R: Ram>(ram: &mut R, stores: &[(u32, u8)]) -> bool
    requires { All (λ store. IsTrue (granted (chunks_of (R.memory ram.old)) store.0)) stores.now }
    ensures kept { chunks_of (R.memory ram.new) ≡ chunks_of (R.memory ram.old) }
{
    let mut same = true;
    for &(addr, byte) in stores {
        same &= exchange(ram, addr, byte) == byte;
    }
    same
}

// Whether a chunk has this address and these bytes.
fn has_page<R: Ram>(ram: &R, i: usize, addr: u32, want: &[u8]) -> bool {
    if ram.pages() <= i {
        return false;
    }
    let (at, bytes) = ram.page(i);
    at == addr && bytes == want
}

// Whether a chunk has the same bytes in both memories.
fn is_same_page(map: &MapRam, raw: &PageRam, i: usize) -> bool {
    i < map.pages() && i < raw.pages() && map.page(i).1 == raw.page(i).1
}

// Whether a chunk has this address, and these bytes at both ends.
fn has_ends<R: Ram>(ram: &R, i: usize, addr: u32, first: u8, last: u8) -> bool {
    if ram.pages() <= i {
        return false;
    }
    let (at, bytes) = ram.page(i);
    at == addr && bytes.first() == Some(&first) && bytes.last() == Some(&last)
}

#[test]
fn pages_at_both_ends(rt: HostRuntime) -> Result<(), Fail> {
    let grants = PageSet::from_list(rt.alloc(), &[0xffff_f000, 0])?;
    let mut map = MapRam::new(rt.alloc(), &grants, 7)?;
    let mut raw = PageRam::new(rt.alloc(), &grants, 7)?;
    let stores = [
        (0, 1),
        (0xffff_ffff, 2),
        (0xfff, 3),
        (0, 4),
        (0xffff_f000, 5),
    ];
    assert!(rt; exchange_all(&mut map, &stores));
    assert!(rt; exchange_all(&mut raw, &stores));
    assert!(rt; map.load(0) == 4);
    assert!(rt; raw.load(0) == 4);
    assert!(rt; raw.load(1) == 7);
    assert!(rt; is_same_page(&map, &raw, 0) && is_same_page(&map, &raw, 1));
    assert!(rt; has_ends(&raw, 1, 0xffff_f000, 5, 2));
    Ok(())
}

#[test]
fn chunks_that_touch(rt: HostRuntime) -> Result<(), Fail> {
    let chunks = [(0x20004, 4), (0xffff_fffc, 4), (0x20000, 4)];
    let grants = PageSet::from_chunks(rt.alloc(), &chunks)?;
    let mut map = MapRam::new(rt.alloc(), &grants, 0)?;
    let mut raw = PageRam::new(rt.alloc(), &grants, 0)?;
    let stores = [
        (0x20004, 1),
        (0x20003, 2),
        (0xffff_fffc, 3),
        (0xffff_ffff, 4),
    ];
    assert!(rt; exchange_all(&mut map, &stores));
    assert!(rt; exchange_all(&mut raw, &stores));
    assert!(rt; has_page(&raw, 0, 0x20000, &[0, 0, 0, 2]));
    assert!(rt; has_page(&raw, 1, 0x20004, &[1, 0, 0, 0]));
    write_run(&mut raw, 0x20003, &[8, 9]);
    write_run(&mut raw, 0x20005, &[10, 11]);
    write_run(&mut map, 0x20003, &[8, 9, 10, 11]);
    assert!(rt; has_page(&raw, 0, 0x20000, &[0, 0, 0, 8]));
    assert!(rt; has_page(&raw, 1, 0x20004, &[9, 10, 11, 0]));
    assert!(rt; has_page(&map, 0, 0x20000, &[0, 0, 0, 8]));
    assert!(rt; has_page(&raw, 2, 0xffff_fffc, &[3, 0, 0, 4]));
    assert!(rt; has_page(&map, 1, 0x20004, &[9, 10, 11, 0]));
    Ok(())
}
