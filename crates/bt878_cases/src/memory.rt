// Memories of the most pages there can be.
ghost use Rattle.std.specs.Prelude.{◌≡◌, ◌<◌, length};

use page_ram::{MapRam, PageRam, Ram};
use page_table::PageSet;
use std::test::Fail;

/// Writes the first byte of a chunk; whether it reads back.
fn exchange<R: Ram>(ram: &mut R, chunk: usize, byte: u8) -> bool
    requires { chunk < length (R.memory ram.old) }
    ensures { length (R.memory ram.new) ≡ length (R.memory ram.old) }
{
    let (addr, _) = ram.page(chunk);
    ram.store(addr, byte);
    ram.load(addr) == byte
}

/// Writes the first byte of each chunk, in an order that jumps about.
fn exchange_all<R: Ram>(ram: &mut R) -> bool {
    let count = ram.pages();
    let mut same = true;
    for k in 0..count {
        let chunk = k.wrapping_mul(2731) % count;
        same &= exchange(ram, chunk, (chunk % 251) as u8);
    }
    same
}

/// Whether a memory has that byte in front of each chunk, and the fill behind it.
fn is_exchanged<R: Ram>(ram: &R, fill: u8) -> bool {
    for chunk in 0..ram.pages() {
        let (_, bytes) = ram.page(chunk);
        if bytes.first() != Some(&((chunk % 251) as u8)) || bytes.get(1) != Some(&fill) {
            return false;
        }
    }
    true
}

#[test]
fn pages_in_any_order(rt: HostRuntime) -> Result<(), Fail> {
    let mut pages: Vec<u32> = Vec::new(rt.alloc());
    for k in 0..4096u32 {
        pages.push(0x1000_0000 + 0x2000 * (k * 1365 % 4096))?;
    }
    let grants = PageSet::from_list(rt.alloc(), &pages)?;
    let mut raw = PageRam::new(rt.alloc(), &grants, 7)?;
    let mut map = MapRam::new(rt.alloc(), &grants, 7)?;
    assert!(rt; exchange_all(&mut raw) && is_exchanged(&raw, 7));
    assert!(rt; exchange_all(&mut map) && is_exchanged(&map, 7));
    assert_eq!(rt; raw.pages(), 4096);
    Ok(())
}
