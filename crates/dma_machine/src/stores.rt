//! Storing the bytes that were taken of a queue.

ghost use Rattle.machine_model.specs.Turns.{is_off, stored_all, stores_at, stores_from};
ghost use Rattle.page_table.specs.Blocks.{chunks_of};
ghost use Rattle.machine_model.specs.Paths.{range_cause, written_cause};
ghost use Rattle.std.specs.Prelude.{◌≡◌, ◌+◌, ◌<◌, ◌≤◌, length, None};

use page_ram::Ram;

/// Whether the lane of a DWORD is off.
#[inline]
fn is_off(off: u8, lane: u8) -> bool
    requires { lane < 8 }
    ensures { result ≡ is_off off lane }
{
    (off >> lane) % 2 == 1
}

/// Stores bytes that lie in the lanes from `lane` on, save those whose lane is off, and answers how many
/// it stored.
#[cold]
#[inline(never)]
fn store_from<R: Ram>(ram: &mut R, off: u8, mut lane: u8, mut address: u64, bytes: &[u8]) -> u64
    requires lanes { lane + length bytes.now ≤ 4 }
    requires granted { written_cause (chunks_of (R.memory ram.old)) address (length bytes.now) ≡ None }
    ensures memory { R.memory ram.new ≡ stored_all (R.memory ram.old) (stores_from off lane address bytes.now) }
    ensures stored { result ≡ length (stores_from off lane address bytes.now) }
{
    let mut stored = 0;
    for byte in bytes {
        if !is_off(off, lane) {
            ram.store(address as u32, *byte);
            stored += 1;
        }
        lane += 1;
        address += 1;
    }
    stored
}

/// Stores bytes where no lane is off, and answers how many they are.
#[inline(always)]
fn store_all<R: Ram>(ram: &mut R, lane: u8, address: u64, bytes: &[u8]) -> u64
    requires { written_cause (chunks_of (R.memory ram.old)) address (length bytes.now) ≡ None }
    ensures memory { R.memory ram.new ≡ stored_all (R.memory ram.old) (stores_from 0 lane address bytes.now) }
    ensures stored { result ≡ length (stores_from 0 lane address bytes.now) }
{
    if bytes.is_empty() {
        return 0;
    }
    ram.store_run(address as u32, bytes);
    bytes.len() as u64
}

/// Stores bytes from an address on, or none where there is no address.
#[inline(always)]
pub fn store_at<R: Ram>(ram: &mut R, address: Option<u64>, off: u8, lane: u8, bytes: &[u8]) -> u64
    requires lanes { lane + length bytes.now ≤ 4 }
    requires granted { range_cause (chunks_of (R.memory ram.old)) address (length bytes.now) ≡ None }
    ensures memory { R.memory ram.new ≡ stored_all (R.memory ram.old) (stores_at address off lane bytes.now) }
    ensures stored { result ≡ length (stores_at address off lane bytes.now) }
{
    match address {
        Some(address) if off == 0 => store_all(ram, lane, address, bytes),
        Some(address) => store_from(ram, off, lane, address, bytes),
        None => 0,
    }
}

/// Stores bytes one behind the other from an address on, or none where there is no address.
#[inline(always)]
pub fn store_run_at<R: Ram>(ram: &mut R, address: Option<u64>, bytes: &[u8]) -> u64
    requires { range_cause (chunks_of (R.memory ram.old)) address (length bytes.now) ≡ None }
    ensures memory { R.memory ram.new ≡ stored_all (R.memory ram.old) (stores_at address 0 0 bytes.now) }
    ensures stored { result ≡ length (stores_at address 0 0 bytes.now) }
{
    match address {
        Some(address) => store_all(ram, 0, address, bytes),
        None => 0,
    }
}
