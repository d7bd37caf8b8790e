//! Pairs of records, of which most streams are made: a push of four valid pixel bytes, and turns behind it.

ghost use Rattle.capture_file.specs.Pairs.{AreAll, AreCopied, IsPair, NoPair, push_tag};
ghost use Rattle.capture_file.specs.Streams.{most_turns};
ghost use Rattle.machine_model.specs.PlainEntries.{plain_entry};
ghost use Rattle.std.specs.Prelude.{◌≡◌, ◌+◌, ◌-◌, ◌*◌, ◌≤◌, IfNone, IfSome, IsFalse, IsTrue, List, length, slice_index, ℕ};

use super::tags;
use super::writing::spell_one;
use byteorder::{ByteOrder, LittleEndian};
use fifo_model::{Entry, Queue};
use sync_status::Status;

/// The bytes of a pair of records: a data push, and the turns behind it.
pub const PAIR: usize = 11;

/// The status of an entry of four valid pixel bytes within a line.
const PIXELS_VALID: u8 = 0;

#[inline(always)]
fn push_tag(queue: Queue) -> u8
    ensures { result ≡ push_tag queue }
{
    match queue {
        Queue::One => tags::PUSH_ONE,
        Queue::Two => tags::PUSH_TWO,
        Queue::Three => tags::PUSH_THREE,
    }
}

/// Whether some bytes begin with a push to the queue and the status PixelsValid, which is 0. Both are read as one number.
#[inline(always)]
fn is_valid_push(queue: Queue, bytes: &[u8]) -> bool
    requires { 2 ≤ length bytes.now }
    ensures yes { IsTrue result → (slice_index bytes.now 0 ≡ push_tag queue) × (slice_index bytes.now 1 ≡ 0) }
    ensures no { IsFalse result → slice_index bytes.now 0 ≡ push_tag queue → slice_index bytes.now 1 ≡ 0 → ⊥ }
{
    LittleEndian::read_u16(bytes) == u16::from(push_tag(queue))
}

/// The DWORD and the turns of the pair at the front of some bytes, where so many turns are left to the stream. The bytes begin with a push
/// of four valid bytes.
#[inline(always)]
fn dword_and_turns(left: u32, bytes: &[u8]) -> Option<(u32, u32)>
    requires few { left ≤ most_turns }
    requires whole { 11 ≤ length bytes.now }
    ensures pair { IfSome result (λ pair. (queue : Queue) → slice_index bytes.now 0 ≡ push_tag queue → slice_index bytes.now 1 ≡ 0
        → IsPair queue (most_turns - left) bytes.now pair.0 pair.1) }
    ensures left { IfSome result (λ pair. pair.1 ≤ left) }
    ensures none { IfNone result ((queue : Queue) → NoPair queue (most_turns - left) bytes.now) }
{
    if bytes[6] != tags::TURNS {
        return None;
    }
    let dword = LittleEndian::read_u32(&bytes[2..]);
    let turns = LittleEndian::read_u32(&bytes[7..]);
    if turns == 0 || turns > left {
        return None;
    }
    Some((dword, turns))
}

/// The DWORD and the turns of the pair of a queue at the front of some bytes, where so many turns are left to the stream.
#[inline(always)]
fn pair_at(queue: Queue, left: u32, bytes: &[u8]) -> Option<(u32, u32)>
    requires few { left ≤ most_turns }
    requires whole { 11 ≤ length bytes.now }
    ensures pair { IfSome result (λ pair. IsPair queue (most_turns - left) bytes.now pair.0 pair.1) }
    ensures left { IfSome result (λ pair. pair.1 ≤ left) }
    ensures none { IfNone result (NoPair queue (most_turns - left) bytes.now) }
{
    if !is_valid_push(queue, bytes) {
        return None;
    }
    dword_and_turns(left, bytes)
}

/// The queue of the push at the front of some bytes, where it is one of four valid bytes.
#[inline(always)]
fn valid_push(bytes: &[u8]) -> Option<Queue>
    requires { 2 ≤ length bytes.now }
    ensures some { IfSome result (λ queue. (slice_index bytes.now 0 ≡ push_tag queue) × (slice_index bytes.now 1 ≡ 0)) }
    ensures none { IfNone result ((queue : Queue) → slice_index bytes.now 0 ≡ push_tag queue → slice_index bytes.now 1 ≡ 0 → ⊥) }
{
    if bytes[1] != PIXELS_VALID {
        return None;
    }
    match bytes[0] {
        tags::PUSH_ONE => Some(Queue::One),
        tags::PUSH_TWO => Some(Queue::Two),
        tags::PUSH_THREE => Some(Queue::Three),
        _ => None,
    }
}

/// The pair at the front of some bytes, of whichever queue, where so many turns are left to the stream.
#[inline(always)]
pub fn any_pair_at(left: u32, bytes: &[u8]) -> Option<(Queue, Entry, u32)>
    requires { left ≤ most_turns }
    ensures pair { IfSome result (λ pair. IsPair pair.0 (most_turns - left) bytes.now pair.1.dword pair.2) }
    ensures plain { IfSome result (λ pair. pair.1 ≡ plain_entry pair.1.dword) }
    ensures left { IfSome result (λ pair. pair.2 ≤ left) }
    ensures none { IfNone result ((queue : Queue) → NoPair queue (most_turns - left) bytes.now) }
{
    if bytes.len() < PAIR {
        return None;
    }
    let Some(queue) = valid_push(bytes) else {
        return None;
    };
    let (dword, turns) = dword_and_turns(left, bytes)?;
    let entry = Entry {
        status: Status::of(PIXELS_VALID),
        dword,
    };
    Some((queue, entry, turns))
}

/// Copies the DWORDs of the pairs of a queue at the front of a piece side by side, as many as are there and have room, where so many
/// turns are left to the stream. How many pairs, and the sum of their turns.
#[inline(never)]
pub fn copy_pairs(queue: Queue, left: u32, piece: &[u8], dwords: &mut [u8]) -> (usize, u32)
    requires { left ≤ most_turns }
    ensures copied { (pairs : List (ℕ × ℕ)) × AreCopied queue (most_turns - left) result.0 result.1 piece.now dwords.new pairs }
    ensures within { 11 * result.0 ≤ length piece.now }
    ensures room { 4 * result.0 ≤ length dwords.new }
    ensures few { result.1 ≤ left }
    ensures all { AreAll queue (most_turns - left + result.1) result.0 piece.now (length dwords.new) }
{
    let most = (dwords.len() / 4).min(piece.len() / PAIR);
    let mut rest = left;
    let mut count = 0;
    while count < most {
        let Some((dword, turns)) = pair_at(queue, rest, &piece[PAIR * count..]) else {
            return (count, left - rest);
        };
        spell_one(dword, dwords, 4 * count);
        rest -= turns;
        count += 1;
    }
    (count, left - rest)
}
