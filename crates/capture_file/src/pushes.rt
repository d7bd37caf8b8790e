//! Pushes with no turns between them.

ghost use Rattle.capture_file.specs.Pairs.{push_tag};
ghost use Rattle.capture_file.specs.Pushes.{ArePlainPushes, NoPlainPush, counts_of, place_of};
ghost use Rattle.fifo_model.specs.declared.Entry.{Entry};
ghost use Rattle.fifo_model.specs.declared.Queue.{Queue as QueueOf};
ghost use Rattle.std.specs.Prelude.{◌≡◌, ◌*◌, ◌<◌, ◌≤◌, IfNone, IfSome, List, drop, length, slice_index};

use super::tags;
use byteorder::{ByteOrder, LittleEndian};

/// The bytes of a data push.
const PUSH: usize = 6;

/// The place among the three of the queue of the push at the front of some bytes, where it is one of four valid bytes. Its tag and its
/// status, which is 0, are read as one number, and no branch asks for the queue, since it may change with each push.
#[inline(always)]
fn place_at(bytes: &[u8]) -> Option<usize>
    requires { 2 ≤ length bytes.now }
    ensures some { IfSome result (λ place. (queue : QueueOf) × (place ≡ place_of queue)
        × (slice_index bytes.now 0 ≡ push_tag queue) × (slice_index bytes.now 1 ≡ 0)) }
    ensures three { IfSome result (λ place. place < 3) }
    ensures none { IfNone result ((queue : QueueOf) → slice_index bytes.now 0 ≡ push_tag queue → slice_index bytes.now 1 ≡ 0 → ⊥) }
{
    let head = LittleEndian::read_u16(bytes);
    if head < u16::from(tags::PUSH_ONE) || head > u16::from(tags::PUSH_THREE) {
        return None;
    }
    Some(usize::from(head - u16::from(tags::PUSH_ONE)))
}

/// Counts the data pushes of plain entries at the front of a piece: how many, and how many to each queue.
#[inline(never)]
pub fn count_pushes(piece: &[u8]) -> (usize, [usize; 3])
    ensures there { (pushes : List (QueueOf × Entry)) × ArePlainPushes piece.now pushes × (length pushes ≡ result.0)
        × (counts_of pushes ≡ result.1) }
    ensures within { 6 * result.0 ≤ length piece.now }
    ensures all { NoPlainPush (drop (6 * result.0) piece.now) }
{
    let most = piece.len() / PUSH;
    let mut counts = [0; 3];
    let mut count = 0;
    while count < most {
        let Some(place) = place_at(&piece[PUSH * count..]) else {
            return (count, counts);
        };
        counts[place] += 1;
        count += 1;
    }
    (count, counts)
}
