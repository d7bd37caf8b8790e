//! The parts that capture the fields of a description, and those of two descriptions in their chain.

ghost use Rattle.std.specs.Prelude.{◌≡◌, ◌+◌, ◌*◌, ◌%◌, ◌≤◌, ◌<◌, true, IfErr, IfOk, OnOk, length};
ghost use Rattle.chain_model.specs.Chains.{chain_limit};
ghost use Rattle.picture_model.specs.Described.{IsDescription};
ghost use Rattle.picture_model.specs.Programs.{sections_words};
ghost use Rattle.slot_chain.specs.Fragments.{IsBeyond, IsLong};
ghost use Rattle.slot_chain.specs.Pairs.{after_slot, fragment_of, fragments_of_two};

use crate::faults::DoubleBufferError;
use capture_desc::Numbers;
use chain_model::{CHAIN_LIMIT, ChainFault, PartWords};
use planar_plan::Frame;
use program_build::sections_words;
use std::alloc::{AllocError, Global};

/// The slots of a double buffer.
pub(crate) const SLOTS: u32 = 2;

/// The words of a frame's sections from the address `at` on, of which the last leads back to the address `back`:
/// one section for each described field, the top one first (this project's own rule). How many words they have depends on
/// the frame alone.
pub fn fragment(alloc: Global, frame: &Frame, at: u32, back: u32) -> Result<Numbers, AllocError>
    requires aligned { at % 4 ≡ 0 }
    requires low { at ≤ chain_limit }
    ensures words { IfOk result (λ words. words ≡ sections_words frame.now at back) }
    ensures few { IfOk result (λ words. length words < 500000) }
    ensures description { OnOk result (IsDescription frame.now) }
{
    // the call brings in what each frame keeps
    let _desc = frame.desc();
    let words = sections_words(alloc, frame, at, back)?;
    Ok(Numbers::from_vec(words))
}

/// The fragment of a frame for a slot, at an address behind the slots.
fn fragment_at(
    alloc: Global,
    frame: &Frame,
    base: u32,
    slot: u32,
    at: u64,
) -> Result<PartWords, DoubleBufferError>
    requires aligned { at % 4 ≡ 0 }
    requires behind { base + 24 ≤ at }
    requires slot { slot < 2 }
    ensures part { IfOk result (λ part. part ≡ fragment_of base at slot frame.now) }
    ensures few { IfOk result (λ part. length part.words < 500000) }
    ensures low { OnOk result (at ≤ chain_limit) }
    ensures description { OnOk result (IsDescription frame.now) }
    ensures beyond { IfErr result (IsBeyond at) }
{
    if at > CHAIN_LIMIT {
        return Err(DoubleBufferError::Fault(ChainFault::TooLong));
    }
    let back = base + 8 * (slot + 1);
    let words = fragment(alloc, frame, at as u32, back)?;
    Ok(PartWords { slot, words })
}

/// The address behind a part that is at an address.
fn behind(at: u64, part: &PartWords) -> u64
    requires low { at ≤ chain_limit }
    requires few { length part.now.words < 500000 }
    ensures { result ≡ at + 4 * length part.now.words }
{
    at + 4 * part.words.as_slice().len() as u64
}

/// The parts of the chain: for each slot the fragment of the first description, and then that of the second.
pub(crate) fn fragments_of_two(
    alloc: Global,
    first: &Frame,
    second: &Frame,
) -> Result<Vec<PartWords>, DoubleBufferError>
    requires aligned { first.now.base % 4 ≡ 0 }
    ensures parts { IfOk result (λ parts. parts.items ≡ fragments_of_two first.now second.now) }
    ensures first { OnOk result (IsDescription first.now) }
    ensures second { OnOk result (IsDescription second.now) }
    ensures long { IfErr result (IsLong first.now second.now) }
{
    let base = first.desc().base;
    let at = u64::from(base) + 8 * u64::from(SLOTS + 1);
    let one = fragment_at(alloc, first, base, 0, at)?;
    let at = behind(at, &one);
    let two = fragment_at(alloc, second, base, 0, at)?;
    let at = behind(at, &two);
    let three = fragment_at(alloc, first, base, 1, at)?;
    let at = behind(at, &three);
    let four = fragment_at(alloc, second, base, 1, at)?;
    Ok(Vec::from_array(alloc, [one, two, three, four])?)
}
