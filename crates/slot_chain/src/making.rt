//! Making a chain: its words, their place, and the sound program of each part.

ghost use Rattle.std.specs.Prelude.{◌≡◌, ◌+◌, ◌*◌, ◌<◌, ◌≤◌, ◌^◌, ◌++◌, IfErr, IfOk, OnOk, List, length, slice_set, if◌then◌else◌, nat_le};
ghost use Rattle.std.specs.Prelude.{Some, None};
ghost use Rattle.std.specs.List.{All, list_any};
ghost use Rattle.std.specs.Result.{result_err};
ghost use Rattle.page_table.specs.Grants.{Chunk, is_met};
ghost use Rattle.machine_model.specs.Paths.{IsSound, max_words, one_span};
ghost use Rattle.chain_model.specs.Chains.{Chain as ChainOf, alone, loop_words, max_parts, max_slots, patched_words, unpatched};
ghost use Rattle.chain_model.specs.Chains.{words_of_parts};
ghost use Rattle.risc_verify.specs.Verdicts.{Refuses as RefusesProgram};
ghost use Rattle.slot_chain.specs.Making.{AreAlone, IsPlaced, Refuses, RefusesPart, place_fault, refusal, word_count};
ghost use Rattle.slot_chain.specs.States.{chain_of};
ghost use Rattle.slot_chain.specs.declared.making.ChainError.TheVariants.{Memory};

use chain_model::{CHAIN_LIMIT, PartWords};
use machine_model::{Cause, MAX_WORDS};
use page_table::{PageFault, PageSet};
use risc_verify::{Accepted, Program, Steps, Why, verify};
use std::alloc::{AllocError, Global};
use std::sync::ledger::Ledger;

/// Why no chain is made, in the order in which it is checked (this project's own rule).
#[derive(Clone, Copy, Debug, PartialEq)]
pub enum ChainError {
    /// The base is no multiple of 4.
    Base,
    /// The chain has more words than a program may have, or ends above 0x10000000.
    TooLong,
    /// The chain shares a byte with the memory that it may write.
    OnPage,
    /// With the part of that number alone patched in the program isn't sound: the first such part, with the address, the
    /// number and the cause of the first place of its path that isn't fine.
    Bad {
        part: u32,
        at: u64,
        nth: u64,
        cause: Cause,
    },
    /// Out of memory.
    Memory,
}

impl From<AllocError> for ChainError {
    ghost from_gives = { λ _ error. error ≡ Memory };

    fn from(_error: AllocError) -> ChainError {
        ChainError::Memory
    }
}

/// The first word of a JUMP without control bits.
const JUMP: u32 = 0x7000_0000;

/// How many words a chain has; none where there are more than a program may have.
fn count_words(slots: u32, parts: &[PartWords]) -> Option<u32>
    requires { slots ≤ max_slots }
    ensures { result ≡ (if nat_le (2 * slots + 2 + length (words_of_parts parts.now)) max_words
        then Some (2 * slots + 2 + length (words_of_parts parts.now)) else None) }
{
    let mut count = 2 * slots + 2;
    for part in parts {
        let len = part.words.as_slice().len();
        if len > (MAX_WORDS - count) as usize {
            return None;
        }
        count += len as u32;
    }
    Some(count)
}

/// Appends the JUMPs of the slots, each to the next one, and the JUMP to the base.
fn push_loop(base: u32, slots: u32, out: &mut Vec<u32>) -> Result<(), AllocError>
    requires { base + 8 * (slots + 1) < 2 ^ 32 }
    ensures { OnOk result ((chain : ChainOf) → chain.base ≡ base → chain.slots ≡ slots →
        out.new.items ≡ out.old.items ++ loop_words chain 0 (unpatched chain)) }
{
    for slot in 0..slots {
        out.push(JUMP)?;
        out.push(base + 8 * (slot + 1))?;
    }
    out.push(JUMP)?;
    out.push(base)?;
    Ok(())
}

/// Appends the words of the parts.
fn push_parts(parts: &[PartWords], out: &mut Vec<u32>) -> Result<(), AllocError>
    ensures { OnOk result (out.new.items ≡ out.old.items ++ words_of_parts parts.now) }
{
    for part in parts {
        out.extend_from_slice(part.words.as_slice())?;
    }
    Ok(())
}

/// The words with another target at a slot.
fn retargeted(alloc: Global, words: &[u32], slot: u32, target: u32) -> Result<Vec<u32>, AllocError>
    requires within { 2 * slot + 1 < length words.now }
    requires small { slot ≤ max_slots }
    ensures { IfOk result (λ changed. changed.items ≡ slice_set words.now (2 * slot + 1) target) }
{
    let mut changed = Vec::from_slice(alloc, words)?;
    changed[2 * slot as usize + 1] = target;
    Ok(changed)
}

/// Whether so many words from an address on share a byte with a chunk.
fn meets_chunks(base: u32, count: u32, grants: &PageSet) -> bool
    ensures { result ≡ list_any (is_met base (base + 4 * count)) grants.now }
{
    grants.meets(base, u64::from(base) + 4 * u64::from(count))
}

/// Checks where a chain is.
fn judge_place(
    base: u32,
    slots: u32,
    parts: &[PartWords],
    grants: &PageSet,
) -> Result<(), ChainError>
    requires { slots ≤ max_slots }
    ensures { result_err result ≡ place_fault (chain_of base slots parts.now grants.now) }
{
    if base % 4 != 0 {
        return Err(ChainError::Base);
    }
    let count = match count_words(slots, parts) {
        Some(count) => count,
        None => return Err(ChainError::TooLong),
    };
    if u64::from(base) + 4 * u64::from(count) > CHAIN_LIMIT {
        return Err(ChainError::TooLong);
    }
    if meets_chunks(base, count, grants) {
        return Err(ChainError::OnPage);
    }
    Ok(())
}

/// The words of a chain with no part patched in.
fn empty_words(
    alloc: Global,
    base: u32,
    slots: u32,
    parts: &[PartWords],
) -> Result<Vec<u32>, AllocError>
    requires { base + 8 * (slots + 1) < 2 ^ 32 }
    ensures { IfOk result (λ words. (grants : List Chunk) → let chain = chain_of base slots parts.now grants in
        words.items ≡ patched_words chain (unpatched chain)) }
{
    let mut words = Vec::new(alloc);
    push_loop(base, slots, &mut words)?;
    push_parts(parts, &mut words)?;
    Ok(words)
}

/// A copy of some grants.
fn copy_of(alloc: Global, grants: &PageSet) -> Result<PageSet, AllocError>
    ensures { IfOk result (λ copy. copy ≡ grants.now) }
{
    match PageSet::from_chunks(alloc, grants.as_slice()) {
        Ok(copy) => Ok(copy),
        Err(PageFault::Memory) => Err(AllocError),
        Err(PageFault::TooMany) => unreachable!(),
        Err(PageFault::Unaligned(_)) => unreachable!(),
        Err(PageFault::Twice(_)) => unreachable!(),
    }
}

/// Checks the program of some words.
fn accept<L: Ledger>(
    alloc: Global,
    base: u32,
    words: Vec<u32>,
    grants: &PageSet,
    steps: &mut Steps<L>,
) -> Result<Accepted, Why>
    requires { IsPlaced base (length words.items) grants.now }
    ensures accepted { IfOk result (λ accepted. accepted ≡ one_span base words.items grants.now) }
    ensures sound { IfOk result IsSound }
    ensures refused { IfErr result (λ why. RefusesProgram (one_span base words.items grants.now) why) }
    ensures cost { (steps.old ≤ steps.new) × (steps.new ≤ steps.old + (2 * length words.items + 1)) }
{
    let copy = copy_of(alloc, grants)?;
    let program = Program::new(base, words, copy);
    match verify(alloc, program, steps) {
        Ok(accepted) => Ok(accepted),
        Err(rejected) => Err(rejected.why),
    }
}

/// Checks the program in which a slot leads to a target.
fn accept_part<L: Ledger>(
    alloc: Global,
    base: u32,
    words: &[u32],
    slot: u32,
    target: u32,
    grants: &PageSet,
    steps: &mut Steps<L>,
) -> Result<Accepted, Why>
    requires within { 2 * slot + 1 < length words.now }
    requires small { slot ≤ max_slots }
    requires placed { IsPlaced base (length words.now) grants.now }
    ensures accepted { IfOk result (λ accepted. accepted ≡ one_span base (slice_set words.now (2 * slot + 1) target) grants.now) }
    ensures sound { IfOk result IsSound }
    ensures refused { IfErr result (λ why. RefusesProgram (one_span base (slice_set words.now (2 * slot + 1) target) grants.now) why) }
    ensures cost { (steps.old ≤ steps.new) × (steps.new ≤ steps.old + (2 * length words.now + 1)) }
{
    let own = retargeted(alloc, words, slot, target)?;
    accept(alloc, base, own, grants, steps)
}

/// What is reported of a part whose program isn't accepted.
fn refusal(part: u32, why: Why) -> ChainError
    ensures { result ≡ refusal part why }
{
    match why {
        Why::Bad { at, nth, cause } => ChainError::Bad {
            part,
            at,
            nth,
            cause,
        },
        Why::Memory => ChainError::Memory,
    }
}

/// The sound programs of the parts, each of which is patched in alone, or the first part whose program isn't sound.
fn accept_parts<L: Ledger>(
    alloc: Global,
    base: u32,
    slots: u32,
    words: &[u32],
    parts: &[PartWords],
    grants: &PageSet,
    steps: &mut Steps<L>,
) -> Result<Vec<Accepted>, ChainError>
    requires slots { slots ≤ max_slots }
    requires parts { length parts.now ≤ max_parts }
    requires belong { All (λ part. part.slot < slots) parts.now }
    requires words { let chain = chain_of base slots parts.now grants.now in words.now ≡ patched_words chain (unpatched chain) }
    requires placed { IsPlaced base (length words.now) grants.now }
    ensures programs { IfOk result (λ programs. AreAlone (chain_of base slots parts.now grants.now) programs.items) }
    ensures refused { IfErr result (RefusesPart (chain_of base slots parts.now grants.now)) }
    ensures cost { (steps.old ≤ steps.new) × (steps.new ≤ steps.old + length parts.now * (2 * length words.now + 1)) }
{
    let mut programs = Vec::new(alloc);
    let mut head = base + 8 * (slots + 1);
    for part in parts {
        let accepted = match accept_part(alloc, base, words, part.slot, head, grants, steps) {
            Ok(accepted) => accepted,
            Err(why) => return Err(refusal(programs.len() as u32, why)),
        };
        match programs.push(accepted) {
            Ok(()) => {}
            Err(_) => return Err(ChainError::Memory),
        }
        head += 4 * part.words.as_slice().len() as u32;
    }
    Ok(programs)
}

/// The sound programs that the words of a chain are.
#[derive(Drop)]
pub(crate) struct Programs {
    /// The one with no part patched in.
    pub empty: Accepted,
    /// Those in which each part alone is patched in, in the order of the parts.
    pub with_part: Vec<Accepted>,
}

/// Checks a chain: its place, and then the program of each part. The verifier's steps are counted.
pub(crate) fn judge_chain<L: Ledger>(
    alloc: Global,
    base: u32,
    slots: u32,
    parts: &[PartWords],
    grants: &PageSet,
    steps: &mut Steps<L>,
) -> Result<Programs, ChainError>
    requires slots { slots ≤ max_slots }
    requires parts { length parts.now ≤ max_parts }
    requires belong { All (λ part. part.slot < slots) parts.now }
    ensures placed { IfOk result (λ _. place_fault (chain_of base slots parts.now grants.now) ≡ None) }
    ensures empty { IfOk result (λ programs. programs.empty ≡ alone (chain_of base slots parts.now grants.now) None) }
    ensures with_part { IfOk result (λ programs. AreAlone (chain_of base slots parts.now grants.now) programs.with_part.items) }
    ensures refused { IfErr result (Refuses (chain_of base slots parts.now grants.now)) }
    ensures cost { (steps.old ≤ steps.new)
        × (steps.new ≤ steps.old + (length parts.now + 1) * (2 * word_count (chain_of base slots parts.now grants.now) + 1)) }
{
    judge_place(base, slots, parts, grants)?;
    let words = empty_words(alloc, base, slots, parts)?;
    let with_part = accept_parts(alloc, base, slots, &words, parts, grants, steps)?;
    match accept(alloc, base, words, grants, steps) {
        Ok(empty) => Ok(Programs { empty, with_part }),
        Err(Why::Memory) => Err(ChainError::Memory),
        // without parts the slots lead on and round, so their program is sound
        Err(Why::Bad { .. }) => unreachable!(),
    }
}
