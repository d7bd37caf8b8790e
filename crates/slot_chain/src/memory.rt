//! The memory of two descriptions.

ghost use Rattle.std.specs.Prelude.{◌≡◌, ◌<◌, false, length, IfErr, IfOk, IfSome, None, OnOk};
ghost use Rattle.std.specs.List.{list_any, position};
ghost use Rattle.page_table.specs.Grants.{chunk};
ghost use Rattle.page_table.specs.Taken.{in_order, listed, pair_chunk, shares};
ghost use Rattle.picture_model.specs.Described.{memory_of};
ghost use Rattle.planar_plan.specs.Frames.{IsFramed};
ghost use Rattle.slot_chain.specs.Faults.{Refuses, are_too_many, memory_fault, shared_chunk};
ghost use Rattle.slot_chain.specs.Pairs.{memory_of_two};

use crate::faults::DoubleBufferError;
use capture_desc::Desc;
use chain_model::ChainFault;
use page_table::{PageFault, PageSet, whole_pages};
use planar_plan::Frame;
use std::alloc::{AllocError, Global};

/// The pages or chunks of a description, in its order: their addresses and lengths.
fn memory_of(alloc: Global, desc: &Desc) -> Result<Vec<(u32, u32)>, AllocError>
    ensures { IfOk result (λ pairs. listed pairs.items ≡ memory_of desc.now) }
{
    match &desc.chunks {
        None => Ok(whole_pages(alloc, desc.pages.as_slice())?),
        Some(chunks) => copied(alloc, chunks.as_slice()),
    }
}

fn copied(alloc: Global, chunks: &[(u32, u32)]) -> Result<Vec<(u32, u32)>, AllocError>
    ensures { IfOk result (λ pairs. pairs.items ≡ chunks.now) }
{
    Vec::from_slice(alloc, chunks)
}

/// Whether two chunks share a byte.
fn shares(at: u32, len: u32, other: (u32, u32)) -> bool
    ensures { result ≡ shares (chunk at len) (pair_chunk other) }
{
    u64::from(at) < u64::from(other.0) + u64::from(other.1)
        && u64::from(other.0) < u64::from(at) + u64::from(len)
}

/// Whether a chunk shares a byte with one of others.
fn meets(chunks: &[(u32, u32)], at: u32, len: u32) -> bool
    ensures { result ≡ list_any (λ other. shares (chunk at len) (pair_chunk other)) chunks.now }
{
    chunks.iter().any(|other| shares(at, len, *other))
}

/// The number of the first of the second chunks that shares a byte with one of the first.
fn first_shared(first: &[(u32, u32)], second: &[(u32, u32)]) -> Option<usize>
    ensures found { result ≡ position (λ pair. list_any (λ other. shares (pair_chunk pair) (pair_chunk other)) first.now) second.now }
    ensures within { IfSome result (λ number. number < length second.now) }
{
    second.iter().position(|pair| meets(first, pair.0, pair.1))
}

/// The chunks of both descriptions in rising order, which the chain may write.
pub(crate) fn grants_of_both(
    alloc: Global,
    first: &Frame,
    second: &Frame,
) -> Result<PageSet, DoubleBufferError>
    ensures apart { IfOk result (λ _. shared_chunk first.now second.now ≡ None) }
    ensures few { IfOk result (λ _. are_too_many first.now second.now ≡ false) }
    ensures granted { IfOk result (λ grants. grants ≡ in_order (memory_of_two first.now second.now)) }
    ensures refused { IfErr result (Refuses (memory_fault first.now second.now)) }
    ensures framed { OnOk result (IsFramed first.now × IsFramed second.now) }
{
    let mut both = memory_of(alloc, first.desc())?;
    let later = memory_of(alloc, second.desc())?;
    if let Some(number) = first_shared(&both, &later) {
        return Err(DoubleBufferError::Fault(ChainFault::Shared(number as u32)));
    }
    both.extend_from_slice(&later)?;
    match PageSet::from_chunks(alloc, &both) {
        Ok(grants) => Ok(grants),
        Err(PageFault::TooMany) => Err(DoubleBufferError::Fault(ChainFault::TooMany)),
        Err(PageFault::Memory) => Err(DoubleBufferError::Memory),
        Err(PageFault::Unaligned(_)) => unreachable!(),
        Err(PageFault::Twice(_)) => unreachable!(),
    }
}
