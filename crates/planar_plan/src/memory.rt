//! The pages or chunks of a description.

ghost use Rattle.std.specs.Prelude.{◌≡◌, ℕ, ◌^◌, ◌<◌, [], map, IfOk, None, Some};
ghost use Rattle.std.specs.List.{All};
ghost use Rattle.page_table.specs.Scattered.{AreChunks, ArePages, IsScatterList, scatter_list};
ghost use Rattle.page_table.specs.Taken.{Answers, first_shared, in_order, listed, page_at};
ghost use Rattle.capture_desc.specs.WellFormed.{IsWellFormed};
ghost use Rattle.picture_model.specs.Described.{memory_of};
ghost use Rattle.picture_model.specs.Geometry.{first_after, first_missing, first_unaligned, page_faults};
ghost use Rattle.planar_plan.specs.Frames.{Judges, taken_memory};

use crate::judge::BuildError;
use capture_desc::{ChunkList, Desc};
use page_table::{PageFault, PageSet, Scatter, ScatterFault};
use picture_model::BuildFault;
use std::alloc::{AllocError, Global};

// The pages or chunks as grants, or their fault.
fn taken_memory(
    alloc: Global,
    chunks: &Option<ChunkList>,
    pages: &[u32],
) -> Result<PageSet, PageFault>
    ensures answer { Answers (taken_memory chunks.now pages.now) result }
    ensures pages { All (λ page. page < 2 ^ 32) pages.now }
{
    match chunks {
        None => PageSet::from_list(alloc, pages),
        Some(chunks) => PageSet::from_chunks(alloc, chunks.as_slice()),
    }
}

// Checks the pages or chunks each for itself and against those before it.
pub(crate) fn page_faults(alloc: Global, desc: &Desc) -> Result<(), BuildError>
    requires { IsWellFormed desc.now }
    ensures answer { Judges (first_after None page_faults desc.now) result }
    ensures aligned { IfOk result (λ _. first_unaligned desc.now.chunks desc.now.pages ≡ None) }
    ensures apart { IfOk result (λ _. first_shared [] (memory_of desc.now) ≡ None) }
    ensures pages { All (λ page. page < 2 ^ 32) desc.now.pages }
{
    match taken_memory(alloc, &desc.chunks, desc.pages.as_slice()) {
        Ok(_) => Ok(()),
        Err(PageFault::Unaligned(place)) => {
            Err(BuildError::Bad(BuildFault::PageUnaligned(place)))
        }
        Err(PageFault::Twice(place)) => Err(BuildError::Bad(BuildFault::PageTwice(place))),
        Err(PageFault::TooMany) => unreachable!(),
        Err(PageFault::Memory) => Err(BuildError::Memory),
    }
}

// The pages or chunks of a description as grants.
pub(crate) fn grants(alloc: Global, desc: &Desc) -> Result<PageSet, AllocError>
    requires formed { IsWellFormed desc.now }
    requires aligned { first_unaligned desc.now.chunks desc.now.pages ≡ None }
    requires apart { first_shared [] (memory_of desc.now) ≡ None }
    ensures { IfOk result (λ grants. grants ≡ in_order (memory_of desc.now)) }
{
    match taken_memory(alloc, &desc.chunks, desc.pages.as_slice()) {
        Ok(grants) => Ok(grants),
        Err(PageFault::Memory) => Err(AllocError),
        Err(PageFault::TooMany) => unreachable!(),
        Err(PageFault::Unaligned(_)) => unreachable!(),
        Err(PageFault::Twice(_)) => unreachable!(),
    }
}

fn over_pages(alloc: Global, pages: &[u32], len: u64) -> Result<Scatter, BuildError>
    requires { ArePages pages.now }
    ensures answer { Judges (first_missing None pages.now len) result }
    ensures list { IfOk result (λ scatter. scatter ≡ scatter_list (map page_at pages.now) len) }
    ensures sound { IfOk result IsScatterList }
{
    match Scatter::new(alloc, pages, len) {
        Ok(scatter) => Ok(scatter),
        Err(ScatterFault::TooFew { need, have }) => {
            Err(BuildError::Bad(BuildFault::TooFewPages { need, have }))
        }
        Err(ScatterFault::Memory) => Err(BuildError::Memory),
    }
}

fn over_chunks(alloc: Global, chunks: &[(u32, u32)], len: u64) -> Result<Scatter, BuildError>
    requires { AreChunks chunks.now }
    ensures answer { Judges (first_missing (Some chunks.now) [] len) result }
    ensures list { IfOk result (λ scatter. scatter ≡ scatter_list (listed chunks.now) len) }
    ensures sound { IfOk result IsScatterList }
{
    match Scatter::of_chunks(alloc, chunks, len) {
        Ok(scatter) => Ok(scatter),
        Err(ScatterFault::TooFew { need, have }) => {
            Err(BuildError::Bad(BuildFault::TooFewBytes { need, have }))
        }
        Err(ScatterFault::Memory) => Err(BuildError::Memory),
    }
}

// So many bytes over the pages or chunks.
pub(crate) fn scatter(alloc: Global, desc: &Desc, len: u64) -> Result<Scatter, BuildError>
    requires aligned { first_unaligned desc.now.chunks desc.now.pages ≡ None }
    requires apart { first_shared [] (memory_of desc.now) ≡ None }
    ensures answer { Judges (first_missing desc.now.chunks desc.now.pages len) result }
    ensures list { IfOk result (λ scatter. scatter ≡ scatter_list (memory_of desc.now) len) }
    ensures sound { IfOk result IsScatterList }
{
    match &desc.chunks {
        None => over_pages(alloc, desc.pages.as_slice(), len),
        Some(chunks) => over_chunks(alloc, chunks.as_slice(), len),
    }
}
