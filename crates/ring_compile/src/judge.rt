//! The faults of a ring's place in memory.
ghost use Rattle.page_table.specs.Grants.{max_chunks};
ghost use Rattle.std.specs.Prelude.{◌≡◌, ◌∷◌, ◌^◌, ◌<◌, ◌≤◌, length, IfOk};
ghost use Rattle.std.specs.List.{All};
ghost use Rattle.std.specs.Result.{result_err};
ghost use Rattle.page_table.specs.Scattered.{ArePages, IsScatterList};
ghost use Rattle.page_table.specs.Taken.{Answers, in_order, taken_pages};
ghost use Rattle.picture_model.specs.Programs.{words_of};
ghost use Rattle.ring_model.specs.Rings.{IsRing, memory_of, opening, round};
ghost use Rattle.ring_compile.specs.Files.{◌or◌, Judges, page_fault, page_twice, page_unaligned, place_fault, program_base};
ghost use Rattle.ring_compile.specs.Files.{program_on_page, too_few_pages};
ghost use Rattle.ring_compile.specs.Kept.{IsInBounds, IsKept};
ghost use Rattle.ring_compile.specs.Placed.{program_end};
ghost use Rattle.ring_compile.specs.Writes.{scattered};

use crate::fault::{RingError, RingFault};
use crate::ring::{Ring, Values};
use crate::words::{closing, front_words};
use field_compile::push_instr;
use page_table::{ADDRESSES, PageFault, PageSet, Scatter, ScatterFault, any_page_met};
use std::alloc::Global;

fn taken(alloc: Global, pages: &[u32]) -> Result<PageSet, PageFault>
    ensures answer { Answers (taken_pages pages.now) result }
    ensures addresses { All (λ page. page < 2 ^ 32) pages.now }
{
    PageSet::from_list(alloc, pages)
}

/// The pages as grants, each checked for itself and against those before it.
pub(crate) fn page_grants(alloc: Global, values: &Values) -> Result<PageSet, RingError>
    requires { length values.now.pages ≤ max_chunks }
    ensures answer { Judges (page_unaligned values.now or page_twice values.now) result }
    ensures grants { IfOk result (λ grants. grants ≡ in_order (memory_of values.now)) }
    ensures pages { IfOk result (λ _. ArePages values.now.pages) }
    ensures addresses { All (λ page. page < 2 ^ 32) values.now.pages }
{
    match taken(alloc, values.pages.as_slice()) {
        Ok(grants) => Ok(grants),
        Err(PageFault::Unaligned(place)) => Err(RingError::Bad(RingFault::PageUnaligned(place))),
        Err(PageFault::Twice(place)) => Err(RingError::Bad(RingFault::PageTwice(place))),
        Err(PageFault::TooMany) => unreachable!(),
        Err(PageFault::Memory) => Err(RingError::Memory),
    }
}

// The pages as one stretch of bytes, as many as the lines have.
fn stretch(alloc: Global, values: &Values) -> Result<Scatter, RingError>
    requires { ArePages values.now.pages }
    ensures answer { Judges (too_few_pages values.now) result }
    ensures list { IfOk result (λ scatter. scatter ≡ scattered values.now) }
    ensures sound { IfOk result IsScatterList }
{
    let lines = u32::from(values.blocks) * u32::from(values.lines);
    let bytes = u64::from(lines) * u64::from(values.line_bytes);
    match Scatter::new(alloc, values.pages.as_slice(), bytes) {
        Ok(scatter) => Ok(scatter),
        Err(ScatterFault::TooFew { need, have }) => {
            Err(RingError::Bad(RingFault::TooFewPages { need, have }))
        }
        Err(ScatterFault::Memory) => Err(RingError::Memory),
    }
}

// Checks the pages.
fn judged_pages(alloc: Global, values: &Values) -> Result<Scatter, RingError>
    requires { IsInBounds values.now }
    ensures answer { Judges (page_fault values.now) result }
    ensures ring { IfOk result (λ _. IsRing values.now) }
    ensures list { IfOk result (λ scatter. scatter ≡ scattered values.now) }
{
    page_grants(alloc, values)?;
    stretch(alloc, values)
}

// Where a program ends, of which the closing alone is still to come.
fn program_end(values: &Values, words: &[u32]) -> u64
    requires { words.now ≡ words_of (opening ∷ round values.now) }
    ensures { result ≡ program_end values.now }
{
    u64::from(values.base) + 4 * (words.len() as u64 + 2)
}

// Checks where a program begins and ends.
fn judged_base(values: &Values, end: u64) -> Result<(), RingFault>
    requires { end ≡ program_end values.now }
    ensures { result_err result ≡ program_base values.now }
{
    if values.base % 4 == 0 && end <= ADDRESSES {
        Ok(())
    } else {
        Err(RingFault::ProgramBase)
    }
}

// Checks a program against the pages.
fn judged_against_pages(values: &Values, end: u64) -> Result<(), RingFault>
    requires { end ≡ program_end values.now }
    ensures { result_err result ≡ program_on_page values.now }
{
    if any_page_met(values.base, end, values.pages.as_slice()) {
        Err(RingFault::ProgramOnPage)
    } else {
        Ok(())
    }
}

// The words of a ring's program, unless its place has a fault, and the addresses of the last WRITEs of its blocks.
fn judged_words(
    alloc: Global,
    values: &Values,
    scatter: &Scatter,
) -> Result<(Vec<u32>, Vec<u64>), RingError>
    requires ring { IsRing values.now }
    requires scatter { scatter.now ≡ scattered values.now }
    ensures answer { Judges (program_base values.now or program_on_page values.now) result }
    ensures kept { IfOk result (λ kept. IsKept values.now kept.0.items kept.1.items) }
{
    let (mut words, last_writes) = front_words(alloc, values, scatter)?;
    let end = program_end(values, &words);
    judged_base(values, end)?;
    push_instr(&closing(values), &mut words)?;
    judged_against_pages(values, end)?;
    Ok((words, last_writes))
}

/// The ring of these values, unless its place has a fault.
pub(crate) fn judged(alloc: Global, values: Values) -> Result<Ring, RingError>
    requires { IsInBounds values }
    ensures answer { Judges (place_fault values) result }
    ensures same { IfOk result (λ ring. ring ≡ values) }
{
    let scatter = judged_pages(alloc, &values)?;
    let (words, last_writes) = judged_words(alloc, &values, &scatter)?;
    Ok(Ring {
        values,
        words,
        last_writes,
    })
}
