//! The words of a program, and the faults of its place in memory.

ghost use Rattle.std.specs.Prelude.{◌≡◌, ◌+◌, ◌*◌, ◌^◌, not, ◌&&◌, nat_le, IfOk, OnOk, None};
ghost use Rattle.std.specs.List.{list_any};
ghost use Rattle.std.specs.Result.{result_err};
ghost use Rattle.page_table.specs.Grants.{is_met};
ghost use Rattle.picture_model.specs.Described.{IsDescription, memory_of};
ghost use Rattle.picture_model.specs.Geometry.{first_after, is_multiple, program_faults, when};
ghost use Rattle.picture_model.specs.Programs.{compiled_words};
ghost use Rattle.planar_plan.specs.Frames.{Judges};

use crate::sections::sections_words;
use capture_desc::Desc;
use page_table::{ADDRESSES, any_met, any_page_met};
use picture_model::BuildFault;
use planar_plan::{BuildError, Frame};
use std::alloc::Global;

// Checks where a program begins and ends.
fn program_base(base: u32, end: u64) -> Result<(), BuildFault>
    ensures { result_err result ≡ when (not (is_multiple 4 base && nat_le end (2 ^ 32))) BuildFault.ProgramBase }
{
    if base % 4 == 0 && end <= ADDRESSES {
        Ok(())
    } else {
        Err(BuildFault::ProgramBase)
    }
}

// Whether a page or chunk of a description shares a byte with its program.
fn meets_memory(base: u32, end: u64, desc: &Desc) -> bool
    ensures { result ≡ list_any (is_met base end) (memory_of desc.now) }
{
    match &desc.chunks {
        None => any_page_met(base, end, desc.pages.as_slice()),
        Some(chunks) => any_met(base, end, chunks.as_slice()),
    }
}

// Checks a program against the pages or chunks.
fn program_on_page(base: u32, end: u64, desc: &Desc) -> Result<(), BuildFault>
    ensures { result_err result ≡ when (list_any (is_met base end) (memory_of desc.now)) BuildFault.ProgramOnPage }
{
    if meets_memory(base, end, desc) {
        Err(BuildFault::ProgramOnPage)
    } else {
        Ok(())
    }
}

// The words of a frame's program, unless its place has a fault.
pub(crate) fn judged_words(alloc: Global, frame: &Frame) -> Result<Vec<u32>, BuildError>
    ensures answer { Judges (first_after None program_faults frame.now) result }
    ensures words { IfOk result (λ words. words.items ≡ compiled_words frame.now) }
    ensures description { OnOk result (IsDescription frame.now) }
{
    let desc = frame.desc();
    let words = sections_words(alloc, frame, desc.base, desc.base)?;
    let end = u64::from(desc.base) + 4 * words.len() as u64;
    program_base(desc.base, end)?;
    program_on_page(desc.base, end, desc)?;
    Ok(words)
}
