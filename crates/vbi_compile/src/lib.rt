//! The words of a field's VBI lines, the lines of the vertical blanking interval: those that are skipped, then the
//! others.
//!
//! The instructions are those of the Bt878 data sheet, "RISC instructions"; which of them a line takes is
//! this project's own rule.
#![tactic(auto)]

ghost use Rattle.std.specs.Prelude.{◌≡◌, ◌++◌, true, map, replicate, OnOk};
ghost use Rattle.std.specs.List.{range_with_len};
ghost use Rattle.field_compile.specs.Kept.{BeginsWith};
ghost use Rattle.picture_model.specs.Described.{describes, vbi_skip};
ghost use Rattle.picture_model.specs.Plans.{skipped_vbi_strip, vbi_strip};
ghost use Rattle.picture_model.specs.Programs.{lines_instrs, vbi_words, words_of};

use field_compile::{push_instr, push_pieces, sync};
use picture_model::vbi_skip;
use pixel_layout::Parity;
use planar_plan::Frame;
use risc_word::Code;
use std::alloc::{AllocError, Global};

// Appends the VBI lines that a field passes over, which are all the same and packed.
fn push_skipped_lines(
    alloc: Global,
    frame: &Frame,
    field: Parity,
    out: &mut Vec<u32>,
) -> Result<(), AllocError>
    ensures words { OnOk result (out.new.items
        ≡ out.old.items ++ words_of (lines_instrs frame.now (replicate (vbi_skip frame.now field) (skipped_vbi_strip frame.now)))) }
    ensures kept { BeginsWith out.old.items out.new.items }
{
    let skipped = frame.plan_skip_vbi_line(alloc)?;
    let count = vbi_skip(frame.desc(), field);
    for _ in 0..count {
        push_pieces(false, skipped.as_slice(), out)?;
    }
    Ok(())
}

// Appends the VBI lines of a field, which are packed.
fn push_lines(
    alloc: Global,
    frame: &Frame,
    field: Parity,
    out: &mut Vec<u32>,
) -> Result<(), AllocError>
    requires { describes frame.now.fields field ≡ true }
    ensures words { OnOk result (out.new.items
        ≡ out.old.items ++ words_of (lines_instrs frame.now (map (vbi_strip frame.now field) (range_with_len 0 frame.now.vbi_lines)))) }
    ensures kept { BeginsWith out.old.items out.new.items }
{
    for line in 0..frame.desc().vbi_lines {
        let pieces = frame.plan_vbi_line(alloc, field, line)?;
        push_pieces(false, pieces.as_slice(), out)?;
    }
    Ok(())
}

/// Appends the VBI part of a field's section: SYNC on FM1, the lines that are skipped and the field's VBI lines, or
/// nothing where there are no VBI lines. After a refusal, which is always out of memory, the old words still precede
/// what was added.
pub fn compile_vbi(
    alloc: Global,
    frame: &Frame,
    field: Parity,
    out: &mut Vec<u32>,
) -> Result<(), AllocError>
    requires { describes frame.now.fields field ≡ true }
    ensures words { OnOk result (out.new.items ≡ out.old.items ++ vbi_words frame.now field) }
    ensures kept { BeginsWith out.old.items out.new.items }
{
    if frame.desc().vbi_lines == 0 {
        return Ok(());
    }
    push_instr(&sync(false, Code::Fm1), out)?;
    push_skipped_lines(alloc, frame, field, out)?;
    push_lines(alloc, frame, field, out)
}
