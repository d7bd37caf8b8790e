//! The words of a field's picture: the lines that are skipped, then the field's rows.
//!
//! The instructions are those of the Bt878 data sheet, "RISC instructions"; which of them a line takes is
//! this project's own rule.
#![tactic(auto)]

mod words;

ghost use Rattle.std.specs.Prelude.{◌≡◌, ◌++◌, ◌^◌, ◌<◌, true, map, replicate, OnOk};
ghost use Rattle.field_compile.specs.Kept.{BeginsWith};
ghost use Rattle.picture_model.specs.Described.{IsDescription, describes, rows_of};
ghost use Rattle.picture_model.specs.Plans.{row_strip, skipped_strip};
ghost use Rattle.picture_model.specs.Programs.{field_words, line_instrs, lines_instrs, words_of};
ghost use Rattle.planar_plan.specs.Lines.{AreSpansOf};

use picture_model::{data_code, picture_row};
use pixel_layout::Parity;
use planar_plan::{Frame, Pieces, RowSpans};
use std::alloc::{AllocError, Global};
pub use words::{push_instr, push_pieces, sync};
use words::{ROW_WORDS, push_spans};

// Appends the lines that are skipped, which are all the same.
fn push_skipped_lines(alloc: Global, frame: &Frame, out: &mut Vec<u32>) -> Result<(), AllocError>
    ensures words { OnOk result
        (out.new.items ≡ out.old.items ++ words_of (lines_instrs frame.now (replicate frame.now.skip_lines (skipped_strip frame.now)))) }
    ensures kept { BeginsWith out.old.items out.new.items }
{
    let pieces = frame.plan_skip_line(alloc)?;
    let planar = frame.format().is_planar();
    for _ in 0..frame.desc().skip_lines {
        push_pieces(planar, pieces.as_slice(), out)?;
    }
    Ok(())
}

// Appends a picture row, where the spans of some rows are known. Its spans come in their place unless it is
// among them. The pieces and words are buffers, free to change.
fn push_row(
    alloc: Global,
    frame: &Frame,
    row: u32,
    spans: &mut RowSpans,
    pieces: &mut Pieces,
    words: &mut [u32; ROW_WORDS],
    out: &mut Vec<u32>,
) -> Result<(), AllocError>
    requires row { row < frame.now.height }
    requires spans { AreSpansOf frame.now spans.old }
    requires description { IsDescription frame.now }
    ensures words { OnOk result (out.new.items ≡ out.old.items ++ words_of (line_instrs frame.now (row_strip frame.now row))) }
    ensures kept { BeginsWith out.old.items out.new.items }
    ensures spans { AreSpansOf frame.now spans.new }
{
    let planar = frame.format().is_planar();
    match frame.whole_row(row) {
        Some(whole) => {
            frame.renew_spans(alloc, row, spans)?;
            push_spans(planar, &whole, spans.as_slice(), words, out)
        }
        None => {
            frame.plan_row_by(alloc, row, spans, pieces)?;
            push_pieces(planar, pieces.as_slice(), out)
        }
    }
}

// Appends the rows of a field.
fn push_rows(
    alloc: Global,
    frame: &Frame,
    field: Parity,
    out: &mut Vec<u32>,
) -> Result<(), AllocError>
    requires { describes frame.now.fields field ≡ true }
    ensures words { OnOk result
        (out.new.items ≡ out.old.items ++ words_of (lines_instrs frame.now (map (row_strip frame.now) (rows_of frame.now field)))) }
    ensures kept { BeginsWith out.old.items out.new.items }
    ensures description { OnOk result (IsDescription frame.now) }
{
    let fields = frame.desc().fields;
    let mut spans = frame.row_spans(alloc, 0)?;
    let mut pieces = Pieces::new(alloc);
    let mut words = [0; ROW_WORDS];
    for number in 0..frame.rows_of(field) {
        let row = picture_row(fields, field, number) as u32;
        push_row(alloc, frame, row, &mut spans, &mut pieces, &mut words, out)?;
    }
    Ok(())
}

/// Appends the picture part of a field's section: SYNC on FM1 for packed and FM3 for planar formats, the
/// skipped lines, and the field's rows in order. After a refusal, which is always out of memory, the
/// old words still precede what was added.
pub fn compile_field(
    alloc: Global,
    frame: &Frame,
    field: Parity,
    out: &mut Vec<u32>,
) -> Result<(), AllocError>
    requires { describes frame.now.fields field ≡ true }
    ensures words { OnOk result (out.new.items ≡ out.old.items ++ field_words frame.now field) }
    ensures kept { BeginsWith out.old.items out.new.items }
    ensures description { OnOk result (IsDescription frame.now) }
{
    let code = data_code(frame.format().is_planar());
    push_instr(&sync(false, code), out)?;
    push_skipped_lines(alloc, frame, out)?;
    push_rows(alloc, frame, field, out)
}
