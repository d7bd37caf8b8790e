//! A frame and the plans of its lines.

ghost use Rattle.std.specs.Prelude.{◌≡◌, ◌<◌, ◌≤◌, length, true, IfOk, IfSome, None};
ghost use Rattle.std.specs.List.{All, flat_map};
ghost use Rattle.capture_desc.specs.WellFormed.{IsWellFormed};
ghost use Rattle.clip_spans.specs.Clipping.{next_edge};
ghost use Rattle.page_table.specs.Taken.{in_order};
ghost use Rattle.picture_model.specs.Described.{IsDescription, describes, field_height, highest_end, memory_of, taken};
ghost use Rattle.picture_model.specs.Geometry.{first_after, frame_fault, picture_faults};
ghost use Rattle.picture_model.specs.Plans.{row_plan, row_strip, skipped_plan, skipped_vbi_plan, vbi_plan};
ghost use Rattle.planar_plan.specs.Frames.{HasScatter, IsFramed, Judges};
ghost use Rattle.planar_plan.specs.Lines.{AreSpansOf, AreWithin, CountsFit};
ghost use Rattle.planar_plan.specs.Stretches.{FitsInOne, IsWhole, pieces_in};

use crate::cut::{Pieces, RowSpans, cut_whole, spans_in_grains};
use crate::judge::{BuildError, area_faults, highest_end, size_faults};
use crate::lines::{row_line, skipped_line, skipped_vbi_line, vbi_line};
use crate::memory::{grants, page_faults, scatter};
use crate::offsets::PlaneOffsets;
use crate::places::taken;
use crate::stretch::WholeRow;
use capture_desc::Desc;
use page_table::{PageSet, Scatter};
use picture_model::field_height;
use pixel_layout::{Format, Parity};
use std::alloc::{AllocError, Global};
use std::marker::Model;

/// A description whose geometry is right, with the scatter list of its memory and where its planes
/// begin. Contracts see the description.
#[derive(Drop)]
pub struct Frame {
    desc: Desc,
    scatter: Scatter,
    offsets: PlaneOffsets,
}

impl Model for Frame {
    ghost use Rattle.capture_desc.specs.declared.desc.Desc.{Desc};
    ghost use Rattle.planar_plan.specs.Frames.{IsKept};

    ghost Value = { Desc };

    ghost view = { λ frame. frame.desc };

    ghost invariant = { λ frame. IsKept frame.desc frame.scatter frame.offsets };
}

// Checks the picture and its VBI lines, and answers their highest end.
fn end_of(alloc: Global, desc: &Desc) -> Result<u64, BuildError>
    requires { IsWellFormed desc.now }
    ensures answer { Judges (first_after None picture_faults desc.now) result }
    ensures end { IfOk result (λ end. end ≡ highest_end (taken desc.now)) }
{
    size_faults(desc)?;
    let taken = taken(alloc, desc)?;
    area_faults(desc, &taken)?;
    Ok(highest_end(&taken) as u64)
}

// Checks the geometry of a description, and scatters the bytes that its picture takes.
fn scatter_of(alloc: Global, desc: &Desc) -> Result<Scatter, BuildError>
    requires { IsWellFormed desc.now }
    ensures answer { Judges (frame_fault desc.now) result }
    ensures scatter { IfOk result (HasScatter desc.now) }
{
    // read, so that it is known to be a byte
    let _skip_lines = desc.skip_lines;
    let end = end_of(alloc, desc)?;
    page_faults(alloc, desc)?;
    scatter(alloc, desc, end)
}

impl Frame {
    /// Checks the geometry of a description and keeps it. `Bad` holds the first fault in the order of
    /// `BuildFault`, of those up to `TooFewBytes`; `Memory` is out of memory.
    pub fn new(alloc: Global, desc: Desc) -> Result<Frame, BuildError>
        requires { IsWellFormed desc }
        ensures answer { Judges (frame_fault desc) result }
        ensures same { IfOk result (λ frame. frame ≡ desc) }
        ensures framed { IfOk result IsFramed }
    {
        let scatter = scatter_of(alloc, &desc)?;
        let offsets = PlaneOffsets::of(&desc);
        Ok(Frame {
            desc,
            scatter,
            offsets,
        })
    }

    /// The description.
    pub fn desc(&self) -> &Desc
        ensures value { result.now ≡ self.now }
        ensures framed { IsFramed self.now }
    {
        &self.desc
    }

    /// The format of the picture's pixels.
    pub fn format(&self) -> Format
        ensures value { result ≡ self.now.format }
        ensures framed { IsFramed self.now }
    {
        self.desc.format
    }

    /// How many rows a field has: 0 where it isn't described.
    pub fn rows_of(&self, field: Parity) -> u32
        ensures value { result ≡ field_height self.now field }
        ensures framed { IsFramed self.now }
    {
        field_height(&self.desc, field)
    }

    /// The pages or chunks of the description in rising order: the memory that a program of the frame may
    /// write.
    pub fn grants(&self, alloc: Global) -> Result<PageSet, AllocError>
        ensures grants { IfOk result (λ grants. grants ≡ in_order (memory_of self.now)) }
        ensures framed { IsFramed self.now }
    {
        grants(alloc, &self.desc)
    }

    /// The spans of a picture row, and of those after it that the same rectangles meet. Rows are counted
    /// from 0, those of both fields together.
    pub fn row_spans(&self, alloc: Global, row: u32) -> Result<RowSpans, AllocError>
        ensures from { IfOk result (λ spans. spans.from ≡ row) }
        ensures to { IfOk result (λ spans. spans.to ≡ next_edge self.now.clip row) }
        ensures later { IfOk result (λ spans. row < spans.to) }
        ensures spans { IfOk result (AreSpansOf self.now) }
        ensures description { IfOk result (λ _. IsDescription self.now) }
        ensures framed { IsFramed self.now }
    {
        let format = self.desc.format;
        let clip = &self.desc.clip;
        let spans = clip.spans(alloc, row, self.desc.width, format.unit_pixels())?;
        let grains = spans_in_grains(alloc, format, spans.as_slice())?;
        Ok(RowSpans {
            from: row,
            to: clip.next_edge(row),
            spans: grains,
        })
    }

    /// Puts the spans of a picture row, and of those after it that the same rectangles meet, in the place of
    /// others, unless the row is among theirs.
    pub fn renew_spans(
        &self,
        alloc: Global,
        row: u32,
        spans: &mut RowSpans,
    ) -> Result<(), AllocError>
        requires { AreSpansOf self.now spans.old }
        ensures spans { IfOk result (λ _. spans.new.spans ≡ (row_strip self.now row).spans) }
        ensures kept { AreSpansOf self.now spans.new }
    {
        if spans.from <= row && u64::from(row) < spans.to {
            return Ok(());
        }
        *spans = self.row_spans(alloc, row)?;
        Ok(())
    }

    /// A picture row as one each span of which is one piece: none where one piece couldn't move the whole
    /// row. Rows are counted from 0, those of both fields together.
    pub fn whole_row(&self, row: u32) -> Option<WholeRow>
        requires row { row < self.now.height }
        requires description { IsDescription self.now }
        ensures whole { IfSome result (IsWhole (memory_of self.now) (row_strip self.now row)) }
        ensures plan { IfSome result (λ whole. flat_map (pieces_in whole) (row_strip self.now row).spans ≡ row_plan self.now row) }
        ensures within { IfSome result (λ whole. AreWithin whole.line.grains (row_strip self.now row).spans) }
        ensures fits { IfSome result (λ _. FitsInOne (memory_of self.now) (row_strip self.now row)) }
        ensures none { result ≡ None → FitsInOne (memory_of self.now) (row_strip self.now row) → ⊥ }
        ensures few { length (row_strip self.now row).spans ≤ 129 }
    {
        let line = row_line(&self.desc, &self.offsets, row);
        WholeRow::of(&self.scatter, &line)
    }

    // Puts the pieces of a row with these spans in the place of others.
    fn cut(&self, row: u32, spans: &RowSpans, pieces: &mut Pieces) -> Result<(), AllocError>
        requires row { row < self.now.height }
        requires spans { spans.now.spans ≡ (row_strip self.now row).spans }
        requires description { IsDescription self.now }
        ensures plan { IfOk result (λ _. pieces.new ≡ row_plan self.now row) }
        ensures counts { IfOk result (λ _. All CountsFit pieces.new) }
    {
        let line = row_line(&self.desc, &self.offsets, row);
        pieces.cut_row(&self.scatter, &line, &spans.spans)
    }

    /// The pieces of a picture row, in order.
    pub fn plan_row(&self, alloc: Global, row: u32) -> Result<Pieces, AllocError>
        requires { row < self.now.height }
        ensures plan { IfOk result (λ pieces. pieces ≡ row_plan self.now row) }
        ensures counts { IfOk result (All CountsFit) }
        ensures description { IfOk result (λ _. IsDescription self.now) }
        ensures framed { IsFramed self.now }
    {
        let spans = self.row_spans(alloc, row)?;
        let mut pieces = Pieces::new(alloc);
        self.cut(row, &spans, &mut pieces)?;
        Ok(pieces)
    }

    /// Puts the pieces of a picture row, in order, in the place of others, where the spans of some rows are
    /// known. Where this row isn't among them, its spans come in their place.
    pub fn plan_row_by(
        &self,
        alloc: Global,
        row: u32,
        spans: &mut RowSpans,
        pieces: &mut Pieces,
    ) -> Result<(), AllocError>
        requires row { row < self.now.height }
        requires spans { AreSpansOf self.now spans.old }
        requires description { IsDescription self.now }
        ensures plan { IfOk result (λ _. pieces.new ≡ row_plan self.now row) }
        ensures counts { IfOk result (λ _. All CountsFit pieces.new) }
        ensures spans { AreSpansOf self.now spans.new }
    {
        self.renew_spans(alloc, row, spans)?;
        self.cut(row, spans, pieces)
    }

    /// The pieces of a skipped line, in order. They write nothing.
    pub fn plan_skip_line(&self, alloc: Global) -> Result<Pieces, AllocError>
        ensures plan { IfOk result (λ pieces. pieces ≡ skipped_plan self.now) }
        ensures counts { IfOk result (All CountsFit) }
        ensures framed { IsFramed self.now }
    {
        let line = skipped_line(&self.desc);
        let pieces = cut_whole(alloc, &self.scatter, &line, true)?;
        Ok(Pieces::of(pieces))
    }

    /// The pieces of a skipped VBI line, in order. They write nothing.
    pub fn plan_skip_vbi_line(&self, alloc: Global) -> Result<Pieces, AllocError>
        ensures plan { IfOk result (λ pieces. pieces ≡ skipped_vbi_plan self.now) }
        ensures counts { IfOk result (All CountsFit) }
        ensures framed { IsFramed self.now }
    {
        let line = skipped_vbi_line(&self.desc);
        let pieces = cut_whole(alloc, &self.scatter, &line, true)?;
        Ok(Pieces::of(pieces))
    }

    /// The pieces of a field's VBI line, in order. VBI lines are counted from 0 in each field.
    pub fn plan_vbi_line(
        &self,
        alloc: Global,
        field: Parity,
        line: u32,
    ) -> Result<Pieces, AllocError>
        requires described { describes self.now.fields field ≡ true }
        requires line { line < self.now.vbi_lines }
        ensures plan { IfOk result (λ pieces. pieces ≡ vbi_plan self.now field line) }
        ensures counts { IfOk result (All CountsFit) }
        ensures framed { IsFramed self.now }
    {
        let line = vbi_line(&self.desc, field, line);
        let pieces = cut_whole(alloc, &self.scatter, &line, false)?;
        Ok(Pieces::of(pieces))
    }
}
