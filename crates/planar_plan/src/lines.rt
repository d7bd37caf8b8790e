//! The lines of a description, before they are cut.

ghost use Rattle.std.specs.Prelude.{◌≡◌, ◌^◌, ◌≤◌, IfSome, None};
ghost use Rattle.capture_desc.specs.WellFormed.{IsWellFormed};
ghost use Rattle.picture_model.specs.Described.{chroma_row_of, layout_of};
ghost use Rattle.picture_model.specs.Geometry.{max_height};
ghost use Rattle.picture_model.specs.Places.{plane_row, row_offset, vbi_line_offset};
ghost use Rattle.picture_model.specs.Plans.{grain_bytes, kind_by, row_strip, row_track, skipped_strip, skipped_vbi_strip, vbi_strip};
ghost use Rattle.pixel_layout.specs.Layouts.{layout};
ghost use Rattle.planar_plan.specs.Frames.{AreOffsets};
ghost use Rattle.planar_plan.specs.Lines.{bare, strip_of, track_of};
ghost use Rattle.planar_plan.specs.Sizes.{IsPlane, IsSized};

use crate::cut::{Line, PlaneTrack, grains_of, unit_bytes};
use crate::offsets::PlaneOffsets;
use crate::places::{stride, vbi_offset};
use capture_desc::Desc;
use picture_model::{PieceKind, chroma_row, vbi_stride};
use pixel_layout::{Format, Parity};

// The bytes of a grain of a row on a plane; 0 where the format has no such plane.
fn grain_bytes(format: Format, plane: u32) -> u32
    ensures { result ≡ grain_bytes (layout format) plane }
{
    match (format.is_planar(), plane) {
        (true, 1) => unit_bytes(format),
        (true, _) | (false, 1) => 1,
        (false, _) => 0,
    }
}

// The row of a plane that takes a picture row.
fn plane_row(desc: &Desc, plane: u32, row: u32) -> Option<u32>
    requires formed { IsWellFormed desc.now }
    requires row { row ≤ max_height }
    requires plane { (1 ≤ plane) × (plane ≤ 3) }
    ensures value { result ≡ plane_row desc.now plane row }
    ensures few { IfSome result (λ kept. kept ≤ max_height) }
    ensures plane { IfSome result (λ _. IsPlane desc.now plane) }
{
    if plane == 1 {
        Some(row)
    } else {
        chroma_row(desc, row)
    }
}

// The offset of the first byte of a picture row on a plane.
#[tactic(auto, using(crate::proofs::Bounds::products))]
fn row_offset(desc: &Desc, offsets: &PlaneOffsets, plane: u32, row: u32) -> Option<u64>
    requires sized { IsSized desc.now }
    requires offsets { AreOffsets desc.now offsets.now }
    requires row { row ≤ max_height }
    requires plane { (1 ≤ plane) × (plane ≤ 3) }
    ensures { result ≡ row_offset desc.now plane row }
{
    match plane_row(desc, plane, row) {
        Some(kept) => {
            Some(offsets.begin(plane) + u64::from(kept) * u64::from(stride(desc, plane)))
        }
        None => None,
    }
}

fn row_track(desc: &Desc, offsets: &PlaneOffsets, plane: u32, row: u32) -> PlaneTrack
    requires sized { IsSized desc.now }
    requires offsets { AreOffsets desc.now offsets.now }
    requires row { row ≤ max_height }
    requires plane { (1 ≤ plane) × (plane ≤ 3) }
    ensures { track_of result ≡ row_track desc.now plane row }
{
    PlaneTrack {
        size: grain_bytes(desc.format, plane),
        start: row_offset(desc, offsets, plane, row),
    }
}

// What the unclipped pieces of a row do.
fn row_kind(desc: &Desc, row: u32) -> PieceKind
    requires { IsWellFormed desc.now }
    ensures { result ≡ kind_by (layout_of desc.now).planar (chroma_row_of desc.now row) }
{
    if desc.format.is_planar() && chroma_row(desc, row).is_none() {
        PieceKind::WriteLuma
    } else {
        PieceKind::Write
    }
}

// A row of the picture.
pub(crate) fn row_line(desc: &Desc, offsets: &PlaneOffsets, row: u32) -> Line
    requires sized { IsSized desc.now }
    requires offsets { AreOffsets desc.now offsets.now }
    requires row { row ≤ max_height }
    ensures { strip_of result ≡ bare (row_strip desc.now row) }
{
    Line {
        grains: grains_of(desc.format, desc.width),
        kind: row_kind(desc, row),
        one: row_track(desc, offsets, 1, row),
        two: row_track(desc, offsets, 2, row),
        three: row_track(desc, offsets, 3, row),
    }
}

// A track that isn't written.
fn unwritten_track(size: u32) -> PlaneTrack
    ensures { result ≡ record { size = size; start = None } }
{
    PlaneTrack { size, start: None }
}

// A skipped line, which is as long as a row.
pub(crate) fn skipped_line(desc: &Desc) -> Line
    requires { IsSized desc.now }
    ensures { strip_of result ≡ bare (skipped_strip desc.now) }
{
    Line {
        grains: grains_of(desc.format, desc.width),
        kind: PieceKind::Skip,
        one: unwritten_track(grain_bytes(desc.format, 1)),
        two: unwritten_track(grain_bytes(desc.format, 2)),
        three: unwritten_track(grain_bytes(desc.format, 3)),
    }
}

// A skipped VBI line, which is as long as the others.
pub(crate) fn skipped_vbi_line(desc: &Desc) -> Line
    ensures { strip_of result ≡ bare (skipped_vbi_strip desc.now) }
{
    Line {
        grains: desc.vbi_bytes,
        kind: PieceKind::Skip,
        one: unwritten_track(1),
        two: unwritten_track(0),
        three: unwritten_track(0),
    }
}

// A VBI line of a field.
pub(crate) fn vbi_line(desc: &Desc, field: Parity, line: u32) -> Line
    requires sized { IsSized desc.now }
    requires fits { vbi_line_offset desc.now field line ≤ 2 ^ 32 }
    ensures { strip_of result ≡ bare (vbi_strip desc.now field line) }
{
    let start = vbi_offset(desc, field) + u128::from(line) * u128::from(vbi_stride(desc));
    Line {
        grains: desc.vbi_bytes,
        kind: PieceKind::Write,
        one: PlaneTrack {
            size: 1,
            start: Some(start as u64),
        },
        two: unwritten_track(0),
        three: unwritten_track(0),
    }
}
