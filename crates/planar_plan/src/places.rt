//! Where the planes and the VBI areas of a description lie. Planes are counted from 1; offsets are bytes,
//! counted along the pages or chunks.

ghost use Rattle.std.specs.Prelude.{◌≡◌, ℕ, ◌+◌, ◌^◌, ◌≤◌, length, unwrap_or, IfOk, IfSome};
ghost use Rattle.picture_model.specs.Described.{chroma_height, default_offset, extent, extents, given_or, highest_end, lines_bytes, offset};
ghost use Rattle.picture_model.specs.Described.{plane_bytes, plane_row_bytes, plane_rows, stride};
ghost use Rattle.picture_model.specs.Described.{taken, vbi_area, vbi_begin, vbi_offset, vbi_size};
ghost use Rattle.picture_model.specs.Geometry.{max_height, max_vbi_lines};
ghost use Rattle.planar_plan.specs.Sizes.{IsPlane, IsSized};

use capture_desc::{Desc, Fields, Numbers};
use picture_model::{chroma_row, vbi_stride};
use pixel_layout::Parity;
use std::alloc::{AllocError, Global};
use std::marker::Model;

// The offsets from `from` up to `to`, which isn't part of them: those of a plane, or of a field's VBI
// lines, whose end passes 2^64 where they are many and long.
#[derive(Clone, Copy)]
pub(crate) struct Area {
    pub(crate) from: u128,
    pub(crate) to: u128,
}

impl Model for Area {
    ghost use Rattle.picture_model.specs.Described.{Extent};

    ghost Value = { Extent };

    ghost view = { λ s. record { from = s.from; to = s.to } };

    ghost inverse = { λ e. record { from = e.from; to = e.to } };
}

// The rows of a plane of chroma: one more than the greatest that takes some.
fn chroma_height(desc: &Desc) -> u32
    requires { IsSized desc.now }
    ensures value { result ≡ chroma_height desc.now }
    ensures few { result ≤ max_height }
{
    let mut rows = 0;
    for row in 0..desc.height {
        if let Some(kept) = chroma_row(desc, row) {
            rows = rows.max(kept + 1);
        }
    }
    rows
}

// How many rows a plane has: those of the picture, or those of its chroma.
fn plane_rows(desc: &Desc, plane: u32) -> u32
    requires { IsSized desc.now }
    ensures value { result ≡ plane_rows desc.now plane }
    ensures few { result ≤ max_height }
{
    if plane == 1 {
        desc.height
    } else {
        chroma_height(desc)
    }
}

// From the first byte of some lines to the end of the last one, by the step from a line to the next and the bytes of each.
fn lines_bytes(lines: u32, step: u32, bytes: u32) -> u64
    ensures { result ≡ lines_bytes lines step bytes }
{
    if lines == 0 {
        0
    } else {
        u64::from(lines - 1) * u64::from(step) + u64::from(bytes)
    }
}

// The bytes of a row on a plane.
pub(crate) fn plane_row_bytes(desc: &Desc, plane: u32) -> u32
    requires sized { IsSized desc.now }
    requires plane { IsPlane desc.now plane }
    ensures value { result ≡ plane_row_bytes desc.now plane }
    ensures few { result ≤ 4096 }
{
    desc.format.row_bytes(plane, desc.width)
}

// The number given for a plane.
fn given(numbers: &Option<Numbers>, plane: u32) -> Option<u32>
    requires some { 1 ≤ plane }
    requires within { IfSome numbers.now (λ ns. plane ≤ length ns) }
    ensures { (default : ℕ) → unwrap_or result default ≡ given_or numbers.now plane default }
{
    match numbers {
        Some(numbers) => Some(numbers.as_slice()[plane as usize - 1]),
        None => None,
    }
}

// From one row of a plane to the next.
pub(crate) fn stride(desc: &Desc, plane: u32) -> u32
    requires sized { IsSized desc.now }
    requires plane { IsPlane desc.now plane }
    ensures { result ≡ stride desc.now plane }
{
    match given(&desc.stride, plane) {
        Some(stride) => stride,
        None => plane_row_bytes(desc, plane),
    }
}

// From the first byte of a plane to the end of its last row.
#[tactic(auto, using(crate::proofs::Bounds::lines_few))]
fn plane_bytes(desc: &Desc, plane: u32) -> u64
    requires sized { IsSized desc.now }
    requires plane { IsPlane desc.now plane }
    ensures value { result ≡ plane_bytes desc.now plane }
    ensures few { result ≤ 2 ^ 44 }
{
    let rows = plane_rows(desc, plane);
    lines_bytes(rows, stride(desc, plane), plane_row_bytes(desc, plane))
}

// Where a plane begins unless another offset is given: at the end of the one before it.
fn default_offset(desc: &Desc, plane: u32) -> u64
    requires sized { IsSized desc.now }
    requires plane { IsPlane desc.now plane }
    ensures value { result ≡ default_offset desc.now plane }
    ensures few { result ≤ 2 ^ 45 }
{
    match plane {
        1 => 0,
        2 => plane_bytes(desc, 1),
        _ => plane_bytes(desc, 1) + plane_bytes(desc, 2),
    }
}

// Where a plane begins.
pub(crate) fn offset(desc: &Desc, plane: u32) -> u64
    requires sized { IsSized desc.now }
    requires plane { IsPlane desc.now plane }
    ensures value { result ≡ offset desc.now plane }
    ensures few { result ≤ 2 ^ 45 }
{
    match given(&desc.offset, plane) {
        Some(offset) => u64::from(offset),
        None => default_offset(desc, plane),
    }
}

// The offsets that a plane takes.
fn extent(desc: &Desc, plane: u32) -> Area
    requires sized { IsSized desc.now }
    requires plane { IsPlane desc.now plane }
    ensures value { result ≡ extent desc.now plane }
    ensures few { result.to ≤ 2 ^ 46 }
{
    let from = offset(desc, plane);
    let to = from + plane_bytes(desc, plane);
    Area {
        from: u128::from(from),
        to: u128::from(to),
    }
}

// The highest end of a plane.
fn planes_end(desc: &Desc) -> u128
    requires { IsSized desc.now }
    ensures value { result ≡ highest_end (extents desc.now) }
    ensures few { result ≤ 2 ^ 46 }
{
    let first = extent(desc, 1).to;
    if desc.format.is_planar() {
        first.max(extent(desc, 2).to).max(extent(desc, 3).to)
    } else {
        first
    }
}

// From the first byte of a field's VBI lines to the end of the last one.
#[tactic(auto, using(crate::proofs::Bounds::lines_few))]
fn vbi_size(desc: &Desc) -> u64
    ensures value { result ≡ vbi_size desc.now }
    ensures few { desc.now.vbi_lines ≤ max_vbi_lines → result ≤ 2 ^ 38 }
{
    lines_bytes(desc.vbi_lines, vbi_stride(desc), desc.vbi_bytes)
}

// Where the VBI lines of the first described field begin.
fn vbi_begin(desc: &Desc) -> u128
    requires { IsSized desc.now }
    ensures value { result ≡ vbi_begin desc.now }
    ensures few { result ≤ 2 ^ 46 }
{
    match desc.vbi_offset {
        Some(offset) => u128::from(offset),
        None => planes_end(desc),
    }
}

// Where the VBI lines of a field begin.
#[tactic(auto, using(crate::proofs::Bounds::products))]
pub(crate) fn vbi_offset(desc: &Desc, field: Parity) -> u128
    requires { IsSized desc.now }
    ensures value { result ≡ vbi_offset desc.now field }
    ensures few { result ≤ 2 ^ 65 }
    ensures near { desc.now.vbi_lines ≤ max_vbi_lines → result ≤ 2 ^ 46 + 2 ^ 37 }
{
    match (desc.fields, field) {
        (Fields::Both, Parity::Bottom) => {
            vbi_begin(desc) + u128::from(desc.vbi_lines) * u128::from(vbi_stride(desc))
        }
        _ => vbi_begin(desc),
    }
}

// The offsets that the VBI lines of a field take.
fn vbi_area(desc: &Desc, field: Parity) -> Area
    requires { IsSized desc.now }
    ensures value { result ≡ vbi_area desc.now field }
    ensures few { desc.now.vbi_lines ≤ max_vbi_lines → result.to ≤ 2 ^ 47 }
{
    let from = vbi_offset(desc, field);
    Area {
        from,
        to: from + u128::from(vbi_size(desc)),
    }
}

// The stretches of the planes.
fn extents(alloc: Global, desc: &Desc) -> Result<Vec<Area>, AllocError>
    requires { IsSized desc.now }
    ensures value { IfOk result (λ stretches. stretches.items ≡ extents desc.now) }
    ensures few { IfOk result (λ stretches. highest_end stretches.items ≤ 2 ^ 46) }
{
    let mut stretches = Vec::new(alloc);
    stretches.push(extent(desc, 1))?;
    if desc.format.is_planar() {
        stretches.push(extent(desc, 2))?;
        stretches.push(extent(desc, 3))?;
    }
    Ok(stretches)
}

// The stretches of the planes and of the VBI areas, of which some may be empty.
pub(crate) fn taken(alloc: Global, desc: &Desc) -> Result<Vec<Area>, AllocError>
    requires { IsSized desc.now }
    ensures value { IfOk result (λ stretches. stretches.items ≡ taken desc.now) }
    ensures few { IfOk result (λ stretches. desc.now.vbi_lines ≤ max_vbi_lines → highest_end stretches.items ≤ 2 ^ 47) }
{
    let mut stretches = extents(alloc, desc)?;
    if desc.fields != Fields::Bottom {
        stretches.push(vbi_area(desc, Parity::Top))?;
    }
    if desc.fields != Fields::Top {
        stretches.push(vbi_area(desc, Parity::Bottom))?;
    }
    Ok(stretches)
}
