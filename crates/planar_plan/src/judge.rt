//! The faults of a description's geometry, each by a function of its own.

ghost use Rattle.std.specs.Prelude.{◌≡◌, ℕ, ◌+◌, ◌*◌, ◌%◌, ◌^◌, ◌<◌, ◌≤◌, ◌||◌, nat_lt, IfOk, None};
ghost use Rattle.std.specs.List.{list_any};
ghost use Rattle.std.specs.Result.{result_err};
ghost use Rattle.picture_model.specs.Described.{highest_end, layout_of, offset, plane_row_bytes, planes, stride, taken};
ghost use Rattle.capture_desc.specs.WellFormed.{IsWellFormed};
ghost use Rattle.picture_model.specs.Geometry.{first_after, height_range, max_height, max_vbi_lines, max_width, min_line_bytes, odd_height};
ghost use Rattle.picture_model.specs.Geometry.{off_unit, overlaps, size_faults, some_overlap, stride_short, too_narrow};
ghost use Rattle.picture_model.specs.Geometry.{vbi_range, when, width_off_unit, width_range};
ghost use Rattle.planar_plan.specs.Frames.{area_faults};
ghost use Rattle.planar_plan.specs.Sizes.{IsPlane, IsSized};
ghost use Rattle.planar_plan.specs.declared.judge.BuildError.TheVariants.{Bad, Memory};

use crate::places::{Area, offset, plane_row_bytes, stride};
use capture_desc::Desc;
use picture_model::{
    BuildFault, MAX_HEIGHT, MAX_PIECE, MAX_VBI_LINES, MAX_WIDTH, MIN_LINE_BYTES, is_both,
    vbi_stride,
};
use std::alloc::{AllocError, AllocFailed};

/// Why no frame or program is made of a description.
#[derive(Clone, Copy, Debug, PartialEq, Eq)]
pub enum BuildError {
    /// The description has this fault, and none of those before it.
    Bad(BuildFault),
    /// Out of memory.
    Memory,
}

impl From<BuildFault> for BuildError {
    ghost from_gives = { λ fault error. error ≡ Bad fault };

    fn from(fault: BuildFault) -> BuildError {
        BuildError::Bad(fault)
    }
}

impl From<AllocError> for BuildError {
    ghost from_gives = { λ _ error. error ≡ Memory };

    fn from(_error: AllocError) -> BuildError {
        BuildError::Memory
    }
}

impl<T: Drop> From<AllocFailed<T>> for BuildError {
    ghost from_gives = { λ _ error. error ≡ Memory };

    fn from(_error: AllocFailed<T>) -> BuildError {
        BuildError::Memory
    }
}

// Refuses with a fault where it holds.
fn refuse(holds: bool, fault: BuildFault) -> Result<(), BuildFault>
    ensures { result_err result ≡ when holds fault }
{
    if holds { Err(fault) } else { Ok(()) }
}

fn width_range(desc: &Desc) -> Result<(), BuildFault>
    ensures fault { result_err result ≡ width_range desc.now }
    ensures range { IfOk result (λ _. (1 ≤ desc.now.width) × (desc.now.width ≤ max_width)) }
{
    refuse(
        !(1..=MAX_WIDTH).contains(&desc.width),
        BuildFault::WidthRange,
    )
}

fn height_range(desc: &Desc) -> Result<(), BuildFault>
    ensures fault { result_err result ≡ height_range desc.now }
    ensures range { IfOk result (λ _. (1 ≤ desc.now.height) × (desc.now.height ≤ max_height)) }
{
    refuse(
        !(1..=MAX_HEIGHT).contains(&desc.height),
        BuildFault::HeightRange,
    )
}

fn width_off_unit(desc: &Desc) -> Result<(), BuildFault>
    ensures fault { result_err result ≡ width_off_unit desc.now }
    ensures units { IfOk result (λ _. desc.now.width % (layout_of desc.now).pixels ≡ 0) }
{
    refuse(
        desc.width % desc.format.unit_pixels() != 0,
        BuildFault::WidthOffUnit,
    )
}

fn odd_height(desc: &Desc) -> Result<(), BuildFault>
    ensures { result_err result ≡ odd_height desc.now }
{
    refuse(
        is_both(desc.fields) && desc.height % 2 != 0,
        BuildFault::OddHeight,
    )
}

// Whether some plane has rows of fewer than 5 bytes.
fn has_narrow_plane(desc: &Desc) -> bool
    requires { IsSized desc.now }
    ensures { result ≡ list_any (λ p. nat_lt (plane_row_bytes desc.now p) min_line_bytes) (planes desc.now) }
{
    plane_row_bytes(desc, 1) < MIN_LINE_BYTES
        || desc.format.is_planar()
            && (plane_row_bytes(desc, 2) < MIN_LINE_BYTES
                || plane_row_bytes(desc, 3) < MIN_LINE_BYTES)
}

fn too_narrow(desc: &Desc) -> Result<(), BuildFault>
    requires { IsSized desc.now }
    ensures { result_err result ≡ too_narrow desc.now }
{
    refuse(has_narrow_plane(desc), BuildFault::TooNarrow)
}

// Whether the rows of a plane overlap.
fn is_stride_short(desc: &Desc, plane: u32) -> bool
    requires sized { IsSized desc.now }
    requires plane { IsPlane desc.now plane }
    ensures { result ≡ nat_lt (stride desc.now plane) (plane_row_bytes desc.now plane) }
{
    stride(desc, plane) < plane_row_bytes(desc, plane)
}

fn stride_short(desc: &Desc) -> Result<(), BuildFault>
    requires { IsSized desc.now }
    ensures { result_err result ≡ stride_short desc.now }
{
    let short = is_stride_short(desc, 1)
        || desc.format.is_planar() && (is_stride_short(desc, 2) || is_stride_short(desc, 3));
    refuse(short, BuildFault::StrideShort)
}

fn off_unit(desc: &Desc) -> Result<(), BuildFault>
    requires { IsSized desc.now }
    ensures { result_err result ≡ off_unit desc.now }
{
    let unit = desc.format.unit_pixels();
    let on_units = offset(desc, 1) % u64::from(unit) == 0 && stride(desc, 1) % unit == 0;
    refuse(desc.format.is_planar() && !on_units, BuildFault::OffUnit)
}

// Checks the sizes of the picture and of its planes.
pub(crate) fn size_faults(desc: &Desc) -> Result<(), BuildFault>
    requires { IsWellFormed desc.now }
    ensures fault { result_err result ≡ first_after None size_faults desc.now }
    ensures sized { IfOk result (λ _. IsSized desc.now) }
{
    width_range(desc)?;
    height_range(desc)?;
    width_off_unit(desc)?;
    odd_height(desc)?;
    too_narrow(desc)?;
    stride_short(desc)?;
    off_unit(desc)
}

// Whether two areas have an offset in common.
fn overlaps(first: &Area, second: &Area) -> bool
    ensures { result ≡ overlaps first.now second.now }
{
    first.from.max(second.from) < first.to.min(second.to)
}

// Whether an area has an offset in common with one of some others.
fn meets_one(first: &Area, others: &[Area]) -> bool
    ensures { result ≡ list_any (overlaps first.now) others.now }
{
    others.iter().any(|other| overlaps(first, other))
}

fn some_overlap(taken: &[Area]) -> bool
    ensures { result ≡ some_overlap taken.now }
{
    match taken {
        [] => false,
        [first, rest @ ..] => meets_one(first, rest) || some_overlap(rest),
    }
}

fn overlap(taken: &[Area]) -> Result<(), BuildFault>
    ensures { result_err result ≡ when (some_overlap taken.now) BuildFault.Overlap }
{
    refuse(some_overlap(taken), BuildFault::Overlap)
}

fn vbi_range(desc: &Desc) -> Result<(), BuildFault>
    ensures few { IfOk result (λ _. desc.now.vbi_lines ≤ max_vbi_lines) }
    ensures fault { result_err result ≡ vbi_range desc.now }
{
    let bytes_out = !(MIN_LINE_BYTES..=MAX_PIECE).contains(&desc.vbi_bytes);
    let overlap = vbi_stride(desc) < desc.vbi_bytes;
    refuse(
        desc.vbi_lines > MAX_VBI_LINES || desc.vbi_lines > 0 && (bytes_out || overlap),
        BuildFault::VbiRange,
    )
}

// Checks the areas that the picture and its VBI lines take.
pub(crate) fn area_faults(desc: &Desc, areas: &[Area]) -> Result<(), BuildFault>
    requires { areas.now ≡ taken desc.now }
    ensures fault { result_err result ≡ first_after None area_faults desc.now }
    ensures few { IfOk result (λ _. desc.now.vbi_lines ≤ max_vbi_lines) }
{
    overlap(areas)?;
    vbi_range(desc)
}

// The highest end of some areas, of which an empty one ends where it begins.
pub(crate) fn highest_end(taken: &[Area]) -> u128
    ensures { result ≡ highest_end taken.now }
{
    match taken {
        [] => 0,
        [first, rest @ ..] => first.to.max(highest_end(rest)),
    }
}
