//! The counts of a stream.

ghost use Rattle.std.specs.Prelude.{◌≡◌, ◌+◌, ◌≤◌, length};
ghost use Rattle.picture_model.specs.Described.{fields_of, vbi_skip};
ghost use Rattle.planar_plan.specs.Frames.{IsFramed};
ghost use Rattle.field_stream.specs.Pushes.{entries_in, field_pushes, frame_pushes, vbi_pushes};
ghost use Rattle.field_stream.specs.Made.{made_entries, made_fields};

use crate::lines::{picture_line, vbi_line};
use capture_desc::Fields;
use picture_model::vbi_skip;
use pixel_layout::Parity;
use planar_plan::Frame;

/// How much a stream has.
#[derive(Clone, Copy, Debug, PartialEq, Eq)]
pub struct Made {
    /// The fields of its frames.
    pub fields: u32,
    /// The data entries that it pushes.
    pub entries: u64,
}

// How many fields a frame has.
fn fields(frame: &Frame) -> u32
    ensures value { result ≡ length (fields_of frame.now.fields) }
    ensures few { result ≤ 2 }
    ensures framed { IsFramed frame.now }
{
    match frame.desc().fields {
        Fields::Top | Fields::Bottom => 1,
        Fields::Both => 2,
    }
}

// How many data entries the VBI lines of a field have, and those that are skipped before them.
fn vbi_entries(frame: &Frame, field: Parity) -> u32
    ensures value { result ≡ entries_in (vbi_pushes frame.now.vbi_lines (vbi_skip frame.now field) frame.now.vbi_bytes) }
    ensures few { result ≤ 881664 }
{
    let lines = frame.desc().vbi_lines;
    if lines == 0 {
        0
    } else {
        let skipped = vbi_skip(frame.desc(), field);
        (skipped + lines) * vbi_line(frame).entries()
    }
}

// How many data entries a field has.
fn field_entries(frame: &Frame, field: Parity) -> u32
    ensures value { result ≡ entries_in (field_pushes frame.now field) }
    ensures few { result ≤ 4810752 }
{
    let lines = u32::from(frame.desc().skip_lines) + frame.rows_of(field);
    vbi_entries(frame, field) + lines * picture_line(frame).entries()
}

// How many data entries a frame has.
fn frame_entries(frame: &Frame) -> u32
    ensures { result ≡ entries_in (frame_pushes frame.now) }
{
    match frame.desc().fields {
        Fields::Top => field_entries(frame, Parity::Top),
        Fields::Bottom => field_entries(frame, Parity::Bottom),
        Fields::Both => field_entries(frame, Parity::Top) + field_entries(frame, Parity::Bottom),
    }
}

impl Made {
    /// The counts of a stream of so many frames of a description, which need not be made for that. They
    /// follow from the lines alone: no seed changes them.
    pub fn of(frame: &Frame, frames: u8) -> Made
        requires { (1 ≤ frames) × (frames ≤ 16) }
        ensures fields { result.fields ≡ made_fields frame.now frames }
        ensures entries { result.entries ≡ made_entries frame.now frames }
    {
        Made {
            fields: u32::from(frames) * fields(frame),
            entries: u64::from(frames) * u64::from(frame_entries(frame)),
        }
    }
}
