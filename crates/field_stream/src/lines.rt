//! Lines and their entries.

ghost use Rattle.std.specs.Prelude.{◌≡◌, ◌<◌, ◌≤◌, IsTrue};
ghost use Rattle.sync_status.specs.Statuses.{valid_bytes};
ghost use Rattle.field_stream.specs.Pushes.{end_status, entries_in, line_entries, packed_line, picture_line, status_at};
ghost use Rattle.field_stream.specs.Lines.{AreWhole, IsEven, IsShort, line_pushes};

use planar_plan::Frame;
use sync_status::Status;

/// How many entries a line of so many bytes has: the least whole number not below a quarter of them. Each
/// holds four bytes but for the last, which holds the rest (Bt878 data sheet, "FIFO interface").
#[inline]
pub fn line_entries(bytes: u32) -> u32
    requires { 5 ≤ bytes }
    ensures { result ≡ line_entries bytes }
{
    bytes.div_ceil(4)
}

// The status of the last entry of a line.
#[inline]
fn end_status(bytes: u32) -> Status
    requires { 5 ≤ bytes }
    ensures value { result ≡ end_status bytes }
    ensures lanes { 1 ≤ valid_bytes result }
{
    match (bytes - 1) % 4 {
        0 => Status::of(5),
        1 => Status::of(9),
        2 => Status::of(13),
        _ => Status::of(1),
    }
}

// The status of an entry of a line; the entries are counted from 0.
#[inline]
pub(crate) fn status(bytes: u32, index: u32) -> Status
    requires bytes { 5 ≤ bytes }
    requires index { index < line_entries bytes }
    ensures value { result ≡ status_at bytes index }
    ensures lanes { 1 ≤ valid_bytes result }
{
    if index == 0 {
        Status::of(2)
    } else if index == line_entries(bytes) - 1 {
        end_status(bytes)
    } else {
        Status::of(0)
    }
}

// A line whose bytes are drawn: how many it has, in a planar format of luma and on each plane of chroma,
// and how many bytes of luma a byte of chroma stands for.
#[derive(Clone, Copy)]
pub(crate) enum Line {
    Packed { bytes: u32 },
    Planar { luma: u32, chroma: u32, across: u32 },
}

impl Line {
    // How many entries it has: in a planar format those of luma, and those of chroma on each of two queues.
    pub(crate) fn entries(self) -> u32
        requires short { IsShort self }
        requires even { IsEven self }
        ensures value { result ≡ entries_in (line_pushes self) }
        ensures few { result ≤ 3072 }
    {
        match self {
            Line::Packed { bytes } => line_entries(bytes),
            Line::Planar { luma, chroma, .. } => line_entries(luma) + 2 * line_entries(chroma),
        }
    }

    // Whether each of its entries holds four bytes.
    pub(crate) fn is_whole(self) -> bool
        requires { IsShort self }
        ensures { IsTrue result → AreWhole (line_pushes self) }
    {
        match self {
            Line::Packed { bytes } => bytes % 4 == 0,
            Line::Planar { luma, chroma, .. } => luma % 4 == 0 && chroma % 4 == 0,
        }
    }
}

// A VBI line of a frame that has some.
pub(crate) fn vbi_line(frame: &Frame) -> Line
    requires { 0 < frame.now.vbi_lines }
    ensures pushes { line_pushes result ≡ packed_line frame.now.vbi_bytes }
    ensures short { IsShort result }
    ensures even { IsEven result }
{
    Line::Packed {
        bytes: frame.desc().vbi_bytes,
    }
}

// A row of a frame, or a skipped line.
pub(crate) fn picture_line(frame: &Frame) -> Line
    ensures pushes { line_pushes result ≡ picture_line frame.now }
    ensures short { IsShort result }
    ensures even { IsEven result }
{
    let format = frame.format();
    let width = frame.desc().width;
    let bytes = format.row_bytes(1, width);
    if format.is_planar() {
        Line::Planar {
            luma: bytes,
            chroma: format.row_bytes(2, width),
            across: format.unit_pixels(),
        }
    } else {
        Line::Packed { bytes }
    }
}
