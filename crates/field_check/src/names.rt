//! The lines of a field, and where a queue is among them.

ghost use Rattle.std.specs.Prelude.{◌≡◌, ◌<◌, ◌^◌, slice_index_or, Option, ℕ};
ghost use Rattle.check_model.specs.declared.Line.TheVariants.{Row};
ghost use Rattle.check_model.specs.Lines.{last_spot, line_bytes, lines_on, next_spot, picture_lines, plane_on, spot_in};
ghost use Rattle.field_law.specs.Sections.{ask};
ghost use Rattle.picture_model.specs.Described.{plane_row_bytes};
ghost use Rattle.field_check.specs.Cursors.{reach_of};

use crate::cursors::Track;
use check_model::{Line, Spot};
use fifo_model::Queue;
use picture_model::{field_height, picture_row, vbi_skip};
use pixel_layout::Parity;
use planar_plan::Frame;

// The line of this number of a field's picture, counted from its first skipped line.
fn picture_line(frame: &Frame, field: Parity, number: u64) -> Line
    ensures { result ≡ slice_index_or (picture_lines frame.now field) number (Row 0) }
{
    let desc = frame.desc();
    let skipped = u64::from(desc.skip_lines);
    if number < skipped {
        return Line::Skipped(number);
    }
    let row = number - skipped;
    if row < u64::from(field_height(desc, field)) {
        Line::Row(picture_row(desc.fields, field, row as u32))
    } else {
        Line::Row(0)
    }
}

// The line of this number that a queue brings of a field.
fn line_on(q: Queue, frame: &Frame, field: Parity, number: u64) -> Line
    ensures { result ≡ slice_index_or (lines_on q frame.now field) number (Row 0) }
{
    let desc = frame.desc();
    if q != Queue::One || desc.vbi_lines == 0 {
        return picture_line(frame, field, number);
    }
    let skipped = u64::from(vbi_skip(desc, field));
    let lines = u64::from(desc.vbi_lines);
    if number < skipped {
        Line::SkippedVbi(number)
    } else if number - skipped < lines {
        Line::Vbi(number - skipped)
    } else {
        picture_line(frame, field, number - skipped - lines)
    }
}

// The byte of this number in the last of so many lines.
fn spot_in(q: Queue, frame: &Frame, field: Parity, lines: u64, number: u64) -> Spot
    ensures { result ≡ spot_in q frame.now field lines number }
{
    Spot {
        line: line_on(q, frame, field, lines.saturating_sub(1)),
        number,
    }
}

/// The byte that a queue awaits next, which begins a line or doesn't.
pub(crate) fn next_spot(q: Queue, frame: &Frame, field: Parity, track: &Track, begins: bool) -> Spot
    requires { track.now.lines < 2 ^ 63 }
    ensures { (count : ℕ) (address : Option ℕ) → result ≡ next_spot q frame.now field (reach_of track.now) (ask begins count address) }
{
    if begins {
        spot_in(q, frame, field, track.lines + 1, 0)
    } else {
        spot_in(q, frame, field, track.lines, track.bytes)
    }
}

/// The last byte that is taken of a queue.
pub(crate) fn last_spot(q: Queue, frame: &Frame, field: Parity, track: &Track) -> Spot
    ensures { result ≡ last_spot q frame.now field (reach_of track.now) }
{
    spot_in(q, frame, field, track.lines, track.bytes.saturating_sub(1))
}

// The bytes of a picture row on a queue.
fn row_bytes(q: Queue, frame: &Frame) -> u64
    ensures { result ≡ plane_row_bytes frame.now (plane_on q) }
{
    let desc = frame.desc();
    let format = frame.format();
    match q {
        Queue::One => u64::from(format.row_bytes(1, desc.width)),
        Queue::Two | Queue::Three => {
            if format.is_planar() {
                u64::from(format.row_bytes(2, desc.width))
            } else {
                u64::from(desc.width)
            }
        }
    }
}

/// How many bytes of a line a queue brings.
pub(crate) fn line_bytes(q: Queue, frame: &Frame, line: Line) -> u64
    ensures { result ≡ line_bytes q frame.now line }
{
    match line {
        Line::SkippedVbi(_) | Line::Vbi(_) => u64::from(frame.desc().vbi_bytes),
        Line::Skipped(_) | Line::Row(_) => row_bytes(q, frame),
    }
}
