//! The making of a stream.

ghost use Rattle.std.specs.Prelude.{◌≡◌, ◌+◌, ◌<◌, ◌≤◌, [], ◌∷◌, ◌++◌, length, IsTrue, IfOk};
ghost use Rattle.capture_desk.specs.Desks.{Puts, WriteCounts, after_write};
ghost use Rattle.picture_model.specs.Described.{describes, fields_of, vbi_skip};
ghost use Rattle.planar_plan.specs.Frames.{IsFramed};
ghost use Rattle.field_stream.specs.Pushes.{Mark, field_pushes, frame_pushes, picture_pushes, repeated, stream_pushes, vbi_pushes};
ghost use Rattle.field_stream.specs.Lines.{AreWhole, IsShort, line_pushes};
ghost use Rattle.field_stream.specs.Made.{made, made_entries, made_fields};
ghost use Rattle.field_stream.specs.Drafts.{Moves, pushed, pushed_all};

use crate::counts::Made;
use crate::draft::{Draft, LINE, ROOM};
use crate::lines::{Line, picture_line, vbi_line};
use crate::template::Template;
use capture_desc::Fields;
use capture_desk::{Desk, Failed, put};
use capture_file::tags;
use picture_model::{data_code, vbi_skip, vertical};
use pixel_layout::Parity;
use planar_plan::Frame;
use risc_word::Code;

// Puts what a draft holds where a line might not fit behind it.
fn make_room<D: Desk>(draft: &mut Draft, desk: &mut D) -> Result<(), Failed>
    requires open { IsTrue (D.seen desk.old).told.output_open }
    ensures moves { Moves draft.old result draft.new (D.seen desk.old).told (D.seen desk.new).told }
    ensures room { IfOk result (λ _. length draft.new.bytes + 11264 ≤ 32768) }
    ensures counts { WriteCounts result (D.seen desk.old) (D.seen desk.new) }
{
    if draft.as_slice().len() > ROOM - LINE {
        put(desk, draft.as_slice())?;
        draft.clear();
    }
    Ok(())
}

fn put_mark<D: Desk>(draft: &mut Draft, desk: &mut D, code: Code) -> Result<(), Failed>
    requires open { IsTrue (D.seen desk.old).told.output_open }
    ensures moves { Moves (pushed (Mark code) draft.old) result draft.new (D.seen desk.old).told (D.seen desk.new).told }
    ensures counts { WriteCounts result (D.seen desk.old) (D.seen desk.new) }
{
    make_room(draft, desk)?;
    draft.mark(code);
    Ok(())
}

fn put_line<D: Desk>(draft: &mut Draft, desk: &mut D, line: Line) -> Result<(), Failed>
    requires open { IsTrue (D.seen desk.old).told.output_open }
    requires short { IsShort line }
    ensures moves { Moves (pushed_all (line_pushes line) draft.old) result draft.new (D.seen desk.old).told (D.seen desk.new).told }
    ensures counts { WriteCounts result (D.seen desk.old) (D.seen desk.new) }
{
    make_room(draft, desk)?;
    draft.line(line);
    Ok(())
}

// Some lines, each on its own.
fn put_each<D: Desk>(draft: &mut Draft, desk: &mut D, count: u32, line: Line) -> Result<(), Failed>
    requires open { IsTrue (D.seen desk.old).told.output_open }
    requires short { IsShort line }
    ensures moves { Moves (pushed_all (repeated count (line_pushes line)) draft.old) result draft.new (D.seen desk.old).told
        (D.seen desk.new).told }
    ensures counts { WriteCounts result (D.seen desk.old) (D.seen desk.new) }
{
    for _done in 0..count {
        put_line(draft, desk, line)?;
    }
    Ok(())
}

fn put_again<D: Desk>(
    draft: &mut Draft,
    desk: &mut D,
    template: &mut Template,
) -> Result<(), Failed>
    requires open { IsTrue (D.seen desk.old).told.output_open }
    ensures line { template.new.line ≡ template.old.line }
    ensures moves { Moves (pushed_all (line_pushes template.old.line) draft.old) result draft.new (D.seen desk.old).told
        (D.seen desk.new).told }
    ensures counts { WriteCounts result (D.seen desk.old) (D.seen desk.new) }
{
    make_room(draft, desk)?;
    draft.again(template);
    Ok(())
}

// Some lines by their template.
fn put_copies<D: Desk>(
    draft: &mut Draft,
    desk: &mut D,
    count: u32,
    template: &mut Template,
) -> Result<(), Failed>
    requires open { IsTrue (D.seen desk.old).told.output_open }
    ensures moves { Moves (pushed_all (repeated count (line_pushes template.old.line)) draft.old) result draft.new (D.seen desk.old).told
        (D.seen desk.new).told }
    ensures counts { WriteCounts result (D.seen desk.old) (D.seen desk.new) }
{
    for _done in 0..count {
        put_again(draft, desk, template)?;
    }
    Ok(())
}

// Some lines of which each entry holds four bytes: the first is the template of the others.
fn put_whole<D: Desk>(draft: &mut Draft, desk: &mut D, count: u32, line: Line) -> Result<(), Failed>
    requires open { IsTrue (D.seen desk.old).told.output_open }
    requires short { IsShort line }
    requires whole { AreWhole (line_pushes line) }
    requires some { 1 ≤ count }
    ensures moves { Moves (pushed_all (repeated count (line_pushes line)) draft.old) result draft.new (D.seen desk.old).told
        (D.seen desk.new).told }
    ensures counts { WriteCounts result (D.seen desk.old) (D.seen desk.new) }
{
    make_room(draft, desk)?;
    let mut template = draft.template(line);
    put_copies(draft, desk, count - 1, &mut template)
}

fn put_lines<D: Desk>(draft: &mut Draft, desk: &mut D, count: u32, line: Line) -> Result<(), Failed>
    requires open { IsTrue (D.seen desk.old).told.output_open }
    requires short { IsShort line }
    ensures moves { Moves (pushed_all (repeated count (line_pushes line)) draft.old) result draft.new (D.seen desk.old).told
        (D.seen desk.new).told }
    ensures counts { WriteCounts result (D.seen desk.old) (D.seen desk.new) }
{
    if count > 0 && line.is_whole() {
        put_whole(draft, desk, count, line)
    } else {
        put_each(draft, desk, count, line)
    }
}

// The VBI lines of a field, if there are any, and those that are skipped before them.
fn put_vbi<D: Desk>(
    draft: &mut Draft,
    desk: &mut D,
    frame: &Frame,
    field: Parity,
) -> Result<(), Failed>
    requires open { IsTrue (D.seen desk.old).told.output_open }
    ensures moves { Moves
        (pushed_all (vbi_pushes frame.now.vbi_lines (vbi_skip frame.now field) frame.now.vbi_bytes) draft.old) result draft.new
        (D.seen desk.old).told (D.seen desk.new).told }
    ensures counts { WriteCounts result (D.seen desk.old) (D.seen desk.new) }
{
    let count = frame.desc().vbi_lines;
    if count == 0 {
        return Ok(());
    }
    put_mark(draft, desk, Code::Fm1)?;
    let skipped = vbi_skip(frame.desc(), field);
    put_lines(draft, desk, skipped + count, vbi_line(frame))
}

// The skipped lines and the rows of a field.
fn put_picture<D: Desk>(
    draft: &mut Draft,
    desk: &mut D,
    frame: &Frame,
    field: Parity,
) -> Result<(), Failed>
    requires open { IsTrue (D.seen desk.old).told.output_open }
    ensures moves { Moves (pushed_all (picture_pushes frame.now field) draft.old) result draft.new (D.seen desk.old).told
        (D.seen desk.new).told }
    ensures counts { WriteCounts result (D.seen desk.old) (D.seen desk.new) }
{
    put_mark(draft, desk, data_code(frame.format().is_planar()))?;
    let count = u32::from(frame.desc().skip_lines) + frame.rows_of(field);
    put_lines(draft, desk, count, picture_line(frame))
}

fn put_field<D: Desk>(
    draft: &mut Draft,
    desk: &mut D,
    frame: &Frame,
    field: Parity,
) -> Result<(), Failed>
    requires open { IsTrue (D.seen desk.old).told.output_open }
    ensures moves { Moves (pushed_all (field_pushes frame.now field) draft.old) result draft.new (D.seen desk.old).told
        (D.seen desk.new).told }
    ensures counts { WriteCounts result (D.seen desk.old) (D.seen desk.new) }
{
    put_mark(draft, desk, vertical(field))?;
    put_vbi(draft, desk, frame, field)?;
    put_picture(draft, desk, frame, field)
}

// The described fields, top before bottom.
fn put_frame<D: Desk>(draft: &mut Draft, desk: &mut D, frame: &Frame) -> Result<(), Failed>
    requires open { IsTrue (D.seen desk.old).told.output_open }
    ensures moves { Moves (pushed_all (frame_pushes frame.now) draft.old) result draft.new (D.seen desk.old).told (D.seen desk.new).told }
    ensures counts { WriteCounts result (D.seen desk.old) (D.seen desk.new) }
{
    match frame.desc().fields {
        Fields::Top => put_field(draft, desk, frame, Parity::Top),
        Fields::Bottom => put_field(draft, desk, frame, Parity::Bottom),
        Fields::Both => {
            put_field(draft, desk, frame, Parity::Top)?;
            put_field(draft, desk, frame, Parity::Bottom)
        }
    }
}

fn put_frames<D: Desk>(
    draft: &mut Draft,
    desk: &mut D,
    frame: &Frame,
    frames: u8,
) -> Result<(), Failed>
    requires open { IsTrue (D.seen desk.old).told.output_open }
    ensures moves { Moves (pushed_all (stream_pushes frame.now frames) draft.old) result draft.new (D.seen desk.old).told
        (D.seen desk.new).told }
    ensures counts { WriteCounts result (D.seen desk.old) (D.seen desk.new) }
{
    for _done in 0..frames {
        put_frame(draft, desk, frame)?;
    }
    Ok(())
}

// The end record, and all that was not put yet.
fn put_end<D: Desk>(draft: &mut Draft, desk: &mut D) -> Result<(), Failed>
    requires open { IsTrue (D.seen desk.old).told.output_open }
    ensures puts { Puts (draft.old.bytes ++ 0 ∷ []) result after_write (D.seen desk.old).told (D.seen desk.new).told }
    ensures counts { WriteCounts result (D.seen desk.old) (D.seen desk.new) }
{
    make_room(draft, desk)?;
    draft.append(&[tags::END]);
    put(desk, draft.as_slice())
}

/// Puts a stream of so many frames of a description, whose bytes are drawn from the seed, and answers how
/// many fields and data entries it has. It takes no memory. Where a write fails, a front of the stream was
/// appended (the generator and the stream are this project's own).
#[inline(never)]
pub fn make<D: Desk>(frame: &Frame, seed: u64, frames: u8, desk: &mut D) -> Result<Made, Failed>
    requires frames { (1 ≤ frames) × (frames ≤ 16) }
    requires open { IsTrue (D.seen desk.old).told.output_open }
    ensures puts { Puts (made frame.now seed frames) result after_write (D.seen desk.old).told (D.seen desk.new).told }
    ensures fields { IfOk result (λ made. made.fields ≡ made_fields frame.now frames) }
    ensures entries { IfOk result (λ made. made.entries ≡ made_entries frame.now frames) }
    ensures counts { WriteCounts result (D.seen desk.old) (D.seen desk.new) }
{
    let mut draft = Draft::new(seed);
    draft.append(b"BFS1");
    put_frames(&mut draft, desk, frame, frames)?;
    put_end(&mut draft, desk)?;
    Ok(Made::of(frame, frames))
}
