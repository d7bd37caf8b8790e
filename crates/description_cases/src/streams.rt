// Streams once through.
ghost use Rattle.std.specs.Prelude.{[], IfOk, codes, ◌∷◌, ◌≡◌, ◌≤◌};
ghost use Rattle.capture_desk.specs.Desks.{IsAllowed};
ghost use Rattle.capture_desk.specs.Memory.{names_of};

use crate::plans::framed;
use capture_desk::{Desk, Failed, MemDesk, Octets};
use field_stream::{Made, line_entries, make};
use planar_plan::{BuildError, Frame};
use std::alloc::{AllocError, Global};
use std::test::Fail;

// A desk with an output of at most so many bytes.
fn desk(alloc: Global, room: usize) -> Result<MemDesk, AllocError>
    ensures { IfOk result (λ desk. names_of desk.outputs ≡ codes "stream" ∷ []) }
{
    let creates = vec![in alloc; Octets::from_list(alloc, b"stream")?]?;
    MemDesk::new(
        alloc,
        Vec::new(alloc),
        Vec::new(alloc),
        creates,
        Vec::new(alloc),
        1000,
        room,
    )
}

// Makes a stream of one frame.
fn put_stream<D: Desk>(frame: &Frame, seed: u64, desk: &mut D) -> Result<Made, Failed>
    requires { IsAllowed (codes "stream") (D.seen desk.old).told.may_create }
{
    desk.create_out("stream")?;
    let made = make(frame, seed, 1, desk)?;
    desk.finish()?;
    Ok(made)
}

// Whether a stream of one frame has these counts; none where it isn't made.
fn has_counts(
    alloc: Global,
    frame: &Frame,
    room: usize,
    want: Option<Made>,
) -> Result<bool, BuildError> {
    let mut desk = desk(alloc, room)?;
    Ok(put_stream(frame, 1, &mut desk).ok() == want)
}

// The same of a description.
fn makes(alloc: Global, text: &str, room: usize, want: Option<Made>) -> Result<bool, BuildError> {
    let frame = framed(alloc, text)?;
    has_counts(alloc, &frame, room, want)
}

// Whether this is written of a stream of one frame.
fn has_bytes(alloc: Global, frame: &Frame, room: usize, want: &[u8]) -> Result<bool, BuildError> {
    let mut desk = desk(alloc, room)?;
    let _made = put_stream(frame, 1, &mut desk);
    Ok(desk.output("stream") == Some(want))
}

// The same of a description.
fn writes(alloc: Global, text: &str, room: usize, want: &[u8]) -> Result<bool, BuildError> {
    let frame = framed(alloc, text)?;
    has_bytes(alloc, &frame, room, want)
}

const SMALLEST: &str =
    "format = \"y8\"\nwidth = 8\nheight = 1\nfields = \"top\"\npages = [0x20000]\n";

const PLANAR: &str = "format = \"yuv420p\"\nwidth = 16\nheight = 6\npages = [0x20000]\n";

const WITH_VBI: &str = "format = \"y8\"\n\
    width = 8\n\
    height = 2\n\
    vbi_lines = 3\n\
    vbi_bytes = 13\n\
    pages = [0x20000]\n";

const SMALLEST_STREAM: &[u8] = b"BFS1\x04\x04\
    \x05\x10\0\0\0\x04\x06\
    \x05\x10\0\0\0\x01\x02\x95\xf1\xd9\x9c\
    \x05\x10\0\0\0\x01\x01\xd3\xf3\x5f\x01\
    \x05\x10\0\0\0\0";

#[test]
fn the_smallest_stream(rt: HostRuntime) -> Result<(), Fail> {
    assert!(rt; writes(rt.alloc(), SMALLEST, 100, SMALLEST_STREAM)?);
    let counts = Made {
        fields: 1,
        entries: 2,
    };
    assert!(rt; makes(rt.alloc(), SMALLEST, 100, Some(counts))?);
    Ok(())
}

#[test]
fn two_fields_of_planar_lines(rt: HostRuntime) -> Result<(), Fail> {
    let counts = Made {
        fields: 2,
        entries: 48,
    };
    assert!(rt; makes(rt.alloc(), PLANAR, 1000, Some(counts))?);
    Ok(())
}

// The counts of a stream of so many frames, without making it.
fn counted(alloc: Global, text: &str, frames: u8) -> Result<Made, BuildError>
    requires { (1 ≤ frames) × (frames ≤ 16) }
{
    let frame = framed(alloc, text)?;
    Ok(Made::of(&frame, frames))
}

#[test]
fn counts_need_no_stream(rt: HostRuntime) -> Result<(), Fail> {
    let smallest = Made {
        fields: 1,
        entries: 2,
    };
    assert!(rt; counted(rt.alloc(), SMALLEST, 1)? == smallest);
    let planar = Made {
        fields: 2,
        entries: 48,
    };
    assert!(rt; counted(rt.alloc(), PLANAR, 1)? == planar);
    let with_vbi = Made {
        fields: 32,
        entries: 448,
    };
    assert!(rt; counted(rt.alloc(), WITH_VBI, 16)? == with_vbi);
    Ok(())
}

#[test]
fn a_desk_that_is_full(rt: HostRuntime) -> Result<(), Fail> {
    assert!(rt; makes(rt.alloc(), SMALLEST, 6, None)?);
    assert!(rt; writes(rt.alloc(), SMALLEST, 6, b"BFS1\x04\x04")?);
    Ok(())
}

#[test]
fn lines_have_an_entry_for_four_bytes(rt: HostRuntime) {
    assert_eq!(rt; line_entries(5), 2);
    assert_eq!(rt; line_entries(8), 2);
    assert_eq!(rt; line_entries(4_092), 1_023);
}
