ghost use Rattle.std.specs.Prelude.{◌<◌};
ghost use Rattle.picture_model.specs.Described.{IsDescription};
ghost use Rattle.planar_plan.specs.Lines.{AreSpansOf};

use capture_desc::{Fields, read_desc};
use pixel_layout::Parity;
use planar_plan::{BuildError, BuildFault, Frame, Piece, PieceKind, Pieces, RowSpans};
use risc_word::Ends;
use std::alloc::{AllocError, Global};
use std::test::Fail;

// The frame of a described picture, or its first fault.
pub fn framed(alloc: Global, text: &str) -> Result<Frame, BuildError> {
    match read_desc(alloc, text.as_bytes()) {
        Ok(desc) => Frame::new(alloc, desc),
        Err(_) => Err(BuildError::Memory),
    }
}

// Each picture is owned by a function that ends in one place: dropping one takes the prover long.

// Whether a picture row of a frame has this plan.
fn is_row(alloc: Global, frame: &Frame, row: u32, want: &[Piece]) -> Result<bool, BuildError> {
    if frame.desc().height <= row {
        return Ok(false);
    }
    let pieces = frame.plan_row(alloc, row)?;
    Ok(pieces.as_slice() == want)
}

// Whether a picture row of a description has this plan.
fn plans_row(alloc: Global, text: &str, row: u32, want: &[Piece]) -> Result<bool, BuildError> {
    let frame = framed(alloc, text)?;
    is_row(alloc, &frame, row, want)
}

// Whether a row has this plan, where the spans of some rows are known.
fn plans_by(
    alloc: Global,
    frame: &Frame,
    row: u32,
    spans: &mut RowSpans,
    pieces: &mut Pieces,
    want: &[Piece],
) -> Result<bool, AllocError>
    requires row { row < frame.now.height }
    requires spans { AreSpansOf frame.now spans.old }
    requires description { IsDescription frame.now }
    ensures { AreSpansOf frame.now spans.new }
{
    frame.plan_row_by(alloc, row, spans, pieces)?;
    Ok(pieces.as_slice() == want)
}

// Whether rows 1 and 2 have these plans, where the spans of row 0 are known.
fn are_in_turn(
    alloc: Global,
    frame: &Frame,
    one: &[Piece],
    two: &[Piece],
) -> Result<bool, BuildError> {
    if frame.desc().height < 3 {
        return Ok(false);
    }
    let mut spans = frame.row_spans(alloc, 0)?;
    let mut pieces = Pieces::new(alloc);
    let is_one = plans_by(alloc, frame, 1, &mut spans, &mut pieces, one)?;
    let is_two = plans_by(alloc, frame, 2, &mut spans, &mut pieces, two)?;
    Ok(is_one && is_two)
}

// The same of a description.
fn plans_in_turn(
    alloc: Global,
    text: &str,
    one: &[Piece],
    two: &[Piece],
) -> Result<bool, BuildError> {
    let frame = framed(alloc, text)?;
    are_in_turn(alloc, &frame, one, two)
}

// The rows of the bottom field.
fn bottom_rows(alloc: Global, text: &str) -> Result<u32, BuildError> {
    let frame = framed(alloc, text)?;
    Ok(frame.rows_of(Parity::Bottom))
}

// Whether a skipped line of a frame has this plan.
fn is_skip_line(alloc: Global, frame: &Frame, want: &[Piece]) -> Result<bool, BuildError> {
    let pieces = frame.plan_skip_line(alloc)?;
    Ok(pieces.as_slice() == want)
}

// The same of a description.
fn plans_skip_line(alloc: Global, text: &str, want: &[Piece]) -> Result<bool, BuildError> {
    let frame = framed(alloc, text)?;
    is_skip_line(alloc, &frame, want)
}

// Whether VBI line 1 of a frame's top field has this plan.
fn is_vbi_line(alloc: Global, frame: &Frame, want: &[Piece]) -> Result<bool, BuildError> {
    let desc = frame.desc();
    if desc.fields != Fields::Top || desc.vbi_lines < 2 {
        return Ok(false);
    }
    let pieces = frame.plan_vbi_line(alloc, Parity::Top, 1)?;
    Ok(pieces.as_slice() == want)
}

// The same of a description.
fn plans_vbi_line(alloc: Global, text: &str, want: &[Piece]) -> Result<bool, BuildError> {
    let frame = framed(alloc, text)?;
    is_vbi_line(alloc, &frame, want)
}

// Whether this is a description's first fault.
fn is_refused(alloc: Global, text: &str, fault: BuildFault) -> bool {
    match framed(alloc, text) {
        Ok(_) => false,
        Err(error) => error == BuildError::Bad(fault),
    }
}

// A piece of a packed line.
fn packed(kind: PieceKind, sol: bool, eol: bool, count: u16, addr: u32) -> Piece {
    Piece {
        kind,
        ends: Ends { sol, eol },
        counts: [count, 0, 0],
        addrs: [addr, 0, 0],
    }
}

#[test]
fn a_row_of_4096_bytes_has_two_pieces(rt: HostRuntime) -> Result<(), Fail> {
    let text =
        "format = \"rgb32\"\nwidth = 1024\nheight = 1\nfields = \"top\"\npages = [0x20000]\n";
    let want = [
        packed(PieceKind::Write, true, false, 4092, 0x20000),
        packed(PieceKind::Write, false, true, 4, 0x20ffc),
    ];
    assert!(rt; plans_row(rt.alloc(), text, 0, &want)?);
    Ok(())
}

#[test]
fn a_piece_ends_with_its_page(rt: HostRuntime) -> Result<(), Fail> {
    let text = "format = \"rgb24\"\n\
            width = 5\n\
            height = 1\n\
            fields = \"top\"\n\
            offset = [4089]\n\
            pages = [0x30000, 0x20000]\n";
    let want = [
        packed(PieceKind::Write, true, false, 7, 0x30ff9),
        packed(PieceKind::Write, false, true, 8, 0x20000),
    ];
    assert!(rt; plans_row(rt.alloc(), text, 0, &want)?);
    Ok(())
}

#[test]
fn rows_are_planned_one_after_the_other(rt: HostRuntime) -> Result<(), Fail> {
    let text = "format = \"y8\"\n\
            width = 16\n\
            height = 3\n\
            fields = \"top\"\n\
            clip = [[0, 2, 16, 1]]\n\
            pages = [0x20000]\n";
    let one = [packed(PieceKind::Write, true, true, 16, 0x20010)];
    let two = [packed(PieceKind::Skip, true, true, 16, 0)];
    assert!(rt; plans_in_turn(rt.alloc(), text, &one, &two)?);
    Ok(())
}

const CLIPPED: &str = "format = \"y8\"\n\
        width = 16\n\
        height = 3\n\
        fields = \"top\"\n\
        clip = [[0, 1, 16, 1], [4, 0, 4, 1], [8, 0, 2, 1], [2, 2, 6, 1], [6, 2, 4, 1], [20, 0, 0, 1]]\n\
        pages = [0x20000]\n";

#[test]
fn clipped_pixels_are_skipped(rt: HostRuntime) -> Result<(), Fail> {
    let want = [
        packed(PieceKind::Write, true, false, 4, 0x20000),
        packed(PieceKind::Skip, false, false, 6, 0),
        packed(PieceKind::Write, false, true, 6, 0x2000a),
    ];
    assert!(rt; plans_row(rt.alloc(), CLIPPED, 0, &want)?);
    let want = [packed(PieceKind::Skip, true, true, 16, 0)];
    assert!(rt; plans_row(rt.alloc(), CLIPPED, 1, &want)?);
    let want = [
        packed(PieceKind::Write, true, false, 2, 0x20020),
        packed(PieceKind::Skip, false, false, 8, 0),
        packed(PieceKind::Write, false, true, 6, 0x2002a),
    ];
    assert!(rt; plans_row(rt.alloc(), CLIPPED, 2, &want)?);
    Ok(())
}

#[test]
fn units_are_clipped_whole(rt: HostRuntime) -> Result<(), Fail> {
    let text = "format = \"btyuv\"\n\
            width = 16\n\
            height = 1\n\
            fields = \"top\"\n\
            clip = [[3, 0, 1, 1]]\n\
            pages = [0x20000]\n";
    let want = [
        packed(PieceKind::Skip, true, false, 12, 0),
        packed(PieceKind::Write, false, true, 12, 0x2000c),
    ];
    assert!(rt; plans_row(rt.alloc(), text, 0, &want)?);
    Ok(())
}

#[test]
fn all_planes_are_cut_together(rt: HostRuntime) -> Result<(), Fail> {
    let text = "format = \"yuv411p\"\n\
            width = 64\n\
            height = 1\n\
            fields = \"top\"\n\
            offset = [0, 4090, 4200]\n\
            pages = [0x20000, 0x40000]\n";
    let want = [
        Piece {
            kind: PieceKind::Write,
            ends: Ends {
                sol: true,
                eol: false,
            },
            counts: [24, 6, 6],
            addrs: [0x20000, 0x20ffa, 0x40068],
        },
        Piece {
            kind: PieceKind::Write,
            ends: Ends {
                sol: false,
                eol: true,
            },
            counts: [40, 10, 10],
            addrs: [0x20018, 0x40000, 0x4006e],
        },
    ];
    assert!(rt; plans_row(rt.alloc(), text, 0, &want)?);
    Ok(())
}

// Each field has three rows.
#[test]
fn chroma_of_both_fields_alternates(rt: HostRuntime) -> Result<(), Fail> {
    let text = "format = \"yuv420p\"\nwidth = 16\nheight = 6\npages = [0x20000]\n";
    let ends = Ends {
        sol: true,
        eol: true,
    };
    let kept = Piece {
        kind: PieceKind::Write,
        ends,
        counts: [16, 8, 8],
        addrs: [0x20010, 0x20068, 0x20088],
    };
    assert!(rt; plans_row(rt.alloc(), text, 1, &[kept])?);
    let dropped = Piece {
        kind: PieceKind::WriteLuma,
        ends,
        counts: [16, 8, 8],
        addrs: [0x20020, 0, 0],
    };
    assert!(rt; plans_row(rt.alloc(), text, 2, &[dropped])?);
    assert_eq!(rt; bottom_rows(rt.alloc(), text)?, 3);
    Ok(())
}

// Each field has two rows. The top field's chroma is kept of its row 0, the bottom field's of its row 1.
#[test]
fn chroma_of_another_row_in_the_bottom_field(rt: HostRuntime) -> Result<(), Fail> {
    let text = "format = \"yuv420p\"\n\
            width = 16\n\
            height = 4\n\
            chroma_first = [0, 1]\n\
            pages = [0x20000]\n";
    let ends = Ends {
        sol: true,
        eol: true,
    };
    let top = Piece {
        kind: PieceKind::Write,
        ends,
        counts: [16, 8, 8],
        addrs: [0x20000, 0x20040, 0x20050],
    };
    assert!(rt; plans_row(rt.alloc(), text, 0, &[top])?);
    let dropped = Piece {
        kind: PieceKind::WriteLuma,
        ends,
        counts: [16, 8, 8],
        addrs: [0x20010, 0, 0],
    };
    assert!(rt; plans_row(rt.alloc(), text, 1, &[dropped])?);
    let bottom = Piece {
        kind: PieceKind::Write,
        ends,
        counts: [16, 8, 8],
        addrs: [0x20030, 0x20048, 0x20058],
    };
    assert!(rt; plans_row(rt.alloc(), text, 3, &[bottom])?);
    Ok(())
}

#[test]
fn vbi_lines_stand_a_stride_apart(rt: HostRuntime) -> Result<(), Fail> {
    let text = "format = \"y8\"\n\
            width = 8\n\
            height = 1\n\
            fields = \"top\"\n\
            vbi_lines = 2\n\
            vbi_bytes = 5\n\
            vbi_stride = 16\n\
            pages = [0x20000]\n";
    let vbi = [packed(PieceKind::Write, true, true, 5, 0x20018)];
    assert!(rt; plans_vbi_line(rt.alloc(), text, &vbi)?);
    Ok(())
}

#[test]
fn skipped_lines_and_vbi_lines(rt: HostRuntime) -> Result<(), Fail> {
    let text = "format = \"y8\"\n\
            width = 8\n\
            height = 1\n\
            fields = \"top\"\n\
            skip_lines = 1\n\
            vbi_lines = 2\n\
            vbi_bytes = 5\n\
            pages = [0x20000]\n";
    let skipped = [packed(PieceKind::Skip, true, true, 8, 0)];
    assert!(rt; plans_skip_line(rt.alloc(), text, &skipped)?);
    let vbi = [packed(PieceKind::Write, true, true, 5, 0x2000d)];
    assert!(rt; plans_vbi_line(rt.alloc(), text, &vbi)?);
    Ok(())
}

// A row of eight bytes.
const SMALL: &str = "format = \"y8\"\nwidth = 8\nheight = 1\nfields = \"top\"\n";

#[test]
fn the_first_fault_is_told(rt: HostRuntime) -> Result<(), Fail> {
    let rows = [
        (
            "offset = [8185]\npages = [0x20000, 0x30000]",
            BuildFault::TooFewPages { need: 3, have: 2 },
        ),
        (
            "offset = [8185]\nstride = [7]\npages = [0x20000, 0x30000]",
            BuildFault::StrideShort,
        ),
        (
            "vbi_offset = 100000\npages = [0x20000]",
            BuildFault::TooFewPages { need: 25, have: 1 },
        ),
        (
            "chunks = [[0x20004, 4]]",
            BuildFault::TooFewBytes { need: 8, have: 4 },
        ),
        (
            "chunks = [[0x20000, 8], [0x20004, 8]]",
            BuildFault::PageTwice(1),
        ),
        (
            "vbi_lines = 1\nvbi_bytes = 8\nvbi_stride = 7\npages = [0x20000]",
            BuildFault::VbiRange,
        ),
        (
            "vbi_lines = 2\nvbi_bytes = 5\nvbi_stride = 20\nchunks = [[0x20000, 8]]",
            BuildFault::TooFewBytes { need: 33, have: 8 },
        ),
    ];
    for (lines, fault) in rows {
        let text = format!(in rt.alloc(); "{SMALL}{lines}")?;
        assert!(rt; is_refused(rt.alloc(), text.as_str(), fault), "{lines}");
    }
    Ok(())
}
