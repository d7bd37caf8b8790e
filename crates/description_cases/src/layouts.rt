//! Formats of pixels, the rows of fields, and spans of rows with clips.

use capture_desc::Fields;
use clip_spans::{ClipFault, Clips, Rect, Span};
use picture_model::picture_row;
use pixel_layout::{Format, Parity};
use std::test::Fail;

#[test]
fn a_packed_format(rt: HostRuntime) {
    let format = Format::named("btyuv").unwrap_or(Format::Y8);
    assert_eq!(rt; format, Format::BtYuv);
    assert_eq!(rt; format.planes(), 1);
    assert_eq!(rt; format.unit_pixels(), 8);
    assert_eq!(rt; format.is_planar(), false);
    assert_eq!(rt; format.row_bytes(1, 16), 24);
    assert_eq!(rt; format.chroma_row(true, 0), None);
    assert_eq!(rt; Format::named("BtYuv"), None);
}

#[test]
fn a_planar_format(rt: HostRuntime) {
    let format = Format::named("yuv410p").unwrap_or(Format::Y8);
    assert_eq!(rt; format.row_bytes(1, 1024), 1024);
    assert_eq!(rt; format.row_bytes(3, 1024), 256);
    assert_eq!(rt; format.chroma_row(false, 8), Some(2));
    assert_eq!(rt; format.chroma_row(false, 9), None);
    assert_eq!(rt; format.chroma_row(true, 9), Some(3));
    assert_eq!(rt; format.chroma_row(true, 11), None);
    assert_eq!(rt; format.rows_of_chroma(), 4);
    assert_eq!(rt; format.chroma_row_from(true, 2, 9), None);
    assert_eq!(rt; format.chroma_row_from(true, 2, 13), Some(3));
    assert_eq!(rt; format.chroma_row_from(false, 3, 7), Some(1));
}

#[test]
fn rows_of_one_field_and_of_both(rt: HostRuntime) {
    assert_eq!(rt; picture_row(Fields::Bottom, Parity::Bottom, 7), 7);
    assert_eq!(rt; picture_row(Fields::Both, Parity::Top, 7), 14);
    assert_eq!(rt; picture_row(Fields::Both, Parity::Bottom, 7), 15);
    assert_eq!(rt;
        picture_row(Fields::Both, Parity::Bottom, 0xffff_ffff),
        0x1_ffff_ffff
    );
}

const RECTS: [Rect; 6] = [
    Rect {
        x: 0,
        y: 1,
        w: 16,
        h: 1,
    },
    Rect {
        x: 4,
        y: 0,
        w: 4,
        h: 1,
    },
    Rect {
        x: 8,
        y: 0,
        w: 2,
        h: 1,
    },
    Rect {
        x: 2,
        y: 2,
        w: 6,
        h: 1,
    },
    Rect {
        x: 6,
        y: 2,
        w: 4,
        h: 1,
    },
    Rect {
        x: 20,
        y: 0,
        w: 0,
        h: 1,
    },
];

fn span(from: u32, to: u32, clipped: bool) -> Span {
    Span { from, to, clipped }
}

#[test]
fn rows_with_clips_that_touch_and_overlap(rt: HostRuntime) -> Result<(), Fail> {
    let clips = Clips::new(rt.alloc(), &RECTS)?;
    let touching = clips.spans(rt.alloc(), 0, 16, 1)?;
    let want = [span(0, 4, false), span(4, 10, true), span(10, 16, false)];
    assert!(rt; touching.as_slice() == want.as_slice());
    let whole = clips.spans(rt.alloc(), 1, 16, 1)?;
    assert!(rt; whole.as_slice() == [span(0, 16, true)].as_slice());
    let units = clips.spans(rt.alloc(), 2, 16, 8)?;
    assert!(rt; units.as_slice() == [span(0, 16, true)].as_slice());
    Ok(())
}

#[test]
fn rows_up_to_the_next_edge(rt: HostRuntime) -> Result<(), Fail> {
    let clips = Clips::new(rt.alloc(), &RECTS)?;
    assert_eq!(rt; clips.next_edge(0), 1);
    assert_eq!(rt; clips.next_edge(2), 3);
    assert_eq!(rt; clips.next_edge(3), 4_294_967_296);
    Ok(())
}

#[test]
fn sixty_four_are_taken(rt: HostRuntime) -> Result<(), Fail> {
    let beyond = Rect {
        x: u32::MAX,
        y: 0,
        w: u32::MAX,
        h: u32::MAX,
    };
    let far = [beyond; 65];
    let clips = Clips::new(rt.alloc(), &far[..64])?;
    let none = clips.spans(rt.alloc(), 0, 8, 8)?;
    assert!(rt; none.as_slice() == [span(0, 8, false)].as_slice());
    assert_eq!(rt;
        Clips::new(rt.alloc(), &far).err(),
        Some(ClipFault::TooMany)
    );
    Ok(())
}
