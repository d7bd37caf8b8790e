//! The values of a description.
ghost use Rattle.std.specs.Prelude.{◌≡◌};
ghost use Rattle.capture_desc.specs.WellFormed.{count};

use crate::lists::{ChunkList, Numbers};
use clip_spans::Clips;
use pixel_layout::Format;

/// Which fields a description captures.
#[derive(Clone, Copy, Debug, PartialEq, Eq)]
pub enum Fields {
    /// The top field alone.
    Top,
    /// The bottom field alone.
    Bottom,
    /// Both, whose rows alternate in the picture.
    Both,
}

impl Fields {
    /// How many fields are captured.
    pub fn count(self) -> usize
        ensures { result ≡ count self }
    {
        match self {
            Fields::Top | Fields::Bottom => 1,
            Fields::Both => 2,
        }
    }
}

/// The values of a description, with None for a key that is absent and has no value of its own then.
/// Places and lengths are bytes among the picture's bytes, which are on the pages or chunks in their
/// order. Planes are counted from 1 in the order of the lists.
#[derive(Drop)]
pub struct Desc {
    /// The format of the picture's pixels.
    pub format: Format,
    /// The pixels of a row.
    pub width: u32,
    /// The rows of the picture, of all its fields together.
    pub height: u32,
    /// The fields that are captured.
    pub fields: Fields,
    /// For each plane the bytes from the beginning of a row to that of the next.
    pub stride: Option<Numbers>,
    /// For each plane where its first row begins.
    pub offset: Option<Numbers>,
    /// For each described field, top before bottom, the row of the field whose chroma is the first that is kept.
    pub chroma_first: Option<Numbers>,
    /// The lines of each field that are passed over before its first row.
    pub skip_lines: u8,
    /// The lines of each field that are captured in the vertical blanking interval.
    pub vbi_lines: u32,
    /// The bytes of each such line.
    pub vbi_bytes: u32,
    /// Where the first such line begins.
    pub vbi_offset: Option<u32>,
    /// For each described field, top before bottom, the lines that are passed over before its first such line.
    pub vbi_skip: Option<Numbers>,
    /// The bytes from the beginning of such a line to that of the next.
    pub vbi_stride: Option<u32>,
    /// The rectangles of the picture that keep what memory held, in pixels and picture rows.
    pub clip: Clips,
    /// The address of the program.
    pub base: u32,
    /// The addresses of the pages, of 4,096 bytes each: none where there are chunks.
    pub pages: Numbers,
    /// The chunks, each an address and a length in bytes.
    pub chunks: Option<ChunkList>,
    /// The byte that memory holds before the capture.
    pub fill: u8,
}
