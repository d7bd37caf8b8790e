//! The picture that a description asks for, apart from any code: its places in memory, its geometry, the
//! plans of its lines and its program. The types that the definitions and the code share are here, with
//! the rows and the control codes of a field; the definitions are in `specs/`.
#![tactic(auto)]

mod codes;
mod fault_words;
mod fields;
pub mod laws;

pub use codes::{data_code, vertical};
pub use fields::{chroma_row, describes, field_height, is_both, picture_row, vbi_skip, vbi_stride};
use risc_word::Ends;

/// The most pixels of a row (this project's own limit).
pub const MAX_WIDTH: u32 = 1024;

/// The most rows of a picture (this project's own limit).
pub const MAX_HEIGHT: u32 = 1024;

/// The most lines of VBI data in a field (this project's own limit).
pub const MAX_VBI_LINES: u32 = 32;

/// The fewest bytes of a line on a plane: one DWORD that begins the line and one that ends it with a byte
/// (this project's own rule).
pub const MIN_LINE_BYTES: u32 = 5;

/// The most bytes of a plane that a piece moves, a multiple of 4 that the 12 bits of a byte count hold (this
/// project's own limit).
pub const MAX_PIECE: u32 = 4092;

/// Why a description has no program: the faults of its geometry, in the order in which they are checked
/// (this project's own rules). Places in the list of pages or chunks are counted from 0.
#[derive(Clone, Copy, Debug, PartialEq, Eq)]
pub enum BuildFault {
    /// The width isn't 1 to 1,024 pixels.
    WidthRange,
    /// The height isn't 1 to 1,024 rows.
    HeightRange,
    /// The width is no multiple of the format's unit.
    WidthOffUnit,
    /// Both fields are described, and the height is odd.
    OddHeight,
    /// A row of some plane has fewer than 5 bytes.
    TooNarrow,
    /// The rows of some plane overlap: the stride is below the bytes of a row.
    StrideShort,
    /// In a planar format, the offset or stride of plane 1 is no multiple of the unit.
    OffUnit,
    /// Two planes or VBI areas share a byte.
    Overlap,
    /// More than 32 VBI lines, or VBI lines that aren't of 5 to 4,092 bytes or that overlap: the stride is below the
    /// bytes of one.
    VbiRange,
    /// The first page that is no multiple of 4,096, or the first chunk whose address or length is no
    /// multiple of 4, whose length is 0 or whose end passes 2^32.
    PageUnaligned(u32),
    /// The first page or chunk that shares a byte with one before it.
    PageTwice(u32),
    /// The picture needs so many pages, and so many are there.
    TooFewPages { need: u64, have: u64 },
    /// The picture needs so many bytes, and the chunks have so many.
    TooFewBytes { need: u64, have: u64 },
    /// The base is no multiple of 4, or the program ends beyond 2^32.
    ProgramBase,
    /// The program shares a byte with a page or chunk.
    ProgramOnPage,
}

/// What a piece of a line does.
#[derive(Clone, Copy, Debug, PartialEq, Eq)]
pub enum PieceKind {
    /// Writes its bytes on every plane.
    Write,
    /// Writes its bytes on plane 1 and takes those of planes 2 and 3.
    WriteLuma,
    /// Takes its bytes and writes nothing.
    Skip,
}

/// A part of a line that one instruction moves.
#[derive(Clone, Copy, Debug, PartialEq, Eq)]
pub struct Piece {
    /// What it does with its bytes.
    pub kind: PieceKind,
    /// Whether it is the line's first, and its last.
    pub ends: Ends,
    /// The bytes of each plane; 0 for a plane that isn't moved.
    pub counts: [u16; 3],
    /// The address of its first byte on each plane; 0 for a plane that isn't written.
    pub addrs: [u32; 3],
}
