//! Why a text describes no capture.
ghost use Rattle.std.specs.Prelude.{◌≡◌};
ghost use Rattle.capture_desc.specs.declared.fault.DescError.TheVariants.{Bad, Memory};
ghost use Rattle.capture_desc.specs.Keys.{is_known, name_of};

use crate::lists::KeyText;
use std::alloc::AllocError;
use toml_keys::KnownKeys;

/// A key of a description (this project's own form).
#[derive(Clone, Copy, Debug, PartialEq, Eq)]
pub enum Key {
    /// `format`: the name of a pixel format.
    Format,
    /// `width`: the pixels of a row.
    Width,
    /// `height`: the rows of the picture.
    Height,
    /// `fields`: which fields are captured.
    Fields,
    /// `stride`: for each plane the bytes from a row to the next.
    Stride,
    /// `offset`: for each plane the place of its first byte among the picture's bytes.
    Offset,
    /// `chroma_first`: for each described field the row of it whose chroma is the first that is kept.
    ChromaFirst,
    /// `skip_lines`: the lines of a field that are passed over before its first row.
    SkipLines,
    /// `vbi_lines`: the lines of a field that are captured in the vertical blanking interval.
    VbiLines,
    /// `vbi_bytes`: the bytes of such a line.
    VbiBytes,
    /// `vbi_offset`: the place of the first of these bytes among the picture's bytes.
    VbiOffset,
    /// `vbi_skip`: for each described field the lines that are passed over before its first such line.
    VbiSkip,
    /// `vbi_stride`: the bytes from such a line to the next.
    VbiStride,
    /// `clip`: rectangles that keep what memory held.
    Clip,
    /// `base`: the address of the program.
    Base,
    /// `pages`: the addresses of the pages that take the picture's bytes, in their order.
    Pages,
    /// `chunks`: addresses and lengths of the memory that takes the picture's bytes, in place of pages.
    Chunks,
    /// `fill`: the byte that memory holds before the capture.
    Fill,
}

impl Key {
    /// The key as it is written.
    pub fn name(self) -> &'static str
        ensures { result.now ≡ name_of self }
    {
        match self {
            Key::Format => "format",
            Key::Width => "width",
            Key::Height => "height",
            Key::Fields => "fields",
            Key::Stride => "stride",
            Key::Offset => "offset",
            Key::ChromaFirst => "chroma_first",
            Key::SkipLines => "skip_lines",
            Key::VbiLines => "vbi_lines",
            Key::VbiBytes => "vbi_bytes",
            Key::VbiOffset => "vbi_offset",
            Key::VbiSkip => "vbi_skip",
            Key::VbiStride => "vbi_stride",
            Key::Clip => "clip",
            Key::Base => "base",
            Key::Pages => "pages",
            Key::Chunks => "chunks",
            Key::Fill => "fill",
        }
    }
}

impl KnownKeys for Key {
    ghost is_known = { is_known };

    fn is_known(name: &str) -> bool {
        match name {
            "format" | "width" | "height" | "fields" => true,
            "stride" | "offset" | "chroma_first" | "skip_lines" => true,
            "vbi_lines" | "vbi_bytes" | "vbi_offset" => true,
            "vbi_skip" | "vbi_stride" => true,
            "clip" | "base" | "pages" | "chunks" | "fill" => true,
            _ => false,
        }
    }
}

/// Why a text is no description (this project's own rules).
#[derive(Debug, Drop)]
pub enum DescFault {
    /// No TOML document.
    NotToml,
    /// A key that no description has: of several the least in byte order.
    Unknown(KeyText),
    /// A key that has to be there is not.
    Missing(Key),
    /// The key's value, a member of it or a member's member has another TOML type.
    WrongKind(Key),
    /// The key's value is none of the words or numbers that it may be, or has not as many members as
    /// it may have.
    OutOfRange(Key),
}

/// Why no description was read.
#[derive(Debug, Drop)]
pub enum DescError {
    /// The text is none.
    Bad(DescFault),
    /// Out of memory.
    Memory,
}

impl From<AllocError> for DescError {
    ghost from_gives = { λ _ error. error ≡ Memory };

    fn from(_error: AllocError) -> DescError {
        DescError::Memory
    }
}

impl From<DescFault> for DescError {
    ghost from_gives = { λ fault error. error ≡ Bad fault };

    fn from(fault: DescFault) -> DescError {
        DescError::Bad(fault)
    }
}
