//! The pixel formats of a captured picture: units, planes, bytes of a row, rows of chroma.
#![tactic(auto)]

ghost use Rattle.std.specs.Prelude.{◌≡◌, ◌*◌, ◌%◌, ◌≤◌, []};
ghost use Rattle.pixel_layout.specs.Layouts.{chroma_row, chroma_row_from, format_named, layout, planes_of, row_bytes, packed, planar};
ghost use Rattle.pixel_layout.specs.Lines.{IsSmall, line_of};

/// How the bytes of a picture lie in memory: the formats of Linux bttv (`bttv-driver.c`). In a packed
/// format all bytes of a row are on plane 1; in a planar one plane 1 has the luma and planes 2 and 3
/// the chroma.
#[derive(Clone, Copy, Debug, PartialEq, Eq)]
pub enum Format {
    /// Four bytes for each pixel.
    Rgb32,
    /// Three bytes for each pixel.
    Rgb24,
    /// Two bytes for each pixel: 5, 6 and 5 bits.
    Rgb16,
    /// Two bytes for each pixel: 5 bits for each colour.
    Rgb15,
    /// Four bytes for two pixels.
    Yuy2,
    /// One byte for each pixel: luma alone.
    Y8,
    /// One byte for each pixel, of dithered colour.
    Rgb8,
    /// Twelve bytes for eight pixels (that unit is this project's own rule).
    BtYuv,
    /// Planar, with a byte of chroma for 2 pixels of each row.
    Yuv422p,
    /// Planar, with a byte of chroma for 4 pixels of each row.
    Yuv411p,
    /// Planar, with a byte of chroma for 2 pixels of each second row.
    Yuv420p,
    /// Planar, with a byte of chroma for 4 pixels of each fourth row.
    Yuv410p,
}

/// One of the two fields of a picture: the top field has the rows of even number, the bottom field
/// the others, where both are captured.
#[derive(Clone, Copy, Debug, PartialEq, Eq)]
pub enum Parity {
    /// The field of picture row 0.
    Top,
    /// The field of picture row 1.
    Bottom,
}

// A line of the table of formats.
#[derive(Clone, Copy)]
struct Line {
    pixels: u32,
    bytes: u32,
    planar: bool,
    across: u32,
    down: u32,
}

fn packed(pixels: u32, bytes: u32) -> Line
    ensures { result ≡ line_of (packed [] pixels bytes) }
{
    Line {
        pixels,
        bytes,
        planar: false,
        across: 1,
        down: 1,
    }
}

fn planar(across: u32, down: u32) -> Line
    ensures { result ≡ line_of (planar [] across down) }
{
    Line {
        pixels: across,
        bytes: across,
        planar: true,
        across,
        down,
    }
}

impl Format {
    /// The format of this name: `rgb32`, `rgb24`, `rgb16`, `rgb15`, `yuy2`, `y8`, `rgb8`, `btyuv`,
    /// `yuv422p`, `yuv411p`, `yuv420p` or `yuv410p`, in small letters.
    pub fn named(name: &str) -> Option<Format>
        ensures { result ≡ format_named name.now }
    {
        match name {
            "rgb32" => Some(Format::Rgb32),
            "rgb24" => Some(Format::Rgb24),
            "rgb16" => Some(Format::Rgb16),
            "rgb15" => Some(Format::Rgb15),
            "yuy2" => Some(Format::Yuy2),
            "y8" => Some(Format::Y8),
            "rgb8" => Some(Format::Rgb8),
            "btyuv" => Some(Format::BtYuv),
            "yuv422p" => Some(Format::Yuv422p),
            "yuv411p" => Some(Format::Yuv411p),
            "yuv420p" => Some(Format::Yuv420p),
            "yuv410p" => Some(Format::Yuv410p),
            _ => None,
        }
    }

    fn line(self) -> Line
        ensures value { result ≡ line_of (layout self) }
        ensures sizes { IsSmall result }
    {
        match self {
            Format::Rgb32 => packed(1, 4),
            Format::Rgb24 => packed(1, 3),
            Format::Rgb16 | Format::Rgb15 => packed(1, 2),
            Format::Yuy2 => packed(2, 4),
            Format::Y8 | Format::Rgb8 => packed(1, 1),
            Format::BtYuv => packed(8, 12),
            Format::Yuv422p => planar(2, 1),
            Format::Yuv411p => planar(4, 1),
            Format::Yuv420p => planar(2, 2),
            Format::Yuv410p => planar(4, 4),
        }
    }

    /// How many planes the bytes lie on: 1, or 3 with planes of chroma. Planes are counted from 1.
    pub fn planes(self) -> u32
        ensures { result ≡ planes_of (layout self) }
    {
        if self.is_planar() { 3 } else { 1 }
    }

    /// How many pixels of a row have their bytes together: a row is a whole number of such units, and
    /// a unit is captured or clipped as a whole.
    pub fn unit_pixels(self) -> u32
        ensures value { result ≡ (layout self).pixels }
        ensures some { 1 ≤ result }
    {
        self.line().pixels
    }

    /// Whether planes 2 and 3 hold the chroma.
    pub fn is_planar(self) -> bool
        ensures { result ≡ (layout self).planar }
    {
        self.line().planar
    }

    /// How many bytes a row of so many pixels has on a plane.
    #[tactic(auto, using(crate::proofs::Sizes::units_fit))]
    pub fn row_bytes(self, plane: u32, width: u32) -> u32
        requires plane { (1 ≤ plane) × (plane ≤ planes_of (layout self)) }
        requires width { (width ≤ 1024) × (width % (layout self).pixels ≡ 0) }
        ensures { result ≡ row_bytes (layout self) plane width }
    {
        let line = self.line();
        if plane == 1 {
            width / line.pixels * line.bytes
        } else {
            width / line.across
        }
    }

    /// How many rows of a field share a row of chroma, of which one row's is kept; 1 in packed formats.
    pub fn rows_of_chroma(self) -> u32
        ensures value { result ≡ (layout self).down }
        ensures some { 1 ≤ result }
    {
        self.line().down
    }

    /// The row of planes 2 and 3 that takes the chroma of a picture row, or None where there is no
    /// chroma or that row's is dropped. Where `both`, the picture has two fields, whose rows
    /// alternate; the chroma rows of the two fields alternate too. `first` is the row of its field
    /// whose chroma is the first that is kept (this project's own numbering).
    #[tactic(auto, using(crate::proofs::Sizes::place_fits))]
    pub fn chroma_row_from(self, both: bool, first: u32, row: u32) -> Option<u32>
        ensures { result ≡ chroma_row_from (layout self) both first row }
    {
        let line = self.line();
        let field_row = if both { row / 2 } else { row };
        if !line.planar || field_row % line.down != first {
            None
        } else if both {
            Some(2 * (field_row / line.down) + row % 2)
        } else {
            Some(field_row / line.down)
        }
    }

    /// As `chroma_row_from`, where the chroma of the first row of a field is kept.
    pub fn chroma_row(self, both: bool, row: u32) -> Option<u32>
        ensures { result ≡ chroma_row (layout self) both row }
    {
        self.chroma_row_from(both, 0, row)
    }
}
