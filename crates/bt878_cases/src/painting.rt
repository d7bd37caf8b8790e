// A plain painting of a generated stream, apart from the program's own reading of streams and layouts.

/// How a plane of a picture of two fields lies: the queue that delivers it, the offset of its first byte,
/// the bytes from a row to the next, and of how many rows of a field one is kept.
pub struct Plane {
    pub queue: u8,
    pub offset: usize,
    pub stride: usize,
    pub step: usize,
}

/// Formats whose pictures lie alike: their names, the keys of the layout, and the planes.
pub struct Painted {
    pub formats: &'static [&'static str],
    pub layout: &'static str,
    pub planes: &'static [Plane],
}

/// The keys that are the same for each format.
pub const PICTURE: &str = "width = 32\nheight = 12\nfill = 0x55\npages = [0x20000]\n";

const PACKED: &str = "stride = [160]\noffset = [16]\n";

const PLANAR: &str = "stride = [40, 24, 20]\noffset = [8, 1000, 2000]\n";

/// The twelve formats, by the rows of a field whose chroma is kept: with those that have no planes of it, each
/// one, each second and each fourth.
pub static PAINTED: [Painted; 4] = [
    Painted {
        formats: &[
            "rgb32", "rgb24", "rgb16", "rgb15", "yuy2", "y8", "rgb8", "btyuv",
        ],
        layout: PACKED,
        planes: &[Plane {
            queue: 1,
            offset: 16,
            stride: 160,
            step: 1,
        }],
    },
    Painted {
        formats: &["yuv422p", "yuv411p"],
        layout: PLANAR,
        planes: &[
            Plane {
                queue: 1,
                offset: 8,
                stride: 40,
                step: 1,
            },
            Plane {
                queue: 2,
                offset: 1000,
                stride: 24,
                step: 1,
            },
            Plane {
                queue: 3,
                offset: 2000,
                stride: 20,
                step: 1,
            },
        ],
    },
    Painted {
        formats: &["yuv420p"],
        layout: PLANAR,
        planes: &[
            Plane {
                queue: 1,
                offset: 8,
                stride: 40,
                step: 1,
            },
            Plane {
                queue: 2,
                offset: 1000,
                stride: 24,
                step: 2,
            },
            Plane {
                queue: 3,
                offset: 2000,
                stride: 20,
                step: 2,
            },
        ],
    },
    Painted {
        formats: &["yuv410p"],
        layout: PLANAR,
        planes: &[
            Plane {
                queue: 1,
                offset: 8,
                stride: 40,
                step: 1,
            },
            Plane {
                queue: 2,
                offset: 1000,
                stride: 24,
                step: 4,
            },
            Plane {
                queue: 3,
                offset: 2000,
                stride: 20,
                step: 4,
            },
        ],
    },
];

/// A record of a stream: its tag, the byte after it, and the rest.
#[derive(Clone, Copy)]
struct Record<'a> {
    tag: u8,
    code: u8,
    lanes: &'a [u8],
}

/// The first record of what is left of a stream, and what is left after it.
fn next_record(stream: &[u8]) -> Option<(Record, &[u8])> {
    let len = match *stream.first()? {
        1 | 2 | 3 => 6,
        4 => 2,
        5 => 5,
        _ => return None,
    };
    let record = Record {
        tag: *stream.first()?,
        code: *stream.get(1)?,
        lanes: stream.get(2..len)?,
    };
    Some((record, stream.get(len..)?))
}

/// Where the next byte of a queue is painted.
#[derive(Clone, Copy)]
struct Brush {
    frame: usize,
    field: usize,
    line: usize,
    column: usize,
}

impl Brush {
    /// The even rows follow the code 4, the odd ones the code 12.
    fn begin_field(&mut self, code: u8) {
        match code {
            4 => {
                self.frame = self.frame.saturating_add(1);
                self.field = 0;
                self.line = 0;
            }
            12 => {
                self.field = 1;
                self.line = 0;
            }
            _ => {}
        }
    }

    /// The offset of the next byte, where the line is kept.
    fn place(&self, plane: &Plane) -> Option<usize> {
        let step = plane.step.max(1);
        if self.line % step != 0 {
            return None;
        }
        let row = (self.line / step).checked_mul(2)?.checked_add(self.field)?;
        let start = row.checked_mul(plane.stride)?.checked_add(plane.offset)?;
        start.checked_add(self.column)
    }

    fn paint_byte(&mut self, byte: u8, plane: &Plane, picture: &mut [u8]) {
        if self.frame == 2 {
            if let Some(place) = self.place(plane) {
                if let Some(painted) = picture.get_mut(place) {
                    *painted = byte;
                }
            }
        }
        self.column = self.column.saturating_add(1);
    }

    fn paint_entry(&mut self, entry: &Record, plane: &Plane, picture: &mut [u8]) {
        let (valid, ends) = match entry.code {
            1 => (4, true),
            5 => (1, true),
            9 => (2, true),
            13 => (3, true),
            _ => (4, false),
        };
        for byte in entry.lanes.iter().take(valid) {
            self.paint_byte(*byte, plane, picture);
        }
        if ends {
            self.line = self.line.saturating_add(1);
            self.column = 0;
        }
    }
}

/// Paints the plane that the second frame of a stream delivers.
pub fn paint(stream: &[u8], plane: &Plane, picture: &mut [u8]) {
    let mut brush = Brush {
        frame: 0,
        field: 0,
        line: 0,
        column: 0,
    };
    let mut rest = stream.get(4..).unwrap_or_default();
    for _ in 0..stream.len() {
        let Some((record, after)) = next_record(rest) else {
            break;
        };
        if record.tag == 4 {
            brush.begin_field(record.code);
        } else if record.tag == plane.queue {
            brush.paint_entry(&record, plane, picture);
        }
        rest = after;
    }
}
