// Worked cases of descriptions. Their programs, texts and images were computed by hand from docs/FORMATS.md and docs/MACHINE.md.

use crate::cases::Parts;
use std::alloc::{AllocError, Global};
use test_kit::{ONE_LINE, brp};

/// Keys of a description with their values. A key with an empty value isn't there.
pub type Keys = &'static [(&'static str, &'static str)];

/// Changes to the plain description, and the program file that it asks for, with the fill 0. Its chunks are in rising
/// order.
pub struct Compiled {
    pub changes: Keys,
    pub base: u32,
    pub words: &'static [u32],
    pub chunks: &'static [(u32, u32)],
}

impl Compiled {
    /// The program file.
    pub fn program(&self, alloc: Global) -> Result<Vec<u8>, AllocError> {
        brp(alloc, self.base, self.words, self.chunks, 0)
    }
}

/// Changes to the plain description, and what is reported of their fault.
pub struct Refused {
    pub changes: Keys,
    pub status: u8,
    pub said: &'static [u8],
}

/// Changes to the plain description, and what `capture` prints and writes on a stream.
pub struct Captured {
    pub changes: Keys,
    pub stream: Parts,
    pub said: &'static [u8],
    pub image: Parts,
}

/// Changes to the plain description, the length of the stream of one frame that `make` writes, what it
/// prints, and what `capture` prints on that stream.
pub struct Made {
    pub changes: Keys,
    pub length: usize,
    pub said: &'static [u8],
    pub captured: &'static [u8],
}

/// A row of 8 bytes on a page.
pub const PLAIN: Keys = &[
    ("format", "\"y8\""),
    ("width", "8"),
    ("height", "1"),
    ("fields", "\"top\""),
    ("pages", "[0x20000]"),
];

/// The row on two chunks of 4 bytes.
pub const CHUNKED: Keys = &[("pages", ""), ("chunks", "[[0x20004, 4], [0x30000, 4]]")];

/// The row on two chunks, and its program.
pub const ON_CHUNKS: Compiled = Compiled {
    changes: CHUNKED,
    base: 0x1000,
    words: &[
        0x80008004, 0, 0x80000006, 0, 0x18000004, 0x20004, 0x14000004, 0x30000, 0x71e10000, 0x1000,
    ],
    chunks: &[(0x20004, 4), (0x30000, 4)],
};

/// A field of that row on queue 1, then eleven turns.
pub const CHUNKED_STREAM: &[u8] =
    b"BFS1\x04\x04\x04\x06\x01\x02\x10\x11\x12\x13\x01\x01\x14\x15\x16\x17\x05\x0b\x00\x00\x00\x00";

/// The image that it leaves.
pub const CHUNKED_IMAGE: &[u8] =
    b"BMI2\x02\x00\x00\x00\x04\x00\x02\x00\x04\x00\x00\x00\x10\x11\x12\x13\x00\x00\x03\x00\x04\x00\x00\x00\x14\x15\x16\x17";

/// What is printed of it.
pub const CHUNKED_REPORT: &[u8] = b"turns 11\nmoved 8\noverruns 0 0 0 0\nstatus 10000800\n";

/// The stream of one frame of the plain description that seed 1 gives.
pub const SEEDED_STREAM: &[u8] =
    b"BFS1\x04\x04\x05\x10\x00\x00\x00\x04\x06\x05\x10\x00\x00\x00\x01\x02\x95\xf1\xd9\x9c\x05\x10\x00\x00\x00\x01\x01\xd3\xf3\x5f\x01\x05\
        \x10\x00\x00\x00\x00";

/// What `compile` writes.
pub static COMPILED: [Compiled; 12] = [
    // a row on a page
    Compiled {
        changes: &[],
        base: 0x1000,
        words: &ONE_LINE,
        chunks: &[(0x20000, 4096)],
    },
    // a piece has at most 4,092 bytes
    Compiled {
        changes: &[("format", "\"rgb32\""), ("width", "1024")],
        base: 0x1000,
        words: &[
            0x80008004, 0, 0x80000006, 0, 0x18000ffc, 0x20000, 0x14000004, 0x20ffc, 0x71e10000,
            0x1000,
        ],
        chunks: &[(0x20000, 4096)],
    },
    // a pixel crosses the end of a page, and the next page lies below
    Compiled {
        changes: &[
            ("format", "\"rgb24\""),
            ("width", "5"),
            ("offset", "[4089]"),
            ("pages", "[0x30000, 0x20000]"),
        ],
        base: 0x1000,
        words: &[
            0x80008004, 0, 0x80000006, 0, 0x18000007, 0x30ff9, 0x14000008, 0x20000, 0x71e10000,
            0x1000,
        ],
        chunks: &[(0x20000, 4096), (0x30000, 4096)],
    },
    // clips cover a row, touch, overlap and are empty
    Compiled {
        changes: &[
            ("width", "16"),
            ("height", "3"),
            (
                "clip",
                "[[0,1,16,1],[4,0,4,1],[8,0,2,1],[2,2,6,1],[6,2,4,1],[20,0,0,1]]",
            ),
        ],
        base: 0x1000,
        words: &[
            0x80008004, 0, 0x80000006, 0, 0x18000004, 0x20000, 0x20000006, 0x14000006, 0x2000a,
            0x2c000010, 0x18000002, 0x20020, 0x20000008, 0x14000006, 0x2002a, 0x71e10000, 0x1000,
        ],
        chunks: &[(0x20000, 4096)],
    },
    // a unit that is clipped in part is kept as it was
    Compiled {
        changes: &[
            ("format", "\"btyuv\""),
            ("width", "16"),
            ("clip", "[[3,0,1,1]]"),
        ],
        base: 0x1000,
        words: &[
            0x80008004, 0, 0x80000006, 0, 0x2800000c, 0x1400000c, 0x2000c, 0x71e10000, 0x1000,
        ],
        chunks: &[(0x20000, 4096)],
    },
    // two fields of three planes; chroma is kept of each other row of a field
    Compiled {
        changes: &[
            ("format", "\"yuv420p\""),
            ("width", "16"),
            ("height", "6"),
            ("fields", "\"both\""),
        ],
        base: 0x1000,
        words: &[
            0x80008004, 0, 0x8000000e, 0, 0x9c000010, 0x80008, 0x20000, 0x20060, 0x20080,
            0xbc000010, 0x80008, 0x20020, 0x9c000010, 0x80008, 0x20040, 0x20070, 0x20090,
            0x71e10000, 0x104c, 0x8000800c, 0, 0x8000000e, 0, 0x9c000010, 0x80008, 0x20010,
            0x20068, 0x20088, 0xbc000010, 0x80008, 0x20030, 0x9c000010, 0x80008, 0x20050, 0x20078,
            0x20098, 0x71d20000, 0x1000,
        ],
        chunks: &[(0x20000, 4096)],
    },
    // where one plane crosses the end of a page, all three are cut
    Compiled {
        changes: &[
            ("format", "\"yuv411p\""),
            ("width", "64"),
            ("offset", "[0, 4090, 4200]"),
            ("pages", "[0x20000, 0x40000]"),
        ],
        base: 0x1000,
        words: &[
            0x80008004, 0, 0x8000000e, 0, 0x98000018, 0x60006, 0x20000, 0x20ffa, 0x40068,
            0x94000028, 0xa000a, 0x20018, 0x40000, 0x4006e, 0x71e10000, 0x1000,
        ],
        chunks: &[(0x20000, 4096), (0x40000, 4096)],
    },
    // a skipped line
    Compiled {
        changes: &[("skip_lines", "1")],
        base: 0x1000,
        words: &[
            0x80008004, 0, 0x80000006, 0, 0x2c000008, 0x1c000008, 0x20000, 0x71e10000, 0x1000,
        ],
        chunks: &[(0x20000, 4096)],
    },
    // the program may end where a page begins
    Compiled {
        changes: &[("base", "0x1ffe0")],
        base: 0x1ffe0,
        words: &[
            0x80008004, 0, 0x80000006, 0, 0x1c000008, 0x20000, 0x71e10000, 0x1ffe0,
        ],
        chunks: &[(0x20000, 4096)],
    },
    // chunks of 4 bytes
    ON_CHUNKS,
    // chunks that touch are two chunks
    Compiled {
        changes: &[("pages", ""), ("chunks", "[[0x20000, 4], [0x20004, 4]]")],
        base: 0x1000,
        words: &[
            0x80008004, 0, 0x80000006, 0, 0x18000004, 0x20000, 0x14000004, 0x20004, 0x71e10000,
            0x1000,
        ],
        chunks: &[(0x20000, 4), (0x20004, 4)],
    },
    // three planes over two chunks
    Compiled {
        changes: &[
            ("format", "\"yuv422p\""),
            ("width", "12"),
            ("pages", ""),
            ("chunks", "[[0x20000, 8], [0x30000, 16]]"),
        ],
        base: 0x1000,
        words: &[
            0x80008004, 0, 0x8000000e, 0, 0x98000008, 0x40004, 0x20000, 0x30004, 0x3000a,
            0x94000004, 0x20002, 0x30000, 0x30008, 0x3000e, 0x71e10000, 0x1000,
        ],
        chunks: &[(0x20000, 8), (0x30000, 16)],
    },
];

/// What is reported of descriptions with a fault.
pub static REFUSED: [Refused; 26] = [
    Refused {
        changes: &[("offset", "[8185]"), ("pages", "[0x20000, 0x30000]")],
        status: 1,
        said: b"geometry: too few pages, need 3, have 2\n",
    },
    // an earlier fault comes first
    Refused {
        changes: &[
            ("offset", "[8185]"),
            ("pages", "[0x20000, 0x30000]"),
            ("stride", "[7]"),
        ],
        status: 1,
        said: b"geometry: stride short\n",
    },
    Refused {
        changes: &[("width", "")],
        status: 3,
        said: b"description: missing key width\n",
    },
    Refused {
        changes: &[("colour", "1")],
        status: 3,
        said: b"description: unknown key colour\n",
    },
    Refused {
        changes: &[("width", "\"8\"")],
        status: 3,
        said: b"description: wrong kind of key width\n",
    },
    Refused {
        changes: &[("fill", "256")],
        status: 3,
        said: b"description: out of range key fill\n",
    },
    Refused {
        changes: &[("width", "0")],
        status: 1,
        said: b"geometry: width range\n",
    },
    Refused {
        changes: &[("width", "1025")],
        status: 1,
        said: b"geometry: width range\n",
    },
    Refused {
        changes: &[("height", "1025")],
        status: 1,
        said: b"geometry: height range\n",
    },
    Refused {
        changes: &[("format", "\"yuy2\""), ("width", "9")],
        status: 1,
        said: b"geometry: width off unit\n",
    },
    Refused {
        changes: &[("fields", "\"both\""), ("height", "3")],
        status: 1,
        said: b"geometry: odd height\n",
    },
    Refused {
        changes: &[("width", "4")],
        status: 1,
        said: b"geometry: too narrow\n",
    },
    Refused {
        changes: &[("stride", "[7]")],
        status: 1,
        said: b"geometry: stride short\n",
    },
    Refused {
        changes: &[
            ("format", "\"yuv422p\""),
            ("width", "12"),
            ("offset", "[1, 100, 200]"),
        ],
        status: 1,
        said: b"geometry: off unit\n",
    },
    Refused {
        changes: &[
            ("format", "\"yuv422p\""),
            ("width", "12"),
            ("offset", "[0, 8, 20]"),
        ],
        status: 1,
        said: b"geometry: overlap\n",
    },
    Refused {
        changes: &[("vbi_lines", "33")],
        status: 1,
        said: b"geometry: vbi range\n",
    },
    Refused {
        changes: &[("pages", "[0x20004]")],
        status: 1,
        said: b"geometry: page unaligned 0\n",
    },
    Refused {
        changes: &[("pages", "[0x20000, 0x20000]")],
        status: 1,
        said: b"geometry: page twice 1\n",
    },
    Refused {
        changes: &[("base", "2")],
        status: 1,
        said: b"geometry: program base\n",
    },
    // the program ends beyond 2^32
    Refused {
        changes: &[("base", "0xffffffe4")],
        status: 1,
        said: b"geometry: program base\n",
    },
    Refused {
        changes: &[("base", "0x1ffe4")],
        status: 1,
        said: b"geometry: program on page\n",
    },
    Refused {
        changes: &[("pages", ""), ("chunks", "[[0x20004, 4]]")],
        status: 1,
        said: b"geometry: too few bytes, need 8, have 4\n",
    },
    Refused {
        changes: &[("pages", ""), ("chunks", "[[0x20002, 8]]")],
        status: 1,
        said: b"geometry: page unaligned 0\n",
    },
    Refused {
        changes: &[("pages", ""), ("chunks", "[[0x20000, 8], [0x20004, 8]]")],
        status: 1,
        said: b"geometry: page twice 1\n",
    },
    // both pages and chunks
    Refused {
        changes: &[("chunks", "[[0x20004, 4]]")],
        status: 3,
        said: b"description: out of range key chunks\n",
    },
    Refused {
        changes: &[("pages", "")],
        status: 3,
        said: b"description: missing key pages\n",
    },
];

/// What `capture` prints and writes.
pub static CAPTURED: [Captured; 10] = [
    // a generated field
    Captured {
        changes: &[],
        stream: &[(1, SEEDED_STREAM)],
        said: b"turns 64\nmoved 8\noverruns 0 0 0 0\nstatus 10000800\n",
        image: &[
            (
                1,
                b"BMI1\x01\x00\x00\x00\x00\x00\x02\x00\x95\xf1\xd9\x9c\xd3\xf3\x5f\x01",
            ),
            (4088, b"\x00"),
        ],
    },
    // five pixels of 3 bytes
    Captured {
        changes: &[("format", "\"rgb24\""), ("width", "5"), ("fill", "0x55")],
        stream: &[(
            1,
            b"BFS1\x04\x04\x04\x06\x01\x02\x00\x01\x02\x03\x01\x00\x04\x05\x06\x07\x01\x00\x08\x09\x0a\x0b\x01\x0d\x0c\x0d\x0e\xff\
                \x05\x0b\x00\x00\x00\x00",
        )],
        said: b"turns 11\nmoved 15\noverruns 0 0 0 0\nstatus 10000800\n",
        image: &[
            (
                1,
                b"BMI1\x01\x00\x00\x00\x00\x00\x02\x00\x00\x01\x02\x03\x04\x05\x06\x07\x08\x09\x0a\x0b\x0c\x0d\x0e",
            ),
            (4081, b"\x55"),
        ],
    },
    // a short line is given up, and the next one is exact
    Captured {
        changes: &[
            ("width", "16"),
            ("height", "2"),
            ("clip", "[[4,0,4,2]]"),
            ("fill", "0x55"),
        ],
        stream: &[(
            1,
            b"BFS1\x04\x04\x04\x06\x01\x02\xa0\xa1\xa2\xa3\x01\x0d\xa4\xa5\xa6\xff\x01\x02\xb0\xb1\xb2\xb3\x01\x00\xb4\xb5\xb6\xb7\
                \x01\x00\xb8\xb9\xba\xbb\x01\x01\xbc\xbd\xbe\xbf\x05\x15\x00\x00\x00\x00",
        )],
        said: b"turns 21\nmoved 16\noverruns 0 0 0 0\nstatus 10004800\n",
        image: &[
            (1, b"BMI1\x01\x00\x00\x00\x00\x00\x02\x00\xa0\xa1\xa2\xa3"),
            (12, b"\x55"),
            (1, b"\xb0\xb1\xb2\xb3"),
            (4, b"\x55"),
            (1, b"\xb8\xb9\xba\xbb\xbc\xbd\xbe\xbf"),
            (4064, b"\x55"),
        ],
    },
    // what a long line has beyond its row is discarded
    Captured {
        changes: &[("height", "2")],
        stream: &[(
            1,
            b"BFS1\x04\x04\x04\x06\x01\x02\x00\x01\x02\x03\x01\x00\x04\x05\x06\x07\x01\x00\x08\x09\x0a\x0b\x01\x00\x0c\x0d\x0e\x0f\
                \x01\x05\x10\xff\xff\xff\x01\x02\x20\x21\x22\x23\x01\x01\x24\x25\x26\x27\x05\x10\x00\x00\x00\x00",
        )],
        said: b"turns 16\nmoved 16\noverruns 0 0 0 0\nstatus 10004800\n",
        image: &[
            (
                1,
                b"BMI1\x01\x00\x00\x00\x00\x00\x02\x00\x00\x01\x02\x03\x04\x05\x06\x07\x20\x21\x22\x23\x24\x25\x26\x27",
            ),
            (4080, b"\x00"),
        ],
    },
    // a field that lacks a line is signalled, and the next field is exact
    Captured {
        changes: &[("height", "2")],
        stream: &[(
            1,
            b"BFS1\x04\x04\x04\x06\x01\x02\x20\x21\x22\x23\x01\x01\x24\x25\x26\x27\x04\x04\x04\x06\x01\x02\x30\x31\x32\x33\x01\x01\
                \x34\x35\x36\x37\x01\x02\x40\x41\x42\x43\x01\x01\x44\x45\x46\x47\x05\x18\x00\x00\x00\x00",
        )],
        said: b"turns 24\nmoved 24\noverruns 0 0 0 0\nstatus 10004800\n",
        image: &[
            (
                1,
                b"BMI1\x01\x00\x00\x00\x00\x00\x02\x00\x30\x31\x32\x33\x34\x35\x36\x37\x40\x41\x42\x43\x44\x45\x46\x47",
            ),
            (4080, b"\x00"),
        ],
    },
    // after a storm that overruns its queue the next field is exact
    Captured {
        changes: &[("height", "2")],
        stream: &[
            (1, b"BFS1\x04\x04\x04\x06"),
            (100, b"\x01\x00\xa0\xa1\xa2\xa3"),
            (
                1,
                b"\x05\x49\x00\x00\x00\x04\x04\x04\x06\x01\x02\x30\x31\x32\x33\x01\x01\x34\x35\x36\x37\x01\x02\x40\x41\x42\x43\x01\
                    \x01\x44\x45\x46\x47\x05\x10\x00\x00\x00\x00",
            ),
        ],
        said: b"turns 89\nmoved 16\noverruns 32 0 0 0\nstatus 10005800\n",
        image: &[
            (
                1,
                b"BMI1\x01\x00\x00\x00\x00\x00\x02\x00\x30\x31\x32\x33\x34\x35\x36\x37\x40\x41\x42\x43\x44\x45\x46\x47",
            ),
            (4080, b"\x00"),
        ],
    },
    // bursts of 4 entries signal a line of 8 in the ninth turn
    Captured {
        changes: &[("width", "32")],
        stream: &[
            (1, b"BFS2\x04\x04\x04\x06\x01\x02\xa0\xa1\xa2\xa3"),
            (6, b"\x01\x00\xa0\xa1\xa2\xa3"),
            (1, b"\x01\x01\xa0\xa1\xa2\xa3\x05\x08\x00\x00\x00\x00"),
        ],
        said: b"turns 8\nmoved 32\noverruns 0 0 0 0\nstatus 00000000\n",
        image: &[
            (1, b"BMI1\x01\x00\x00\x00\x00\x00\x02\x00"),
            (8, b"\xa0\xa1\xa2\xa3"),
            (4064, b"\x00"),
        ],
    },
    Captured {
        changes: &[("width", "32")],
        stream: &[
            (1, b"BFS2\x04\x04\x04\x06\x01\x02\xa0\xa1\xa2\xa3"),
            (6, b"\x01\x00\xa0\xa1\xa2\xa3"),
            (1, b"\x01\x01\xa0\xa1\xa2\xa3\x05\x09\x00\x00\x00\x00"),
        ],
        said: b"turns 9\nmoved 32\noverruns 0 0 0 0\nstatus 10000800\n",
        image: &[
            (1, b"BMI1\x01\x00\x00\x00\x00\x00\x02\x00"),
            (8, b"\xa0\xa1\xa2\xa3"),
            (4064, b"\x00"),
        ],
    },
    // bursts of 8 entries signal it in the eighth
    Captured {
        changes: &[("width", "32")],
        stream: &[
            (1, b"BFS2\x08\x01\x04\x04\x04\x06\x01\x02\xa0\xa1\xa2\xa3"),
            (6, b"\x01\x00\xa0\xa1\xa2\xa3"),
            (1, b"\x01\x01\xa0\xa1\xa2\xa3\x05\x08\x00\x00\x00\x00"),
        ],
        said: b"turns 8\nmoved 32\noverruns 0 0 0 0\nstatus 10000800\n",
        image: &[
            (1, b"BMI1\x01\x00\x00\x00\x00\x00\x02\x00"),
            (8, b"\xa0\xa1\xa2\xa3"),
            (4064, b"\x00"),
        ],
    },
    // chunks of 4 bytes
    Captured {
        changes: CHUNKED,
        stream: &[(1, CHUNKED_STREAM)],
        said: CHUNKED_REPORT,
        image: &[(1, CHUNKED_IMAGE)],
    },
];

/// What `make` prints with seed 1, and `capture` of its stream.
pub static MADE: [Made; 3] = [
    Made {
        changes: &[],
        length: 41,
        said: b"fields 1 entries 2\n",
        captured: b"turns 64\nmoved 8\noverruns 0 0 0 0\nstatus 10000800\n",
    },
    // two fields of three planes
    Made {
        changes: &[
            ("format", "\"yuv420p\""),
            ("width", "16"),
            ("height", "6"),
            ("fields", "\"both\""),
        ],
        length: 561,
        said: b"fields 2 entries 48\n",
        captured: b"turns 832\nmoved 160\noverruns 0 0 0 0\nstatus 20000800\n",
    },
    // three planes over two chunks
    Made {
        changes: &[
            ("format", "\"yuv422p\""),
            ("width", "12"),
            ("pages", ""),
            ("chunks", "[[0x20000, 8], [0x30000, 16]]"),
        ],
        length: 96,
        said: b"fields 1 entries 7\n",
        captured: b"turns 144\nmoved 24\noverruns 0 0 0 0\nstatus 10000800\n",
    },
];
