// Worked programs and their listings. The words were computed by hand from docs/FORMATS.md, and no run of this
// program made the listings.

/// A program with the byte that fills its memory, and its listing.
pub struct Worked {
    pub base: u32,
    pub words: &'static [u32],
    /// Addresses and lengths in bytes.
    pub chunks: &'static [(u32, u32)],
    pub fill: u8,
    pub listing: &'static [u8],
}

pub static WORKED: [Worked; 22] = [
    // a line of 8 bytes on a page
    Worked {
        base: 0x1000,
        words: &[
            0x8000_8004,
            0,
            0x8000_0006,
            0,
            0x1c00_0008,
            0x0002_0000,
            0x71e1_0000,
            0x1000,
        ],
        chunks: &[(0x0002_0000, 4096)],
        fill: 0,
        listing: b"base 00001000\n\
            00001000 sync vre resync\n\
            00001008 sync fm1\n\
            00001010 write sol eol 8 00020000\n\
            00001018 jump irq set=1 reset=e 00001000\n\
            page 00020000\n\
            fill 00\n",
    },
    // a line longer than one instruction moves
    Worked {
        base: 0x1000,
        words: &[
            0x8000_8004,
            0,
            0x8000_0006,
            0,
            0x1800_0ffc,
            0x0002_0000,
            0x1400_0004,
            0x0002_0ffc,
            0x71e1_0000,
            0x1000,
        ],
        chunks: &[(0x0002_0000, 4096)],
        fill: 0,
        listing: b"base 00001000\n\
            00001000 sync vre resync\n\
            00001008 sync fm1\n\
            00001010 write sol 4092 00020000\n\
            00001018 write eol 4 00020ffc\n\
            00001020 jump irq set=1 reset=e 00001000\n\
            page 00020000\n\
            fill 00\n",
    },
    // a line over two pages
    Worked {
        base: 0x1000,
        words: &[
            0x8000_8004,
            0,
            0x8000_0006,
            0,
            0x1800_0007,
            0x0003_0ff9,
            0x1400_0008,
            0x0002_0000,
            0x71e1_0000,
            0x1000,
        ],
        chunks: &[(0x0002_0000, 4096), (0x0003_0000, 4096)],
        fill: 0,
        listing: b"base 00001000\n\
            00001000 sync vre resync\n\
            00001008 sync fm1\n\
            00001010 write sol 7 00030ff9\n\
            00001018 write eol 8 00020000\n\
            00001020 jump irq set=1 reset=e 00001000\n\
            page 00020000\n\
            page 00030000\n\
            fill 00\n",
    },
    // a picture with clips
    Worked {
        base: 0x1000,
        words: &[
            0x8000_8004,
            0,
            0x8000_0006,
            0,
            0x1800_0004,
            0x0002_0000,
            0x2000_0006,
            0x1400_0006,
            0x0002_000a,
            0x2c00_0010,
            0x1800_0002,
            0x0002_0020,
            0x2000_0008,
            0x1400_0006,
            0x0002_002a,
            0x71e1_0000,
            0x1000,
        ],
        chunks: &[(0x0002_0000, 4096)],
        fill: 0,
        listing: b"base 00001000\n\
            00001000 sync vre resync\n\
            00001008 sync fm1\n\
            00001010 write sol 4 00020000\n\
            00001018 skip 6\n\
            0000101c write eol 6 0002000a\n\
            00001024 skip sol eol 16\n\
            00001028 write sol 2 00020020\n\
            00001030 skip 8\n\
            00001034 write eol 6 0002002a\n\
            0000103c jump irq set=1 reset=e 00001000\n\
            page 00020000\n\
            fill 00\n",
    },
    // a line that begins clipped
    Worked {
        base: 0x1000,
        words: &[
            0x8000_8004,
            0,
            0x8000_0006,
            0,
            0x2800_000c,
            0x1400_000c,
            0x0002_000c,
            0x71e1_0000,
            0x1000,
        ],
        chunks: &[(0x0002_0000, 4096)],
        fill: 0,
        listing: b"base 00001000\n\
            00001000 sync vre resync\n\
            00001008 sync fm1\n\
            00001010 skip sol 12\n\
            00001014 write eol 12 0002000c\n\
            0000101c jump irq set=1 reset=e 00001000\n\
            page 00020000\n\
            fill 00\n",
    },
    // a planar picture of two fields
    Worked {
        base: 0x1000,
        words: &[
            0x8000_8004,
            0,
            0x8000_000e,
            0,
            0x9c00_0010,
            0x0008_0008,
            0x0002_0000,
            0x0002_0060,
            0x0002_0080,
            0xbc00_0010,
            0x0008_0008,
            0x0002_0020,
            0x9c00_0010,
            0x0008_0008,
            0x0002_0040,
            0x0002_0070,
            0x0002_0090,
            0x71e1_0000,
            0x104c,
            0x8000_800c,
            0,
            0x8000_000e,
            0,
            0x9c00_0010,
            0x0008_0008,
            0x0002_0010,
            0x0002_0068,
            0x0002_0088,
            0xbc00_0010,
            0x0008_0008,
            0x0002_0030,
            0x9c00_0010,
            0x0008_0008,
            0x0002_0050,
            0x0002_0078,
            0x0002_0098,
            0x71d2_0000,
            0x1000,
        ],
        chunks: &[(0x0002_0000, 4096)],
        fill: 0,
        listing: b"base 00001000\n\
            00001000 sync vre resync\n\
            00001008 sync fm3\n\
            00001010 write123 sol eol 16 8 8 00020000 00020060 00020080\n\
            00001024 write1s23 sol eol 16 8 8 00020020\n\
            00001030 write123 sol eol 16 8 8 00020040 00020070 00020090\n\
            00001044 jump irq set=1 reset=e 0000104c\n\
            0000104c sync vro resync\n\
            00001054 sync fm3\n\
            0000105c write123 sol eol 16 8 8 00020010 00020068 00020088\n\
            00001070 write1s23 sol eol 16 8 8 00020030\n\
            0000107c write123 sol eol 16 8 8 00020050 00020078 00020098\n\
            00001090 jump irq set=2 reset=d 00001000\n\
            page 00020000\n\
            fill 00\n",
    },
    // planar lines over two pages
    Worked {
        base: 0x1000,
        words: &[
            0x8000_8004,
            0,
            0x8000_000e,
            0,
            0x9800_0018,
            0x0006_0006,
            0x0002_0000,
            0x0002_0ffa,
            0x0004_0068,
            0x9400_0028,
            0x000a_000a,
            0x0002_0018,
            0x0004_0000,
            0x0004_006e,
            0x71e1_0000,
            0x1000,
        ],
        chunks: &[(0x0002_0000, 4096), (0x0004_0000, 4096)],
        fill: 0,
        listing: b"base 00001000\n\
            00001000 sync vre resync\n\
            00001008 sync fm3\n\
            00001010 write123 sol 24 6 6 00020000 00020ffa 00040068\n\
            00001024 write123 eol 40 10 10 00020018 00040000 0004006e\n\
            00001038 jump irq set=1 reset=e 00001000\n\
            page 00020000\n\
            page 00040000\n\
            fill 00\n",
    },
    // a word that begins no instruction, and one that is the second of none
    Worked {
        base: 0x1000,
        words: &[0x8000_8004, 0x1000_0004, 0x7000_0000, 0x1004],
        chunks: &[(0x0002_0000, 4096)],
        fill: 0,
        listing: b"base 00001000\n\
            00001000 word 80008004\n\
            00001004 write 4 70000000\n\
            0000100c word 00001004\n\
            page 00020000\n\
            fill 00\n",
    },
    // writes that go on where the one before stopped
    Worked {
        base: 0x1000,
        words: &[
            0x1800_0004,
            0x0002_0000,
            0x2000_0004,
            0x5400_0004,
            0x7000_0000,
            0x1000,
        ],
        chunks: &[(0x0002_0000, 4096)],
        fill: 0,
        listing: b"base 00001000\n\
            00001000 write sol 4 00020000\n\
            00001008 skip 4\n\
            0000100c writec eol 4\n\
            00001010 jump 00001000\n\
            page 00020000\n\
            fill 00\n",
    },
    // a range that passes 2^32
    Worked {
        base: 0x1000,
        words: &[0x1000_0008, 0xffff_fffc, 0x7000_0000, 0x1000],
        chunks: &[(0xffff_f000, 4096)],
        fill: 0,
        listing: b"base 00001000\n\
            00001000 write 8 fffffffc\n\
            00001008 jump 00001000\n\
            page fffff000\n\
            fill 00\n",
    },
    // a WRITE that leaves lanes out
    Worked {
        base: 0x1000,
        words: &[
            0x8000_8004,
            0,
            0x8000_0006,
            0,
            0x1c00_6008,
            0x0002_0000,
            0x7000_0000,
            0x1000,
        ],
        chunks: &[(0x0002_0000, 4096)],
        fill: 0x55,
        listing: b"base 00001000\n\
            00001000 sync vre resync\n\
            00001008 sync fm1\n\
            00001010 write sol eol off=6 8 00020000\n\
            00001018 jump 00001000\n\
            page 00020000\n\
            fill 55\n",
    },
    // no words
    Worked {
        base: 0x1000,
        words: &[],
        chunks: &[(0x0002_0000, 4096)],
        fill: 0,
        listing: b"base 00001000\n\
            page 00020000\n\
            fill 00\n",
    },
    // a program right before its page
    Worked {
        base: 0x0001_ffe0,
        words: &[
            0x8000_8004,
            0,
            0x8000_0006,
            0,
            0x1c00_0008,
            0x0002_0000,
            0x71e1_0000,
            0x0001_ffe0,
        ],
        chunks: &[(0x0002_0000, 4096)],
        fill: 0,
        listing: b"base 0001ffe0\n\
            0001ffe0 sync vre resync\n\
            0001ffe8 sync fm1\n\
            0001fff0 write sol eol 8 00020000\n\
            0001fff8 jump irq set=1 reset=e 0001ffe0\n\
            page 00020000\n\
            fill 00\n",
    },
    // a SKIP that is reached twice
    Worked {
        base: 0x1000,
        words: &[0x1000_0004, 0x0002_0000, 0x2000_0004, 0x7000_0000, 0x1008],
        chunks: &[(0x0002_0000, 4096)],
        fill: 0,
        listing: b"base 00001000\n\
            00001000 write 4 00020000\n\
            00001008 skip 4\n\
            0000100c jump 00001008\n\
            page 00020000\n\
            fill 00\n",
    },
    // queues 1, 2 and 3
    Worked {
        base: 0x1000,
        words: &[
            0x8000_8004,
            0,
            0x8000_000e,
            0,
            0x9c00_0008,
            0x0008_0008,
            0x0002_0000,
            0x0002_0100,
            0x0002_0200,
            0x71e1_0000,
            0x1000,
        ],
        chunks: &[(0x0002_0000, 4096)],
        fill: 0,
        listing: b"base 00001000\n\
            00001000 sync vre resync\n\
            00001008 sync fm3\n\
            00001010 write123 sol eol 8 8 8 00020000 00020100 00020200\n\
            00001024 jump irq set=1 reset=e 00001000\n\
            page 00020000\n\
            fill 00\n",
    },
    // lines that are skipped
    Worked {
        base: 0x1000,
        words: &[
            0x8000_8004,
            0,
            0x8000_0006,
            0,
            0x2c00_0008,
            0x1c00_0008,
            0x0002_0000,
            0x71e1_0000,
            0x1000,
        ],
        chunks: &[(0x0002_0000, 4096)],
        fill: 0,
        listing: b"base 00001000\n\
            00001000 sync vre resync\n\
            00001008 sync fm1\n\
            00001010 skip sol eol 8\n\
            00001014 write sol eol 8 00020000\n\
            0000101c jump irq set=1 reset=e 00001000\n\
            page 00020000\n\
            fill 00\n",
    },
    // an operand that reads as a SKIP
    Worked {
        base: 0x1000,
        words: &[0x1000_0004, 0x2000_0004, 0x7000_0000, 0x1004],
        chunks: &[(0x2000_0000, 4096)],
        fill: 0,
        listing: b"base 00001000\n\
            00001000 write 4 20000004\n\
            00001008 jump 00001004\n\
            page 20000000\n\
            fill 00\n",
    },
    // a chunk that is no page
    Worked {
        base: 0x1000,
        words: &[
            0x8000_8004,
            0,
            0x8000_0006,
            0,
            0x1c00_0008,
            0x0002_0004,
            0x71e1_0000,
            0x1000,
        ],
        chunks: &[(0x0002_0004, 8)],
        fill: 0,
        listing: b"base 00001000\n\
            00001000 sync vre resync\n\
            00001008 sync fm1\n\
            00001010 write sol eol 8 00020004\n\
            00001018 jump irq set=1 reset=e 00001000\n\
            chunk 00020004 8\n\
            fill 00\n",
    },
    // a line over two chunks
    Worked {
        base: 0x1000,
        words: &[
            0x8000_8004,
            0,
            0x8000_0006,
            0,
            0x1800_0004,
            0x0002_0004,
            0x1400_0004,
            0x0003_0000,
            0x71e1_0000,
            0x1000,
        ],
        chunks: &[(0x0002_0004, 4), (0x0003_0000, 4)],
        fill: 0,
        listing: b"base 00001000\n\
            00001000 sync vre resync\n\
            00001008 sync fm1\n\
            00001010 write sol 4 00020004\n\
            00001018 write eol 4 00030000\n\
            00001020 jump irq set=1 reset=e 00001000\n\
            chunk 00020004 4\n\
            chunk 00030000 4\n\
            fill 00\n",
    },
    // planar lines over two chunks
    Worked {
        base: 0x1000,
        words: &[
            0x8000_8004,
            0,
            0x8000_000e,
            0,
            0x9800_0008,
            0x0004_0004,
            0x0002_0000,
            0x0003_0004,
            0x0003_000a,
            0x9400_0004,
            0x0002_0002,
            0x0003_0000,
            0x0003_0008,
            0x0003_000e,
            0x71e1_0000,
            0x1000,
        ],
        chunks: &[(0x0002_0000, 8), (0x0003_0000, 16)],
        fill: 0,
        listing: b"base 00001000\n\
            00001000 sync vre resync\n\
            00001008 sync fm3\n\
            00001010 write123 sol 8 4 4 00020000 00030004 0003000a\n\
            00001024 write123 eol 4 2 2 00030000 00030008 0003000e\n\
            00001038 jump irq set=1 reset=e 00001000\n\
            chunk 00020000 8\n\
            chunk 00030000 16\n\
            fill 00\n",
    },
    // a ring
    Worked {
        base: 0x1000,
        words: &[
            0x8000_8006,
            0,
            0x1df0_0008,
            0x0002_0000,
            0x1de1_0008,
            0x0002_0008,
            0x7000_0000,
            0x1008,
        ],
        chunks: &[(0x0002_0000, 4096)],
        fill: 0,
        listing: b"base 00001000\n\
            00001000 sync fm1 resync\n\
            00001008 write sol eol irq reset=f 8 00020000\n\
            00001010 write sol eol irq set=1 reset=e 8 00020008\n\
            00001018 jump 00001008\n\
            page 00020000\n\
            fill 00\n",
    },
    // the program of `examples/planar.toml`
    Worked {
        base: 0x1000,
        words: &[
            0x8000_8004,
            0,
            0x8000_000e,
            0,
            0xa800_0008,
            0x0004_0004,
            0x9000_0008,
            0x0004_0004,
            0x0003_1ff8,
            0x0003_0044,
            0x0003_0064,
            0x9400_0010,
            0x0008_0008,
            0x0003_0000,
            0x0003_0048,
            0x0003_0068,
            0x71e1_0000,
            0x1048,
            0x8000_800c,
            0,
            0x8000_000e,
            0,
            0x9c00_0020,
            0x0010_0010,
            0x0003_0010,
            0x0003_0050,
            0x0003_0070,
            0x71d2_0000,
            0x1000,
        ],
        chunks: &[(0x0003_0000, 4096), (0x0003_1000, 4096)],
        fill: 0x11,
        listing: b"base 00001000\n\
            00001000 sync vre resync\n\
            00001008 sync fm3\n\
            00001010 skip123 sol 8 4 4\n\
            00001018 write123 8 4 4 00031ff8 00030044 00030064\n\
            0000102c write123 eol 16 8 8 00030000 00030048 00030068\n\
            00001040 jump irq set=1 reset=e 00001048\n\
            00001048 sync vro resync\n\
            00001050 sync fm3\n\
            00001058 write123 sol eol 32 16 16 00030010 00030050 00030070\n\
            0000106c jump irq set=2 reset=d 00001000\n\
            page 00030000\n\
            page 00031000\n\
            fill 11\n",
    },
];
