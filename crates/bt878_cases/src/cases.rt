// Worked cases. Their files and answers were computed by hand from docs/FORMATS.md and docs/MACHINE.md.

use crate::programs::{ON_CHUNK, Program};
use test_kit::{ONE_LINE, ONE_LINE_LISTING};

/// Bytes in parts: each so many times.
pub type Parts = &'static [(usize, &'static [u8])];

/// A program file, and what is reported of it.
pub struct Judged {
    pub program: Program,
    pub status: u8,
    pub said: &'static [u8],
}

/// A program file and a stream file that are run.
pub struct Played {
    pub program: Program,
    pub stream: Parts,
    pub said: &'static [u8],
    pub image: Parts,
}

/// A program file and a stream file of which one is at fault.
pub struct Unplayed {
    pub program: Program,
    pub stream: Parts,
    pub status: u8,
    pub said: &'static [u8],
}

/// A field of the line of `ONE_LINE` on queue 1, then nine turns.
pub const ONE_LINE_STREAM: &[u8] =
    b"BFS1\x04\x04\x04\x06\x01\x02\x10\x11\x12\x13\x01\x01\x14\x15\x16\x17\x05\x09\x00\x00\x00\x00";

/// What `run` prints of it.
pub const ONE_LINE_REPORT: &[u8] = b"turns 9\nmoved 8\noverruns 0 0 0 0\nstatus 10000800\n";

/// The page that it leaves.
pub const ONE_LINE_IMAGE: Parts = &[
    (
        1,
        b"BMI1\x01\x00\x00\x00\x00\x00\x02\x00\x10\x11\x12\x13\x14\x15\x16\x17",
    ),
    (4088, b"\x00"),
];

/// What `list` prints.
pub static LISTED: [Judged; 6] = [
    // instructions with the fields that aren't 0
    Judged {
        program: Program::OnPage(&ONE_LINE),
        status: 0,
        said: ONE_LINE_LISTING,
    },
    // a program that isn't sound, with words that are no canonical encoding
    Judged {
        program: Program::OnPage(&[0x80008004, 0x10000004, 0x70000000, 0x1004]),
        status: 0,
        said: b"base 00001000\n00001000 word 80008004\n00001004 write 4 70000000\n0000100c word 00001004\npage 00020000\nfill 00\n",
    },
    // a chunk that is no page has its length
    Judged {
        program: Program::Fields(0x1000, ON_CHUNK, &[(0x20004, 8)], 0),
        status: 0,
        said: b"base 00001000\n00001000 sync vre resync\n00001008 sync fm1\n00001010 write sol eol 8 00020004\n\
            00001018 jump irq set=1 reset=e 00001000\nchunk 00020004 8\nfill 00\n",
    },
    // a program of two spans is listed span by span
    Judged {
        program: Program::Bytes(
            b"BRP3\x02\x00\x00\x00\x00\x10\x00\x00\x02\x00\x00\x00\x00\x00\x00p\x00\x20\x00\x00\x00\x20\x00\x00\x02\x00\x00\x00\
            \x00\x00\x00p\x00\x10\x00\x00\x00\x20\x00\x00\x01\x00\x00\x00\x00\x00\x02\x00\x00\x10\x00\x00\x00",
        ),
        status: 0,
        said: b"span 00001000\n00001000 jump 00002000\nspan 00002000\n00002000 jump 00001000\nentry 00002000\npage 00020000\nfill 00\n",
    },
    // pages alone are no chunks of the second form
    Judged {
        program: Program::Bytes(
            b"BRP2\x00\x10\x00\x00\x08\x00\x00\x00\x04\x80\x00\x80\x00\x00\x00\x00\x06\x00\x00\x80\x00\x00\x00\x00\x08\x00\x00\x1c\
            \x00\x00\x02\x00\x00\x00\xe1q\x00\x10\x00\x00\x01\x00\x00\x00\x00\x00\x02\x00\x00\x10\x00\x00\x00",
        ),
        status: 3,
        said: b"program file: pages at 56\n",
    },
    // an empty program file is short
    Judged {
        program: Program::Bytes(b""),
        status: 3,
        said: b"program file: short at 0\n",
    },
];

/// Texts that are no listings, and what `assemble` reports of them.
pub static UNASSEMBLED: [(&[u8], &[u8]); 5] = [
    // the fields of a JUMP in another order
    (
        b"base 00001000\n00001000 sync vre resync\n00001008 sync fm1\n00001010 write sol eol 8 00020000\n\
            00001018 jump irq reset=e set=1 00001000\npage 00020000\nfill 00\n",
        b"listing: line 5\n",
    ),
    // without its last line
    (
        b"base 00001000\n00001000 sync vre resync\n00001008 sync fm1\n00001010 write sol eol 8 00020000\n\
            00001018 jump irq set=1 reset=e 00001000\npage 00020000\n",
        b"listing: short at 6\n",
    ),
    // two words that are a JUMP
    (
        b"base 00001000\n00001000 word 70000000\n00001004 word 00001000\n",
        b"listing: line 3\n",
    ),
    // a line more
    (b"base 00001000\nfill 00\nfill 00\n", b"listing: line 3\n"),
    // nothing
    (b"", b"listing: short at 0\n"),
];

/// What `verify` prints.
pub static JUDGED: [Judged; 18] = [
    // a JUMP into an operand is followed
    Judged {
        program: Program::OnPage(&[0x80008004, 0x10000004, 0x70000000, 0x1004]),
        status: 1,
        said: b"rejected at 00001004, step 2: ungranted 70000000\n",
    },
    // a SKIP leaves the target
    Judged {
        program: Program::OnPage(&[
            0x18000004, 0x20000, 0x20000004, 0x54000004, 0x70000000, 0x1000,
        ]),
        status: 0,
        said: b"accepted\n",
    },
    // EOL forgets the target
    Judged {
        program: Program::OnPage(&[0x1c000004, 0x20000, 0x54000004, 0x70000000, 0x1000]),
        status: 1,
        said: b"rejected at 00001008, step 1: no target\n",
    },
    // SOL forgets the target
    Judged {
        program: Program::OnPage(&[0x18000004, 0x20000, 0x58000004, 0x70000000, 0x1000]),
        status: 1,
        said: b"rejected at 00001008, step 1: no target\n",
    },
    // a range may not pass 2^32
    Judged {
        program: Program::Fields(
            0x1000,
            &[0x10000008, 0xfffffffc, 0x70000000, 0x1000],
            &[(0xfffff000, 4096)],
            0,
        ),
        status: 1,
        said: b"rejected at 00001000, step 0: wrap\n",
    },
    // a range may end at 2^32
    Judged {
        program: Program::Fields(
            0x1000,
            &[0x10000004, 0xfffffffc, 0x70000000, 0x1000],
            &[(0xfffff000, 4096)],
            0,
        ),
        status: 0,
        said: b"accepted\n",
    },
    // a program without words is cut at its base
    Judged {
        program: Program::OnPage(&[]),
        status: 1,
        said: b"rejected at 00001000, step 0: cut\n",
    },
    // an empty program file is short
    Judged {
        program: Program::Bytes(b""),
        status: 3,
        said: b"program file: short at 0\n",
    },
    // a place may come again with another target
    Judged {
        program: Program::OnPage(&[0x10000004, 0x20000, 0x20000004, 0x70000000, 0x1008]),
        status: 0,
        said: b"accepted\n",
    },
    // a place may come again without a target
    Judged {
        program: Program::OnPage(&[0x10000004, 0x20000, 0x50000004, 0x70000000, 0x1008]),
        status: 1,
        said: b"rejected at 00001008, step 3: no target\n",
    },
    // an operand may read as a SKIP
    Judged {
        program: Program::Fields(
            0x1000,
            &[0x10000004, 0x20000004, 0x70000000, 0x1004],
            &[(0x20000000, 4096)],
            0,
        ),
        status: 0,
        said: b"accepted\n",
    },
    // an operand may read as a WRITEC
    Judged {
        program: Program::Fields(
            0x1000,
            &[0x10000004, 0x50000004, 0x70000000, 0x1004],
            &[(0x50000000, 4096)],
            0,
        ),
        status: 1,
        said: b"rejected at 00001004, step 2: no target\n",
    },
    // a chunk ends where it ends
    Judged {
        program: Program::Fields(0x1000, ON_CHUNK, &[(0x20004, 4)], 0),
        status: 1,
        said: b"rejected at 00001010, step 2: ungranted 00020008\n",
    },
    // a driver's loop and its four lists are in buffers of their own
    Judged {
        program: Program::Bytes(
            b"BRP3\x05\x00\x00\x00\x00\x00\xa0\x00\x10\x00\x00\x00\x04\x80\x00\x80\x00\x00\x00\x00\x00\x00\x00p\x00\x10\xa0\x00\
            \x00\x00\x00p\x00\x20\xa0\x00\x00\x00\x00p\x20\x00\xa0\x00\x0c\x80\x00\x80\x00\x00\x00\x00\x00\x00\x00p\x000\xa0\x00\
            \x00\x00\x00p\x00@\xa0\x00\x00\x00\x00p\x00\x00\xa0\x00\x00\x10\xa0\x00\x06\x00\x00\x00\x06\x00\x00\x80\x00\x00\x00\x00\
            \x08\x00\x00\x1c\x00\x00\x02\x00\x00\x00\x00p\x10\x00\xa0\x00\x00\x20\xa0\x00\x06\x00\x00\x00\x06\x00\x00\x80\x00\x00\x00\x00\
            \x08\x00\x00\x1c\x00\x00\x02\x00\x00\x00\x00p\x18\x00\xa0\x00\x000\xa0\x00\x06\x00\x00\x00\x06\x00\x00\x80\x00\x00\x00\x00\
            \x08\x00\x00\x1c\x00\x00\x02\x00\x00\x00\x00p0\x00\xa0\x00\x00@\xa0\x00\x06\x00\x00\x00\x06\x00\x00\x80\x00\x00\x00\x00\
            \x08\x00\x00\x1c\x00\x00\x02\x00\x00\x00\x00p8\x00\xa0\x00\x00\x00\xa0\x00\x01\x00\x00\x00\x00\x00\x02\x00\x00\x10\x00\x00\x00",
        ),
        status: 0,
        said: b"accepted\n",
    },
    // a slot still leads where a list was
    Judged {
        program: Program::Bytes(
            b"BRP3\x05\x00\x00\x00\x00\x00\xa0\x00\x10\x00\x00\x00\x04\x80\x00\x80\x00\x00\x00\x00\x00\x00\x00p\x00\x10\xa0\x00\
            \x00\x00\x00p\x00\x20\xa0\x00\x00\x00\x00p\x20\x00\xa0\x00\x0c\x80\x00\x80\x00\x00\x00\x00\x00\x00\x00p\x000\xa0\x00\
            \x00\x00\x00p\x00P\xa0\x00\x00\x00\x00p\x00\x00\xa0\x00\x00\x10\xa0\x00\x06\x00\x00\x00\x06\x00\x00\x80\x00\x00\x00\x00\
            \x08\x00\x00\x1c\x00\x00\x02\x00\x00\x00\x00p\x10\x00\xa0\x00\x00\x20\xa0\x00\x06\x00\x00\x00\x06\x00\x00\x80\x00\x00\x00\x00\
            \x08\x00\x00\x1c\x00\x00\x02\x00\x00\x00\x00p\x18\x00\xa0\x00\x000\xa0\x00\x06\x00\x00\x00\x06\x00\x00\x80\x00\x00\x00\x00\
            \x08\x00\x00\x1c\x00\x00\x02\x00\x00\x00\x00p0\x00\xa0\x00\x00@\xa0\x00\x06\x00\x00\x00\x06\x00\x00\x80\x00\x00\x00\x00\
            \x08\x00\x00\x1c\x00\x00\x02\x00\x00\x00\x00p8\x00\xa0\x00\x00\x00\xa0\x00\x01\x00\x00\x00\x00\x00\x02\x00\x00\x10\x00\x00\x00",
        ),
        status: 1,
        said: b"rejected at 00a00030, step 15: jump out 00a05000\n",
    },
    // spans that touch are out of order
    Judged {
        program: Program::Bytes(
            b"BRP3\x02\x00\x00\x00\x00\x10\x00\x00\x02\x00\x00\x00\x00\x00\x00p\x08\x10\x00\x00\x08\x10\x00\x00\x02\x00\x00\x00\
            \x00\x00\x00p\x00\x10\x00\x00\x08\x10\x00\x00\x01\x00\x00\x00\x00\x00\x02\x00\x00\x10\x00\x00\x00",
        ),
        status: 3,
        said: b"program file: order at 24\n",
    },
    // a path begins at a word
    Judged {
        program: Program::Bytes(
            b"BRP3\x02\x00\x00\x00\x00\x10\x00\x00\x02\x00\x00\x00\x00\x00\x00p\x00\x20\x00\x00\x00\x20\x00\x00\x02\x00\x00\x00\
            \x00\x00\x00p\x00\x10\x00\x00\x02\x10\x00\x00\x01\x00\x00\x00\x00\x00\x02\x00\x00\x10\x00\x00\x00",
        ),
        status: 3,
        said: b"program file: entry at 40\n",
    },
    // a program has 4,096 spans at most
    Judged {
        program: Program::Bytes(b"BRP3\x01\x10\x00\x00"),
        status: 3,
        said: b"program file: count at 4\n",
    },
];

/// What `run` prints and writes.
static PLAYED: [Played; 12] = [
    // a line is stored and signalled
    Played {
        program: Program::OnPage(&ONE_LINE),
        stream: &[(1, ONE_LINE_STREAM)],
        said: ONE_LINE_REPORT,
        image: ONE_LINE_IMAGE,
    },
    // a line is stored by a list that is in a buffer of its own
    Played {
        program: Program::Bytes(
            b"BRP3\x02\x00\x00\x00\x00\x10\x00\x00\x04\x00\x00\x00\x04\x80\x00\x80\x00\x00\x00\x00\x00\x00\x00p\x00\x20\x00\x00\
            \x00\x20\x00\x00\x06\x00\x00\x00\x06\x00\x00\x80\x00\x00\x00\x00\x08\x00\x00\x1c\x00\x00\x02\x00\x00\x00\xe1q\x00\x10\x00\x00\
            \x00\x10\x00\x00\x01\x00\x00\x00\x00\x00\x02\x00\x00\x10\x00\x00\x00",
        ),
        stream: &[(
            1,
            b"BFS1\x04\x04\x04\x06\x01\x02\x10\x11\x12\x13\x01\x01\x14\x15\x16\x17\x05\x0a\x00\x00\x00\x00",
        )],
        said: b"turns 10\nmoved 8\noverruns 0 0 0 0\nstatus 10000800\n",
        image: ONE_LINE_IMAGE,
    },
    // an empty stream changes nothing
    Played {
        program: Program::OnPage(&ONE_LINE),
        stream: &[(1, b"BFS1\x00")],
        said: b"turns 0\nmoved 0\noverruns 0 0 0 0\nstatus 00000000\n",
        image: &[(1, b"BMI1\x01\x00\x00\x00\x00\x00\x02"), (4097, b"\x00")],
    },
    // the 71st entry of queue 1 overruns
    Played {
        program: Program::OnPage(&ONE_LINE),
        stream: &[
            (1, b"BFS1"),
            (71, b"\x01\x00\xa0\xa1\xa2\xa3"),
            (1, b"\x00"),
        ],
        said: b"turns 0\nmoved 0\noverruns 1 0 0 0\nstatus 00001000\n",
        image: &[(1, b"BMI1\x01\x00\x00\x00\x00\x00\x02"), (4097, b"\x00")],
    },
    // a control code enters no queue where one is full
    Played {
        program: Program::OnPage(&ONE_LINE),
        stream: &[
            (1, b"BFS1"),
            (35, b"\x02\x00\xa0\xa1\xa2\xa3"),
            (1, b"\x04\x04\x05(\x00\x00\x00\x00"),
        ],
        said: b"turns 40\nmoved 0\noverruns 0 0 0 1\nstatus 00001000\n",
        image: &[(1, b"BMI1\x01\x00\x00\x00\x00\x00\x02"), (4097, b"\x00")],
    },
    // lanes that are off are not stored
    Played {
        program: Program::Fields(
            0x1000,
            &[
                0x80008004, 0, 0x80000006, 0, 0x1c006008, 0x20000, 0x70000000, 0x1000,
            ],
            &[(0x20000, 4096)],
            0x55,
        ),
        stream: &[(
            1,
            b"BFS1\x04\x04\x04\x06\x01\x02\x10\x11\x12\x13\x01\x01\x14\x15\x16\x17\x05\x09\x00\x00\x00\x00",
        )],
        said: b"turns 9\nmoved 4\noverruns 0 0 0 0\nstatus 00000000\n",
        image: &[
            (
                1,
                b"BMI1\x01\x00\x00\x00\x00\x00\x02\x00\x10UU\x13\x14UU\x17",
            ),
            (4088, b"U"),
        ],
    },
    // the host stops and restarts the machine
    Played {
        program: Program::OnPage(&ONE_LINE),
        stream: &[(
            1,
            b"BFS1\x04\x04\x04\x06\x05\x05\x00\x00\x00\x07\x00\x01\x02\x10\x11\x12\x13\x07\x03\x05\x02\x00\x00\x00\x00",
        )],
        said: b"turns 7\nmoved 0\noverruns 0 0 0 0\nstatus 00000000\n",
        image: &[(1, b"BMI1\x01\x00\x00\x00\x00\x00\x02"), (4097, b"\x00")],
    },
    // a reserved entry is discarded
    Played {
        program: Program::OnPage(&ONE_LINE),
        stream: &[(
            1,
            b"BFS1\x04\x04\x04\x06\x01\x02\x10\x11\x12\x13\x01\x03\xa0\xa1\xa2\xa3\x01\x01\x14\x15\x16\x17\x05\n\x00\x00\x00\x00",
        )],
        said: b"turns 10\nmoved 8\noverruns 0 0 0 0\nstatus 10004800\n",
        image: &[
            (
                1,
                b"BMI1\x01\x00\x00\x00\x00\x00\x02\x00\x10\x11\x12\x13\x14\x15\x16\x17",
            ),
            (4088, b"\x00"),
        ],
    },
    // three queues are stored
    Played {
        program: Program::OnPage(&[
            0x80008004, 0, 0x8000000e, 0, 0x9c000008, 0x80008, 0x20000, 0x20100, 0x20200,
            0x71e10000, 0x1000,
        ]),
        stream: &[(
            1,
            b"BFS1\x04\x04\x04\x0e\x01\x02\x10\x11\x12\x13\x01\x01\x14\x15\x16\x17\x02\x02 !\x22#\x02\x01$%&'\x03\x020123\x03\x014567\
                \x05\x0d\x00\x00\x00\x00",
        )],
        said: b"turns 13\nmoved 24\noverruns 0 0 0 0\nstatus 10000800\n",
        image: &[
            (
                1,
                b"BMI1\x01\x00\x00\x00\x00\x00\x02\x00\x10\x11\x12\x13\x14\x15\x16\x17",
            ),
            (248, b"\x00"),
            (1, b" !\x22#$%&'"),
            (248, b"\x00"),
            (1, b"01234567"),
            (3576, b"\x00"),
        ],
    },
    // a burst takes a whole line
    Played {
        program: Program::OnPage(&ONE_LINE),
        stream: &[(
            1,
            b"BFS2\x04\x04\x04\x06\x01\x02\x10\x11\x12\x13\x01\x01\x14\x15\x16\x17\x05\x08\x00\x00\x00\x00",
        )],
        said: b"turns 8\nmoved 8\noverruns 0 0 0 0\nstatus 10000800\n",
        image: &[
            (
                1,
                b"BMI1\x01\x00\x00\x00\x00\x00\x02\x00\x10\x11\x12\x13\x14\x15\x16\x17",
            ),
            (4088, b"\x00"),
        ],
    },
    // fewer entries than the trigger point wait
    Played {
        program: Program::OnPage(&ONE_LINE),
        stream: &[(
            1,
            b"BFS2\x04\x04\x04\x06\x01\x02\x10\x11\x12\x13\x05\x06\x00\x00\x00\x00",
        )],
        said: b"turns 6\nmoved 0\noverruns 0 0 0 0\nstatus 00000000\n",
        image: &[(1, b"BMI1\x01\x00\x00\x00\x00\x00\x02"), (4097, b"\x00")],
    },
    // memory may be chunks
    Played {
        program: Program::Fields(0x1000, ON_CHUNK, &[(0x20004, 8)], 0),
        stream: &[(
            1,
            b"BFS1\x04\x04\x04\x06\x01\x02\x10\x11\x12\x13\x01\x01\x14\x15\x16\x17\x05\x09\x00\x00\x00\x00",
        )],
        said: b"turns 9\nmoved 8\noverruns 0 0 0 0\nstatus 10000800\n",
        image: &[(
            1,
            b"BMI2\x01\x00\x00\x00\x04\x00\x02\x00\x08\x00\x00\x00\x10\x11\x12\x13\x14\x15\x16\x17",
        )],
    },
];

/// What `run` reports of files that are at fault.
static UNPLAYED: [Unplayed; 20] = [
    // an unsound program does not run
    Unplayed {
        program: Program::OnPage(&[0x80008004, 0x10000004, 0x70000000, 0x1004]),
        stream: &[(1, b"BFS1\x00")],
        status: 1,
        said: b"rejected at 00001004, step 2: ungranted 70000000\n",
    },
    // no byte may follow the end record
    Unplayed {
        program: Program::OnPage(&ONE_LINE),
        stream: &[(
            1,
            b"BFS1\x04\x04\x04\x06\x01\x02\x10\x11\x12\x13\x01\x01\x14\x15\x16\x17\x05\x09\x00\x00\x00\x00\x00",
        )],
        status: 3,
        said: b"stream file: after end at 26\n",
    },
    // a status is below 16
    Unplayed {
        program: Program::OnPage(&ONE_LINE),
        stream: &[(
            1,
            b"BFS1\x04\x04\x04\x06\x01\x10\x10\x11\x12\x13\x01\x01\x14\x15\x16\x17\x05\x09\x00\x00\x00\x00",
        )],
        status: 3,
        said: b"stream file: status 10 at 9\n",
    },
    // the turns are limited
    Unplayed {
        program: Program::OnPage(&ONE_LINE),
        stream: &[(1, b"BFS1\x05\x01\x00\x00@\x00")],
        status: 3,
        said: b"stream file: too many turns at 5\n",
    },
    // a program begins with its word
    Unplayed {
        program: Program::Bytes(
            b"ARP1\x00\x10\x00\x00\x08\x00\x00\x00\x04\x80\x00\x80\x00\x00\x00\x00\x06\x00\x00\x80\x00\x00\x00\x00\x08\x00\x00\x1c\
            \x00\x00\x02\x00\x00\x00\xe1q\x00\x10\x00\x00\x01\x00\x00\x00\x00\x00\x02\x00\x00",
        ),
        stream: &[(
            1,
            b"BFS1\x04\x04\x04\x06\x01\x02\x10\x11\x12\x13\x01\x01\x14\x15\x16\x17\x05\x09\x00\x00\x00\x00",
        )],
        status: 3,
        said: b"program file: magic at 0\n",
    },
    // the base is a multiple of 4
    Unplayed {
        program: Program::Fields(0x1001, &ONE_LINE, &[(0x20000, 4096)], 0),
        stream: &[(
            1,
            b"BFS1\x04\x04\x04\x06\x01\x02\x10\x11\x12\x13\x01\x01\x14\x15\x16\x17\x05\x09\x00\x00\x00\x00",
        )],
        status: 3,
        said: b"program file: base at 4\n",
    },
    // the number of words is limited
    Unplayed {
        program: Program::Bytes(
            b"BRP1\x00\x10\x00\x00\xff\xff\xff\xff\x04\x80\x00\x80\x00\x00\x00\x00\x06\x00\x00\x80\x00\x00\x00\x00\x08\x00\x00\x1c\
            \x00\x00\x02\x00\x00\x00\xe1q\x00\x10\x00\x00\x01\x00\x00\x00\x00\x00\x02\x00\x00",
        ),
        stream: &[(
            1,
            b"BFS1\x04\x04\x04\x06\x01\x02\x10\x11\x12\x13\x01\x01\x14\x15\x16\x17\x05\x09\x00\x00\x00\x00",
        )],
        status: 3,
        said: b"program file: count at 8\n",
    },
    // the number of pages is limited
    Unplayed {
        program: Program::Bytes(
            b"BRP1\x00\x10\x00\x00\x08\x00\x00\x00\x04\x80\x00\x80\x00\x00\x00\x00\x06\x00\x00\x80\x00\x00\x00\x00\x08\x00\x00\x1c\
            \x00\x00\x02\x00\x00\x00\xe1q\x00\x10\x00\x00\x01\x10\x00\x00\x00\x00\x02\x00\x00",
        ),
        stream: &[(
            1,
            b"BFS1\x04\x04\x04\x06\x01\x02\x10\x11\x12\x13\x01\x01\x14\x15\x16\x17\x05\x09\x00\x00\x00\x00",
        )],
        status: 3,
        said: b"program file: count at 44\n",
    },
    // a page is a multiple of 4,096
    Unplayed {
        program: Program::Bytes(
            b"BRP1\x00\x10\x00\x00\x08\x00\x00\x00\x04\x80\x00\x80\x00\x00\x00\x00\x06\x00\x00\x80\x00\x00\x00\x00\x08\x00\x00\x1c\
            \x00\x00\x02\x00\x00\x00\xe1q\x00\x10\x00\x00\x01\x00\x00\x00\x04\x00\x02\x00\x00",
        ),
        stream: &[(
            1,
            b"BFS1\x04\x04\x04\x06\x01\x02\x10\x11\x12\x13\x01\x01\x14\x15\x16\x17\x05\x09\x00\x00\x00\x00",
        )],
        status: 3,
        said: b"program file: page at 48\n",
    },
    // a page shares no byte with the program
    Unplayed {
        program: Program::Fields(0x1000, &ONE_LINE, &[(0x1000, 4096)], 0),
        stream: &[(
            1,
            b"BFS1\x04\x04\x04\x06\x01\x02\x10\x11\x12\x13\x01\x01\x14\x15\x16\x17\x05\x09\x00\x00\x00\x00",
        )],
        status: 3,
        said: b"program file: overlap at 48\n",
    },
    // pages rise
    Unplayed {
        program: Program::Fields(0x1000, &ONE_LINE, &[(0x20000, 4096), (0x20000, 4096)], 0),
        stream: &[(
            1,
            b"BFS1\x04\x04\x04\x06\x01\x02\x10\x11\x12\x13\x01\x01\x14\x15\x16\x17\x05\x09\x00\x00\x00\x00",
        )],
        status: 3,
        said: b"program file: order at 52\n",
    },
    // no byte may follow the fill
    Unplayed {
        program: Program::Bytes(
            b"BRP1\x00\x10\x00\x00\x08\x00\x00\x00\x04\x80\x00\x80\x00\x00\x00\x00\x06\x00\x00\x80\x00\x00\x00\x00\x08\x00\x00\x1c\
            \x00\x00\x02\x00\x00\x00\xe1q\x00\x10\x00\x00\x01\x00\x00\x00\x00\x00\x02\x00\x00\x00",
        ),
        stream: &[(
            1,
            b"BFS1\x04\x04\x04\x06\x01\x02\x10\x11\x12\x13\x01\x01\x14\x15\x16\x17\x05\x09\x00\x00\x00\x00",
        )],
        status: 3,
        said: b"program file: after end at 53\n",
    },
    // a tag is known
    Unplayed {
        program: Program::OnPage(&ONE_LINE),
        stream: &[(1, b"BFS1\n")],
        status: 3,
        said: b"stream file: tag 0a at 4\n",
    },
    // a control code is known
    Unplayed {
        program: Program::OnPage(&ONE_LINE),
        stream: &[(1, b"BFS1\x04\x03")],
        status: 3,
        said: b"stream file: code 03 at 5\n",
    },
    // a data push is no control code
    Unplayed {
        program: Program::OnPage(&ONE_LINE),
        stream: &[(1, b"BFS1\x01\x04")],
        status: 3,
        said: b"stream file: status 04 at 5\n",
    },
    // enables are below 4
    Unplayed {
        program: Program::OnPage(&ONE_LINE),
        stream: &[(1, b"BFS1\x07\x04")],
        status: 3,
        said: b"stream file: enable 04 at 5\n",
    },
    // a trigger point is below 4
    Unplayed {
        program: Program::OnPage(&ONE_LINE),
        stream: &[(1, b"BFS2\x08\x04\x00")],
        status: 3,
        said: b"stream file: trigger 04 at 5\n",
    },
    // BFS1 has no trigger record
    Unplayed {
        program: Program::OnPage(&ONE_LINE),
        stream: &[(1, b"BFS1\x08\x00\x00")],
        status: 3,
        said: b"stream file: tag 08 at 4\n",
    },
    // pages have one encoding
    Unplayed {
        program: Program::Bytes(
            b"BRP2\x00\x10\x00\x00\x08\x00\x00\x00\x04\x80\x00\x80\x00\x00\x00\x00\x06\x00\x00\x80\x00\x00\x00\x00\x08\x00\x00\x1c\
            \x00\x00\x02\x00\x00\x00\xe1q\x00\x10\x00\x00\x01\x00\x00\x00\x00\x00\x02\x00\x00\x10\x00\x00\x00",
        ),
        stream: &[(
            1,
            b"BFS1\x04\x04\x04\x06\x01\x02\x10\x11\x12\x13\x01\x01\x14\x15\x16\x17\x05\x09\x00\x00\x00\x00",
        )],
        status: 3,
        said: b"program file: pages at 56\n",
    },
    // a length is a multiple of 4
    Unplayed {
        program: Program::Fields(0x1000, ON_CHUNK, &[(0x20004, 6)], 0),
        stream: &[(
            1,
            b"BFS1\x04\x04\x04\x06\x01\x02\x10\x11\x12\x13\x01\x01\x14\x15\x16\x17\x05\x09\x00\x00\x00\x00",
        )],
        status: 3,
        said: b"program file: length at 52\n",
    },
];

/// The streams that `run` plays. Tests ask this function, since each that names the table is proved
/// over all its bytes.
pub fn played_cases() -> &'static [Played] {
    &PLAYED
}

/// The files that `run` refuses, in the same way.
pub fn unplayed_cases() -> &'static [Unplayed] {
    &UNPLAYED
}
