// Worked cases of `check`: a program that shows a description, and programs that differ. They were computed by hand from
// docs/FORMATS.md and docs/MACHINE.md.
ghost use Rattle.std.specs.Prelude.{◌≡◌, [], Some};
ghost use Rattle.capture_desk.specs.Memory.{all_told};

use crate::buffers::FIRST;
use crate::calls::{LONG, checked, is_at_fault, left_by};
use crate::descriptions::Keys;
use crate::desks::{Limits, described, desk_of};
use crate::programs::{no_words, on_page, one_line};
use capture_desk::MemDesk;
use std::alloc::{AllocError, Global};
use std::test::Fail;
use test_kit::ONE_LINE;

/// The words of a program, changes to the plain description, and what is reported of them.
struct Checked {
    words: &'static [u32],
    changes: Keys,
    status: u8,
    said: &'static [u8],
}

static CHECKED: [Checked; 29] = [
    // the program of a line shows the line
    Checked {
        words: &ONE_LINE,
        changes: &[],
        status: 0,
        said: b"top: shown from 00001000 to 00001018, 2 instructions, jump irq set=1 reset=e\n",
    },
    // also on a chunk, with another base and fill than the program has
    Checked {
        words: &ONE_LINE,
        changes: &[
            ("pages", ""),
            ("chunks", "[[0x20000, 8]]"),
            ("base", "0x5000"),
            ("fill", "7"),
        ],
        status: 0,
        said: b"top: shown from 00001000 to 00001018, 2 instructions, jump irq set=1 reset=e\n",
    },
    // the program of the description would be on its page: that is no fault here
    Checked {
        words: &ONE_LINE,
        changes: &[("pages", "[0x1000]")],
        status: 1,
        said: b"top: differs at 00001010: row 0, queue 1: byte 0 at 00001000 awaited\n",
    },
    // a line on another page
    Checked {
        words: &ONE_LINE,
        changes: &[("pages", "[0x30000]")],
        status: 1,
        said: b"top: differs at 00001010: row 0, queue 1: byte 0 at 00030000 awaited\n",
    },
    // a longer line
    Checked {
        words: &ONE_LINE,
        changes: &[("width", "16")],
        status: 1,
        said: b"top: differs at 00001010: row 0, queue 1: eol at byte 7 of 16\n",
    },
    // a shorter line: the byte behind it awaits nothing
    Checked {
        words: &ONE_LINE,
        changes: &[("width", "5")],
        status: 1,
        said: b"top: differs at 00001010: queue 1: nothing awaited\n",
    },
    // another line: the loop comes round
    Checked {
        words: &ONE_LINE,
        changes: &[("height", "2")],
        status: 1,
        said: b"top: differs at 00001000: row 1, queue 1: byte 0 awaited\n",
    },
    // a line of the blanking interval before the row
    Checked {
        words: &ONE_LINE,
        changes: &[("vbi_lines", "1"), ("vbi_bytes", "8")],
        status: 1,
        said: b"top: differs at 00001010: vbi 0, queue 1: byte 0 at 00020008 awaited\n",
    },
    // a skipped one before it
    Checked {
        words: &ONE_LINE,
        changes: &[("vbi_lines", "1"), ("vbi_bytes", "8"), ("vbi_skip", "[1]")],
        status: 1,
        said: b"top: differs at 00001010: skipped vbi 0, queue 1: byte 0 without a place awaited\n",
    },
    // a skipped line before the row
    Checked {
        words: &ONE_LINE,
        changes: &[("skip_lines", "1")],
        status: 1,
        said: b"top: differs at 00001010: skipped 0, queue 1: byte 0 without a place awaited\n",
    },
    // the end of the row is clipped
    Checked {
        words: &ONE_LINE,
        changes: &[("clip", "[[6, 0, 2, 1]]")],
        status: 1,
        said: b"top: differs at 00001010: row 0, queue 1: byte 6 without a place awaited\n",
    },
    // chroma is awaited
    Checked {
        words: &ONE_LINE,
        changes: &[
            ("format", "\"yuv422p\""),
            ("width", "16"),
            ("offset", "[0, 64, 128]"),
        ],
        status: 1,
        said: b"top: differs at 00001008: sync fm3 awaited\n",
    },
    // the other field
    Checked {
        words: &ONE_LINE,
        changes: &[("fields", "\"bottom\"")],
        status: 1,
        said: b"bottom: differs at 00001000: no sync vro\n",
    },
    // one field of two
    Checked {
        words: &ONE_LINE,
        changes: &[("height", "2"), ("fields", "\"both\"")],
        status: 1,
        said: b"top: shown from 00001000 to 00001018, 2 instructions, jump irq set=1 reset=e\nbottom: differs at 00001000: no sync vro\n",
    },
    // a line in two pieces, behind a JUMP
    Checked {
        words: &[
            0x80008004, 0, 0x70000000, 0x1010, 0x80000006, 0, 0x18000003, 0x20000, 0x14000005,
            0x20003, 0x71e10000, 0x1000,
        ],
        changes: &[],
        status: 0,
        said: b"top: shown from 00001000 to 00001028, 4 instructions, jump irq set=1 reset=e\n",
    },
    // the next field's SYNC ends a field
    Checked {
        words: &[
            0x80008004, 0, 0x80000006, 0, 0x1c000008, 0x20000, 0x80008004, 0, 0x70000000, 0x1000,
        ],
        changes: &[],
        status: 0,
        said: b"top: shown from 00001000 to 00001018, 2 instructions, sync\n",
    },
    // the first SYNC has no RESYNC
    Checked {
        words: &[
            0x80000004, 0, 0x80000006, 0, 0x1c000008, 0x20000, 0x71e10000, 0x1000,
        ],
        changes: &[],
        status: 1,
        said: b"top: differs at 00001000: no resync\n",
    },
    // the loop goes on without another SYNC
    Checked {
        words: &[
            0x80008004, 0, 0x80000006, 0, 0x1c000008, 0x20000, 0x71e10000, 0x1018,
        ],
        changes: &[],
        status: 1,
        said: b"top: differs at 00001018: no next field\n",
    },
    // a WRITEC goes on where a WRITE ended
    Checked {
        words: &[
            0x80008004, 0, 0x80000006, 0, 0x18000004, 0x20000, 0x54000004, 0x71e10000, 0x1000,
        ],
        changes: &[],
        status: 1,
        said: b"top: differs at 00001018: writec\n",
    },
    // two lanes are off
    Checked {
        words: &[
            0x80008004, 0, 0x80000006, 0, 0x1c006008, 0x20000, 0x71e10000, 0x1000,
        ],
        changes: &[],
        status: 1,
        said: b"top: differs at 00001010: lanes off\n",
    },
    // no SYNC for the bytes
    Checked {
        words: &[0x80008004, 0, 0x1c000008, 0x20000, 0x71e10000, 0x1000],
        changes: &[],
        status: 1,
        said: b"top: differs at 00001008: sync fm1 awaited\n",
    },
    // a byte further
    Checked {
        words: &[
            0x80008004, 0, 0x80000006, 0, 0x1c000008, 0x20001, 0x71e10000, 0x1000,
        ],
        changes: &[],
        status: 1,
        said: b"top: differs at 00001010: row 0, queue 1: byte 0 at 00020000 awaited\n",
    },
    // SOL in a line
    Checked {
        words: &[
            0x80008004, 0, 0x80000006, 0, 0x18000003, 0x20000, 0x1c000005, 0x20003, 0x71e10000,
            0x1000,
        ],
        changes: &[],
        status: 1,
        said: b"top: differs at 00001018: row 0, queue 1: no sol awaited at byte 3\n",
    },
    // no SOL
    Checked {
        words: &[
            0x80008004, 0, 0x80000006, 0, 0x14000008, 0x20000, 0x71e10000, 0x1000,
        ],
        changes: &[],
        status: 1,
        said: b"top: differs at 00001010: row 0, queue 1: sol awaited\n",
    },
    // no EOL
    Checked {
        words: &[
            0x80008004, 0, 0x80000006, 0, 0x18000008, 0x20000, 0x71e10000, 0x1000,
        ],
        changes: &[],
        status: 1,
        said: b"top: differs at 00001010: row 0, queue 1: eol awaited\n",
    },
    // EOL in a line
    Checked {
        words: &[
            0x80008004, 0, 0x80000006, 0, 0x1c000003, 0x20000, 0x14000005, 0x20003, 0x71e10000,
            0x1000,
        ],
        changes: &[],
        status: 1,
        said: b"top: differs at 00001010: row 0, queue 1: eol at byte 2 of 8\n",
    },
    // a line more
    Checked {
        words: &[
            0x80008004, 0, 0x80000006, 0, 0x1c000008, 0x20000, 0x1c000008, 0x20008, 0x71e10000,
            0x1000,
        ],
        changes: &[],
        status: 1,
        said: b"top: differs at 00001018: nothing awaited\n",
    },
    // bytes of a queue that has none
    Checked {
        words: &[
            0x80008004, 0, 0x80000006, 0, 0xac000008, 0x4, 0x71e10000, 0x1000,
        ],
        changes: &[],
        status: 1,
        said: b"top: differs at 00001010: row 0, queue 1: byte 0 at 00020000 awaited\n",
    },
    // bytes of queue 2 behind all of the line
    Checked {
        words: &[
            0x80008004, 0, 0x80000006, 0, 0x9c000008, 0x4, 0x20000, 0x20008, 0, 0x71e10000, 0x1000,
        ],
        changes: &[],
        status: 1,
        said: b"top: differs at 00001010: queue 2: nothing awaited\n",
    },
];

/// Whether `check` prints this, and creates nothing.
fn checks(alloc: Global, case: &Checked, longest: usize) -> Result<bool, AllocError> {
    let program = on_page(alloc, case.words)?;
    let description = described(alloc, case.changes)?;
    let left = checked(alloc, &program, &description, &[], longest)?;
    Ok(left.says_only(case.status, case.said) && left.has_faults(0, 0))
}

#[test]
fn programs_are_checked(rt: HostRuntime) -> Result<(), Fail> {
    for case in &CHECKED {
        assert!(rt; checks(rt.alloc(), case, LONG)?);
        assert!(rt; checks(rt.alloc(), case, 1)?);
    }
    Ok(())
}

/// Whether `check` refuses a program and a description so.
fn refuses(
    alloc: Global,
    program: &[u8],
    description: &[u8],
    status: u8,
    said: &[u8],
) -> Result<bool, AllocError> {
    let left = checked(alloc, program, description, &[], LONG)?;
    Ok(left.says_only(status, said) && left.has_faults(0, 0))
}

/// The program is checked first, then the description, by its text and its geometry.
#[test]
fn checks_are_refused(rt: HostRuntime) -> Result<(), Fail> {
    let line = one_line(rt.alloc())?;
    let empty = no_words(rt.alloc())?;
    let said = b"program file: magic at 0\n";
    assert!(rt; refuses(rt.alloc(), FIRST, b"", 3, said)?);
    let said = b"rejected at 00001000, step 0: cut\n";
    assert!(rt; refuses(rt.alloc(), &empty, b"", 1, said)?);
    let said = b"description: missing key format\n";
    assert!(rt; refuses(rt.alloc(), &line, b"", 3, said)?);
    let said = b"description: not toml\n";
    assert!(rt; refuses(rt.alloc(), &line, &line, 3, said)?);
    let small = b"format = \"y8\"\nwidth = 8\nheight = 513\nfields = \"top\"\npages = [0x20000]\n";
    let said = b"geometry: too few pages, need 2, have 1\n";
    assert!(rt; refuses(rt.alloc(), &line, small, 1, said)?);
    Ok(())
}

/// Whether `check` reads what there is of these contents, prints this and has this status.
fn check_on_says(
    alloc: Global,
    contents: &[&[u8]],
    status: u8,
    said: &[u8],
) -> Result<bool, AllocError> {
    let words = ["check", "program", "description"];
    let limits = Limits::new(&[], LONG, 100);
    let left = left_by(alloc, &words, &words[1..], contents, &[], limits)?;
    Ok(left.says(status, said) && left.has_faults(0, 0))
}

/// A program is checked where its description is missing.
#[test]
fn an_input_of_a_check_is_missing(rt: HostRuntime) -> Result<(), Fail> {
    assert!(rt; check_on_says(rt.alloc(), &[], 4, b"read fault\n")?);
    let program = one_line(rt.alloc())?;
    assert!(rt; check_on_says(rt.alloc(), &[&program], 4, b"read fault\n")?);
    let program = no_words(rt.alloc())?;
    let said = b"rejected at 00001000, step 0: cut\n";
    assert!(rt; check_on_says(rt.alloc(), &[&program], 1, said)?);
    Ok(())
}

/// Whether these words are at fault on a desk that has no files, one after the other.
fn are_at_fault(alloc: Global, desk: &mut MemDesk) -> bool
    requires opens { (all_told desk.old).may_open ≡ Some [] }
    requires creates { (all_told desk.old).may_create ≡ Some [] }
{
    is_at_fault(alloc, &["check"], desk)
        && is_at_fault(alloc, &["check", "p"], desk)
        && is_at_fault(alloc, &["check", "p", "d", "e"], desk)
        && is_at_fault(alloc, &["Check", "p", "d"], desk)
}

fn faults_are_said(alloc: Global, said: &[u8]) -> Result<bool, AllocError> {
    let mut desk = desk_of(alloc, &[], &[], &[], Limits::new(&[], LONG, 500))?;
    Ok(are_at_fault(alloc, &mut desk) && desk.said() == said)
}

#[test]
fn words_of_a_check_are_at_fault(rt: HostRuntime) -> Result<(), Fail> {
    let said =
        b"usage: wrong number of words\nusage: wrong number of words\nusage: wrong number of words\nusage: unknown command\n";
    assert!(rt; faults_are_said(rt.alloc(), said)?);
    Ok(())
}
