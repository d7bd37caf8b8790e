// The lines of a listing.

ghost use Rattle.std.specs.Prelude.{◌≡◌, ◌<◌};

use page_table::PageSet;
use risc_listing::{InstrLine, list};
use risc_verify::Program;
use risc_word::{Ctl, Instr};
use std::alloc::Global;
use std::fmt::Write;
use std::test::Fail;
use test_kit::{ONE_LINE, ONE_LINE_LISTING};

// The listing of words from 0x1000 on that may write one chunk.
fn listed(alloc: Global, words: &[u32], chunk: (u32, u32), fill: u8) -> Result<Vec<u8>, Fail> {
    if words.len() > 8192 || chunk.0 < 0x20000 {
        return Ok(Vec::new(alloc));
    }
    let grants = PageSet::from_chunks(alloc, &[chunk])?;
    let mut list_of_words = Vec::new(alloc);
    list_of_words.extend_from_slice(words)?;
    let program = Program::new(0x1000, list_of_words, grants);
    Ok(list(alloc, &program, fill)?)
}

const PAGE: (u32, u32) = (0x20000, 4096);

#[test]
fn programs_are_listed(rt: HostRuntime) -> Result<(), Fail> {
    assert_eq!(rt;
        listed(rt.alloc(), &ONE_LINE, PAGE, 0)?.as_slice(),
        ONE_LINE_LISTING
    );
    let operand = [0x8000_8004, 0x1000_0004, 0x7000_0000, 0x1004];
    let lines = b"base 00001000\n\
        00001000 word 80008004\n\
        00001004 write 4 70000000\n\
        0000100c word 00001004\n\
        page 00020000\n\
        fill 00\n";
    assert_eq!(rt;
        listed(rt.alloc(), &operand, PAGE, 0)?.as_slice(),
        lines.as_slice()
    );
    let lines = b"base 00001000\nchunk 00020004 4096\nfill a5\n";
    assert_eq!(rt;
        listed(rt.alloc(), &[], (0x20004, 4096), 0xa5)?.as_slice(),
        lines.as_slice()
    );
    Ok(())
}

#[test]
fn every_field_is_told(rt: HostRuntime) -> Result<(), Fail> {
    let words = [
        0x1da5_9123,
        0xdead_beec,
        0x2da5_0123,
        0x5da5_9fff,
        0x71a5_0000,
        0x1000,
        0x81a5_8004,
        0,
        0x8000_000c,
        0,
        0x8000_000e,
        0,
        0x9da5_9123,
        0x0020_0010,
        0x20000,
        0x20060,
        0x20080,
        0xada5_0123,
        0x0020_0010,
        0xbda5_9123,
        0x0020_0010,
        0x20004,
        0x2000_1004,
        0x2200_0004,
        0x7000_0001,
        0x1000_0004,
    ];
    let lines = b"base 00001000\n\
        00001000 write sol eol irq set=5 reset=a off=9 291 deadbeec\n\
        00001008 skip sol eol irq set=5 reset=a 291\n\
        0000100c writec sol eol irq set=5 reset=a off=9 4095\n\
        00001010 jump irq set=5 reset=a 00001000\n\
        00001018 sync vre resync irq set=5 reset=a\n\
        00001020 sync vro\n\
        00001028 sync fm3\n\
        00001030 write123 sol eol irq set=5 reset=a off=9 291 16 32 00020000 00020060 00020080\n\
        00001044 skip123 sol eol irq set=5 reset=a 291 16 32\n\
        0000104c write1s23 sol eol irq set=5 reset=a off=9 291 16 32 00020004\n\
        00001058 word 20001004\n\
        0000105c word 22000004\n\
        00001060 word 70000001\n\
        00001064 word 10000004\n\
        chunk 00020004 4092\n\
        fill 55\n";
    assert_eq!(rt;
        listed(rt.alloc(), &words, (0x20004, 4092), 0x55)?.as_slice(),
        lines.as_slice()
    );
    Ok(())
}

#[test]
fn fields_out_of_range_are_told_whole(rt: HostRuntime) -> Result<(), Fail> {
    let instr = Instr::Jump {
        ctl: Ctl {
            irq: false,
            set: 16,
            reset: 255,
        },
        target: 0xffff_fffc,
    };
    let line = InstrLine {
        at: 0x1000,
        instr: &instr,
    };
    let mut text = String::new(rt.alloc());
    write!(text, "{line}")?;
    assert_eq!(rt; text.as_str(), "00001000 jump set=10 reset=ff fffffffc\n");
    Ok(())
}

// More lines than are made at once.
#[test]
fn long_programs_are_listed_whole(rt: HostRuntime) -> Result<(), Fail> {
    let words = [0x2000_0004; 6000];
    let text = listed(rt.alloc(), &words, PAGE, 0)?;
    assert_eq!(rt; text.len(), 14 + 16 * 6000 + 14 + 8);
    let last = text.get(text.len() - 38..).unwrap_or(&[]);
    assert_eq!(rt;
        last,
        b"00006dbc skip 4\npage 00020000\nfill 00\n".as_slice()
    );
    Ok(())
}
