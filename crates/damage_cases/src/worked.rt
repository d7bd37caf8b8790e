//! Worked fields: which of their rows are whole.

use crate::maps::mapped;
use damage_map::Mapped;
use fifo_model::{Entry, Queue};
use irq_status::HostWrite;
use page_ram::{MapRam, Ram};
use pixel_layout::Parity;
use risc_word::Code;
use std::alloc::Global;
use std::test::Fail;
use sync_status::{Status, StatusKind, kind};

const ONE_ROW: &str =
    "format = \"y8\"\nwidth = 8\nheight = 1\nfields = \"top\"\npages = [0x20000]\n";

const TWO_ROWS: &str =
    "format = \"y8\"\nwidth = 8\nheight = 2\nfields = \"top\"\npages = [0x20000]\n";

fn push(m: &mut Mapped<MapRam>, nibble: u8, dword: u32) {
    if nibble < 16 {
        let status = Status::of(nibble);
        if !matches!(kind(status), StatusKind::Control(_)) {
            m.push(Queue::One, Entry { status, dword });
        }
    }
}

fn turns(m: &mut Mapped<MapRam>, count: u8) {
    for _ in 0..count {
        m.turn();
    }
}

fn tells(m: &Mapped<MapRam>, parity: Parity, rows: Option<&[bool]>) -> bool {
    m.rows(parity) == rows
}

// A field whose first line has 17 bytes in place of 8.
fn take_a_long_line(m: &mut Mapped<MapRam>) {
    m.push_control(Code::Vre);
    m.push_control(Code::Fm1);
    for (nibble, dword) in [
        (2, 0x0302_0100),
        (0, 0x0706_0504),
        (0, 0x0b0a_0908),
        (0, 0x0f0e_0d0c),
        (5, 0x10),
        (2, 0x2322_2120),
        (1, 0x2726_2524),
    ] {
        push(m, nibble, dword);
    }
    // the sixteenth turn is the signal; the next begins to wait, and all others do nothing
    turns(m, 10);
    m.turns(1_000);
}

fn reports(m: &Mapped<MapRam>, turns: u64, moved: u64, int_stat: u32) -> bool {
    let report = m.report();
    report.turns == turns && report.moved == moved && report.int_stat == int_stat
}

#[test]
fn a_line_too_long_is_not_whole(rt: HostRuntime) -> Result<(), Fail> {
    let mut m = mapped(rt.alloc(), TWO_ROWS)?;
    assert!(rt; tells(&m, Parity::Top, None));
    take_a_long_line(&mut m);
    assert!(rt; tells(&m, Parity::Top, Some(&[false, true])));
    assert!(rt; tells(&m, Parity::Bottom, None));
    assert!(rt; reports(&m, 1_010, 16, 0x1000_4800));
    assert!(rt; m.ram().pages() == 1);
    Ok(())
}

// The host empties the queues.
fn empty_queues(m: &mut Mapped<MapRam>) {
    m.host(HostWrite::Enable {
        fifo: false,
        risc: true,
    });
    m.host(HostWrite::Enable {
        fifo: true,
        risc: true,
    });
}

// It does so within the line, of which an entry may be lost.
fn take_an_emptied_line(m: &mut Mapped<MapRam>, loses: bool) {
    m.push_control(Code::Vre);
    m.push_control(Code::Fm1);
    push(m, 2, 0x1312_1110);
    turns(m, 6);
    if loses {
        push(m, 0, 0xa3a2_a1a0);
    }
    empty_queues(m);
    push(m, 1, 0x1716_1514);
    turns(m, 3);
}

// Whether the row is marked whole, or not, behind such a line.
fn emptied_tells(alloc: Global, loses: bool, whole: bool) -> Result<bool, Fail> {
    let mut m = mapped(alloc, ONE_ROW)?;
    take_an_emptied_line(&mut m, loses);
    Ok(tells(&m, Parity::Top, Some(&[whole])))
}

#[test]
fn entries_that_the_host_loses_are_missed(rt: HostRuntime) -> Result<(), Fail> {
    assert!(rt; emptied_tells(rt.alloc(), false, true)?);
    assert!(rt; emptied_tells(rt.alloc(), true, false)?);
    Ok(())
}
