//! Machines that are watched.

use crate::machine::made;
use fifo_model::{Entry, Queue};
use machine_watch::{Watch, Watched};
use page_ram::{MapRam, Ram};
use ring_compile::{Ring, read_ring};
use ring_machine::{BlockCount, RingMachine};
use risc_word::Code;
use std::alloc::Global;
use std::test::Fail;
use sync_status::{Status, StatusKind, kind};
use test_kit::TWO_BLOCKS;

// A line of twelve bytes behind VRE and FM1, and the signal of the top field.
const LINE: [u32; 8] = [
    0x8000_8004,
    0,
    0x8000_0006,
    0,
    0x1c00_000c,
    0x20000,
    0x71e1_0000,
    0x1000,
];

// The ring of `TWO_BLOCKS`.
const RING: &[u8] = b"blocks = 2\nlines = 1\nline_bytes = 8\npages = [0x20000]\nfill = 7\n";

// Three lines of eight bytes.
const LINES: [(u8, u32); 6] = [
    (2, 0x1312_1110),
    (1, 0x1716_1514),
    (2, 0x2322_2120),
    (1, 0x2726_2524),
    (2, 0x3332_3130),
    (1, 0x3736_3534),
];

// A push to queue 1, and so many turns behind it.
fn push<W: Watch>(m: &mut Watched<MapRam, W>, nibble: u8, dword: u32, count: u32) {
    if nibble < 16 {
        let status = Status::of(nibble);
        if !matches!(kind(status), StatusKind::Control(_)) {
            m.push_and_turns(Queue::One, Entry { status, dword }, count);
        }
    }
}

// The start of a line, which the turn behind it takes by its verdict, a DWORD with a turn to spare, and the end, to which no
// turn belongs.
fn takes_a_line(m: &mut Watched<MapRam, ()>) -> bool {
    m.push_control(Code::Vre);
    m.push_control(Code::Fm1);
    m.turns(5);
    push(m, 2, 0x1312_1110, 1);
    push(m, 0, 0x1716_1514, 2);
    push(m, 1, 0x1b1a_1918, 0);
    m.turn();
    m.turns(2);
    let report = m.report();
    report.turns == 11 && report.moved == 12 && report.int_stat == 0x1000_0800
}

#[test]
fn a_machine_that_nobody_watches(rt: HostRuntime) -> Result<(), Fail> {
    let mut m = Watched::new(made(rt.alloc(), &LINE, 0)?, ());
    assert!(rt; takes_a_line(&mut m));
    assert!(rt; m.machine().program().base() == 0x1000);
    let machine = m.into_machine();
    assert!(rt; machine.report().turns == 11);
    Ok(())
}

// Queue 1 takes 70 entries and loses the next, queues 2 and 3 take 35 each; six more are lost.
fn loses_seven(m: &mut Watched<MapRam, ()>) -> bool {
    let status = Status::of(0);
    for dword in 0..71 {
        m.push(Queue::One, Entry { status, dword });
    }
    for dword in 0..35 {
        m.push(Queue::Two, Entry { status, dword });
        m.push(Queue::Three, Entry { status, dword });
    }
    if !m.loses_all() {
        return false;
    }
    m.push_lost([1, 2, 3]);
    m.report().overruns == [2, 2, 3, 0]
}

#[test]
fn lost_pushes_to_a_machine_that_nobody_watches(rt: HostRuntime) -> Result<(), Fail> {
    let mut m = Watched::new(made(rt.alloc(), &LINE, 0)?, ());
    assert!(rt; !m.loses_all());
    assert!(rt; loses_seven(&mut m));
    Ok(())
}

fn ring(alloc: Global) -> Result<Ring, Fail> {
    match read_ring(alloc, RING) {
        Ok(ring) => Ok(ring),
        Err(_) => Err(Fail::from("it has no fault")),
    }
}

fn ring_machine(alloc: Global) -> Result<RingMachine<MapRam>, Fail> {
    let ring = ring(alloc)?;
    let machine = made(alloc, &TWO_BLOCKS, ring.fill())?;
    Ok(Watched::new(machine, BlockCount::new(ring)))
}

// Whether so many blocks were ended, after so many turns that moved so many bytes.
fn has_ended(m: &RingMachine<MapRam>, blocks: u64, turns: u64, moved: u64) -> bool {
    let report = m.report();
    m.watch().blocks() == blocks && report.turns == turns && report.moved == moved
}

// Each line ends a block, the third one the first block again. Behind it the machine waits.
fn ends_a_block_a_line(m: &mut RingMachine<MapRam>) -> bool {
    m.push_control(Code::Fm1);
    for (nibble, dword) in LINES {
        push(m, nibble, dword, 0);
    }
    m.turns(10);
    let two = has_ended(m, 2, 10, 16);
    m.turns(1_000);
    two && has_ended(m, 3, 1_010, 24)
}

// The same with turns behind each entry.
fn ends_them_by_entries(m: &mut RingMachine<MapRam>) -> bool {
    m.push_control(Code::Fm1);
    m.turns(3);
    for (nibble, dword) in LINES {
        push(m, nibble, dword, 4);
    }
    has_ended(m, 3, 27, 24)
}

#[test]
fn blocks_are_counted(rt: HostRuntime) -> Result<(), Fail> {
    let mut m = ring_machine(rt.alloc())?;
    assert!(rt; ends_a_block_a_line(&mut m));
    assert!(rt; m.watch().ring().fill() == 7);
    assert!(rt; m.ram().pages() == 1);
    Ok(())
}

#[test]
fn blocks_are_counted_by_entries(rt: HostRuntime) -> Result<(), Fail> {
    let mut m = ring_machine(rt.alloc())?;
    assert!(rt; ends_them_by_entries(&mut m));
    Ok(())
}
