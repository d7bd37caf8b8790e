//! Worked programs.

ghost use Rattle.std.specs.Prelude.{◌≡◌, ◌<◌};

use dma_machine::{Did, Machine, Report, Seen};
use fifo_model::{CAPACITIES, Entry, Fifo, Queue};
use irq_status::HostWrite;
use page_ram::{MapRam, Ram};
use page_table::PageSet;
use risc_verify::{Accepted, Program, Steps, verify};
use risc_word::Code;
use std::alloc::Global;
use std::marker::Brand;
use std::sync::ledger::{Blank, Ledger};
use std::test::Fail;
use sync_status::{Status, StatusKind, kind};
use test_kit::ONE_LINE;

#[derive(Clone, Copy)]
enum Action {
    Control(Code),
    Push(Queue, u8, u32),
    /// A push, and turns behind it.
    Both(Queue, u8, u32, u8),
    /// A push, and the turn behind it where it takes the entry whole.
    Through(Queue, u8, u32),
    Fill(Queue, u32),
    Turns(u8),
    Host(HostWrite),
}

use Action::{Both, Control, Fill, Host, Push, Through, Turns};
use Queue::{One, Three, Two};

// A program of at most 16 words that may write one page, verified.
fn accepted<L: Ledger>(alloc: Global, words: &[u32], blank: Blank) -> Result<Accepted, Fail>
    requires name { blank.name ≡ L.name }
    requires parts { blank.parts ≡ L.parts }
    requires some { 0 < blank.parts }
{
    if words.len() > 16 {
        return Err(Fail::from("too many words"));
    }
    let grants = PageSet::from_list(alloc, &[0x20000])?;
    let mut list = Vec::new(alloc);
    list.extend_from_slice(words)?;
    let program = Program::new(0x1000, list, grants);
    let mut steps = Steps::<L>::new(blank);
    match verify(alloc, program, &mut steps) {
        Ok(accepted) => Ok(accepted),
        Err(_) => Err(Fail::from("it is sound")),
    }
}

// Its machine, each byte of the page being `fill`.
fn machine(alloc: Global, accepted: Accepted, fill: u8) -> Result<Machine<MapRam>, Fail> {
    let ram = MapRam::new(alloc, accepted.program().grants(), fill)?;
    let fifo = Fifo::new(alloc, CAPACITIES)?;
    Ok(Machine::new(accepted, ram, fifo))
}

/// A machine of a program of at most 16 words that may write one page.
pub(crate) fn made(alloc: Global, words: &[u32], fill: u8) -> Result<Machine<MapRam>, Fail> {
    let accepted = accepted::<Brand>(alloc, words, Blank::new(1))?;
    machine(alloc, accepted, fill)
}

fn push(m: &mut Machine<MapRam>, q: Queue, nibble: u8, dword: u32) {
    if nibble < 16 {
        let status = Status::of(nibble);
        if !matches!(kind(status), StatusKind::Control(_)) {
            m.push(q, Entry { status, dword });
        }
    }
}

fn push_and_take(m: &mut Machine<MapRam>, q: Queue, nibble: u8, dword: u32) {
    if nibble < 16 {
        let status = Status::of(nibble);
        if !matches!(kind(status), StatusKind::Control(_)) {
            m.push_and_take(q, Entry { status, dword });
        }
    }
}

fn push_and_turns(m: &mut Machine<MapRam>, q: Queue, nibble: u8, dword: u32, count: u8) {
    if nibble < 16 {
        let status = Status::of(nibble);
        if !matches!(kind(status), StatusKind::Control(_)) {
            m.push_and_turns(q, Entry { status, dword }, u32::from(count));
        }
    }
}

fn act(m: &mut Machine<MapRam>, action: Action) {
    match action {
        Control(code) => {
            m.push_control(code);
        }
        Push(q, nibble, dword) => push(m, q, nibble, dword),
        Both(q, nibble, dword, count) => push_and_turns(m, q, nibble, dword, count),
        Through(q, nibble, dword) => push_and_take(m, q, nibble, dword),
        Fill(q, count) => {
            for i in 0..count {
                push(m, q, 0, i);
            }
        }
        Turns(count) => {
            for _ in 0..count {
                m.turn();
            }
        }
        Host(w) => match w {
            HostWrite::Trigger(n) if n >= 4 => {}
            w => m.host(w),
        },
    }
}

fn play(m: &mut Machine<MapRam>, actions: &[Action]) {
    for action in actions {
        act(m, *action);
    }
}

// Whether the page holds these bytes from an offset on.
fn holds(m: &Machine<MapRam>, offset: usize, want: &[u8]) -> bool {
    let ram = m.ram();
    if ram.pages() == 0 || offset >= 4096 || want.len() > 4096 {
        return false;
    }
    let (at, bytes) = ram.page(0);
    let end = offset + want.len();
    at == 0x20000 && end <= bytes.len() && &bytes[offset..end] == want
}

fn report(turns: u64, moved: u64, overruns: [u64; 4], int_stat: u32) -> Report {
    Report {
        turns,
        moved,
        overruns,
        int_stat,
    }
}

// Whether this is reported after these actions.
fn reports(m: &mut Machine<MapRam>, actions: &[Action], want: &Report) -> bool {
    play(m, actions);
    m.report() == *want
}

// Whether a machine, after these actions, reports this and holds these bytes from these offsets
// on. A test that holds no machine itself is proved sooner.
fn comes_to(
    alloc: Global,
    (words, fill): (&[u32], u8),
    actions: &[Action],
    want: &Report,
    runs: &[(usize, &[u8])],
) -> Result<bool, Fail> {
    let mut m = made(alloc, words, fill)?;
    Ok(reports(&mut m, actions, want) && holds_all(&m, runs))
}

fn holds_all(m: &Machine<MapRam>, runs: &[(usize, &[u8])]) -> bool {
    for (offset, want) in runs {
        if !holds(m, *offset, want) {
            return false;
        }
    }
    true
}

const LINE: [Action; 5] = [
    Control(Code::Vre),
    Control(Code::Fm1),
    Push(One, 2, 0x1312_1110),
    Push(One, 1, 0x1716_1514),
    Turns(8),
];

// The bytes of that line and one behind them.
const LINE_BYTES: [u8; 9] = [0x10, 0x11, 0x12, 0x13, 0x14, 0x15, 0x16, 0x17, 0];

// The line is stored by the eighth turn, and the ninth is the signal.
fn stores_by_entries(m: &mut Machine<MapRam>) -> bool {
    reports(m, &LINE, &report(8, 8, [0; 4], 0))
        && reports(m, &[Turns(1)], &report(9, 8, [0; 4], 0x1000_0800))
        && holds(m, 0, &LINE_BYTES)
}

// The line is stored by a burst, which saves a turn.
fn stores_by_bursts(m: &mut Machine<MapRam>) -> bool {
    act(m, Host(HostWrite::Trigger(0)));
    reports(m, &LINE, &report(8, 8, [0; 4], 0x1000_0800)) && holds(m, 0, &LINE_BYTES)
}

#[test]
fn one_line(rt: HostRuntime) -> Result<(), Fail> {
    let mut m = made(rt.alloc(), &ONE_LINE, 0)?;
    assert!(rt; stores_by_entries(&mut m));
    Ok(())
}

#[test]
fn one_line_by_bursts(rt: HostRuntime) -> Result<(), Fail> {
    let mut m = made(rt.alloc(), &ONE_LINE, 0)?;
    assert!(rt; stores_by_bursts(&mut m));
    assert!(rt; m.program().base() == 0x1000);
    Ok(())
}

// Of a WRITE of 20 bytes, of which the start was taken, three plain entries fall through before its last four bytes. Two of
// them, with two turns behind the first and three behind the second.
fn passes_two_plain_entries(m: &mut Machine<MapRam>) -> bool {
    if m.plain_room(One) != 3 {
        return false;
    }
    let dwords = [0x14, 0x15, 0x16, 0x17, 0x18, 0x19, 0x1a, 0x1b];
    m.push_plain(One, &dwords, 5) && m.plain_room(One) == 1
}

#[test]
fn a_run_of_plain_entries(rt: HostRuntime) -> Result<(), Fail> {
    let words = [
        0x8000_8004,
        0,
        0x8000_0006,
        0,
        0x1c00_0014,
        0x20000,
        0x71e1_0000,
        0x1000,
    ];
    let start = [
        Control(Code::Vre),
        Control(Code::Fm1),
        Turns(5),
        Both(One, 2, 0x1312_1110, 1),
    ];
    let mut m = made(rt.alloc(), &words, 0)?;
    assert!(rt; m.plain_room(One) == 0);
    play(&mut m, &start);
    assert!(rt; passes_two_plain_entries(&mut m));
    assert!(rt; reports(&mut m, &[], &report(11, 12, [0; 4], 0)));
    assert!(rt;
        holds(
            &m,
            0,
            &[
                0x10, 0x11, 0x12, 0x13, 0x14, 0x15, 0x16, 0x17, 0x18, 0x19, 0x1a, 0x1b, 0
            ]
        )
    );
    Ok(())
}

// The start of a line, which the turn behind it takes by its verdict; a DWORD that falls through the queue, with a turn to
// spare; and the end, to which no turn belongs. Pushed with the turns behind them, and with the one turn that takes an entry whole.

// With the trigger point 4, a WRITE of 40 bytes has taken four entries. Of five plain entries that follow, with six turns in all, a burst
// takes four, and the fifth waits.
fn passes_a_burst(m: &mut Machine<MapRam>) -> bool {
    if m.plain_room(One) != 5 {
        return false;
    }
    let dwords = [
        0x20, 0x21, 0x22, 0x23, 0x24, 0x25, 0x26, 0x27, 0x28, 0x29, 0x2a, 0x2b, 0x2c, 0x2d, 0x2e,
        0x2f, 0x30, 0x31, 0x32, 0x33,
    ];
    m.push_plain(One, &dwords, 6) && m.level(One) == 1
}

// The line's last entry takes the waiting one with it.
#[test]
fn a_run_of_bursts(rt: HostRuntime) -> Result<(), Fail> {
    let words = [
        0x8000_8004,
        0,
        0x8000_0006,
        0,
        0x1c00_0028,
        0x20000,
        0x71e1_0000,
        0x1000,
    ];
    let start = [
        Host(HostWrite::Trigger(0)),
        Control(Code::Vre),
        Control(Code::Fm1),
        Turns(5),
        Both(One, 2, 0x1312_1110, 1),
        Both(One, 0, 0x1716_1514, 1),
        Both(One, 0, 0x1b1a_1918, 1),
        Both(One, 0, 0x1f1e_1d1c, 1),
    ];
    let mut m = made(rt.alloc(), &words, 0)?;
    play(&mut m, &start);
    assert!(rt; passes_a_burst(&mut m));
    assert!(rt; reports(&mut m, &[], &report(15, 32, [0; 4], 0)));
    assert!(rt;
        reports(
            &mut m,
            &[Both(One, 1, 0x3736_3534, 1)],
            &report(16, 40, [0; 4], 0)
        )
    );
    assert!(rt;
        holds(
            &m,
            0,
            &[
                0x10, 0x11, 0x12, 0x13, 0x14, 0x15, 0x16, 0x17, 0x18, 0x19, 0x1a, 0x1b, 0x1c, 0x1d,
                0x1e, 0x1f, 0x20, 0x21, 0x22, 0x23, 0x24, 0x25, 0x26, 0x27, 0x28, 0x29, 0x2a, 0x2b,
                0x2c, 0x2d, 0x2e, 0x2f, 0x30, 0x31, 0x32, 0x33, 0x34, 0x35, 0x36, 0x37, 0,
            ],
        )
    );
    Ok(())
}

#[test]
fn entries_with_turns_behind_them(rt: HostRuntime) -> Result<(), Fail> {
    let words = [
        0x8000_8004,
        0,
        0x8000_0006,
        0,
        0x1c00_000c,
        0x20000,
        0x71e1_0000,
        0x1000,
    ];
    let with_turns = [
        Control(Code::Vre),
        Control(Code::Fm1),
        Turns(5),
        Both(One, 2, 0x1312_1110, 1),
        Both(One, 0, 0x1716_1514, 2),
        Both(One, 1, 0x1b1a_1918, 0),
        Turns(3),
    ];
    let taken = [
        Control(Code::Vre),
        Control(Code::Fm1),
        Turns(5),
        Through(One, 2, 0x1312_1110),
        Turns(1),
        Through(One, 0, 0x1716_1514),
        Turns(1),
        Through(One, 1, 0x1b1a_1918),
        Turns(3),
    ];
    let bytes = [
        0x10, 0x11, 0x12, 0x13, 0x14, 0x15, 0x16, 0x17, 0x18, 0x19, 0x1a, 0x1b, 0,
    ];
    let want = report(11, 12, [0; 4], 0x1000_0800);
    assert!(rt; comes_to(rt.alloc(), (&words, 0), &with_turns, &want, &[(0, &bytes)])?);
    assert!(rt; comes_to(rt.alloc(), (&words, 0), &taken, &want, &[(0, &bytes)])?);
    Ok(())
}

// A line that is too short is given up, and the next is whole.
#[test]
fn a_short_line(rt: HostRuntime) -> Result<(), Fail> {
    let words = [
        0x8000_8004,
        0,
        0x8000_0006,
        0,
        0x1800_0004,
        0x20000,
        0x2000_0004,
        0x1400_0008,
        0x20008,
        0x1800_0004,
        0x20010,
        0x2000_0004,
        0x1400_0008,
        0x20018,
        0x71e1_0000,
        0x1000,
    ];
    let actions = [
        Control(Code::Vre),
        Control(Code::Fm1),
        Push(One, 2, 0xa3a2_a1a0),
        Push(One, 13, 0xffa6_a5a4),
        Push(One, 2, 0xb3b2_b1b0),
        Push(One, 0, 0xb7b6_b5b4),
        Push(One, 0, 0xbbba_b9b8),
        Push(One, 1, 0xbfbe_bdbc),
        Turns(21),
    ];
    let told = report(21, 16, [0; 4], 0x1000_4800);
    let runs: [(usize, &[u8]); 3] = [
        (0, &[0xa0, 0xa1, 0xa2, 0xa3, 0x55, 0x55]),
        (
            14,
            &[
                0x55, 0x55, 0xb0, 0xb1, 0xb2, 0xb3, 0x55, 0x55, 0x55, 0x55, 0xb8,
            ],
        ),
        (30, &[0xbe, 0xbf, 0x55]),
    ];
    assert!(rt; comes_to(rt.alloc(), (&words, 0x55), &actions, &told, &runs)?);
    Ok(())
}

// A vertical code within a field: the field ends there, and the next is exact.
#[test]
fn a_lost_line(rt: HostRuntime) -> Result<(), Fail> {
    let words = [
        0x8000_8004,
        0,
        0x8000_0006,
        0,
        0x1c00_0008,
        0x20000,
        0x1c00_0008,
        0x20008,
        0x71e1_0000,
        0x1000,
    ];
    let actions = [
        Control(Code::Vre),
        Control(Code::Fm1),
        Push(One, 2, 0x2322_2120),
        Push(One, 1, 0x2726_2524),
        Control(Code::Vre),
        Control(Code::Fm1),
        Push(One, 2, 0x3332_3130),
        Push(One, 1, 0x3736_3534),
        Push(One, 2, 0x4342_4140),
        Push(One, 1, 0x4746_4544),
        Turns(24),
    ];
    let told = report(24, 24, [0; 4], 0x1000_4800);
    let bytes = [
        0x30, 0x31, 0x32, 0x33, 0x34, 0x35, 0x36, 0x37, 0x40, 0x41, 0x42, 0x43, 0x44, 0x45, 0x46,
        0x47, 0,
    ];
    assert!(rt; comes_to(rt.alloc(), (&words, 0), &actions, &told, &[(0, &bytes)])?);
    Ok(())
}

#[test]
fn pushes_to_full_queues_are_lost(rt: HostRuntime) -> Result<(), Fail> {
    let told = report(0, 0, [1, 0, 0, 0], 0x1000);
    assert!(rt; comes_to(rt.alloc(), (&ONE_LINE, 0), &[Fill(One, 71)], &told, &[])?);
    let actions = [Fill(Two, 35), Control(Code::Vre), Turns(40)];
    let told = report(40, 0, [0, 0, 0, 1], 0x1000);
    assert!(rt; comes_to(rt.alloc(), (&ONE_LINE, 0), &actions, &told, &[])?);
    Ok(())
}

// Where each queue is full, pushes only count.
fn loses_six(m: &mut Machine<MapRam>) -> bool {
    if !m.loses_all() {
        return false;
    }
    m.push_lost([1, 2, 3]);
    m.loses_all()
}

#[test]
fn pushes_to_three_full_queues_are_counted(rt: HostRuntime) -> Result<(), Fail> {
    let mut m = made(rt.alloc(), &ONE_LINE, 0)?;
    play(&mut m, &[Fill(One, 70), Fill(Two, 35), Fill(Three, 34)]);
    assert!(rt; !m.loses_all());
    assert!(rt; reports(&mut m, &[Fill(Three, 1)], &report(0, 0, [0; 4], 0)));
    assert!(rt; loses_six(&mut m));
    assert!(rt; reports(&mut m, &[], &report(0, 0, [1, 2, 3, 0], 0x1000)));
    Ok(())
}

// A host stops the machine and starts it again.
#[test]
fn a_push_to_queues_that_are_off_is_lost(rt: HostRuntime) -> Result<(), Fail> {
    let actions = [
        Control(Code::Vre),
        Control(Code::Fm1),
        Turns(5),
        Host(HostWrite::Enable {
            fifo: false,
            risc: false,
        }),
        Push(One, 2, 0x1312_1110),
        Host(HostWrite::Enable {
            fifo: true,
            risc: true,
        }),
        Turns(2),
    ];
    let told = report(7, 0, [0; 4], 0);
    assert!(rt; comes_to(rt.alloc(), (&ONE_LINE, 0), &actions, &told, &[])?);
    Ok(())
}

// Three queues.
#[test]
fn planar(rt: HostRuntime) -> Result<(), Fail> {
    let words = [
        0x8000_8004,
        0,
        0x8000_000e,
        0,
        0x9c00_0008,
        0x0008_0008,
        0x20000,
        0x20100,
        0x20200,
        0x71e1_0000,
        0x1000,
    ];
    let actions = [
        Control(Code::Vre),
        Control(Code::Fm3),
        Push(One, 2, 0x1312_1110),
        Push(One, 1, 0x1716_1514),
        Push(Two, 2, 0x2322_2120),
        Push(Two, 1, 0x2726_2524),
        Push(Three, 2, 0x3332_3130),
        Push(Three, 1, 0x3736_3534),
        Turns(13),
    ];
    let told = report(13, 24, [0; 4], 0x1000_0800);
    let runs: [(usize, &[u8]); 3] = [
        (0, &[0x10, 0x11, 0x12, 0x13, 0x14, 0x15, 0x16, 0x17, 0]),
        (0x100, &[0x20, 0x21, 0x22, 0x23, 0x24, 0x25, 0x26, 0x27, 0]),
        (0x200, &[0x30, 0x31, 0x32, 0x33, 0x34, 0x35, 0x36, 0x37, 0]),
    ];
    assert!(rt; comes_to(rt.alloc(), (&words, 0), &actions, &told, &runs)?);
    Ok(())
}

fn saw(did: Did, at: u32, took: bool, ended: bool, reserved: bool) -> Seen {
    Seen {
        did,
        at,
        took,
        ended,
        reserved,
    }
}

fn saw_alone(did: Did, at: u32) -> Seen {
    saw(did, at, false, false, false)
}

// Whether this is seen of the next turns.
fn sees(m: &mut Machine<MapRam>, want: &[Seen]) -> bool {
    for seen in want {
        let is_still = matches!(seen.did, Did::Still);
        let retires = matches!(seen.did, Did::Retired).then_some(seen.at);
        if m.stands_still() != is_still
            || m.next_retirement() != retires
            || m.turn_seen() != *seen
        {
            return false;
        }
    }
    true
}

// Whether this is seen of the turns after these actions.
fn sees_after(m: &mut Machine<MapRam>, actions: &[Action], want: &[Seen]) -> bool {
    play(m, actions);
    sees(m, want)
}

fn fetches(m: &Machine<MapRam>, at: Option<u32>) -> bool {
    m.next_fetch() == at
}

fn sees_a_wait(m: &mut Machine<MapRam>) -> bool {
    let wait = [
        saw_alone(Did::Synced, 0x1000),
        saw_alone(Did::Still, 0x1000),
    ];
    fetches(m, Some(0x1000)) && sees(m, &wait) && fetches(m, None)
}

fn holds_what_is_pushed(m: &mut Machine<MapRam>) -> bool {
    act(m, Push(Three, 3, 0));
    m.holds(Three) && !m.holds(One)
}

// That entry is dropped, a code is missed, and a line is stored.
fn sees_a_line(m: &mut Machine<MapRam>) -> bool {
    let pushes = [
        Control(Code::Vro),
        Control(Code::Vre),
        Control(Code::Fm1),
        Push(One, 2, 0x1312_1110),
        Push(One, 1, 0x1716_1514),
    ];
    let line = [
        saw_alone(Did::Dropped, 0x1000),
        saw_alone(Did::Missed, 0x1000),
        saw_alone(Did::Matched, 0x1000),
        saw_alone(Did::Synced, 0x1008),
        saw_alone(Did::Matched, 0x1008),
        saw_alone(Did::Begun, 0x1010),
        saw(Did::Moved(One), 0x1010, true, false, false),
        saw(Did::Moved(One), 0x1010, true, true, false),
        saw_alone(Did::Retired, 0x1010),
        saw_alone(Did::Jumped, 0x1018),
    ];
    sees_after(m, &pushes, &line)
        && reports(m, &[], &report(12, 8, [0; 4], 0x1000_0800))
        && fetches(m, Some(0x1000))
}

// The controller is off: it stands still for a turn, and then for a hundred.
fn stands_when_off(m: &mut Machine<MapRam>) -> bool {
    let off = Host(HostWrite::Enable {
        fifo: true,
        risc: false,
    });
    if !sees_after(m, &[off], &[saw_alone(Did::Still, 0x1000)]) || !fetches(m, None) {
        return false;
    }
    if m.stands_still() {
        m.stand(100);
    }
    reports(m, &[], &report(113, 8, [0; 4], 0x1000_0800))
}

#[test]
fn turns_are_seen(rt: HostRuntime) -> Result<(), Fail> {
    let mut m = made(rt.alloc(), &ONE_LINE, 0)?;
    assert!(rt; sees_a_wait(&mut m));
    assert!(rt; holds_what_is_pushed(&mut m));
    assert!(rt; sees_a_line(&mut m));
    assert!(rt; stands_when_off(&mut m));
    Ok(())
}

// A line is given up at its second instruction; its entries come in one burst, with their flags.
fn sees_a_line_given_up(m: &mut Machine<MapRam>) -> bool {
    let actions = [
        Control(Code::Vre),
        Control(Code::Fm1),
        Turns(5),
        Host(HostWrite::Trigger(0)),
        Push(One, 7, 0),
        Push(One, 2, 0x1312_1110),
        Push(One, 3, 0),
        Push(One, 5, 0x14),
        Push(One, 2, 0x2322_2120),
    ];
    let seen = [
        saw(Did::Moved(One), 0x1010, true, false, false),
        saw_alone(Did::Retired, 0x1010),
        saw_alone(Did::Begun, 0x1018),
        saw(Did::GivenUp(One), 0x1018, true, true, true),
        saw_alone(Did::Jumped, 0x1020),
    ];
    sees_after(m, &actions, &seen)
}

// A field that ends before its line comes.
fn sees_a_field_given_up(m: &mut Machine<MapRam>) -> bool {
    let actions = [
        Turns(1),
        Control(Code::Vre),
        Control(Code::Fm1),
        Control(Code::Vre),
    ];
    let seen = [
        saw_alone(Did::Dropped, 0x1000),
        saw_alone(Did::Matched, 0x1000),
        saw_alone(Did::Synced, 0x1008),
        saw_alone(Did::Matched, 0x1008),
        saw_alone(Did::Begun, 0x1010),
        saw_alone(Did::GivenUp(One), 0x1010),
        saw_alone(Did::Passed, 0x1018),
        saw_alone(Did::Jumped, 0x1020),
    ];
    sees_after(m, &actions, &seen)
}

#[test]
fn broken_lines_are_seen(rt: HostRuntime) -> Result<(), Fail> {
    let words = [
        0x8000_8004,
        0,
        0x8000_0006,
        0,
        0x1800_0004,
        0x20000,
        0x1400_0008,
        0x20008,
        0x71e1_0000,
        0x1000,
    ];
    let mut m = made(rt.alloc(), &words, 0)?;
    assert!(rt; sees_a_line_given_up(&mut m));
    assert!(rt; sees_a_field_given_up(&mut m));
    Ok(())
}
