//! Machines whose steps are traced.

use crate::machine::made;
use fifo_model::{Entry, Queue};
use irq_status::HostWrite;
use page_ram::MapRam;
use risc_listing::{Lines, ROOM};
use risc_word::Code;
use std::alloc::Global;
use std::test::Fail;
use sync_status::{Status, StatusKind, kind};
use test_kit::ONE_LINE;
use turn_trace::{LONGEST_STEP, Trace};

#[derive(Clone, Copy)]
enum Step {
    Control(Code),
    Push(Queue, u8, u32),
    Turns(u32),
    Host(HostWrite),
}

use Queue::{One, Three, Two};
use Step::{Control, Host, Push, Turns};

// A line of which six bytes are written, and one more is skipped.
const TWO_PARTS: [u32; 9] = [
    0x8000_8004,
    0,
    0x8000_0006,
    0,
    0x1800_0006,
    0x20000,
    0x2400_0001,
    0x7000_0000,
    0x1000,
];

fn push(t: &mut Trace<MapRam>, text: &mut Lines, queue: Queue, nibble: u8, dword: u32) {
    if nibble < 16 && text.len() <= ROOM - LONGEST_STEP {
        let status = Status::of(nibble);
        if !matches!(kind(status), StatusKind::Control(_)) {
            t.push(queue, Entry { status, dword }, text);
        }
    }
}

fn write(t: &mut Trace<MapRam>, text: &mut Lines, write: HostWrite) {
    if text.len() <= ROOM - LONGEST_STEP {
        match write {
            HostWrite::Trigger(number) if number >= 4 => {}
            write => t.host(write, text),
        }
    }
}

fn control(t: &mut Trace<MapRam>, text: &mut Lines, code: Code) {
    if text.len() <= ROOM - LONGEST_STEP {
        t.push_control(code, text);
    }
}

fn take(t: &mut Trace<MapRam>, text: &mut Lines, step: Step) {
    match step {
        Control(code) => control(t, text, code),
        Push(queue, nibble, dword) => push(t, text, queue, nibble, dword),
        Turns(count) => {
            t.turns(count, text);
        }
        Host(w) => write(t, text, w),
    }
}

// Whether the text of these steps is this.
fn tells(t: &mut Trace<MapRam>, steps: &[Step], want: &str) -> bool {
    let mut text = Lines::new();
    for step in steps {
        take(t, &mut text, *step);
    }
    text.as_str() == want
}

fn traced(alloc: Global, words: &[u32]) -> Result<Trace<MapRam>, Fail> {
    Ok(Trace::new(made(alloc, words, 0)?))
}

// Whether the text of these steps of this program's machine is this.
fn is_told(alloc: Global, words: &[u32], steps: &[Step], want: &str) -> Result<bool, Fail> {
    let mut t = traced(alloc, words)?;
    Ok(tells(&mut t, steps, want))
}

const LINE: [Step; 5] = [
    Control(Code::Vre),
    Control(Code::Fm1),
    Push(One, 2, 0x1312_1110),
    Push(One, 1, 0x1716_1514),
    Turns(12),
];

#[test]
fn a_line_is_taken(rt: HostRuntime) -> Result<(), Fail> {
    let want = "\
        control vre | 00001000 00000000 1 1 1 0\n\
        control fm1 | 00001000 00000000 2 2 2 0\n\
        push 1 sol 13121110 | 00001000 00000000 3 2 2 0\n\
        push 1 eol4 17161514 | 00001000 00000000 4 2 2 0\n\
        turn 0 00001000 sync | 00001008 00000000 4 2 2 0\n\
        turn 1 00001000 match | 00001008 00000000 3 1 1 0\n\
        turn 2 00001008 sync | 00001010 00000000 3 1 1 0\n\
        turn 3 00001008 match | 00001010 00000000 2 0 0 0\n\
        turn 4 00001010 begin | 00001018 00000000 2 0 0 0\n\
        turn 5 00001010 move 1 4 | 00001018 00000000 1 0 0 4\n\
        turn 6 00001010 move 1 4 | 00001018 00000000 0 0 0 8\n\
        turn 7 00001010 retire | 00001018 00000000 0 0 0 8\n\
        turn 8 00001018 jump | 00001000 10000800 0 0 0 8\n\
        turn 9 00001000 sync | 00001008 10000800 0 0 0 8\n";
    assert!(rt; is_told(rt.alloc(), &ONE_LINE, &LINE, want)?);
    Ok(())
}

// The machine waits: 100,000 turns more are one line with the two before them, and another step ends it.
fn waits(t: &mut Trace<MapRam>, text: &mut Lines) -> bool {
    for step in LINE {
        take(t, text, step);
    }
    text.clear();
    t.turns(60_000, text);
    let left = t.turns(40_000, text);
    left == 0 && text.is_empty()
}

fn ends_by_a_push(t: &mut Trace<MapRam>, text: &mut Lines) -> bool {
    take(t, text, Push(Two, 0, 0x89ab_cdef));
    take(t, text, Turns(2));
    text.as_str()
        == "\
        still 100002\n\
        push 2 pxv 89abcdef | 00001008 10000800 0 1 0 8\n\
        turn 100012 00001000 drop 2 | 00001008 10000800 0 0 0 8\n"
}

fn ends_by_the_end(t: &Trace<MapRam>, text: &mut Lines) -> bool {
    text.clear();
    t.push_last(text);
    text.as_str() == "still 1\n"
}

#[test]
fn turns_without_a_line_are_counted(rt: HostRuntime) -> Result<(), Fail> {
    let mut t = traced(rt.alloc(), &ONE_LINE)?;
    let mut text = Lines::new();
    assert!(rt; waits(&mut t, &mut text));
    assert!(rt; ends_by_a_push(&mut t, &mut text));
    assert!(rt; ends_by_the_end(&t, &mut text));
    assert!(rt; t.machine().report().turns == 100_014);
    assert!(rt; t.into_machine().report().moved == 8);
    Ok(())
}

#[test]
fn nothing_is_printed_at_the_end_behind_a_line(rt: HostRuntime) -> Result<(), Fail> {
    let mut t = traced(rt.alloc(), &ONE_LINE)?;
    let mut text = Lines::new();
    t.push_last(&mut text);
    assert!(rt; text.is_empty());
    take(&mut t, &mut text, Turns(1));
    text.clear();
    t.push_last(&mut text);
    assert!(rt; text.is_empty());
    Ok(())
}

// A text that has no room for another step.
fn is_full(t: &mut Trace<MapRam>) -> bool {
    let mut text = Lines::new();
    for _line in 0..ROOM / 16 {
        let _ = text.try_push_str("0123456789abcdef");
    }
    t.turns(7, &mut text) == 7 && t.machine().report().turns == 0
}

#[test]
fn turns_wait_for_room(rt: HostRuntime) -> Result<(), Fail> {
    let mut t = traced(rt.alloc(), &ONE_LINE)?;
    assert!(rt; is_full(&mut t));
    Ok(())
}

// Both entries make a burst: the end makes the queue ready.
#[test]
fn a_burst_is_one_line(rt: HostRuntime) -> Result<(), Fail> {
    let steps = [
        Host(HostWrite::Trigger(0)),
        Control(Code::Vre),
        Control(Code::Fm1),
        Turns(5),
        Push(One, 2, 0x1312_1110),
        Turns(1),
        Push(One, 1, 0x1716_1514),
        Turns(1),
        Host(HostWrite::Trigger(3)),
    ];
    let want = "\
        trigger 4 | 00001000 00000000 0 0 0 0\n\
        control vre | 00001000 00000000 1 1 1 0\n\
        control fm1 | 00001000 00000000 2 2 2 0\n\
        turn 0 00001000 sync | 00001008 00000000 2 2 2 0\n\
        turn 1 00001000 match | 00001008 00000000 1 1 1 0\n\
        turn 2 00001008 sync | 00001010 00000000 1 1 1 0\n\
        turn 3 00001008 match | 00001010 00000000 0 0 0 0\n\
        turn 4 00001010 begin | 00001018 00000000 0 0 0 0\n\
        push 1 sol 13121110 | 00001018 00000000 1 0 0 0\n\
        still 1\n\
        push 1 eol4 17161514 | 00001018 00000000 2 0 0 0\n\
        turn 6 00001010 move 1 8 | 00001018 00000000 0 0 0 8\n\
        trigger 32 | 00001018 00000000 0 0 0 8\n";
    assert!(rt; is_told(rt.alloc(), &ONE_LINE, &steps, want)?);
    Ok(())
}

// What no SYNC awaits: an entry of the first queue before that of the third, and another code. With RESYNC no fault is seen, at
// the other SYNC it is.
#[test]
fn what_is_not_awaited_is_dropped(rt: HostRuntime) -> Result<(), Fail> {
    let steps = [
        Push(Three, 9, 0x33),
        Push(One, 11, 0x11),
        Control(Code::Vro),
        Turns(4),
        Control(Code::Vre),
        Control(Code::Fm3),
        Turns(3),
        Push(Two, 5, 0x22),
        Turns(2),
    ];
    let want = "\
        push 3 eol2 00000033 | 00001000 00000000 0 0 1 0\n\
        push 1 reserved b 00000011 | 00001000 00000000 1 0 1 0\n\
        control vro | 00001000 00000000 2 1 2 0\n\
        turn 0 00001000 sync | 00001008 00000000 2 1 2 0\n\
        turn 1 00001000 drop 1 | 00001008 00000000 1 1 2 0\n\
        turn 2 00001000 drop 3 | 00001008 00000000 1 1 1 0\n\
        turn 3 00001000 miss | 00001008 00000000 0 0 0 0\n\
        control vre | 00001008 00000000 1 1 1 0\n\
        control fm3 | 00001008 00000000 2 2 2 0\n\
        turn 4 00001000 match | 00001008 00000000 1 1 1 0\n\
        turn 5 00001008 sync | 00001010 00000000 1 1 1 0\n\
        turn 6 00001008 miss | 00001010 00004000 0 0 0 0\n\
        push 2 eol1 00000022 | 00001010 00004000 0 1 0 0\n\
        turn 7 00001008 drop 2 | 00001010 00004000 0 0 0 0\n\
        still 1\n\
        ack 00004000 | 00001010 00000000 0 0 0 0\n";
    let mut t = traced(rt.alloc(), &ONE_LINE)?;
    let mut text = Lines::new();
    for step in steps {
        take(&mut t, &mut text, step);
    }
    take(&mut t, &mut text, Host(HostWrite::Ack(0x4000)));
    assert!(rt; text.as_str() == want);
    Ok(())
}

// The program up to the instruction of a line.
const TO_THE_LINE: [Step; 3] = [Control(Code::Vre), Control(Code::Fm1), Turns(5)];

// Whether the text of these steps of a machine that awaits a line is this.
fn is_told_of_a_line(
    alloc: Global,
    words: &[u32],
    steps: &[Step],
    want: &str,
) -> Result<bool, Fail> {
    let mut t = traced(alloc, words)?;
    let mut text = Lines::new();
    for step in TO_THE_LINE {
        take(&mut t, &mut text, step);
    }
    Ok(tells(&mut t, steps, want))
}

// An end of two bytes where four are asked for, and the next line's start where more was asked for.
#[test]
fn short_lines_are_given_up(rt: HostRuntime) -> Result<(), Fail> {
    let early = [Push(One, 2, 1), Push(One, 9, 2), Turns(3)];
    let want = "\
        push 1 sol 00000001 | 00001018 00000000 1 0 0 0\n\
        push 1 eol2 00000002 | 00001018 00000000 2 0 0 0\n\
        turn 5 00001010 move 1 4 | 00001018 00000000 1 0 0 4\n\
        turn 6 00001010 move 1 2 give up | 00001018 00004000 0 0 0 6\n\
        turn 7 00001018 jump | 00001000 10004800 0 0 0 6\n";
    assert!(rt; is_told_of_a_line(rt.alloc(), &ONE_LINE, &early, want)?);
    let next = [Push(One, 2, 1), Push(One, 2, 2), Turns(2)];
    let want = "\
        push 1 sol 00000001 | 00001018 00000000 1 0 0 0\n\
        push 1 sol 00000002 | 00001018 00000000 2 0 0 0\n\
        turn 5 00001010 move 1 4 | 00001018 00000000 1 0 0 4\n\
        turn 6 00001010 give up 1 | 00001018 00004000 1 0 0 4\n";
    assert!(rt; is_told_of_a_line(rt.alloc(), &ONE_LINE, &next, want)?);
    Ok(())
}

// Bytes that are skipped count as taken and not as stored, and an entry of which some are taken is in its queue.
#[test]
fn skipped_bytes_are_taken(rt: HostRuntime) -> Result<(), Fail> {
    let steps = [Push(One, 0, 9), Push(One, 2, 1), Push(One, 13, 2), Turns(8)];
    let want = "\
        push 1 pxv 00000009 | 00001018 00000000 1 0 0 0\n\
        push 1 sol 00000001 | 00001018 00000000 2 0 0 0\n\
        push 1 eol3 00000002 | 00001018 00000000 3 0 0 0\n\
        turn 5 00001010 move 1 0 | 00001018 00004000 2 0 0 0\n\
        turn 6 00001010 move 1 4 | 00001018 00004000 1 0 0 4\n\
        turn 7 00001010 move 1 2 | 00001018 00004000 1 0 0 6\n\
        turn 8 00001010 retire | 00001018 00004000 1 0 0 6\n\
        turn 9 00001018 begin | 0000101c 00004000 1 0 0 6\n\
        turn 10 00001018 move 1 1 | 0000101c 00004000 0 0 0 6\n\
        turn 11 00001018 retire | 0000101c 00004000 0 0 0 6\n\
        turn 12 0000101c jump | 00001000 00004000 0 0 0 6\n";
    assert!(rt; is_told_of_a_line(rt.alloc(), &TWO_PARTS, &steps, want)?);
    Ok(())
}

// The rest of a line that was given up is passed over.
#[test]
fn the_rest_of_a_line_is_passed_over(rt: HostRuntime) -> Result<(), Fail> {
    let steps = [Push(One, 2, 1), Push(One, 5, 2), Turns(4)];
    let want = "\
        push 1 sol 00000001 | 00001018 00000000 1 0 0 0\n\
        push 1 eol1 00000002 | 00001018 00000000 2 0 0 0\n\
        turn 5 00001010 move 1 4 | 00001018 00000000 1 0 0 4\n\
        turn 6 00001010 move 1 1 give up | 00001018 00004000 0 0 0 5\n\
        turn 7 00001018 pass | 0000101c 00004000 0 0 0 5\n\
        turn 8 0000101c jump | 00001000 00004000 0 0 0 5\n";
    assert!(rt; is_told_of_a_line(rt.alloc(), &TWO_PARTS, &steps, want)?);
    Ok(())
}

fn fills(t: &mut Trace<MapRam>, text: &mut Lines) {
    for number in 0..34 {
        push(t, text, Two, 0, number);
    }
    text.clear();
}

// The last entry for which queue 2 has room, and what doesn't enter it.
#[test]
fn pushes_are_lost(rt: HostRuntime) -> Result<(), Fail> {
    let mut t = traced(rt.alloc(), &ONE_LINE)?;
    let mut text = Lines::new();
    fills(&mut t, &mut text);
    let steps = [Push(Two, 0, 1), Push(Two, 0, 2), Control(Code::Vre)];
    let want = "\
        push 2 pxv 00000001 | 00001000 00000000 0 35 0 0\n\
        push 2 pxv 00000002 lost | 00001000 00001000 0 35 0 0\n\
        control vre lost | 00001000 00001000 0 35 0 0\n";
    assert!(rt; tells(&mut t, &steps, want));
    Ok(())
}

// The host stops the machine in a line, and starts it again.
#[test]
fn the_host_stops_and_starts(rt: HostRuntime) -> Result<(), Fail> {
    let steps = [
        Push(One, 2, 1),
        Turns(1),
        Push(One, 0, 2),
        Host(HostWrite::Enable {
            fifo: false,
            risc: false,
        }),
        Push(One, 2, 3),
        Control(Code::Vro),
        Turns(3),
        Host(HostWrite::Enable {
            fifo: true,
            risc: false,
        }),
        Turns(70_000),
        Host(HostWrite::Enable {
            fifo: true,
            risc: true,
        }),
        Turns(1),
    ];
    let want = "\
        push 1 sol 00000001 | 00001018 00000000 1 0 0 0\n\
        turn 5 00001010 move 1 4 | 00001018 00000000 0 0 0 4\n\
        push 1 pxv 00000002 | 00001018 00000000 1 0 0 4\n\
        enable 0 0 | 00001018 00000000 0 0 0 4\n\
        push 1 sol 00000003 ignored | 00001018 00000000 0 0 0 4\n\
        control vro ignored | 00001018 00000000 0 0 0 4\n\
        still 3\n\
        enable 1 0 | 00001018 00000000 0 0 0 4\n\
        still 70000\n\
        enable 1 1 | 00001000 00000000 0 0 0 4\n\
        turn 70009 00001000 sync | 00001008 00000000 0 0 0 4\n";
    assert!(rt; is_told_of_a_line(rt.alloc(), &ONE_LINE, &steps, want)?);
    Ok(())
}
