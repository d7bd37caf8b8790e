//! Worked double buffers.

use capture_desc::read_desc;
use chain_model::ChainFault;
use dma_machine::Report;
use fifo_model::{Entry, Queue};
use irq_status::HostWrite;
use page_ram::{PageRam, Ram};
use planar_plan::Frame;
use risc_word::Code;
use slot_chain::{DoubleBuffer, DoubleBufferError};
use std::alloc::Global;
use std::test::Fail;
use sync_status::Status;

// One row of 8 pixels on a page.
const FIRST: &str = "format = \"y8\"\nwidth = 8\nheight = 1\nfields = \"top\"\npages = [0x20000]\n";

// The same on another page.
const SECOND: &str =
    "format = \"y8\"\nwidth = 8\nheight = 1\nfields = \"top\"\npages = [0x30000]\n";

// The same on that page and then the first one.
const BEHIND: &str =
    "format = \"y8\"\nwidth = 8\nheight = 1\nfields = \"top\"\npages = [0x30000, 0x20000]\n";

// The first at a base between two words.
const BETWEEN: &str =
    "format = \"y8\"\nwidth = 8\nheight = 1\nfields = \"top\"\npages = [0x20000]\nbase = 0x1002\n";

// The first at the last base at which the chain of 38 words ends at 0x10000000.
const LAST: &str =
    "format = \"y8\"\nwidth = 8\nheight = 1\nfields = \"top\"\npages = [0x20000]\nbase = 0x0fffff68\n";

// The first a word later.
const LATER: &str =
    "format = \"y8\"\nwidth = 8\nheight = 1\nfields = \"top\"\npages = [0x20000]\nbase = 0x0fffff6c\n";

// The first on the page of the second.
const OVER: &str =
    "format = \"y8\"\nwidth = 8\nheight = 1\nfields = \"top\"\npages = [0x20000]\nbase = 0x30000\n";

// The frame of a description.
fn frame_of(alloc: Global, text: &str) -> Result<Frame, Fail> {
    let desc = read_desc(alloc, text.as_bytes())?;
    Ok(Frame::new(alloc, desc)?)
}

// Each frame is owned by a function that ends in one place: dropping one takes the prover long.

// Whether two frames have this fault, or make a double buffer.
fn is_fault(
    alloc: Global,
    first: &Frame,
    second: &Frame,
    fault: Option<ChainFault>,
) -> Result<bool, Fail> {
    match DoubleBuffer::new(alloc, first, second) {
        Ok(_) => Ok(fault.is_none()),
        Err(DoubleBufferError::Fault(met)) => Ok(fault == Some(met)),
        Err(DoubleBufferError::Memory) => Err(Fail::from("memory")),
    }
}

// The same of a frame and a description.
fn is_fault_beside(
    alloc: Global,
    first: &Frame,
    second: &str,
    fault: Option<ChainFault>,
) -> Result<bool, Fail> {
    let second = frame_of(alloc, second)?;
    is_fault(alloc, first, &second, fault)
}

// The same of two descriptions.
fn is_judged(
    alloc: Global,
    first: &str,
    second: &str,
    fault: Option<ChainFault>,
) -> Result<bool, Fail> {
    let first = frame_of(alloc, first)?;
    is_fault_beside(alloc, &first, second, fault)
}

// Two descriptions, and their fault.
static PAIRS: [(&str, &str, Option<ChainFault>); 7] = [
    (FIRST, SECOND, None),
    (FIRST, FIRST, Some(ChainFault::Shared(0))),
    (FIRST, BEHIND, Some(ChainFault::Shared(1))),
    (BETWEEN, FIRST, Some(ChainFault::Base)),
    (LAST, SECOND, None),
    (LATER, SECOND, Some(ChainFault::TooLong)),
    (OVER, SECOND, Some(ChainFault::OnPage)),
];

#[test]
fn faults_of_two_descriptions(rt: HostRuntime) -> Result<(), Fail> {
    for (i, &(first, second, fault)) in PAIRS.iter().enumerate() {
        assert!(rt; is_judged(rt.alloc(), first, second, fault)?, "row {i}");
    }
    Ok(())
}

// The double buffer of two frames.
fn buffer_of(alloc: Global, first: &Frame, second: &Frame) -> Result<DoubleBuffer<PageRam>, Fail> {
    match DoubleBuffer::new(alloc, first, second) {
        Ok(buffer) => Ok(buffer),
        Err(_) => Err(Fail::from("no fault")),
    }
}

// The same of a frame and the second description.
fn made_beside(alloc: Global, first: &Frame) -> Result<DoubleBuffer<PageRam>, Fail> {
    let second = frame_of(alloc, SECOND)?;
    buffer_of(alloc, first, &second)
}

// The double buffer of the first two.
fn made(alloc: Global) -> Result<DoubleBuffer<PageRam>, Fail> {
    let first = frame_of(alloc, FIRST)?;
    made_beside(alloc, &first)
}

// A patch that is taken back at once.
fn patch_over(buffer: &mut DoubleBuffer<PageRam>) {
    buffer.patch(1, 0);
    buffer.patch(1, 255);
}

// A field of one line is pushed; the other slot is patched between every two steps.
fn push_field(buffer: &mut DoubleBuffer<PageRam>, first: u32, second: u32) {
    let start = Status::of(2);
    let end = Status::of(1);
    buffer.push_control(Code::Vre);
    patch_over(buffer);
    buffer.push_control(Code::Fm1);
    patch_over(buffer);
    buffer.push(
        Queue::One,
        Entry {
            status: start,
            dword: first,
        },
    );
    patch_over(buffer);
    buffer.push(
        Queue::One,
        Entry {
            status: end,
            dword: second,
        },
    );
    patch_over(buffer);
}

// Turns, with a patch after each.
fn turn_by_turn(buffer: &mut DoubleBuffer<PageRam>, count: u32) {
    for _turn in 0..count {
        buffer.turns(1);
        patch_over(buffer);
    }
}

// Whether the first bytes of a chunk count up from a number.
fn counts_from(buffer: &DoubleBuffer<PageRam>, chunk: usize, from: u8) -> bool {
    if chunk >= buffer.ram().pages() {
        return false;
    }
    let (_at, bytes) = buffer.ram().page(chunk);
    for i in 0..8u8 {
        if bytes.get(usize::from(i)) != Some(&from.wrapping_add(i)) {
            return false;
        }
    }
    true
}

// Whether both lines are stored in so many turns, each on its page.
fn has_both_lines(buffer: &DoubleBuffer<PageRam>, turns: u64) -> bool {
    let told = Report {
        turns,
        moved: 16,
        overruns: [0, 0, 0, 0],
        int_stat: 0x1000_0800,
    };
    buffer.report() == told && counts_from(buffer, 0, 0x10) && counts_from(buffer, 1, 0x20)
}

fn patch_between_steps(buffer: &mut DoubleBuffer<PageRam>) {
    buffer.patch(0, 0);
    push_field(buffer, 0x1312_1110, 0x1716_1514);
    turn_by_turn(buffer, 6);
    // the fragment that is patched out is finished
    buffer.patch(0, 1);
    turn_by_turn(buffer, 3);
    push_field(buffer, 0x2322_2120, 0x2726_2524);
    turn_by_turn(buffer, 11);
    buffer.host(HostWrite::Ack(0));
}

#[test]
fn a_patch_between_every_two_steps(rt: HostRuntime) -> Result<(), Fail> {
    let mut buffer = made(rt.alloc())?;
    patch_between_steps(&mut buffer);
    assert!(rt; has_both_lines(&buffer, 20));
    Ok(())
}

fn patch_both_slots(buffer: &mut DoubleBuffer<PageRam>) {
    buffer.patch(0, 0);
    push_field(buffer, 0x1312_1110, 0x1716_1514);
    push_field(buffer, 0x2322_2120, 0x2726_2524);
    buffer.patch(1, 1);
    // ten turns of the first slot with its fragment, and eight of the second up to its last byte
    buffer.turns(18);
}

#[test]
fn a_fragment_in_each_slot(rt: HostRuntime) -> Result<(), Fail> {
    let mut buffer = made(rt.alloc())?;
    patch_both_slots(&mut buffer);
    assert!(rt; has_both_lines(&buffer, 18));
    Ok(())
}

fn fill(buffer: &mut DoubleBuffer<PageRam>, queue: Queue, count: u32) {
    let status = Status::of(0);
    for dword in 0..count {
        buffer.push(queue, Entry { status, dword });
    }
}

// One push to queue 1 is lost, and two to queue 3.
fn loses_three(buffer: &mut DoubleBuffer<PageRam>) -> bool {
    if !buffer.loses_all() {
        return false;
    }
    buffer.push_lost([1, 0, 2]);
    buffer.report().overruns == [1, 0, 2, 0]
}

#[test]
fn pushes_that_a_chain_loses(rt: HostRuntime) -> Result<(), Fail> {
    let mut buffer = made(rt.alloc())?;
    fill(&mut buffer, Queue::One, 70);
    fill(&mut buffer, Queue::Two, 35);
    assert!(rt; !buffer.loses_all());
    fill(&mut buffer, Queue::Three, 35);
    assert!(rt; loses_three(&mut buffer));
    Ok(())
}
