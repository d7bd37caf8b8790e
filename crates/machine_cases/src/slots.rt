//! Worked chains.

ghost use Rattle.std.specs.Prelude.{◌≡◌, ◌<◌, IfOk, length};
ghost use Rattle.chain_model.specs.Chains.{part_of};

use capture_desc::{Numbers, read_desc};
use dma_machine::Report;
use fifo_model::{CAPACITIES, Entry, Fifo, Queue};
use irq_status::HostWrite;
use machine_model::Cause;
use page_ram::{MapRam, Ram};
use page_table::PageSet;
use planar_plan::Frame;
use risc_verify::Steps;
use risc_word::Code;
use slot_chain::{Chain, ChainError, PartWords, fragment};
use std::alloc::Global;
use std::marker::Brand;
use std::sync::ledger::{Blank, Ledger};
use std::test::Fail;
use sync_status::Status;

// One row of 8 pixels on a page, and the same on another page.
const FIRST: &str = "format = \"y8\"\nwidth = 8\nheight = 1\nfields = \"top\"\npages = [0x20000]\n";

const SECOND: &str =
    "format = \"y8\"\nwidth = 8\nheight = 1\nfields = \"top\"\npages = [0x30000]\n";

// The frame of a description.
fn frame_of(alloc: Global, text: &str) -> Result<Frame, Fail> {
    let desc = read_desc(alloc, text.as_bytes())?;
    Ok(Frame::new(alloc, desc)?)
}

// The part of a description at an address that leads back to another.
fn part_of(alloc: Global, text: &str, slot: u32, at: u32, back: u32) -> Result<PartWords, Fail>
    ensures { IfOk result (λ part. part.slot ≡ slot) }
{
    if at % 4 != 0 || at > 0x1000_0000 {
        return Err(Fail::from("no place for a fragment"));
    }
    let frame = frame_of(alloc, text)?;
    let words = fragment(alloc, &frame, at, back)?;
    Ok(PartWords { slot, words })
}

// A chain of two slots, each of which may lead to two parts.
fn two_slots<L: Ledger>(alloc: Global, blank: Blank) -> Result<Chain<MapRam>, Fail>
    requires name { blank.name ≡ L.name }
    requires parts { blank.parts ≡ L.parts }
    requires some { 0 < blank.parts }
    ensures slots { IfOk result (λ c. c.chain.slots ≡ 2) }
    ensures many { IfOk result (λ c. length c.chain.parts ≡ 4) }
    ensures zero { IfOk result (λ c. (part_of c.chain 0).slot ≡ 0) }
    ensures one { IfOk result (λ c. (part_of c.chain 1).slot ≡ 0) }
{
    let mut parts = Vec::new(alloc);
    parts.push(part_of(alloc, FIRST, 0, 0x1018, 0x1008)?)?;
    parts.push(part_of(alloc, SECOND, 0, 0x1038, 0x1008)?)?;
    parts.push(part_of(alloc, FIRST, 1, 0x1058, 0x1010)?)?;
    parts.push(part_of(alloc, SECOND, 1, 0x1078, 0x1010)?)?;
    let grants = PageSet::from_list(alloc, &[0x20000, 0x30000])?;
    let ram = MapRam::new(alloc, &grants, 0)?;
    let fifo = Fifo::new(alloc, CAPACITIES)?;
    let mut steps = Steps::<L>::new(blank);
    match Chain::new(alloc, 0x1000, 2, parts, grants, ram, fifo, &mut steps) {
        Ok(chain) => Ok(chain),
        Err(_) => Err(Fail::from("its parts are fragments")),
    }
}

// A field of one line is pushed.
fn push_field(c: &mut Chain<MapRam>, first: u32, second: u32)
    ensures { c.new.chain ≡ c.old.chain }
{
    c.push_control(Code::Vre);
    c.push_control(Code::Fm1);
    let start = Status::of(2);
    let end = Status::of(1);
    c.push(
        Queue::One,
        Entry {
            status: start,
            dword: first,
        },
    );
    c.push(
        Queue::One,
        Entry {
            status: end,
            dword: second,
        },
    );
}

// Whether the first bytes of a chunk count up from a number.
fn counts_from(c: &Chain<MapRam>, chunk: usize, from: u8) -> bool {
    if chunk >= c.ram().pages() {
        return false;
    }
    let (_at, bytes) = c.ram().page(chunk);
    for i in 0..8u8 {
        if bytes.get(usize::from(i)) != Some(&from.wrapping_add(i)) {
            return false;
        }
    }
    true
}

// Whether both lines are stored, each on its page.
fn has_both_lines(c: &Chain<MapRam>) -> bool {
    let told = Report {
        turns: 20,
        moved: 16,
        overruns: [0, 0, 0, 0],
        int_stat: 0x1000_0800,
    };
    c.report() == told && counts_from(c, 0, 0x10) && counts_from(c, 1, 0x20)
}

#[test]
fn a_part_that_is_patched_out_is_finished(rt: HostRuntime) -> Result<(), Fail> {
    let mut c = two_slots::<Brand>(rt.alloc(), Blank::new(1))?;
    c.patch(0, Some(0));
    push_field(&mut c, 0x1312_1110, 0x1716_1514);
    c.turns(6);
    c.patch(0, Some(1));
    c.turns(3);
    push_field(&mut c, 0x2322_2120, 0x2726_2524);
    c.turns(10);
    c.turn();
    c.host(HostWrite::Ack(0));
    assert!(rt; has_both_lines(&c));
    Ok(())
}

// What is reported of a chain of one slot with one part.
fn said<L: Ledger>(alloc: Global, words: &[u32], blank: Blank) -> Result<Option<ChainError>, Fail>
    requires name { blank.name ≡ L.name }
    requires parts { blank.parts ≡ L.parts }
    requires some { 0 < blank.parts }
{
    let mut parts = Vec::new(alloc);
    parts.push(PartWords {
        slot: 0,
        words: Numbers::from_list(alloc, words)?,
    })?;
    let grants = PageSet::from_list(alloc, &[0x20000])?;
    let ram = MapRam::new(alloc, &grants, 0)?;
    let fifo = Fifo::new(alloc, CAPACITIES)?;
    let mut steps = Steps::<L>::new(blank);
    match Chain::new(alloc, 0x1000, 1, parts, grants, ram, fifo, &mut steps) {
        Ok(_chain) => Ok(None),
        Err(error) => Ok(Some(error)),
    }
}

fn is_said(alloc: Global, words: &[u32], want: Option<ChainError>) -> Result<bool, Fail> {
    Ok(said::<Brand>(alloc, words, Blank::new(1))? == want)
}

#[test]
fn a_part_that_jumps_into_a_slot_is_bad(rt: HostRuntime) -> Result<(), Fail> {
    let bad = ChainError::Bad {
        part: 0,
        at: 0x1004,
        nth: 2,
        cause: Cause::Reserved(0),
    };
    assert!(rt; is_said(rt.alloc(), &[0x7000_0000, 0x1004], Some(bad))?);
    assert!(rt; is_said(rt.alloc(), &[0x7000_0000, 0x1008], None)?);
    Ok(())
}
