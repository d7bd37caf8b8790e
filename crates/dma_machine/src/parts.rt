//! Parts of an instruction, and what it asks of the queues.

ghost use Rattle.dma_machine.specs.Needs.{IsAddress};
ghost use Rattle.machine_model.specs.Paths.{demand, demands_of, first_demand, no_demand, target_after, target_before, target_moved};
ghost use Rattle.machine_model.specs.Paths.{three_demands};
ghost use Rattle.machine_model.specs.Turns.{demand_less, demand_on, is_cut_short, is_done, rest_of_line, skipping_after, with_demand};
ghost use Rattle.dma_machine.specs.Plain.{whole_entries};
ghost use Rattle.dma_machine.specs.Stills.{have_begun};
ghost use Rattle.dma_machine.specs.WholeTakes.{takes_whole};
ghost use Rattle.risc_word.specs.Words.{encoded};
ghost use Rattle.std.specs.Prelude.{◌≡◌, ◌+◌, ◌≤◌, length};
ghost use Rattle.sync_status.specs.Statuses.{kind_of};

use fifo_model::{Entry, Queue};
use machine_model::{Demand, Demands, Skipping};
use risc_word::Instr;
use sync_status::{Status, StatusKind, kind};

/// The length in words of a planar instruction: its first word has one count, the next two, and its addresses follow.
fn planar_length(counts: &[u16; 3], addrs: &[u32]) -> u8
    requires { length addrs.now ≤ 3 }
    ensures three { length counts.now ≡ 3 }
    ensures words { result ≡ length addrs.now + 2 }
{
    1 + (counts.len() / 2) as u8 + addrs.len() as u8
}

/// The length of an instruction's canonical encoding in words.
pub fn length_in_words(instr: &Instr) -> u8
    ensures { result ≡ length (encoded instr.now) }
{
    match instr {
        Instr::Skip { .. } | Instr::WriteC { .. } => 1,
        Instr::Write { .. } | Instr::Jump { .. } | Instr::Sync { .. } => 2,
        Instr::Skip123 { counts, .. } => planar_length(counts, &[]),
        Instr::Write1S23 { counts, addr, .. } => planar_length(counts, &[*addr]),
        Instr::Write123 { counts, addrs, .. } => planar_length(counts, addrs),
    }
}

/// What is asked of a queue.
#[inline]
fn demand(sol: bool, rest: u16, address: Option<u64>) -> Demand
    ensures { result ≡ demand sol rest address }
{
    Demand {
        rest,
        address,
        needs_sol: sol && rest != 0,
    }
}

#[inline]
fn no_demand() -> Demand
    ensures { result ≡ no_demand }
{
    Demand {
        rest: 0,
        address: None,
        needs_sol: false,
    }
}

#[inline]
fn first_demand(sol: bool, rest: u16, address: Option<u64>) -> Demands
    ensures { result ≡ first_demand sol rest address }
{
    Demands {
        one: demand(sol, rest, address),
        two: no_demand(),
        three: no_demand(),
    }
}

#[inline]
fn three_demands(
    sol: bool,
    counts: &[u16; 3],
    first: Option<u64>,
    second: Option<u64>,
    third: Option<u64>,
) -> Demands
    ensures { result ≡ three_demands sol counts.now first second third }
{
    Demands {
        one: demand(sol, counts[0], first),
        two: demand(sol, counts[1], second),
        three: demand(sol, counts[2], third),
    }
}

/// What an instruction asks of the queues as it begins with this target.
pub fn demands_of(instr: &Instr, target: Option<u64>) -> Demands
    ensures { result ≡ demands_of instr.now target }
{
    match instr {
        Instr::Write {
            ends,
            count,
            addr,
            ..
        } => first_demand(ends.sol, *count, Some(u64::from(*addr))),
        Instr::Skip { ends, count, .. } => first_demand(ends.sol, *count, None),
        Instr::WriteC { ends, count, .. } => first_demand(ends.sol, *count, target),
        Instr::Jump { .. } | Instr::Sync { .. } => Demands {
            one: no_demand(),
            two: no_demand(),
            three: no_demand(),
        },
        Instr::Write123 {
            ends,
            counts,
            addrs,
            ..
        } => {
            let [first, second, third] = addrs.map(|addr| Some(u64::from(addr)));
            three_demands(ends.sol, counts, first, second, third)
        }
        Instr::Skip123 { ends, counts, .. } => three_demands(ends.sol, counts, None, None, None),
        Instr::Write1S23 {
            ends,
            counts,
            addr,
            ..
        } => three_demands(ends.sol, counts, Some(u64::from(*addr)), None, None),
    }
}

/// The target with which an instruction acts: SOL forgets it.
#[inline]
pub fn target_before(instr: &Instr, target: Option<u64>) -> Option<u64>
    ensures { result ≡ target_before instr.now target }
{
    if instr.ends().sol { None } else { target }
}

/// What is passed over after an instruction was given up within its line.
#[inline]
pub fn rest_of_line(instr: &Instr) -> Skipping
    ensures { result ≡ rest_of_line instr.now }
{
    if instr.ends().eol {
        Skipping::Nothing
    } else {
        Skipping::ToEol
    }
}

/// What is still passed over after a data instruction.
#[inline]
pub fn skipping_after(skipping: Skipping, eol: bool) -> Skipping
    ensures { result ≡ skipping_after skipping eol }
{
    match skipping {
        Skipping::ToEol if eol => Skipping::Nothing,
        other => other,
    }
}

/// The target as an instruction without EOL leaves it.
#[inline]
fn target_moved(instr: &Instr, target: Option<u64>) -> Option<u64>
    requires { IsAddress target }
    ensures { result ≡ target_moved instr.now target }
{
    match instr {
        Instr::Write {
            ctl: _,
            ends: _,
            off: _,
            count,
            addr,
        } => Some(u64::from(*addr) + u64::from(*count)),
        Instr::WriteC {
            ctl: _,
            ends: _,
            off: _,
            count,
        } => match target {
            Some(at) => Some(at + u64::from(*count)),
            None => None,
        },
        Instr::Skip { .. } => target,
        _ => None,
    }
}

/// The target as an instruction leaves it: EOL forgets it.
#[inline]
pub fn target_after(instr: &Instr, target: Option<u64>) -> Option<u64>
    requires { IsAddress target }
    ensures { result ≡ target_after instr.now target }
{
    if instr.ends().eol {
        None
    } else {
        target_moved(instr, target)
    }
}

/// What is still asked of a queue.
#[inline]
pub fn demand_on(demands: &Demands, q: Queue) -> Demand
    ensures { result ≡ demand_on q demands.now }
{
    match q {
        Queue::One => demands.one,
        Queue::Two => demands.two,
        Queue::Three => demands.three,
    }
}

/// Takes so many bytes off what is asked of a queue.
#[inline(always)]
fn lessen_one(demand: &mut Demand, count: u16)
    requires asked { count ≤ demand.old.rest }
    requires address { IsAddress demand.old.address }
    ensures { demand.new ≡ demand_less count demand.old }
{
    demand.rest -= count;
    if let Some(at) = demand.address {
        demand.address = Some(at + u64::from(count));
    }
    demand.needs_sol = false;
}

/// What is still asked after some bytes of a queue were taken.
#[inline(always)]
pub fn lessen(demands: &mut Demands, q: Queue, count: u16)
    requires asked { count ≤ (demand_on q demands.old).rest }
    requires address { IsAddress (demand_on q demands.old).address }
    ensures { demands.new ≡ with_demand q (demand_less count (demand_on q demands.old)) demands.old }
{
    match q {
        Queue::One => lessen_one(&mut demands.one, count),
        Queue::Two => lessen_one(&mut demands.two, count),
        Queue::Three => lessen_one(&mut demands.three, count),
    }
}

/// Whether nothing more is asked.
#[inline]
pub fn is_done(demands: &Demands) -> bool
    ensures { result ≡ is_done demands.now }
{
    demands.one.rest == 0 && demands.two.rest == 0 && demands.three.rest == 0
}

/// Whether no queue's line has yet to begin.
#[inline]
pub fn have_begun(demands: &Demands) -> bool
    ensures { result ≡ have_begun demands.now }
{
    !demands.one.needs_sol && !demands.two.needs_sol && !demands.three.needs_sol
}

/// Sets what is asked of a queue.
#[inline(always)]
pub fn set_demand(demands: &mut Demands, q: Queue, demand: Demand)
    ensures { demands.new ≡ with_demand q demand demands.old }
{
    match q {
        Queue::One => demands.one = demand,
        Queue::Two => demands.two = demand,
        Queue::Three => demands.three = demand,
    }
}

/// How many plain entries of a queue are taken whole before nothing more is asked of any.
pub fn whole_entries(demands: &Demands, q: Queue) -> u32
    ensures { result ≡ whole_entries q demands.now }
{
    let rest = u32::from(demand_on(demands, q).rest);
    let one = demand_on(demands, Queue::One).rest;
    let two = demand_on(demands, Queue::Two).rest;
    let three = demand_on(demands, Queue::Three).rest;
    let all = u32::from(one) + u32::from(two) + u32::from(three);
    (rest / 4).min(all.saturating_sub(1) / 4)
}

/// Whether a line ends with the bytes that are taken of its entry, and more were asked for.
#[inline]
pub fn is_cut_short(entry: Entry, taken: u8, count: u8, rest: u16) -> bool
    requires { taken + count ≤ 4 }
    ensures { result ≡ is_cut_short entry taken count rest }
{
    match kind(entry.status) {
        StatusKind::End(valid) => taken + count == valid && rest != u16::from(count),
        _ => false,
    }
}

/// Whether a front is a DWORD of pixels that a line under way takes whole, as most are.
#[inline(always)]
pub fn takes_whole(front: Status, need_sol: bool, part: u8, rest: u16) -> bool
    ensures { result ≡ takes_whole (kind_of front) need_sol part rest }
{
    match kind(front) {
        StatusKind::Pixels => !need_sol && part == 0 && rest >= 4,
        _ => false,
    }
}
