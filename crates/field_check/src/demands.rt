//! What an instruction asks of a queue.

ghost use Rattle.std.specs.Prelude.{◌≡◌, ◌<◌, ◌≤◌, ◌+◌, ◌^◌, ◌-◌, IfSome, IsTrue};
ghost use Rattle.machine_model.specs.Paths.{demand, demands_of, first_demand, no_demand, three_demands};
ghost use Rattle.machine_model.specs.Turns.{demand_on};
ghost use Rattle.field_check.specs.Cursors.{rest_of};

use fifo_model::Queue;
use machine_model::Demand;
use risc_word::Instr;

// So many bytes, of which the first begins a line or none does.
fn demand(sol: bool, rest: u16, address: Option<u64>) -> Demand
    ensures { result ≡ demand sol rest address }
{
    Demand {
        rest,
        address,
        needs_sol: sol && rest != 0,
    }
}

fn no_demand() -> Demand
    ensures { result ≡ no_demand }
{
    Demand {
        rest: 0,
        address: None,
        needs_sol: false,
    }
}

// What is asked of queue 1 alone.
fn first_demand(q: Queue, sol: bool, rest: u16, address: Option<u64>) -> Demand
    ensures { result ≡ demand_on q (first_demand sol rest address) }
{
    match q {
        Queue::One => demand(sol, rest, address),
        Queue::Two | Queue::Three => no_demand(),
    }
}

// What an instruction asks of a queue. Where a WRITEC writes isn't answered.
pub(crate) fn demand_of(instr: &Instr, q: Queue) -> Demand
    ensures value { result ≡ demand_on q (demands_of instr.now None) }
    ensures some { IsTrue result.needs_sol → 0 < result.rest }
    ensures below { IfSome result.address (λ at. at + result.rest < 2 ^ 40) }
    ensures small { result.rest < 2 ^ 16 }
{
    match instr {
        Instr::Write {
            ends,
            count,
            addr,
            ..
        } => first_demand(q, ends.sol, *count, Some(u64::from(*addr))),
        Instr::Skip { ends, count, .. } => first_demand(q, ends.sol, *count, None),
        Instr::WriteC { ends, count, .. } => first_demand(q, ends.sol, *count, None),
        Instr::Jump { .. } | Instr::Sync { .. } => no_demand(),
        Instr::Write123 {
            ends,
            counts,
            addrs,
            ..
        } => match q {
            Queue::One => demand(ends.sol, counts[0], Some(u64::from(addrs[0]))),
            Queue::Two => demand(ends.sol, counts[1], Some(u64::from(addrs[1]))),
            Queue::Three => demand(ends.sol, counts[2], Some(u64::from(addrs[2]))),
        },
        Instr::Skip123 { ends, counts, .. } => match q {
            Queue::One => demand(ends.sol, counts[0], None),
            Queue::Two => demand(ends.sol, counts[1], None),
            Queue::Three => demand(ends.sol, counts[2], None),
        },
        Instr::Write1S23 {
            ends,
            counts,
            addr,
            ..
        } => match q {
            Queue::One => demand(ends.sol, counts[0], Some(u64::from(*addr))),
            Queue::Two => demand(ends.sol, counts[1], None),
            Queue::Three => demand(ends.sol, counts[2], None),
        },
    }
}

// A demand without the first of its bytes.
pub(crate) fn rest_of(d: &Demand, n: u16) -> Demand
    requires some { n ≤ d.now.rest }
    requires below { IfSome d.now.address (λ at. at + d.now.rest < 2 ^ 40) }
    ensures { result ≡ rest_of d.now n }
{
    Demand {
        rest: d.rest - n,
        address: match d.address {
            Some(at) => Some(at + u64::from(n)),
            None => None,
        },
        needs_sol: d.needs_sol && n == 0,
    }
}
