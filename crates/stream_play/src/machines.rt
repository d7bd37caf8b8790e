//! The machines of programs before their first steps.

ghost use Rattle.std.specs.Prelude.{◌≡◌, ◌<◌, IfOk};
ghost use Rattle.machine_model.specs.Paths.{IsSound};
ghost use Rattle.machine_model.specs.States.{first_state};

use dma_machine::Machine;
use fifo_model::{CAPACITIES, Fifo};
use page_ram::{PageRam, Ram};
use risc_verify::{Accepted, Program, Steps, Why, verify};
use std::alloc::{AllocError, Global};
use std::marker::Brand;
use std::sync::ledger::{Blank, Ledger};

/// The machine of a program that was verified, before its first step: both enables are on, each granted byte is the
/// fill, and the queues have room for what the chip's FIFOs hold. All memory that it needs is taken here.
pub fn machine_of(
    alloc: Global,
    accepted: Accepted,
    fill: u8,
) -> Result<Machine<PageRam>, AllocError>
    ensures { IfOk result (λ machine. machine ≡ first_state accepted fill) }
{
    let ram = PageRam::new(alloc, accepted.program().grants(), fill)?;
    let fifo = Fifo::new(alloc, CAPACITIES)?;
    Ok(Machine::new(accepted, ram, fifo))
}

/// Verifies a program that is known to be sound. The verifier's steps are counted in the ledger of `blank`. The error is
/// out of memory.
fn accept_sound<L: Ledger>(
    alloc: Global,
    program: Program,
    blank: Blank,
) -> Result<Accepted, AllocError>
    requires sound { IsSound program }
    requires name { blank.name ≡ L.name }
    requires parts { blank.parts ≡ L.parts }
    requires some { 0 < blank.parts }
    ensures { IfOk result (λ accepted. accepted ≡ program) }
{
    let mut steps = Steps::<L>::new(blank);
    match verify(alloc, program, &mut steps) {
        Ok(accepted) => Ok(accepted),
        Err(rejected) => match rejected.why {
            Why::Bad { .. } => unreachable!(),
            Why::Memory => Err(AllocError),
        },
    }
}

/// The machine, as by `machine_of`, of a program that is known to be sound, as each compiled one is.
pub fn machine_of_sound(
    alloc: Global,
    program: Program,
    fill: u8,
) -> Result<Machine<PageRam>, AllocError>
    requires { IsSound program }
    ensures { IfOk result (λ machine. machine ≡ first_state program fill) }
{
    let accepted = accept_sound::<Brand>(alloc, program, Blank::new(1))?;
    machine_of(alloc, accepted, fill)
}
