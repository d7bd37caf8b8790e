//! The map of damage of a description, beside a machine that runs its program.

ghost use Rattle.std.specs.Prelude.{◌≡◌, ◌<◌};

use capture_desc::read_desc;
use damage_map::Mapped;
use dma_machine::Machine;
use fifo_model::{CAPACITIES, Fifo};
use page_ram::MapRam;
use program_build::{Checked, build, check};
use risc_verify::{Accepted, Steps, verify};
use std::alloc::Global;
use std::marker::Brand;
use std::sync::ledger::{Blank, Ledger};
use std::test::Fail;

/// The program of a description, verified.
fn accepted<L: Ledger>(alloc: Global, checked: &Checked, blank: Blank) -> Result<Accepted, Fail>
    requires name { blank.name ≡ L.name }
    requires parts { blank.parts ≡ L.parts }
    requires some { 0 < blank.parts }
{
    let program = build(alloc, checked)?;
    let mut steps = Steps::<L>::new(blank);
    match verify(alloc, program, &mut steps) {
        Ok(accepted) => Ok(accepted),
        Err(_) => Err(Fail::from("it is sound")),
    }
}

fn machine(alloc: Global, accepted: Accepted, fill: u8) -> Result<Machine<MapRam>, Fail> {
    let ram = MapRam::new(alloc, accepted.program().grants(), fill)?;
    let fifo = Fifo::new(alloc, CAPACITIES)?;
    Ok(Machine::new(accepted, ram, fifo))
}

fn mapped_of(alloc: Global, checked: &Checked) -> Result<Mapped<MapRam>, Fail> {
    let accepted = accepted::<Brand>(alloc, checked, Blank::new(1))?;
    let machine = machine(alloc, accepted, checked.fill())?;
    Ok(Mapped::new(alloc, machine, checked)?)
}

/// A machine with ample queues that runs a description's program, with the description's map of damage.
pub fn mapped(alloc: Global, text: &str) -> Result<Mapped<MapRam>, Fail> {
    let desc = read_desc(alloc, text.as_bytes())?;
    let checked = check(alloc, desc)?;
    mapped_of(alloc, &checked)
}
