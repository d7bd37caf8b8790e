//! The machines that commands play streams on, each before its first step.

ghost use Rattle.std.specs.Prelude.{◌≡◌, [], IfOk};
ghost use Rattle.damage_law.specs.Laws.{map_after};
ghost use Rattle.machine_model.specs.States.{first_state};
ghost use Rattle.machine_watch.specs.Watches.{watching};
ghost use Rattle.picture_model.specs.Programs.{compiled};
ghost use Rattle.ring_model.specs.Rings.{IsRing, ring_program};

use damage_map::Track;
use dma_machine::Machine;
use machine_watch::Watched;
use page_ram::PageRam;
use program_build::{Checked, build};
use ring_compile::{Ring, compile_ring};
use ring_machine::{BlockCount, RingMachine};
use std::alloc::{AllocError, Global};
use stream_play::machine_of_sound;

/// The machine of a description, of which no more is kept than the program and the fill.
pub fn machine_of_description(
    alloc: Global,
    checked: Checked,
) -> Result<Machine<PageRam>, AllocError>
    ensures { IfOk result (λ machine. machine ≡ first_state (compiled checked) checked.fill) }
{
    let fill = checked.fill();
    machine_of_sound(alloc, checked.into_program(alloc)?, fill)
}

/// The machine of a description, of whose rows nothing is known yet.
pub fn map_of(alloc: Global, checked: &Checked) -> Result<Watched<PageRam, Track>, AllocError>
    ensures { IfOk result (λ map. map ≡ map_after checked.now checked.now.fill []) }
{
    let machine = machine_of_sound(alloc, build(alloc, checked)?, checked.fill())?;
    Ok(Watched::new(machine, Track::new(alloc, checked)?))
}

/// The machine of a ring, of which no block is ended yet.
pub fn machine_of_ring(alloc: Global, ring: Ring) -> Result<RingMachine<PageRam>, AllocError>
    ensures first { IfOk result (λ m. m ≡ watching (first_state (ring_program ring) ring.fill) (record { ring = ring; blocks = 0 })) }
    ensures ring { IfOk result (λ _. IsRing ring) }
{
    let program = compile_ring(alloc, &ring)?;
    let machine = machine_of_sound(alloc, program, ring.fill())?;
    Ok(Watched::new(machine, BlockCount::new(ring)))
}
