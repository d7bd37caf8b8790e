//! The sound programs of a chain, of which one is in the machine.

use dma_machine::Machine;
use page_ram::Ram;
use risc_verify::Accepted;

/// A machine, and the programs with which it goes on: one for each part, which is patched in alone. The place of the part
/// whose program is in the machine holds the one without parts.
#[derive(Drop)]
pub struct Wheel<R: Ram> {
    pub machine: Machine<R>,
    pub programs: Vec<Accepted>,
    /// The part whose program is in the machine; none for the one without parts.
    pub current: Option<u32>,
}

impl<R: Ram> Wheel<R> {
    ghost use Rattle.chain_model.specs.Chains.{Chain};
    ghost use Rattle.dma_machine.specs.Looks.{CanGoOn};
    ghost use Rattle.machine_model.specs.Steps.{with_program};
    ghost use Rattle.slot_chain.specs.Wheels.{CanEnter, Entered};
    ghost use Rattle.std.specs.Prelude.{◌≡◌, ◌<◌, length, slice_index_or, slice_set, None, Some};

    /// Exchanges the machine's program for the one at the place of a part.
    fn exchange(&mut self, part: u32)
        requires inside { part < length self.old.programs.items }
        requires can { CanGoOn (slice_index_or self.old.programs.items part self.old.machine.program) self.old.machine }
        ensures machine { self.new.machine
            ≡ with_program (slice_index_or self.old.programs.items part self.old.machine.program) self.old.machine }
        ensures programs { self.new.programs.items ≡ slice_set self.old.programs.items part self.old.machine.program }
        ensures current { self.new.current ≡ self.old.current }
    {
        self.machine.swap(&mut self.programs[part as usize]);
    }

    /// Puts the program without parts into the machine.
    fn leave(&mut self)
        requires { (chain : Chain) × CanEnter chain None self.old.machine self.old.programs.items self.old.current }
        ensures { (chain : Chain) → CanEnter chain None self.old.machine self.old.programs.items self.old.current →
            Entered chain None self.old.machine self.new.machine self.new.programs.items self.new.current }
    {
        if let Some(part) = self.current {
            self.exchange(part);
            self.current = None;
        }
    }

    /// Puts the program of a part into the machine, which has the one without parts.
    fn bring(&mut self, part: u32)
        requires none { self.old.current ≡ None }
        requires can { (chain : Chain) × CanEnter chain (Some part) self.old.machine self.old.programs.items self.old.current }
        ensures { (chain : Chain) → CanEnter chain (Some part) self.old.machine self.old.programs.items self.old.current →
            Entered chain (Some part) self.old.machine self.new.machine self.new.programs.items self.new.current }
    {
        self.exchange(part);
        self.current = Some(part);
    }

    /// Puts the program of a part, or the one without parts, into the machine.
    pub fn enter(&mut self, part: Option<u32>)
        requires { (chain : Chain) × CanEnter chain part self.old.machine self.old.programs.items self.old.current }
        ensures { (chain : Chain) → CanEnter chain part self.old.machine self.old.programs.items self.old.current →
            Entered chain part self.old.machine self.new.machine self.new.programs.items self.new.current }
    {
        if self.current == part {
            return;
        }
        self.leave();
        if let Some(part) = part {
            self.bring(part);
        }
    }
}
