//! What is kept of a machine's steps.

ghost use Rattle.std.specs.Prelude.{◌≡◌, ◌∷◌, [], ℕ, refl, Bool, false, true, replicate};
ghost use Rattle.dma_machine.specs.FallThrough.{moved_whole};
ghost use Rattle.machine_model.specs.Paths.{RiscProgram};
ghost use Rattle.machine_model.specs.Steps.{Push, Turn};
ghost use Rattle.machine_model.specs.declared.Did.TheVariants.{Still};
ghost use Rattle.machine_model.specs.declared.Seen.{Seen as SeenOf};
ghost use Rattle.machine_watch.specs.Watches.{FirstTellsIf, Notes, no_notes, watched, watching};
ghost use Rattle.sync_status.specs.Statuses.{is_control, kind_of};

use dma_machine::{Machine, Seen};
use fifo_model::{Entry, Queue};
use page_ram::Ram;
use risc_verify::Program;

/// What is kept of a machine's steps beside the machine. Proofs see its `notes`: what a turn makes of it, by what is seen of
/// the turn, and what the emptying of the queues makes of it. A push leaves it as it is, and so does a turn that does nothing.
pub trait Watch {
    ghost notes: { Notes Self };

    ghost LETS_FALL: { Bool };

    /// Whether a turn that takes an entry whole may be noted without the address of its instruction. Such an entry need not
    /// enter its queue.
    const LETS_FALL: bool;

    /// A turn of a machine with this program was taken.
    fn saw(&mut self, program: &Program, seen: &Seen)
        ensures { self.new ≡ notes.saw program.now seen.now self.old };

    /// A turn took an entry of a queue whole, within its line, or several turns did, one after the other.
    fn took_whole(&mut self, queue: Queue)
        requires { LETS_FALL ≡ true }
        ensures { (program : RiscProgram) (at : ℕ) → self.new ≡ notes.saw program (moved_whole queue at) self.old };

    /// The queues are emptied, of which these hold an entry.
    fn emptied(&mut self, one: bool, two: bool, three: bool)
        ensures { self.new ≡ notes.emptied one two three self.old };

    /// Takes a turn of a machine.
    #[inline]
    fn turn<R: Ram>(&mut self, machine: &mut Machine<R>)
        ensures { watching machine.new self.new ≡ watched notes (Turn ∷ []) (watching machine.old self.old) }
    {
        let seen = machine.turn_seen();
        self.saw(machine.program(), &seen);
    }

    /// Takes so many turns of a machine, one after the other. Where it stands still they only count.
    fn turns<R: Ram>(&mut self, machine: &mut Machine<R>, count: u32)
        ensures { watching machine.new self.new ≡ watched notes (replicate count Turn) (watching machine.old self.old) }
    {
        if machine.stands_still() {
            machine.stand(count);
        } else {
            self.turns_apart(machine, count);
        }
    }

    /// The same turns of a machine that may move, up to where it stands still. It is never inlined, so that no registers are
    /// saved for a machine that stands still.
    #[cold]
    #[inline(never)]
    fn turns_apart<R: Ram>(&mut self, machine: &mut Machine<R>, count: u32)
        ensures { watching machine.new self.new ≡ watched notes (replicate count Turn) (watching machine.old self.old) }
    {
        let mut left = count;
        while left > 0 {
            if machine.stands_still() {
                machine.stand(left);
                return;
            }
            left -= 1;
            self.turn(machine);
        }
    }

    /// A push of a data entry to a queue of a machine, and so many turns behind it.
    #[inline(always)]
    fn push_and_turns<R: Ram>(
        &mut self,
        machine: &mut Machine<R>,
        queue: Queue,
        entry: Entry,
        count: u32,
    )
        requires { is_control (kind_of entry.status) ≡ false }
        ensures { watching machine.new self.new ≡ watched notes (Push queue entry ∷ replicate count Turn) (watching machine.old self.old) }
    {
        if count == 0 {
            let _ = machine.push(queue, entry);
        } else if !Self::LETS_FALL {
            let _ = machine.push(queue, entry);
            self.turns(machine, count);
        } else if machine.push_and_take(queue, entry) {
            self.took_whole(queue);
            self.turns(machine, count - 1);
        } else {
            self.turns(machine, count);
        }
    }

    // a turn that does nothing leaves what is kept as it is
    ghost still: { (program : RiscProgram) (seen : SeenOf) (kept : Self) → seen.did ≡ Still → notes.saw program seen kept ≡ kept };

    // so does one that takes an entry whole behind another of its queue, and one call of `took_whole` is for all of them
    ghost whole: { FirstTellsIf LETS_FALL notes };
}

/// Nothing is kept of a machine that nobody watches: it takes its turns as it does alone.
impl Watch for () {
    ghost notes = { no_notes };

    ghost LETS_FALL = { true };

    const LETS_FALL: bool = true;

    fn saw(&mut self, _program: &Program, _seen: &Seen) {}

    fn took_whole(&mut self, _queue: Queue) {}

    fn emptied(&mut self, _one: bool, _two: bool, _three: bool) {}

    #[inline(always)]
    fn turn<R: Ram>(&mut self, machine: &mut Machine<R>) {
        machine.turn();
    }

    #[inline(always)]
    fn turns<R: Ram>(&mut self, machine: &mut Machine<R>, count: u32) {
        machine.turns(count);
    }

    #[inline(always)]
    fn push_and_turns<R: Ram>(
        &mut self,
        machine: &mut Machine<R>,
        queue: Queue,
        entry: Entry,
        count: u32,
    ) {
        machine.push_and_turns(queue, entry, count);
    }

    ghost still = { λ program seen kept still. refl };

    ghost whole = { λ first later queue at next kept. refl };
}
