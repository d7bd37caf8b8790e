//! Plain entries that fall through an open machine, one by one.

use crate::engine::{Engine, Standing};
use crate::parts::{demand_on, set_demand};
use fifo_model::{Entry, Queue};
use machine_model::Demand;
use page_ram::Ram;
use sync_status::{Status, StatusKind, kind};

impl<R: Ram> Engine<R> {
    ghost use Rattle.dma_machine.specs.FallThrough.{FallsOpen, falls_through, put_down};
    ghost use Rattle.dma_machine.specs.Needs.{CanWork};
    ghost use Rattle.dma_machine.specs.Stills.{StandsAs};
    ghost use Rattle.dma_machine.specs.Views.{state_of};
    ghost use Rattle.dma_machine.specs.declared.engine.Phase.{Phase};
    ghost use Rattle.dma_machine.specs.declared.engine.Standing.{Standing};
    ghost use Rattle.fifo_model.specs.Queues.{IsFifo};
    ghost use Rattle.machine_model.specs.Paths.{demands_cause};
    ghost use Rattle.machine_model.specs.Steps.{Turn, push, run};
    ghost use Rattle.machine_model.specs.Turns.{demand_on};
    ghost use Rattle.page_table.specs.Blocks.{chunks_of};
    ghost use Rattle.std.specs.Prelude.{◌≡◌, ◌<◌, ◌≤◌, None, false, length, replicate, true};

    /// Takes four bytes off what is asked of a queue, and stores them, where no lane is off. They are stored last, so that the
    /// processor has nothing to keep meanwhile.
    #[inline(always)]
    fn put_dword(&mut self, q: Queue, bytes: &[u8])
        requires running { self.old.phase ≡ Phase.Running }
        requires on { self.old.off ≡ 0 }
        requires four { length bytes.now ≡ 4 }
        requires asked { 4 ≤ (demand_on q self.old.demands).rest }
        requires within { demands_cause (chunks_of (R.memory self.old.ram)) self.old.demands ≡ None }
        ensures state { state_of R.memory self.new ≡ put_down q 4 self.old.instr self.old.demands 0 bytes.now (state_of R.memory self.old) }
        ensures stands { self.new.standing ≡ self.old.standing }
    {
        let demand = demand_on(&self.demands, q);
        let moved = self.moved.saturating_add(4);
        let rest = demand.rest - 4;
        let needs_sol = false;
        match demand.address {
            Some(at) => {
                let address = Some(at + 4);
                set_demand(
                    &mut self.demands,
                    q,
                    Demand {
                        rest,
                        address,
                        needs_sol,
                    },
                );
                self.moved = moved;
                self.ram.store_run(at as u32, bytes);
            }
            None => {
                let address = None;
                set_demand(
                    &mut self.demands,
                    q,
                    Demand {
                        rest,
                        address,
                        needs_sol,
                    },
                );
            }
        }
    }

    /// Whether an entry with so many turns behind it falls through an open machine and leaves it open: there is a turn, the entry is
    /// plain, and its queue is asked for more.
    #[inline(always)]
    fn falls_open(&self, q: Queue, status: Status, count: u32) -> bool
        ensures { result ≡ true → FallsOpen q status count self.now.standing self.now.demands }
    {
        let open = matches!(self.standing, Standing::Open);
        let plain = matches!(kind(status), StatusKind::Pixels);
        count > 0 && open && plain && demand_on(&self.demands, q).rest > 4
    }

    /// Pushes such an entry, and takes so many turns behind it, one or more: the first takes it, and the others do nothing. Answers
    /// whether that was done; where it wasn't, nothing was.
    #[inline(always)]
    pub fn fall_open(&mut self, q: Queue, entry: &Entry, count: u32) -> bool
        requires can { CanWork (state_of R.memory self.old).job (state_of R.memory self.old) }
        requires orderly { IsFifo self.old.queues }
        requires stands { StandsAs self.old.standing (state_of R.memory self.old) }
        ensures falls { result ≡ true → falls_through q entry.now.status (state_of R.memory self.old) ≡ true }
        ensures state { result ≡ true →
            state_of R.memory self.new ≡ run (push q entry.now (state_of R.memory self.old)) (replicate count Turn) }
        ensures none { result ≡ false → self.new ≡ self.old }
        ensures stands { StandsAs self.new.standing (state_of R.memory self.new) }
    {
        if !self.falls_open(q, entry.status, count) {
            return false;
        }
        self.turns = self.turns.saturating_add(u64::from(count));
        self.put_dword(q, &entry.dword.to_le_bytes());
        true
    }
}
