//! Plain entries, taken one after the other.

use crate::engine::{Engine, Phase};
use crate::parts::{demand_on, lessen, whole_entries};
use crate::stores::store_run_at;
use fifo_model::{Entry, Queue};
use page_ram::Ram;
use sync_status::Status;

/// The status of four valid pixel bytes within a line.
const PIXELS_VALID: u8 = 0;

impl<R: Ram> Engine<R> {
    ghost use Rattle.dma_machine.specs.FallThrough.{put_down};
    ghost use Rattle.dma_machine.specs.Needs.{CanWork};
    ghost use Rattle.dma_machine.specs.Plain.{AreDwords, AreRun, AreTaken, all_pushed, lets_plain, plain_room};
    ghost use Rattle.dma_machine.specs.Facts.{HaveRoom};
    ghost use Rattle.machine_model.specs.PlainEntries.{dwords_of, plain_steps};
    ghost use Rattle.dma_machine.specs.Stills.{StandsAs};
    ghost use Rattle.dma_machine.specs.Views.{state_of};
    ghost use Rattle.fifo_model.specs.Queues.{IsFifo};
    ghost use Rattle.machine_model.specs.Paths.{RiscProgram, demands_cause};
    ghost use Rattle.machine_model.specs.Steps.{run, with_program};
    ghost use Rattle.machine_model.specs.Turns.{demand_on};
    ghost use Rattle.page_table.specs.Blocks.{chunks_of};
    ghost use Rattle.std.specs.Prelude.{◌≡◌, ◌*◌, ◌<◌, ◌≤◌, List, None, ℕ, length};

    /// Whether plain entries of the queue are taken whole where the running instruction asks for their bytes.
    #[inline]
    fn lets_plain(&self, q: Queue) -> bool
        ensures { result ≡ lets_plain q self.now.instr self.now.demands (state_of R.memory self.now) }
    {
        self.queues.front(q).is_none()
            && !demand_on(&self.demands, q).needs_sol
            && self.off == 0
            && self.none_served()
    }

    /// How many plain entries of a queue are taken whole one after the other.
    #[inline]
    pub fn plain_room(&self, q: Queue) -> u32
        ensures { result ≡ plain_room q (state_of R.memory self.now) }
    {
        if !self.fifo_on || !self.risc_on {
            return 0;
        }
        match self.phase {
            Phase::Running if self.lets_plain(q) => whole_entries(&self.demands, q),
            _ => 0,
        }
    }

    /// Stores bytes of a queue one behind the other, where no lane is off, and takes them off what is asked.
    #[inline(always)]
    fn put_run(&mut self, q: Queue, bytes: &[u8])
        requires running { self.old.phase ≡ Phase.Running }
        requires on { self.old.off ≡ 0 }
        requires asked { length bytes.now ≤ (demand_on q self.old.demands).rest }
        requires within { demands_cause (chunks_of (R.memory self.old.ram)) self.old.demands ≡ None }
        ensures { state_of R.memory self.new
            ≡ put_down q (length bytes.now) self.old.instr self.old.demands 0 bytes.now (state_of R.memory self.old) }
    {
        let demand = demand_on(&self.demands, q);
        let stored = store_run_at(&mut self.ram, demand.address, bytes);
        self.moved = self.moved.saturating_add(stored);
        lessen(&mut self.demands, q, bytes.len() as u16);
    }

    /// Pushes plain entries of these DWORDs, with no turn between them.
    fn push_all(&mut self, q: Queue, dwords: &[u8])
        ensures { (entries : List (ℕ × ℕ)) → dwords_of entries ≡ dwords.now → AreDwords entries →
            state_of R.memory self.new ≡ all_pushed q entries (state_of R.memory self.old) }
    {
        let mut at = 0;
        while dwords.len() - at >= 4 {
            let dword = [dwords[at], dwords[at + 1], dwords[at + 2], dwords[at + 3]];
            let dword = u32::from_le_bytes(dword);
            let status = Status::of(PIXELS_VALID);
            self.push(q, Entry { status, dword });
            at += 4;
        }
    }

    /// Pushes of plain entries of these DWORDs, and so many turns behind them in all. Whether a burst was taken.
    #[inline]
    pub fn push_plain(&mut self, q: Queue, dwords: &[u8], turns: u32) -> bool
        requires can { CanWork (state_of R.memory self.old).job (state_of R.memory self.old) }
        requires orderly { IsFifo self.old.queues }
        requires queues { HaveRoom self.old.trigger self.old.queues }
        requires some { 0 < length dwords.now }
        requires room { length dwords.now ≤ 4 * plain_room q (state_of R.memory self.old) }
        requires plain { (entries : List (ℕ × ℕ)) × AreRun dwords.now turns entries }
        ensures state { (entries : List (ℕ × ℕ)) → AreRun dwords.now turns entries →
            state_of R.memory self.new ≡ run (state_of R.memory self.old) (plain_steps q entries) }
        ensures others { (program : RiscProgram) (entries : List (ℕ × ℕ)) → AreRun dwords.now turns entries → with_program program
            (state_of R.memory self.new) ≡ run (with_program program (state_of R.memory self.old)) (plain_steps q entries) }
        ensures taken { (entries : List (ℕ × ℕ)) → AreRun dwords.now turns entries →
            AreTaken result q entries (state_of R.memory self.old) }
        ensures stands { StandsAs self.new.standing (state_of R.memory self.new) }
    {
        let whole = dwords.len() - dwords.len() % (4 * usize::from(self.trigger));
        let taken = whole > 0;
        if taken {
            self.put_run(q, &dwords[..whole]);
        }
        self.push_all(q, &dwords[whole..]);
        self.count(turns);
        self.standing = self.found_standing();
        taken
    }
}
