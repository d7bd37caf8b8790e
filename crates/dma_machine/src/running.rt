//! Turns of a machine that runs a data instruction.

use crate::engine::{Engine, Phase};
use crate::parts::{demand_on, is_cut_short, is_done, lessen, rest_of_line, takes_whole};
use crate::stores::store_at;
use fifo_model::{Entry, Queue};
use irq_status::FDSR;
use machine_model::Skipping;
use page_ram::Ram;
use sync_status::{Status, Verdict, judge};

impl<R: Ram> Engine<R> {
    ghost use Rattle.dma_machine.specs.Counts.{acted};
    ghost use Rattle.dma_machine.specs.FallThrough.{falls_through, none_before, put_down};
    ghost use Rattle.dma_machine.specs.Needs.{Applied, CanWork, IsAddress};
    ghost use Rattle.dma_machine.specs.Views.{state_of};
    ghost use Rattle.fifo_model.specs.Queues.{IsFifo, front, front_code, queue_state, removed};
    ghost use Rattle.machine_model.specs.Paths.{demands_cause};
    ghost use Rattle.machine_model.specs.Steps.{push};
    ghost use Rattle.machine_model.specs.Turns.{apply, burst, burst_of, demand_on, is_cut_short, is_done, is_served, judged, lowest_served};
    ghost use Rattle.machine_model.specs.Turns.{ran, served, taking, took, verdict_at, with_fdsr, with_queue};
    ghost use Rattle.page_table.specs.Blocks.{chunks_of};
    ghost use Rattle.dma_machine.specs.Stills.{StandsAs, none_served, runs_still};
    ghost use Rattle.std.specs.Prelude.{◌≡◌, ◌+◌, ◌≤◌, length, IsSome, None, Some, false, true};
    ghost use Rattle.sync_status.specs.Statuses.{valid_bytes};

    /// Stores so many bytes that were taken of a queue, those whose lane is on, and takes them off what is asked.
    #[inline(always)]
    fn put_down(&mut self, q: Queue, count: u8, lane: u8, bytes: &[u8])
        requires running { self.old.phase ≡ Phase.Running }
        requires all { length bytes.now ≡ count }
        requires lanes { lane + count ≤ 4 }
        requires asked { count ≤ (demand_on q self.old.demands).rest }
        requires within { demands_cause (chunks_of (R.memory self.old.ram)) self.old.demands ≡ None }
        ensures state { state_of R.memory self.new
            ≡ put_down q count self.old.instr self.old.demands lane bytes.now (state_of R.memory self.old) }
        ensures running { self.new.phase ≡ Phase.Running }
        ensures same { self.new.instr ≡ self.old.instr }
        ensures within { demands_cause (chunks_of (R.memory self.new.ram)) self.new.demands ≡ None }
    {
        let demand = demand_on(&self.demands, q);
        let stored = store_at(&mut self.ram, demand.address, self.off, lane, bytes);
        self.moved = self.moved.saturating_add(stored);
        lessen(&mut self.demands, q, u16::from(count));
    }

    /// Takes bytes of a queue's front and stores those whose lane is on; whether the line ends before the
    /// instruction has what it asks for.
    #[inline(always)]
    fn move_bytes(&mut self, q: Queue, n: u8, entry: Entry) -> bool
        requires running { self.old.phase ≡ Phase.Running }
        requires front { front (queue_state q self.old.queues) ≡ Some entry }
        requires some { 1 ≤ n }
        requires valid { (queue_state q self.old.queues).taken + n ≤ valid_bytes entry.status }
        requires asked { n ≤ (demand_on q self.old.demands).rest }
        requires within { demands_cause (chunks_of (R.memory self.old.ram)) self.old.demands ≡ None }
        ensures state { state_of R.memory self.new ≡ took q n self.old.instr self.old.demands entry (state_of R.memory self.old) }
        ensures cut { result ≡ is_cut_short entry (queue_state q self.old.queues).taken n (demand_on q self.old.demands).rest }
        ensures same { self.new.instr ≡ self.old.instr }
        ensures within { demands_cause (chunks_of (R.memory self.new.ram)) self.new.demands ≡ None }
    {
        let rest = demand_on(&self.demands, q).rest;
        let mut bytes = [0; 4];
        let part = self.queues.take(q, n, &mut bytes);
        self.put_down(q, n, part, &bytes[..usize::from(n)]);
        is_cut_short(entry, part, n, rest)
    }

    #[inline(always)]
    fn take(&mut self, q: Queue, n: u8, entry: Entry)
        requires running { self.old.phase ≡ Phase.Running }
        requires front { front (queue_state q self.old.queues) ≡ Some entry }
        requires some { 1 ≤ n }
        requires valid { (queue_state q self.old.queues).taken + n ≤ valid_bytes entry.status }
        requires asked { n ≤ (demand_on q self.old.demands).rest }
        requires within { demands_cause (chunks_of (R.memory self.old.ram)) self.old.demands ≡ None }
        ensures state { state_of R.memory self.new ≡ taking q n self.old.instr self.old.demands entry (state_of R.memory self.old) }
        ensures within { demands_cause (chunks_of (R.memory self.new.ram)) self.new.demands ≡ None }
    {
        if self.move_bytes(q, n, entry) {
            let skipping = rest_of_line(&self.instr);
            self.give_up(skipping);
        }
    }

    /// Removes a front that is of no use to the running instruction.
    #[cold]
    fn discard(&mut self, q: Queue)
        requires there { IsSome (front (queue_state q self.old.queues)) }
        requires no_code { front_code (queue_state q self.old.queues) ≡ None }
        ensures state { state_of R.memory self.new
            ≡ with_fdsr (with_queue q (removed (queue_state q self.old.queues)) (state_of R.memory self.old)) }
        ensures same { (self.new.ram ≡ self.old.ram) × (self.new.demands ≡ self.old.demands) }
    {
        self.queues.discard(q);
        self.interrupts.raise(FDSR);
    }

    /// What the front of a queue makes of the instruction.
    #[cold]
    #[inline(never)]
    fn judge_front(&mut self, q: Queue, entry: Entry)
        requires running { self.old.phase ≡ Phase.Running }
        requires front { front (queue_state q self.old.queues) ≡ Some entry }
        requires asked { 1 ≤ (demand_on q self.old.demands).rest }
        requires within { demands_cause (chunks_of (R.memory self.old.ram)) self.old.demands ≡ None }
        ensures state { state_of R.memory self.new ≡ judged (verdict_at q self.old.demands entry (state_of R.memory self.old)) q
            self.old.instr self.old.demands entry (state_of R.memory self.old) }
        ensures within { demands_cause (chunks_of (R.memory self.new.ram)) self.new.demands ≡ None }
    {
        let demand = demand_on(&self.demands, q);
        let part = self.queues.part(q);
        match judge(entry.status, demand.needs_sol, part, demand.rest) {
            Verdict::Take(n) => self.take(q, n, entry),
            Verdict::Discard => self.discard(q),
            Verdict::Broken => self.give_up(Skipping::ToSync),
            Verdict::Missing => {
                let skipping = rest_of_line(&self.instr);
                self.give_up(skipping);
            }
        }
    }

    /// The same, quick where the front is taken whole.
    #[inline(always)]
    #[tactic(auto, using(crate::proofs::WholeTakes::plain_whole))]
    fn meet_front(&mut self, q: Queue, entry: Entry)
        requires running { self.old.phase ≡ Phase.Running }
        requires front { front (queue_state q self.old.queues) ≡ Some entry }
        requires asked { 1 ≤ (demand_on q self.old.demands).rest }
        requires within { demands_cause (chunks_of (R.memory self.old.ram)) self.old.demands ≡ None }
        ensures state { state_of R.memory self.new ≡ judged (verdict_at q self.old.demands entry (state_of R.memory self.old)) q
            self.old.instr self.old.demands entry (state_of R.memory self.old) }
        ensures within { demands_cause (chunks_of (R.memory self.new.ram)) self.new.demands ≡ None }
    {
        let demand = demand_on(&self.demands, q);
        let part = self.queues.part(q);
        if takes_whole(entry.status, demand.needs_sol, part, demand.rest) {
            self.take(q, 4, entry);
        } else {
            self.judge_front(q, entry);
        }
    }

    /// One application to the front of a queue by the running instruction; whether there was one.
    #[inline(always)]
    fn serve(&mut self, q: Queue) -> bool
        requires running { self.old.phase ≡ Phase.Running }
        requires within { demands_cause (chunks_of (R.memory self.old.ram)) self.old.demands ≡ None }
        ensures applied { Applied
            (served (front (queue_state q self.old.queues)) q self.old.instr self.old.demands (state_of R.memory self.old)) result
            (state_of R.memory self.new) (state_of R.memory self.old) }
        ensures within { demands_cause (chunks_of (R.memory self.new.ram)) self.new.demands ≡ None }
    {
        match self.queues.front(q) {
            Some(entry) => {
                if demand_on(&self.demands, q).rest == 0 {
                    false
                } else {
                    self.meet_front(q, entry);
                    true
                }
            }
            None => false,
        }
    }

    #[inline(always)]
    pub fn apply(&mut self, q: Queue) -> bool
        requires { demands_cause (chunks_of (R.memory self.old.ram)) self.old.demands ≡ None }
        ensures applied { Applied (apply q (state_of R.memory self.old)) result (state_of R.memory self.new) (state_of R.memory self.old) }
        ensures within { demands_cause (chunks_of (R.memory self.new.ram)) self.new.demands ≡ None }
    {
        match self.phase {
            Phase::Running => self.serve(q),
            Phase::Idle | Phase::Waiting => false,
        }
    }

    /// As many applications to one queue as there can be, up to so many.
    #[inline(always)]
    fn burst_on(&mut self, q: Queue, mut left: u16)
        requires { demands_cause (chunks_of (R.memory self.old.ram)) self.old.demands ≡ None }
        ensures { state_of R.memory self.new ≡ burst left q (state_of R.memory self.old) }
    {
        while left > 0 && self.apply(q) {
            left -= 1;
        }
    }

    /// As many applications to one queue as there can be, up to the trigger point, by a loop of its own for
    /// each queue.
    #[inline(always)]
    fn burst(&mut self, q: Queue)
        requires { demands_cause (chunks_of (R.memory self.old.ram)) self.old.demands ≡ None }
        ensures { state_of R.memory self.new ≡ burst self.old.trigger q (state_of R.memory self.old) }
    {
        let most = self.trigger;
        match q {
            Queue::One => self.burst_on(Queue::One, most),
            Queue::Two => self.burst_on(Queue::Two, most),
            Queue::Three => self.burst_on(Queue::Three, most),
        }
    }

    /// Whether the instruction asks for bytes of a queue that is ready.
    #[inline(always)]
    pub fn is_served(&self, q: Queue) -> bool
        ensures { result ≡ is_served q self.now.demands (state_of R.memory self.now) }
    {
        demand_on(&self.demands, q).rest != 0 && self.queues.ready(q, self.trigger)
    }

    /// The lowest queue that is served.
    #[inline(always)]
    pub fn lowest_served(&self) -> Option<Queue>
        ensures queue { result ≡ lowest_served self.now.demands (state_of R.memory self.now) }
        ensures none { result ≡ None → none_served self.now.demands (state_of R.memory self.now) ≡ true }
    {
        if self.is_served(Queue::One) {
            Some(Queue::One)
        } else if self.is_served(Queue::Two) {
            Some(Queue::Two)
        } else if self.is_served(Queue::Three) {
            Some(Queue::Three)
        } else {
            None
        }
    }

    /// A burst from the lowest queue that is served, and whether there is one.
    #[inline(always)]
    fn burst_lowest(&mut self) -> bool
        requires { demands_cause (chunks_of (R.memory self.old.ram)) self.old.demands ≡ None }
        ensures state { state_of R.memory self.new
            ≡ burst_of (lowest_served self.old.demands (state_of R.memory self.old)) (state_of R.memory self.old) }
        ensures none { result ≡ false → (self.new ≡ self.old) × (none_served self.old.demands (state_of R.memory self.old) ≡ true) }
    {
        match self.lowest_served() {
            Some(q) => {
                self.burst(q);
                true
            }
            None => false,
        }
    }

    /// A turn of a machine that runs, and whether it did more than count.
    #[inline(always)]
    pub fn run(&mut self) -> bool
        requires target { IsAddress self.old.target }
        requires within { demands_cause (chunks_of (R.memory self.old.ram)) self.old.demands ≡ None }
        ensures state { state_of R.memory self.new
            ≡ ran (is_done self.old.demands) self.old.instr self.old.demands (state_of R.memory self.old) }
        ensures still { result ≡ false → (self.new ≡ self.old) × (runs_still self.old.demands (state_of R.memory self.old) ≡ true) }
    {
        if is_done(&self.demands) {
            self.retire();
            true
        } else {
            self.burst_lowest()
        }
    }

    /// Whether no queue before this one is served.
    #[inline(always)]
    fn none_before(&self, q: Queue) -> bool
        ensures { result ≡ none_before q self.now.demands (state_of R.memory self.now) }
    {
        match q {
            Queue::One => true,
            Queue::Two => !self.is_served(Queue::One),
            Queue::Three => !self.is_served(Queue::One) && !self.is_served(Queue::Two),
        }
    }

    /// Whether an entry of this status falls through its queue where it is pushed now: the turn behind its push takes it whole.
    #[inline(always)]
    pub fn falls_through(&self, q: Queue, status: Status) -> bool
        ensures { result ≡ falls_through q status (state_of R.memory self.now) }
    {
        if !self.fifo_on || !self.risc_on {
            return false;
        }
        let demand = demand_on(&self.demands, q);
        match self.phase {
            Phase::Running => {
                self.trigger == 1
                    && self.queues.front(q).is_none()
                    && takes_whole(status, demand.needs_sol, 0, demand.rest)
                    && self.none_before(q)
            }
            Phase::Idle | Phase::Waiting => false,
        }
    }

    /// A push of an entry that falls through its queue, and the turn behind it, which is counted: its four bytes are stored.
    #[inline(always)]
    pub fn fall_through(&mut self, q: Queue, entry: Entry)
        requires can { CanWork (state_of R.memory self.old).job (state_of R.memory self.old) }
        requires falls { falls_through q entry.status (state_of R.memory self.old) ≡ true }
        requires orderly { IsFifo self.old.queues }
        ensures state { state_of R.memory self.new ≡ acted (push q entry (state_of R.memory self.old)) }
        ensures stands { StandsAs self.new.standing (state_of R.memory self.new) }
    {
        self.put_down(q, 4, 0, &entry.dword.to_le_bytes());
        self.standing = self.found_standing();
    }
}
