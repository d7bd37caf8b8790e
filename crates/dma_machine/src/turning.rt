//! Whole turns.

use crate::engine::{Engine, Phase, Standing};
use crate::parts::{have_begun, is_done};
use fifo_model::Queue;
use page_ram::Ram;

impl<R: Ram> Engine<R> {
    ghost use Rattle.dma_machine.specs.Counts.{acted, with_turns};
    ghost use Rattle.dma_machine.specs.Needs.{CanWork};
    ghost use Rattle.dma_machine.specs.Stills.{StandsAs, is_open, is_still, none_served, runs_still, waits_still};
    ghost use Rattle.dma_machine.specs.Views.{state_of};
    ghost use Rattle.fifo_model.specs.Queues.{more};
    ghost use Rattle.machine_model.specs.Turns.{worked};
    ghost use Rattle.std.specs.Prelude.{◌≡◌, ◌<◌, ◌^◌, false, true};

    /// A turn of an enabled machine, and whether it may have done more than count.
    #[inline(always)]
    fn work(&mut self) -> bool
        requires { CanWork (state_of R.memory self.old).job (state_of R.memory self.old) }
        ensures state { state_of R.memory self.new ≡ worked (state_of R.memory self.old).job (state_of R.memory self.old) }
        ensures still { result ≡ false → is_still (state_of R.memory self.new) ≡ true }
    {
        match self.phase {
            Phase::Running => self.run(),
            Phase::Waiting => {
                self.wait();
                true
            }
            Phase::Idle => {
                self.fetch();
                true
            }
        }
    }

    #[cold]
    #[inline(never)]
    fn waits_still(&self) -> bool
        ensures { result ≡ waits_still self.now.queues }
    {
        self.lowest_stray().is_none() && self.common_code().is_none()
    }

    /// Whether turns of a machine that runs do nothing but count.
    #[inline]
    pub fn runs_still(&self) -> bool
        ensures { result ≡ runs_still self.now.demands (state_of R.memory self.now) }
    {
        !is_done(&self.demands) && self.none_served()
    }

    /// Whether the instruction asks for bytes of no queue that is ready.
    #[inline]
    pub fn none_served(&self) -> bool
        ensures { result ≡ none_served self.now.demands (state_of R.memory self.now) }
    {
        !self.is_served(Queue::One) && !self.is_served(Queue::Two) && !self.is_served(Queue::Three)
    }

    #[inline]
    pub fn is_still(&self) -> bool
        ensures { result ≡ is_still (state_of R.memory self.now) }
    {
        if !self.risc_on {
            return true;
        }
        match self.phase {
            Phase::Running => self.runs_still(),
            Phase::Waiting => self.waits_still(),
            Phase::Idle => false,
        }
    }

    /// Whether plain entries fall through a machine that stands still.
    #[inline]
    fn is_open(&self) -> bool
        ensures { result ≡ is_open (state_of R.memory self.now) }
    {
        match self.phase {
            Phase::Running => {
                self.fifo_on
                    && self.risc_on
                    && self.trigger == 1
                    && self.off == 0
                    && have_begun(&self.demands)
                    && self.runs_still()
            }
            Phase::Idle | Phase::Waiting => false,
        }
    }

    /// How the machine stands now.
    #[inline]
    pub fn found_standing(&self) -> Standing
        ensures { StandsAs result (state_of R.memory self.now) }
    {
        if !self.is_still() {
            Standing::Unknown
        } else if self.is_open() {
            Standing::Open
        } else {
            Standing::Still
        }
    }

    /// Whether turns are known to do nothing but count.
    #[inline(always)]
    pub fn is_known_still(&self) -> bool
        requires { StandsAs self.now.standing (state_of R.memory self.now) }
        ensures { result ≡ true → is_still (state_of R.memory self.now) ≡ true }
    {
        !matches!(self.standing, Standing::Unknown)
    }

    /// Whether turns do nothing but count, also where it isn't known yet.
    #[inline]
    pub fn stands_still(&self) -> bool
        requires { StandsAs self.now.standing (state_of R.memory self.now) }
        ensures { result ≡ is_still (state_of R.memory self.now) }
    {
        self.is_known_still() || self.is_still()
    }

    /// Counts turns, which are then taken.
    #[inline(always)]
    pub fn count(&mut self, count: u32)
        ensures state { state_of R.memory self.new ≡ with_turns (more self.old.turns count) (state_of R.memory self.old) }
        ensures few { self.old.turns < 2 ^ 64 }
        ensures stands { self.new.standing ≡ self.old.standing }
    {
        self.turns = self.turns.saturating_add(u64::from(count));
    }

    /// Takes a turn that is counted, and finds out whether those after it do nothing. It is never inlined: within the loop
    /// over the records of a piece the compiler has too few registers for it.
    #[inline(never)]
    fn act_anew(&mut self)
        requires { CanWork (state_of R.memory self.old).job (state_of R.memory self.old) }
        ensures state { state_of R.memory self.new ≡ acted (state_of R.memory self.old) }
        ensures stands { StandsAs self.new.standing (state_of R.memory self.new) }
    {
        let worked = self.risc_on && self.work();
        self.standing = if worked {
            self.found_standing()
        } else {
            Standing::Still
        };
    }

    /// Takes a turn that is counted. It does nothing where the machine stands still.
    #[inline(always)]
    #[tactic(auto, using(crate::proofs::Standing::still_acted))]
    pub fn act(&mut self)
        requires can { CanWork (state_of R.memory self.old).job (state_of R.memory self.old) }
        requires stands { StandsAs self.old.standing (state_of R.memory self.old) }
        ensures state { state_of R.memory self.new ≡ acted (state_of R.memory self.old) }
        ensures stands { StandsAs self.new.standing (state_of R.memory self.new) }
    {
        if !self.is_known_still() {
            self.act_anew();
        }
    }
}
