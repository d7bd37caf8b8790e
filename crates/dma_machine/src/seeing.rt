//! Turns that answer what they did: each looks at what comes, and then the code of turns does it.

ghost use Rattle.dma_machine.specs.Noted.{noted};
ghost use Rattle.machine_model.specs.Seen.{instr_did, seen_alone, taken_by, verdict_of};
ghost use Rattle.std.specs.Prelude.{◌≡◌, ◌+◌, ◌<◌, ◌≤◌, ◌⊎◌, ◌&&◌, ◌==◌};
ghost use Rattle.sync_status.specs.Statuses.{is_end, kind_of, valid_bytes};

use crate::Told;
use crate::engine::{Engine, Phase};
use crate::parts::{demand_on, is_cut_short, is_done, length_in_words, takes_whole};
use fifo_model::{Entry, Queue};
use machine_model::{Demand, Did, Seen, Skipping};
use page_ram::Ram;
use risc_word::Instr;
use sync_status::{StatusKind, Verdict, judge, kind, valid};

/// What fetching an instruction does.
fn instr_did(instr: &Instr, skipping: Skipping) -> Did
    ensures { result ≡ instr_did instr.now skipping }
{
    match instr {
        Instr::Jump { .. } => Did::Jumped,
        Instr::Sync { .. } => Did::Synced,
        Instr::Write { .. }
        | Instr::Skip { .. }
        | Instr::WriteC { .. }
        | Instr::Write123 { .. }
        | Instr::Skip123 { .. }
        | Instr::Write1S23 { .. } => match skipping {
            Skipping::Nothing => Did::Begun,
            Skipping::ToEol | Skipping::ToSync => Did::Passed,
        },
    }
}

/// What is seen of a turn that applies nothing to a queue.
fn seen_alone(did: Did, at: u32) -> Seen
    ensures { result ≡ seen_alone did at }
{
    Seen {
        did,
        at,
        took: false,
        ended: false,
        reserved: false,
    }
}

/// The same, with the bytes that it takes: none.
#[inline(always)]
fn told_alone(did: Did, at: u32) -> Told
    ensures seen { result.seen ≡ seen_alone did at }
    ensures none { result.taken ≡ 0 }
{
    Told {
        seen: seen_alone(did, at),
        taken: 0,
    }
}

/// Whether the bytes that are taken of an entry are its last, and the entry ends a line.
fn ends_line(entry: Entry, taken: u8, count: u8) -> bool
    requires { taken + count ≤ 4 }
    ensures { result ≡ (is_end (kind_of entry.status) && taken + count == valid_bytes entry.status) }
{
    match kind(entry.status) {
        StatusKind::End(valid) => taken + count == valid,
        _ => false,
    }
}

/// What is seen, with an application to an entry of which `taken` bytes were taken before, by its verdict.
#[cold]
#[inline(never)]
fn with_verdict(seen: Seen, q: Queue, entry: Entry, taken: u8, demand: Demand) -> Seen
    requires asked { 1 ≤ demand.rest }
    requires within { (taken ≡ 0) ⊎ (taken < valid_bytes entry.status) }
    ensures { result ≡ noted q (record { entry = entry; taken = taken; demand = demand }) seen }
{
    match judge(entry.status, demand.needs_sol, taken, demand.rest) {
        Verdict::Take(count) => Seen {
            did: if is_cut_short(entry, taken, count, demand.rest) {
                Did::GivenUp(q)
            } else {
                seen.did
            },
            took: true,
            ended: seen.ended || ends_line(entry, taken, count),
            ..seen
        },
        Verdict::Discard => Seen {
            reserved: seen.reserved || !demand.needs_sol,
            ..seen
        },
        Verdict::Broken | Verdict::Missing => Seen {
            did: Did::GivenUp(q),
            ..seen
        },
    }
}

/// The same, quick where the entry is taken whole.
#[inline(always)]
fn with_application(seen: Seen, q: Queue, entry: Entry, taken: u8, demand: Demand) -> Seen
    requires asked { 1 ≤ demand.rest }
    requires within { (taken ≡ 0) ⊎ (taken < valid_bytes entry.status) }
    ensures { result ≡ noted q (record { entry = entry; taken = taken; demand = demand }) seen }
{
    if takes_whole(entry.status, demand.needs_sol, taken, demand.rest) {
        Seen { took: true, ..seen }
    } else {
        with_verdict(seen, q, entry, taken, demand)
    }
}

/// How many bytes an application takes, by its verdict.
#[cold]
#[inline(never)]
fn taken_by_verdict(entry: Entry, taken: u8, demand: Demand) -> u8
    requires asked { 1 ≤ demand.rest }
    requires within { (taken ≡ 0) ⊎ (taken < valid_bytes entry.status) }
    ensures taken { result ≡ taken_by (verdict_of (record { entry = entry; taken = taken; demand = demand })) }
    ensures most { result ≤ 4 }
{
    let _lanes = valid(entry.status);
    match judge(entry.status, demand.needs_sol, taken, demand.rest) {
        Verdict::Take(count) => count,
        Verdict::Discard | Verdict::Broken | Verdict::Missing => 0,
    }
}

/// The same, quick where the entry is taken whole.
#[inline(always)]
fn taken_by_application(entry: Entry, taken: u8, demand: Demand) -> u8
    requires asked { 1 ≤ demand.rest }
    requires within { (taken ≡ 0) ⊎ (taken < valid_bytes entry.status) }
    ensures taken { result ≡ taken_by (verdict_of (record { entry = entry; taken = taken; demand = demand })) }
    ensures most { result ≤ 4 }
{
    if takes_whole(entry.status, demand.needs_sol, taken, demand.rest) {
        4
    } else {
        taken_by_verdict(entry, taken, demand)
    }
}

impl<R: Ram> Engine<R> {
    ghost use Rattle.dma_machine.specs.Counts.{acted};
    ghost use Rattle.dma_machine.specs.Needs.{Applied, CanWork, IsAddress};
    ghost use Rattle.dma_machine.specs.Looks.{next_retirement};
    ghost use Rattle.dma_machine.specs.Noted.{all_noted};
    ghost use Rattle.dma_machine.specs.Stills.{StandsAs};
    ghost use Rattle.dma_machine.specs.Views.{state_of};
    ghost use Rattle.machine_model.specs.Paths.{demands_cause, fetch};
    ghost use Rattle.machine_model.specs.Seen.{address_before, application, applications, bytes_taken, fetched_did, seen, seen_burst};
    ghost use Rattle.machine_model.specs.Seen.{seen_in, seen_running, taken, taken_in, taken_running, waited_did};
    ghost use Rattle.machine_model.specs.Turns.{apply, burst, common_code, is_done, lowest_stray, ran, worked};
    ghost use Rattle.page_table.specs.Blocks.{chunks_of};
    ghost use Rattle.std.specs.Prelude.{◌≡◌, ◌*◌, ◌-◌, ◌^◌, None};

    /// The address of the instruction that waits or runs, which has so many words.
    fn address_before(&self, words: u8) -> u32
        requires { self.now.pc < 2 ^ 32 }
        ensures { result ≡ self.now.pc - 4 * words }
    {
        self.pc.saturating_sub(4 * u64::from(words)) as u32
    }

    /// What a turn of an idle machine does.
    fn fetched_did(&self) -> Did
        ensures { result ≡ fetched_did (fetch self.now.accepted self.now.pc) self.now.skipping }
    {
        let mut near = self.near;
        match self.accepted.program().instr_near(&mut near, self.pc) {
            Ok((instr, _)) => instr_did(&instr, self.skipping),
            Err(_) => Did::Still,
        }
    }

    /// What a turn of a machine that waits does.
    fn waited_did(&self) -> Did
        ensures { result ≡ waited_did (lowest_stray self.now.queues) (common_code self.now.queues) self.now.wait.code }
    {
        match (self.lowest_stray(), self.common_code()) {
            (Some(_), _) => Did::Dropped,
            (None, Some(code)) if code.nibble() == self.wait.code.nibble() => Did::Matched,
            (None, Some(_)) => Did::Missed,
            (None, None) => Did::Still,
        }
    }

    /// What is seen, with the next application to a queue, if there is one.
    #[inline(always)]
    fn with_next(&self, seen: Seen, q: Queue) -> Seen
        ensures { result ≡ all_noted q (application q (state_of R.memory self.now)) seen }
    {
        if !matches!(self.phase, Phase::Running) {
            return seen;
        }
        let demand = demand_on(&self.demands, q);
        match self.queues.front(q) {
            Some(entry) if demand.rest != 0 => {
                with_application(seen, q, entry, self.queues.part(q), demand)
            }
            _ => seen,
        }
    }

    /// How many bytes the next application to a queue takes, if there is one.
    #[inline(always)]
    fn next_taken(&self, q: Queue) -> u8
        ensures taken { result ≡ bytes_taken (application q (state_of R.memory self.now)) }
        ensures most { result ≤ 4 }
    {
        if !matches!(self.phase, Phase::Running) {
            return 0;
        }
        let demand = demand_on(&self.demands, q);
        match self.queues.front(q) {
            Some(entry) if demand.rest != 0 => {
                taken_by_application(entry, self.queues.part(q), demand)
            }
            _ => 0,
        }
    }

    /// Makes the next application to a queue and notes it; whether there was one.
    #[inline(always)]
    fn apply_seen(&mut self, q: Queue, seen: &mut Seen) -> bool
        requires { demands_cause (chunks_of (R.memory self.old.ram)) self.old.demands ≡ None }
        ensures seen { seen.new ≡ all_noted q (application q (state_of R.memory self.old)) seen.old }
        ensures applied { Applied (apply q (state_of R.memory self.old)) result (state_of R.memory self.new) (state_of R.memory self.old) }
        ensures within { demands_cause (chunks_of (R.memory self.new.ram)) self.new.demands ≡ None }
    {
        *seen = self.with_next(*seen, q);
        self.apply(q)
    }

    /// The same, and adds the bytes that it takes.
    #[inline(always)]
    fn apply_told(&mut self, q: Queue, seen: &mut Seen, taken: &mut u32) -> bool
        requires within { demands_cause (chunks_of (R.memory self.old.ram)) self.old.demands ≡ None }
        requires few { taken.old + 4 < 2 ^ 32 }
        ensures seen { seen.new ≡ all_noted q (application q (state_of R.memory self.old)) seen.old }
        ensures taken { taken.new ≡ taken.old + bytes_taken (application q (state_of R.memory self.old)) }
        ensures few { taken.new ≤ taken.old + 4 }
        ensures applied { Applied (apply q (state_of R.memory self.old)) result (state_of R.memory self.new) (state_of R.memory self.old) }
        ensures within { demands_cause (chunks_of (R.memory self.new.ram)) self.new.demands ≡ None }
    {
        *taken += u32::from(self.next_taken(q));
        self.apply_seen(q, seen)
    }

    /// A burst from a queue that is served, up to the trigger point, by the instruction at an address.
    #[inline(always)]
    fn burst_told_on(&mut self, q: Queue, at: u32) -> Told
        requires { demands_cause (chunks_of (R.memory self.old.ram)) self.old.demands ≡ None }
        ensures state { state_of R.memory self.new ≡ burst self.old.trigger q (state_of R.memory self.old) }
        ensures seen { result.seen ≡ seen_burst q at (applications self.old.trigger q (state_of R.memory self.old)) }
        ensures taken { result.taken ≡ bytes_taken (applications self.old.trigger q (state_of R.memory self.old)) }
    {
        let mut seen = seen_alone(Did::Moved(q), at);
        let mut taken = 0;
        let mut left = self.trigger;
        while left > 0 && self.apply_told(q, &mut seen, &mut taken) {
            left -= 1;
        }
        Told { seen, taken }
    }

    /// The same, by a loop of its own for each queue.
    #[inline(always)]
    fn burst_told(&mut self, q: Queue, at: u32) -> Told
        requires { demands_cause (chunks_of (R.memory self.old.ram)) self.old.demands ≡ None }
        ensures state { state_of R.memory self.new ≡ burst self.old.trigger q (state_of R.memory self.old) }
        ensures seen { result.seen ≡ seen_burst q at (applications self.old.trigger q (state_of R.memory self.old)) }
        ensures taken { result.taken ≡ bytes_taken (applications self.old.trigger q (state_of R.memory self.old)) }
    {
        match q {
            Queue::One => self.burst_told_on(Queue::One, at),
            Queue::Two => self.burst_told_on(Queue::Two, at),
            Queue::Three => self.burst_told_on(Queue::Three, at),
        }
    }

    /// A turn of a machine that runs the instruction at an address.
    #[inline(always)]
    fn run_told(&mut self, at: u32) -> Told
        requires target { IsAddress self.old.target }
        requires within { demands_cause (chunks_of (R.memory self.old.ram)) self.old.demands ≡ None }
        ensures state { state_of R.memory self.new
            ≡ ran (is_done self.old.demands) self.old.instr self.old.demands (state_of R.memory self.old) }
        ensures seen { result.seen ≡ seen_running (is_done self.old.demands) at self.old.demands (state_of R.memory self.old) }
        ensures taken { result.taken ≡ taken_running (is_done self.old.demands) self.old.demands (state_of R.memory self.old) }
    {
        if is_done(&self.demands) {
            self.retire();
            return told_alone(Did::Retired, at);
        }
        match self.lowest_served() {
            Some(q) => self.burst_told(q, at),
            None => told_alone(Did::Still, at),
        }
    }

    /// The address of the instruction that the next turn retires, if it retires one.
    #[inline]
    pub fn next_retirement(&self) -> Option<u32>
        requires { self.now.pc < 2 ^ 32 }
        ensures { result ≡ next_retirement (state_of R.memory self.now) }
    {
        match self.phase {
            Phase::Running if self.risc_on && is_done(&self.demands) => {
                Some(self.address_before(length_in_words(&self.instr)))
            }
            _ => None,
        }
    }

    /// A turn of an enabled machine.
    #[inline(always)]
    fn work_told(&mut self) -> Told
        requires can { CanWork (state_of R.memory self.old).job (state_of R.memory self.old) }
        requires small { self.old.pc < 2 ^ 32 }
        ensures state { state_of R.memory self.new ≡ worked (state_of R.memory self.old).job (state_of R.memory self.old) }
        ensures seen { result.seen ≡ seen_in (state_of R.memory self.old).job (state_of R.memory self.old) }
        ensures taken { result.taken ≡ taken_in (state_of R.memory self.old).job (state_of R.memory self.old) }
    {
        match self.phase {
            Phase::Running => {
                let at = self.address_before(length_in_words(&self.instr));
                self.run_told(at)
            }
            Phase::Waiting => {
                let told = told_alone(self.waited_did(), self.address_before(2));
                self.wait();
                told
            }
            Phase::Idle => {
                let told = told_alone(self.fetched_did(), self.address_before(0));
                self.fetch();
                told
            }
        }
    }

    /// Takes a turn without counting it, and finds out whether those after it do nothing. For a caller that uses only what
    /// is seen, the compiler makes a copy that counts no bytes.
    #[inline(always)]
    pub fn act_told(&mut self) -> Told
        requires can { CanWork (state_of R.memory self.old).job (state_of R.memory self.old) }
        requires small { self.old.pc < 2 ^ 32 }
        ensures state { state_of R.memory self.new ≡ acted (state_of R.memory self.old) }
        ensures seen { result.seen ≡ seen (state_of R.memory self.old) }
        ensures taken { result.taken ≡ taken (state_of R.memory self.old) }
        ensures stands { StandsAs self.new.standing (state_of R.memory self.new) }
    {
        let told = if self.risc_on {
            self.work_told()
        } else {
            told_alone(Did::Still, self.address_before(0))
        };
        self.standing = self.found_standing();
        told
    }
}
