//! A chain while it runs.

ghost use Rattle.std.specs.Prelude.{◌≡◌, ◌<◌, length, replicate, IfOk, IfSome, None};
ghost use Rattle.chain_model.specs.Chains.{Chain as ChainOf};
ghost use Rattle.slot_chain.specs.Wheels.{EnteredAt, EntersAt, slot_of};

use crate::making::{ChainError, judge_chain};
use crate::wheel::Wheel;
use chain_model::PartWords;
use dma_machine::{Machine, Report};
use fifo_model::{Entry, Fifo, Pushed, Queue};
use irq_status::HostWrite;
use page_ram::Ram;
use page_table::PageSet;
use risc_verify::Steps;
use risc_word::Code;
use std::alloc::{AllocError, Global};
use std::marker::Model;
use std::sync::ledger::Ledger;

/// A chain with its machine, its queues and its memory. Contracts see the chain and its live state, whose program is at all
/// times that of the words as they are now.
#[derive(Drop)]
pub struct Chain<R: Ram> {
    wheel: Wheel<R>,
    base: u32,
    slots: u32,
    parts: Vec<PartWords>,
    /// The part to which each slot leads.
    patching: Vec<Option<u32>>,
}

impl<R: Ram> Model for Chain<R> {
    ghost use Rattle.chain_model.specs.Chains.{IsPatching};
    ghost use Rattle.slot_chain.specs.States.{ChainState, chain_of, state_of};
    ghost use Rattle.slot_chain.specs.Wheels.{IsWheel};

    ghost Value = { ChainState };

    ghost view = { λ c. state_of (chain_of c.base c.slots c.parts.items c.wheel.machine.program.grants) c.patching.items c.wheel.machine };

    ghost invariant = { λ c.
        IsWheel (chain_of c.base c.slots c.parts.items c.wheel.machine.program.grants) c.wheel.machine.program c.wheel.programs.items
        c.wheel.current
        × IsPatching (chain_of c.base c.slots c.parts.items c.wheel.machine.program.grants) c.patching.items };
}

impl<R: Ram + Drop> Chain<R> {
    ghost use Rattle.std.specs.Prelude.{◌≡◌, ◌+◌, ◌*◌, ◌<◌, ◌≤◌, IfErr, IfOk, length};
    ghost use Rattle.std.specs.List.{All};
    ghost use Rattle.fifo_model.specs.Queues.{empty_fifo};
    ghost use Rattle.page_table.specs.Blocks.{chunks_of};
    ghost use Rattle.chain_model.specs.Chains.{IsChain, IsSoundChain, max_parts, max_slots};
    ghost use Rattle.slot_chain.specs.Making.{Refuses, word_count};
    ghost use Rattle.slot_chain.specs.States.{chain_of, first_chain};

    /// A chain of these slots and parts, which is at the base and may write these grants. No slot leads to a part, and
    /// its machine is at the base. The verifier's steps are counted.
    pub fn new<L: Ledger>(
        alloc: Global,
        base: u32,
        slots: u32,
        parts: Vec<PartWords>,
        grants: PageSet,
        ram: R,
        fifo: Fifo,
        steps: &mut Steps<L>,
    ) -> Result<Chain<R>, ChainError>
        requires slots { (1 ≤ slots) × (slots ≤ max_slots) }
        requires parts { length parts.items ≤ max_parts }
        requires belong { All (λ part. part.slot < slots) parts.items }
        requires granted { chunks_of (R.memory ram) ≡ grants }
        requires empty { fifo ≡ empty_fifo }
        ensures first { IfOk result (λ c. c ≡ first_chain (chain_of base slots parts.items grants) (R.memory ram)) }
        ensures sound { IfOk result (λ c. IsChain c.chain × IsSoundChain c.chain) }
        ensures refused { IfErr result (Refuses (chain_of base slots parts.items grants)) }
        ensures cost { (steps.old ≤ steps.new)
            × (steps.new ≤ steps.old + (length parts.items + 1) * (2 * word_count (chain_of base slots parts.items grants) + 1)) }
    {
        let programs = judge_chain(alloc, base, slots, &parts, &grants, steps)?;
        let patching = no_parts(alloc, slots)?;
        Ok(Chain {
            wheel: Wheel {
                machine: Machine::new(programs.empty, ram, fifo),
                programs: programs.with_part,
                current: None,
            },
            base,
            slots,
            parts,
            patching,
        })
    }
}

impl<R: Ram> Chain<R> {
    ghost use Rattle.std.specs.Prelude.{◌≡◌, ◌*◌, ◌<◌, ◌≤◌, List, false, length, true, ℕ};
    ghost use Rattle.sync_status.specs.Statuses.{is_control, kind_of};
    ghost use Rattle.irq_status.specs.Writes.{IsWrite};
    ghost use Rattle.machine_model.specs.Steps.{Control, Host, Push, Turn, control_pushed_as, pushed_as};
    ghost use Rattle.dma_machine.specs.Facts.{report_of};
    ghost use Rattle.dma_machine.specs.Lost.{counts_of, loses_all, pushes};
    ghost use Rattle.dma_machine.specs.Plain.{AreRun, plain_room};
    ghost use Rattle.fifo_model.specs.declared.Entry.{Entry as EntryOf};
    ghost use Rattle.fifo_model.specs.declared.Queue.{Queue as QueueOf};
    ghost use Rattle.dma_machine.specs.Stills.{is_still};
    ghost use Rattle.machine_model.specs.PlainEntries.{plain_steps};
    ghost use Rattle.chain_model.specs.Chains.{Belongs};
    ghost use Rattle.chain_model.specs.Live.{LiveInside, Patch, Plain};
    ghost use Rattle.slot_chain.specs.States.{lived, stepped, turned};

    /// A push of a data entry to a queue; it is ignored while the FIFO is off.
    #[inline]
    pub fn push(&mut self, q: Queue, e: Entry) -> Pushed
        requires { is_control (kind_of e.status) ≡ false }
        ensures state { self.new ≡ lived (Plain (Push q e)) self.old }
        ensures answer { result ≡ pushed_as q self.old.live.machine }
    {
        self.wheel.machine.push(q, e)
    }

    /// A push of a control code into all three queues; it is ignored while the FIFO is off.
    #[inline]
    pub fn push_control(&mut self, c: Code) -> Pushed
        ensures state { self.new ≡ lived (Plain (Control c)) self.old }
        ensures answer { result ≡ control_pushed_as self.old.live.machine }
    {
        self.wheel.machine.push_control(c)
    }

    /// One turn of the controller, over the words as they are now. Where it fetches at a slot, the program of the slot's
    /// part comes into the machine first.
    #[inline]
    pub fn turn(&mut self)
        ensures state { self.new ≡ lived (Plain Turn) self.old }
        ensures inside { LiveInside self.old.chain self.old.live }
    {
        let next = self.wheel.machine.next_fetch();
        let slot = slot_fetched(next, self.base, self.slots);
        enter_slot(&mut self.wheel, slot, &self.patching);
        self.wheel.machine.turn();
    }

    /// Whether the machine stands still: it fetches nothing, so no slot is asked for.
    #[inline]
    fn stands_still(&self) -> bool
        ensures { result ≡ is_still self.now.live.machine }
    {
        self.wheel.machine.stands_still()
    }

    /// How many plain entries of a queue `push_plain` may push, as `Machine::plain_room`.
    #[inline]
    pub fn plain_room(&self, q: Queue) -> u32
        ensures { result ≡ plain_room q self.now.live.machine }
    {
        self.wheel.machine.plain_room(q)
    }

    /// Pushes of plain entries and turns behind each, as `Machine::push_plain`. The machine fetches nothing meanwhile, so no
    /// slot is asked for.
    #[inline]
    pub fn push_plain(&mut self, q: Queue, dwords: &[u8], turns: u32)
        requires some { 0 < length dwords.now }
        requires room { length dwords.now ≤ 4 * plain_room q self.old.live.machine }
        requires plain { (entries : List (ℕ × ℕ)) × AreRun dwords.now turns entries }
        ensures { (entries : List (ℕ × ℕ)) → AreRun dwords.now turns entries → self.new ≡ stepped (plain_steps q entries) self.old }
    {
        self.wheel.machine.push_plain(q, dwords, turns);
    }

    /// Whether each data push is lost, as `Machine::loses_all`.
    #[inline]
    pub fn loses_all(&self) -> bool
        ensures { result ≡ loses_all self.now.live.machine }
    {
        self.wheel.machine.loses_all()
    }

    /// So many pushes of data entries to queues 1, 2 and 3, each of which is lost, as `Machine::push_lost`.
    #[inline]
    pub fn push_lost(&mut self, lost: [usize; 3])
        requires loses { loses_all self.old.live.machine ≡ true }
        requires counted { (entries : List (QueueOf × EntryOf)) × (counts_of entries ≡ lost) }
        ensures { (entries : List (QueueOf × EntryOf)) → counts_of entries ≡ lost → self.new ≡ stepped (pushes entries) self.old }
    {
        self.wheel.machine.push_lost(lost);
    }

    /// So many turns of a machine that stands still.
    #[inline]
    fn stand(&mut self, count: u32)
        requires { is_still self.old.live.machine ≡ true }
        ensures { self.new ≡ turned count self.old }
    {
        self.wheel.machine.stand(count);
    }

    /// So many turns of the controller. Where the machine stands still they only count.
    #[inline]
    pub fn turns(&mut self, count: u32)
        ensures { self.new ≡ turned count self.old }
    {
        if self.stands_still() {
            self.stand(count);
        } else {
            self.turns_apart(count);
        }
    }

    /// The same turns of a machine that may move, up to where it stands still. The function is out of line, so that a machine that
    /// stands still saves no registers.
    #[cold]
    #[inline(never)]
    fn turns_apart(&mut self, count: u32)
        ensures { self.new ≡ turned count self.old }
    {
        for turn in 0..count {
            if self.stands_still() {
                self.stand(count - turn);
                return;
            }
            self.turn();
        }
    }

    /// A register write of the host.
    pub fn host(&mut self, w: HostWrite)
        requires { IsWrite w }
        ensures { self.new ≡ lived (Plain (Host w)) self.old }
    {
        self.wheel.machine.host(w);
    }

    /// A patch of the host: a slot leads to a part from now on, or without one on to the next slot. A machine inside the
    /// part that is patched out finishes it.
    pub fn patch(&mut self, slot: u32, part: Option<u32>)
        requires exists { slot < self.old.chain.slots }
        requires belongs { Belongs self.old.chain slot part }
        ensures { self.new ≡ lived (Patch slot part) self.old }
    {
        self.patching[slot as usize] = part;
    }

    /// The counts and INT_STAT.
    pub fn report(&self) -> Report
        ensures { result ≡ report_of self.now.live.machine }
    {
        self.wheel.machine.report()
    }

    /// The memory.
    pub fn ram(&self) -> &R
        ensures { R.memory result.now ≡ self.now.live.machine.memory }
    {
        self.wheel.machine.ram()
    }
}

/// Puts the program of a slot's part into the machine, if there is a slot.
#[inline]
fn enter_slot<R: Ram>(wheel: &mut Wheel<R>, slot: Option<usize>, patching: &[Option<u32>])
    requires within { IfSome slot (λ s. s < length patching.now) }
    requires can { (chain : ChainOf) × EntersAt chain slot patching.now wheel.old.machine wheel.old.programs.items wheel.old.current }
    ensures { (chain : ChainOf) → EntersAt chain slot patching.now wheel.old.machine wheel.old.programs.items wheel.old.current →
        EnteredAt chain slot patching.now wheel.old.machine wheel.new.machine wheel.new.programs.items wheel.new.current }
{
    if let Some(slot) = slot {
        wheel.enter(patching[slot]);
    }
}

/// A patching in which no slot leads to a part.
fn no_parts(alloc: Global, slots: u32) -> Result<Vec<Option<u32>>, AllocError>
    ensures { IfOk result (λ patching. patching.items ≡ replicate slots None) }
{
    let mut patching = Vec::new(alloc);
    for _slot in 0..slots {
        patching.push(None)?;
    }
    Ok(patching)
}

/// The slot at which the next turn fetches, if it does.
fn slot_fetched(next: Option<u32>, base: u32, slots: u32) -> Option<usize>
    ensures { result ≡ slot_of base slots next }
{
    let address = next?;
    if address >= base && (address - base) % 8 == 0 && (address - base) / 8 < slots {
        Some(((address - base) / 8) as usize)
    } else {
        None
    }
}
