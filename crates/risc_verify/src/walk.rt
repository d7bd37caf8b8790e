//! The walk along a program's path.

ghost use Rattle.machine_model.specs.Paths.{IsSound, RiscProgram};
ghost use Rattle.risc_verify.specs.Programs.{word_of};
ghost use Rattle.risc_verify.specs.Marks.{IsKnown, IsPlain, is_marked};
ghost use Rattle.risc_verify.specs.Rounds.{enough_places};
ghost use Rattle.risc_verify.specs.Verdicts.{HasCounted, Refuses};
ghost use Rattle.risc_verify.specs.declared.walk.Why.TheVariants.{Memory};
ghost use Rattle.std.specs.Prelude.{◌≡◌, ℕ, ◌+◌, ◌<◌, ◌≤◌, ◌⊎◌, IfErr, IfOk, IsTrue, Some, length, false, replicate};

use super::judge::{Next, PathPlace, first, step};
use super::memo::ChunkMemo;
use super::{Accepted, Program, Steps};
use machine_model::Cause;
use std::alloc::{AllocError, Global};
use std::marker::Model;
use std::sync::ledger::Ledger;

/// Why a program was not accepted.
#[derive(Clone, Copy)]
pub enum Why {
    /// The first place of the path that isn't fine: the address of its instruction, its number
    /// on the path, counted from 0, and its first fault.
    Bad { at: u64, nth: u64, cause: Cause },
    /// Out of memory.
    Memory,
}

impl From<AllocError> for Why {
    ghost from_gives = { λ _ why. why ≡ Memory };

    fn from(_error: AllocError) -> Why {
        Why::Memory
    }
}

/// A program that was not accepted, as it was, and why.
#[derive(Drop)]
pub struct Rejected {
    /// The program, unchanged.
    pub program: Program,
    /// What was found, or that memory was short.
    pub why: Why,
}

// A mark for each word: whether the path came there with no target.
#[derive(Drop)]
struct Marks {
    words: Vec<bool>,
}

impl Model for Marks {
    ghost use Rattle.std.specs.Prelude.{Bool, List};

    ghost Value = { List Bool };

    ghost view = { λ marks. marks.words.items };
}

impl Marks {
    fn new(alloc: Global, words: usize) -> Result<Marks, AllocError>
        ensures { IfOk result (λ marks. marks ≡ replicate words false) }
    {
        Ok(Marks {
            words: vec![in alloc; false; words]?,
        })
    }

    // Whether the path was at this place before, as far as the marks show. Marks it. Its word has a number below `end`, or
    // else no word is there.
    #[inline(always)]
    fn meet(&mut self, place: PathPlace, word: usize, end: usize) -> bool
        requires { word < end → word < length self.old }
        ensures known { (program : RiscProgram) → (word < end → word_of program place.pc ≡ Some word) → IsTrue result
            → IsKnown program self.old place }
        ensures marked { (program : RiscProgram) → (word < end → word_of program place.pc ≡ Some word) → (number : ℕ)
            → IsTrue (is_marked self.new number) → IsTrue (is_marked self.old number) ⊎ IsPlain program number place }
        ensures len { length self.new ≡ length self.old }
    {
        if word >= end {
            return false;
        }
        if place.target().is_some() {
            return false;
        }
        let known = self.words[word];
        self.words[word] = true;
        known
    }
}

// Walks until the path comes round, or to its first place that isn't fine.
#[inline(never)]
fn walk<L: Ledger>(alloc: Global, program: &Program, steps: &mut Steps<L>) -> Result<(), Why>
    ensures sound { IfOk result (λ _. IsSound program.now) }
    ensures refused { IfErr result (λ why. Refuses program.now why) }
    ensures counted { IfErr result (λ why. HasCounted steps.old steps.new why) }
    ensures cost { (steps.old ≤ steps.new) × (steps.new ≤ steps.old + enough_places program.now) }
{
    let words = program.words().len();
    let mut marks = Marks::new(alloc, words)?;
    let mut memo = ChunkMemo::new(alloc)?;
    let (mut near, mut next) = first(program);
    for nth in 0..2 * words as u64 + 1 {
        let Next {
            place,
            number,
            words: up_to_end,
        } = next;
        if marks.meet(place, number, up_to_end.len()) {
            return Ok(());
        }
        steps.tick();
        match step(program, &mut near, &mut memo, place, up_to_end, number) {
            Ok(after) => next = after,
            Err(cause) => {
                let at = place.pc();
                return Err(Why::Bad { at, nth, cause });
            }
        }
    }
    Ok(())
}

/// Accepts the program exactly where it is sound: no place of its path has a fault. A refusal gives the
/// program back and names the first place that isn't fine. One step is counted for each place that was
/// looked at. What a fault is, and their order, is this project's own rule.
pub fn verify<L: Ledger>(
    alloc: Global,
    program: Program,
    steps: &mut Steps<L>,
) -> Result<Accepted, Rejected>
    ensures accepted { IfOk result (λ accepted. (accepted ≡ program) × IsSound program) }
    ensures refused { IfErr result (λ rejected. (rejected.program ≡ program) × Refuses program rejected.why) }
    ensures sound { IsSound program → IfErr result (λ rejected. rejected.why ≡ Memory) }
    ensures counted { IfErr result (λ rejected. HasCounted steps.old steps.new rejected.why) }
    ensures cost { (steps.old ≤ steps.new) × (steps.new ≤ steps.old + enough_places program) }
{
    match walk(alloc, &program, steps) {
        Ok(()) => Ok(Accepted::new(program)),
        Err(why) => Err(Rejected { program, why }),
    }
}
