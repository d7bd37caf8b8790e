//! What a field's section asks, as words that are nowhere.

ghost use Rattle.std.specs.Prelude.{◌≡◌, IfOk, true, []};
ghost use Rattle.machine_model.specs.Paths.{one_span};
ghost use Rattle.picture_model.specs.Described.{describes};
ghost use Rattle.picture_model.specs.Programs.{body, words_of};
ghost use Rattle.field_check.specs.Plans.{IsPlan};
ghost use Rattle.std.specs.Prelude.{length};
ghost use Rattle.machine_model.specs.Paths.{all_words};
ghost use Rattle.field_check.specs.Cursors.{asks_from};
ghost use Rattle.field_check.specs.Tracks.{AreIn, CountUpTo, lefts};
ghost use Rattle.check_model.specs.Checks.{awaited};
ghost use Rattle.capture_desc.specs.declared.desc.Desc.{Desc};
ghost use Rattle.pixel_layout.specs.declared.Parity.{Parity as AnyParity};

use crate::cursors::{Cursor, Track, here};
use crate::judge::Tracks;
use field_compile::compile_field;
use fifo_model::Queue;
use page_table::PageSet;
use pixel_layout::Parity;
use planar_plan::Frame;
use risc_verify::Program;
use std::alloc::{AllocError, Global};
use vbi_compile::compile_vbi;

// The memory of a program that may write nothing.
fn no_memory(alloc: Global) -> Result<PageSet, AllocError>
    ensures { IfOk result (λ grants. grants ≡ []) }
{
    match PageSet::from_list(alloc, &[]) {
        Ok(grants) => Ok(grants),
        Err(_) => Err(AllocError),
    }
}

/// The words of a field's section between its opening and its closing, from address 0 on.
pub fn field_plan(alloc: Global, frame: &Frame, field: Parity) -> Result<Program, AllocError>
    requires { describes frame.now.fields field ≡ true }
    ensures { IfOk result (IsPlan frame.now field) }
{
    let _desc = frame.desc();
    let mut words = Vec::new(alloc);
    compile_vbi(alloc, frame, field, &mut words)?;
    compile_field(alloc, frame, field, &mut words)?;
    let grants = no_memory(alloc)?;
    Ok(Program::new(0, words, grants))
}

// How many instructions of the plan lead to the last one that asks something of a queue.
fn last_asked(plan: &Program, q: Queue) -> u32
    ensures { asks_from result plan.now q 0 ≡ asks_from (length (all_words plan.now)) plan.now q 0 }
{
    let words = plan.words().len() as u32;
    let mut at = 0;
    let mut last = 0;
    for number in 0..words {
        let Ok((instr, count)) = plan.instr_at(at) else {
            return last;
        };
        if here(&instr, q, 0).is_some() {
            last = number + 1;
        }
        at += 4 * u64::from(count);
    }
    last
}

// The beginning of so many words.
fn beginning(words: u32) -> Track
    ensures { result ≡ record { cursor = record { at = 0; more = words; done = 0 }; lines = 0; bytes = 0 } }
{
    Track {
        cursor: Cursor {
            at: 0,
            more: words,
            done: 0,
        },
        lines: 0,
        bytes: 0,
    }
}

/// The queues at the beginning of a field. Each sees the plan up to the last instruction that asks something of it, so that
/// no look passes over what is behind.
pub(crate) fn first_tracks(plan: &Program) -> Tracks
    ensures at { (d : Desc) (field : AnyParity) → IsPlan d field plan.now → AreIn d field plan.now result }
    ensures left { (d : Desc) (field : AnyParity) → IsPlan d field plan.now → lefts plan.now result ≡ awaited d field }
    ensures none { CountUpTo result 0 }
{
    Tracks {
        one: beginning(last_asked(plan, Queue::One)),
        two: beginning(last_asked(plan, Queue::Two)),
        three: beginning(last_asked(plan, Queue::Three)),
    }
}
