//! Places among the instructions of a description's section, as each queue sees them.

ghost use Rattle.std.specs.Prelude.{◌≡◌, ◌↔◌, ◌<◌, ◌≤◌, ◌^◌, ◌+◌, ◌*◌, ◌∷◌, [], ◌==◌, List, ℕ, IfSome, IsTrue, None, Option, Some, drop};
ghost use Rattle.std.specs.Prelude.{if◌then◌else◌, length, option_map};
ghost use Rattle.risc_word.specs.Words.{code_number};
ghost use Rattle.field_law.specs.Sections.{Ask, Await, ask, ask_of, asked};
ghost use Rattle.check_model.specs.ByBytes.{bytes_asked};
ghost use Rattle.check_model.specs.Checks.{first_unlike};
ghost use Rattle.check_model.specs.Lines.{reach_by};
ghost use Rattle.field_check.specs.Cursors.{CountsMore, CountsUpTo, Fits, HasRoom, IsAt, IsHere, IsNext, first_asks, first_of, left_of};
ghost use Rattle.field_check.specs.Cursors.{reach_of, rest_of};

use crate::demands::{demand_of, rest_of};
use fifo_model::Queue;
use machine_model::Demand;
use risc_verify::Program;
use risc_word::{Code, Instr};

/// A place among instructions that are one after another, as one queue sees them.
#[derive(Clone, Copy)]
pub struct Cursor {
    /// The address of the instruction there.
    pub at: u64,
    /// How many instructions there are from it on, at most.
    pub more: u32,
    /// How many of the bytes that it asks of the queue are taken.
    pub done: u16,
}

/// A cursor that counts.
#[derive(Clone, Copy)]
pub struct Track {
    /// Where the queue is.
    pub cursor: Cursor,
    /// How many lines have begun.
    pub lines: u64,
    /// How many bytes of the last of them are taken.
    pub bytes: u64,
}

/// What a queue awaits next.
#[derive(Clone, Copy)]
pub enum Next {
    /// Nothing more.
    Nothing,
    /// A control code.
    Marked(Code),
    /// Bytes.
    Bytes(Demand),
}

// What an instruction asks next where some of its bytes are taken.
pub(crate) fn here(instr: &Instr, q: Queue, done: u16) -> Option<Next>
    requires { done ≤ length (bytes_asked (asked q instr.now)) }
    ensures { IsHere result done (bytes_asked (asked q instr.now)) }
{
    if let Instr::Sync { code, .. } = instr {
        if done == 0 {
            Some(Next::Marked(*code))
        } else {
            None
        }
    } else {
        let d = demand_of(instr, q);
        if done < d.rest {
            Some(Next::Bytes(rest_of(&d, done)))
        } else {
            None
        }
    }
}

/// What a queue awaits next; instructions of which nothing is left are passed over.
pub fn look(plan: &Program, q: Queue, cursor: &mut Cursor) -> Next
    requires { Fits plan.now q cursor.old }
    ensures same { left_of plan.now q cursor.new ≡ left_of plan.now q cursor.old }
    ensures next { IsNext result (left_of plan.now q cursor.new) }
    ensures fits { Fits plan.now q cursor.new }
    ensures room { HasRoom result cursor.new.done (first_asks plan.now q cursor.new.at) }
{
    while cursor.more > 0 {
        let Ok((instr, count)) = plan.instr_at(cursor.at) else {
            return Next::Nothing;
        };
        if let Some(next) = here(&instr, q, cursor.done) {
            return next;
        }
        cursor.at += 4 * u64::from(count);
        cursor.more -= 1;
        cursor.done = 0;
    }
    Next::Nothing
}

// Both begin a line or none does, at the same address.
fn is_like(next: &Demand, more: &Demand) -> bool
    ensures { IsTrue result ↔ ((next.now.needs_sol ≡ more.now.needs_sol) × (next.now.address ≡ more.now.address)) }
{
    next.needs_sol == more.needs_sol && next.address == more.address
}

// So many bytes of a queue are taken, of which the first begins a line or none does.
fn count_bytes(track: &mut Track, begins: bool, count: u16)
    requires { CountsUpTo track.old (2 ^ 62) }
    ensures cursor { track.new.cursor ≡ track.old.cursor }
    ensures reach { (address : Option ℕ) → reach_of track.new ≡ reach_by (reach_of track.old) (ask begins count address) }
    ensures few { 0 < count → CountsMore track.old track.new count }
{
    if begins {
        track.lines += 1;
        track.bytes = u64::from(count);
    } else {
        track.bytes += u64::from(count);
    }
}

/// Takes of a queue what is asked of it as long as it awaits the same. Where something differs, what is asked from there on is
/// answered, and the cursor is there.
pub fn takes(plan: &Program, q: Queue, track: &mut Track, asked: Demand) -> Option<Demand>
    requires fits { Fits plan.now q track.old.cursor }
    requires some { IsTrue asked.needs_sol → 0 < asked.rest }
    requires below { IfSome asked.address (λ at. at + asked.rest < 2 ^ 40) }
    requires small { asked.rest < 2 ^ 16 }
    requires few { CountsUpTo track.old (2 ^ 61) }
    ensures unlike { option_map (λ more. (first_of more, left_of plan.now q track.new.cursor)) result
        ≡ first_unlike (bytes_asked (ask_of asked)) (left_of plan.now q track.old.cursor) }
    ensures left { result ≡ None → left_of plan.now q track.new.cursor ≡ drop asked.rest (left_of plan.now q track.old.cursor) }
    ensures at { (full : List Ask) → IsAt full plan.now q track.old → IsAt full plan.now q track.new }
    ensures few { CountsMore track.old track.new asked.rest }
    ensures fits { Fits plan.now q track.new.cursor }
{
    let mut more = asked;
    while more.rest > 0 {
        let Next::Bytes(next) = look(plan, q, &mut track.cursor) else {
            return Some(more);
        };
        if !is_like(&next, &more) {
            return Some(more);
        }
        let count = next.rest.min(more.rest);
        count_bytes(track, more.needs_sol, count);
        more = rest_of(&more, count);
        track.cursor.done += count;
    }
    None
}

pub(crate) fn is_same_code(a: Code, b: Code) -> bool
    ensures { result ≡ (code_number a == code_number b) }
{
    a.nibble() == b.nibble()
}

/// Takes a code of a queue, if that is what it awaits.
pub fn takes_code(plan: &Program, q: Queue, track: &mut Track, code: Code) -> bool
    requires fits { Fits plan.now q track.old.cursor }
    ensures unlike { (if result then None else Some (Await code, left_of plan.now q track.new.cursor))
        ≡ first_unlike (Await code ∷ []) (left_of plan.now q track.old.cursor) }
    ensures left { left_of plan.now q track.new.cursor
        ≡ (if result then drop 1 (left_of plan.now q track.old.cursor) else left_of plan.now q track.old.cursor) }
    ensures at { (full : List Ask) → IsAt full plan.now q track.old → IsAt full plan.now q track.new }
    ensures lines { track.new.lines ≡ track.old.lines }
    ensures bytes { track.new.bytes ≡ track.old.bytes }
{
    if let Next::Marked(next) = look(plan, q, &mut track.cursor) {
        if is_same_code(code, next) {
            track.cursor.done += 1;
            return true;
        }
    }
    false
}
