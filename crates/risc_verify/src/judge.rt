//! Places of a path: why one isn't fine, and the one after it.

ghost use Rattle.machine_model.specs.Paths.{cause_at, fault_cause, first_cause, instr_cause, is_word, next_place, place_after};
ghost use Rattle.machine_model.specs.Paths.{written_cause};
ghost use Rattle.machine_model.specs.declared.Cause.TheVariants.{JumpOut};
ghost use Rattle.risc_verify.specs.Places.{IsAt, IsNear};
ghost use Rattle.risc_verify.specs.Programs.{first_place};
ghost use Rattle.std.specs.Prelude.{◌≡◌, ◌+◌, ◌*◌, ◌^◌, ◌<◌, ◌≤◌, IfOk, MatchResult, None, Some, false, length, slice_index, true};
ghost use Rattle.std.specs.Prelude.{if◌then◌else◌, unwrap_or};

use super::memo::ChunkMemo;
use super::{Program, SpanPlace};
use machine_model::Cause;
use page_table::{ADDRESSES, PageSet};
use risc_word::{Instr, WordFault, decode};
use std::marker::Model;

// The opcodes of the instructions that programs have most.
const WRITE: u32 = 1;

const SKIP: u32 = 2;

const WRITE_C: u32 = 5;

// The opcode and the marks of the line in a first word, and those of a SKIP with no mark.
const INNER_MASK: u32 = 0xfc00_0000;

const INNER_SKIP: u32 = 0x2000_0000;

/// A place of a path: where the next instruction is, and where a WRITEC would go on.
#[derive(Clone, Copy)]
pub(crate) struct PathPlace {
    target: Option<u64>,
    pc: u64,
}

impl Model for PathPlace {
    ghost use Rattle.machine_model.specs.Paths.{Place};
    ghost use Rattle.std.specs.Prelude.{◌^◌, ◌<◌, ◌≤◌, unwrap_or};

    ghost Value = { Place };

    ghost view = { λ p. record { pc = p.pc; target = p.target } };

    ghost invariant = { λ p. (p.pc < 2 ^ 33) × (unwrap_or p.target 0 ≤ 2 ^ 32) };

    ghost inverse = { λ p. record { pc = p.pc; target = p.target } };
}

impl PathPlace {
    // Where the next instruction is.
    #[inline]
    pub(crate) fn pc(&self) -> u64
        ensures { result ≡ self.now.pc }
    {
        self.pc
    }

    // Where a WRITEC would go on.
    #[inline]
    pub(crate) fn target(&self) -> Option<u64>
        ensures { result ≡ self.now.target }
    {
        self.target
    }
}

/// Where a path goes on: the place, the number of its word, and the words up to the end of its span. Where the number is
/// that of none of them, no word is there.
#[derive(Clone, Copy)]
pub(crate) struct Next<'a> {
    pub(crate) place: PathPlace,
    pub(crate) number: usize,
    pub(crate) words: &'a [u32],
}

// Where the path of a program begins, and the place of its span.
pub(crate) fn first<'a>(program: &'a Program) -> (SpanPlace, Next<'a>)
    ensures place { result.1.place ≡ first_place program.now }
    ensures at { IsAt program.now result.0 result.1.words.now result.1.number result.1.place.pc }
{
    let place = PathPlace {
        pc: u64::from(program.base()),
        target: None,
    };
    let mut near = SpanPlace::none();
    match program.word_near(&mut near, place.pc) {
        Some(number) => {
            let words = program.words_near(near, place.pc, number);
            (
                near,
                Next {
                    place,
                    number,
                    words,
                },
            )
        }
        None => {
            let words = &program.words()[..0];
            (
                SpanPlace::empty(),
                Next {
                    place,
                    number: 0,
                    words,
                },
            )
        }
    }
}

// A target that a mark of the line makes none.
#[inline]
fn unless(mark: bool, target: Option<u64>) -> Option<u64>
    ensures { result ≡ (if mark then None else target) }
{
    if mark { None } else { target }
}

// Why a range can't be written, of which nothing is known yet.
#[inline(never)]
fn searched_cause(grants: &PageSet, memo: &mut ChunkMemo, address: u64, count: u16) -> Option<Cause>
    requires { address ≤ 2 ^ 32 }
    ensures { result ≡ written_cause grants.now address count }
{
    if address + u64::from(count) > ADDRESSES {
        return Some(Cause::Wrap);
    }
    if count == 0 {
        return None;
    }
    match memo.covers(grants, address as u32, count) {
        Ok(()) => None,
        Err(at) => Some(Cause::Ungranted(at)),
    }
}

// Why a range can't be written.
#[inline(always)]
fn written_cause(grants: &PageSet, memo: &mut ChunkMemo, address: u64, count: u16) -> Option<Cause>
    requires { address ≤ 2 ^ 32 }
    ensures { result ≡ written_cause grants.now address count }
{
    if memo.has(grants, address, count) {
        None
    } else {
        searched_cause(grants, memo, address, count)
    }
}

// Why the first of three ranges that can't be written can't.
fn three_cause(
    grants: &PageSet,
    memo: &mut ChunkMemo,
    addrs: &[u32; 3],
    counts: &[u16; 3],
) -> Option<Cause>
    ensures { result ≡
        first_cause (written_cause grants.now (slice_index addrs.now 0) (slice_index counts.now 0))
        (first_cause (written_cause grants.now (slice_index addrs.now 1) (slice_index counts.now 1))
        (written_cause grants.now (slice_index addrs.now 2) (slice_index counts.now 2))) }
{
    if let Some(cause) = written_cause(grants, memo, u64::from(addrs[0]), counts[0]) {
        return Some(cause);
    }
    if let Some(cause) = written_cause(grants, memo, u64::from(addrs[1]), counts[1]) {
        return Some(cause);
    }
    written_cause(grants, memo, u64::from(addrs[2]), counts[2])
}

// A place, unless there is a cause.
#[inline(always)]
fn unless_cause(cause: Option<Cause>, pc: u64, target: Option<u64>) -> Result<PathPlace, Cause>
    requires { (pc < 2 ^ 33) × (cause ≡ None → unwrap_or target 0 ≤ 2 ^ 32) }
    ensures { MatchResult result (λ place. (cause ≡ None) × (record { pc = pc; target = target } ≡ place)) (λ first. cause ≡ Some first) }
{
    match cause {
        Some(cause) => Err(cause),
        None => Ok(PathPlace { pc, target }),
    }
}

// Where a JUMP goes on, or why it isn't fine.
#[inline]
fn jump<'a>(program: &'a Program, near: &mut SpanPlace, target: u32) -> Result<Next<'a>, Cause>
    requires near { IsNear program.now near.old }
    ensures at { IfOk result (λ next. IsAt program.now near.new next.words.now next.number next.place.pc) }
    ensures answer { MatchResult result
        (λ next. (is_word program.now target ≡ true) × (record { pc = target; target = None } ≡ next.place))
        (λ cause. (is_word program.now target ≡ false) × (cause ≡ JumpOut target)) }
{
    let pc = u64::from(target);
    match program.word_near(near, pc) {
        Some(number) => Ok(Next {
            place: PathPlace { pc, target: None },
            number,
            words: program.words_near(*near, pc, number),
        }),
        None => Err(Cause::JumpOut(target)),
    }
}

// Where the path goes on after an instruction of so many words, or why it isn't fine.
#[inline(always)]
fn next_after<'a>(
    program: &'a Program,
    near: &mut SpanPlace,
    memo: &mut ChunkMemo,
    instr: &Instr,
    count: u8,
    place: PathPlace,
    words: &'a [u32],
    number: usize,
) -> Result<Next<'a>, Cause>
    requires within { number + count ≤ length words.now }
    requires behind { IsAt program.now near.old words.now (number + count) (place.pc + 4 * count) }
    requires low { place.pc < 2 ^ 32 }
    ensures at { IfOk result (λ next. IsAt program.now near.new next.words.now next.number next.place.pc) }
    ensures answer { MatchResult result
        (λ next. (instr_cause program.now instr.now place.target ≡ None) × (place_after instr.now count place ≡ next.place))
        (λ cause. instr_cause program.now instr.now place.target ≡ Some cause) }
{
    let grants = program.grants();
    let (cause, target) = match instr {
        Instr::Write {
            ends,
            count,
            addr,
            ..
        } => {
            let end = u64::from(*addr) + u64::from(*count);
            let cause = written_cause(grants, memo, u64::from(*addr), *count);
            (cause, unless(ends.eol, Some(end)))
        }
        Instr::Skip { ends, .. } => (None, unless(ends.eol, unless(ends.sol, place.target))),
        Instr::WriteC { ends, count, .. } => {
            let Some(at) = unless(ends.sol, place.target) else {
                return Err(Cause::NoTarget);
            };
            let cause = written_cause(grants, memo, at, *count);
            (cause, unless(ends.eol, Some(at + u64::from(*count))))
        }
        Instr::Jump { target, .. } => return jump(program, near, *target),
        Instr::Write123 { counts, addrs, .. } => (three_cause(grants, memo, addrs, counts), None),
        Instr::Write1S23 { counts, addr, .. } => {
            let cause = written_cause(grants, memo, u64::from(*addr), counts[0]);
            (cause, None)
        }
        Instr::Sync { .. } | Instr::Skip123 { .. } => (None, None),
    };
    match unless_cause(cause, place.pc + 4 * u64::from(count), target) {
        Ok(place) => Ok(Next {
            place,
            number: number + usize::from(count),
            words,
        }),
        Err(cause) => Err(cause),
    }
}

fn fault_cause(fault: WordFault) -> Cause
    ensures { result ≡ fault_cause fault }
{
    match fault {
        WordFault::Reserved(opcode) => Cause::Reserved(opcode),
        WordFault::SyncCode(code) => Cause::SyncCode(code),
        WordFault::Cut => Cause::Cut,
    }
}

// Where the path goes on after the instruction here, or why it isn't fine.
#[inline(always)]
fn follow<'a>(
    program: &'a Program,
    near: &mut SpanPlace,
    memo: &mut ChunkMemo,
    place: PathPlace,
    words: &'a [u32],
    number: usize,
) -> Result<Next<'a>, Cause>
    requires at { IsAt program.now near.old words.now number place.pc }
    requires inside { number < length words.now }
    ensures at { IfOk result (λ next. IsAt program.now near.new next.words.now next.number next.place.pc) }
    ensures answer { MatchResult result
        (λ next. (cause_at program.now place ≡ None) × (next_place program.now place ≡ next.place))
        (λ cause. cause_at program.now place ≡ Some cause) }
{
    let (instr, count) = match program.instr_on(*near, words, number, place.pc) {
        Ok(read) => read,
        Err(fault) => return Err(fault_cause(fault)),
    };
    next_after(program, near, memo, &instr, count, place, words, number)
}

// The same, in code of its own.
#[inline(never)]
fn follow_apart<'a>(
    program: &'a Program,
    near: &mut SpanPlace,
    memo: &mut ChunkMemo,
    place: PathPlace,
    words: &'a [u32],
    number: usize,
) -> Result<Next<'a>, Cause>
    requires at { IsAt program.now near.old words.now number place.pc }
    requires inside { number < length words.now }
    ensures at { IfOk result (λ next. IsAt program.now near.new next.words.now next.number next.place.pc) }
    ensures answer { MatchResult result
        (λ next. (cause_at program.now place ≡ None) × (next_place program.now place ≡ next.place))
        (λ cause. cause_at program.now place ≡ Some cause) }
{
    follow(program, near, memo, place, words, number)
}

// The same, of an instruction that programs seldom have: memory for what the call answers is cleared here, and not before
// each instruction.
#[inline(always)]
fn follow_seldom<'a>(
    program: &'a Program,
    near: &mut SpanPlace,
    memo: &mut ChunkMemo,
    place: PathPlace,
    words: &'a [u32],
    number: usize,
) -> Result<Next<'a>, Cause>
    requires at { IsAt program.now near.old words.now number place.pc }
    requires inside { number < length words.now }
    ensures at { IfOk result (λ next. IsAt program.now near.new next.words.now next.number next.place.pc) }
    ensures answer { MatchResult result
        (λ next. (cause_at program.now place ≡ None) × (next_place program.now place ≡ next.place))
        (λ cause. cause_at program.now place ≡ Some cause) }
{
    follow_apart(program, near, memo, place, words, number)
}

// Where the path goes on after a place, or why it isn't fine.
#[inline(always)]
pub(crate) fn step<'a>(
    program: &'a Program,
    near: &mut SpanPlace,
    memo: &mut ChunkMemo,
    place: PathPlace,
    words: &'a [u32],
    number: usize,
) -> Result<Next<'a>, Cause>
    requires at { IsAt program.now near.old words.now number place.pc }
    ensures at { IfOk result (λ next. IsAt program.now near.new next.words.now next.number next.place.pc) }
    ensures answer { MatchResult result
        (λ next. (cause_at program.now place ≡ None) × (next_place program.now place ≡ next.place))
        (λ cause. cause_at program.now place ≡ Some cause) }
{
    if number >= words.len() {
        return Err(Cause::Cut);
    }
    // an arm for each instruction that is met often: the compiler reads no other one there
    let head = words[number];
    if head & INNER_MASK == INNER_SKIP {
        return follow(program, near, memo, place, words, number);
    }
    match head >> 28 {
        WRITE => follow(program, near, memo, place, words, number),
        SKIP => follow(program, near, memo, place, words, number),
        WRITE_C => follow(program, near, memo, place, words, number),
        _ => follow_seldom(program, near, memo, place, words, number),
    }
}
