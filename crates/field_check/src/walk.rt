//! The walk along the path, from the opening of a field on.

ghost use Rattle.std.specs.Prelude.{◌≡◌, ◌<◌, ◌≤◌, ◌^◌, length};
ghost use Rattle.risc_word.specs.Words.{encoded};
ghost use Rattle.check_model.specs.Checks.{begins_field, behind, checked, is_vertical, walked};
ghost use Rattle.field_law.specs.Trails.{next_at};
ghost use Rattle.field_check.specs.Tracks.{AreIn, CountUpTo, lefts};

use crate::judge::{Tracks, instr_why, none_left, short_why};
use check_model::Why;
use pixel_layout::Parity;
use planar_plan::Frame;
use risc_verify::Program;
use risc_word::{Code, Instr};

fn is_vertical(code: Code) -> bool
    ensures { result ≡ is_vertical code }
{
    match code {
        Code::Vre | Code::Vro => true,
        Code::Fm1 | Code::Fm3 => false,
    }
}

// Whether an instruction is the SYNC of a field.
fn begins_field(instr: &Instr) -> bool
    ensures { result ≡ begins_field instr.now }
{
    match instr {
        Instr::Sync { code, .. } => is_vertical(*code),
        _ => false,
    }
}

// Where the machine goes on after an instruction of so many words.
pub(crate) fn next_at(instr: &Instr, count: u8, at: u64) -> u64
    requires long { count ≡ length (encoded instr.now) }
    requires low { at < 2 ^ 32 }
    ensures { result ≡ next_at instr.now at }
{
    match instr {
        Instr::Jump { target, .. } => u64::from(*target),
        _ => at + 4 * u64::from(count),
    }
}

// Behind a field's end, along at most so many instructions: the first that is neither a JUMP nor the next field's SYNC.
fn behind(program: &Program, from: u64, rounds: u64) -> Option<(u64, Why)>
    ensures { result ≡ behind rounds program.now from }
{
    let mut at = from;
    for _round in 0..rounds {
        let Ok((instr, _)) = program.instr_at(at) else {
            return Some((at, Why::Unread));
        };
        let Instr::Jump { target, .. } = instr else {
            return if begins_field(&instr) {
                None
            } else {
                Some((at, Why::NothingAwaited))
            };
        };
        at = u64::from(target);
    }
    Some((at, Why::NoNextField))
}

/// From an address on, along at most so many instructions: the address at which the field ends and the number of instructions
/// before it, or an address and why the field isn't shown.
pub(crate) fn walk(
    frame: &Frame,
    field: Parity,
    program: &Program,
    plan: &Program,
    begin: Tracks,
    from: u64,
    rounds: u64,
) -> Result<(u64, u64), (u64, Why)>
    requires at { AreIn frame.now field plan.now begin }
    requires none { CountUpTo begin 0 }
    requires few { rounds ≤ 2 ^ 32 }
    ensures { result ≡ walked rounds program.now frame.now field from (lefts plan.now begin) }
{
    let mut tracks = begin;
    let mut at = from;
    for count in 0..rounds {
        if none_left(plan, &mut tracks) {
            return match behind(program, at, rounds - count) {
                Some(fault) => Err(fault),
                None => Ok((at, count)),
            };
        }
        let Ok((instr, long)) = program.instr_at(at) else {
            return Err((at, Why::Unread));
        };
        if begins_field(&instr) {
            return Err((at, short_why(frame, field, plan, &mut tracks)));
        }
        if let Some(why) = instr_why(frame, field, plan, &mut tracks, &instr) {
            return Err((at, why));
        }
        at = next_at(&instr, long, at);
    }
    Err((at, Why::NoNextField))
}
