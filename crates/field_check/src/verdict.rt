//! What is found of a field: from an opening, and among all openings on the path.

ghost use Rattle.std.specs.Prelude.{◌≡◌, ◌<◌, ◌≤◌, ◌^◌, length};
ghost use Rattle.machine_model.specs.Paths.{IsSound};
ghost use Rattle.check_model.specs.Checks.{awaited, checked};
ghost use Rattle.check_model.specs.Verdicts.{closing_from, closing_of, is_opening, is_shown, said, verdict};
ghost use Rattle.field_check.specs.Plans.{IsPlan};
ghost use Rattle.field_check.specs.Tracks.{AreIn, CountUpTo, lefts};
ghost use Rattle.field_check.specs.Walks.{kept, resyncs};

use crate::cursors::is_same_code;
use crate::judge::Tracks;
use crate::plan::first_tracks;
use crate::walk::{next_at, walk};
use check_model::{Closing, Verdict, Why};
use picture_model::vertical;
use pixel_layout::Parity;
use planar_plan::Frame;
use risc_verify::{Accepted, Program};
use risc_word::Instr;

// Whether an instruction opens a field.
fn is_opening(field: Parity, instr: &Instr) -> bool
    ensures { result ≡ is_opening field instr.now }
{
    match instr {
        Instr::Sync { code, .. } => is_same_code(*code, vertical(field)),
        _ => false,
    }
}

// What is found of a field from the opening at an address on. The tracks are those of the field's beginning.
fn checked(
    frame: &Frame,
    field: Parity,
    program: &Program,
    plan: &Program,
    tracks: Tracks,
    at: u64,
) -> Result<(u64, u64), (u64, Why)>
    requires at { AreIn frame.now field plan.now tracks }
    requires left { lefts plan.now tracks ≡ awaited frame.now field }
    requires none { CountUpTo tracks 0 }
    ensures { result ≡ checked program.now frame.now field at }
{
    let Ok((instr, _)) = program.instr_at(at) else {
        return Err((at, Why::Unread));
    };
    if !is_opening(field, &instr) {
        return Err((at, Why::NoSync(vertical(field))));
    }
    if !resyncs(&instr) {
        return Err((at, Why::NoResync));
    }
    let words = program.words().len() as u64;
    walk(frame, field, program, plan, tracks, at + 8, words)
}

// Whether a SYNC passes over what comes before its code.
fn resyncs(instr: &Instr) -> bool
    ensures { result ≡ resyncs instr.now }
{
    match instr {
        Instr::Sync { resync, .. } => *resync,
        _ => false,
    }
}

// What ends a field at an address.
fn closing_from(program: &Program, at: u64) -> Closing
    ensures { result ≡ closing_from program.now at }
{
    match program.instr_at(at) {
        Ok((Instr::Jump { ctl, .. }, _)) => Closing::Jump(ctl),
        _ => Closing::Sync,
    }
}

// What is reported of the opening at an address.
fn said(
    frame: &Frame,
    field: Parity,
    program: &Program,
    plan: &Program,
    tracks: Tracks,
    begin: u64,
) -> Verdict
    requires at { AreIn frame.now field plan.now tracks }
    requires left { lefts plan.now tracks ≡ awaited frame.now field }
    requires none { CountUpTo tracks 0 }
    ensures { result ≡ said program.now frame.now field begin }
{
    match checked(frame, field, program, plan, tracks, begin) {
        Ok((end, count)) => Verdict::Shown {
            begin,
            end,
            count,
            closing: closing_from(program, end),
        },
        Err((at, why)) => Verdict::Differs { at, why },
    }
}

pub(crate) fn is_shown(found: &Verdict) -> bool
    ensures { result ≡ is_shown found.now }
{
    matches!(found, Verdict::Shown { .. })
}

// The first of what was found.
fn kept(first: Option<Verdict>, found: Verdict) -> Option<Verdict>
    ensures { result ≡ kept first found }
{
    match first {
        None => Some(found),
        Some(first) => Some(first),
    }
}

/// What is reported of a field, whose plan has what is awaited.
pub(crate) fn verdict_by(
    accepted: &Accepted,
    frame: &Frame,
    field: Parity,
    plan: &Program,
) -> Verdict
    requires { IsPlan frame.now field plan.now }
    ensures { result ≡ verdict accepted.now frame.now field }
{
    let program = accepted.program();
    let words = program.words().len() as u64;
    // once for all openings
    let tracks = first_tracks(plan);
    let mut at = u64::from(program.base());
    let mut first = None;
    for _place in 0..words {
        let Ok((instr, long)) = program.instr_at(at) else {
            unreachable!();
        };
        if is_opening(field, &instr) {
            let found = said(frame, field, program, plan, tracks, at);
            if is_shown(&found) {
                return found;
            }
            first = kept(first, found);
        }
        at = next_at(&instr, long, at);
    }
    first.unwrap_or(Verdict::Differs {
        at: u64::from(program.base()),
        why: Why::NoSync(vertical(field)),
    })
}
