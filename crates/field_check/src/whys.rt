//! Why a queue doesn't await what is met, at a place of a field.

ghost use Rattle.std.specs.Prelude.{◌≡◌, ◌<◌, ◌^◌, ◌∷◌, [], List, Option, None, Some, IsTrue, drop, option_map, ℕ, IfSome, ◌+◌};
ghost use Rattle.field_law.specs.Sections.{Await, ask_of};
ghost use Rattle.check_model.specs.ByBytes.{bytes_asked};
ghost use Rattle.check_model.specs.Checks.{awaited, byte_why, eol_by, first_unlike, goes_on, reach_at, unlike_why};
ghost use Rattle.check_model.specs.Lines.{last_spot};
ghost use Rattle.field_check.specs.Cursors.{CountsMore, CountsUpTo, Fits, IsAt, first_of, left_of};
ghost use Rattle.field_check.specs.Tracks.{IsIn, met_ask};

use crate::cursors::{Cursor, Next, Track, look, takes, takes_code};
use crate::names::{last_spot, line_bytes, next_spot};
use check_model::{Spot, Why};
use fifo_model::Queue;
use machine_model::Demand;
use pixel_layout::Parity;
use planar_plan::Frame;
use risc_verify::Program;
use risc_word::Code;

// A byte is awaited, and a code or another byte is met.
fn byte_why(spot: Spot, q: Queue, met: Option<Demand>, next: &Demand) -> Why
    ensures { result ≡ byte_why spot q (met_ask met) (first_of next.now) }
{
    let Spot { line, number: byte } = spot;
    let Some(met) = met else {
        return Why::ByteAwaited {
            line,
            queue: q,
            byte,
        };
    };
    if met.address != next.address {
        return match next.address {
            Some(address) => Why::PlaceAwaited {
                line,
                queue: q,
                byte,
                address,
            },
            None => Why::NoPlaceAwaited {
                line,
                queue: q,
                byte,
            },
        };
    }
    if next.needs_sol {
        Why::SolAwaited { line, queue: q }
    } else {
        Why::NoSolAwaited {
            line,
            queue: q,
            byte,
        }
    }
}

/// Why a queue doesn't await the bytes that are met, or the code.
pub(crate) fn unlike_why(
    frame: &Frame,
    field: Parity,
    plan: &Program,
    q: Queue,
    track: &mut Track,
    met: Option<Demand>,
) -> Why
    requires at { IsIn frame.now field plan.now q track.old }
    requires few { CountsUpTo track.old (2 ^ 62) }
    ensures { result ≡ unlike_why frame.now field q (met_ask met) (left_of plan.now q track.old.cursor) }
{
    match look(plan, q, &mut track.cursor) {
        Next::Nothing => Why::NothingMore(q),
        Next::Marked(code) => Why::SyncAwaited(code),
        Next::Bytes(next) => {
            let spot = next_spot(q, frame, field, track, next.needs_sol);
            byte_why(spot, q, met, &next)
        }
    }
}

/// Takes of a queue the bytes that are asked of it, or answers why it doesn't await them.
pub(crate) fn take_bytes(
    frame: &Frame,
    field: Parity,
    plan: &Program,
    q: Queue,
    track: &mut Track,
    asked: Demand,
) -> Option<Why>
    requires at { IsIn frame.now field plan.now q track.old }
    requires some { IsTrue asked.needs_sol → 0 < asked.rest }
    requires below { IfSome asked.address (λ at. at + asked.rest < 2 ^ 40) }
    requires small { asked.rest < 2 ^ 16 }
    requires few { CountsUpTo track.old (2 ^ 60) }
    ensures why { result ≡ option_map (λ unlike. unlike_why frame.now field q unlike.0 unlike.1)
        (first_unlike (bytes_asked (ask_of asked)) (left_of plan.now q track.old.cursor)) }
    ensures left { result ≡ None → left_of plan.now q track.new.cursor ≡ drop asked.rest (left_of plan.now q track.old.cursor) }
    ensures at { result ≡ None → IsIn frame.now field plan.now q track.new }
    ensures few { result ≡ None → CountsMore track.old track.new asked.rest }
{
    let more = takes(plan, q, track, asked)?;
    Some(unlike_why(frame, field, plan, q, track, Some(more)))
}

/// Takes a code of a queue, or answers why the queue doesn't await it.
pub(crate) fn take_code(
    frame: &Frame,
    field: Parity,
    plan: &Program,
    q: Queue,
    track: &mut Track,
    code: Code,
) -> Option<Why>
    requires at { IsIn frame.now field plan.now q track.old }
    requires few { CountsUpTo track.old (2 ^ 60) }
    ensures why { result ≡ option_map (λ unlike. unlike_why frame.now field q unlike.0 unlike.1)
        (first_unlike (Await code ∷ []) (left_of plan.now q track.old.cursor)) }
    ensures left { result ≡ None → left_of plan.now q track.new.cursor ≡ drop 1 (left_of plan.now q track.old.cursor) }
    ensures at { result ≡ None → IsIn frame.now field plan.now q track.new }
    ensures few { result ≡ None → CountsMore track.old track.new 0 }
{
    if takes_code(plan, q, track, code) {
        None
    } else {
        Some(unlike_why(frame, field, plan, q, track, None))
    }
}

// Whether a queue awaits a byte that begins no line.
fn goes_on(plan: &Program, q: Queue, cursor: &mut Cursor) -> bool
    requires { Fits plan.now q cursor.old }
    ensures value { result ≡ goes_on (left_of plan.now q cursor.old) }
    ensures same { left_of plan.now q cursor.new ≡ left_of plan.now q cursor.old }
    ensures fits { Fits plan.now q cursor.new }
{
    match look(plan, q, cursor) {
        Next::Bytes(next) => !next.needs_sol,
        Next::Nothing | Next::Marked(_) => false,
    }
}

/// Why an instruction that took bytes of a queue has EOL, or has none.
pub(crate) fn eol_why(
    frame: &Frame,
    field: Parity,
    plan: &Program,
    q: Queue,
    track: &mut Track,
    eol: bool,
) -> Option<Why>
    requires { IsIn frame.now field plan.now q track.old }
    ensures why { result ≡ eol_by eol (goes_on (left_of plan.now q track.old.cursor))
        (last_spot q frame.now field (reach_at q frame.now field (left_of plan.now q track.old.cursor))) q frame.now }
    ensures left { left_of plan.now q track.new.cursor ≡ left_of plan.now q track.old.cursor }
    ensures at { IsIn frame.now field plan.now q track.new }
    ensures few { CountsMore track.old track.new 0 }
{
    if eol == goes_on(plan, q, &mut track.cursor) {
        let Spot { line, number: byte } = last_spot(q, frame, field, track);
        if eol {
            let bytes = line_bytes(q, frame, line);
            Some(Why::EarlyEol {
                line,
                queue: q,
                byte,
                bytes,
            })
        } else {
            Some(Why::EolAwaited { line, queue: q })
        }
    } else {
        None
    }
}
