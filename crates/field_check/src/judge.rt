//! Whether an instruction is what the queues await.

ghost use Rattle.std.specs.Prelude.{◌≡◌, ◌<◌, ◌^◌, ◌+◌, Bool, None, Option, drop, length, true};
ghost use Rattle.risc_word.specs.declared.Ctl.{Ctl};
ghost use Rattle.risc_word.specs.declared.Instr.TheVariants.{Sync};
ghost use Rattle.fifo_model.specs.declared.Queue.{Queue as AnyQueue};
ghost use Rattle.pixel_layout.specs.declared.Parity.{Parity as AnyParity};
ghost use Rattle.capture_desc.specs.declared.desc.Desc.{Desc};
ghost use Rattle.machine_model.specs.Paths.{is_data};
ghost use Rattle.check_model.specs.Checks.{eol_why, first_why, instr_asks, instr_why, is_none, left_by, none_left, order_why, over_queues};
ghost use Rattle.check_model.specs.Checks.{queue_why, short_why};
ghost use Rattle.field_check.specs.Cursors.{CountsMore, CountsUpTo, Fits, left_of};
ghost use Rattle.field_check.specs.Tracks.{AreFit, AreIn, CountMore, CountUpTo, IsIn, code_why, eol_at, lefts, met_why, none_why};

use crate::cursors::{Cursor, Next, Track, look};
use crate::demands::demand_of;
use crate::whys::{eol_why, take_bytes, take_code, unlike_why};
use check_model::Why;
use fifo_model::Queue;
use pixel_layout::Parity;
use planar_plan::Frame;
use risc_verify::Program;
use risc_word::{Code, Instr};

/// Where the three queues are.
#[derive(Clone, Copy)]
pub struct Tracks {
    /// Of queue 1.
    pub one: Track,
    /// Of queue 2.
    pub two: Track,
    /// Of queue 3.
    pub three: Track,
}

// Takes of a queue the bytes that a data instruction asks of it, or answers why it doesn't await them.
fn take_of(
    frame: &Frame,
    field: Parity,
    plan: &Program,
    q: Queue,
    track: &mut Track,
    instr: &Instr,
) -> Option<Why>
    requires data { is_data instr.now ≡ true }
    requires at { IsIn frame.now field plan.now q track.old }
    requires few { CountsUpTo track.old (2 ^ 60) }
    ensures why { result ≡ met_why frame.now field q instr.now (left_of plan.now q track.old.cursor) }
    ensures left { result ≡ None →
        left_of plan.now q track.new.cursor ≡ drop (length (instr_asks q instr.now)) (left_of plan.now q track.old.cursor) }
    ensures at { result ≡ None → IsIn frame.now field plan.now q track.new }
    ensures few { result ≡ None → CountsMore track.old track.new (2 ^ 16) }
{
    let asked = demand_of(instr, q);
    take_bytes(frame, field, plan, q, track, asked)
}

// The same of all queues.
fn take_data(
    frame: &Frame,
    field: Parity,
    plan: &Program,
    tracks: &mut Tracks,
    instr: &Instr,
) -> Option<Why>
    requires data { is_data instr.now ≡ true }
    requires at { AreIn frame.now field plan.now tracks.old }
    requires few { CountUpTo tracks.old (2 ^ 60) }
    ensures why { result ≡ over_queues (queue_why frame.now field instr.now (lefts plan.now tracks.old)) }
    ensures left { result ≡ None → (q : AnyQueue) → lefts plan.now tracks.new q ≡ left_by instr.now (lefts plan.now tracks.old) q }
    ensures at { result ≡ None → AreIn frame.now field plan.now tracks.new }
    ensures few { result ≡ None → CountMore tracks.old tracks.new (2 ^ 16) }
{
    if let Some(why) = take_of(frame, field, plan, Queue::One, &mut tracks.one, instr) {
        return Some(why);
    }
    if let Some(why) = take_of(frame, field, plan, Queue::Two, &mut tracks.two, instr) {
        return Some(why);
    }
    take_of(frame, field, plan, Queue::Three, &mut tracks.three, instr)
}

// Why the EOL of a data instruction is wrong for a queue, behind what it took.
fn eol_of(
    frame: &Frame,
    field: Parity,
    plan: &Program,
    q: Queue,
    track: &mut Track,
    instr: &Instr,
) -> Option<Why>
    requires data { is_data instr.now ≡ true }
    requires at { IsIn frame.now field plan.now q track.old }
    ensures why { result ≡ eol_at frame.now field q instr.now (left_of plan.now q track.old.cursor) }
    ensures left { left_of plan.now q track.new.cursor ≡ left_of plan.now q track.old.cursor }
    ensures at { IsIn frame.now field plan.now q track.new }
    ensures few { CountsMore track.old track.new 0 }
{
    if demand_of(instr, q).rest == 0 {
        None
    } else {
        eol_why(frame, field, plan, q, track, instr.ends().eol)
    }
}

// The same of all queues.
fn eol_of_all(
    frame: &Frame,
    field: Parity,
    plan: &Program,
    tracks: &mut Tracks,
    instr: &Instr,
) -> Option<Why>
    requires data { is_data instr.now ≡ true }
    requires at { AreIn frame.now field plan.now tracks.old }
    ensures why { result ≡ over_queues (λ q. eol_at frame.now field q instr.now (lefts plan.now tracks.old q)) }
    ensures left { result ≡ None → (q : AnyQueue) → lefts plan.now tracks.new q ≡ lefts plan.now tracks.old q }
    ensures at { result ≡ None → AreIn frame.now field plan.now tracks.new }
    ensures few { result ≡ None → CountMore tracks.old tracks.new 0 }
{
    if let Some(why) = eol_of(frame, field, plan, Queue::One, &mut tracks.one, instr) {
        return Some(why);
    }
    if let Some(why) = eol_of(frame, field, plan, Queue::Two, &mut tracks.two, instr) {
        return Some(why);
    }
    eol_of(frame, field, plan, Queue::Three, &mut tracks.three, instr)
}

// Why a data instruction isn't what is awaited.
fn data_why(
    frame: &Frame,
    field: Parity,
    plan: &Program,
    tracks: &mut Tracks,
    instr: &Instr,
) -> Option<Why>
    requires data { is_data instr.now ≡ true }
    requires at { AreIn frame.now field plan.now tracks.old }
    requires few { CountUpTo tracks.old (2 ^ 60) }
    ensures why { result ≡ first_why (over_queues (queue_why frame.now field instr.now (lefts plan.now tracks.old)))
        (over_queues (eol_why frame.now field instr.now (lefts plan.now tracks.old))) }
    ensures left { result ≡ None → (q : AnyQueue) → lefts plan.now tracks.new q ≡ left_by instr.now (lefts plan.now tracks.old) q }
    ensures at { result ≡ None → AreIn frame.now field plan.now tracks.new }
    ensures few { result ≡ None → CountMore tracks.old tracks.new (2 ^ 16) }
{
    if let Some(why) = take_data(frame, field, plan, tracks, instr) {
        return Some(why);
    }
    eol_of_all(frame, field, plan, tracks, instr)
}

// Whether a queue awaits nothing more.
fn awaits_nothing(plan: &Program, q: Queue, cursor: &mut Cursor) -> bool
    requires { Fits plan.now q cursor.old }
    ensures value { result ≡ is_none (left_of plan.now q cursor.old) }
    ensures same { left_of plan.now q cursor.new ≡ left_of plan.now q cursor.old }
    ensures fits { Fits plan.now q cursor.new }
{
    matches!(look(plan, q, cursor), Next::Nothing)
}

// Takes a code of a queue that awaits something, or answers why it doesn't await the code.
fn take_awaited(
    frame: &Frame,
    field: Parity,
    plan: &Program,
    q: Queue,
    track: &mut Track,
    code: Code,
) -> Option<Why>
    requires at { IsIn frame.now field plan.now q track.old }
    requires few { CountsUpTo track.old (2 ^ 60) }
    ensures why { result ≡ code_why frame.now field q code (left_of plan.now q track.old.cursor) }
    ensures left { result ≡ None → left_of plan.now q track.new.cursor ≡ drop 1 (left_of plan.now q track.old.cursor) }
    ensures at { result ≡ None → IsIn frame.now field plan.now q track.new }
    ensures few { result ≡ None → CountsMore track.old track.new 0 }
{
    if awaits_nothing(plan, q, &mut track.cursor) {
        None
    } else {
        take_code(frame, field, plan, q, track, code)
    }
}

// The first queue that awaits nothing more, if any.
fn first_nothing(plan: &Program, tracks: &mut Tracks) -> Option<Why>
    requires { AreFit plan.now tracks.old }
    ensures why { result ≡ over_queues (λ q. none_why q (lefts plan.now tracks.old q)) }
    ensures left { (q : AnyQueue) → lefts plan.now tracks.new q ≡ lefts plan.now tracks.old q }
    ensures at { (d : Desc) (field : AnyParity) → AreIn d field plan.now tracks.old → AreIn d field plan.now tracks.new }
    ensures few { CountMore tracks.old tracks.new 0 }
{
    let one = awaits_nothing(plan, Queue::One, &mut tracks.one.cursor);
    let two = awaits_nothing(plan, Queue::Two, &mut tracks.two.cursor);
    let three = awaits_nothing(plan, Queue::Three, &mut tracks.three.cursor);
    if one {
        Some(Why::NothingMore(Queue::One))
    } else if two {
        Some(Why::NothingMore(Queue::Two))
    } else if three {
        Some(Why::NothingMore(Queue::Three))
    } else {
        None
    }
}

// Why a SYNC isn't what is awaited: of the queues those come first that await something.
fn sync_why(
    frame: &Frame,
    field: Parity,
    plan: &Program,
    tracks: &mut Tracks,
    code: Code,
) -> Option<Why>
    requires at { AreIn frame.now field plan.now tracks.old }
    requires few { CountUpTo tracks.old (2 ^ 60) }
    ensures why { (ctl : Ctl) (resync : Bool) → result ≡ order_why frame.now field (Sync ctl resync code) (lefts plan.now tracks.old) }
    ensures left { result ≡ None → (ctl : Ctl) (resync : Bool) (q : AnyQueue) →
        lefts plan.now tracks.new q ≡ left_by (Sync ctl resync code) (lefts plan.now tracks.old) q }
    ensures at { result ≡ None → AreIn frame.now field plan.now tracks.new }
    ensures few { result ≡ None → CountMore tracks.old tracks.new 0 }
{
    let mut before = *tracks;
    if let Some(why) = take_awaited(frame, field, plan, Queue::One, &mut tracks.one, code) {
        return Some(why);
    }
    if let Some(why) = take_awaited(frame, field, plan, Queue::Two, &mut tracks.two, code) {
        return Some(why);
    }
    if let Some(why) = take_awaited(frame, field, plan, Queue::Three, &mut tracks.three, code) {
        return Some(why);
    }
    // only where all that await something await this
    first_nothing(plan, &mut before)
}

/// Why an instruction isn't what is awaited. Where it is, it is taken.
pub(crate) fn instr_why(
    frame: &Frame,
    field: Parity,
    plan: &Program,
    tracks: &mut Tracks,
    instr: &Instr,
) -> Option<Why>
    requires at { AreIn frame.now field plan.now tracks.old }
    requires few { CountUpTo tracks.old (2 ^ 60) }
    ensures why { result ≡ instr_why frame.now field instr.now (lefts plan.now tracks.old) }
    ensures left { result ≡ None → (q : AnyQueue) → lefts plan.now tracks.new q ≡ left_by instr.now (lefts plan.now tracks.old) q }
    ensures at { result ≡ None → AreIn frame.now field plan.now tracks.new }
    ensures few { result ≡ None → CountMore tracks.old tracks.new (2 ^ 16) }
{
    match instr {
        Instr::WriteC { .. } => Some(Why::WriteC),
        Instr::Jump { .. } => None,
        Instr::Sync { code, .. } => sync_why(frame, field, plan, tracks, *code),
        Instr::Write { .. }
        | Instr::Skip { .. }
        | Instr::Write123 { .. }
        | Instr::Skip123 { .. }
        | Instr::Write1S23 { .. } => {
            if instr.off() == 0 {
                data_why(frame, field, plan, tracks, instr)
            } else {
                Some(Why::LanesOff)
            }
        }
    }
}

/// Whether no queue awaits anything.
pub(crate) fn none_left(plan: &Program, tracks: &mut Tracks) -> bool
    requires { AreFit plan.now tracks.old }
    ensures value { result ≡ none_left (lefts plan.now tracks.old) }
    ensures left { (q : AnyQueue) → lefts plan.now tracks.new q ≡ lefts plan.now tracks.old q }
    ensures at { (d : Desc) (field : AnyParity) → AreIn d field plan.now tracks.old → AreIn d field plan.now tracks.new }
    ensures few { CountMore tracks.old tracks.new 0 }
{
    if !awaits_nothing(plan, Queue::One, &mut tracks.one.cursor) {
        return false;
    }
    if !awaits_nothing(plan, Queue::Two, &mut tracks.two.cursor) {
        return false;
    }
    awaits_nothing(plan, Queue::Three, &mut tracks.three.cursor)
}

/// Why the next field may not begin, where something is awaited: the answer is that of the lowest queue.
pub(crate) fn short_why(frame: &Frame, field: Parity, plan: &Program, tracks: &mut Tracks) -> Why
    requires at { AreIn frame.now field plan.now tracks.old }
    requires few { CountUpTo tracks.old (2 ^ 60) }
    ensures { result ≡ short_why frame.now field (lefts plan.now tracks.old) }
{
    if !awaits_nothing(plan, Queue::One, &mut tracks.one.cursor) {
        return unlike_why(frame, field, plan, Queue::One, &mut tracks.one, None);
    }
    if !awaits_nothing(plan, Queue::Two, &mut tracks.two.cursor) {
        return unlike_why(frame, field, plan, Queue::Two, &mut tracks.two, None);
    }
    unlike_why(frame, field, plan, Queue::Three, &mut tracks.three, None)
}
