//! The records of a stream.

ghost use Rattle.capture_file.specs.Records.{StepFits, push_in, turns_in};
ghost use Rattle.capture_file.specs.Streams.{ack_with, buffer_if, control_at, data_with, enable_at, fields_at, form_of, is_buffer, is_data};
ghost use Rattle.capture_file.specs.Streams.{kind_of_tag, most_turns, number_at, patch_at, push_at, record_at, slot_if, trigger_at};
ghost use Rattle.capture_file.specs.Streams.{turns_with};
ghost use Rattle.capture_file.specs.declared.records.Form.{Form};
ghost use Rattle.capture_file.specs.declared.records.Found.TheVariants.{Whole};
ghost use Rattle.std.specs.Prelude.{◌≡◌, ◌≤◌, ◌+◌, ℕ, IfNone, IfSome, None, length};

use super::{FileKind, Step, tags};
use byteorder::{ByteOrder, LittleEndian};
use fifo_model::{Entry, Queue};
use irq_status::HostWrite;
use risc_word::Code;
use sync_status::Status;

/// The forms of a stream, by its first word.
#[derive(Clone, Copy)]
pub enum Form {
    Bfs1,
    Bfs2,
    Bfs3,
}

/// The kinds of records, by their tags.
#[derive(Clone, Copy)]
pub enum RecordKind {
    End,
    Push(Queue),
    Control,
    Turns,
    Ack,
    Enable,
    Trigger,
    Patch,
    Unknown,
}

/// What is at the front of some bytes where a record begins.
#[derive(Clone, Copy)]
pub enum Found {
    /// The bytes end within the record.
    Cut,
    /// A field is at fault: its first byte and the first byte after it, counted from the tag.
    Wrong(u8, u8, FileKind),
    /// The end record.
    Last,
    /// A step, and the number of bytes of its record.
    Whole(Step, u8),
}

const BFS1: u32 = 0x3153_4642;

const BFS2: u32 = 0x3253_4642;

const BFS3: u32 = 0x3353_4642;

/// The most turns of a stream.
pub const MOST_TURNS: u32 = 1_073_741_824;

/// The form that a first word names, if it is one.
pub fn form_named(chained: bool, word: u32) -> Option<Form>
    ensures { result ≡ form_of chained word }
{
    if chained {
        if word == BFS3 { Some(Form::Bfs3) } else { None }
    } else if word == BFS1 {
        Some(Form::Bfs1)
    } else if word == BFS2 {
        Some(Form::Bfs2)
    } else {
        None
    }
}

/// The number in four bytes, if they are there.
#[inline(always)]
pub fn number(bytes: &[u8]) -> Option<u32>
    ensures { result ≡ number_at bytes.now }
{
    match bytes {
        [_, _, _, _, ..] => Some(LittleEndian::read_u32(bytes)),
        _ => None,
    }
}

#[inline(always)]
fn kind_tagged(form: Form, tag: u8) -> RecordKind
    ensures { result ≡ kind_of_tag form tag }
{
    match tag {
        tags::END => RecordKind::End,
        tags::PUSH_ONE => RecordKind::Push(Queue::One),
        tags::PUSH_TWO => RecordKind::Push(Queue::Two),
        tags::PUSH_THREE => RecordKind::Push(Queue::Three),
        tags::CONTROL => RecordKind::Control,
        tags::TURNS => RecordKind::Turns,
        tags::ACK => RecordKind::Ack,
        tags::ENABLE => RecordKind::Enable,
        tags::TRIGGER => match form {
            Form::Bfs1 => RecordKind::Unknown,
            Form::Bfs2 | Form::Bfs3 => RecordKind::Trigger,
        },
        tags::PATCH => match form {
            Form::Bfs1 | Form::Bfs2 => RecordKind::Unknown,
            Form::Bfs3 => RecordKind::Patch,
        },
        _ => RecordKind::Unknown,
    }
}

#[inline(always)]
fn is_data_status(status: u8) -> bool
    ensures { result ≡ is_data status }
{
    match status {
        0..=3 | 5 | 7..=11 | 13 | 15 => true,
        _ => false,
    }
}

#[inline(always)]
fn push(queue: Queue, rest: &[u8]) -> Found
    ensures { result ≡ push_at queue rest.now }
{
    match rest {
        [] => Found::Cut,
        [status, rest @ ..] => {
            if !is_data_status(*status) {
                return Found::Wrong(1, 2, FileKind::Status(*status));
            }
            match number(rest) {
                None => Found::Cut,
                Some(dword) => {
                    let entry = Entry {
                        status: Status::of(*status),
                        dword,
                    };
                    Found::Whole(Step::Push(queue, entry), 6)
                }
            }
        }
    }
}

#[inline(always)]
fn control(rest: &[u8]) -> Found
    ensures { result ≡ control_at rest.now }
{
    match rest {
        [] => Found::Cut,
        [number, ..] => match Code::of(*number) {
            Some(code) => Found::Whole(Step::Control(code), 2),
            None => Found::Wrong(1, 2, FileKind::Code(*number)),
        },
    }
}

#[inline(always)]
fn turns_after(before: u32, rest: &[u8]) -> Found
    ensures { result ≡ turns_with before (number_at rest.now) }
{
    match number(rest) {
        None => Found::Cut,
        Some(count) => {
            if u64::from(before) + u64::from(count) <= u64::from(MOST_TURNS) {
                Found::Whole(Step::Turns(count), 5)
            } else {
                Found::Wrong(1, 5, FileKind::TooManyTurns)
            }
        }
    }
}

#[inline(always)]
fn ack(rest: &[u8]) -> Found
    ensures { result ≡ ack_with (number_at rest.now) }
{
    match number(rest) {
        None => Found::Cut,
        Some(mask) => Found::Whole(Step::Host(HostWrite::Ack(mask)), 5),
    }
}

#[inline(always)]
fn enable(rest: &[u8]) -> Found
    ensures { result ≡ enable_at rest.now }
{
    match rest {
        [] => Found::Cut,
        [enables, ..] => {
            if *enables < 4 {
                let write = HostWrite::Enable {
                    fifo: *enables % 2 == 1,
                    risc: *enables / 2 == 1,
                };
                Found::Whole(Step::Host(write), 2)
            } else {
                Found::Wrong(1, 2, FileKind::Enable(*enables))
            }
        }
    }
}

#[inline(always)]
fn trigger(rest: &[u8]) -> Found
    ensures { result ≡ trigger_at rest.now }
{
    match rest {
        [] => Found::Cut,
        [number, ..] => {
            if *number < 4 {
                Found::Whole(Step::Host(HostWrite::Trigger(*number)), 2)
            } else {
                Found::Wrong(1, 2, FileKind::Trigger(*number))
            }
        }
    }
}

#[inline(always)]
fn patch(rest: &[u8]) -> Found
    ensures { result ≡ patch_at rest.now }
{
    match rest {
        [] => Found::Cut,
        [slot, ..] if *slot >= 2 => Found::Wrong(1, 2, FileKind::Slot(*slot)),
        [_] => Found::Cut,
        [slot, buffer, ..] => {
            if *buffer < 2 || *buffer == 255 {
                Found::Whole(Step::Patch(*slot, *buffer), 3)
            } else {
                Found::Wrong(2, 3, FileKind::Buffer(*buffer))
            }
        }
    }
}

/// The record at the front of some bytes, after records of so many turns.
#[inline(always)]
pub fn find(form: Form, turns: u32, bytes: &[u8]) -> Found
    ensures { result ≡ record_at form turns bytes.now }
{
    match bytes {
        [] => Found::Cut,
        [tag, rest @ ..] => match kind_tagged(form, *tag) {
            RecordKind::End => Found::Last,
            RecordKind::Push(queue) => push(queue, rest),
            RecordKind::Control => control(rest),
            RecordKind::Turns => turns_after(turns, rest),
            RecordKind::Ack => ack(rest),
            RecordKind::Enable => enable(rest),
            RecordKind::Trigger => trigger(rest),
            RecordKind::Patch => patch(rest),
            RecordKind::Unknown => Found::Wrong(0, 1, FileKind::Tag(*tag)),
        },
    }
}

/// The data push that lies whole at the front of some bytes.
#[inline(always)]
pub fn find_push(bytes: &[u8]) -> Option<(Queue, Entry)>
    ensures some { IfSome result (λ push. (form : Form) (turns : ℕ) → record_at form turns bytes.now ≡ Whole (Step.Push push.0 push.1) 6) }
    ensures within { IfSome result (λ _. 6 ≤ length bytes.now) }
    ensures fits { IfSome result (λ push. StepFits (Step.Push push.0 push.1)) }
    ensures none { IfNone result ((form : Form) (turns : ℕ) → push_in (record_at form turns bytes.now) ≡ None) }
{
    let [tag, _, _, _, _, _, ..] = bytes else {
        return None;
    };
    let queue = match *tag {
        tags::PUSH_ONE => Queue::One,
        tags::PUSH_TWO => Queue::Two,
        tags::PUSH_THREE => Queue::Three,
        _ => return None,
    };
    match push(queue, &bytes[1..]) {
        Found::Whole(Step::Push(queue, entry), _) => Some((queue, entry)),
        _ => None,
    }
}

/// The count of turns that lies whole at the front of some bytes, after records of so many turns.
#[inline(always)]
pub fn find_turns(before: u32, bytes: &[u8]) -> Option<u32>
    ensures some { IfSome result (λ count. (form : Form) → record_at form before bytes.now ≡ Whole (Step.Turns count) 5) }
    ensures within { IfSome result (λ _. 5 ≤ length bytes.now) }
    ensures sum { IfSome result (λ count. before + count ≤ most_turns) }
    ensures none { IfNone result ((form : Form) → turns_in (record_at form before bytes.now) ≡ None) }
{
    match bytes {
        [tags::TURNS, rest @ ..] => match turns_after(before, rest) {
            Found::Whole(Step::Turns(count), _) => Some(count),
            _ => None,
        },
        _ => None,
    }
}
