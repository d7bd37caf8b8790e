// Each call of a desk fails, alone and with all that come after it, for each command.

use crate::buffers::{CHAIN_STREAM, FIRST, RING, RING_STREAM, SECOND};
use crate::calls::{
    LONG, assembled, captured, chained, checked, compiled, damaged, judged, listed, made, played,
    ringed, traced,
};
use crate::cases::ONE_LINE_STREAM;
use crate::left::Left;
use crate::programs::{ONE_LINE_LENGTH, one_line};
use std::alloc::{AllocError, Global};
use std::test::Fail;
use test_kit::ONE_LINE_LISTING;

/// More calls than a command makes whose calls move many bytes.
const CALLS: u64 = 60;

/// A field of `FIRST` in which nothing comes.
const STILL_STREAM: &[u8] = b"BFS1\x04\x04\x04\x06\x00";

#[derive(Clone, Copy)]
enum Command {
    List,
    Verify,
    Check,
    Assemble,
    Compile,
    Make,
    Run,
    Trace,
    Capture,
    Damage,
    Chain,
    Ring,
}

static COMMANDS: [Command; 12] = [
    Command::List,
    Command::Verify,
    Command::Check,
    Command::Assemble,
    Command::Compile,
    Command::Make,
    Command::Run,
    Command::Trace,
    Command::Capture,
    Command::Damage,
    Command::Chain,
    Command::Ring,
];

/// How many calls read an input of this length: it is opened, read, in one call or byte by byte, and once more at its end.
fn reads_of(length: usize, longest: usize) -> u64 {
    let pieces = if longest == 1 { length } else { 1 };
    (pieces as u64).saturating_add(2)
}

impl Command {
    /// What the command leaves, on files that it takes.
    fn tried(self, alloc: Global, failing: &[u64], longest: usize) -> Result<Left, AllocError> {
        match self {
            Command::List => listed(alloc, &one_line(alloc)?, failing, longest),
            Command::Verify => judged(alloc, &one_line(alloc)?, failing, longest),
            Command::Check => checked(alloc, &one_line(alloc)?, FIRST, failing, longest),
            Command::Assemble => assembled(alloc, ONE_LINE_LISTING, failing, longest),
            Command::Compile => compiled(alloc, FIRST, failing, longest, 5000),
            Command::Make => made(alloc, FIRST, failing, longest, 5000),
            Command::Run => played(alloc, &one_line(alloc)?, ONE_LINE_STREAM, failing, longest),
            Command::Trace => traced(alloc, &one_line(alloc)?, ONE_LINE_STREAM, failing, longest),
            Command::Capture => captured(alloc, FIRST, STILL_STREAM, failing, longest, 5000),
            Command::Damage => damaged(alloc, FIRST, STILL_STREAM, failing, longest),
            Command::Chain => chained(alloc, FIRST, SECOND, CHAIN_STREAM, failing, longest),
            Command::Ring => ringed(alloc, RING, RING_STREAM, failing, longest),
        }
    }

    /// The length of the program that the command reads.
    fn program(self) -> Option<usize> {
        match self {
            Command::List | Command::Verify | Command::Check => Some(ONE_LINE_LENGTH),
            Command::Run | Command::Trace => Some(ONE_LINE_LENGTH),
            _ => None,
        }
    }

    /// The other inputs of the command.
    fn inputs(self) -> &'static [&'static [u8]] {
        match self {
            Command::List | Command::Verify => &[],
            Command::Check | Command::Compile | Command::Make => &[FIRST],
            Command::Assemble => &[ONE_LINE_LISTING],
            Command::Run | Command::Trace => &[ONE_LINE_STREAM],
            Command::Capture | Command::Damage => &[FIRST, STILL_STREAM],
            Command::Chain => &[FIRST, SECOND, CHAIN_STREAM],
            Command::Ring => &[RING, RING_STREAM],
        }
    }

    /// How many outputs the command writes.
    fn outputs(self) -> u64 {
        match self {
            Command::List | Command::Verify | Command::Check => 0,
            Command::Trace | Command::Damage => 0,
            Command::Capture | Command::Ring => 2,
            _ => 1,
        }
    }

    /// How many calls read.
    fn reading_calls(self, longest: usize) -> u64 {
        let mut calls = match self.program() {
            Some(length) => reads_of(length, longest),
            None => 0,
        };
        for input in self.inputs() {
            calls = calls.saturating_add(reads_of(input.len(), longest));
        }
        calls
    }

    /// How many calls the command makes at least: after those that read, each output is created,
    /// written and finished, and a text is printed.
    fn calls(self) -> u64 {
        let writes = self.outputs().saturating_mul(3).saturating_add(1);
        self.reading_calls(LONG).saturating_add(writes)
    }
}

/// Whether an output is not there, or is the beginning of what the command writes.
fn began(left: &Left, whole: &Left, name: &str) -> bool {
    left.began(name, whole.desk.output(name).unwrap_or_default())
}

/// Whether a fault of writing was answered: nothing is written but beginnings of what the command writes and prints.
fn ended_writing(left: &Left, whole: &Left) -> bool {
    left.status == 5
        && began(left, whole, "out")
        && began(left, whole, "program")
        && began(left, whole, "image")
        && whole.desk.said().starts_with(left.desk.said())
}

/// Whether the command did all that it does.
fn is_whole(left: &Left, whole: &Left) -> bool {
    left.says(whole.status, whole.desk.said())
        && left.shares(whole, "out")
        && left.shares(whole, "program")
        && left.shares(whole, "image")
}

/// The numbers of a call and of those after it.
fn from_there_on(alloc: Global, first: u64) -> Result<Vec<u64>, AllocError> {
    let mut numbers = Vec::new(alloc);
    for number in first..CALLS {
        numbers.push(number)?;
    }
    Ok(numbers)
}

/// Whether the call of this number, failing alone, is answered as a fault of reading.
fn fails_reading(
    alloc: Global,
    command: Command,
    number: u64,
    longest: usize,
) -> Result<bool, AllocError> {
    let left = command.tried(alloc, &[number], longest)?;
    Ok(left.says_only(4, b"read fault\n") && left.has_faults(1, 0))
}

/// Whether each call that reads, failing alone, is a fault of reading that is reported, and nothing
/// else.
fn each_reading_call_fails(
    alloc: Global,
    command: Command,
    longest: usize,
) -> Result<bool, AllocError> {
    for number in 1..=command.reading_calls(longest) {
        if !fails_reading(alloc, command, number, longest)? {
            return Ok(false);
        }
    }
    Ok(true)
}

/// Whether the call of this number, failing alone, is answered as a fault of writing.
fn fails_writing(
    alloc: Global,
    command: Command,
    number: u64,
    whole: &Left,
) -> Result<bool, AllocError> {
    let left = command.tried(alloc, &[number], LONG)?;
    Ok(ended_writing(&left, whole) && left.has_faults(0, 1))
}

/// Whether the command does all its work where no call has this number.
fn works(alloc: Global, command: Command, number: u64, whole: &Left) -> Result<bool, AllocError> {
    let left = command.tried(alloc, &[number], LONG)?;
    Ok(is_whole(&left, whole))
}

/// The number of the first call after those that read that does not fail at writing, when it fails
/// alone.
fn writing_end(alloc: Global, command: Command, whole: &Left) -> Result<u64, AllocError> {
    for number in command.reading_calls(LONG).saturating_add(1)..CALLS {
        if !fails_writing(alloc, command, number, whole)? {
            return Ok(number);
        }
    }
    Ok(CALLS)
}

/// Whether each call that writes fails alone, up to the last: each output is created, written and
/// finished, and a text is printed.
fn each_writing_call_fails(alloc: Global, command: Command) -> Result<bool, AllocError> {
    let whole = command.tried(alloc, &[], LONG)?;
    let end = writing_end(alloc, command, &whole)?;
    Ok(command.calls() < end && works(alloc, command, end, &whole)?)
}

/// Whether a command ends as it should where all calls fail from this one on.
fn ends_from(
    alloc: Global,
    command: Command,
    first: u64,
    whole: &Left,
) -> Result<bool, AllocError> {
    let failing = from_there_on(alloc, first)?;
    let left = command.tried(alloc, &failing, LONG)?;
    if first <= command.reading_calls(LONG) {
        Ok(left.says_only(4, b""))
    } else {
        Ok(ended_writing(&left, whole))
    }
}

/// Whether a command ends as it should where all calls fail from one on: no text can be printed of a
/// fault of reading.
fn all_calls_fail(alloc: Global, command: Command) -> Result<bool, AllocError> {
    let whole = command.tried(alloc, &[], LONG)?;
    for first in 1..=command.calls() {
        if !ends_from(alloc, command, first, &whole)? {
            return Ok(false);
        }
    }
    Ok(true)
}

/// Whether the same is written and printed where each call moves a byte.
fn works_byte_by_byte(alloc: Global, command: Command) -> Result<bool, AllocError> {
    let whole = command.tried(alloc, &[], LONG)?;
    let left = command.tried(alloc, &[], 1)?;
    Ok(is_whole(&left, &whole))
}

#[test]
fn one_call_of_each_command_fails(rt: HostRuntime) -> Result<(), Fail> {
    for command in &COMMANDS {
        assert!(rt; each_reading_call_fails(rt.alloc(), *command, LONG)?);
        assert!(rt; each_writing_call_fails(rt.alloc(), *command)?);
    }
    Ok(())
}

#[test]
fn all_calls_of_each_command_fail(rt: HostRuntime) -> Result<(), Fail> {
    for command in &COMMANDS {
        assert!(rt; all_calls_fail(rt.alloc(), *command)?);
    }
    Ok(())
}

/// Where each call moves a byte, the same is written and printed, and each call that reads can fail.
#[test]
fn each_command_works_byte_by_byte(rt: HostRuntime) -> Result<(), Fail> {
    for command in &COMMANDS {
        assert!(rt; works_byte_by_byte(rt.alloc(), *command)?);
        assert!(rt; each_reading_call_fails(rt.alloc(), *command, 1)?);
    }
    Ok(())
}

/// A program that differs from a description is reported as a refusal is: a fault of printing it changes nothing.
#[test]
fn a_difference_stays_where_it_cannot_be_said(rt: HostRuntime) -> Result<(), Fail> {
    let reads = Command::Check.reading_calls(LONG);
    let left = checked(
        rt.alloc(),
        &one_line(rt.alloc())?,
        SECOND,
        &[reads.saturating_add(1)],
        LONG,
    )?;
    assert!(rt; left.says(1, b"") && left.has_faults(0, 1));
    Ok(())
}
