// The order of work: the calls that a desk was given.

use crate::buffers::{FIRST, SECOND};
use crate::calls::{LONG, status_of};
use crate::cases::ONE_LINE_STREAM;
use crate::desks::{Limits, desk_of};
use crate::programs::{no_words, one_line};
use capture_desk::{Call, LoggedDesk, MemDesk, Octets};
use std::alloc::{AllocError, Global};
use std::collections::VecDeque;
use std::test::Fail;

/// A call with a name, in words.
fn named(alloc: Global, what: &str, name: &Octets, done: bool) -> Result<Vec<u8>, AllocError> {
    let mut line = Vec::from_slice(alloc, what.as_bytes())?;
    line.extend_from_slice(name.as_slice())?;
    line.extend_from_slice(if done { b"\n" } else { b" failed\n" })?;
    Ok(line)
}

/// A call in words.
fn line(alloc: Global, call: &Call) -> Result<Vec<u8>, AllocError> {
    let text = match call {
        Call::OpenIn(name, done) => return named(alloc, "open ", name, *done),
        Call::CreateOut(name, done) => return named(alloc, "create ", name, *done),
        Call::Read(size, Some(moved)) => format!(in alloc; "read {size}: {moved}\n")?,
        Call::Read(size, None) => format!(in alloc; "read {size} failed\n")?,
        Call::Finish(true) => format!(in alloc; "finish\n")?,
        Call::Finish(false) => format!(in alloc; "finish failed\n")?,
        Call::Say => format!(in alloc; "say\n")?,
    };
    Ok(text.into_bytes())
}

/// A desk of `check` that was called on, with its calls.
fn logged_check(
    alloc: Global,
    program: &[u8],
    description: &[u8],
) -> Result<LoggedDesk<MemDesk>, AllocError> {
    let words = ["check", "program", "description"];
    let limits = Limits::new(&[], LONG, 500);
    let desk = desk_of(alloc, &words[1..], &[program, description], &[], limits)?;
    let mut desk = LoggedDesk::new(alloc, desk);
    let _ = status_of(alloc, &words, &mut desk);
    Ok(desk)
}

/// A desk of `run` that was called on, with its calls.
fn logged_run(
    alloc: Global,
    program: &[u8],
    stream: &[u8],
    failing: &[u64],
) -> Result<LoggedDesk<MemDesk>, AllocError> {
    let words = ["run", "program", "stream", "image"];
    let limits = Limits::new(failing, LONG, 5000);
    let desk = desk_of(alloc, &words[1..3], &[program, stream], &words[3..], limits)?;
    let mut desk = LoggedDesk::new(alloc, desk);
    let _ = status_of(alloc, &words, &mut desk);
    Ok(desk)
}

/// Appends a call in words.
fn add_line(text: &mut Vec<u8>, alloc: Global, call: &Call) -> Result<(), AllocError> {
    let line = line(alloc, call)?;
    text.extend_from_slice(&line)
}

/// Calls in words, the last one first.
fn lines(alloc: Global, calls: &VecDeque<Call>) -> Result<Vec<u8>, AllocError> {
    let mut text = Vec::new(alloc);
    for call in calls.iter() {
        add_line(&mut text, alloc, call)?;
    }
    Ok(text)
}

/// Whether these are the calls in words, the last one first.
fn are_lines(alloc: Global, calls: &VecDeque<Call>, wanted: &[u8]) -> Result<bool, AllocError> {
    let text = lines(alloc, calls)?;
    Ok(text.as_slice() == wanted)
}

/// Whether `run program stream image` makes these calls, the last one first.
fn makes_calls(
    alloc: Global,
    program: &[u8],
    stream: &[u8],
    failing: &[u64],
    wanted: &[u8],
) -> Result<bool, AllocError> {
    let desk = logged_run(alloc, program, stream, failing)?;
    match desk.calls() {
        Some(calls) => are_lines(alloc, calls, wanted),
        None => Ok(false),
    }
}

/// Whether `check program description` makes these calls, the last one first.
fn checks_in_calls(
    alloc: Global,
    program: &[u8],
    description: &[u8],
    wanted: &[u8],
) -> Result<bool, AllocError> {
    let desk = logged_check(alloc, program, description)?;
    match desk.calls() {
        Some(calls) => are_lines(alloc, calls, wanted),
        None => Ok(false),
    }
}

/// Each input is opened and read to its end before the next is opened; then the output is made, and the
/// report is printed.
#[test]
fn a_run_works_in_order(rt: HostRuntime) -> Result<(), Fail> {
    let program = one_line(rt.alloc())?;
    let wanted =
        b"say\nfinish\ncreate image\nread 65536: 0\nread 65536: 26\nopen stream\nread 65536: 0\nread 65536: 53\nopen program\n";
    assert!(rt; makes_calls(rt.alloc(), &program, ONE_LINE_STREAM, &[], wanted)?);
    Ok(())
}

/// A program that is no program file is reported before the stream is opened.
#[test]
fn a_bad_program_is_told_first(rt: HostRuntime) -> Result<(), Fail> {
    let wanted = b"say\nread 65536: 0\nread 65536: 4\nopen program\n";
    assert!(rt; makes_calls(rt.alloc(), b"BRP3", ONE_LINE_STREAM, &[], wanted)?);
    Ok(())
}

/// A fault in the first piece of a stream is reported before the next is read.
#[test]
fn a_bad_piece_is_told_at_once(rt: HostRuntime) -> Result<(), Fail> {
    let program = one_line(rt.alloc())?;
    let wanted = b"say\nread 65536: 5\nopen stream\nread 65536: 0\nread 65536: 53\nopen program\n";
    assert!(rt; makes_calls(rt.alloc(), &program, b"BFS1\x0a", &[], wanted)?);
    Ok(())
}

/// No call follows a creation that failed: it is the seventh call.
#[test]
fn a_failed_creation_is_the_last_call(rt: HostRuntime) -> Result<(), Fail> {
    let program = one_line(rt.alloc())?;
    let wanted =
        b"create image failed\nread 65536: 0\nread 65536: 26\nopen stream\nread 65536: 0\nread 65536: 53\nopen program\n";
    assert!(rt; makes_calls(rt.alloc(), &program, ONE_LINE_STREAM, &[7], wanted)?);
    Ok(())
}

/// The program is read through and checked before the description is opened; then the verdict is printed.
#[test]
fn a_check_works_in_order(rt: HostRuntime) -> Result<(), Fail> {
    let program = one_line(rt.alloc())?;
    let wanted =
        b"say\nread 65536: 0\nread 65536: 68\nopen description\nread 65536: 0\nread 65536: 53\nopen program\n";
    assert!(rt; checks_in_calls(rt.alloc(), &program, FIRST, wanted)?);
    assert!(rt; checks_in_calls(rt.alloc(), &program, SECOND, wanted)?);
    Ok(())
}

/// A program that isn't sound is reported before the description is opened.
#[test]
fn an_unsound_program_is_told_first(rt: HostRuntime) -> Result<(), Fail> {
    let program = no_words(rt.alloc())?;
    let wanted = b"say\nread 65536: 0\nread 65536: 21\nopen program\n";
    assert!(rt; checks_in_calls(rt.alloc(), &program, FIRST, wanted)?);
    Ok(())
}
