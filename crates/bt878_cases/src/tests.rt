ghost use Rattle.std.specs.Prelude.{◌≡◌, [], Some};
ghost use Rattle.capture_desk.specs.Memory.{all_told};

use crate::calls::{LONG, assembled, is_at_fault, judged, left_by, listed, played, status_of};
use crate::cases::{
    JUDGED, Judged, LISTED, ONE_LINE_IMAGE, ONE_LINE_REPORT, ONE_LINE_STREAM, Played, UNASSEMBLED,
    Unplayed, played_cases, unplayed_cases,
};
use crate::desks::{Limits, are_parts, desk_of, joined};
use crate::left::Left;
use crate::programs::one_line;
use capture_desk::{MemDesk, OsDesk};
use std::alloc::{AllocError, Global};
use std::fs;
use std::test::Fail;

fn plays(alloc: Global, case: &Played, longest: usize) -> Result<bool, AllocError> {
    let program = case.program.bytes(alloc)?;
    let stream = joined(alloc, case.stream)?;
    let left = played(alloc, &program, &stream, &[], longest)?;
    Ok(left.has(0, case.said, case.image) && left.has_faults(0, 0))
}

fn refuses(alloc: Global, case: &Unplayed, longest: usize) -> Result<bool, AllocError> {
    let program = case.program.bytes(alloc)?;
    let stream = joined(alloc, case.stream)?;
    let left = played(alloc, &program, &stream, &[], longest)?;
    Ok(left.says_only(case.status, case.said) && left.has_faults(0, 0))
}

fn lists(alloc: Global, case: &Judged) -> Result<bool, AllocError> {
    let program = case.program.bytes(alloc)?;
    let left = listed(alloc, &program, &[], LONG)?;
    Ok(left.has(case.status, case.said, &[]))
}

fn assembles(alloc: Global, case: &Judged, said: &[u8]) -> Result<bool, AllocError> {
    let program = case.program.bytes(alloc)?;
    let left = assembled(alloc, case.said, &[], LONG)?;
    Ok(left.says(0, said) && left.wrote("program", &program))
}

fn is_no_listing(alloc: Global, text: &[u8], said: &[u8]) -> Result<bool, AllocError> {
    let left = assembled(alloc, text, &[], LONG)?;
    Ok(left.says(3, said) && left.lacks("program"))
}

fn judges(alloc: Global, case: &Judged) -> Result<bool, AllocError> {
    let program = case.program.bytes(alloc)?;
    let left = judged(alloc, &program, &[], LONG)?;
    Ok(left.has(case.status, case.said, &[]))
}

#[test]
fn programs_are_listed(rt: HostRuntime) -> Result<(), Fail> {
    for case in &LISTED {
        assert!(rt; lists(rt.alloc(), case)?);
    }
    Ok(())
}

/// What `list` prints of a program is assembled to this program.
#[test]
fn listings_are_assembled(rt: HostRuntime) -> Result<(), Fail> {
    let words: [&[u8]; 4] = [
        b"words 8 pages 1\n",
        b"words 4 pages 1\n",
        b"words 8 pages 1\n",
        b"words 4 pages 1\n",
    ];
    for (case, said) in LISTED.iter().zip(words) {
        assert!(rt; assembles(rt.alloc(), case, said)?);
    }
    Ok(())
}

#[test]
fn other_texts_are_refused(rt: HostRuntime) -> Result<(), Fail> {
    for (text, said) in &UNASSEMBLED {
        assert!(rt; is_no_listing(rt.alloc(), text, said)?);
    }
    Ok(())
}

#[test]
fn programs_are_judged(rt: HostRuntime) -> Result<(), Fail> {
    for case in &JUDGED {
        assert!(rt; judges(rt.alloc(), case)?);
    }
    Ok(())
}

#[test]
fn streams_are_played(rt: HostRuntime) -> Result<(), Fail> {
    for case in played_cases() {
        assert!(rt; plays(rt.alloc(), case, LONG)?);
    }
    for case in unplayed_cases() {
        assert!(rt; refuses(rt.alloc(), case, LONG)?);
    }
    Ok(())
}

#[test]
fn streams_are_played_byte_by_byte(rt: HostRuntime) -> Result<(), Fail> {
    for case in played_cases() {
        assert!(rt; plays(rt.alloc(), case, 1)?);
    }
    for case in unplayed_cases() {
        assert!(rt; refuses(rt.alloc(), case, 1)?);
    }
    Ok(())
}

/// Whether a run reports that one of its files is short there.
fn is_short(left: &Left, alloc: Global, file: &str, len: usize) -> Result<bool, AllocError> {
    let said = format!(in alloc; "{file} file: short at {len}\n")?;
    Ok(left.has(3, said.as_bytes(), &[]))
}

/// Whether the program of a line, cut to this length, is reported as short.
fn cut_program_is_short(alloc: Global, len: usize) -> Result<bool, AllocError> {
    let program = one_line(alloc)?;
    let program = program.get(..len).unwrap_or_default();
    let left = played(alloc, program, ONE_LINE_STREAM, &[], LONG)?;
    is_short(&left, alloc, "program", len)
}

/// Whether its stream, cut to this length, is reported as short.
fn cut_stream_is_short(alloc: Global, len: usize) -> Result<bool, AllocError> {
    let stream = ONE_LINE_STREAM.get(..len).unwrap_or_default();
    let left = played(alloc, &one_line(alloc)?, stream, &[], LONG)?;
    is_short(&left, alloc, "stream", len)
}

#[test]
fn cut_files_are_short(rt: HostRuntime) -> Result<(), Fail> {
    for len in 0..one_line(rt.alloc())?.len() {
        assert!(rt; cut_program_is_short(rt.alloc(), len)?);
    }
    for len in 0..ONE_LINE_STREAM.len() {
        assert!(rt; cut_stream_is_short(rt.alloc(), len)?);
    }
    Ok(())
}

/// What is left where the call of this number alone fails: an answer of reading or of writing, and no text but
/// that of the answer. Done where no call has this number.
fn fails_alone(left: &Left) -> bool {
    match left.status {
        4 => left.has(4, b"read fault\n", &[]) && left.has_faults(1, 0),
        5 => (left.desk.said().is_empty() || !left.lacks("image")) && left.has_faults(0, 1),
        status => status == 0,
    }
}

/// Whether the call of this number, failing alone, gives this status.
fn fails_with(alloc: Global, longest: usize, number: u64, status: u8) -> Result<bool, AllocError> {
    let program = one_line(alloc)?;
    let left = played(alloc, &program, ONE_LINE_STREAM, &[number], longest)?;
    Ok(left.status == status && fails_alone(&left))
}

/// How many calls fail alone with this status, from one of this number on.
fn failing_calls(alloc: Global, longest: usize, first: u64, status: u8) -> Result<u64, AllocError> {
    let mut count = 0;
    for number in first..10_000 {
        if !fails_with(alloc, longest, number, status)? {
            break;
        }
        count = number - first + 1;
    }
    Ok(count)
}

/// Whether a run does all its work where no call has this number.
fn is_whole(alloc: Global, longest: usize, number: u64) -> Result<bool, AllocError> {
    let program = one_line(alloc)?;
    let left = played(alloc, &program, ONE_LINE_STREAM, &[number], longest)?;
    Ok(left.has(0, ONE_LINE_REPORT, ONE_LINE_IMAGE))
}

/// Whether a call that fails alone is one of reading up to a number, then one of writing up to the
/// last.
fn each_call_fails(alloc: Global, longest: usize, reads: u64) -> Result<bool, AllocError> {
    if failing_calls(alloc, longest, 1, 4)? != reads {
        return Ok(false);
    }
    let writes = failing_calls(alloc, longest, reads.saturating_add(1), 5)?;
    let last = reads.saturating_add(writes);
    is_whole(alloc, longest, last.saturating_add(1))
}

/// Two files are opened; each is read once, and once more at its end.
#[test]
fn one_call_fails(rt: HostRuntime) -> Result<(), Fail> {
    assert!(rt; each_call_fails(rt.alloc(), LONG, 6)?);
    Ok(())
}

/// The same where each call moves a byte: the files have 53 and 26 bytes.
#[test]
fn one_call_fails_byte_by_byte(rt: HostRuntime) -> Result<(), Fail> {
    assert!(rt; each_call_fails(rt.alloc(), 1, 2 + 53 + 1 + 26 + 1)?);
    Ok(())
}

/// Whether `run a a b` prints this of a file that is both inputs.
fn run_twice_says(alloc: Global, file: &[u8], said: &[u8]) -> Result<bool, AllocError> {
    let words = ["run", "a", "a", "b"];
    let limits = Limits::new(&[], LONG, 100);
    let left = left_by(alloc, &words, &words[1..3], &[file], &words[3..], limits)?;
    Ok(left.says(3, said))
}

/// Whether `run` prints this where its inputs are missing.
fn run_on_nothing_says(alloc: Global, said: &[u8]) -> Result<bool, AllocError> {
    let words = ["run", "program", "stream", "image"];
    let limits = Limits::new(&[], LONG, 100);
    let left = left_by(alloc, &words, &words[1..3], &[], &words[3..], limits)?;
    Ok(left.says(4, said) && left.has_faults(0, 0))
}

/// The same file may be both inputs; a program is no stream.
#[test]
fn an_input_is_given_twice(rt: HostRuntime) -> Result<(), Fail> {
    let program = one_line(rt.alloc())?;
    assert!(rt; run_twice_says(rt.alloc(), &program, b"stream file: magic at 0\n")?);
    Ok(())
}

#[test]
fn an_input_is_missing(rt: HostRuntime) -> Result<(), Fail> {
    assert!(rt; run_on_nothing_says(rt.alloc(), b"read fault\n")?);
    Ok(())
}

/// Whether these words are at fault on a desk that has no files, one after the other.
fn are_at_fault(alloc: Global, desk: &mut MemDesk) -> bool
    requires opens { (all_told desk.old).may_open ≡ Some [] }
    requires creates { (all_told desk.old).may_create ≡ Some [] }
{
    is_at_fault(alloc, &[], desk)
        && is_at_fault(alloc, &["play", "a"], desk)
        && is_at_fault(alloc, &["run", "a", "b"], desk)
        && is_at_fault(alloc, &["run", "a", "b", "a"], desk)
}

fn faults_are_said(alloc: Global, said: &[u8]) -> Result<bool, AllocError> {
    let mut desk = desk_of(alloc, &[], &[], &[], Limits::new(&[], LONG, 500))?;
    Ok(are_at_fault(alloc, &mut desk) && desk.said() == said)
}

#[test]
fn words_are_at_fault(rt: HostRuntime) -> Result<(), Fail> {
    let said =
        b"usage: no command\nusage: unknown command\nusage: wrong number of words\nusage: same name\n";
    assert!(rt; faults_are_said(rt.alloc(), said)?);
    Ok(())
}

#[test]
fn real_files_are_read_and_written(rt: HostRuntime) -> Result<(), Fail> {
    fs::write(&rt, "one_line.brp", &one_line(rt.alloc())?)?;
    fs::write(&rt, "one_line.bfs", ONE_LINE_STREAM)?;
    let mut desk = OsDesk::new(&rt);
    let words = ["run", "one_line.brp", "one_line.bfs", "one_line.bmi"];
    assert!(rt; status_of(rt.alloc(), &words, &mut desk) == 0);
    let image = fs::read(&rt, "one_line.bmi")?;
    assert!(rt; are_parts(&image, ONE_LINE_IMAGE));
    Ok(())
}
