// Worked cases of `trace`, and the commands that take no files. What is expected was derived from the rules of the machine.

use crate::calls::{LONG, left_by, traced};
use crate::cases::ONE_LINE_STREAM;
use crate::desks::Limits;
use crate::programs::one_line;
use std::alloc::{AllocError, Global};
use std::test::Fail;

/// What `trace` prints of a field of one line.
const ONE_LINE_TRACE: &[u8] = b"\
control vre | 00001000 00000000 1 1 1 0\n\
control fm1 | 00001000 00000000 2 2 2 0\n\
push 1 sol 13121110 | 00001000 00000000 3 2 2 0\n\
push 1 eol4 17161514 | 00001000 00000000 4 2 2 0\n\
turn 0 00001000 sync | 00001008 00000000 4 2 2 0\n\
turn 1 00001000 match | 00001008 00000000 3 1 1 0\n\
turn 2 00001008 sync | 00001010 00000000 3 1 1 0\n\
turn 3 00001008 match | 00001010 00000000 2 0 0 0\n\
turn 4 00001010 begin | 00001018 00000000 2 0 0 0\n\
turn 5 00001010 move 1 4 | 00001018 00000000 1 0 0 4\n\
turn 6 00001010 move 1 4 | 00001018 00000000 0 0 0 8\n\
turn 7 00001010 retire | 00001018 00000000 0 0 0 8\n\
turn 8 00001018 jump | 00001000 10000800 0 0 0 8\n\
turns 9\n\
moved 8\n\
overruns 0 0 0 0\n\
status 10000800\n\
";

/// Whether `trace` answers so of a stream, however many bytes a call moves.
fn traces(
    alloc: Global,
    program: &[u8],
    stream: &[u8],
    status: u8,
    said: &[u8],
) -> Result<bool, AllocError> {
    let left = traced(alloc, program, stream, &[], LONG)?;
    let piecewise = traced(alloc, program, stream, &[], 1)?;
    Ok(left.says_only(status, said) && piecewise.says_only(status, said))
}

#[test]
fn a_run_is_traced(rt: HostRuntime) -> Result<(), Fail> {
    let program = one_line(rt.alloc())?;
    assert!(rt; traces(rt.alloc(), &program, ONE_LINE_STREAM, 0, ONE_LINE_TRACE)?);
    let nothing = b"turns 0\nmoved 0\noverruns 0 0 0 0\nstatus 00000000\n";
    assert!(rt; traces(rt.alloc(), &program, b"BFS1\x00", 0, nothing)?);
    Ok(())
}

/// A stream is read whole before anything is printed.
#[test]
fn a_stream_at_fault_is_not_traced(rt: HostRuntime) -> Result<(), Fail> {
    let program = one_line(rt.alloc())?;
    let late = b"BFS1\x04\x04\x04\x06\x05\x09\x00\x00\x00\x0a";
    assert!(rt;
        traces(
            rt.alloc(),
            &program,
            late,
            3,
            b"stream file: tag 0a at 13\n"
        )?
    );
    assert!(rt;
        traces(
            rt.alloc(),
            &program,
            b"BFS3\x00",
            3,
            b"stream file: magic at 0\n"
        )?
    );
    assert!(rt;
        traces(
            rt.alloc(),
            &program,
            b"BFS1\x05",
            3,
            b"stream file: short at 5\n"
        )?
    );
    Ok(())
}

#[test]
fn commands_without_files_print_their_texts(rt: HostRuntime) -> Result<(), Fail> {
    let version = left_by(
        rt.alloc(),
        &["--version"],
        &[],
        &[],
        &[],
        Limits::new(&[], LONG, 5000),
    )?;
    assert!(rt; version.says_only(0, b"bt878 0.1.0\n"));
    let help = left_by(
        rt.alloc(),
        &["--help"],
        &[],
        &[],
        &[],
        Limits::new(&[], LONG, 5000),
    )?;
    assert!(rt; help.status == 0);
    assert!(rt;
        help.desk.said().starts_with(
            b"bt878 compiles, checks and runs RISC capture programs of the Bt878.\n\n"
        )
    );
    assert!(rt; help.desk.said().ends_with(b"\n\nThe manual is bt878(1).\n"));
    Ok(())
}
