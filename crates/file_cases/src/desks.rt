// Both desks once through.
ghost use Rattle.std.specs.Prelude.{[], IfOk, codes, ◌∷◌, ◌≡◌};
ghost use Rattle.capture_desk.specs.Desks.{IsAllowed};
ghost use Rattle.capture_desk.specs.Memory.{names_of};

use capture_desk::{Call, Desk, Failed, LoggedDesk, MemDesk, Octets, OpenFault, OsDesk, put};
use std::alloc::{AllocError, Global};

// One input and one output; the sixth call fails, and no call moves more than 4 bytes.
fn desk(alloc: Global) -> Result<MemDesk, AllocError>
    ensures opens { IfOk result (λ desk. desk.opens ≡ codes "in" ∷ []) }
    ensures creates { IfOk result (λ desk. names_of desk.outputs ≡ codes "out" ∷ []) }
{
    let input = (
        Octets::from_list(alloc, b"in")?,
        Octets::from_list(alloc, b"abcdef")?,
    );
    let inputs = vec![in alloc; input]?;
    let opens = vec![in alloc; Octets::from_list(alloc, b"in")?]?;
    let creates = vec![in alloc; Octets::from_list(alloc, b"out")?]?;
    let failing = vec![in alloc; 6]?;
    MemDesk::new(alloc, inputs, opens, creates, failing, 4, 7)
}

// Copies the first bytes of the input to the output, in six calls.
fn copy<D: Desk>(desk: &mut D) -> Result<usize, Failed>
    requires opens { IsAllowed (codes "in") (D.seen desk.old).told.may_open }
    requires creates { IsAllowed (codes "out") (D.seen desk.old).told.may_create }
{
    match desk.open_in("in") {
        Ok(()) => {}
        Err(_) => return Err(Failed),
    }
    let mut buf = [0u8; 8];
    let n = desk.read(&mut buf)?;
    desk.create_out("out")?;
    put(desk, &buf[..n])?;
    desk.finish()?;
    desk.say(b"ok")
}

#[test]
fn a_desk_over_memory(rt: HostRuntime) -> Result<(), AllocError> {
    let mut desk = desk(rt.alloc())?;
    assert!(rt; desk.output("out").is_none());
    assert!(rt; copy(&mut desk).is_err());
    assert!(rt; desk.output("out") == Some(b"abcd".as_slice()));
    assert!(rt; desk.said().is_empty() && desk.faults() == [0, 1]);
    Ok(())
}

// Whether a call is the one of this number of those that `copy` makes, counted from the last.
fn is_kept(call: &Call, number: usize) -> bool {
    match (number, call) {
        (0, Call::Say) => true,
        (1, Call::Finish(done)) => *done,
        (2, Call::CreateOut(name, done)) => name.as_slice() == b"out".as_slice() && *done,
        (3, Call::Read(size, moved)) => *size == 8 && *moved == Some(4),
        (4, Call::OpenIn(name, done)) => name.as_slice() == b"in".as_slice() && *done,
        _ => false,
    }
}

#[test]
fn a_desk_that_keeps_its_calls(rt: HostRuntime) -> Result<(), AllocError> {
    let mut desk = LoggedDesk::new(rt.alloc(), desk(rt.alloc())?);
    assert!(rt; copy(&mut desk).is_err());
    assert!(rt; desk.desk().faults() == [0, 1]);
    let Some(calls) = desk.calls() else {
        return Err(AllocError);
    };
    assert!(rt; calls.len() == 5);
    for (number, call) in calls.iter().enumerate() {
        assert!(rt; is_kept(call, number));
    }
    Ok(())
}

#[test]
fn a_file_that_is_not_there(rt: HostRuntime) {
    let mut desk = OsDesk::new(&rt);
    assert!(rt; matches!(desk.open_in("no/such/file"), Err(OpenFault::Failed)));
}
