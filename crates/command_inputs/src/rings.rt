//! A ring file, read and checked.

ghost use Rattle.std.specs.Prelude.{◌≤◌, [], ◌∷◌, length, IfErr, IfOk};
ghost use Rattle.capture_desk.specs.Desks.{IsAllowed};
ghost use Rattle.command_steps.specs.Inputs.{OfInput};
ghost use Rattle.command_steps.specs.Reading.{Takes};
ghost use Rattle.command_inputs.specs.Rings.{IsRefused, IsRingFile, a_ring, longest_ring};

use crate::limited::read_limited;
use capture_desk::Desk;
use capture_file::Input;
use command_texts::Refusal;
use ring_compile::{Ring, RingError, read_ring};
use std::alloc::Global;

/// The most bytes of a ring file.
const LONGEST_RING: usize = 1_048_576;

/// Reads and checks the bytes of a ring file.
fn read_bytes(alloc: Global, bytes: &[u8]) -> Result<Ring, Refusal>
    requires { length bytes.now ≤ longest_ring }
    ensures ring { IfOk result (IsRingFile bytes.now) }
    ensures refuses { IfErr result (IsRefused bytes.now) }
{
    match read_ring(alloc, bytes) {
        Ok(ring) => Ok(ring),
        Err(RingError::Bad(fault)) => Err(Refusal::BadRing(fault)),
        Err(RingError::Memory) => Err(Refusal::NoMemory),
    }
}

/// Reads a ring file and checks its ring: `Malformed` where it has more than 1,048,576 bytes, `BadRing` with the
/// first fault of its text, its keys or the ring's place in memory (this project's own rules).
pub fn ring_file<D: Desk>(alloc: Global, name: &str, desk: &mut D) -> Result<Ring, Refusal>
    requires { IsAllowed name.now (D.seen desk.old).told.may_open }
    ensures ring { IfOk result (λ ring. OfInput name.now (D.seen desk.old).told.inputs (λ bytes. IsRingFile bytes ring)) }
    ensures takes { Takes (a_ring name.now ∷ []) result (D.seen desk.old) (D.seen desk.new) }
{
    let bytes = read_limited(alloc, name, LONGEST_RING, Input::Ring, desk)?;
    read_bytes(alloc, &bytes)
}
