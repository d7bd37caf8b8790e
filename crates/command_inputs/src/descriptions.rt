//! A description file, read and checked.

ghost use Rattle.std.specs.Prelude.{◌≡◌, ◌≤◌, [], ◌∷◌, length, IfErr, IfOk, Ok};
ghost use Rattle.capture_desc.specs.Description.{described};
ghost use Rattle.capture_desc.specs.WellFormed.{IsWellFormed};
ghost use Rattle.capture_desk.specs.Desks.{IsAllowed};
ghost use Rattle.command_steps.specs.Inputs.{OfInput};
ghost use Rattle.command_steps.specs.Reading.{Takes};
ghost use Rattle.command_inputs.specs.Chains.{IsFrameFile, a_first_description};
ghost use Rattle.command_inputs.specs.Descriptions.{Describes, IsRefused, Misreads, a_description, geometry_refusal, longest_description};
ghost use Rattle.picture_model.specs.Geometry.{first_fault, frame_fault};

use crate::limited::read_limited;
use capture_desc::{Desc, DescError, read_desc};
use capture_desk::Desk;
use capture_file::Input;
use command_texts::Refusal;
use planar_plan::Frame;
use program_build::{BuildError, Checked, check};
use std::alloc::Global;

/// The most bytes of a description file.
const LONGEST_DESCRIPTION: usize = 1_048_576;

/// Reads the bytes of a description file.
fn parse(alloc: Global, bytes: &[u8]) -> Result<Desc, Refusal>
    ensures reads { IfOk result (λ desc. described bytes.now ≡ Ok desc) }
    ensures formed { IfOk result IsWellFormed }
    ensures refuses { IfErr result (Misreads (described bytes.now)) }
{
    match read_desc(alloc, bytes) {
        Ok(desc) => Ok(desc),
        Err(DescError::Bad(fault)) => Err(Refusal::BadDesc(fault)),
        Err(DescError::Memory) => Err(Refusal::NoMemory),
    }
}

/// Why a geometry is refused.
fn geometry_refusal(error: BuildError) -> Refusal
    ensures { result ≡ geometry_refusal error }
{
    match error {
        BuildError::Bad(fault) => Refusal::BadGeometry(fault),
        BuildError::Memory => Refusal::NoMemory,
    }
}

/// Reads and checks the bytes of a description file, with its program.
fn check_bytes(alloc: Global, bytes: &[u8]) -> Result<Checked, Refusal>
    requires { length bytes.now ≤ longest_description }
    ensures describes { IfOk result (Describes bytes.now) }
    ensures refuses { IfErr result (IsRefused first_fault bytes.now) }
{
    let desc = parse(alloc, bytes)?;
    match check(alloc, desc) {
        Ok(checked) => Ok(checked),
        Err(error) => Err(geometry_refusal(error)),
    }
}

/// Reads and checks the bytes of a description file, without its program.
fn frame_bytes(alloc: Global, bytes: &[u8]) -> Result<Frame, Refusal>
    requires { length bytes.now ≤ longest_description }
    ensures describes { IfOk result (IsFrameFile bytes.now) }
    ensures refuses { IfErr result (IsRefused frame_fault bytes.now) }
{
    let desc = parse(alloc, bytes)?;
    match Frame::new(alloc, desc) {
        Ok(frame) => Ok(frame),
        Err(error) => Err(geometry_refusal(error)),
    }
}

/// Reads a description file and checks its description: `Malformed` where it has more than 1,048,576
/// bytes, `BadDesc` where its text describes no capture, `BadGeometry` with the first fault of the
/// geometry (this project's own rules).
pub fn check_file<D: Desk>(alloc: Global, name: &str, desk: &mut D) -> Result<Checked, Refusal>
    requires { IsAllowed name.now (D.seen desk.old).told.may_open }
    ensures describes { IfOk result (λ checked. OfInput name.now (D.seen desk.old).told.inputs (λ bytes. Describes bytes checked)) }
    ensures takes { Takes (a_description name.now ∷ []) result (D.seen desk.old) (D.seen desk.new) }
{
    let bytes = read_limited(alloc, name, LONGEST_DESCRIPTION, Input::Desc, desk)?;
    check_bytes(alloc, &bytes)
}

/// Reads a description file of a chain or of a check, whose own program isn't made: `Malformed` and `BadDesc`
/// as `check_file`, and `BadGeometry` with the first fault of the geometry that isn't one of the program's
/// place (this project's own rules).
pub fn frame_file<D: Desk>(alloc: Global, name: &str, desk: &mut D) -> Result<Frame, Refusal>
    requires { IsAllowed name.now (D.seen desk.old).told.may_open }
    ensures describes { IfOk result (λ frame. OfInput name.now (D.seen desk.old).told.inputs (λ bytes. IsFrameFile bytes frame)) }
    ensures takes { Takes (a_first_description name.now ∷ []) result (D.seen desk.old) (D.seen desk.new) }
{
    let bytes = read_limited(alloc, name, LONGEST_DESCRIPTION, Input::Desc, desk)?;
    frame_bytes(alloc, &bytes)
}
