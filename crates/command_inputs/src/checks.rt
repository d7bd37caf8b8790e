//! The description file of a check, read and checked against a program.

ghost use Rattle.std.specs.Prelude.{[], ◌∷◌, IfErr, IfOk, true};
ghost use Rattle.capture_desk.specs.Desks.{IsAllowed};
ghost use Rattle.command_inputs.specs.Checked.{Finds, FindsIn, IsRefusedBy, a_shown_with};
ghost use Rattle.command_steps.specs.Inputs.{OfInput};
ghost use Rattle.command_steps.specs.Reading.{Takes};

use crate::descriptions::frame_file;
use capture_desk::Desk;
use command_texts::{CheckText, Refusal};
use field_check::check_report;
use planar_plan::Frame;
use risc_verify::Accepted;
use std::alloc::Global;

/// Checks a description against a program.
fn judge(alloc: Global, program: &Accepted, frame: &Frame) -> Result<CheckText, Refusal>
    ensures shown { IfOk result (Finds program.now frame.now true) }
    ensures refused { IfErr result (IsRefusedBy program.now frame.now) }
{
    let report = check_report(alloc, program, frame)?;
    let text = CheckText::new(report.text);
    if report.shows {
        Ok(text)
    } else {
        Err(Refusal::Differs(text))
    }
}

/// Reads the description file of a check and checks it against a sound program: the refusals of `frame_file`, and then
/// `Differs` where the program doesn't show each field that is described. The text of either answer has a line for each
/// described field (this project's own rules).
pub fn shown_file<D: Desk>(
    alloc: Global,
    program: &Accepted,
    name: &str,
    desk: &mut D,
) -> Result<CheckText, Refusal>
    requires { IsAllowed name.now (D.seen desk.old).told.may_open }
    ensures shown { IfOk result (λ text. OfInput name.now (D.seen desk.old).told.inputs (λ bytes. FindsIn program.now bytes true text)) }
    ensures takes { Takes (a_shown_with program.now name.now ∷ []) result (D.seen desk.old) (D.seen desk.new) }
{
    let frame = frame_file(alloc, name, desk)?;
    judge(alloc, program, &frame)
}
