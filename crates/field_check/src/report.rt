//! What is reported of a description's fields.

ghost use Rattle.std.specs.Prelude.{◌≡◌, ◌++◌, IfOk, string_bytes, true};
ghost use Rattle.check_model.specs.Texts.{check_text, verdict_line};
ghost use Rattle.check_model.specs.Verdicts.{is_shown, shows, verdict};
ghost use Rattle.picture_model.specs.Described.{describes};

use crate::plan::field_plan;
use crate::verdict::{is_shown, verdict_by};
use capture_desc::Fields;
use check_model::Verdict;
use check_model::words::field_name;
use pixel_layout::Parity;
use planar_plan::Frame;
use risc_verify::Accepted;
use std::alloc::{AllocError, Global};
use std::fmt::Write;

/// What is found of a described field: where a sound program shows it, or where and why it doesn't (this project's own rules).
/// The error is out of memory.
pub fn verdict(
    alloc: Global,
    program: &Accepted,
    frame: &Frame,
    field: Parity,
) -> Result<Verdict, AllocError>
    requires { describes frame.now.fields field ≡ true }
    ensures { IfOk result (λ found. found ≡ verdict program.now frame.now field) }
{
    let plan = field_plan(alloc, frame, field)?;
    Ok(verdict_by(program, frame, field, &plan))
}

// Appends the line of a field; whether it is shown.
fn push_field(
    alloc: Global,
    program: &Accepted,
    frame: &Frame,
    field: Parity,
    text: &mut String,
) -> Result<bool, AllocError>
    requires { describes frame.now.fields field ≡ true }
    ensures text { IfOk result
        (λ _. string_bytes text.new ≡ string_bytes text.old ++ verdict_line field (verdict program.now frame.now field)) }
    ensures shown { IfOk result (λ shown. shown ≡ is_shown (verdict program.now frame.now field)) }
{
    let found = verdict(alloc, program, frame, field)?;
    let name = field_name(field);
    writeln!(text, "{name}: {found}")?;
    Ok(is_shown(&found))
}

/// What `check` prints, and whether each described field is shown.
#[derive(Drop)]
pub struct CheckReport {
    /// A line for each described field, top first.
    pub text: String,
    /// Whether the program shows each of them.
    pub shows: bool,
}

/// What is reported of the fields of a description beside a sound program. The error is out of memory.
pub fn check_report(
    alloc: Global,
    program: &Accepted,
    frame: &Frame,
) -> Result<CheckReport, AllocError>
    ensures text { IfOk result (λ report. string_bytes report.text ≡ check_text program.now frame.now) }
    ensures shows { IfOk result (λ report. report.shows ≡ shows program.now frame.now) }
{
    let mut text = String::new(alloc);
    let shows = match frame.desc().fields {
        Fields::Top => push_field(alloc, program, frame, Parity::Top, &mut text)?,
        Fields::Bottom => push_field(alloc, program, frame, Parity::Bottom, &mut text)?,
        Fields::Both => {
            let top = push_field(alloc, program, frame, Parity::Top, &mut text)?;
            let bottom = push_field(alloc, program, frame, Parity::Bottom, &mut text)?;
            top && bottom
        }
    };
    Ok(CheckReport { text, shows })
}
