//! The commands that verify a program and that make a program file.

ghost use Rattle.std.specs.Prelude.{◌≡◌, [], ◌∷◌, IfOk};
ghost use Rattle.bt878_contract.specs.Tasks.{IsProduct, inputs_of, program_file, program_text};
ghost use Rattle.bt878_top.specs.Products.{product_of};
ghost use Rattle.capture_desk.specs.Desks.{IsAllowed};
ghost use Rattle.command_steps.specs.Reading.{Takes};

use crate::produced::{Outputs, Produced};
use bt878_words::Task;
use capture_desk::Desk;
use command_inputs::{accept, assemble_file, check_file, shown_file};
use command_texts::{ACCEPTED, Refusal, built_text};
use risc_verify::Program;
use std::alloc::Global;

/// `verify PROG`: prints that the program is sound, or refuses it.
pub fn verify<'a, D: Desk>(
    alloc: Global,
    program: &'a str,
    desk: &mut D,
) -> Result<Produced<'a>, Refusal>
    requires { IsAllowed program.now (D.seen desk.old).told.may_open }
    ensures takes { Takes (inputs_of (Task.Verify program.entry)) result (D.seen desk.old) (D.seen desk.new) }
    ensures makes { IfOk result (λ produced. IsProduct (Task.Verify program.entry) (D.seen desk.old).told.inputs (product_of produced)) }
{
    accept(alloc, program, desk)?;
    Ok(Produced::Ready(ACCEPTED))
}

/// `check PROG DESC`: prints for each described field whether the program, which has to be sound, shows it.
pub fn check<'a, D: Desk>(
    alloc: Global,
    program: &'a str,
    desc: &'a str,
    desk: &mut D,
) -> Result<Produced<'a>, Refusal>
    requires program { IsAllowed program.now (D.seen desk.old).told.may_open }
    requires desc { IsAllowed desc.now (D.seen desk.old).told.may_open }
    ensures takes { Takes (inputs_of (Task.Check program.entry desc.entry)) result (D.seen desk.old) (D.seen desk.new) }
    ensures makes { IfOk result
        (λ produced. IsProduct (Task.Check program.entry desc.entry) (D.seen desk.old).told.inputs (product_of produced)) }
{
    let loaded = accept(alloc, program, desk)?;
    let text = shown_file(alloc, &loaded.accepted, desc, desk)?;
    Ok(Produced::Checked(text))
}

/// A program file under a name, and how many words and chunks the program has.
fn built<'a>(name: &'a str, program: Program, fill: u8) -> Produced<'a>
    ensures { product_of result ≡ record { files = program_file name.now program fill ∷ []; text = program_text program } }
{
    let text = built_text(program.words().len(), program.grants().len());
    Produced::Files {
        outputs: Outputs::Program {
            name,
            program,
            fill,
        },
        text,
    }
}

/// `compile DESC PROG`: writes the program of the description and prints how many words and chunks it has.
pub fn compile<'a, D: Desk>(
    alloc: Global,
    desc: &'a str,
    program: &'a str,
    desk: &mut D,
) -> Result<Produced<'a>, Refusal>
    requires { IsAllowed desc.now (D.seen desk.old).told.may_open }
    ensures takes { Takes (inputs_of (Task.Compile desc.entry program.entry)) result (D.seen desk.old) (D.seen desk.new) }
    ensures makes { IfOk result
        (λ produced. IsProduct (Task.Compile desc.entry program.entry) (D.seen desk.old).told.inputs (product_of produced)) }
{
    let checked = check_file(alloc, desc, desk)?;
    let fill = checked.fill();
    Ok(built(program, checked.into_program(alloc)?, fill))
}

/// `assemble TEXT PROG`: writes the program and the fill whose listing the text is, and prints how many words
/// and chunks the program has. The program need not be sound.
pub fn assemble<'a, D: Desk>(
    alloc: Global,
    text: &'a str,
    program: &'a str,
    desk: &mut D,
) -> Result<Produced<'a>, Refusal>
    requires { IsAllowed text.now (D.seen desk.old).told.may_open }
    ensures takes { Takes (inputs_of (Task.Assemble text.entry program.entry)) result (D.seen desk.old) (D.seen desk.new) }
    ensures makes { IfOk result
        (λ produced. IsProduct (Task.Assemble text.entry program.entry) (D.seen desk.old).told.inputs (product_of produced)) }
{
    let file = assemble_file(alloc, text, desk)?;
    Ok(built(program, file.program, file.fill))
}
