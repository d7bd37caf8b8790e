//! A program file, read and checked.

ghost use Rattle.std.specs.Prelude.{◌≡◌, ◌+◌, ◌<◌, [], ◌∷◌, take, IfErr, IfOk, Ok};
ghost use Rattle.capture_desk.specs.Desks.{IsAllowed};
ghost use Rattle.capture_file.specs.Programs.{program_of};
ghost use Rattle.command_steps.specs.Inputs.{OfInput, a_raw};
ghost use Rattle.command_steps.specs.Reading.{Takes};
ghost use Rattle.machine_model.specs.Paths.{IsSound};
ghost use Rattle.command_inputs.specs.Programs.{Accepts, IsRefused, Misreads, a_program, a_sound_program, longest_program};
ghost use Rattle.risc_verify.specs.Verdicts.{Refuses};

use capture_desk::Desk;
use capture_file::{Input, ProgramBytes, ProgramError, ProgramFile, read_kept};
use command_steps::{Keeps, read_pieces};
use command_texts::Refusal;
use risc_verify::{Accepted, Program, Steps, Why, verify};
use std::alloc::{AllocError, Global};
use std::marker::Brand;
use std::sync::ledger::{Blank, Ledger};

/// The most bytes of a program file.
const LONGEST_PROGRAM: usize = 4_259_857;

/// The sound program and the fill that a program file holds.
#[derive(Drop)]
pub struct Loaded {
    /// The program, which is sound.
    pub accepted: Accepted,
    /// The byte that fills the memory at first.
    pub fill: u8,
}

// The bytes of a program file of which pieces are read.
#[derive(Drop)]
struct Pieces {
    file: ProgramBytes,
}

impl Keeps for Pieces {
    ghost kept = { λ pieces. pieces.file };

    fn keep(&mut self, _alloc: Global, piece: &[u8]) -> Result<(), AllocError> {
        self.file.push(piece)
    }
}

// Reads the bytes of a program file, up to one byte beyond the longest.
fn read_bytes<D: Desk>(alloc: Global, name: &str, desk: &mut D) -> Result<ProgramBytes, Refusal>
    requires { IsAllowed name.now (D.seen desk.old).told.may_open }
    ensures bytes { IfOk result
        (λ file. OfInput name.now (D.seen desk.old).told.inputs (λ content. file ≡ take (longest_program + 1) content)) }
    ensures takes { Takes (a_raw name.now longest_program ∷ []) result (D.seen desk.old) (D.seen desk.new) }
{
    let mut pieces = Pieces {
        file: ProgramBytes::new(alloc),
    };
    read_pieces(alloc, name, LONGEST_PROGRAM, desk, &mut pieces)?;
    Ok(pieces.file)
}

/// Reads the bytes of a program file.
fn parse(alloc: Global, file: ProgramBytes) -> Result<ProgramFile, Refusal>
    ensures reads { IfOk result (λ found. program_of file ≡ Ok found) }
    ensures misreads { IfErr result (λ refusal. Misreads (program_of file) refusal) }
{
    match read_kept(alloc, file) {
        Ok(file) => Ok(file),
        Err(ProgramError::File(fault)) => Err(Refusal::Malformed(Input::Program, fault)),
        Err(ProgramError::Memory) => Err(Refusal::NoMemory),
    }
}

/// Reads a program file, whose program need not be sound.
pub fn read_file<D: Desk>(alloc: Global, name: &str, desk: &mut D) -> Result<ProgramFile, Refusal>
    requires { IsAllowed name.now (D.seen desk.old).told.may_open }
    ensures file { IfOk result (λ file. OfInput name.now (D.seen desk.old).told.inputs (λ bytes. program_of bytes ≡ Ok file)) }
    ensures takes { Takes (a_program name.now ∷ []) result (D.seen desk.old) (D.seen desk.new) }
{
    let file = read_bytes(alloc, name, desk)?;
    parse(alloc, file)
}

/// Verifies a program. The verifier's steps are counted in the ledger of `blank`.
fn verify_over<L: Ledger>(alloc: Global, program: Program, blank: Blank) -> Result<Accepted, Why>
    requires name { blank.name ≡ L.name }
    requires parts { blank.parts ≡ L.parts }
    requires some { 0 < blank.parts }
    ensures accepted { IfOk result (λ accepted. accepted ≡ program) }
    ensures refused { IfErr result (λ why. Refuses program why) }
    ensures sound { IfOk result IsSound }
{
    let mut steps = Steps::<L>::new(blank);
    match verify(alloc, program, &mut steps) {
        Ok(accepted) => Ok(accepted),
        Err(rejected) => Err(rejected.why),
    }
}

/// Verifies a program. The verifier's steps are counted in a ledger of their own. Errors: `Bad` with the
/// first bad place of the program's path, only where the program isn't sound; `Memory` where memory ran
/// out (what a fault is, and their order, is this project's own rule).
fn verify_program(alloc: Global, program: Program) -> Result<Accepted, Why>
    ensures accepted { IfOk result (λ accepted. accepted ≡ program) }
    ensures refused { IfErr result (λ why. Refuses program why) }
    ensures sound { IfOk result IsSound }
{
    verify_over::<Brand>(alloc, program, Blank::new(1))
}

/// Checks the program of a program file.
fn judge(alloc: Global, file: ProgramFile) -> Result<Loaded, Refusal>
    ensures accepts { IfOk result (λ loaded. Accepts (Ok file) loaded.accepted loaded.fill) }
    ensures refuses { IfErr result (λ refusal. IsRefused file refusal) }
{
    let ProgramFile { program, fill } = file;
    match verify_program(alloc, program) {
        Ok(accepted) => Ok(Loaded { accepted, fill }),
        Err(Why::Bad { at, nth, cause }) => Err(Refusal::Rejected { at, nth, cause }),
        Err(Why::Memory) => Err(Refusal::NoMemory),
    }
}

/// Reads a program file and checks its program.
pub fn accept<D: Desk>(alloc: Global, name: &str, desk: &mut D) -> Result<Loaded, Refusal>
    requires { IsAllowed name.now (D.seen desk.old).told.may_open }
    ensures accepts { IfOk result
        (λ loaded. OfInput name.now (D.seen desk.old).told.inputs (λ bytes. Accepts (program_of bytes) loaded.accepted loaded.fill)) }
    ensures takes { Takes (a_sound_program name.now ∷ []) result (D.seen desk.old) (D.seen desk.new) }
{
    let file = read_file(alloc, name, desk)?;
    judge(alloc, file)
}
