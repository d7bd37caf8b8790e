//! Checked descriptions and their programs.

ghost use Rattle.std.specs.Prelude.{◌≡◌, length, IfOk};
ghost use Rattle.capture_desc.specs.WellFormed.{IsWellFormed};
ghost use Rattle.machine_model.specs.Paths.{IsSound};
ghost use Rattle.picture_model.specs.Geometry.{first_fault};
ghost use Rattle.picture_model.specs.Programs.{compiled, compiled_words};
ghost use Rattle.planar_plan.specs.Frames.{Judges};
ghost use Rattle.program_build.specs.Checks.{HasWords, IsChecked};

use crate::judge::judged_words;
use capture_desc::Desc;
use planar_plan::{BuildError, Frame};
use risc_verify::Program;
use std::alloc::{AllocError, Global};
use std::marker::Model;

/// A description whose geometry has no fault, with the words of its program. Contracts see the
/// description.
#[derive(Drop)]
pub struct Checked {
    frame: Frame,
    words: Vec<u32>,
}

impl Model for Checked {
    ghost use Rattle.capture_desc.specs.declared.desc.Desc.{Desc};
    ghost use Rattle.program_build.specs.Checks.{HasWords};

    ghost Value = { Desc };

    ghost view = { λ checked. checked.frame };

    ghost invariant = { λ checked. HasWords checked.frame checked.words.items };
}

impl Checked {
    /// The frame of the picture.
    pub fn frame(&self) -> &Frame
        ensures value { result.now ≡ self.now }
        ensures checked { IsChecked self.now }
    {
        &self.frame
    }

    /// The length of the program in words.
    pub fn words(&self) -> u32
        ensures value { result ≡ length (compiled_words self.now) }
        ensures checked { IsChecked self.now }
    {
        self.words.len() as u32
    }

    /// The byte that memory holds before the capture.
    pub fn fill(&self) -> u8
        ensures value { result ≡ self.now.fill }
        ensures checked { IsChecked self.now }
    {
        self.frame.desc().fill
    }

    /// The program that `build` makes, without a copy of the words.
    pub fn into_program(self, alloc: Global) -> Result<Program, AllocError>
        ensures program { IfOk result (λ program. program ≡ compiled self) }
        ensures sound { IfOk result IsSound }
    {
        let Checked { frame, words } = self;
        program_of(alloc, &frame, words)
    }
}

/// Checks the geometry of a description and the place of its program: `Bad` holds the first fault of all,
/// in the order of `BuildFault` (this project's own rule).
pub fn check(alloc: Global, desc: Desc) -> Result<Checked, BuildError>
    requires { IsWellFormed desc }
    ensures answer { Judges (first_fault desc) result }
    ensures same { IfOk result (λ checked. checked ≡ desc) }
    ensures checked { IfOk result IsChecked }
{
    let frame = Frame::new(alloc, desc)?;
    let words = judged_words(alloc, &frame)?;
    Ok(Checked { frame, words })
}

// The program of a frame whose words are known.
fn program_of(alloc: Global, frame: &Frame, words: Vec<u32>) -> Result<Program, AllocError>
    requires { HasWords frame.now words.items }
    ensures program { IfOk result (λ program. program ≡ compiled frame.now) }
    ensures sound { IfOk result IsSound }
{
    let grants = frame.grants(alloc)?;
    Ok(Program::new(frame.desc().base, words, grants))
}

/// The program of a checked description, which is sound. It has a section for each described field, the
/// top one first: SYNC on the field's vertical code with RESYNC, the VBI part, the picture part, and a JUMP
/// that interrupts and leads to the next section, or from the last to the base. It may write the pages or
/// chunks of the description (this project's own rule).
pub fn build(alloc: Global, checked: &Checked) -> Result<Program, AllocError>
    ensures program { IfOk result (λ program. program ≡ compiled checked.now) }
    ensures sound { IfOk result IsSound }
{
    let words = Vec::from_slice(alloc, &checked.words)?;
    program_of(alloc, &checked.frame, words)
}
